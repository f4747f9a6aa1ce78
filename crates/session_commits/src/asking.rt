//! What a commit asks for.
ghost use Rattle.std.specs.{Prelude.{◌≡◌, [], Ok, Err, MatchResult, option_map}, List.list_all};
ghost use Rattle.svnpath.specs.Components.{AnswersPath};
ghost use Rattle.refusals.specs.Faults.{IfRefusedBy};
ghost use Rattle.repo_api.specs.Judging.{is_property_name};
ghost use Rattle.machine.specs.Commands.{are_named, asked_by, lock_tokens, set_all};
ghost use Rattle.wire_replies.specs.Made.{Makes};

use byte_string::ByteString;
use commands::CommitCommand;
use machine::CommitParameters;
use refusals::{NotDone, Refusal, path_refusal};
use repo_api::{LockTokens, Properties, is_property_name};
use std::alloc::{AllocError, Global};
use svnpath::{Path, PathFault};
use wire_forms::Pairs;

/// Reads the lock tokens that are handed in, with the paths that they name.
fn lock_tokens(
    alloc: Global,
    base: &Path,
    pairs: &[(ByteString, ByteString)],
) -> Result<LockTokens, PathFault>
    ensures { AnswersPath result (lock_tokens base.now pairs.now) }
{
    let mut tokens = LockTokens::new(alloc);
    for pair in pairs {
        let path = base.join(alloc, pair.0.as_slice())?;
        let token = pair.1.clone()?;
        tokens.push(path, token)?;
    }
    Ok(tokens)
}

/// Says whether each property may have its name.
fn are_names(pairs: &[(ByteString, ByteString)]) -> bool
    ensures { result ≡ list_all (λ pair. is_property_name pair.0) pairs.now }
{
    pairs.iter().all(|pair| is_property_name(pair.0.as_slice()))
}

/// Says whether each revision property that is handed in may have its name.
fn are_named(properties: &Option<Pairs>) -> bool
    ensures { result ≡ are_named properties.now }
{
    match properties {
        None => true,
        Some(pairs) => are_names(pairs.as_slice()),
    }
}

/// Makes properties of the pairs.
fn properties_of(
    alloc: Global,
    pairs: &[(ByteString, ByteString)],
) -> Result<Properties, AllocError>
    ensures { Makes result (set_all [] pairs.now) }
{
    let mut properties = Properties::new(alloc);
    for pair in pairs {
        let name = pair.0.clone()?;
        let value = pair.1.clone()?;
        properties.set(name, value)?;
    }
    Ok(properties)
}

/// Makes the list of revision properties, if there is one.
fn optional_properties(
    alloc: Global,
    pairs: &Option<Pairs>,
) -> Result<Option<Properties>, AllocError>
    ensures { Makes result (option_map (set_all []) pairs.now) }
{
    match pairs {
        None => Ok(None),
        Some(pairs) => Ok(Some(properties_of(alloc, pairs.as_slice())?)),
    }
}

/// Makes what a commit asks for, with its lock tokens read.
fn asked(
    alloc: Global,
    command: &CommitCommand,
    tokens: LockTokens,
) -> Result<CommitParameters, AllocError>
    ensures { Makes result (record {
      message = command.now.message;
      properties = option_map (set_all []) command.now.properties;
      tokens = tokens;
      keep_locks = command.now.keep_locks;
    }) }
{
    Ok(CommitParameters {
        message: command.message.clone()?,
        properties: optional_properties(alloc, &command.properties)?,
        tokens,
        keep_locks: command.keep_locks,
    })
}

/// Makes what a commit asks for, with its lock tokens read, if its revision properties may have their names.
fn asked_with(
    alloc: Global,
    command: &CommitCommand,
    tokens: LockTokens,
) -> Result<CommitParameters, NotDone>
    ensures { MatchResult result (λ asked. asked_by command.now (Ok tokens) ≡ Ok asked)
        (λ fault. IfRefusedBy fault (λ r. asked_by command.now (Ok tokens) ≡ Err r)) }
{
    if !are_named(&command.properties) {
        return Err(NotDone::Refused(Refusal::NotSupported));
    }
    match asked(alloc, command, tokens) {
        Ok(asked) => Ok(asked),
        Err(_) => Err(NotDone::NoMemory),
    }
}

/// Reads what a commit asks for.
pub fn asked_by(
    alloc: Global,
    base: &Path,
    command: &CommitCommand,
) -> Result<CommitParameters, NotDone>
    ensures { let wanted = asked_by command.now (lock_tokens base.now command.now.tokens) in
        MatchResult result (λ asked. wanted ≡ Ok asked)
        (λ fault. IfRefusedBy fault (λ r. wanted ≡ Err r)) }
{
    match lock_tokens(alloc, base, command.tokens.as_slice()) {
        Ok(tokens) => asked_with(alloc, command, tokens),
        Err(PathFault::NoMemory) => Err(NotDone::NoMemory),
        Err(fault) => Err(NotDone::Refused(path_refusal(fault))),
    }
}
