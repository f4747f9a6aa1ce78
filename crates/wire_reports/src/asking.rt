//! What an update, a switch, a status or a diff asks for.
ghost use Rattle.std.specs.Prelude.{◌≡◌, option_map};
ghost use Rattle.items.specs.View.{values_of};
ghost use Rattle.wire_forms.specs.Answering.{Reads};
ghost use Rattle.wire_reports.specs.Asking.{after_first, diff, diff_at_end, flag_or, revision_behind, status, switch, switch_at_end, update, update_at_end};

use crate::depth_word::{DepthWord, depth_word};
use crate::parameters::read_last_depth;
use byte_string::ByteString;
use items::Item;
use wire_forms::CommandFault::{self, BadParameters};
use wire_forms::{read_boolean, read_flag, read_optional_number, read_revision, read_string};

/// What an update, a switch, a status or a diff asks for.
#[derive(Drop)]
pub struct DriveRequest {
    /// The revision that is asked for, or `None` for the youngest.
    pub revision: Option<u64>,
    /// The entry that is asked for, beneath the session's URL, or the empty text for all.
    pub target: ByteString,
    /// Whether what is beneath directories is asked for too, where no depth is named.
    pub recurse: bool,
    pub depth: Option<DepthWord>,
    /// Whether an entry of another line of history may take the place of what the client has.
    pub ignores_ancestry: bool,
}

/// What a diff asks for.
#[derive(Drop)]
pub struct DiffRequest {
    pub drive: DriveRequest,
    /// The URL of what is compared with what the client has.
    pub url: ByteString,
    /// Whether texts are sent, or else only which files have another one.
    pub sends_texts: bool,
}

/// Reads `( [ rev ] target recurse ? depth send-copyfrom ignore-ancestry )`.
pub fn read_update(params: &[Item]) -> Result<DriveRequest, CommandFault>
    ensures { Reads result (update (values_of params.now)) }
{
    let (revision, rest) = read_revision(params).ok_or(BadParameters)?;
    let (target, rest) = read_string(rest).ok_or(BadParameters)?;
    let (recurse, rest) = read_flag(rest).ok_or(BadParameters)?;
    let (depth, ignores_ancestry) = read_update_end(rest).ok_or(BadParameters)?;
    Ok(DriveRequest {
        revision,
        target: target.clone()?,
        recurse,
        depth,
        ignores_ancestry,
    })
}

/// Gives what the first of these items says, if it is the word `true` or `false`, and another value otherwise.
fn flag_or(otherwise: bool, items: &[Item]) -> bool
    ensures { result ≡ flag_or otherwise (values_of items.now) }
{
    match read_flag(items) {
        None => otherwise,
        Some((flag, _)) => flag,
    }
}

/// Gives what comes after the first item, if there is one.
fn after_first(items: &[Item]) -> &[Item]
    ensures { values_of result.now ≡ after_first (values_of items.now) }
{
    match items {
        [] => items,
        [_, rest @ ..] => rest,
    }
}

/// Reads `? depth send-copyfrom ignore-ancestry` of an update: the depth, if there is one, and whether ancestry is ignored.
fn read_update_end(items: &[Item]) -> Option<(Option<DepthWord>, bool)>
    ensures { result ≡ update_at_end (values_of items.now) }
{
    match items {
        [] => Some((None, false)),
        [Item::Word(word), rest @ ..] => {
            let depth = depth_word(word.as_bytes())?;
            let (_copies, rest) = read_flag(rest)?;
            Some((Some(depth), flag_or(false, rest)))
        }
        _ => None,
    }
}

/// Reads `? depth send-copyfrom ignore-ancestry` of a switch: the depth, if there is one, and whether ancestry is ignored.
fn read_switch_end(items: &[Item]) -> Option<(Option<DepthWord>, bool)>
    ensures { result ≡ switch_at_end (values_of items.now) }
{
    match items {
        [] => Some((None, true)),
        [Item::Word(word), rest @ ..] => {
            let depth = depth_word(word.as_bytes())?;
            Some((Some(depth), flag_or(true, after_first(rest))))
        }
        _ => None,
    }
}

/// Reads `( [ rev ] target recurse url ? depth send-copyfrom ignore-ancestry )`: what is asked for, and the URL.
pub fn read_switch(params: &[Item]) -> Result<(DriveRequest, ByteString), CommandFault>
    ensures { Reads result (switch (values_of params.now)) }
{
    let (revision, rest) = read_revision(params).ok_or(BadParameters)?;
    let (target, rest) = read_string(rest).ok_or(BadParameters)?;
    let (recurse, rest) = read_flag(rest).ok_or(BadParameters)?;
    let (url, rest) = read_string(rest).ok_or(BadParameters)?;
    let (depth, ignores_ancestry) = read_switch_end(rest).ok_or(BadParameters)?;
    let url = url.clone()?;
    Ok((
        DriveRequest {
            revision,
            target: target.clone()?,
            recurse,
            depth,
            ignores_ancestry,
        },
        url,
    ))
}

/// Reads `( target recurse ? [ rev ] ? depth )`.
pub fn read_status(params: &[Item]) -> Result<DriveRequest, CommandFault>
    ensures { Reads result (status (values_of params.now)) }
{
    let (target, rest) = read_string(params).ok_or(BadParameters)?;
    let (recurse, rest) = read_flag(rest).ok_or(BadParameters)?;
    let (revision, rest) = read_revision_behind(rest).ok_or(BadParameters)?;
    let depth = read_last_depth(rest).ok_or(BadParameters)?;
    Ok(DriveRequest {
        revision,
        target: target.clone()?,
        recurse,
        depth,
        ignores_ancestry: false,
    })
}

/// Reads `? text-deltas ? depth` of a diff: whether texts are sent, and the depth, if there is one.
fn read_diff_end(items: &[Item]) -> Option<(bool, Option<DepthWord>)>
    ensures { result ≡ diff_at_end (values_of items.now) }
{
    match items {
        [] => Some((true, None)),
        [first, rest @ ..] => {
            let sends_texts = read_boolean(first)?;
            let depth = read_last_depth(rest)?;
            Some((sends_texts, depth))
        }
    }
}

/// Reads `( [ rev ] target recurse ignore-ancestry url ? text-deltas ? depth )`.
pub fn read_diff(params: &[Item]) -> Result<DiffRequest, CommandFault>
    ensures { Reads result (diff (values_of params.now)) }
{
    let (revision, rest) = read_revision(params).ok_or(BadParameters)?;
    let (target, rest) = read_string(rest).ok_or(BadParameters)?;
    let (recurse, rest) = read_flag(rest).ok_or(BadParameters)?;
    let (ignores_ancestry, rest) = read_flag(rest).ok_or(BadParameters)?;
    let (url, rest) = read_string(rest).ok_or(BadParameters)?;
    let (sends_texts, depth) = read_diff_end(rest).ok_or(BadParameters)?;
    let url = url.clone()?;
    Ok(DiffRequest {
        drive: DriveRequest {
            revision,
            target: target.clone()?,
            recurse,
            depth,
            ignores_ancestry,
        },
        url,
        sends_texts,
    })
}

/// Reads `? [ rev ]`: the revision, if there is one, and what comes after it.
fn read_revision_behind(items: &[Item]) -> Option<(Option<u64>, &[Item])>
    ensures { option_map (λ p. (p.0, values_of p.1.now)) result
        ≡ revision_behind (values_of items.now) }
{
    match items {
        [] => Some((None, items)),
        [Item::List(revision), rest @ ..] => {
            Some((read_optional_number(revision.as_slice())?, rest))
        }
        _ => None,
    }
}
