//! What a lock and an unlock ask for.
ghost use Rattle.std.specs.Prelude.{◌≡◌, IfOk};
ghost use Rattle.dates.specs.Dates.{IsDateText};
ghost use Rattle.svnpath.specs.Texts.{joined};
ghost use Rattle.repo_api.specs.Locking.{lock_of, owner_of};
ghost use Rattle.machine.specs.Commands.{lock_ask, unlock_ask};
ghost use Rattle.wire_replies.specs.Made.{Makes};
ghost use Rattle.session_changes.specs.Asked.{AsksAt};

use crate::token::token_of;
use byte_string::ByteString;
use commands::{LockCommand, UnlockCommand};
use dates::date_bytes;
use machine::{Client, Env};
use repo_api::{Lock, LockAsk, UnlockAsk};
use std::alloc::{AllocError, Global};
use svnpath::{Path, PathFault};

/// Makes what is asked of a path by a lock of this moment.
fn lock_ask(
    alloc: Global,
    env: Env,
    client: &Client,
    command: &LockCommand,
    path: Path,
) -> Result<LockAsk, AllocError>
    ensures { IfOk result (λ ask. IsDateText env.moment ask.date
        × (ask ≡ lock_ask env client.now command.now path ask.date)) }
{
    Ok(LockAsk {
        user: client.user.clone()?,
        comment: command.comment.clone()?,
        steals: command.steals,
        current: command.current,
        token: token_of(alloc, env.token)?,
        date: date_bytes(alloc, env.moment)?,
        path,
    })
}

/// Makes what a lock asks for.
pub(crate) fn lock_asked_for(
    alloc: Global,
    env: Env,
    client: &Client,
    command: &LockCommand,
) -> Result<LockAsk, PathFault>
    ensures { AsksAt result (joined client.now.path command.now.path) (λ path ask.
        IsDateText env.moment ask.date
        × (ask ≡ lock_ask env client.now command.now path ask.date)) }
{
    let path = client.path.join(alloc, command.path.as_slice())?;
    Ok(lock_ask(alloc, env, client, command, path)?)
}

/// Makes what an unlock asks of a path.
fn unlock_ask(client: &Client, command: &UnlockCommand, path: Path) -> Result<UnlockAsk, AllocError>
    ensures { Makes result (unlock_ask client.now command.now path) }
{
    Ok(UnlockAsk {
        user: client.user.clone()?,
        token: command.token.clone()?,
        breaks: command.breaks,
        tells_dead_tokens: client.is_of_today,
        path,
    })
}

/// Makes what an unlock asks for.
pub(crate) fn unlock_asked_for(
    alloc: Global,
    client: &Client,
    command: &UnlockCommand,
) -> Result<UnlockAsk, PathFault>
    ensures { AsksAt result (joined client.now.path command.now.path)
        (λ path ask. ask ≡ unlock_ask client.now command.now path) }
{
    let path = client.path.join(alloc, command.path.as_slice())?;
    Ok(unlock_ask(client, command, path)?)
}

/// A lock, and where it stands.
#[derive(Drop)]
pub(crate) struct MadeLock {
    pub(crate) path: Path,
    pub(crate) lock: Lock,
}

/// Gives the owner of a lock of this user's.
fn owner_of(alloc: Global, user: &Option<ByteString>) -> Result<ByteString, AllocError>
    ensures { Makes result (owner_of user.now) }
{
    match user {
        None => Ok(ByteString::new(Vec::new(alloc))),
        Some(user) => user.clone(),
    }
}

/// Makes the lock that is asked for.
fn lock_of(alloc: Global, ask: &LockAsk) -> Result<Lock, AllocError>
    ensures { Makes result (lock_of ask.now) }
{
    Ok(Lock {
        token: ask.token.clone()?,
        owner: owner_of(alloc, &ask.user)?,
        comment: ask.comment.clone()?,
        created: ask.date.clone()?,
    })
}

/// Makes the lock that is asked for, and says where it is to be.
pub(crate) fn made_lock(alloc: Global, ask: &LockAsk) -> Result<MadeLock, AllocError>
    ensures { Makes result (record { path = ask.now.path; lock = lock_of ask.now }) }
{
    Ok(MadeLock {
        path: ask.path.clone()?,
        lock: lock_of(alloc, ask)?,
    })
}
