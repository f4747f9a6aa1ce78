//! What refuses the use of a lock.
ghost use Rattle.std.specs.{Prelude.{◌≡◌, ℕ, List, IfOk, map, option_copied}, Map.Iter.deref_pair};
ghost use Rattle.pathlocks.specs.Handed.{is_lent};
ghost use Rattle.repo_api.specs.Locking.{entry_refusal, first_refusal, first_refusing, holder_refusal, is_dead_token, is_handed_in, is_held, is_token, lock_of};
ghost use Rattle.repo_api.specs.Locking.{lock_place_refusal, owner_of, taking_refusal, user_refusal, way_refusal};

use byte_string::ByteString;
use refusals::Refusal;
use repo_api::{LOCK_LIMIT, Lock, LockAsk, NodeKind, UnlockAsk, is_older};
use std::alloc::{AllocError, Global};
use std::collections::BTreeSet;
use svnpath::Path;

/// Says what keeps the user from using the lock, where the right token was given or was not.
fn holder_refusal(user: Option<&ByteString>, is_right: bool, lock: &Lock) -> Option<Refusal>
    ensures { result ≡ holder_refusal (option_copied user.entry) is_right lock.now }
{
    let Some(user) = user else {
        return Some(Refusal::NoUser);
    };
    if *user != lock.owner {
        Some(Refusal::NotTheLockOwner)
    } else if is_right {
        None
    } else {
        Some(Refusal::BadLockToken)
    }
}

/// Collects the tokens that were handed in, under whatever paths.
pub(crate) fn token_set<'a>(
    alloc: Global,
    tokens: &'a [(Path, ByteString)],
) -> Result<BTreeSet<&'a [u8]>, AllocError>
    ensures { IfOk result (λ set. (token : List ℕ)
        → is_lent set.keys token ≡ is_handed_in tokens.now token) }
{
    let mut set = BTreeSet::new(alloc);
    for pair in tokens {
        set.insert(pair.1.as_slice())?;
    }
    Ok(set)
}

/// Says whether the token is in the set.
fn has_token(set: &BTreeSet<&[u8]>, token: &ByteString) -> bool
    ensures { result ≡ is_lent set.now.keys token.now }
{
    set.contains(token.as_slice())
}

/// Says why a lock in the way refuses a commit with these tokens.
fn way_refusal(user: Option<&ByteString>, tokens: &BTreeSet<&[u8]>, lock: &Lock) -> Option<Refusal>
    ensures { result ≡ way_refusal (option_copied user.entry) (is_lent tokens.now.keys) lock.now }
{
    holder_refusal(user, has_token(tokens, &lock.token), lock)
}

/// Says why the first of the locks that refuses a commit with these tokens does so.
pub(crate) fn first_refusal(
    locks: &[(&Path, &Lock)],
    user: Option<&ByteString>,
    tokens: &BTreeSet<&[u8]>,
) -> Option<Refusal>
    ensures { result
        ≡ first_refusal (option_copied user.entry) (is_lent tokens.now.keys)
        (map deref_pair locks.now) }
{
    for pair in locks {
        if let Some(refusal) = way_refusal(user, tokens, pair.1) {
            return Some(refusal);
        }
    }
    None
}

/// Finds the path of the first of the locks that refuses a commit with these tokens.
pub(crate) fn first_refusing<'a>(
    locks: &[(&'a Path, &'a Lock)],
    user: Option<&ByteString>,
    tokens: &BTreeSet<&[u8]>,
) -> Option<&'a Path>
    ensures { option_copied result
        ≡ first_refusing (option_copied user.entry) (is_lent tokens.now.keys)
        (map deref_pair locks.now) }
{
    for pair in locks {
        if let Some(_refusal) = way_refusal(user, tokens, pair.1) {
            return Some(pair.0);
        }
    }
    None
}

/// Copies a path, if there is one.
pub(crate) fn copied(path: Option<&Path>) -> Result<Option<Path>, AllocError>
    ensures { IfOk result (λ copy. copy ≡ option_copied path.entry) }
{
    match path {
        None => Ok(None),
        Some(path) => Ok(Some(path.clone()?)),
    }
}

/// Says whether the token is the lock's: it is not where there is none.
fn is_token(token: Option<&ByteString>, lock: &Lock) -> bool
    ensures { result ≡ is_token (option_copied token.entry) lock.now }
{
    match token {
        None => false,
        Some(token) => *token == lock.token,
    }
}

/// Says whether a token that is handed in is of another lock than this, and is to be told as one of no lock.
fn is_dead_token(ask: &UnlockAsk, lock: &Lock) -> bool
    ensures { result ≡ is_dead_token ask.now lock.now }
{
    ask.tells_dead_tokens && ask.token.is_some() && !is_token(ask.token.as_ref(), lock)
}

/// Says why the lock, if there is one, is not taken away.
pub(crate) fn taking_refusal(ask: &UnlockAsk, lock: Option<&Lock>) -> Option<Refusal>
    ensures { result ≡ taking_refusal ask.now (option_copied lock.entry) }
{
    let Some(lock) = lock else {
        return Some(Refusal::NoSuchLock);
    };
    if ask.breaks {
        return None;
    }
    if is_dead_token(ask, lock) {
        return Some(Refusal::NoSuchLock);
    }
    holder_refusal(ask.user.as_ref(), is_token(ask.token.as_ref(), lock), lock)
}

/// Refuses a lock without a user: only a user locks.
pub(crate) fn user_refusal(user: Option<&ByteString>) -> Option<Refusal>
    ensures { result ≡ user_refusal (option_copied user.entry) }
{
    match user {
        None => Some(Refusal::NoUser),
        Some(_) => None,
    }
}

/// Says why what is at a path, last changed at this revision, is not locked by a client that has seen it at that one.
pub(crate) fn entry_refusal(
    current: Option<u64>,
    kind: NodeKind,
    created: Option<u64>,
) -> Option<Refusal>
    ensures { result ≡ entry_refusal current kind created }
{
    match kind {
        NodeKind::Absent => Some(Refusal::NotFound),
        NodeKind::Directory => Some(Refusal::NotAFile),
        NodeKind::File => {
            if is_older(current, created) {
                Some(Refusal::LockOutOfDate)
            } else {
                None
            }
        }
    }
}

/// Says why no lock is put where there is this one or none, and there are so many in all.
pub(crate) fn place_refusal(steals: bool, lock: Option<&Lock>, count: usize) -> Option<Refusal>
    ensures { result ≡ lock_place_refusal steals (option_copied lock.entry) count }
{
    match lock {
        None => {
            if count >= LOCK_LIMIT {
                Some(Refusal::NotSupported)
            } else {
                None
            }
        }
        Some(_) => {
            if steals {
                None
            } else {
                Some(Refusal::AlreadyLocked)
            }
        }
    }
}

/// Gives the name of the user who is to own a lock: the empty one where there is no user.
fn owner_of(alloc: Global, user: Option<ByteString>) -> ByteString
    ensures { result ≡ owner_of user }
{
    match user {
        None => ByteString::new(Vec::new(alloc)),
        Some(user) => user,
    }
}

/// Makes the lock that is asked for, with its path.
pub(crate) fn lock_of(alloc: Global, ask: LockAsk) -> (Path, Lock)
    ensures path { result.0 ≡ ask.path }
    ensures lock { result.1 ≡ lock_of ask }
{
    let LockAsk {
        path,
        user,
        comment,
        token,
        date,
        ..
    } = ask;
    let lock = Lock {
        token,
        owner: owner_of(alloc, user),
        comment,
        created: date,
    };
    (path, lock)
}

/// Says whether the lock, if there is one, is the user's and has the token.
pub(crate) fn is_held(user: Option<&ByteString>, token: &ByteString, lock: Option<&Lock>) -> bool
    ensures { result ≡ is_held (option_copied user.entry) token.now (option_copied lock.entry) }
{
    match lock {
        None => false,
        Some(lock) => holder_refusal(user, *token == lock.token, lock).is_none(),
    }
}
