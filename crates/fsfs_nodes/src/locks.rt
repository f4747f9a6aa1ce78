//! The file of locks.
ghost use Rattle.std.specs.Prelude.{◌≡◌, ◌++◌, map, IfOk, OnOk};
ghost use Rattle.fsfs_text.specs.{Reading.{Answers, or_bad}, Dumps.pair_bytes};
ghost use Rattle.fsfs_nodes.specs.{Rows.value_at, Locks.{lock_bytes, lock_pair, locks_bytes, lock_with, lock_of, locked_of, locks_of, locks_within}};

use crate::rows::read_rows;
use byte_string::ByteString;
use fsfs_text::{FileFault, append_end, append_pair};
use repo_api::{LOCK_LIMIT, Lock, Properties};
use std::alloc::{AllocError, Global};
use svnpath::{Path, PathFault};

/// Makes the text of a lock: a dump of its comment, if it has one, its date, owner and token.
fn write_lock(alloc: Global, lock: &Lock) -> Result<Vec<u8>, AllocError>
    ensures { IfOk result (λ v. v.items ≡ lock_bytes lock.now) }
{
    let mut out = Vec::new(alloc);
    if let Some(comment) = &lock.comment {
        append_pair(&mut out, b"comment", comment.as_slice())?;
    }
    append_pair(&mut out, b"created", lock.created.as_slice())?;
    append_pair(&mut out, b"owner", lock.owner.as_slice())?;
    append_pair(&mut out, b"token", lock.token.as_slice())?;
    append_end(&mut out)?;
    Ok(out)
}

/// Appends a lock and the path that is locked.
fn append_lock(alloc: Global, out: &mut Vec<u8>, path: &Path, lock: &Lock) -> Result<(), AllocError>
    ensures { OnOk result (out.new.items
        ≡ out.old.items ++ pair_bytes (lock_pair (path.now, lock.now))) }
{
    let mut key = Vec::new(alloc);
    path.append_text(&mut key)?;
    let text = write_lock(alloc, lock)?;
    append_pair(out, key.as_slice(), text.as_slice())
}

/// Makes the file of locks: a dump of paths and their locks, in the order in which they come.
pub fn write_locks(alloc: Global, locks: &[(&Path, &Lock)]) -> Result<Vec<u8>, AllocError>
    ensures { IfOk result (λ v. v.items ≡ locks_bytes (map (λ l. (l.0.now, l.1.now)) locks.now)) }
{
    let mut out = Vec::new(alloc);
    for (path, lock) in locks {
        append_lock(alloc, &mut out, path, lock)?;
    }
    append_end(&mut out)?;
    Ok(out)
}

/// Finds the value of a key.
fn find(alloc: Global, fields: &Properties, key: &[u8]) -> Result<Option<ByteString>, AllocError>
    ensures { IfOk result (λ value. value ≡ value_at key.now fields.now) }
{
    let key = ByteString::from_slice(alloc, key)?;
    match fields.get(&key) {
        Some(value) => Ok(Some(value.clone()?)),
        None => Ok(None),
    }
}

/// Finds the value of a key that has to be there.
fn needed(alloc: Global, fields: &Properties, key: &[u8]) -> Result<ByteString, FileFault>
    ensures { Answers (λ value. value) result (or_bad (value_at key.now fields.now)) }
{
    match find(alloc, fields, key)? {
        Some(value) => Ok(value),
        None => Err(FileFault::BadLine),
    }
}

/// Makes the lock of its fields.
#[tactic(auto, unfolding(crate::specs::Locks::lock_with))]
fn lock_with(alloc: Global, fields: &Properties) -> Result<Lock, FileFault>
    ensures { Answers (λ lock. lock) result (lock_with fields.now) }
{
    let created = needed(alloc, fields, b"created")?;
    let owner = needed(alloc, fields, b"owner")?;
    let token = needed(alloc, fields, b"token")?;
    let comment = find(alloc, fields, b"comment")?;
    Ok(Lock {
        token,
        owner,
        comment,
        created,
    })
}

/// Reads the lock that a text says.
#[tactic(auto, unfolding(crate::specs::Locks::lock_of))]
fn read_lock(alloc: Global, text: &[u8]) -> Result<Lock, FileFault>
    ensures { Answers (λ lock. lock) result (lock_of text.now) }
{
    let fields = read_rows(alloc, text)?;
    lock_with(alloc, &fields)
}

/// Reads a path and its lock.
#[tactic(auto, unfolding(crate::specs::Locks::locked_of))]
fn read_locked(alloc: Global, key: &[u8], text: &[u8]) -> Result<(Path, Lock), FileFault>
    ensures { Answers (λ locked. locked) result (locked_of (key.now, text.now)) }
{
    let path = match Path::parse(alloc, key) {
        Ok(path) => path,
        Err(PathFault::NoMemory) => return Err(FileFault::NoMemory),
        Err(_) => return Err(FileFault::BadLine),
    };
    let lock = read_lock(alloc, text)?;
    Ok((path, lock))
}

/// Reads the rows of the file of locks, if they are not too many.
fn locks_in(alloc: Global, rows: &Properties) -> Result<Vec<(Path, Lock)>, FileFault>
    ensures { Answers (λ v. v.items) result (locks_within LOCK_LIMIT rows.now) }
{
    let mut locks = Vec::new(alloc);
    for (key, text) in rows.iter() {
        if locks.len() >= LOCK_LIMIT {
            return Err(FileFault::BadLine);
        }
        let locked = read_locked(alloc, key.as_slice(), text.as_slice())?;
        locks.push(locked)?;
    }
    Ok(locks)
}

/// Reads the file of locks, by the bytes of the paths.
///
/// # Errors
///
/// `Truncated` or `BadLine` where the bytes are no dump of paths and locks, where a path comes
/// twice, or where there are too many; or `NoMemory`.
#[tactic(auto, unfolding(crate::specs::Locks::locks_of))]
pub fn read_locks(alloc: Global, bytes: &[u8]) -> Result<Vec<(Path, Lock)>, FileFault>
    ensures { Answers (λ v. v.items) result (locks_of bytes.now) }
{
    let rows = read_rows(alloc, bytes)?;
    locks_in(alloc, &rows)
}
