//! Small files, which are read back before they are saved: what they say is what was to be written.
ghost use Rattle.std.specs.{Prelude.{◌≡◌, ◌+◌, true, map, IfOk, Some}, Map.Iter.deref_pair, Result.result_ok};
ghost use Rattle.fsfs_text.specs.Formats.{format_of};
ghost use Rattle.fsfs_nodes.specs.{Current.current_of, Locks.locks_of, Properties.properties_of};
ghost use Rattle.repostore.specs.Current.{count_in};

use crate::counting::count_of;
use byte_string::ByteString;
use filed_trees::check_same_properties;
use fsfs_nodes::{
    Current, append_current, read_current, read_locks, read_properties, write_locks,
    write_properties,
};
use fsfs_text::{Format, append_format, read_format};
use repo_api::{Lock, Properties};
use std::alloc::{AllocError, Global};
use svnpath::Path;

/// Makes the file `format`. Where it could not be read back it is not made.
pub fn format_file(alloc: Global, format: Format) -> Result<Vec<u8>, AllocError>
    ensures { IfOk result (λ file. format_of file.items ≡ Some format) }
{
    let mut file = Vec::new(alloc);
    append_format(&mut file, format)?;
    match read_format(file.as_slice()) {
        Ok(read) if read == format => Ok(file),
        _ => Err(AllocError),
    }
}

/// Makes the file of a revision's properties. Where it could not be read back it is not made.
pub(crate) fn properties_file(alloc: Global, properties: &Properties) -> Result<Vec<u8>, AllocError>
    ensures { IfOk result (λ file. result_ok (properties_of file.items) ≡ Some properties.now) }
{
    let file = write_properties(alloc, properties)?;
    let Ok(read) = read_properties(alloc, file.as_slice()) else {
        return Err(AllocError);
    };
    match check_same_properties(alloc, &read, properties) {
        Ok(()) => Ok(file),
        Err(_) => Err(AllocError),
    }
}

/// Says whether both have the same bytes.
#[tactic(auto, using(svnpath::specs::PathLaws::same_component_is))]
fn is_same_text(text: &ByteString, other: &ByteString) -> bool
    ensures { result ≡ true → text.now ≡ other.now }
{
    text == other
}

/// Says whether both are the same comment, or both none.
fn is_same_comment(comment: &Option<ByteString>, other: &Option<ByteString>) -> bool
    ensures { result ≡ true → comment.now ≡ other.now }
{
    match (comment, other) {
        (None, None) => true,
        (Some(comment), Some(other)) => is_same_text(comment, other),
        _ => false,
    }
}

/// Says whether two locks are the same.
fn is_same_lock(lock: &Lock, other: &Lock) -> bool
    ensures { result ≡ true → lock.now ≡ other.now }
{
    is_same_text(&lock.token, &other.token)
        && is_same_text(&lock.owner, &other.owner)
        && is_same_text(&lock.created, &other.created)
        && is_same_comment(&lock.comment, &other.comment)
}

/// Says whether two paths are the same.
#[tactic(auto, using(svnpath::specs::PathLaws::same_path_is))]
fn is_same_path(path: &Path, other: &Path) -> bool
    ensures { result ≡ true → path.now ≡ other.now }
{
    path == other
}

/// Says whether a row is a path with its lock.
fn is_same_row(row: (&Path, &Lock), other: &(Path, Lock)) -> bool
    ensures { result ≡ true → deref_pair row.entry ≡ other.now }
{
    is_same_path(row.0, &other.0) && is_same_lock(row.1, &other.1)
}

/// Says whether both lists have the same locks at the same paths, in the same order.
fn are_same_locks(locks: &[(&Path, &Lock)], others: &[(Path, Lock)]) -> bool
    ensures { result ≡ true → map deref_pair locks.now ≡ others.now }
{
    if locks.len() != others.len() {
        return false;
    }
    for k in 0..locks.len() {
        if !is_same_row(locks[k], &others[k]) {
            return false;
        }
    }
    true
}

/// Makes the file of locks. Where it could not be read back it is not made.
pub fn locks_file(alloc: Global, locks: &[(&Path, &Lock)]) -> Result<Vec<u8>, AllocError>
    ensures { IfOk result (λ file. result_ok (locks_of file.items) ≡ Some (map deref_pair locks.now)) }
{
    let file = write_locks(alloc, locks)?;
    let Ok(read) = read_locks(alloc, file.as_slice()) else {
        return Err(AllocError);
    };
    if are_same_locks(locks, read.as_slice()) {
        Ok(file)
    } else {
        Err(AllocError)
    }
}

/// Makes the file `current`. Where it could not be read back it is not made.
pub fn current_file(alloc: Global, current: Current) -> Result<Vec<u8>, AllocError>
    ensures read { IfOk result (λ file. result_ok (current_of current.format file.items) ≡ Some current) }
    ensures count { IfOk result (λ file. count_in file.items ≡ Some (current.youngest + 1)) }
{
    let mut file = Vec::new(alloc);
    append_current(&mut file, current)?;
    let read = read_current(current.format, file.as_slice());
    match (read, count_of(file.as_slice())) {
        (Ok(read), Some(count)) if read == current && count - 1 == current.youngest => Ok(file),
        _ => Err(AllocError),
    }
}
