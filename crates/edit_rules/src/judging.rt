//! The rules by which a command of an edit is refused, each by itself.
ghost use Rattle.std.specs.Prelude.{◌≡◌, option_copied};
ghost use Rattle.svnpath.specs.{Components.AnswersPath, Texts.joined};
ghost use Rattle.edit_rules.specs.{Tokens.{is_root_again, is_within, may_open}, Refusing.{add_refusal, age_refusal, delete_refusal, directory_refusal}};
ghost use Rattle.edit_rules.specs.Refusing.{file_refusal, is_reserved, may_be_named, name_refusal, room_refusal, source_kind_refusal, source_of, source_path};
ghost use Rattle.edit_rules.specs.{Refusing.unless, Judging.{Judges, Names}};

use byte_string::ByteString;
use refusals::{NotDone, Refusal};
use repo_api::{NodeKind, Source, is_older, is_property_name};
use std::alloc::Global;
use svnpath::{Path, PathFault};

/// Refuses what does not hold, with this refusal.
pub fn judge(holds: bool, refusal: Refusal) -> Result<(), NotDone>
    ensures { Judges result (unless holds refusal) }
{
    if holds {
        Ok(())
    } else {
        Err(NotDone::Refused(refusal))
    }
}

/// Checks that a directory exists there.
pub fn judge_directory(kind: NodeKind) -> Result<(), NotDone>
    ensures { Judges result (directory_refusal kind) }
{
    match kind {
        NodeKind::Directory => Ok(()),
        NodeKind::File => Err(NotDone::Refused(Refusal::NotADirectory)),
        NodeKind::Absent => Err(NotDone::Refused(Refusal::NotFound)),
    }
}

/// Checks that nothing exists there.
pub fn judge_absence(kind: NodeKind) -> Result<(), NotDone>
    ensures { Judges result (add_refusal kind) }
{
    match kind {
        NodeKind::Absent => Ok(()),
        NodeKind::File => Err(NotDone::Refused(Refusal::AlreadyExists)),
        NodeKind::Directory => Err(NotDone::Refused(Refusal::AlreadyExists)),
    }
}

/// Checks that the entry has not changed since the revision that the client has.
pub fn judge_age(revision: Option<u64>, made: Option<u64>) -> Result<(), NotDone>
    ensures { Judges result (age_refusal revision made) }
{
    judge(!is_older(revision, made), Refusal::OutOfDate)
}

/// Checks that a file exists there, unchanged since the revision that the client has.
pub fn judge_file(kind: NodeKind, revision: Option<u64>, made: Option<u64>) -> Result<(), NotDone>
    ensures { Judges result (file_refusal kind (age_refusal revision made)) }
{
    match kind {
        NodeKind::Absent => Err(NotDone::Refused(Refusal::NotFound)),
        NodeKind::File => judge_age(revision, made),
        NodeKind::Directory => {
            judge_age(revision, made)?;
            Err(NotDone::Refused(Refusal::NotAFile))
        }
    }
}

/// Checks that something exists there, unchanged since the revision that the client has.
pub fn judge_presence(
    kind: NodeKind,
    revision: Option<u64>,
    made: Option<u64>,
) -> Result<(), NotDone>
    ensures { Judges result (delete_refusal kind (age_refusal revision made)) }
{
    match kind {
        NodeKind::Absent => Err(NotDone::Refused(Refusal::OutOfDate)),
        NodeKind::File => judge_age(revision, made),
        NodeKind::Directory => judge_age(revision, made),
    }
}

/// Checks that a property does not have to have another name.
pub fn judge_name(name: &[u8]) -> Result<(), NotDone>
    ensures { Judges result (name_refusal name.now) }
{
    judge(may_be_named(name), Refusal::NotSupported)
}

/// Says whether a commit may change a property of this name.
fn may_be_named(name: &[u8]) -> bool
    ensures { result ≡ may_be_named name.now }
{
    is_property_name(name) && !is_reserved(name)
}

/// Says whether the name belongs to clients or to this protocol.
fn is_reserved(name: &[u8]) -> bool
    ensures { result ≡ is_reserved name.now }
{
    name.starts_with(b"svn:entry:".as_slice()) || name.starts_with(b"svn:wc:".as_slice())
}

/// Checks that a copy goes where nothing exists; within a copy it may go over what exists there.
pub fn judge_room(in_copy: bool, kind: NodeKind) -> Result<(), NotDone>
    ensures { Judges result (room_refusal in_copy kind) }
{
    judge(in_copy || !kind.is_present(), Refusal::OutOfDate)
}

/// Checks that what is copied exists, and is of the kind that is added.
pub fn judge_source_kind(is_file: bool, kind: NodeKind) -> Result<(), NotDone>
    ensures { Judges result (source_kind_refusal is_file kind) }
{
    if is_file {
        judge_file(kind, None, None)
    } else {
        judge_directory(kind)
    }
}

/// Reads the source of a copy that a command names, if it names one: by a path, or by a URL of the repository of this
/// name.
pub fn source_named(
    alloc: Global,
    name: &str,
    source: &Option<(ByteString, u64)>,
) -> Result<Option<Source>, NotDone>
    ensures { Names result (source_of name.now source.now) }
{
    match source {
        None => Ok(None),
        Some((text, revision)) => {
            let path = source_path(alloc, name, text.as_slice())?;
            Ok(Some(Source {
                revision: *revision,
                path,
            }))
        }
    }
}

/// Reads the path of a copy's source.
pub(crate) fn source_path(alloc: Global, name: &str, text: &[u8]) -> Result<Path, PathFault>
    ensures { AnswersPath result (source_path name.now text.now) }
{
    if text.starts_with(b"/".as_slice()) {
        Path::parse(alloc, text)
    } else {
        Path::from_url(alloc, text, name)
    }
}

/// Gives the path that a command names.
pub fn path_named(alloc: Global, root: &Path, text: &ByteString) -> Result<Path, NotDone>
    ensures { Names result (joined root.now text.now) }
{
    Ok(root.join(alloc, text.as_slice())?)
}

/// Says whether the path is one name beneath the directory, if there is one.
pub fn is_within(directory: Option<&Path>, path: &Path) -> bool
    ensures { result ≡ is_within (option_copied directory.entry) path.now }
{
    match directory {
        None => false,
        Some(directory) => path.is_at_or_under(directory) && path.len() - directory.len() == 1,
    }
}

/// Says whether a directory may be opened at the path: one name beneath that of its parent; and for a client of today
/// under a token of the edit's root, at the root itself.
pub fn may_open(is_of_today: bool, root: &Path, directory: Option<&Path>, path: &Path) -> bool
    ensures { result ≡ may_open is_of_today root.now (option_copied directory.entry) path.now }
{
    is_within(directory, path) || (is_of_today && is_root_again(root, directory, path))
}

/// Says whether the path is the root, and so is that of a directory.
fn is_root_again(root: &Path, directory: Option<&Path>, path: &Path) -> bool
    ensures { result ≡ is_root_again root.now (option_copied directory.entry) path.now }
{
    match directory {
        None => false,
        Some(directory) => directory == root && path == root,
    }
}
