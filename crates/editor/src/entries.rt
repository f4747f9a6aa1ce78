//! Entries of a commit: what is opened, added, deleted and closed.
ghost use Rattle.std.specs.Prelude.{◌≡◌, Ok, None, Some, OnOk, OnErr, IfOk, is_some, true, option_copied, if◌then◌else◌};
ghost use Rattle.svnpath.specs.Texts.{joined};
ghost use Rattle.edit_rules.specs.{Editor.{Adds, Closes, copy_edit, Edits, opened_directory, Opens, RestsOn}, Edits.standing};
ghost use Rattle.edit_rules.specs.{Judging.{CarriesOut, CarriesOutAdding, DoneUnless, Judges}, Refusing.{absent_refusal, add_at_refusal, add_entry_refusal}};
ghost use Rattle.edit_rules.specs.Refusing.{add_refusal, close_directory_refusal, delete_entry_refusal, first, open_directory_refusal, open_file_refusal};
ghost use Rattle.edit_rules.specs.Refusing.{is_opening, open_root_refusal, open_under, opening_refusal, parent_refusal, place_refusal, source_of};
ghost use Rattle.edit_rules.specs.{Refusing.source_refusal, Soundness.{IsRightIn, IsSoundOn}};
ghost use Rattle.edit_rules.specs.Tokens.{closed_beneath, copies_under, is_placed, is_within, opened_under, with_token};

use crate::editor::CommitEditor;
use crate::open_txn::OpenTxn;
use byte_string::ByteString;
use edit_rules::{
    DeltaState, Opened, OpenedDirectory, close_beneath, close_others_beneath, copies_under,
    directory_under, edits_are_right, is_within, judge, judge_absence, judge_directory, judge_file,
    judge_presence, judge_room, judge_source_kind, may_open, path_named, source_named,
};
use refusals::{NotDone, Refusal};
use repo_api::{EditOp, NodeKind, Repository, Source};
use std::alloc::AllocError;
use svnpath::{DEPTH_LIMIT, Path};
use wire_edits::{AbsentEntry, AddedEntry, DeletedEntry, EditorCommand, OpenedEntry};

/// Makes a directory that is open.
fn opened_directory(path: Path, revision: Option<u64>, in_copy: bool) -> Opened
    ensures { result ≡ Opened.Directory (opened_directory path revision in_copy) }
{
    Opened::Directory(OpenedDirectory {
        path,
        revision,
        in_copy,
    })
}

/// Makes what is open once it is added, new or a copy.
fn added_opened(is_file: bool, path: Path, in_copy: bool) -> Opened
    ensures { result ≡ (if is_file then Opened.File path DeltaState.NotBegun
        else Opened.Directory (opened_directory path None in_copy)) }
{
    if is_file {
        Opened::File(path, DeltaState::NotBegun)
    } else {
        opened_directory(path, None, in_copy)
    }
}

/// Makes the edit that adds something new.
fn new_edit(is_file: bool, path: Path) -> EditOp
    ensures { result ≡ (if is_file then EditOp.AddFile path else EditOp.AddDirectory path) }
{
    if is_file {
        EditOp::AddFile(path)
    } else {
        EditOp::AddDirectory(path)
    }
}

/// Makes the edit that copies, over what stands there if something does.
fn copy_edit(kind: NodeKind, path: &Path, source: &Source) -> Result<EditOp, AllocError>
    ensures { IfOk result (λ op. op ≡ copy_edit kind path.now source.now) }
{
    let to = path.clone()?;
    let from = source_of(source)?;
    Ok(match kind {
        NodeKind::Absent => EditOp::Copy(from, to),
        NodeKind::File | NodeKind::Directory => EditOp::Replace(from, to),
    })
}

/// Makes a copy of where a copy comes from.
fn source_of(source: &Source) -> Result<Source, AllocError>
    ensures { IfOk result (λ copy. copy ≡ source.now) }
{
    Ok(Source {
        revision: source.revision,
        path: source.path.clone()?,
    })
}

/// Checks that what is copied exists, is of the kind that is added, and is not too deep for its new path.
fn judge_source<R: Repository>(
    is_file: bool,
    path: &Path,
    source: &Source,
    repository: &R,
) -> Result<(), NotDone>
    ensures { Judges result (source_refusal
        (R.content repository.now) is_file path.now source.now) }
{
    judge(
        source.revision <= repository.youngest(),
        Refusal::NoSuchRevision,
    )?;
    judge_source_kind(is_file, repository.kind(source.revision, &source.path))?;
    let names = DEPTH_LIMIT.saturating_sub(path.len());
    judge(
        !repository.has_deeper(source.revision, &source.path, names),
        Refusal::NotSupported,
    )
}

impl<R: Repository> CommitEditor<R> {
    /// Begins a transaction, and opens its directory at the edit's path.
    pub(crate) fn open_root(
        &mut self,
        revision: Option<u64>,
        token: &ByteString,
        repository: &R,
    ) -> Result<(), NotDone>
        ensures { CarriesOut result (R.content repository.now) self.old
            (EditorCommand.OpenRoot revision token.now) self.new }
    {
        self.judge_root(repository)?;
        let token = token.clone()?;
        let path = self.path.clone()?;
        let txn = OpenTxn::begin(repository)?;
        self.tokens
            .insert(token, opened_directory(path, revision, false))?;
        self.txn = Some(txn);
        Ok(())
    }

    /// Checks that the root is not open yet (otherwise `MalformedData`), and that the youngest revision has a directory
    /// at the edit's path.
    fn judge_root(&self, repository: &R) -> Result<(), NotDone>
        ensures { Judges result (open_root_refusal (R.content repository.now) self.now) }
    {
        self.judge_no_root()?;
        judge_directory(repository.kind(repository.youngest(), &self.path))?;
        Ok(())
    }

    /// Adds a directory or a file, new or a copy, and opens it.
    pub(crate) fn add_entry(
        &mut self,
        is_file: bool,
        entry: &AddedEntry,
        repository: &R,
    ) -> Result<(), NotDone>
        requires { IsSoundOn self.old (R.content repository.now) }
        ensures { DoneUnless result
            (add_entry_refusal (R.content repository.now) self.old is_file entry.now
            (joined self.old.path entry.now.path) (source_of self.old.name entry.now.source))
            self.old (Adds (R.content repository.now) self.old is_file entry.now) self.new }
    {
        let path = path_named(self.alloc, &self.path, &entry.path)?;
        let source = source_named(self.alloc, self.name.as_str(), &entry.source)?;
        self.add_at(is_file, entry, &path, &source, repository)?;
        Ok(())
    }

    /// Adds an entry at the path that it names: a copy if there is a source, something new if not. After an `Err` the
    /// edit is as it was before.
    fn add_at(
        &mut self,
        is_file: bool,
        entry: &AddedEntry,
        path: &Path,
        source: &Option<Source>,
        repository: &R,
    ) -> Result<(), NotDone>
        requires sound { IsSoundOn self.old (R.content repository.now) }
        requires named { joined self.old.path entry.now.path ≡ Ok path.now }
        ensures { CarriesOutAdding result (R.content repository.now) self.old is_file entry.now
            path.now source.now self.new }
    {
        match source {
            None => self.add_new(is_file, entry, path, repository),
            Some(source) => self.add_copy(is_file, entry, path, source, repository),
        }
    }

    /// Adds something new.
    fn add_new(
        &mut self,
        is_file: bool,
        entry: &AddedEntry,
        path: &Path,
        repository: &R,
    ) -> Result<(), NotDone>
        requires sound { IsSoundOn self.old (R.content repository.now) }
        requires named { joined self.old.path entry.now.path ≡ Ok path.now }
        ensures { CarriesOutAdding result (R.content repository.now) self.old is_file entry.now
            path.now None self.new }
    {
        self.judge_new(entry, path, repository)?;
        edits_are_right();
        let token = entry.token.clone()?;
        let opened = path.clone()?;
        let added = path.clone()?;
        self.put_new(
            token,
            added_opened(is_file, opened, false),
            new_edit(is_file, added),
            repository,
        )?;
        Ok(())
    }

    /// Checks that nothing stands where something new is added.
    fn judge_new(&self, entry: &AddedEntry, path: &Path, repository: &R) -> Result<(), NotDone>
        requires { RestsOn self.now (R.content repository.now) }
        ensures { Judges result (first (place_refusal self.now entry.now.parent entry.now.token
            path.now) (add_refusal (standing self.now.txn path.now))) }
    {
        self.judge_place(&entry.parent, &entry.token, path)?;
        judge_absence(self.standing(path, repository))?;
        Ok(())
    }

    /// Adds a copy, and closes what was open where it is put.
    fn add_copy(
        &mut self,
        is_file: bool,
        entry: &AddedEntry,
        path: &Path,
        source: &Source,
        repository: &R,
    ) -> Result<(), NotDone>
        requires sound { IsSoundOn self.old (R.content repository.now) }
        requires named { joined self.old.path entry.now.path ≡ Ok path.now }
        ensures { CarriesOutAdding result (R.content repository.now) self.old is_file entry.now
            path.now (Some source.now) self.new }
    {
        self.judge_copy(is_file, entry, path, source, repository)?;
        edits_are_right();
        let token = entry.token.clone()?;
        let opened = path.clone()?;
        let op = copy_edit(self.standing(path, repository), path, source)?;
        self.put_new(token, added_opened(is_file, opened, true), op, repository)?;
        close_others_beneath(&mut self.tokens, path, &entry.token);
        Ok(())
    }

    /// Checks that a copy goes where nothing stands, or over what stands in a copy, and is of something of its kind.
    fn judge_copy(
        &self,
        is_file: bool,
        entry: &AddedEntry,
        path: &Path,
        source: &Source,
        repository: &R,
    ) -> Result<(), NotDone>
        requires { RestsOn self.now (R.content repository.now) }
        ensures { Judges result (add_at_refusal (R.content repository.now) self.now is_file entry.now
            path.now (Some source.now)) }
    {
        self.judge_place(&entry.parent, &entry.token, path)?;
        judge_room(
            copies_under(&self.tokens, &entry.parent),
            self.standing(path, repository),
        )?;
        judge_source(is_file, path, source, repository)?;
        Ok(())
    }

    /// Opens an entry under a new token, makes the edit that adds it, and closes it again where memory is refused.
    fn put_new(
        &mut self,
        token: ByteString,
        opened: Opened,
        op: EditOp,
        repository: &R,
    ) -> Result<(), AllocError>
        requires rests { RestsOn self.old (R.content repository.now) }
        requires is_new { opened_under self.old.tokens token ≡ None }
        requires right { IsRightIn (R.content repository.now) self.old.txn op }
        ensures ok { OnOk result (Edits (R.content repository.now) self.old op
            (with_token self.old.tokens token opened) self.new) }
        ensures err { OnErr result (self.new ≡ self.old) }
    {
        let token = self.open_new(token, opened)?;
        match self.edit(op, repository) {
            Ok(()) => Ok(()),
            Err(error) => {
                self.close(&token);
                Err(error)
            }
        }
    }

    /// Opens an entry under a new token, and answers the token.
    fn open_new(&mut self, token: ByteString, opened: Opened) -> Result<ByteString, AllocError>
        ensures ok { OnOk result (Opens self.old token opened self.new) }
        ensures token { IfOk result (λ key. key ≡ token) }
        ensures err { OnErr result (self.new ≡ self.old) }
    {
        let key = token.clone()?;
        self.tokens.insert(key, opened)?;
        Ok(token)
    }

    /// Closes what is open under a token.
    fn close(&mut self, token: &ByteString)
        ensures { Closes self.old token.now self.new }
    {
        self.tokens.remove(token);
    }

    /// Makes an edit.
    pub(crate) fn edit(&mut self, op: EditOp, repository: &R) -> Result<(), AllocError>
        requires rests { RestsOn self.old (R.content repository.now) }
        requires right { IsRightIn (R.content repository.now) self.old.txn op }
        ensures ok { OnOk result (Edits
            (R.content repository.now) self.old op self.old.tokens self.new) }
        ensures err { OnErr result (self.new ≡ self.old) }
    {
        let Some(txn) = &mut self.txn else {
            unreachable!();
        };
        txn.edit(op, repository)
    }

    /// Deletes an entry, and closes what is open at or under it.
    pub(crate) fn delete_entry(
        &mut self,
        entry: &DeletedEntry,
        repository: &R,
    ) -> Result<(), NotDone>
        requires { IsSoundOn self.old (R.content repository.now) }
        ensures { CarriesOut result (R.content repository.now) self.old
            (EditorCommand.DeleteEntry entry.now) self.new }
    {
        let path = path_named(self.alloc, &self.path, &entry.path)?;
        self.delete_at(entry, &path, repository)?;
        Ok(())
    }

    /// Deletes an entry at the path that it names, and closes what is open at or under it. After an `Err` the edit is
    /// as it was before.
    fn delete_at(
        &mut self,
        entry: &DeletedEntry,
        path: &Path,
        repository: &R,
    ) -> Result<(), NotDone>
        requires { IsSoundOn self.old (R.content repository.now) }
        ensures { DoneUnless result (delete_entry_refusal self.old entry.now (Ok path.now)) self.old
            (Edits (R.content repository.now) self.old (EditOp.Delete path.now)
            (closed_beneath self.old.tokens path.now)) self.new }
    {
        self.judge_delete(entry, path, repository)?;
        edits_are_right();
        let deleted = path.clone()?;
        self.edit(EditOp::Delete(deleted), repository)?;
        close_beneath(&mut self.tokens, path);
        Ok(())
    }

    /// Checks that the path is one name beneath its parent's directory (otherwise `MalformedData`), and that something
    /// exists there, unchanged since the revision that the client has (otherwise `OutOfDate`).
    fn judge_delete(&self, entry: &DeletedEntry, path: &Path, repository: &R) -> Result<(), NotDone>
        requires { RestsOn self.now (R.content repository.now) }
        ensures { Judges result (delete_entry_refusal self.now entry.now (Ok path.now)) }
    {
        self.judge_parent(&entry.parent, path)?;
        judge_presence(
            self.standing(path, repository),
            entry.revision,
            self.created(path, repository),
        )?;
        Ok(())
    }

    /// Opens a directory.
    pub(crate) fn open_directory(
        &mut self,
        entry: &OpenedEntry,
        repository: &R,
    ) -> Result<(), NotDone>
        requires { RestsOn self.old (R.content repository.now) }
        ensures { CarriesOut result (R.content repository.now) self.old
            (EditorCommand.OpenDirectory entry.now) self.new }
    {
        let path = path_named(self.alloc, &self.path, &entry.path)?;
        self.judge_open_directory(entry, &path, repository)?;
        let token = entry.token.clone()?;
        let in_copy = copies_under(&self.tokens, &entry.parent);
        self.tokens
            .insert(token, opened_directory(path, entry.revision, in_copy))?;
        Ok(())
    }

    /// Checks that the token is new, that a directory may be opened at the path, and that one exists there in the
    /// transaction.
    fn judge_open_directory(
        &self,
        entry: &OpenedEntry,
        path: &Path,
        repository: &R,
    ) -> Result<(), NotDone>
        requires { RestsOn self.now (R.content repository.now) }
        ensures { Judges result (open_directory_refusal self.now entry.now (Ok path.now)) }
    {
        self.judge_opening(&entry.parent, &entry.token, path)?;
        judge_directory(self.standing(path, repository))?;
        Ok(())
    }

    /// Opens a file.
    pub(crate) fn open_file(&mut self, entry: &OpenedEntry, repository: &R) -> Result<(), NotDone>
        requires { RestsOn self.old (R.content repository.now) }
        ensures { CarriesOut result (R.content repository.now) self.old
            (EditorCommand.OpenFile entry.now) self.new }
    {
        let path = path_named(self.alloc, &self.path, &entry.path)?;
        self.judge_open_file(entry, &path, repository)?;
        let token = entry.token.clone()?;
        self.tokens
            .insert(token, Opened::File(path, DeltaState::NotBegun))?;
        Ok(())
    }

    /// Checks that the token is new, that the path is beneath its parent's directory, and that a file exists there in
    /// the transaction, unchanged since the revision that the client has.
    fn judge_open_file(
        &self,
        entry: &OpenedEntry,
        path: &Path,
        repository: &R,
    ) -> Result<(), NotDone>
        requires { RestsOn self.now (R.content repository.now) }
        ensures { Judges result (open_file_refusal self.now entry.now (Ok path.now)) }
    {
        self.judge_place(&entry.parent, &entry.token, path)?;
        judge_file(
            self.standing(path, repository),
            entry.revision,
            self.created(path, repository),
        )?;
        Ok(())
    }

    /// Judges an entry that the client must not see, and changes nothing.
    pub(crate) fn pass_absent(&self, entry: &AbsentEntry) -> Result<(), NotDone>
        ensures { Judges result (absent_refusal self.now entry.now
            (joined self.now.path entry.now.path)) }
    {
        let path = path_named(self.alloc, &self.path, &entry.path)?;
        self.judge_parent(&entry.parent, &path)?;
        Ok(())
    }

    /// Closes a directory.
    pub(crate) fn close_directory(&mut self, token: &ByteString) -> Result<(), NotDone>
        ensures { DoneUnless result (close_directory_refusal (open_under self.old token.now)) self.old
            (Closes self.old token.now) self.new }
    {
        self.judge_directory_token(token)?;
        self.tokens.remove(token);
        Ok(())
    }

    /// Checks that a directory is open under the token. A file or nothing there is refused with `MalformedData`.
    fn judge_directory_token(&self, token: &ByteString) -> Result<(), NotDone>
        ensures { Judges result (close_directory_refusal (open_under self.now token.now)) }
    {
        match self.open_under(token) {
            Some(Opened::Directory(_)) => Ok(()),
            Some(Opened::File(_, _)) => Err(NotDone::Refused(Refusal::MalformedData)),
            None => Err(NotDone::Refused(Refusal::MalformedData)),
        }
    }

    /// Finds what is open under the token, nothing before the root is.
    pub(crate) fn open_under(&self, token: &ByteString) -> Option<&Opened>
        ensures { option_copied result ≡ open_under self.now token.now }
    {
        match &self.txn {
            None => None,
            Some(_) => self.tokens.get(token),
        }
    }

    /// Checks that the root is open, that the token is new, and that the path is one name beneath the directory open
    /// under the parent's token. Anything else is refused with `MalformedData`.
    fn judge_place(
        &self,
        parent: &ByteString,
        token: &ByteString,
        path: &Path,
    ) -> Result<(), NotDone>
        ensures { Judges result (place_refusal self.now parent.now token.now path.now) }
    {
        let placed = self.txn.is_some() && self.is_placed(parent, token, path);
        judge(placed, Refusal::MalformedData)
    }

    /// Checks that the root is open, that the token is new, and that a directory may be opened at the path by the
    /// parent's token. Anything else is refused with `MalformedData`.
    fn judge_opening(
        &self,
        parent: &ByteString,
        token: &ByteString,
        path: &Path,
    ) -> Result<(), NotDone>
        ensures { Judges result (opening_refusal self.now parent.now token.now path.now) }
    {
        let opening = self.txn.is_some() && self.is_opening(parent, token, path);
        judge(opening, Refusal::MalformedData)
    }

    /// Says whether the token is new, and a directory may be opened at the path by the parent's token.
    fn is_opening(&self, parent: &ByteString, token: &ByteString, path: &Path) -> bool
        ensures { result ≡ is_opening self.now parent.now token.now path.now }
    {
        self.tokens.get(token).is_none()
            && may_open(
                self.is_of_today,
                &self.path,
                directory_under(&self.tokens, parent),
                path,
            )
    }

    /// Checks that the root is open, and that the path is one name beneath the directory open under the parent's token.
    /// Anything else is refused with `MalformedData`.
    fn judge_parent(&self, parent: &ByteString, path: &Path) -> Result<(), NotDone>
        ensures { Judges result (parent_refusal self.now parent.now path.now) }
    {
        let placed = self.txn.is_some() && is_within(directory_under(&self.tokens, parent), path);
        judge(placed, Refusal::MalformedData)
    }

    /// Says whether the token is new, and the path is one name beneath the directory open under the parent's token.
    fn is_placed(&self, parent: &ByteString, token: &ByteString, path: &Path) -> bool
        ensures { result ≡ is_placed self.now.tokens parent.now token.now path.now }
    {
        self.tokens.get(token).is_none() && is_within(directory_under(&self.tokens, parent), path)
    }
}
