//! The editor of a commit.
ghost use Rattle.std.specs.Prelude.{◌≡◌, Ok, Err, None, OnErr, OnOk, IfOk, IfErr, IsTrue, MatchResult, option_map, string_bytes};
ghost use Rattle.edit_rules.specs.{Editor.{Applies, finished, given_up, NotApplied, RestsOn}, Edits.{base_in, created, new_edit, standing}};
ghost use Rattle.edit_rules.specs.{Judging.{is_refused_whole, Judges, KeepsPath, Leaves}, Refused.{added_at, refused_at}};
ghost use Rattle.edit_rules.specs.{Refusing.{before_root, edit_refusal, open_under}, Soundness.{IsSoundEdit, IsSoundOn}, Tokens.path_of};

use crate::open_txn::OpenTxn;
use crate::room::EDIT_LIMIT;
use byte_string::ByteString;
use edit_rules::{OpenTokens, added_at, has_unfinished, judge, path_refused};
use refusals::{NotDone, NotDoneAt, Refusal};
use repo_api::{NodeKind, Repository, Texts};
use std::alloc::{AllocError, Global};
use std::marker::Model;
use svnpath::Path;
use wire_edits::{AddedEntry, EditorCommand};

/// An edit on its way to a commit.
pub struct CommitEditor<R: Repository> {
    pub(crate) alloc: Global,
    pub(crate) path: Path,
    pub(crate) name: String,
    pub(crate) is_of_today: bool,
    pub(crate) txn: Option<OpenTxn<R>>,
    pub(crate) tokens: OpenTokens,
    pub(crate) refused: bool,
    /// How many bytes of memory it may still take.
    pub(crate) room: u64,
}

impl<R: Repository> Drop for CommitEditor<R> {
    fn drop(self) {
        let CommitEditor {
            alloc: _,
            path: _,
            name: _,
            is_of_today: _,
            txn: _,
            tokens: _,
            refused: _,
            room: _,
        } = self;
    }
}

impl<R: Repository> Model for CommitEditor<R> {
    ghost use Rattle.std.specs.{Prelude.string_bytes, Coded.codes, FinMap.code as map_code};
    ghost use Rattle.edit_rules.specs.Edits.{EditState};

    ghost Value = { EditState };

    ghost coded = { Prim.hlevel (map_code, codes) };

    ghost view = { λ e. record {
      path = e.path;
      name = string_bytes e.name;
      is_of_today = e.is_of_today;
      txn = e.txn;
      tokens = e.tokens;
      refused = e.refused;
    } };
}

impl<R: Repository> CommitEditor<R> {
    /// Makes an edit at this path of the repository of this name, for a client of today or for another.
    pub fn new(alloc: Global, path: Path, name: String, is_of_today: bool) -> Self
        ensures { result ≡ new_edit path (string_bytes name) is_of_today }
    {
        CommitEditor {
            alloc,
            path,
            name,
            is_of_today,
            txn: None,
            tokens: OpenTokens::new(alloc),
            refused: false,
            room: EDIT_LIMIT,
        }
    }

    /// Carries a command out. After one that is refused the edit is given up, and each further one is answered
    /// by `EditAborted`. The repository's revisions begin with those that the edit has seen, and the edit's
    /// transaction has a tree in which stands what is open. Memory is refused to an edit that takes some 4 GiB.
    pub fn apply<T: Texts>(
        &mut self,
        command: &EditorCommand,
        repository: &R,
        texts: &mut T,
    ) -> Result<(), NotDoneAt>
        requires rests { RestsOn self.old (R.content repository.now) }
        requires sound { IsSoundEdit self.old }
        ensures reads { T.reads texts.old texts.new }
        ensures ok { OnOk result ((edit_refusal (R.content repository.now) self.old command.now ≡ None)
            × Applies (T.is_honest texts.new) (R.content repository.now) self.old command.now self.new) }
        ensures err { IfErr result (λ fault. NotApplied
            (R.content repository.now) self.old command.now fault self.new) }
    {
        self.take_room(command)?;
        match self.carry_out(command, repository, texts) {
            Ok(()) => Ok(()),
            Err(NotDone::Refused(refusal)) => match self.refused_at(command, refusal) {
                Ok(path) => Err(self.give_up(refusal, path)),
                Err(_) => Err(NotDoneAt::NoMemory),
            },
            Err(NotDone::NoMemory) => Err(NotDoneAt::NoMemory),
        }
    }

    /// Gives the path at which a command is refused, if it is one of a path.
    fn refused_at(
        &self,
        command: &EditorCommand,
        refusal: Refusal,
    ) -> Result<Option<Path>, AllocError>
        ensures path { IfOk result (λ path. path ≡ refused_at self.now command.now refusal) }
        ensures whole { OnErr result (IsTrue (is_refused_whole command.now)) }
    {
        match command {
            EditorCommand::OpenRoot(_, _) => Ok(Some(self.path.clone()?)),
            EditorCommand::DeleteEntry(entry) => path_refused(self.alloc, &self.path, &entry.path),
            EditorCommand::AddDirectory(entry) => self.added_at(entry, refusal),
            EditorCommand::AddFile(entry) => self.added_at(entry, refusal),
            EditorCommand::OpenDirectory(entry) => {
                path_refused(self.alloc, &self.path, &entry.path)
            }
            EditorCommand::OpenFile(entry) => path_refused(self.alloc, &self.path, &entry.path),
            EditorCommand::ChangeDirectoryProperty(change) => self.path_under(&change.token),
            _ => Ok(None),
        }
    }

    /// Gives the path at which what is added is refused.
    fn added_at(&self, entry: &AddedEntry, refusal: Refusal) -> Result<Option<Path>, AllocError>
        ensures { IfOk result (λ path. path ≡ added_at self.now entry.now refusal) }
    {
        added_at(self.alloc, &self.path, self.name.as_str(), entry, refusal)
    }

    /// Gives the path of what is open under the token, if something is.
    fn path_under(&self, token: &ByteString) -> Result<Option<Path>, AllocError>
        ensures { IfOk result (λ path. path ≡ option_map path_of (open_under self.now token.now)) }
    {
        match self.open_under(token) {
            Some(opened) => Ok(Some(opened.path().clone()?)),
            None => Ok(None),
        }
    }

    /// Gives the edit up.
    fn give_up(&mut self, refusal: Refusal, path: Option<Path>) -> NotDoneAt
        ensures state { self.new ≡ given_up self.old }
        ensures fault { result ≡ NotDoneAt.Refused refusal path }
    {
        self.txn = None;
        self.tokens = OpenTokens::new(self.alloc);
        self.refused = true;
        NotDoneAt::Refused(refusal, path)
    }

    /// Carries a command out, unless the edit was given up.
    fn carry_out<T: Texts>(
        &mut self,
        command: &EditorCommand,
        repository: &R,
        texts: &mut T,
    ) -> Result<(), NotDone>
        requires { IsSoundOn self.old (R.content repository.now) }
        ensures judged { Judges result (edit_refusal
            (R.content repository.now) self.old command.now) }
        ensures reads { T.reads texts.old texts.new }
        ensures ok { OnOk result (Applies (T.is_honest texts.new)
            (R.content repository.now) self.old command.now self.new) }
        ensures err { IfErr result (λ fault. Leaves self.old fault self.new) }
        ensures path { IfErr result (λ fault. KeepsPath self.old command.now fault self.new) }
    {
        if self.refused {
            return Err(NotDone::Refused(Refusal::EditAborted));
        }
        match command {
            EditorCommand::TargetRevision(_) => self.judge_no_root(),
            EditorCommand::OpenRoot(revision, token) => self.open_root(
                *revision, token, repository,
            ),
            EditorCommand::DeleteEntry(entry) => self.delete_entry(entry, repository),
            EditorCommand::AddDirectory(entry) => self.add_entry(false, entry, repository),
            EditorCommand::AddFile(entry) => self.add_entry(true, entry, repository),
            EditorCommand::OpenDirectory(entry) => self.open_directory(entry, repository),
            EditorCommand::OpenFile(entry) => self.open_file(entry, repository),
            EditorCommand::AbsentDirectory(entry) => self.pass_absent(entry),
            EditorCommand::AbsentFile(entry) => self.pass_absent(entry),
            EditorCommand::ChangeDirectoryProperty(change) => {
                self.change_directory_property(change, repository)
            }
            EditorCommand::ChangeFileProperty(change) => {
                self.change_file_property(change, repository)
            }
            EditorCommand::ApplyTextDelta(token, checksum) => {
                self.begin_delta(token, checksum, repository, texts)
            }
            EditorCommand::TextDeltaChunk(token, bytes) => self.feed_delta(token, bytes),
            EditorCommand::TextDeltaEnd(token) => self.end_delta(token, repository),
            EditorCommand::CloseDirectory(token) => self.close_directory(token),
            EditorCommand::CloseFile(token, checksum) => self.close_file(
                token, checksum, repository,
            ),
            EditorCommand::CloseEdit => Err(NotDone::Refused(Refusal::MalformedData)),
            EditorCommand::AbortEdit => Err(NotDone::Refused(Refusal::MalformedData)),
        }
    }

    /// Checks that the root is not open.
    pub(crate) fn judge_no_root(&self) -> Result<(), NotDone>
        ensures { Judges result (before_root self.now) }
    {
        judge(self.txn.is_none(), Refusal::MalformedData)
    }

    /// Says what stands at a path of the transaction, nothing where there is none.
    pub(crate) fn standing(&self, path: &Path, repository: &R) -> NodeKind
        requires { RestsOn self.now (R.content repository.now) }
        ensures { result ≡ standing self.now.txn path.now }
    {
        match &self.txn {
            None => NodeKind::Absent,
            Some(txn) => repository.kind_in(txn.as_txn(), path),
        }
    }

    /// Gives the revision that last changed what stands at a path, unless the transaction has.
    pub(crate) fn created(&self, path: &Path, repository: &R) -> Option<u64>
        requires { RestsOn self.now (R.content repository.now) }
        ensures { result ≡ created self.now.txn path.now }
    {
        match &self.txn {
            None => None,
            Some(txn) => repository.created_in(txn.as_txn(), path),
        }
    }

    /// Gives the revision that the transaction began from, `None` where there is no transaction.
    pub(crate) fn base(&self) -> Option<u64>
        ensures { result ≡ base_in self.now.txn }
    {
        match &self.txn {
            None => None,
            Some(txn) => Some(txn.base()),
        }
    }

    /// Gives the transaction that is to be committed.
    pub fn finish(self) -> Result<R::Txn, Refusal>
        ensures { MatchResult result (λ txn. finished self ≡ Ok (R.txn_state txn))
            (λ r. finished self ≡ Err r) }
    {
        let unfinished = has_unfinished(&self.tokens);
        let CommitEditor {
            alloc: _,
            path: _,
            name: _,
            is_of_today: _,
            txn,
            tokens: _,
            refused,
            room: _,
        } = self;
        match txn {
            _ if refused => Err(Refusal::EditAborted),
            Some(_) if unfinished => Err(Refusal::MalformedData),
            Some(txn) => Ok(txn.into_txn()),
            None => Err(Refusal::MalformedData),
        }
    }
}
