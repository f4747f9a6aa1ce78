//! Texts of files.
ghost use Rattle.std.specs.{Prelude.{◌≡◌, Some, OnOk, IfOk, IfErr}, Arc.arc_value};
ghost use Rattle.svnpath.specs.Paths.{PathValue};
ghost use Rattle.edit_rules.specs.{Editor.{FeedsDelta, IsReadFor, RestsOn}, Edits.file_text, Judging.{CarriesOut, CarriesOutBy, Judges, Leaves}};
ghost use Rattle.edit_rules.specs.{Soundness.IsSoundOn, Texts.MakesTextEdit};
ghost use Rattle.edit_rules.specs.Refusing.{begin_delta_refusal, checksum_refusal, chunk_refusal, close_file_refusal, closed_text_refusal, open_under};

use crate::editor::CommitEditor;
use byte_string::ByteString;
use edit_rules::{
    DeltaState, Opened, edits_are_right, feed_under, judge_checksum, set_delta, text_edit_under,
};
use refusals::{NotDone, Refusal};
use repo_api::{EditOp, FileText, Repository, Texts};
use std::alloc::{AllocError, Global};
use std::sync::Arc;
use svndiff0::Applier;
use svnpath::Path;
use wire_edits::EditorCommand;

/// Reads the bytes of a text.
fn read_bytes<T: Texts>(
    alloc: Global,
    text: &FileText,
    texts: &mut T,
) -> Result<Arc<Vec<u8>>, AllocError>
    ensures reads { T.reads texts.old texts.new }
    ensures found { IfOk result (λ bytes. IsReadFor (T.is_honest texts.new)
        text.now (arc_value bytes).items) }
{
    let loaded = texts.load(alloc, text)?;
    loaded.share(alloc)
}

impl<R: Repository> CommitEditor<R> {
    /// Begins a text delta over a file's text, which is read for it.
    pub(crate) fn begin_delta<T: Texts>(
        &mut self,
        token: &ByteString,
        checksum: &Option<ByteString>,
        repository: &R,
        texts: &mut T,
    ) -> Result<(), NotDone>
        requires { RestsOn self.old (R.content repository.now) }
        ensures reads { T.reads texts.old texts.new }
        ensures done { CarriesOutBy (T.is_honest texts.new) result (R.content repository.now) self.old
            (EditorCommand.ApplyTextDelta token.now checksum.now) self.new }
    {
        let base = self.base_under(token, checksum, repository, texts)?;
        set_delta(
            &mut self.tokens,
            token,
            DeltaState::Reading(Applier::new(self.alloc, base)),
        );
        Ok(())
    }

    /// Reads the text over which a delta may begin.
    fn base_under<T: Texts>(
        &self,
        token: &ByteString,
        checksum: &Option<ByteString>,
        repository: &R,
        texts: &mut T,
    ) -> Result<Arc<Vec<u8>>, NotDone>
        requires { RestsOn self.now (R.content repository.now) }
        ensures reads { T.reads texts.old texts.new }
        ensures judged { Judges result (begin_delta_refusal self.now checksum.now
            (open_under self.now token.now)) }
        ensures base { IfOk result (λ base. (p : PathValue)
            × (open_under self.now token.now ≡ Some (Opened.File p DeltaState.NotBegun))
            × IsReadFor (T.is_honest texts.new) (file_text self.now p) (arc_value base).items) }
    {
        match self.open_under(token) {
            Some(Opened::File(path, DeltaState::NotBegun)) => {
                self.judge_text_at(path, checksum, repository)?;
                Ok(self.read_text(path, repository, texts)?)
            }
            Some(Opened::File(_, DeltaState::Reading(_))) => {
                Err(NotDone::Refused(Refusal::MalformedData))
            }
            Some(Opened::File(_, DeltaState::Ended)) => Err(NotDone::Refused(
                Refusal::MalformedData,
            )),
            Some(Opened::Directory(_)) => Err(NotDone::Refused(Refusal::MalformedData)),
            None => Err(NotDone::Refused(Refusal::MalformedData)),
        }
    }

    /// Reads the text of the file at a path.
    fn read_text<T: Texts>(
        &self,
        path: &Path,
        repository: &R,
        texts: &mut T,
    ) -> Result<Arc<Vec<u8>>, AllocError>
        requires { RestsOn self.now (R.content repository.now) }
        ensures reads { T.reads texts.old texts.new }
        ensures text { IfOk result (λ text. IsReadFor (T.is_honest texts.new)
            (file_text self.now path.now) (arc_value text).items) }
    {
        let empty = FileText::empty();
        match &self.txn {
            None => empty.share(self.alloc),
            Some(txn) => match repository.text_in(txn.as_txn(), path) {
                None => empty.share(self.alloc),
                Some(text) => read_bytes(self.alloc, text, texts),
            },
        }
    }

    /// Reads the next bytes of a text delta.
    pub(crate) fn feed_delta(
        &mut self,
        token: &ByteString,
        bytes: &ByteString,
    ) -> Result<(), NotDone>
        ensures judged { Judges result (chunk_refusal bytes.now (open_under self.old token.now)) }
        ensures ok { OnOk result (FeedsDelta self.old token.now bytes.now self.new) }
        ensures err { IfErr result (λ fault. Leaves self.old fault self.new) }
    {
        if self.txn.is_none() {
            return Err(NotDone::Refused(Refusal::MalformedData));
        }
        feed_under(&mut self.tokens, token, bytes.as_slice())
    }

    /// Ends a text delta: its text is the file's.
    pub(crate) fn end_delta(&mut self, token: &ByteString, repository: &R) -> Result<(), NotDone>
        requires { IsSoundOn self.old (R.content repository.now) }
        ensures { CarriesOut result (R.content repository.now) self.old
            (EditorCommand.TextDeltaEnd token.now) self.new }
    {
        let op = self.text_edit(token)?;
        edits_are_right();
        self.edit(op, repository)?;
        set_delta(&mut self.tokens, token, DeltaState::Ended);
        Ok(())
    }

    /// Makes the edit of a text by the delta that is being read under the token. The text is not copied.
    fn text_edit(&mut self, token: &ByteString) -> Result<EditOp, NotDone>
        ensures op { MakesTextEdit result (open_under self.old token.now) }
        ensures same { self.new ≡ self.old }
    {
        if self.txn.is_none() {
            return Err(NotDone::Refused(Refusal::MalformedData));
        }
        text_edit_under(&mut self.tokens, token)
    }

    /// Closes a file.
    pub(crate) fn close_file(
        &mut self,
        token: &ByteString,
        checksum: &Option<ByteString>,
        repository: &R,
    ) -> Result<(), NotDone>
        requires { RestsOn self.old (R.content repository.now) }
        ensures { CarriesOut result (R.content repository.now) self.old
            (EditorCommand.CloseFile token.now checksum.now) self.new }
    {
        self.judge_file_token(token, checksum, repository)?;
        self.tokens.remove(token);
        Ok(())
    }

    /// Checks that a file is open under the token (otherwise `MalformedData`), and that it may be closed with this
    /// checksum.
    fn judge_file_token(
        &self,
        token: &ByteString,
        checksum: &Option<ByteString>,
        repository: &R,
    ) -> Result<(), NotDone>
        requires { RestsOn self.now (R.content repository.now) }
        ensures { Judges result (close_file_refusal self.now checksum.now
            (open_under self.now token.now)) }
    {
        match self.open_under(token) {
            Some(Opened::File(path, delta)) => {
                self.judge_text(path, delta, checksum, repository)?;
                Ok(())
            }
            Some(Opened::Directory(_)) => Err(NotDone::Refused(Refusal::MalformedData)),
            None => Err(NotDone::Refused(Refusal::MalformedData)),
        }
    }

    /// Checks that no delta is being read for the file (otherwise `MalformedData`), and that its text has this
    /// checksum, if one is named (otherwise `ChecksumMismatch`).
    fn judge_text(
        &self,
        path: &Path,
        delta: &DeltaState,
        checksum: &Option<ByteString>,
        repository: &R,
    ) -> Result<(), NotDone>
        requires { RestsOn self.now (R.content repository.now) }
        ensures { Judges result (closed_text_refusal self.now checksum.now path.now delta.now) }
    {
        if delta.is_reading() {
            return Err(NotDone::Refused(Refusal::MalformedData));
        }
        self.judge_text_at(path, checksum, repository)?;
        Ok(())
    }

    /// Checks that the text of the file at a path has this checksum, if one is named.
    fn judge_text_at(
        &self,
        path: &Path,
        checksum: &Option<ByteString>,
        repository: &R,
    ) -> Result<(), NotDone>
        requires { RestsOn self.now (R.content repository.now) }
        ensures { Judges result (checksum_refusal checksum.now (file_text self.now path.now)) }
    {
        let empty = FileText::empty();
        match &self.txn {
            None => judge_checksum(self.alloc, checksum, &empty),
            Some(txn) => match repository.text_in(txn.as_txn(), path) {
                None => judge_checksum(self.alloc, checksum, &empty),
                Some(text) => judge_checksum(self.alloc, checksum, text),
            },
        }
    }
}
