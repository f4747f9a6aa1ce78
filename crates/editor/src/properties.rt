//! Properties of entries.
ghost use Rattle.std.specs.Prelude.{◌≡◌, Some, IfOk};
ghost use Rattle.edit_rules.specs.{Editor.{property_edit, RestsOn}, Judging.{CarriesOut, Judges}};
ghost use Rattle.edit_rules.specs.{Refusing.{created_for_guard, directory_property_refusal, file_property_refusal, open_under}, Soundness.IsSoundOn};
ghost use Rattle.edit_rules.specs.Tokens.{path_of};

use crate::editor::CommitEditor;
use byte_string::ByteString;
use edit_rules::{Opened, edits_are_right, judge_age, judge_name};
use refusals::{NotDone, Refusal};
use repo_api::{EditOp, Repository};
use small_rules::guarding_change;
use std::alloc::AllocError;
use svnpath::Path;
use wire_edits::{EditorCommand, PropertyChange};

impl<R: Repository> CommitEditor<R> {
    /// Changes a property of a directory.
    pub(crate) fn change_directory_property(
        &mut self,
        change: &PropertyChange,
        repository: &R,
    ) -> Result<(), NotDone>
        requires { IsSoundOn self.old (R.content repository.now) }
        ensures { CarriesOut result (R.content repository.now) self.old
            (EditorCommand.ChangeDirectoryProperty change.now) self.new }
    {
        let op = self.directory_property(&change.token, change, repository)?;
        edits_are_right();
        self.edit(op, repository)?;
        Ok(())
    }

    /// Makes the edit of a property of the directory that is open under the token.
    fn directory_property(
        &self,
        token: &ByteString,
        change: &PropertyChange,
        repository: &R,
    ) -> Result<EditOp, NotDone>
        requires { RestsOn self.now (R.content repository.now) }
        ensures judged { Judges result (directory_property_refusal self.now change.now.name
            (open_under self.now token.now)) }
        ensures op { IfOk result (λ op. (o : Opened) × (open_under self.now token.now ≡ Some o)
            × (op ≡ property_edit (path_of o) change.now.name change.now.value)) }
    {
        match self.open_under(token) {
            Some(Opened::Directory(directory)) => {
                judge_name(change.name.as_slice())?;
                judge_age(
                    directory.revision,
                    self.created_for_guard(&directory.path, repository),
                )?;
                Ok(self.property_edit(&directory.path, change)?)
            }
            Some(Opened::File(_, _)) => Err(NotDone::Refused(Refusal::MalformedData)),
            None => Err(NotDone::Refused(Refusal::MalformedData)),
        }
    }

    /// Gives the change by which the properties of the directory at a path are guarded.
    fn created_for_guard(&self, path: &Path, repository: &R) -> Option<u64>
        requires { RestsOn self.now (R.content repository.now) }
        ensures { result ≡ created_for_guard self.now path.now }
    {
        guarding_change(
            self.is_of_today,
            path,
            self.base(),
            self.created(path, repository),
        )
    }

    /// Changes a property of a file.
    pub(crate) fn change_file_property(
        &mut self,
        change: &PropertyChange,
        repository: &R,
    ) -> Result<(), NotDone>
        requires { IsSoundOn self.old (R.content repository.now) }
        ensures { CarriesOut result (R.content repository.now) self.old
            (EditorCommand.ChangeFileProperty change.now) self.new }
    {
        let op = self.file_property(&change.token, change)?;
        edits_are_right();
        self.edit(op, repository)?;
        Ok(())
    }

    /// Makes the edit of a property of the file that is open under the token.
    fn file_property(&self, token: &ByteString, change: &PropertyChange) -> Result<EditOp, NotDone>
        ensures judged { Judges result (file_property_refusal change.now.name
            (open_under self.now token.now)) }
        ensures op { IfOk result (λ op. (o : Opened) × (open_under self.now token.now ≡ Some o)
            × (op ≡ property_edit (path_of o) change.now.name change.now.value)) }
    {
        match self.open_under(token) {
            Some(Opened::File(path, _)) => {
                judge_name(change.name.as_slice())?;
                Ok(self.property_edit(path, change)?)
            }
            Some(Opened::Directory(_)) => Err(NotDone::Refused(Refusal::MalformedData)),
            None => Err(NotDone::Refused(Refusal::MalformedData)),
        }
    }

    /// Makes the edit of a property at a path.
    fn property_edit(&self, path: &Path, change: &PropertyChange) -> Result<EditOp, AllocError>
        ensures { IfOk result (λ op. op ≡ property_edit path.now change.now.name change.now.value) }
    {
        let path = path.clone()?;
        let name = change.name.clone()?;
        match &change.value {
            None => Ok(EditOp::RemoveProperty(path, name)),
            Some(value) => Ok(EditOp::SetProperty(path, name, value.clone()?)),
        }
    }
}
