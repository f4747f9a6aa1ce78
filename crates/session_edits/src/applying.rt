//! The commands of an edit.
ghost use Rattle.std.specs.Prelude.{◌≡◌, Some, None, MatchResult};
ghost use Rattle.refusals.specs.Faults.{IfRefusedAt};
ghost use Rattle.edit_rules.specs.{Editor.{Applies, RestsOn}, Refused.refused_at, Refusing.edit_refusal, Soundness.IsSoundEdit};
ghost use Rattle.access.specs.Points.{content_of};
ghost use Rattle.machine.specs.{Machine.EditStep, Steps.{Looks, Stepped}};

use crate::giving_up::give_up;
use access::RepoAccess;
use editor::CommitEditor;
use machine::{Phase, Turn};
use refusals::NotDoneAt;
use repo_api::{Repository, Texts};
use session_replies::{SessionEdit, SessionPhase};
use std::alloc::AllocError;
use std::mem::drop;
use wire_edits::EditorCommand;
use wire_replies::ReplySink;

/// Applies a command at the repository as it is now.
fn apply_now<R: Repository, A: RepoAccess<View = R>, T: Texts>(
    editor: &mut CommitEditor<R>,
    command: &EditorCommand,
    access: &mut A,
    texts: &mut T,
) -> Result<(), NotDoneAt>
    requires rests { RestsOn editor.old (content_of (A.point access.old)) }
    requires sound { IsSoundEdit editor.old }
    ensures reads { T.reads texts.old texts.new }
    ensures applied { Looks A.rules A.point access.old access.new (λ c. MatchResult result
        (λ _. (edit_refusal c editor.old command.now ≡ None)
        × Applies (T.is_honest texts.new) c editor.old command.now editor.new)
        (λ fault. IfRefusedAt fault (λ r path. (edit_refusal c editor.old command.now ≡ Some r)
        × (path ≡ refused_at editor.old command.now r)))) }
{
    let view = access.look()?;
    editor.apply(command, &view, texts)
}

/// Carries out a command that edits. One that is refused gives the edit up.
pub fn apply_command<R: Repository, A: RepoAccess<View = R>, S: ReplySink>(
    edit: SessionEdit<R>,
    command: &EditorCommand,
    access: &mut A,
    turn: &mut Turn<S>,
) -> Result<SessionPhase<R>, AllocError>
    requires rests { RestsOn edit.editor (content_of (A.point access.old)) }
    requires sound { IsSoundEdit edit.editor }
    ensures { Stepped result S.writes turn.old turn.new A.rules A.point access.old access.new
        (EditStep (S.is_honest turn.new.out) turn.old.env edit command.now) }
{
    let mut edit = edit;
    match apply_now(&mut edit.editor, command, access, &mut turn.out) {
        Ok(()) => Ok(Phase::Editing(edit)),
        Err(NotDoneAt::Refused(refusal, path)) => give_up(edit, refusal, path, turn),
        Err(NotDoneAt::NoMemory) => {
            drop(edit);
            Err(AllocError)
        }
    }
}
