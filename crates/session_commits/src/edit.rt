//! A commit: its beginning, its commands and its end.
ghost use Rattle.std.specs.Prelude.{◌≡◌, ◌≤◌, ◌∷◌, [], Ok, Err, Some, IfOk, if◌then◌else◌};
ghost use Rattle.items.specs.View.{value_of};
ghost use Rattle.dates.specs.{Dates.IsDateText, declared.TheConstants.LAST_MOMENT};
ghost use Rattle.repo_api.specs.Transactions.{MayCommit};
ghost use Rattle.wire_edits.specs.Editing.{editor_command};
ghost use Rattle.edit_rules.specs.{Editor.{finished, RestsOn}, Edits.new_edit, Soundness.IsSoundEdit};
ghost use Rattle.access.specs.Points.{content_of};
ghost use Rattle.machine.specs.{Answers.says, Commands.{asked_by, commit_begins, lock_tokens}};
ghost use Rattle.machine.specs.{Machine.{CloseStep, commit_ask, EditingStep, UnreleasedClose, UnreleasedEnd}, Steps.{Answered, AnsweredIfAny, SteppedInPart}};
ghost use Rattle.wire_replies.specs.{Made.Makes, Sinks.Says};
ghost use Rattle.session_commits.specs.Telling.{tells_made, commit_answer};

use crate::asking::asked_by;
use access::{Committed, Released, RepoAccess};
use byte_string::ByteString;
use commands::CommitCommand;
use dates::date_bytes;
use editor::CommitEditor;
use items::Item;
use machine::{Client, CommitParameters, Ending, OpenEdit, Options, Phase, Turn, ending_of};
use refusals::{NotDone, Refusal};
use repo_api::{CommitAsk, Repository};
use session_edits::{apply_command, give_up};
use session_replies::{
    Preface, SessionEdit, SessionPhase, end_malformed, refuse, stands, tell_fault,
};
use std::alloc::{AllocError, Global};
use std::mem::drop;
use wire_edits::EditorCommand;
use wire_forms::CommandFault;
use wire_replies::{Reply, ReplySink, say_both};

/// Makes an edit of which nothing has been made.
fn new_editor<R: Repository>(
    alloc: Global,
    options: &Options,
    client: &Client,
) -> Result<CommitEditor<R>, AllocError>
    ensures { let client = client.now in
        Makes result (new_edit client.path options.now.name client.is_of_today) }
{
    let name = String::from_str(alloc, options.name())?;
    let path = client.path.clone()?;
    Ok(CommitEditor::new(alloc, path, name, client.is_of_today))
}

/// Opens an edit, once its client is answered that it may begin.
fn open_edit<R: Repository, S: ReplySink>(
    edit: SessionEdit<R>,
    turn: &mut Turn<S>,
) -> Result<SessionPhase<R>, AllocError>
    ensures { Answered result S.writes turn.old turn.new
        (says turn.old.env (Phase.Editing edit) (Reply.Success ∷ [])) }
{
    let said = turn.out.say(&Reply::Success);
    stands(Phase::Editing(edit), said)
}

/// Begins an edit.
pub fn begin_edit<R: Repository, S: ReplySink>(
    options: &Options,
    client: Client,
    command: &CommitCommand,
    turn: &mut Turn<S>,
) -> Result<SessionPhase<R>, AllocError>
    ensures { Answered result S.writes turn.old turn.new
        (commit_begins options.now turn.old.env client
        (asked_by command.now (lock_tokens client.path command.now.tokens))) }
{
    match asked_by(turn.alloc, &client.path, command) {
        Ok(asked) => match new_editor(turn.alloc, options, &client) {
            Ok(editor) => open_edit(
                OpenEdit {
                    client,
                    asked,
                    editor,
                },
                turn,
            ),
            Err(error) => {
                drop(client);
                drop(asked);
                Err(error)
            }
        },
        Err(NotDone::Refused(refusal)) => refuse(client, Preface::Nothing, refusal, turn),
        Err(NotDone::NoMemory) => {
            drop(client);
            Err(AllocError)
        }
    }
}

/// Makes what a commit is asked to record.
fn commit_ask(
    alloc: Global,
    client: &Client,
    asked: CommitParameters,
    date: &ByteString,
) -> Result<CommitAsk, AllocError>
    ensures { Makes result (commit_ask client.now asked date.now) }
{
    let CommitParameters {
        message,
        properties,
        tokens,
        keep_locks,
    } = asked;
    Ok(CommitAsk {
        date: date.clone()?,
        author: client.user.clone()?,
        message,
        properties,
        tokens,
        keep_locks,
    })
}

/// What a client is told of its commit, beside the revision's number.
#[derive(Drop)]
struct Told {
    date: ByteString,
    author: Option<ByteString>,
}

/// Makes what a client is answered about a commit of this moment.
fn commit_told(alloc: Global, moment: u64, user: &Option<ByteString>) -> Result<Told, AllocError>
    requires { moment ≤ LAST_MOMENT }
    ensures { IfOk result (λ told. IsDateText moment told.date × (told.author ≡ user.now)) }
{
    let date = date_bytes(alloc, moment)?;
    let author = user.clone()?;
    Ok(Told { date, author })
}

/// Gathers what a commit of this moment asks for, and what its client is told once it is made.
fn ready_commit(
    alloc: Global,
    moment: u64,
    client: &Client,
    asked: CommitParameters,
) -> Result<(CommitAsk, Told), AllocError>
    requires { moment ≤ LAST_MOMENT }
    ensures { IfOk result (λ ready. IsDateText moment ready.1.date
        × (ready.1.author ≡ client.now.user)
        × (ready.0 ≡ commit_ask client.now asked ready.1.date)) }
{
    match commit_told(alloc, moment, &client.user) {
        Ok(told) => match commit_ask(alloc, client, asked, &told.date) {
            Ok(ask) => Ok((ask, told)),
            Err(error) => {
                drop(told);
                Err(error)
            }
        },
        Err(error) => {
            drop(asked);
            Err(error)
        }
    }
}

/// Writes that a commit is made, and then what is told of it.
fn say_commit_made<S: ReplySink>(info: &Reply, out: &mut S) -> Result<(), AllocError>
    ensures { Says result (S.writes out.old out.new)
        (Reply.Success ∷ Reply.NoLogin ∷ info.now ∷ []) }
{
    say_both(&Reply::Success, &Reply::NoLogin, out)?;
    out.say(info)
}

/// Tells of a commit.
fn say_committed<S: ReplySink>(
    revision: u64,
    date: ByteString,
    author: Option<ByteString>,
    fails: bool,
    out: &mut S,
) -> Result<(), AllocError>
    ensures { Says result (S.writes out.old out.new)
        (Reply.Success ∷ Reply.NoLogin ∷ Reply.CommitInfo revision date author fails ∷ []) }
{
    let info = Reply::CommitInfo(revision, date, author, fails);
    let said = say_commit_made(&info, out);
    drop(info);
    said
}

/// Says where a session stands after a commit: at its end, where the store failed at its release.
fn phase_after<R: Repository>(client: Client, is_over: bool) -> SessionPhase<R>
    ensures { result ≡ (if is_over then Phase.Ended else Phase.Serving client) }
{
    if is_over {
        drop(client);
        Phase::Ended
    } else {
        Phase::Serving(client)
    }
}

/// Tells of a commit, and whether the store failed at its release. Commands are awaited again, unless it did.
fn tell_made<R: Repository, S: ReplySink>(
    client: Client,
    revision: u64,
    fails: bool,
    told: Told,
    turn: &mut Turn<S>,
) -> Result<SessionPhase<R>, AllocError>
    ensures { Answered result S.writes turn.old turn.new
        (tells_made turn.old.env client revision told.date told.author fails) }
{
    let Told { date, author } = told;
    let said = say_committed(revision, date, author, fails, &mut turn.out);
    stands(phase_after(client, fails), said)
}

/// Tells of a commit. Where memory was refused for its release there is no answer, and nothing is written.
fn tell_commit<R: Repository, S: ReplySink>(
    client: Client,
    made: Committed,
    told: Told,
    turn: &mut Turn<S>,
) -> Result<SessionPhase<R>, AllocError>
    ensures { AnsweredIfAny result S.writes turn.old turn.new
        (commit_answer turn.old.env client told.date told.author made.revision made.released) }
{
    match made.released {
        Released::Settled => tell_made(client, made.revision, false, told, turn),
        Released::StoreFailed => tell_made(client, made.revision, true, told, turn),
        Released::NoMemory => {
            drop(client);
            drop(told);
            Err(AllocError)
        }
    }
}

/// Commits a transaction.
fn commit<R: Repository, A: RepoAccess<View = R>, S: ReplySink>(
    client: Client,
    asked: CommitParameters,
    txn: R::Txn,
    access: &mut A,
    turn: &mut Turn<S>,
) -> Result<SessionPhase<R>, AllocError>
    requires { MayCommit (content_of (A.point access.old)) (R.txn_state txn) }
    ensures { SteppedInPart result S.writes turn.old turn.new A.rules A.point access.old access.new
        (CloseStep turn.old.env client asked (Ok (R.txn_state txn)))
        (UnreleasedClose turn.old.env client asked (Ok (R.txn_state txn))) }
{
    match ready_commit(turn.alloc, turn.env.moment, &client, asked) {
        Ok((ask, told)) => match access.commit(ask, txn) {
            Ok(made) => tell_commit(client, made, told, turn),
            Err(refused) => {
                drop(told);
                let (fault, path) = refused.into_parts();
                tell_fault(client, path, Preface::Nothing, fault, turn)
            }
        },
        Err(error) => {
            drop(client);
            drop(txn);
            Err(error)
        }
    }
}

/// Ends an edit: its transaction is committed, if it has one.
fn commit_edit<R: Repository, A: RepoAccess<View = R>, S: ReplySink>(
    edit: SessionEdit<R>,
    access: &mut A,
    turn: &mut Turn<S>,
) -> Result<SessionPhase<R>, AllocError>
    requires rests { RestsOn edit.editor (content_of (A.point access.old)) }
    requires sound { IsSoundEdit edit.editor }
    ensures { SteppedInPart result S.writes turn.old turn.new A.rules A.point access.old access.new
        (CloseStep turn.old.env edit.client edit.asked (finished edit.editor))
        (UnreleasedClose turn.old.env edit.client edit.asked (finished edit.editor)) }
{
    let OpenEdit {
        client,
        asked,
        editor,
    } = edit;
    match editor.finish() {
        Ok(txn) => commit(client, asked, txn, access, turn),
        Err(refusal) => {
            drop(asked);
            refuse(client, Preface::Nothing, refusal, turn)
        }
    }
}

/// Ends an edit that its client gives up.
fn abort<R: Repository, S: ReplySink>(
    edit: SessionEdit<R>,
    turn: &mut Turn<S>,
) -> Result<SessionPhase<R>, AllocError>
    ensures { Answered result S.writes turn.old turn.new
        (says turn.old.env (Phase.Serving edit.client) (Reply.Success ∷ [])) }
{
    let OpenEdit {
        client,
        asked,
        editor,
    } = edit;
    drop(asked);
    drop(editor);
    let said = turn.out.say(&Reply::Success);
    stands(Phase::Serving(client), said)
}

/// Obeys a command of an edit.
fn edit_command<R: Repository, A: RepoAccess<View = R>, S: ReplySink>(
    edit: SessionEdit<R>,
    command: &EditorCommand,
    access: &mut A,
    turn: &mut Turn<S>,
) -> Result<SessionPhase<R>, AllocError>
    requires rests { RestsOn edit.editor (content_of (A.point access.old)) }
    requires sound { IsSoundEdit edit.editor }
    ensures { SteppedInPart result S.writes turn.old turn.new A.rules A.point access.old access.new
        (EditingStep (S.is_honest turn.new.out) turn.old.env edit (Ok command.now))
        (UnreleasedEnd turn.old.env edit (Ok command.now)) }
{
    match ending_of(command) {
        Some(Ending::Commits) => commit_edit(edit, access, turn),
        Some(Ending::GivesUp) => abort(edit, turn),
        None => apply_command(edit, command, access, turn),
    }
}

/// Takes an item within an edit. What it makes of a text delta rests on what was read of the text.
pub fn edit_input<R: Repository, A: RepoAccess<View = R>, S: ReplySink>(
    edit: SessionEdit<R>,
    item: &Item,
    access: &mut A,
    turn: &mut Turn<S>,
) -> Result<SessionPhase<R>, AllocError>
    requires rests { RestsOn edit.editor (content_of (A.point access.old)) }
    requires sound { IsSoundEdit edit.editor }
    ensures { SteppedInPart result S.writes turn.old turn.new A.rules A.point access.old access.new
        (EditingStep (S.is_honest turn.new.out) turn.old.env edit (editor_command (value_of item.now)))
        (UnreleasedEnd turn.old.env edit (editor_command (value_of item.now))) }
{
    match EditorCommand::from_item(item) {
        Ok(command) => {
            let phase = edit_command(edit, &command, access, turn);
            drop(command);
            phase
        }
        Err(CommandFault::UnknownName) => give_up(edit, Refusal::UnknownCommand, None, turn),
        Err(CommandFault::BadParameters) => {
            drop(edit);
            end_malformed(turn)
        }
        Err(CommandFault::NoMemory) => {
            drop(edit);
            Err(AllocError)
        }
    }
}
