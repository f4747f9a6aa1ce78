//! An edit that is given up.
ghost use Rattle.std.specs.Prelude.{◌≡◌};
ghost use Rattle.machine.specs.{Machine.gives_up, Steps.Answered};

use machine::{OpenEdit, Phase, Turn, failure_at};
use refusals::Refusal;
use repo_api::Repository;
use session_replies::{SessionEdit, SessionPhase, stands};
use std::alloc::AllocError;
use std::mem::drop;
use svnpath::Path;
use wire_replies::{Reply, ReplySink, say_new};

/// Gives an edit up, and tells why, and at which path, if it is one of a path. The end of the edit is awaited.
pub fn give_up<R: Repository, S: ReplySink>(
    edit: SessionEdit<R>,
    refusal: Refusal,
    path: Option<Path>,
    turn: &mut Turn<S>,
) -> Result<SessionPhase<R>, AllocError>
    ensures { Answered result S.writes turn.old turn.new
        (gives_up turn.old.env edit.client refusal path) }
{
    let failure = failure_at(edit.client.is_of_today, refusal, path);
    let said = say_new(failure, &mut turn.out);
    stands(skipping(edit), said)
}

/// Says where a session stands whose edit was given up.
fn skipping<R: Repository>(edit: SessionEdit<R>) -> SessionPhase<R>
    ensures { result ≡ Phase.Skipping edit.client }
{
    let OpenEdit {
        client,
        asked,
        editor,
    } = edit;
    drop(asked);
    drop(editor);
    Phase::Skipping(client)
}
