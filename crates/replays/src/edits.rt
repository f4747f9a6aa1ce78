//! The edit of a revision that is replayed. Where one of these fails, a part of what it says was written.
ghost use Rattle.std.specs.Prelude.{◌≡◌, [], None, option_copied, suc, true};
ghost use Rattle.svnpath.specs.declared.component.TheConstants.{DEPTH_LIMIT};
ghost use Rattle.repo_api.specs.Histories.{history_of};
ghost use Rattle.replays.specs.{Commands.token_of, Edits.{edit_commands, edit_replies, root_commands}, Places.run_at, Sending.Sends, Shaping.root_shape};
ghost use Rattle.wire_replies.specs.{Made.Makes, Sinks.Says};

use crate::listing::{change_of, has_text};
use crate::naming::token;
use crate::places::Shape;
use crate::replayed::Replayed;
use crate::saying::say_command;
use crate::searching::is_to_be_opened;
use crate::spots::Spot;
use crate::walking::say_inside;
use history::ask_on;
use repo_api::{Change, NodeKind, Repository};
use std::alloc::{AllocError, Global};
use svnpath::{DEPTH_LIMIT, Path};
use traces::Place;
use wire_edits::EditorCommand;
use wire_replies::{Reply, ReplySink, say_new};

/// Makes the command that opens the root.
fn open_root(alloc: Global) -> Result<EditorCommand, AllocError>
    ensures { Makes result (EditorCommand.OpenRoot None (token_of true 0)) }
{
    Ok(EditorCommand::OpenRoot(None, token(alloc, true, 0)?))
}

/// Says that the root is kept: the client has that of the revision before.
fn root_shape(alloc: Global, revision: u64, change: Option<&Change>) -> Shape
    ensures { result ≡ root_shape revision (option_copied change.entry) }
{
    Shape {
        kind: NodeKind::Directory,
        goes: false,
        source: None,
        kept: Some(Place {
            path: Path::root(alloc),
            revision: revision.saturating_sub(1),
        }),
        is_listed: change.is_some(),
        has_text: has_text(change),
    }
}

/// Gives what is known of the root.
fn root_spot<'a, R: Repository>(alloc: Global, replay: &Replayed<'a, R>) -> Spot<'a>
    ensures path { result.path ≡ [] }
    ensures run { result.run.now ≡ run_at (history_of (R.content replay.now.view.now)
        replay.now.revision) result.path }
    ensures levels { result.levels ≡ suc DEPTH_LIMIT }
{
    Spot {
        path: Path::root(alloc),
        place: None,
        run: replay.view.changes(replay.revision),
        levels: DEPTH_LIMIT + 1,
    }
}

/// Writes the commands from the open root on to its close, where anything is to be said.
fn say_root<R: Repository, S: ReplySink>(
    alloc: Global,
    replay: &Replayed<R>,
    out: &mut S,
) -> Result<(), AllocError>
    ensures { Sends result (S.writes out.old out.new) (root_commands
        (R.content replay.now.view.now) replay.now.ask.now replay.now.revision) }
{
    let spot = root_spot(alloc, replay);
    let shape = root_shape(alloc, replay.revision, change_of(spot.run, &spot.path));
    if !is_to_be_opened(alloc, replay, &spot, &shape)? {
        return Ok(());
    }
    say_command(open_root(alloc), out)?;
    say_inside(alloc, replay, &spot, &shape, out)
}

/// Writes the commands of a revision.
fn say_commands<R: Repository, S: ReplySink>(
    alloc: Global,
    replay: &Replayed<R>,
    out: &mut S,
) -> Result<(), AllocError>
    ensures { Sends result (S.writes out.old out.new) (edit_commands
        (R.content replay.now.view.now) replay.now.ask.now replay.now.revision) }
{
    say_command(Ok(EditorCommand::TargetRevision(replay.revision)), out)?;
    say_root(alloc, replay, out)
}

/// Writes what a revision did, as an edit. It ends as a walk does where the repository is given up.
///
/// # Errors
///
/// `AllocError` for want of memory, or where the sink fails.
pub fn say_edit<R: Repository, S: ReplySink>(
    alloc: Global,
    replay: &Replayed<R>,
    out: &mut S,
) -> Result<(), AllocError>
    ensures { Says result (S.writes out.old out.new) (edit_replies
        (R.content replay.now.view.now) replay.now.ask.now replay.now.revision) }
{
    ask_on(alloc, replay.view)?;
    say_commands(alloc, replay, out)?;
    say_new(Reply::FinishReplay, out)
}
