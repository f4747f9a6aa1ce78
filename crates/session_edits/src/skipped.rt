//! What is passed over of an edit that was given up.
ghost use Rattle.items.specs.View.{value_of};
ghost use Rattle.wire_edits.specs.Editing.{ends_edit};
ghost use Rattle.machine.specs.{Machine.skipping_answer, Steps.Answered};

use items::Item;
use machine::{Client, Phase, Turn};
use repo_api::Repository;
use session_replies::{SessionPhase, end_malformed};
use std::alloc::AllocError;
use std::mem::drop;
use wire_edits::ends_edit;
use wire_replies::ReplySink;

/// Skips an item of an edit that was given up.
pub fn skipped_item<R: Repository, S: ReplySink>(
    client: Client,
    item: &Item,
    turn: &mut Turn<S>,
) -> Result<SessionPhase<R>, AllocError>
    ensures { Answered result S.writes turn.old turn.new
        (skipping_answer turn.old.env client (ends_edit (value_of item.now))) }
{
    match ends_edit(item) {
        Some(true) => Ok(Phase::Serving(client)),
        Some(false) => Ok(Phase::Skipping(client)),
        None => {
            drop(client);
            end_malformed(turn)
        }
    }
}
