//! Commands that are written as they are made. Where one of these fails, a part of what it says was written.
ghost use Rattle.std.specs.Prelude.{◌∷◌, []};
ghost use Rattle.wire_edits.specs.declared.editing.EditorCommand.{EditorCommand};
ghost use Rattle.replays.specs.Sending.{Sends};
ghost use Rattle.wire_replies.specs.Made.{Makes};

use std::alloc::AllocError;
use wire_edits::EditorCommand;
use wire_replies::{Reply, ReplySink, say_new};

/// Writes a command, if it was made. If not, nothing is written.
pub(crate) fn say_command<S: ReplySink>(
    made: Result<EditorCommand, AllocError>,
    out: &mut S,
) -> Result<(), AllocError>
    ensures { (c : EditorCommand) → Makes made c
        → Sends result (S.writes out.old out.new) (c ∷ []) }
{
    match made {
        Ok(command) => say_new(Reply::Edit(command), out),
        Err(error) => Err(error),
    }
}
