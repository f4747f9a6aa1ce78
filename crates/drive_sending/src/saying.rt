//! Commands that are written as they are made. Where one of these fails, a part of what it says was
//! written.
ghost use Rattle.std.specs.Prelude.{◌∷◌, []};
ghost use Rattle.drive_sending.specs.Driving.{Sends};
ghost use Rattle.wire_replies.specs.Made.{Makes};

use std::alloc::AllocError;
use wire_edits::EditorCommand;
use wire_replies::{Reply, ReplySink, say_new};

/// Writes a command.
pub(crate) fn say_command<S: ReplySink>(
    command: EditorCommand,
    out: &mut S,
) -> Result<(), AllocError>
    ensures { Sends result (S.writes out.old out.new) (command ∷ []) }
{
    say_new(Reply::Edit(command), out)
}

/// Writes a command, if it was made.
pub(crate) fn say_made<S: ReplySink>(
    made: Result<EditorCommand, AllocError>,
    out: &mut S,
) -> Result<(), AllocError>
    ensures { (c : _) → Makes made c → Sends result (S.writes out.old out.new) (c ∷ []) }
{
    match made {
        Ok(command) => say_command(command, out),
        Err(error) => Err(error),
    }
}
