//! The end of an edit.
ghost use Rattle.std.specs.Prelude.{◌≡◌};
ghost use Rattle.machine.specs.Machine.{ending_of};

use wire_edits::EditorCommand;

/// How an edit ends.
#[derive(Clone, Copy)]
pub enum Ending {
    /// It is to be committed.
    Commits,
    /// It is given up.
    GivesUp,
}

/// Says whether a command ends an edit, and how.
pub fn ending_of(command: &EditorCommand) -> Option<Ending>
    ensures { result ≡ ending_of command.now }
{
    match command {
        EditorCommand::CloseEdit => Some(Ending::Commits),
        EditorCommand::AbortEdit => Some(Ending::GivesUp),
        _ => None,
    }
}
