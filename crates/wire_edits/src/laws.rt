//! What holds of the commands of edits. The function does nothing: its contract is the law.
ghost use Rattle.std.specs.Prelude.{◌≡◌, Ok};
ghost use Rattle.wire_edits.specs.{Editing.editor_command, Printing.command_item, declared.editing.EditorCommand.EditorCommand};

/// Shows that a command that is sent is read as itself.
pub fn commands_are_read()
    ensures { (command : EditorCommand) → editor_command (command_item command) ≡ Ok command }
{}
