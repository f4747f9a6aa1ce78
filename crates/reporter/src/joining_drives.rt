//! What holds of the commands of drives. The function does nothing: its contract is the law.
ghost use Rattle.std.specs.Prelude.{ℕ, List, ◌++◌};
ghost use Rattle.svnpath.specs.Paths.{PathValue};
ghost use Rattle.wire_edits.specs.declared.editing.EditorCommand.{EditorCommand};
ghost use Rattle.drive_rules.specs.Steps.{Step};
ghost use Rattle.reporter.specs.{declared.ask.Purpose.Purpose, Saying.{OpenEntry, Says}};

/// Shows that commands one after the other say their steps one after the other.
pub fn drives_join()
    ensures { (purpose : Purpose) (top : PathValue) (base : PathValue → List ℕ)
        (open_first open_between open_last : List OpenEntry) (xs ys : List EditorCommand)
        (ss ts : List Step) → Says purpose top base open_first xs ss open_between
        → Says purpose top base open_between ys ts open_last
        → Says purpose top base open_first (xs ++ ys) (ss ++ ts) open_last }
{}
