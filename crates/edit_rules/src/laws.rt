//! What holds of every edit. The functions do nothing: their contracts are the laws.
ghost use Rattle.std.specs.Prelude.{◌≡◌, ℕ, Bool, List, Option, Some, None, Ok};
ghost use Rattle.svnpath.specs.{Paths.PathValue, Texts.joined};
ghost use Rattle.repo_api.specs.{Soundness.AreSound, States.RepoState, declared.change.Source.Source, declared.edit.EditOp.EditOp};
ghost use Rattle.repo_api.specs.declared.edit.EditOp.TheVariants.{Delete};
ghost use Rattle.wire_edits.specs.{declared.editing.EditorCommand.EditorCommand, declared.editing.AddedEntry.AddedEntry};
ghost use Rattle.wire_edits.specs.declared.editing.DeletedEntry.{DeletedEntry};
ghost use Rattle.edit_rules.specs.{Edits.{EditState, new_edit, standing}, Refusing.{edit_refusal, add_entry_refusal, delete_entry_refusal, open_under}};
ghost use Rattle.edit_rules.specs.{Editor.{Applies, RestsOn, added_edit, property_edit}, Soundness.{IsSoundEdit, IsRightIn}, Texts.SetsText, Tokens.path_of};
ghost use Rattle.edit_rules.specs.declared.opened.Opened.{Opened};

/// Shows that an edit that has heard nothing is sound, and so is an edit after each command that is not refused, where
/// every tree of the repository is a tree, whatever was read for a text.
pub fn edits_keep_trees()
    ensures begins { (path : PathValue) (name : List ℕ) (is_of_today : Bool)
        → IsSoundEdit (new_edit path name is_of_today) }
    ensures goes_on { (c : RepoState) (old new : EditState) (command : EditorCommand)
        → AreSound c.revisions → RestsOn old c → IsSoundEdit old → edit_refusal c old command ≡ None
        → Applies ⊥ c old command new → IsSoundEdit new }
{
    repo_laws::beginnings_are_trees();
    repo_laws::edits_keep_trees();
    repo_laws::same_entries_make_a_tree();
    repo_laws::transactions_begin_marked();
    repo_laws::transactions_stay_marked();
}

/// Shows that what the commands of a sound edit make of its transaction may be made of it, where the command is not
/// refused, or of what is open under its token.
pub fn edits_are_right()
    ensures deletes { (c : RepoState) (e : EditState) (entry : DeletedEntry) (p : PathValue) → IsSoundEdit e
        → delete_entry_refusal e entry (Ok p) ≡ None → IsRightIn c e.txn (Delete p) }
    ensures adds { (c : RepoState) (e : EditState) (is_file : Bool) (entry : AddedEntry) (p : PathValue) (source : Option Source)
        → IsSoundEdit e → joined e.path entry.path ≡ Ok p
        → add_entry_refusal c e is_file entry (Ok p) (Ok source) ≡ None
        → IsRightIn c e.txn (added_edit is_file (standing e.txn p) p source) }
    ensures sets_properties { (c : RepoState) (e : EditState) (token : List ℕ) (o : Opened) (name : List ℕ) (value : Option (List ℕ))
        → IsSoundEdit e → open_under e token ≡ Some o → IsRightIn c e.txn (property_edit (path_of o) name value) }
    ensures sets_texts { (c : RepoState) (e : EditState) (token : List ℕ) (op : EditOp)
        → IsSoundEdit e → SetsText (open_under e token) op → IsRightIn c e.txn op }
{}
