//! Small rules that larger promises rest on, each with a wrong body that turns it.
#![tactic(auto)]

ghost use Rattle.std.specs.Prelude.{◌≡◌, Option};
ghost use Rattle.repo_api.specs.{Kinds.kind_of, Locking.is_of_whole_tree, declared.entry.Entry.Entry};
ghost use Rattle.wire_forms.specs.Forms.{is_name};
ghost use Rattle.small_rules.specs.{GivingWay.gives_way, Guarding.guarding_change};

use repo_api::{Action, FileText, NodeKind};
use svnpath::Path;

/// Says whether a change of this kind changes all that lies beneath its path.
pub fn is_of_whole_tree(action: Action) -> bool
    ensures { result ≡ is_of_whole_tree action }
{
    match action {
        Action::Add | Action::Delete | Action::Replace => true,
        Action::Modify => false,
    }
}

/// Says whether both texts have the same bytes. Those of other digests, which are kept, have not, and are not looked at.
pub fn is_same_text(old: &FileText, new: &FileText) -> bool
    ensures { result ≡ is_name old.now new.now }
{
    old.digest() == new.digest() && old.as_slice() == new.as_slice()
}

/// Says whether an entry of the old kind gives way: nothing, or an entry of another kind, is to stand there.
pub fn gives_way(old: NodeKind, new: NodeKind) -> bool
    ensures { (e f : Option Entry) → old ≡ kind_of e → new ≡ kind_of f → result ≡ gives_way e f }
{
    match old {
        NodeKind::Absent => false,
        NodeKind::File => !new.is_file(),
        NodeKind::Directory => !new.is_directory(),
    }
}

/// Gives the change by which the properties of a directory are guarded, of its last one and the base of the
/// transaction: the base for a client of today at the repository's root, and else the last one.
pub fn guarding_change(
    is_of_today: bool,
    path: &Path,
    base: Option<u64>,
    made: Option<u64>,
) -> Option<u64>
    ensures { result ≡ guarding_change is_of_today path.now base made }
{
    if is_of_today && path.is_root() {
        base
    } else {
        made
    }
}
