//! What stands at a path on both sides.
ghost use Rattle.std.specs.Prelude.{◌≡◌, ◌||◌, not, Option, is_some};
ghost use Rattle.repo_api.specs.{Kinds.kind_of, declared.entry.Entry.Entry};
ghost use Rattle.drive_visits.specs.Walks.{goes};

use repo_api::NodeKind;

/// What stands at a path on both sides, and whether what stood there is apart: another than what is to stand there.
#[derive(Clone, Copy, Debug)]
pub struct Kinds {
    pub old: NodeKind,
    pub new: NodeKind,
    pub is_apart: bool,
}

/// Says whether the entry that stands there goes: nothing is to stand there, or it is apart.
pub(crate) fn goes(kinds: Kinds) -> bool
    ensures { (e f : Option Entry) → kinds.old ≡ kind_of e → kinds.new ≡ kind_of f
        → result ≡ goes kinds.is_apart e f }
{
    kinds.old.is_present() && (!kinds.new.is_present() || kinds.is_apart)
}

/// Says whether an entry that is to exist there is added: nothing existed there, or it is apart.
pub(crate) fn is_added(kinds: Kinds) -> bool
    ensures { (e f : Option Entry) → kinds.old ≡ kind_of e → kinds.new ≡ kind_of f
        → result ≡ (not (is_some e) || goes kinds.is_apart e f) }
{
    !kinds.old.is_present() || goes(kinds)
}
