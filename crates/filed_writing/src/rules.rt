//! The rules that the nodes and the changes of a revision keep, so that what its file says is read again.
ghost use Rattle.std.specs.{Prelude.{◌≡◌, ◌<◌, Decides, IfSome, is_some, option_copied, option_map}, Arc.arc_value, List.Sorted.IsStrictlySortedBy};
ghost use Rattle.std.specs.{Map.keys_of, Cmp.Lexicographic.slice_cmp, Ordering.nat_cmp, declared.cmp.Ordering.TheVariants.Less};
ghost use Rattle.svnpath.specs.Components.{IsComponent, IsRightPath};
ghost use Rattle.revision_data.specs.Found.{found};
ghost use Rattle.noderevs.specs.Nodes.{mark_of};
ghost use Rattle.repo_api.specs.declared.entry.Mark.TheVariants as Mark;
ghost use Rattle.filed_writing.specs.{Blocks.{AreRightChanges, ChangeIsRight, PropertiesFit, SourcesAreEarlier, right_own}, Drafts.came_from, Layout.made_from};

use crate::copies::Predecessor;
use crate::revision::Revision;
use byte_string::ByteString;
use fsfs_nodes::are_properties;
use noderevs::{Made, NodeRev};
use repo_api::{Change, Properties, Source};
use std::cmp::Ordering;
use svnpath::{DEPTH_LIMIT, Path, is_component};

/// Says whether a name may be one of a path.
fn is_right_name(name: &ByteString) -> bool
    ensures { Decides result (IsComponent name.now) }
{
    is_component(name.as_slice())
}

/// Says whether a path has names that a path may have, and is not too deep.
fn is_right_path(path: &Path) -> bool
    ensures { Decides result (IsRightPath path.now) }
{
    path.len() <= DEPTH_LIMIT && path.components().iter().all(is_right_name)
}

/// Says whether what was copied is of an earlier revision, at a right path.
fn is_right_source(number: u32, source: &Source) -> bool
    ensures { Decides result (IsRightPath source.now.path × (source.now.revision < number)) }
{
    source.revision < number as u64 && is_right_path(&source.path)
}

/// Says whether a change is of a right path, and so is what it copied, which is of an earlier revision.
fn is_right_change(number: u32, change: &(Path, Change)) -> bool
    ensures { Decides result (ChangeIsRight change.now
        × IfSome change.now.1.source (λ source. source.revision < number)) }
{
    is_right_path(&change.0)
        && match &change.1.source {
            Some(source) => is_right_source(number, source),
            None => true,
        }
}

/// Says whether a name may stand behind the last one, if there is one.
fn is_behind(last: Option<&ByteString>, name: &ByteString) -> bool
    ensures { Decides result (IfSome (option_copied last.entry)
        (λ last. slice_cmp nat_cmp last name.now ≡ Less)) }
{
    match last {
        Some(last) => matches!(last.cmp(name), Ordering::Less),
        None => true,
    }
}

/// Says whether the names of properties rise, by their bytes.
fn names_rise(properties: &Properties) -> bool
    ensures { Decides result (IsStrictlySortedBy (slice_cmp nat_cmp) (keys_of properties.now)) }
{
    let mut last: Option<&ByteString> = None;
    for (name, _) in properties.iter() {
        if !is_behind(last, name) {
            return false;
        }
        last = Some(name);
    }
    true
}

/// Says whether properties are within their limits, and in their order.
pub fn properties_fit(properties: &Properties) -> bool
    ensures { Decides result (PropertiesFit properties.now) }
{
    are_properties(properties) && names_rise(properties)
}

/// Says whether two paths are the same.
#[tactic(auto, using(svnpath::specs::PathLaws::same_path_is, svnpath::specs::PathLaws::same_path_refl))]
fn is_same_path(path: &Path, other: &Path) -> bool
    ensures { Decides result (path.now ≡ other.now) }
{
    path == other
}

/// Says whether a change was made in this revision at this path.
fn is_mark(own: &Made, number: u32, path: &Path) -> bool
    ensures { Decides result (mark_of own.now ≡ Mark.Made number path.now) }
{
    own.rev == number && is_same_path(&own.path, path)
}

impl Revision<'_> {
    /// Says whether all changes are of right paths, and so is what they copied, which is of earlier revisions.
    pub fn has_right_changes(self) -> bool
        ensures { Decides result (AreRightChanges self.entry.changes.now
            × SourcesAreEarlier self.entry) }
    {
        for change in self.changes {
            if !is_right_change(self.number, change) {
                return false;
            }
        }
        true
    }

    /// Says whether the own last change of a node is the right one: it was made here where the changes list the
    /// node's path or the node was made from none, and else it is that of what the node was made from.
    pub fn has_right_own(
        self,
        node: &NodeRev,
        is_changed: bool,
        before: Option<Predecessor<'_>>,
    ) -> bool
        requires changed { is_changed ≡ is_some (found self.changes.now node.now.path) }
        requires made { option_map came_from before ≡ made_from self node.now }
        ensures { Decides result (mark_of node.now.own ≡ right_own self.entry node.now) }
    {
        if is_changed {
            return is_mark(&node.own, self.number, &node.path);
        }
        match before {
            Some(before) => is_mark(&node.own, before.node.own.rev, &before.node.own.path),
            None => is_mark(&node.own, self.number, &node.path),
        }
    }
}
