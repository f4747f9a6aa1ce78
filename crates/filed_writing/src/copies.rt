//! The ids that node revisions get: of their nodes, and of the copies that they are of.
ghost use Rattle.std.specs.Prelude.{◌≡◌, ◌≤◌, ◌-◌, Contains, Decides, IfOk, length, map, option_and_then, option_copied, option_map, reverse};
ghost use Rattle.std.specs.{List.Sorted.IsStrictlySortedBy, Map.keys_of};
ghost use Rattle.svnpath.specs.Paths.{path_cmp};
ghost use Rattle.revision_data.specs.Found.{found};
ghost use Rattle.noderevs.specs.{Held.node_at, declared.node_rev.NodeRev.NodeRev};
ghost use Rattle.filed_trees.specs.Tables.{placed_in};
ghost use Rattle.filed_writing.specs.{Blocks.IsRightHere, Drafts.{came_from, comes_of, copy_from}};
ghost use Rattle.filed_writing.specs.Layout.{all_come, comes, copies_of, copy_of, known_from, made_from, next_after, next_after_all, nodes_of, place_above};
ghost use Rattle.filed_writing.specs.{Pieces.{begins, copied, with_both}, Trails.{IsTrail, IsWay}};

use crate::counter::{Counter, taken};
use crate::revision::{Revision, puts};
use crate::rules::properties_fit;
use crate::text::text_of;
use crate::trail::Trail;
use crate::way::Way;
use filed_trees::Placed;
use fsfs_text::{IdPart, Place};
use noderevs::{NodeId, NodeRev};
use repo_api::{Change, Source};
use std::alloc::{AllocError, Global};

/// Says what a node revision was made from, and which node it is of. One that was copied itself
/// begins a copy.
#[derive(Clone, Copy)]
pub struct Origin<'a> {
    pub node: IdPart,
    pub predecessor: Option<Predecessor<'a>>,
    pub copy: Option<NewCopy<'a>>,
}

/// Holds what a node revision was made from, and where that stands in the files.
#[derive(Clone, Copy)]
pub struct Predecessor<'a> {
    pub node: &'a NodeRev,
    pub placed: &'a Placed,
}

/// Holds the id of a copy that begins with a node revision, and what was copied.
#[derive(Clone, Copy)]
pub struct NewCopy<'a> {
    pub id: IdPart,
    pub source: &'a Source,
}

/// Says which copy a node revision is of: its id, and where it begins.
#[derive(Drop)]
pub struct CopyRoot {
    pub id: IdPart,
    pub place: Place,
}

/// Gives what a change copied to its path.
fn copied(change: Option<&Change>) -> Option<&Source>
    ensures { option_copied result ≡ copied (option_copied change.entry) }
{
    let change = change?;
    if puts(change.action) {
        change.source.as_ref()
    } else {
        None
    }
}

impl<'a> Revision<'a> {
    /// Finds a node of an earlier revision, and where it stands in the files.
    fn predecessor(self, id: NodeId) -> Option<Predecessor<'a>>
        ensures { option_map came_from result
            ≡ with_both (node_at self.entry.nodes.now id) (placed_in self.entry.tables.now id) }
    {
        Some(Predecessor {
            node: self.nodes.node(id)?,
            placed: self.placed(id)?,
        })
    }

    /// Finds what a node revision was made from.
    fn made_from(
        self,
        node: &'a NodeRev,
        trail: &mut Trail<'a>,
    ) -> Result<Option<Predecessor<'a>>, AllocError>
        requires sorted { IsStrictlySortedBy path_cmp (keys_of self.changes.now) }
        requires trail { IsTrail self trail.now }
        ensures trail { IsTrail self.entry trail.new }
        ensures made { IfOk result (λ made. option_map came_from made
            ≡ made_from self.entry node.now) }
    {
        match trail.follow(self, node.path.components())? {
            Some(id) => Ok(self.predecessor(id)),
            None => Ok(None),
        }
    }

    /// Says what a node revision was made from, and gives it the ids that it takes itself.
    fn origin(
        self,
        node: &NodeRev,
        predecessor: Option<Predecessor<'a>>,
        change: Option<&'a Change>,
        next: &mut Counter,
    ) -> Origin<'a>
        requires made { option_map came_from predecessor ≡ made_from self node.now }
        requires change { option_copied change ≡ found self.changes.now node.now.path }
        ensures comes { comes_of result ≡ comes self.entry node.now next.old }
        ensures next { next.new ≡ next_after self.entry node.now next.old }
    {
        let number = match predecessor {
            Some(before) => before.placed.id().node,
            None => taken(next.revision, &mut next.node),
        };
        let copy = match copied(change) {
            Some(source) => Some(NewCopy {
                id: taken(next.revision, &mut next.copy),
                source,
            }),
            None => None,
        };
        Origin {
            node: number,
            predecessor,
            copy,
        }
    }

    /// Says whether a node keeps the rules, by what it was made from and by the change of its path.
    fn is_right_here(
        self,
        node: &NodeRev,
        predecessor: Option<Predecessor<'a>>,
        change: Option<&Change>,
    ) -> bool
        requires made { option_map came_from predecessor ≡ made_from self node.now }
        requires change { option_copied change ≡ found self.changes.now node.now.path }
        ensures { Decides result (IsRightHere self.entry node.now) }
    {
        properties_fit(&node.properties) && self.has_right_own(node, change.is_some(), predecessor)
    }

    /// Says of each node revision of this revision what it was made from, in their order. A node that does not keep the
    /// rules, of which no commit makes one, is not written.
    pub fn origins(self, alloc: Global, next: &mut Counter) -> Result<Vec<Origin<'a>>, AllocError>
        requires { IsStrictlySortedBy path_cmp (keys_of self.changes.now) }
        ensures all { IfOk result (λ origins. map comes_of origins.items
            ≡ all_come self.entry (nodes_of self.entry) next.old) }
        ensures next { IfOk result (λ _. next.new
            ≡ next_after_all self.entry (nodes_of self.entry) next.old) }
        ensures right { IfOk result (λ _. (node : NodeRev) → Contains (nodes_of self.entry) node
            → IsRightHere self.entry node) }
    {
        let mut trail = Trail::new(alloc);
        let mut origins = Vec::new(alloc);
        while let Some(node) = self.node_here(origins.len() as u64) {
            let predecessor = self.made_from(node, &mut trail)?;
            let change = trail.change_at(self, node.path.components());
            if !self.is_right_here(node, predecessor, change) {
                return Err(AllocError);
            }
            origins.push(self.origin(node, predecessor, change, next))?;
        }
        Ok(origins)
    }

    /// Finds the place of the directory of a node revision of this revision.
    fn directory(self, node: &'a NodeRev, way: &mut Way<'a>) -> Result<Option<usize>, AllocError>
        requires way { IsWay self way.now }
        ensures way { IsWay self.entry way.new }
        ensures place { IfOk result (λ place. place ≡ place_above self.entry node.now.path) }
    {
        let Some((_, above)) = node.path.components().split_last() else {
            return Ok(None);
        };
        match way.find(self, above)? {
            Some(id) => Ok(Some(id.place as usize)),
            None => Ok(None),
        }
    }

    /// Says which copy a node revision is of: one that begins with it, that of its predecessor, or that of
    /// its directory where there is no predecessor or where the directory's begins later.
    fn copy_root(
        self,
        alloc: Global,
        node: &NodeRev,
        origin: &Origin<'_>,
        directory: Option<&CopyRoot>,
    ) -> Result<CopyRoot, AllocError>
        ensures { IfOk result (λ root. copy_from root ≡ copy_of self.entry node.now
            (comes_of origin.now) (option_map copy_from (option_copied directory.entry))) }
    {
        if let Some(copy) = origin.copy {
            return begun(alloc, copy.id, self.number, node);
        }
        match (origin.predecessor, directory) {
            (Some(before), Some(above))
                if above.place.revision > before.placed.copyroot().revision => {
                copy_of(above.id, &above.place)
            }
            (Some(before), _) => copy_of(before.placed.id().copy, before.placed.copyroot()),
            (None, Some(above)) => copy_of(above.id, &above.place),
            (None, None) => begun(alloc, FIRST_COPY, self.number, node),
        }
    }

    /// Says of each node revision of this revision which copy it is of, the root first and then in falling
    /// order.
    pub fn copy_roots(
        self,
        alloc: Global,
        origins: &[Origin<'_>],
    ) -> Result<Vec<CopyRoot>, AllocError>
        ensures { IfOk result (λ roots. reverse (map copy_from roots.items)
            ≡ copies_of self.entry 0 (nodes_of self.entry) (map comes_of origins.now)) }
    {
        let mut way = Way::new(alloc);
        let mut roots = Vec::with_capacity(alloc, origins.len())?;
        for place in (0..origins.len()).rev() {
            let Some(node) = self.node_here(place as u64) else {
                return Err(AllocError);
            };
            let directory = self.directory(node, &mut way)?;
            let root = {
                let above = above(origins.len(), directory, roots.as_slice());
                self.copy_root(alloc, node, &origins[place], above)?
            };
            roots.push(root)?;
        }
        Ok(roots)
    }
}

/// The copy id of what was never copied.
const FIRST_COPY: IdPart = IdPart {
    number: 0,
    revision: None,
};

/// Finds what is known of a directory, among what is known in falling order of so many.
fn above(count: usize, directory: Option<usize>, roots: &[CopyRoot]) -> Option<&CopyRoot>
    requires { length roots.now ≤ count }
    ensures { option_map copy_from (option_copied result) ≡ option_and_then
        (known_from (count - length roots.now) (reverse (map copy_from roots.now))) directory }
{
    roots.get(count.checked_sub(directory?)?.checked_sub(1)?)
}

/// Gives the copy that begins with a node revision.
fn begun(alloc: Global, id: IdPart, revision: u32, node: &NodeRev) -> Result<CopyRoot, AllocError>
    ensures { IfOk result (λ root. copy_from root ≡ begins revision id node.now) }
{
    let path = text_of(alloc, &node.path)?;
    Ok(CopyRoot {
        id,
        place: Place { revision, path },
    })
}

/// Gives the copy of this id that begins at this place.
fn copy_of(id: IdPart, place: &Place) -> Result<CopyRoot, AllocError>
    ensures { IfOk result (λ root. copy_from root ≡ record { id = id; place = place.now }) }
{
    let path = place.path.clone()?;
    Ok(CopyRoot {
        id,
        place: Place {
            revision: place.revision,
            path,
        },
    })
}
