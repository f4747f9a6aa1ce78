//! The nodes that a transaction has changed.
ghost use Rattle.std.specs.{Prelude.{◌≡◌, IfOk, OnOk, OnErr, Some, None, true, false, [], ◌⊎◌, if◌then◌else◌}, Arc.arc_value};
ghost use Rattle.svnpath.specs.Paths.{Component, PathValue, same_component};
ghost use Rattle.repo_api.specs.{Edits.begun, Properties.{with_property, without_property}, Trees.is_open_mark};
ghost use Rattle.noderevs.specs.{Held.node_at, Nodes.Look};
ghost use Rattle.txntree.specs.{Spots.{changed_at, change_spot, change_tree, flat, open_tree}, Bases.{IsBased, IsBasedLocal, IsRootKept, KeepsBased}};
ghost use Rattle.txntree.specs.{Edits.{Applies, IfMissing}, Laws.leaf, Walks.{at_path, made_there, Lacks}, Spots.Spot.{Shared, Opened}};

use byte_string::ByteString;
use noderevs::{NodeId, Nodes};
use repo_api::{Content, Mark, Properties};
use std::alloc::{AllocError, Global};
use std::collections::BTreeMap;
use std::sync::Arc;

/// Why an edit was not made.
#[derive(Clone, Copy, Debug, PartialEq, Eq)]
pub enum EditFault {
    /// A directory on the way is not there.
    Missing,
    NoMemory,
}

impl From<AllocError> for EditFault {
    ghost use Rattle.std.specs.Prelude.{◌≡◌};
    ghost use Rattle.txntree.specs.declared.open.EditFault.TheVariants.{NoMemory};

    ghost from_gives = { λ _ fault. fault ≡ NoMemory };

    fn from(_error: AllocError) -> Self {
        EditFault::NoMemory
    }
}

/// A node that a transaction has changed, at or under it. Its entries are those of `base`, but for
/// the changed ones.
#[derive(Drop)]
#[cycle(open)]
pub struct OpenNode {
    pub own: Mark,
    pub content: Arc<Content>,
    pub properties: Arc<Properties>,
    pub base: Option<NodeId>,
    pub changed: BTreeMap<ByteString, Change>,
}

/// What became of an entry of a directory.
#[derive(Drop)]
#[cycle(open)]
pub enum Change {
    Gone,
    Is(OpenNode),
}

/// A change at one node: of an entry, or of a part of its own.
#[derive(Drop)]
pub enum Local {
    Entry(ByteString, Change),
    Content(Arc<Content>),
    SetProperty(ByteString, ByteString),
    RemoveProperty(ByteString),
}

impl OpenNode {
    /// Makes a new node, with nothing beneath it.
    pub fn fresh(alloc: Global, content: Content) -> Result<Self, AllocError>
        ensures ok { IfOk result (λ n. (look : Look) (q : PathValue) → flat look (Opened n) q
            ≡ leaf content q) }
        ensures based { IfOk result (λ n. (look : Look) → IsBased look (Opened n)) }
        ensures own { IfOk result (λ n. is_open_mark n.own ≡ true) }
    {
        Ok(OpenNode {
            own: Mark::Open,
            content: Arc::new(alloc, content)?,
            properties: Arc::new(alloc, Properties::new(alloc))?,
            base: None,
            changed: BTreeMap::new(alloc),
        })
    }

    /// Takes the shared node as a transaction's own, which is changed beneath.
    pub fn over(alloc: Global, nodes: &Nodes, id: NodeId) -> Result<Self, EditFault>
        ensures missing { IfMissing result (node_at nodes.now id ≡ None) }
        ensures ok { IfOk result (λ n. (q : PathValue) → open_tree nodes.now n q
            ≡ begun (flat (node_at nodes.now) (Shared id)) q) }
        ensures based { IfOk result (λ n. IsBased (node_at nodes.now) (Opened n)) }
        ensures base { IfOk result (λ n. n.base ≡ Some id) }
    {
        let Some(node) = nodes.node(id) else {
            return Err(EditFault::Missing);
        };
        Ok(OpenNode {
            own: Mark::Made(node.own.rev, node.own.path.clone()?),
            content: Arc::try_clone(&node.content)?,
            properties: Arc::try_clone(&node.properties)?,
            base: Some(id),
            changed: BTreeMap::new(alloc),
        })
    }

    /// Makes a change at the node of a path. Without memory, or where a node on the way is missing,
    /// nothing changes.
    #[cycle(walk)]
    pub fn at(
        &mut self,
        alloc: Global,
        nodes: &Nodes,
        path: &[ByteString],
        local: Local,
    ) -> Result<(), EditFault>
        ensures tree { Applies result (open_tree nodes.now) self.old self.new
            (at_path path.now (made_there (node_at nodes.now) local)) }
        ensures missing { IfMissing result (Lacks path.now (open_tree nodes.now self.old)) }
        ensures based { IsBasedLocal (node_at nodes.now) local
            → KeepsBased (node_at nodes.now) (Opened self.old) (Opened self.new) }
        ensures base { self.new.base ≡ self.old.base }
        ensures own { is_open_mark self.new.own ≡ false → is_open_mark self.old.own ≡ false }
    {
        let Some((name, rest)) = path.split_first() else {
            self.make(local)?;
            return Ok(());
        };
        if let Some(change) = self.changed.get_mut(name) {
            return change.at(alloc, nodes, rest, local);
        }
        let Some(id) = nodes.kid(self.base, name) else {
            return Err(EditFault::Missing);
        };
        let mut node = OpenNode::over(alloc, nodes, id)?;
        node.at(alloc, nodes, rest, local)?;
        put_change(&mut self.changed, name.clone()?, Change::Is(node))?;
        Ok(())
    }

    /// Makes a change at this node.
    fn make(&mut self, local: Local) -> Result<(), AllocError>
        ensures tree { (look : Look) → Applies result (λ n. flat look (Opened n)) self.old self.new
            (made_there look local) }
        ensures based { (look : Look) → IsBasedLocal look local
            → KeepsBased look (Opened self.old) (Opened self.new) }
        ensures base { self.new.base ≡ self.old.base }
        ensures own { is_open_mark self.new.own ≡ false → is_open_mark self.old.own ≡ false }
    {
        match local {
            Local::Entry(name, change) => put_change(&mut self.changed, name, change)?,
            Local::Content(content) => {
                self.content = content;
                self.own = Mark::Open;
            }
            Local::SetProperty(name, value) => {
                set_one(&mut self.properties, name, value)?;
                self.own = Mark::Open;
            }
            Local::RemoveProperty(name) => {
                remove_one(&mut self.properties, &name)?;
                self.own = Mark::Open;
            }
        }
        Ok(())
    }
}

impl Change {
    /// Makes a change at the node of a path.
    #[cycle(walk)]
    fn at(
        &mut self,
        alloc: Global,
        nodes: &Nodes,
        path: &[ByteString],
        local: Local,
    ) -> Result<(), EditFault>
        ensures tree { Applies result (change_tree nodes.now) self.old self.new
            (at_path path.now (made_there (node_at nodes.now) local)) }
        ensures missing { IfMissing result ((change_tree nodes.now self.old [] ≡ None)
            ⊎ Lacks path.now (change_tree nodes.now self.old)) }
        ensures based { IsBasedLocal (node_at nodes.now) local
            → KeepsBased (node_at nodes.now) (change_spot self.old) (change_spot self.new) }
        ensures root { IsRootKept (change_spot self.old) (change_spot self.new) }
    {
        match self {
            Change::Gone => Err(EditFault::Missing),
            Change::Is(node) => node.at(alloc, nodes, path, local),
        }
    }
}

/// Sets a property. Properties that a shared node has too are copied first, so the node keeps its own.
fn set_one(
    properties: &mut Arc<Properties>,
    name: ByteString,
    value: ByteString,
) -> Result<(), AllocError>
    ensures ok { OnOk result (arc_value properties.new
        ≡ with_property (arc_value properties.old) name value) }
    ensures err { OnErr result (arc_value properties.new ≡ arc_value properties.old) }
{
    let own = Arc::make_mut(properties)?;
    own.set(name, value)
}

/// Takes a property out. Properties that a shared node has too are copied first, so the node keeps its own.
fn remove_one(properties: &mut Arc<Properties>, name: &ByteString) -> Result<(), AllocError>
    ensures ok { OnOk result (arc_value properties.new
        ≡ without_property (arc_value properties.old) name.now) }
    ensures err { OnErr result (arc_value properties.new ≡ arc_value properties.old) }
{
    let own = Arc::make_mut(properties)?;
    own.remove(name);
    Ok(())
}

/// Puts the change of this name, over an earlier one.
pub fn put_change(
    changed: &mut BTreeMap<ByteString, Change>,
    name: ByteString,
    change: Change,
) -> Result<(), AllocError>
    ensures ok { OnOk result ((n : Component) → changed_at changed.new n
        ≡ (if same_component name n then Some change else changed_at changed.old n)) }
    ensures err { OnErr result ((n : Component) → changed_at changed.new n
        ≡ changed_at changed.old n) }
{
    changed.insert(name, change)?;
    Ok(())
}
