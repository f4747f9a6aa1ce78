//! The edits of a transaction's tree.
ghost use Rattle.std.specs.{Prelude.{◌≡◌, [], IfOk, None, ◌⊎◌}, Arc.arc_value};
ghost use Rattle.repo_api.specs.Edits.{deleted, grafted, revised, with_text, with_value, without_value};
ghost use Rattle.txntree.specs.{Bases.{IsBased, IsNew, KeepsBased}, Edits.{Applies, Edits, IfMissing}, Laws.leaf, Walks.{Lacks, LacksParent}};
ghost use Rattle.txntree.specs.{Spots.{change_spot, change_tree, flat, open_tree}, Spots.Spot.{Shared, Opened}};
ghost use Rattle.noderevs.specs.Held.{node_at};

use crate::open::{Change, EditFault, Local, OpenNode};
use byte_string::ByteString;
use noderevs::{NodeId, Nodes};
use repo_api::{Content, FileText, Mark};
use std::alloc::{AllocError, Global};
use std::sync::Arc;
use svnpath::Path;

impl OpenNode {
    /// Puts a new entry at a path, with nothing beneath it.
    pub fn add(
        &mut self,
        alloc: Global,
        nodes: &Nodes,
        path: &Path,
        content: Content,
    ) -> Result<(), EditFault>
        ensures edit { Edits result nodes.now self.old self.new
            (λ t. grafted t path.now (leaf content)) }
        ensures missing { IfMissing result (LacksParent path.now (open_tree nodes.now self.old)) }
    {
        let node = OpenNode::fresh(alloc, content)?;
        self.put(alloc, nodes, path.components(), Change::Is(node))
    }

    /// Takes out what stands at a path and beneath it.
    pub fn delete(&mut self, alloc: Global, nodes: &Nodes, path: &Path) -> Result<(), EditFault>
        ensures edit { Edits result nodes.now self.old self.new (λ t. deleted t path.now) }
        ensures missing { IfMissing result (LacksParent path.now (open_tree nodes.now self.old)) }
    {
        self.put(alloc, nodes, path.components(), Change::Gone)
    }

    /// Makes this the text of the file at a path.
    pub fn set_text(
        &mut self,
        alloc: Global,
        nodes: &Nodes,
        path: &Path,
        text: FileText,
    ) -> Result<(), EditFault>
        ensures edit { Edits result nodes.now self.old self.new
            (λ t. revised t path.now (with_text text)) }
        ensures missing { IfMissing result (Lacks path.now (open_tree nodes.now self.old)) }
    {
        let content = shared(alloc, Content::File(text))?;
        self.at(alloc, nodes, path.components(), Local::Content(content))
    }

    /// Gives the entry at a path this value of a property.
    pub fn set_property(
        &mut self,
        alloc: Global,
        nodes: &Nodes,
        path: &Path,
        name: ByteString,
        value: ByteString,
    ) -> Result<(), EditFault>
        ensures edit { Edits result nodes.now self.old self.new
            (λ t. revised t path.now (with_value name value)) }
        ensures missing { IfMissing result (Lacks path.now (open_tree nodes.now self.old)) }
    {
        self.at(
            alloc,
            nodes,
            path.components(),
            Local::SetProperty(name, value),
        )
    }

    /// Takes a property from the entry at a path.
    pub fn remove_property(
        &mut self,
        alloc: Global,
        nodes: &Nodes,
        path: &Path,
        name: ByteString,
    ) -> Result<(), EditFault>
        ensures edit { Edits result nodes.now self.old self.new
            (λ t. revised t path.now (without_value name)) }
        ensures missing { IfMissing result (Lacks path.now (open_tree nodes.now self.old)) }
    {
        self.at(alloc, nodes, path.components(), Local::RemoveProperty(name))
    }

    /// Copies a shared node, with what is beneath it, to a path. The copy's own two marks are open.
    pub fn copy(
        &mut self,
        alloc: Global,
        nodes: &Nodes,
        source: NodeId,
        path: &Path,
    ) -> Result<(), EditFault>
        ensures edit { Edits result nodes.now self.old self.new
            (λ t. grafted t path.now
            (revised (flat (node_at nodes.now) (Shared source)) [] (λ e. e))) }
        ensures missing { IfMissing result ((node_at nodes.now source ≡ None)
            ⊎ LacksParent path.now (open_tree nodes.now self.old)) }
    {
        let mut node = OpenNode::over(alloc, nodes, source)?;
        node.own = Mark::Open;
        self.put(alloc, nodes, path.components(), Change::Is(node))
    }

    /// Puts a node, or nothing, at a path beneath this one.
    fn put(
        &mut self,
        alloc: Global,
        nodes: &Nodes,
        path: &[ByteString],
        change: Change,
    ) -> Result<(), EditFault>
        ensures tree { Applies result (open_tree nodes.now) self.old self.new
            (λ t. grafted t path.now (change_tree nodes.now change)) }
        ensures based { IsBased (node_at nodes.now) (change_spot change)
            → IsNew (change_spot change)
            → KeepsBased (node_at nodes.now) (Opened self.old) (Opened self.new) }
        ensures base { self.new.base ≡ self.old.base }
        ensures missing { IfMissing result (LacksParent path.now (open_tree nodes.now self.old)) }
    {
        let Some((name, above)) = path.split_last() else {
            return Err(EditFault::Missing);
        };
        self.at(alloc, nodes, above, Local::Entry(name.clone()?, change))
    }
}

/// Puts what a node holds behind a count, so that it can be shared.
fn shared(alloc: Global, content: Content) -> Result<Arc<Content>, AllocError>
    ensures { IfOk result (λ c. arc_value c ≡ content) }
{
    Ok(Arc::new(alloc, content)?)
}
