//! The edits of a transaction's tree. An edit that lacks memory changes nothing.
ghost use Rattle.repo_api.specs.{Edits.copied, States.trees_in};
ghost use Rattle.flat_trees.specs.Changing.{Applies};
ghost use Rattle.flat_commits.specs.Contents.{revisions_of};
ghost use Rattle.flatrepo.specs.Edits.{EditsTree};

use flat_commits::FlatContent;
use flat_trees::FlatTree;
use repo_api::{Content, EditOp, FileText, Source};
use std::alloc::{AllocError, Global};
use svnpath::Path;

/// Makes the edit in the tree, over the trees of the revisions.
pub(crate) fn edit_tree(
    alloc: Global,
    content: &FlatContent,
    tree: &mut FlatTree,
    op: &EditOp,
) -> Result<(), AllocError>
    ensures { EditsTree result content.now tree.old op.now tree.new }
{
    match op {
        EditOp::AddDirectory(path) => tree.add(alloc, path, Content::Directory),
        EditOp::AddFile(path) => tree.add(alloc, path, Content::File(FileText::empty())),
        EditOp::Copy(source, path) => copy(alloc, content, tree, source, path),
        EditOp::Replace(source, path) => copy(alloc, content, tree, source, path),
        EditOp::Delete(path) => {
            tree.delete(path);
            Ok(())
        }
        EditOp::SetProperty(path, name, value) => {
            let value = value.clone()?;
            tree.change_property(alloc, path, name.clone()?, Some(value))
        }
        EditOp::RemoveProperty(path, name) => {
            tree.change_property(alloc, path, name.clone()?, None)
        }
        EditOp::SetText(path, text) => tree.set_text(path, text),
    }
}

/// Puts a copy of the source at the path, in the place of what stands there.
fn copy(
    alloc: Global,
    content: &FlatContent,
    tree: &mut FlatTree,
    source: &Source,
    path: &Path,
) -> Result<(), AllocError>
    ensures { Applies result tree.old tree.new (λ t. copied
        (trees_in (revisions_of content.now) source.now.revision) source.now.path t path.now) }
{
    *tree = tree.with_copy(alloc, content.tree(source.revision), &source.path, path)?;
    Ok(())
}
