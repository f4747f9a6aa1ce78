//! What the own last change of a node left, compared with the node.
ghost use Rattle.std.specs.{Prelude.{◌≡◌, true, map, IfOk, option_copied, option_map, Decides}, Arc.arc_value, Map.Iter.deref_pair};
ghost use Rattle.repo_api.specs.Marks.{shown};
ghost use Rattle.block_rules.specs.Rules.{NamesOwn, past_of, shown_by, tree_before};

use crate::kids::is_same_path;
use crate::next_block::NextBlock;
use byte_string::ByteString;
use noderevs::NodeRev;
use repo_api::{Content, Properties};
use std::alloc::{AllocError, Global};

/// Lists names and values.
fn rows_of(
    alloc: Global,
    properties: &Properties,
) -> Result<Vec<(&ByteString, &ByteString)>, AllocError>
    ensures { IfOk result (λ rows. map deref_pair rows.items ≡ properties.now) }
{
    Ok(properties.iter().collect::<Vec<_>>(alloc)?)
}

/// Says whether a name and a value are the same.
#[tactic(auto, using(svnpath::specs::PathLaws::same_component_is))]
fn is_same_row(row: (&ByteString, &ByteString), other: (&ByteString, &ByteString)) -> bool
    ensures { Decides result (deref_pair row.entry ≡ deref_pair other.entry) }
{
    row.0 == other.0 && row.1 == other.1
}

/// Says whether names and values are the same, in the same order.
fn are_same_rows(rows: &[(&ByteString, &ByteString)], others: &[(&ByteString, &ByteString)]) -> bool
    ensures { Decides result (map deref_pair rows.now ≡ map deref_pair others.now) }
{
    if rows.len() != others.len() {
        return false;
    }
    for k in 0..rows.len() {
        if !is_same_row(rows[k], others[k]) {
            return false;
        }
    }
    true
}

/// Says whether properties are the same.
pub fn are_same_properties(
    alloc: Global,
    properties: &Properties,
    others: &Properties,
) -> Result<bool, AllocError>
    ensures { IfOk result (λ answer. Decides answer (properties.now ≡ others.now)) }
{
    let rows = rows_of(alloc, properties)?;
    let other_rows = rows_of(alloc, others)?;
    Ok(are_same_rows(rows.as_slice(), other_rows.as_slice()))
}

/// Says whether both are directories, or files of the same text.
pub fn is_same_content(content: &Content, other: &Content) -> bool
    ensures { Decides result (content.now ≡ other.now) }
{
    match (content, other) {
        (Content::Directory, Content::Directory) => true,
        (Content::File(text), Content::File(other)) => text.as_slice() == other.as_slice(),
        _ => false,
    }
}

/// Says whether a node has the content and the properties of another.
fn is_alike(alloc: Global, node: &NodeRev, other: &NodeRev) -> Result<bool, AllocError>
    ensures { IfOk result (λ answer. Decides answer ((arc_value other.now.content ≡ arc_value
        node.now.content) × (arc_value other.now.properties ≡ arc_value node.now.properties))) }
{
    if !is_same_content(&other.content, &node.content) {
        return Ok(false);
    }
    are_same_properties(alloc, &other.properties, &node.properties)
}

impl<'a> NextBlock<'a> {
    /// Finds the node at the place of the own last change of a node, among those before.
    fn at_own(self, node: &NodeRev) -> Option<&'a NodeRev>
        ensures { option_map shown_by (option_copied result)
            ≡ shown (tree_before (past_of self.entry.nodes.now) node.now.own.rev
            node.now.own.path) }
    {
        let root = self.nodes.root(node.own.rev as u64);
        self.nodes
            .held(self.nodes.find_in(root, node.own.path.components()))
    }

    /// Says whether the own last change of a node was made here, or else left what the node has.
    pub(crate) fn names_own(self, alloc: Global, node: &NodeRev) -> Result<bool, AllocError>
        ensures { IfOk result (λ answer. Decides answer (NamesOwn
            (past_of self.entry.nodes.now) node.now)) }
    {
        if node.own.rev as usize == self.nodes.count() {
            return Ok(is_same_path(&node.own.path, &node.path));
        }
        match self.at_own(node) {
            Some(before) => is_alike(alloc, node, before),
            None => Ok(false),
        }
    }
}
