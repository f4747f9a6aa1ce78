//! The names by which two directories differ.
ghost use Rattle.std.specs.{Prelude.{◌≡◌, ◌++◌, ◌⊎◌, map, IfOk, IfSome, OnOk}, List.Contains, Map.keys_of, Map.Iter.deref};
ghost use Rattle.svnpath.specs.Paths.{Component};
ghost use Rattle.noderevs.specs.{Held.node_at, Nodes.{kid_at, kid_named}};

use crate::node_rev::NodeId;
use crate::nodes::Nodes;
use byte_string::ByteString;
use shared_map::SharedMap;
use std::alloc::{AllocError, Global};

/// Appends the names of entries.
fn append_names<'a>(
    names: &mut Vec<&'a ByteString>,
    entries: &[&'a (ByteString, NodeId)],
) -> Result<(), AllocError>
    ensures { OnOk result (map deref names.new.items
        ≡ map deref names.old.items ++ keys_of (map deref entries.now)) }
{
    for entry in entries {
        names.push(&entry.0)?;
    }
    Ok(())
}

/// Gives the names by which two lists of entries differ. One by which both have an entry is there twice.
fn names_apart<'a>(
    alloc: Global,
    kids: &'a SharedMap<NodeId>,
    others: &'a SharedMap<NodeId>,
) -> Result<Vec<&'a ByteString>, AllocError>
    ensures { IfOk result (λ names. (name : Component) → Contains (map deref names.items) name
        ⊎ (kid_named kids.now name ≡ kid_named others.now name)) }
{
    let mut names = Vec::new(alloc);
    let gone = kids.unlike(alloc, others)?;
    append_names(&mut names, &gone)?;
    let come = others.unlike(alloc, kids)?;
    append_names(&mut names, &come)?;
    Ok(names)
}

impl Nodes {
    /// Gives names among which are all by which the entries of two nodes differ, `None` where one of the nodes is none.
    pub fn differing_names(
        &self,
        alloc: Global,
        one: Option<NodeId>,
        other: Option<NodeId>,
    ) -> Result<Option<Vec<&ByteString>>, AllocError>
        ensures { IfOk result (λ found. IfSome found (λ names. (name : Component)
            → Contains (map deref names.items) name
            ⊎ (kid_at (node_at self.now) one name ≡ kid_at (node_at self.now) other name))) }
    {
        let (Some(node), Some(beside)) = (self.held(one), self.held(other)) else {
            return Ok(None);
        };
        let names = names_apart(alloc, &node.kids, &beside.kids)?;
        Ok(Some(names))
    }
}
