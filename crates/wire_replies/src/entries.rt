//! What is known of files and directories, as items.
ghost use Rattle.std.specs.Prelude.{◌≡◌, ◌++◌, ◌∷◌, [], ℕ, List, IfOk, codes, map};
ghost use Rattle.items.specs.{Print.printed, Values.{list, number}, View.{row_of, value_of}};
ghost use Rattle.wire_replies.specs.Replies.{directory_info, entry_tree, entry_trees, file_info, node_trees, stat_trees};
ghost use Rattle.wire_replies.specs.{Parts.{directory_end, directory_head, file_head}, Sinks.{Says, Writes}, declared.entries.NodeInfo.NodeInfo};

use crate::build::{
    boolean_item, kind_name, list_item, number_item, optional_string_item, string_item,
    success_row, with_made, word_item,
};
use crate::properties::{properties_item, say_property_list};
use crate::reply::Reply;
use crate::saying::say_item;
use crate::sink::ReplySink;
use byte_string::{ByteString, Sequence};
use items::Item;
use repo_api::{NodeKind, Properties};
use std::alloc::{AllocError, Global};
use std::mem::drop;

/// What is known of a file or a directory.
#[derive(Drop)]
pub struct NodeInfo {
    pub kind: NodeKind,
    /// How many bytes the text of a file has, 0 for a directory.
    pub size: u64,
    pub has_properties: bool,
    /// The revision that last changed it.
    pub created: u64,
    /// The date of that revision, if it has one.
    pub date: Option<ByteString>,
    /// The author of that revision, if it has one.
    pub author: Option<ByteString>,
}

/// What is told of a file.
#[derive(Drop)]
pub struct FileInfo {
    /// The MD5 of its text, as hexadecimal digits, if it is told.
    pub digest: Option<ByteString>,
    pub revision: u64,
    pub properties: Properties,
}

/// What is told of a directory.
#[derive(Drop)]
pub struct DirectoryInfo {
    pub revision: u64,
    pub properties: Properties,
    pub entries: EntryList,
}

/// Names, each with what is known of the entry.
pub type EntryList = Sequence<(ByteString, NodeInfo)>;

/// Makes `( success ( [ md5 ] rev ( property ... ) ) )`.
pub(crate) fn file_info_item(alloc: Global, info: &FileInfo) -> Result<Item, AllocError>
    ensures { IfOk result (λ item. value_of item ≡ file_info info.now) }
{
    let items = with_made(Vec::new(alloc), optional_string_item(alloc, &info.digest))?;
    let items = with_made(items, Ok(number_item(info.revision)))?;
    let items = with_made(items, properties_item(alloc, &info.properties))?;
    success_row(alloc, items)
}

/// Makes `( success ( rev ( property ... ) ( entry ... ) ) )`.
pub(crate) fn directory_info_item(alloc: Global, info: &DirectoryInfo) -> Result<Item, AllocError>
    ensures { IfOk result (λ item. value_of item ≡ directory_info info.now) }
{
    let items = with_made(Vec::new(alloc), Ok(number_item(info.revision)))?;
    let items = with_made(items, properties_item(alloc, &info.properties))?;
    let items = with_made(items, entries_item(alloc, &info.entries))?;
    success_row(alloc, items)
}

/// Makes `( entry ... )`.
fn entries_item(alloc: Global, entries: &EntryList) -> Result<Item, AllocError>
    ensures { IfOk result (λ item. value_of item ≡ list (entry_trees entries.now)) }
{
    let mut items = Vec::new(alloc);
    for (name, node) in entries.as_slice() {
        items = with_made(items, entry_item(alloc, name.as_slice(), node))?;
    }
    Ok(Item::List(items))
}

/// Makes `( name kind size has-props created-rev [ date ] [ author ] )`.
fn entry_item(alloc: Global, name: &[u8], node: &NodeInfo) -> Result<Item, AllocError>
    ensures { IfOk result (λ item. value_of item ≡ entry_tree name.now node.now) }
{
    let items = with_made(Vec::new(alloc), string_item(alloc, name))?;
    let items = with_node(alloc, items, node)?;
    Ok(Item::List(items))
}

/// Makes `[ ( kind size has-props created-rev [ date ] [ author ] ) ]`.
pub(crate) fn stat_item(alloc: Global, node: &Option<NodeInfo>) -> Result<Item, AllocError>
    ensures { IfOk result (λ item. value_of item ≡ list (stat_trees node.now)) }
{
    match node {
        Some(node) => list_item(alloc, [node_item(alloc, node)?]),
        None => list_item(alloc, []),
    }
}

/// Makes `( kind size has-props created-rev [ date ] [ author ] )`.
fn node_item(alloc: Global, node: &NodeInfo) -> Result<Item, AllocError>
    ensures { IfOk result (λ item. value_of item ≡ list (row_of (node_trees node.now))) }
{
    Ok(Item::List(with_node(alloc, Vec::new(alloc), node)?))
}

/// Gives the items, and after them `kind size has-props created-rev [ date ] [ author ]`.
fn with_node(alloc: Global, items: Vec<Item>, node: &NodeInfo) -> Result<Vec<Item>, AllocError>
    ensures { IfOk result (λ longer. map value_of longer.items
        ≡ map value_of items.items ++ node_trees node.now) }
{
    let items = with_made(items, word_item(alloc, kind_name(node.kind)))?;
    let items = with_made(items, Ok(number_item(node.size)))?;
    let items = with_made(items, boolean_item(alloc, node.has_properties))?;
    let items = with_made(items, Ok(number_item(node.created)))?;
    let items = with_made(items, optional_string_item(alloc, &node.date))?;
    with_made(items, optional_string_item(alloc, &node.author))
}

/// Writes the reply that contains this file without its text, one property after another.
pub fn say_file_info<S: ReplySink>(
    alloc: Global,
    info: &FileInfo,
    out: &mut S,
) -> Result<(), AllocError>
    ensures { Says result (S.writes out.old out.new) (Reply.FileInfo info.now ∷ []) }
{
    say_file_head(alloc, &info.digest, info.revision, out)?;
    say_property_list(alloc, &info.properties, out)?;
    out.write_part(b") ) ")
}

/// Writes what comes before the properties in the reply that contains a file.
fn say_file_head<S: ReplySink>(
    alloc: Global,
    digest: &Option<ByteString>,
    revision: u64,
    out: &mut S,
) -> Result<(), AllocError>
    ensures { Writes result (S.writes out.old out.new) (file_head digest.now revision) }
{
    out.write_part(b"( success ( ")?;
    say_item(alloc, optional_string_item(alloc, digest), out)?;
    say_item(alloc, Ok(number_item(revision)), out)
}

/// Writes what comes before the entries in the reply that contains a directory, one property after another.
pub fn say_directory_head<S: ReplySink>(
    alloc: Global,
    revision: u64,
    properties: &Properties,
    out: &mut S,
) -> Result<(), AllocError>
    ensures { Writes result (S.writes out.old out.new) (directory_head revision properties.now) }
{
    say_revision_first(alloc, revision, out)?;
    say_property_list(alloc, properties, out)?;
    out.write_part(b"( ")
}

/// Writes how the reply that contains a directory begins, up to its revision.
fn say_revision_first<S: ReplySink>(
    alloc: Global,
    revision: u64,
    out: &mut S,
) -> Result<(), AllocError>
    ensures { Writes result (S.writes out.old out.new)
        (codes "( success ( " ++ printed (number revision)) }
{
    out.write_part(b"( success ( ")?;
    say_item(alloc, Ok(number_item(revision)), out)
}

/// Writes an entry of a directory, with its name, if it could be made. If not, nothing is written.
pub fn say_entry<S: ReplySink>(
    alloc: Global,
    made: Result<(ByteString, NodeInfo), AllocError>,
    out: &mut S,
) -> Result<(), AllocError>
    ensures { (entry : List ℕ × NodeInfo) → IfOk made (λ told. told ≡ entry)
        → Writes result (S.writes out.old out.new) (printed (entry_tree entry.0 entry.1)) }
{
    match made {
        Ok((name, node)) => {
            let said = say_item(alloc, entry_item(alloc, name.as_slice(), &node), out);
            drop(name);
            drop(node);
            said
        }
        Err(error) => Err(error),
    }
}

/// Writes what comes after the entries in the reply that contains a directory.
pub fn say_directory_end<S: ReplySink>(out: &mut S) -> Result<(), AllocError>
    ensures { Writes result (S.writes out.old out.new) directory_end }
{
    out.write_part(b") ) ) ")
}
