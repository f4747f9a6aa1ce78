//! A failure of several links, as items.
ghost use Rattle.std.specs.Prelude.{◌≡◌, IfOk};
ghost use Rattle.items.specs.{Values.list, View.value_of};
ghost use Rattle.wire_replies.specs.Replies.{failure, link_item, link_items};

use crate::build::{list_item, number_item, string_item, with_made, word_item};
use byte_string::{ByteString, Sequence};
use items::Item;
use std::alloc::{AllocError, Global};

/// A link of a failure: a number of Subversion's, a message, and the file and the line of the program that failed.
pub struct FailureLink {
    pub number: u64,
    pub message: ByteString,
    pub file: ByteString,
    pub line: u64,
}

impl Drop for FailureLink {
    fn drop(self) {
        let FailureLink {
            number: _,
            message: _,
            file: _,
            line: _,
        } = self;
    }
}

/// The links of a failure in their order.
pub type FailureLinks = Sequence<FailureLink>;

/// Makes `( failure ( link ... ) )`.
pub(crate) fn failures_item(alloc: Global, links: &FailureLinks) -> Result<Item, AllocError>
    ensures { IfOk result (λ item. value_of item ≡ failure (link_items links.now)) }
{
    let word = word_item(alloc, b"failure")?;
    let links = links_item(alloc, links)?;
    list_item(alloc, [word, links])
}

/// Makes `( link ... )`.
fn links_item(alloc: Global, links: &FailureLinks) -> Result<Item, AllocError>
    ensures { IfOk result (λ item. value_of item ≡ list (link_items links.now)) }
{
    let mut items = Vec::new(alloc);
    for link in links.as_slice() {
        items = with_made(items, link_item(alloc, link))?;
    }
    Ok(Item::List(items))
}

/// Makes `( number message file line )`.
fn link_item(alloc: Global, link: &FailureLink) -> Result<Item, AllocError>
    ensures { IfOk result (λ item. value_of item ≡ link_item link.now) }
{
    let message = string_item(alloc, link.message.as_slice())?;
    let file = string_item(alloc, link.file.as_slice())?;
    list_item(
        alloc,
        [
            number_item(link.number),
            message,
            file,
            number_item(link.line),
        ],
    )
}
