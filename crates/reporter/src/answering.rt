//! The client's answer to a drive.
ghost use Rattle.std.specs.Prelude.{◌≡◌, IfOk, option_map};
ghost use Rattle.items.specs.View.{value_of, values_of};
ghost use Rattle.wire_forms.specs.Answering.{Reads};
ghost use Rattle.reporter.specs.Reporting.{client_answer, failure_link, failure_links, reason};

use byte_string::{ByteString, Sequence};
use items::Item;
use std::alloc::{AllocError, Global};
use wire_forms::CommandFault::{self, BadParameters};
use wire_forms::{read_form, read_items, read_number, read_string};
use wire_replies::{FailureLink, FailureLinks};

/// What a client answers after a drive.
#[derive(Drop)]
pub enum ClientAnswer {
    /// The drive was taken.
    Taken,
    /// The drive is given up, for this reason: no links where the client gives none, or a list of another form.
    GivenUp(FailureLinks),
}

impl ClientAnswer {
    /// Reads the answer that an item is: `( success ( ... ) )` or `( failure ( link ... ) )`.
    pub fn from_item(alloc: Global, item: &Item) -> Result<ClientAnswer, CommandFault>
        ensures { Reads result (client_answer (value_of item.now)) }
    {
        let (name, params) = read_form(item).ok_or(BadParameters)?;
        if name == b"success".as_slice() {
            Ok(ClientAnswer::Taken)
        } else if name == b"failure".as_slice() {
            Ok(ClientAnswer::GivenUp(read_reason(alloc, params)?))
        } else {
            Err(BadParameters)
        }
    }
}

/// Reads the links of a failure; where an item is of another form there are none.
fn read_reason(alloc: Global, items: &[Item]) -> Result<FailureLinks, AllocError>
    ensures { IfOk result (λ links. links ≡ reason (values_of items.now)) }
{
    match read_links(alloc, items) {
        Ok(links) => Ok(links),
        Err(CommandFault::NoMemory) => Err(AllocError),
        Err(_) => Ok(Sequence::new(alloc)),
    }
}

/// Reads `( number message file line ) ...`.
fn read_links(alloc: Global, items: &[Item]) -> Result<FailureLinks, CommandFault>
    ensures { Reads result (failure_links (values_of items.now)) }
{
    let mut links = Sequence::new(alloc);
    for item in items {
        let (number, message, file, line) = read_link(item).ok_or(BadParameters)?;
        links.push(FailureLink {
            number,
            message: message.clone()?,
            file: file.clone()?,
            line,
        })?;
    }
    Ok(links)
}

/// Reads `( number message file line )`.
fn read_link(item: &Item) -> Option<(u64, &ByteString, &ByteString, u64)>
    ensures { option_map (λ l. record {
      number = l.0;
      message = l.1.now;
      file = l.2.now;
      line = l.3;
    }) result ≡ failure_link (value_of item.now) }
{
    let (number, rest) = read_number(read_items(item)?)?;
    let (message, rest) = read_string(rest)?;
    let (file, rest) = read_string(rest)?;
    let (line, _) = read_number(rest)?;
    Some((number, message, file, line))
}
