//! Properties, as items.
ghost use Rattle.std.specs.Prelude.{◌≡◌, ◌∷◌, [], IfOk};
ghost use Rattle.items.specs.{Print.{printed, row_printed}, Values.{both, list, string}, View.value_of};
ghost use Rattle.wire_replies.specs.{Replies.property_trees, Sinks.{Says, Writes}};

use crate::build::{list_item, string_item};
use crate::reply::Reply;
use crate::saying::say_item;
use crate::sink::ReplySink;
use byte_string::ByteString;
use items::Item;
use repo_api::Properties;
use std::alloc::{AllocError, Global};

/// Makes `( ( name value ) ... )`.
pub(crate) fn properties_item(alloc: Global, properties: &Properties) -> Result<Item, AllocError>
    ensures { IfOk result (λ item. value_of item ≡ list (property_trees properties.now)) }
{
    let mut items = Vec::new(alloc);
    for (name, value) in properties.iter() {
        let item = property_item(alloc, name, value)?;
        items.push(item).map_err(AllocError::from)?;
    }
    Ok(Item::List(items))
}

/// Makes `( name value )`.
fn property_item(alloc: Global, name: &ByteString, value: &ByteString) -> Result<Item, AllocError>
    ensures { IfOk result (λ item.
        value_of item ≡ list (both (string name.now) (string value.now))) }
{
    let name = string_item(alloc, name.as_slice())?;
    let value = string_item(alloc, value.as_slice())?;
    list_item(alloc, [name, value])
}

/// Writes the reply that contains these properties, one property after another.
pub fn say_properties<S: ReplySink>(
    alloc: Global,
    properties: &Properties,
    out: &mut S,
) -> Result<(), AllocError>
    ensures { Says result (S.writes out.old out.new) (Reply.Properties properties.now ∷ []) }
{
    out.write_part(b"( success ( ")?;
    say_property_list(alloc, properties, out)?;
    out.write_part(b") ) ")
}

/// Writes `( ( name value ) ... )`, one property after another.
pub(crate) fn say_property_list<S: ReplySink>(
    alloc: Global,
    properties: &Properties,
    out: &mut S,
) -> Result<(), AllocError>
    ensures { Writes result (S.writes out.old out.new)
        (printed (list (property_trees properties.now))) }
{
    out.write_part(b"( ")?;
    say_each_property(alloc, properties, out)?;
    out.write_part(b") ")
}

/// Writes these properties.
fn say_each_property<S: ReplySink>(
    alloc: Global,
    properties: &Properties,
    out: &mut S,
) -> Result<(), AllocError>
    ensures { Writes result (S.writes out.old out.new)
        (row_printed (property_trees properties.now)) }
{
    for (name, value) in properties.iter() {
        say_item(alloc, property_item(alloc, name, value), out)?;
    }
    Ok(())
}
