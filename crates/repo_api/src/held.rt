//! Properties as they are held: a few as rows, more in a tree.
ghost use Rattle.std.specs.Prelude.{◌≡◌, ◌==◌, length, IfOk, OnOk, OnErr, IfSome, option_copied};
ghost use Rattle.repo_api.specs.{Held.{IsInOrder, list_of}, Properties.{property_value, with_properties, with_property, without_property}, Rows.AreInOrder};

use crate::rows::{put, search, take_out, tree_of, value_in};
use crate::values::PropertyValue;
use byte_string::ByteString;
use std::alloc::{AllocError, Global};
use std::collections::BTreeMap;

/// The most rows that are a few.
const FEW: usize = 16;

/// Properties: a few are rows in the order of their names, with memory for themselves alone; more are in a tree.
#[derive(Debug, Drop)]
pub(crate) enum Held {
    Few(Vec<(ByteString, PropertyValue)>),
    Many(Global, BTreeMap<ByteString, PropertyValue>),
}

/// Says whether there are none.
pub(crate) fn is_none(held: &Held) -> bool
    ensures { result ≡ (length (list_of held.now) == 0) }
{
    match held {
        Held::Few(rows) => rows.is_empty(),
        Held::Many(_, tree) => tree.is_empty(),
    }
}

/// Finds the value of the property of this name, if there is one.
pub(crate) fn get<'a>(held: &'a Held, name: &ByteString) -> Option<&'a PropertyValue>
    requires { IsInOrder held.now }
    ensures { option_copied result ≡ property_value (list_of held.now) name.now }
{
    match held {
        Held::Few(rows) => value_in(rows, name),
        Held::Many(_, tree) => tree.get(name),
    }
}

/// Says whether the rows with one of this name are a few.
fn are_few(rows: &[(ByteString, PropertyValue)], name: &ByteString) -> bool
    requires { AreInOrder rows.now }
{
    rows.len() < FEW || search(rows, name).is_ok()
}

/// Makes a tree of the rows, where they are no longer a few with one of this name.
fn grown(held: &Held, name: &ByteString) -> Result<Option<Held>, AllocError>
    requires { IsInOrder held.now }
    ensures same { IfOk result (λ grown. IfSome grown (λ more. list_of more ≡ list_of held.now)) }
    ensures order { IfOk result (λ grown. IfSome grown IsInOrder) }
{
    let Held::Few(rows) = held else {
        return Ok(None);
    };
    if are_few(rows, name) {
        return Ok(None);
    }
    let alloc = *rows.allocator();
    Ok(Some(Held::Many(alloc, tree_of(alloc, rows)?)))
}

/// Gives what memory is taken from.
fn allocator(held: &Held) -> Global {
    match held {
        Held::Few(rows) => *rows.allocator(),
        Held::Many(alloc, _) => *alloc,
    }
}

/// Adds a property among those that have room for it, or replaces its value.
fn add(held: &mut Held, name: ByteString, value: PropertyValue) -> Result<(), AllocError>
    requires { IsInOrder held.old }
    ensures ok { OnOk result (list_of held.new ≡ with_property (list_of held.old) name value) }
    ensures err { OnErr result (list_of held.new ≡ list_of held.old) }
    ensures order { IsInOrder held.new }
{
    match held {
        Held::Few(rows) => put(rows, name, value),
        Held::Many(_, tree) => {
            tree.insert(name, value)?;
            Ok(())
        }
    }
}

/// Holds the properties in a tree from now on, where they are no longer a few with one of this name.
fn grow(held: &mut Held, name: &ByteString) -> Result<(), AllocError>
    requires { IsInOrder held.old }
    ensures same { list_of held.new ≡ list_of held.old }
    ensures order { IsInOrder held.new }
{
    if let Some(more) = grown(held, name)? {
        *held = more;
    }
    Ok(())
}

/// Adds a property, or replaces its value where the name has one. An `Err` changes no property.
pub(crate) fn set(held: &mut Held, name: ByteString, value: PropertyValue) -> Result<(), AllocError>
    requires { IsInOrder held.old }
    ensures ok { OnOk result (list_of held.new ≡ with_property (list_of held.old) name value) }
    ensures err { OnErr result (list_of held.new ≡ list_of held.old) }
    ensures order { IsInOrder held.new }
{
    grow(held, &name)?;
    add(held, name, value)
}

/// Makes the value that these bytes are, for one of those that are held.
pub(crate) fn value_for(held: &Held, bytes: ByteString) -> Result<PropertyValue, AllocError>
    ensures { IfOk result (λ value. value ≡ bytes) }
{
    PropertyValue::new(allocator(held), bytes)
}

/// Adds the properties of rows, whose values stand where there was one.
fn set_rows(held: &mut Held, rows: &[(ByteString, PropertyValue)]) -> Result<(), AllocError>
    requires { IsInOrder held.old }
    ensures ok { OnOk result (list_of held.new ≡ with_properties (list_of held.old) rows.now) }
    ensures order { IsInOrder held.new }
{
    for (name, value) in rows {
        set(held, name.clone()?, value.clone()?)?;
    }
    Ok(())
}

/// Adds the properties of a tree, whose values stand where there was one.
fn set_tree(held: &mut Held, tree: &BTreeMap<ByteString, PropertyValue>) -> Result<(), AllocError>
    requires { IsInOrder held.old }
    ensures ok { OnOk result (list_of held.new ≡ with_properties (list_of held.old) tree.now.entries) }
    ensures order { IsInOrder held.new }
{
    for (name, value) in tree.iter() {
        set(held, name.clone()?, value.clone()?)?;
    }
    Ok(())
}

/// Adds the others, whose values stand where there was one.
pub(crate) fn set_all(held: &mut Held, others: &Held) -> Result<(), AllocError>
    requires { IsInOrder held.old }
    ensures ok { OnOk result (list_of held.new ≡ with_properties (list_of held.old) (list_of others.now)) }
    ensures order { IsInOrder held.new }
{
    match others {
        Held::Few(rows) => set_rows(held, rows),
        Held::Many(_, tree) => set_tree(held, tree),
    }
}

/// Takes out the property of this name. Where there is none, nothing changes.
pub(crate) fn remove(held: &mut Held, name: &ByteString)
    requires { IsInOrder held.old }
    ensures removed { list_of held.new ≡ without_property (list_of held.old) name.now }
    ensures order { IsInOrder held.new }
{
    match held {
        Held::Few(rows) => take_out(rows, name),
        Held::Many(_, tree) => {
            tree.remove(name);
        }
    }
}

/// Copies what is held.
pub(crate) fn copy(held: &Held) -> Result<Held, AllocError>
    requires { IsInOrder held.now }
    ensures same { IfOk result (λ copy. list_of copy ≡ list_of held.now) }
    ensures order { IfOk result IsInOrder }
{
    match held {
        Held::Few(rows) => Ok(Held::Few(rows.clone()?)),
        Held::Many(alloc, tree) => Ok(Held::Many(*alloc, tree.clone()?)),
    }
}
