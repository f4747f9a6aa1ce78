//! Properties by name.
ghost use Rattle.std.specs.Prelude.{◌≡◌, ◌==◌, [], IfOk, OnOk, OnErr, length, option_copied};
ghost use Rattle.repo_api.specs.Properties.{is_same_value, property_value, with_properties, with_property, without_property};

use crate::held::{Held, copy, get, is_none, remove, set, set_all, value_for};
use crate::property_rows::{PropertyRows, rows_of};
use crate::values::PropertyValue;
use byte_string::ByteString;
use std::alloc::{AllocError, Global};
use std::marker::Model;

/// Properties by their names.
#[derive(Debug)]
pub struct Properties {
    held: Held,
}

impl Drop for Properties {
    fn drop(self) {
        let Properties { held: _ } = self;
    }
}

impl Model for Properties {
    ghost use Rattle.repo_api.specs.{Held.{IsInOrder, list_of}, Properties.PropertyList};

    ghost Value = { PropertyList };

    ghost view = { λ p. list_of p.held };

    ghost invariant = { λ p. IsInOrder p.held };
}

impl Properties {
    /// Makes an empty list of properties, which takes no memory.
    pub fn new(alloc: Global) -> Self
        ensures { result ≡ [] }
    {
        Properties {
            held: Held::Few(Vec::new(alloc)),
        }
    }

    /// Gives the names with their values, by the names' bytes.
    pub fn iter(&self) -> PropertyRows<'_>
        ensures { result ≡ self.now }
    {
        rows_of(&self.held)
    }

    /// Says whether there are none.
    pub fn is_empty(&self) -> bool
        ensures { result ≡ (length self.now == 0) }
    {
        is_none(&self.held)
    }

    /// Finds the value of the property of this name, if there is one.
    pub fn get(&self, name: &ByteString) -> Option<&ByteString>
        ensures { option_copied result ≡ property_value self.now name.now }
    {
        Some(get(&self.held, name)?.bytes())
    }

    /// Gives the value of the property of this name, if there is one. One of many bytes is shared, and not copied.
    pub fn value(&self, name: &ByteString) -> Result<Option<PropertyValue>, AllocError>
        ensures { IfOk result (λ value. value ≡ property_value self.now name.now) }
    {
        match get(&self.held, name) {
            None => Ok(None),
            Some(value) => Ok(Some(value.clone()?)),
        }
    }

    /// Adds a property, or replaces its value where the name has one. An `Err` changes nothing.
    pub fn set(&mut self, name: ByteString, value: ByteString) -> Result<(), AllocError>
        ensures ok { OnOk result (self.new ≡ with_property self.old name value) }
        ensures err { OnErr result (self.new ≡ self.old) }
    {
        let value = value_for(&self.held, value)?;
        set(&mut self.held, name, value)
    }

    /// Gives these properties and the others, whose values stand where both have one of a name. Values of many bytes are
    /// shared, and not copied.
    pub fn with_all(&self, others: &Properties) -> Result<Self, AllocError>
        ensures { IfOk result (λ both. both ≡ with_properties self.now others.now) }
    {
        let mut held = copy(&self.held)?;
        set_all(&mut held, &others.held)?;
        Ok(Properties { held })
    }

    /// Takes out the property of this name. Where there is none, nothing changes.
    pub fn remove(&mut self, name: &ByteString)
        ensures { self.new ≡ without_property self.old name.now }
    {
        remove(&mut self.held, name);
    }
}

impl Clone for Properties {
    ghost is_clone = { λ properties copy. copy ≡ properties };

    fn clone(&self) -> Result<Self, AllocError> {
        Ok(Properties {
            held: copy(&self.held)?,
        })
    }
}

/// Says whether both are the same value, or both none.
pub fn is_same_value(one: Option<&ByteString>, other: Option<&ByteString>) -> bool
    ensures { result ≡ is_same_value (option_copied one.entry) (option_copied other.entry) }
{
    match (one, other) {
        (None, None) => true,
        (None, Some(_)) | (Some(_), None) => false,
        (Some(one), Some(other)) => one == other,
    }
}
