//! The names and values of properties, one after the other.
ghost use Rattle.std.specs.{Prelude.{◌≡◌, length}, Iterator.at_most, Map.Iter.{TakesFirst, deref_pair}};
ghost use Rattle.repo_api.specs.Held.{list_of};

use crate::held::Held;
use crate::values::PropertyValue;
use byte_string::ByteString;
use std::collections::btree_map;
use std::marker::Model;

/// What is left of properties.
#[derive(Drop)]
enum Left<'a> {
    Few(&'a [(ByteString, PropertyValue)]),
    Many(btree_map::Iter<'a, ByteString, PropertyValue>),
}

/// The names and values that are left, in the order of the names.
pub struct PropertyRows<'a> {
    left: Left<'a>,
}

impl<'a> Drop for PropertyRows<'a> {
    fn drop(self) {
        let PropertyRows { left: _ } = self;
    }
}

impl<'a> Model for PropertyRows<'a> {
    ghost use Rattle.repo_api.specs.{Properties.PropertyList, Left.list_left};

    ghost Value = { PropertyList };

    ghost view = { λ r. list_left r.left };
}

/// Begins with the first of those that are held.
pub(crate) fn rows_of(held: &Held) -> PropertyRows<'_>
    ensures { result ≡ list_of held.now }
{
    let left = match held {
        Held::Few(rows) => Left::Few(rows.as_slice()),
        Held::Many(_, tree) => Left::Many(tree.iter()),
    };
    PropertyRows { left }
}

impl<'a> Iterator for PropertyRows<'a> {
    type Item = (&'a ByteString, &'a ByteString);

    ghost next_gives = { TakesFirst deref_pair };

    ghost remaining = { λ s. at_most (length s) };

    fn next(&mut self) -> Option<(&'a ByteString, &'a ByteString)> {
        match &mut self.left {
            Left::Few(rows) => {
                let (first, others) = rows.split_first()?;
                *rows = others;
                Some((&first.0, first.1.bytes()))
            }
            Left::Many(rows) => {
                let (name, value) = rows.next()?;
                Some((name, value.bytes()))
            }
        }
    }
}
