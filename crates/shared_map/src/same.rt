//! Entries that are the same.
ghost use Rattle.std.specs.Prelude.{◌≡◌, Decides};

use crate::parts::Entry;
use byte_string::ByteString;

/// Values that are told apart.
pub trait Same: Copy {
    /// Says whether two values are the same.
    fn is_same(&self, other: &Self) -> bool
        ensures { Decides result (self.now ≡ other.now) };
}

/// Says whether an entry has this name and this value.
pub(crate) fn is_entry<V: Same>(entry: &Entry<V>, name: &ByteString, value: &V) -> bool
    ensures { Decides result (entry.now ≡ (name.now, value.now)) }
{
    if !entry.1.is_same(value) {
        return false;
    }
    entry.0 == *name
}
