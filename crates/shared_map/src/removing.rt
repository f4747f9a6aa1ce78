//! No value at a name.
ghost use Rattle.std.specs.Prelude.{◌≡◌, OnOk, OnErr};
ghost use Rattle.shared_map.specs.Entries.{all_entries, AreParts, without};

use crate::parts::{Part, remove_at};
use crate::searching::{home, search};
use byte_string::ByteString;
use std::alloc::AllocError;
use std::sync::Arc;

/// Takes the entry of the name out of all parts, if there is one. A part that has no other goes.
pub(crate) fn remove_entry<V: Drop>(
    parts: &mut Vec<Arc<Part<V>>>,
    name: &ByteString,
) -> Result<(), AllocError>
    requires { AreParts parts.old.items }
    ensures ok { OnOk result (all_entries parts.new.items
        ≡ without name.now (all_entries parts.old.items)) }
    ensures err { OnErr result (all_entries parts.new.items ≡ all_entries parts.old.items) }
    ensures parts { AreParts parts.new.items }
{
    if parts.is_empty() {
        return Ok(());
    }
    let place = home(parts, name);
    let Ok(at) = search(&parts[place], name) else {
        return Ok(());
    };
    if parts[place].len() == 1 {
        parts.remove(place);
        return Ok(());
    }
    remove_at(&mut parts[place], at)
}
