//! Copies of an entry with other marks.
ghost use Rattle.std.specs.Prelude.{◌≡◌, IfOk};
ghost use Rattle.flat_entries.specs.Copies.{copied_entry};

use repo_api::{Entry, Mark};
use std::alloc::AllocError;

/// Makes a copy of the entry with these marks.
pub(crate) fn with_marks(entry: &Entry, own: Mark, last: Mark) -> Result<Entry, AllocError>
    ensures { IfOk result (λ e. e ≡ record entry.now { own = own; last = last }) }
{
    Ok(Entry {
        content: entry.content.clone()?,
        properties: entry.properties.clone()?,
        own,
        last,
    })
}

/// Makes a copy of the entry, opened if it is the top of what is copied.
pub fn copied_entry(entry: &Entry, is_top: bool) -> Result<Entry, AllocError>
    ensures { IfOk result (λ e. e ≡ copied_entry is_top entry.now) }
{
    if is_top {
        return with_marks(entry, Mark::Open, Mark::Open);
    }
    entry.clone()
}
