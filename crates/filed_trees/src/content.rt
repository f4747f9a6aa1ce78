//! Checks of what a file says.
ghost use Rattle.filed_trees.specs.Readable.{Judges};
ghost use Rattle.std.specs.Prelude.{◌≡◌, true};

use block_rules::are_same_properties;
use fsfs_text::FileFault;
use repo_api::Properties;
use std::alloc::Global;

/// Answers a malformed line where something does not hold.
pub(crate) fn check(holds: bool) -> Result<(), FileFault>
    ensures { Judges result (holds ≡ true) }
{
    if holds {
        Ok(())
    } else {
        Err(FileFault::BadLine)
    }
}

/// Checks that properties are the same.
///
/// # Errors
///
/// `BadLine` where they differ; `NoMemory`.
pub fn check_same_properties(
    alloc: Global,
    properties: &Properties,
    others: &Properties,
) -> Result<(), FileFault>
    ensures { Judges result (others.now ≡ properties.now) }
{
    check(are_same_properties(alloc, others, properties)?)
}
