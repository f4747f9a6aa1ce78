//! Dumps whose keys are all different.
ghost use Rattle.fsfs_text.specs.Reading.{Answers};
ghost use Rattle.fsfs_nodes.specs.Rows.{with_row, rows_of};

use fsfs_text::{DumpPair, FileFault, read_dump};
use repo_api::Properties;
use std::alloc::Global;

/// Adds a row, unless its key stands there.
fn add_row(rows: &mut Properties, pair: &DumpPair) -> Result<(), FileFault>
    ensures { Answers (λ _. rows.new) result (with_row rows.old pair.now) }
{
    if rows.get(&pair.key).is_some() {
        return Err(FileFault::BadLine);
    }
    rows.set(pair.key.clone()?, pair.value.clone()?)?;
    Ok(())
}

/// Reads the keys and values of a dump, in whatever order they stand.
///
/// # Errors
///
/// As `read_dump`, and `BadLine` where a key comes twice.
#[tactic(auto, unfolding(crate::specs::Rows::rows_of))]
pub(crate) fn read_rows(alloc: Global, bytes: &[u8]) -> Result<Properties, FileFault>
    ensures { Answers (λ rows. rows) result (rows_of bytes.now) }
{
    let pairs = read_dump(alloc, bytes)?;
    let mut rows = Properties::new(alloc);
    for pair in &pairs {
        add_row(&mut rows, pair)?;
    }
    Ok(rows)
}
