//! The names of a repository's files in the system.
ghost use Rattle.std.specs.Prelude.{◌≡◌, ◌++◌, codes, string_bytes, IfOk};
ghost use Rattle.store_files.specs.Names.{name_text};

use std::alloc::{AllocError, Global};
use store_files::FileName;

/// The names of one file.
#[derive(Drop)]
pub(crate) struct Place {
    /// The file.
    pub path: String,
    /// The file under the name that it has until its bytes are on the disk, which nobody reads.
    pub unfinished: String,
}

impl Place {
    /// Makes the names of a file of a store whose folder this is.
    pub fn new(alloc: Global, root: &str, name: FileName) -> Result<Self, AllocError> {
        let path = file_path(alloc, root, name)?;
        let unfinished = format!(in alloc; "{path}.new")?;
        Ok(Place { path, unfinished })
    }

    /// Gives the folder in which the file is.
    pub fn folder(&self) -> &str {
        folder_around(&self.path)
    }
}

/// Makes the path of a file of a store whose folder this is.
fn file_path(alloc: Global, root: &str, name: FileName) -> Result<String, AllocError>
    ensures { IfOk result (λ path. string_bytes path ≡ root.now ++ (codes "/" ++ name_text name)) }
{
    format!(in alloc; "{root}/{name}")
}

/// Gives the folder in which a file or folder is, by its path.
pub(crate) fn folder_around(path: &str) -> &str {
    match path.rsplit_once('/') {
        Some((folder, _)) => folder,
        None => path,
    }
}
