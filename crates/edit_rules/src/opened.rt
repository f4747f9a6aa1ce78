//! What is open in an edit.
ghost use Rattle.std.specs.Prelude.{◌≡◌, option_copied};
ghost use Rattle.edit_rules.specs.Tokens.{path_of, directory_path, is_in_copy, is_reading_delta, is_unfinished};

use svndiff0::Applier;
use svnpath::Path;

/// What has come of a file's text delta.
#[derive(Drop)]
pub enum DeltaState {
    /// None has begun.
    NotBegun,
    /// Its document is being read.
    Reading(Applier),
    /// It has ended.
    Ended,
}

/// A directory that is open: where it is, the revision that the client has of it, and whether it was added with a
/// copy, or opened beneath such a one.
#[derive(Drop)]
pub struct OpenedDirectory {
    pub path: Path,
    pub revision: Option<u64>,
    pub in_copy: bool,
}

/// What is open under a token.
#[derive(Drop)]
pub enum Opened {
    /// A directory.
    Directory(OpenedDirectory),
    /// A file.
    File(Path, DeltaState),
}

impl DeltaState {
    /// Says whether the document has not ended.
    pub fn is_reading(&self) -> bool
        ensures { result ≡ is_reading_delta self.now }
    {
        matches!(self, DeltaState::Reading(_))
    }
}

impl Opened {
    /// Says where it is.
    pub fn path(&self) -> &Path
        ensures { result.now ≡ path_of self.now }
    {
        match self {
            Opened::Directory(directory) => &directory.path,
            Opened::File(path, _) => path,
        }
    }

    /// Says where it is, if it is a directory.
    pub fn directory(&self) -> Option<&Path>
        ensures { option_copied result ≡ directory_path self.now }
    {
        match self {
            Opened::Directory(directory) => Some(&directory.path),
            Opened::File(_, _) => None,
        }
    }

    /// Says whether it is a directory that was added with a copy, or opened beneath such a one.
    pub fn is_in_copy(&self) -> bool
        ensures { result ≡ is_in_copy self.now }
    {
        match self {
            Opened::Directory(directory) => directory.in_copy,
            Opened::File(_, _) => false,
        }
    }

    /// Says whether it is a file whose text delta has not ended.
    pub fn is_unfinished(&self) -> bool
        ensures { result ≡ is_unfinished self.now }
    {
        match self {
            Opened::Directory(_) => false,
            Opened::File(_, delta) => delta.is_reading(),
        }
    }
}
