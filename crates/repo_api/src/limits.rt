//! How much a repository can hold.

/// The most revisions of a repository, which are 0 to 262,143.
pub const REVISION_LIMIT: u64 = 262_144;

/// The most bytes of a property's name.
pub const PROPERTY_NAME_LIMIT: usize = 255;

/// The most locks that stand at a time.
pub const LOCK_LIMIT: usize = 65_536;

/// The most bytes of a file's text.
pub const TEXT_LIMIT: usize = 16_777_216;
