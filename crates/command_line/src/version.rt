//! Which version of the program this is.

/// The version. It is written here alone: `scripts/package` reads it here for the package and the manual page.
pub const VERSION: &str = "0.9.0";
