//! A path of a walk, with what is known of it.
ghost use Rattle.std.specs.Prelude.{◌≡◌};

use svnpath::Path;

/// A path of a walk, with what is known of it, so that it need not be found again.
pub struct KnownPath<K> {
    pub path: Path,
    pub known: K,
}

impl<K: Drop> Drop for KnownPath<K> {
    fn drop(self) {
        let KnownPath { path: _, known: _ } = self;
    }
}

impl<K: Drop> KnownPath<K> {
    /// Gives the path alone.
    pub(crate) fn into_path(self) -> Path
        ensures { result ≡ self.path }
    {
        let KnownPath { path, known: _ } = self;
        path
    }
}
