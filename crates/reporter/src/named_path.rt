//! Paths that a client can name.
ghost use Rattle.std.specs.Prelude.{◌≡◌};
ghost use Rattle.reporter.specs.Named.{IsNamed};

use std::marker::Model;
use svnpath::Path;

/// A path that a client can name, of however many components.
#[derive(Debug)]
pub struct NamedPath {
    path: Path,
}

impl Drop for NamedPath {
    fn drop(self) {
        let NamedPath { path: _ } = self;
    }
}

impl Model for NamedPath {
    ghost use Rattle.svnpath.specs.Paths.{PathValue};
    ghost use Rattle.reporter.specs.Named.{IsNamed};

    ghost Value = { PathValue };

    ghost view = { λ p. p.path };

    ghost invariant = { λ p. IsNamed p.path };
}

impl NamedPath {
    /// Takes a path, which a client has named.
    pub(crate) fn new(path: Path) -> Self
        requires { IsNamed path }
        ensures { result ≡ path }
    {
        NamedPath { path }
    }

    /// Gives the path itself.
    pub fn as_path(&self) -> &Path
        ensures path { result.now ≡ self.now }
        ensures named { IsNamed self.now }
    {
        &self.path
    }
}
