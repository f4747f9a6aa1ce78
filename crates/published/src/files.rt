//! What keeps the files of a repository.
ghost use Rattle.std.specs.Prelude.{◌≡◌};

/// What keeps the files of a repository: the history grows only where it is as the events say.
pub trait Files {
    ghost use Rattle.published.specs.Files.{Kept};

    /// The repository for which the files stand, whether changes have come to a halt, and how often a save has
    /// failed.
    ghost kept: { Self → Kept };

    /// Says whether changes have come to a halt.
    fn is_halted(&self) -> bool
        ensures { result ≡ (kept self.now).halted };

    /// Says how often a save has failed.
    fn failures(&self) -> u64
        ensures { result ≡ (kept self.now).failures };
}
