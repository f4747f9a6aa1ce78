//! What is asked of a drive.
ghost use Rattle.std.specs.Prelude.{◌≡◌};

use crate::named_path::NamedPath;
use drive_rules::Depth;
use svnpath::Path;

/// What a drive is for.
#[derive(Clone, Copy, Debug, PartialEq, Eq)]
pub enum Purpose {
    Update,
    Switch,
    Status,
    Diff,
    /// A diff without texts.
    Summary,
}

/// How deep a drive is to go: to a depth, or as deep as is reported.
#[derive(Clone, Copy, Debug, PartialEq, Eq)]
pub enum DepthAsked {
    Given(Depth),
    AsReported,
}

/// What is asked of a drive.
#[derive(Debug)]
pub struct DriveAsk {
    pub purpose: Purpose,
    /// Whether a client of today asks it.
    pub is_of_today: bool,
    /// Whether an entry of another line of history may take the place of what the client has.
    pub ignores_ancestry: bool,
    /// The path of the session's URL.
    pub anchor: Path,
    /// The path of what is to be changed, from the anchor on.
    pub target: NamedPath,
    /// The path in the repository of what it is to become.
    pub goal: Path,
    /// The revision of what it is to become.
    pub revision: u64,
    pub depth: DepthAsked,
}

impl Drop for DriveAsk {
    fn drop(self) {
        let DriveAsk {
            purpose: _,
            is_of_today: _,
            ignores_ancestry: _,
            anchor: _,
            target: _,
            goal: _,
            revision: _,
            depth: _,
        } = self;
    }
}

impl DriveAsk {
    /// Gives the path in the repository of what the target is to become.
    pub fn into_goal(self) -> Path
        ensures { result ≡ self.goal }
    {
        let DriveAsk {
            purpose: _,
            is_of_today: _,
            ignores_ancestry: _,
            anchor: _,
            target: _,
            goal,
            revision: _,
            depth: _,
        } = self;
        goal
    }
}
