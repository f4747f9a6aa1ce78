//! Which children of a directory a drive can be of.
ghost use Rattle.std.specs.Prelude.{◌≡◌};
ghost use Rattle.drive_sides.specs.Depths.{reach_of};

use drive_rules::Depth;
use reporter::DepthAsked;

/// Which children of a directory a drive can be of.
#[derive(Clone, Copy)]
pub enum Reach {
    /// None.
    NoChild,
    /// Those that the client has.
    ChildHad,
    /// Any.
    AnyChild,
}

/// Says which children a drive of this depth can be of, by what is asked for.
pub(crate) fn reach_of(depth: Depth, asked: DepthAsked) -> Reach
    ensures { result ≡ reach_of depth asked }
{
    match depth {
        Depth::Empty => match asked {
            DepthAsked::Given(_) => Reach::NoChild,
            DepthAsked::AsReported => Reach::ChildHad,
        },
        Depth::Files | Depth::Immediates | Depth::Infinity => Reach::AnyChild,
    }
}
