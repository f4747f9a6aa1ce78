//! What files are written from.
ghost use Rattle.std.specs.Prelude.{◌≡◌};

use crate::held::Held;
use noderevs::Nodes;

impl Held {
    /// Shows the nodes of all revisions.
    pub fn nodes(&self) -> &Nodes
        ensures { result.now ≡ self.now.nodes }
    {
        &self.nodes
    }
}
