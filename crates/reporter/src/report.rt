//! A report on its way.
ghost use Rattle.reporter.specs.Named.{AreNamed, IsNamed};

use crate::ask::DriveAsk;
use crate::grafts::Grafts;
use drive_rules::Depth;
use refusals::Refusal;
use svnpath::Path;

/// The revision and the depth of the path that is reported first, the target.
#[derive(Clone, Copy, Debug, PartialEq, Eq)]
pub struct ReportRoot {
    pub revision: u64,
    pub depth: Depth,
}

/// A report that goes on: what is asked, the path that was reported first, once there is one, and
/// what was put so far, in its order.
#[derive(Drop)]
pub struct OpenReport<G> {
    pub ask: DriveAsk,
    pub root: Option<ReportRoot>,
    pub grafts: G,
}

impl OpenReport<Grafts> {
    /// Does nothing: its contract says that a client can name the target, and the path of each graft.
    pub fn are_named(&self)
        ensures { IsNamed self.now.ask.target × AreNamed self.now.grafts }
    {
        let _target = self.ask.target.as_path();
        self.grafts.are_named();
    }
}

/// A report on its way. A refusal is told at its end, with the path at which it is, if it is one of a path.
#[derive(Drop)]
pub enum Report<G> {
    Refused(Refusal, Option<Path>),
    Open(OpenReport<G>),
}
