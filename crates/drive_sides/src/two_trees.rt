//! The two trees of a drive.
ghost use Rattle.std.specs.Prelude.{◌≡◌};
ghost use Rattle.repo_api.specs.Soundness.{AreTrees};
ghost use Rattle.reporter.specs.Places.{AllHoldTogether};
ghost use Rattle.drive_sides.specs.Together.{AllHoldTogether-prop};

use repo_api::Repository;
use reporter::{Grafts, OpenReport, ReportRoot};

/// The two trees of a drive, over a repository: what the client has by its report, and what it is
/// to have. What stands in a revision of the repository stands in a directory of it.
#[derive(Drop)]
pub struct TwoTrees<'a, R: Repository> {
    pub view: &'a R,
    pub report: &'a OpenReport<Grafts>,
    pub root: ReportRoot,
    pub ghost together: { AllHoldTogether (R.content view.now).revisions } by { AllHoldTogether-prop (R.content view.now).revisions },
}

impl<'a, R: Repository> TwoTrees<'a, R> {
    /// Makes the two trees of the drive of a report, over a repository each of whose trees is a tree.
    pub fn new(view: &'a R, report: &'a OpenReport<Grafts>, root: ReportRoot) -> Self
        requires { AreTrees (R.content view.now).revisions }
        ensures { (result.view.now ≡ view.now) × (result.report.now ≡ report.now)
            × (result.root ≡ root) }
    {
        TwoTrees { view, report, root }
    }
}
