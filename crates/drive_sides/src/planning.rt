//! The visits of a drive.
ghost use Rattle.std.specs.Prelude.{◌≡◌, Ok, IfOk, List};
ghost use Rattle.repo_api.specs.Soundness.{AreTrees};
ghost use Rattle.drive_visits.specs.{Knowing.HoldsKnown, Visiting.MayVisit, Visits.Visit};
ghost use Rattle.reporter.specs.Refusing.{finish_root};
ghost use Rattle.drive_sides.specs.{Known.IsKnownOf, OnTrees.on_trees, Plans.{IsPlan, drive_trees}};

use crate::known::DriveVisitor;
use crate::two_trees::TwoTrees;
use drive_visits::Visitor;
use repo_api::Repository;
use std::alloc::{AllocError, Global};

/// Gives the visits of the drive that a report has come to, made as they are asked for.
pub fn visitor<R: Repository>(
    alloc: Global,
    trees: &TwoTrees<R>,
) -> Result<DriveVisitor, AllocError>
    requires trees { AreTrees (R.content trees.now.view.now).revisions }
    requires finished { finish_root (R.content trees.now.view.now) trees.now.report.now
        ≡ Ok trees.now.root }
    ensures plan { IfOk result (λ visitor. (visits : List Visit)
        → MayVisit (on_trees trees.now drive_trees) visitor visits
        → on_trees trees.now IsPlan visits) }
    ensures known { IfOk result (HoldsKnown (on_trees trees.now IsKnownOf)) }
{
    if trees.report.ask.target.as_path().is_root() {
        Visitor::of_root(alloc, trees)
    } else {
        Visitor::of_top(alloc, trees)
    }
}
