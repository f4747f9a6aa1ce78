//! A drive, written as it is made. Where one of these fails, a part of what it says was written.
ghost use Rattle.std.specs.Prelude.{◌≡◌, ◌∷◌, ◌++◌, [], Ok, Some};
ghost use Rattle.repo_api.specs.Soundness.{AreTrees};
ghost use Rattle.drive_rules.specs.Steps.EntryKind.{DirectoryKind};
ghost use Rattle.reporter.specs.Refusing.{finish_root};
ghost use Rattle.drive_visits.specs.Knowing.{HoldsKnown};
ghost use Rattle.drive_sides.specs.{Known.IsKnownOf, OnTrees.on_trees, Plans.{drive_trees, whole}};
ghost use Rattle.drive_sending.specs.Commands.{body_commands, drive_of, plan_commands, root_commands};
ghost use Rattle.drive_sending.specs.{Driving.{drive_replies, SaysDrive, Sends, SendsVisits, Visiting}, Tokens.token_of};
ghost use Rattle.wire_replies.specs.{Made.Makes, Sinks.Says};

use crate::naming::token;
use crate::saying::say_made;
use crate::telling::say_root_news;
use crate::visits::{say_close, say_visits, target_news};
use drive_sides::{DriveVisitor, TwoTrees, visitor};
use repo_api::Repository;
use reporter::{Grafts, OpenReport, ReportRoot};
use std::alloc::{AllocError, Global};
use text_deltas::deltas_give_the_text;
use wire_edits::EditorCommand;
use wire_replies::{Reply, ReplySink, say_new};

/// Makes the command that opens the root.
fn open_root(alloc: Global, root: ReportRoot) -> Result<EditorCommand, AllocError>
    ensures { Makes result
        (EditorCommand.OpenRoot (Some root.revision) (token_of DirectoryKind 0)) }
{
    Ok(EditorCommand::OpenRoot(Some(root.revision), token(alloc, true, 0)?))
}

/// Writes which revision a drive leads to, and that the root is opened.
fn say_beginning<S: ReplySink>(
    alloc: Global,
    revision: u64,
    root: ReportRoot,
    out: &mut S,
) -> Result<(), AllocError>
    ensures { Sends result (S.writes out.old out.new) (EditorCommand.TargetRevision revision
        ∷ EditorCommand.OpenRoot (Some root.revision) (token_of DirectoryKind 0) ∷ []) }
{
    say_made(Ok(EditorCommand::TargetRevision(revision)), out)?;
    say_made(open_root(alloc, root), out)
}

/// Writes what the root is told, where it is one of the paths of the drive.
fn say_root<R: Repository, S: ReplySink>(
    alloc: Global,
    trees: &TwoTrees<R>,
    out: &mut S,
) -> Result<(), AllocError>
    ensures { Sends result (S.writes out.old out.new) (on_trees trees.now root_commands) }
{
    if !trees.report.ask.target.as_path().is_root() {
        return Ok(());
    }
    let news = target_news(alloc, trees)?;
    say_root_news(alloc, &news, out)
}

/// Writes visits, and that the root is closed.
fn say_below<R: Repository, S: ReplySink>(
    alloc: Global,
    trees: &TwoTrees<R>,
    visitor: &mut DriveVisitor,
    out: &mut S,
) -> Result<(), AllocError>
    requires { HoldsKnown (on_trees trees.now IsKnownOf) visitor.old }
    ensures { SendsVisits result (S.writes out.old out.new) trees.now visitor.old
        (λ c report visits. plan_commands c report 0 visits
        ++ EditorCommand.CloseDirectory (token_of DirectoryKind 0) ∷ []) }
{
    say_visits(alloc, trees, visitor, out)?;
    say_close(alloc, 0, out)
}

/// Writes the commands from the open root on to its close.
fn say_body<R: Repository, S: ReplySink>(
    alloc: Global,
    trees: &TwoTrees<R>,
    visitor: &mut DriveVisitor,
    out: &mut S,
) -> Result<(), AllocError>
    requires { HoldsKnown (on_trees trees.now IsKnownOf) visitor.old }
    ensures { SendsVisits result (S.writes out.old out.new) trees.now visitor.old body_commands }
{
    say_root(alloc, trees, out)?;
    say_below(alloc, trees, visitor, out)
}

/// Writes the commands from the open root on to the end of the edit.
fn say_rest<R: Repository, S: ReplySink>(
    alloc: Global,
    trees: &TwoTrees<R>,
    visitor: &mut DriveVisitor,
    out: &mut S,
) -> Result<(), AllocError>
    requires { HoldsKnown (on_trees trees.now IsKnownOf) visitor.old }
    ensures { SendsVisits result (S.writes out.old out.new) trees.now visitor.old
        (λ c report visits. body_commands c report visits ++ EditorCommand.CloseEdit ∷ []) }
{
    say_body(alloc, trees, visitor, out)?;
    say_made(Ok(EditorCommand::CloseEdit), out)
}

/// Writes the drive of the visits.
fn say_commands<R: Repository, S: ReplySink>(
    alloc: Global,
    trees: &TwoTrees<R>,
    visitor: &mut DriveVisitor,
    out: &mut S,
) -> Result<(), AllocError>
    requires { HoldsKnown (on_trees trees.now IsKnownOf) visitor.old }
    ensures { SendsVisits result (S.writes out.old out.new) trees.now visitor.old drive_of }
{
    say_beginning(alloc, trees.report.ask.revision, trees.root, out)?;
    say_rest(alloc, trees, visitor, out)
}

/// Writes a login request that asks for nothing, and the drive of the visits.
fn say_planned<R: Repository, S: ReplySink>(
    alloc: Global,
    trees: &TwoTrees<R>,
    visitor: &mut DriveVisitor,
    out: &mut S,
) -> Result<(), AllocError>
    requires { HoldsKnown (on_trees trees.now IsKnownOf) visitor.old }
    ensures { Visiting (on_trees trees.now drive_trees) visitor.old
        (λ visits. Says result (S.writes out.old out.new)
        (drive_replies (on_trees trees.now drive_of visits))) }
{
    say_new(Reply::NoLogin, out)?;
    say_commands(alloc, trees, visitor, out)
}

/// Writes a login request that asks for nothing, and the drive that a report has come to.
///
/// # Errors
///
/// `AllocError` for want of memory, or where the sink fails.
pub fn say_drive<R: Repository, S: ReplySink>(
    alloc: Global,
    view: &R,
    report: &OpenReport<Grafts>,
    root: ReportRoot,
    out: &mut S,
) -> Result<(), AllocError>
    requires trees { AreTrees (R.content view.now).revisions }
    requires finished { finish_root (R.content view.now) report.now ≡ Ok root }
    ensures { SaysDrive result (S.writes out.old out.new) (R.content view.now)
        (whole report.now root) }
{
    let trees = TwoTrees { view, report, root };
    let mut visitor = visitor(alloc, &trees)?;
    report.are_named();
    deltas_give_the_text();
    say_planned(alloc, &trees, &mut visitor, out)
}
