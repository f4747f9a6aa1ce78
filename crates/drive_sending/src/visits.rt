//! The commands of visits. Where one of these fails, a part of what it says was written.
ghost use Rattle.std.specs.Prelude.{◌≡◌, ◌<◌, ◌+◌, ◌^◌, ◌∷◌, [], false, option_copied};
ghost use Rattle.wire_deltas.specs.Texts.{text_or_empty};
ghost use Rattle.drive_rules.specs.Steps.EntryKind.{DirectoryKind};
ghost use Rattle.drive_visits.specs.{Knowing.{HoldsKnown, IsKnown, IsVisitKnown, visit_of}, Visits.{Visit, kind_if}};
ghost use Rattle.drive_sides.specs.{Known.IsKnownOf, OnTrees.on_trees};
ghost use Rattle.drive_sending.specs.Commands.{add_command, added_entry, around_after, deeper_by, deleted_entry, news_told, open_command, opened_entry};
ghost use Rattle.drive_sending.specs.{Commands.{text_had, IsSentOver, plan_commands, visit_commands}, Driving.{Sends, SendsVisits}, Tokens.token_of};
ghost use Rattle.wire_replies.specs.Made.{Makes};

use crate::naming::{relative_text, token};
use crate::saying::say_made;
use crate::telling::{Entrance, or_no_news, say_news};
use crate::texts::Basis;
use drive_news::News;
use drive_sides::{DrivePlace, DriveVisit, DriveVisitor, TwoTrees};
use drive_visits::{KnownVisit, Sides};
use repo_api::{FileText, Repository};
use std::alloc::{AllocError, Global};
use svnpath::Path;
use wire_edits::{AddedEntry, DeletedEntry, EditorCommand, OpenedEntry};
use wire_replies::ReplySink;

/// Makes the command that opens an entry.
fn open_command<R: Repository>(
    alloc: Global,
    trees: &TwoTrees<R>,
    place: &DrivePlace,
    entrance: Entrance,
) -> Result<EditorCommand, AllocError>
    requires around { entrance.around + 1 < 2 ^ 64 }
    requires known { IsKnown (on_trees trees.now IsKnownOf) place.now }
    ensures { Makes result (open_command (kind_if entrance.is_directory)
        (on_trees trees.now opened_entry entrance.around place.now.path
        (kind_if entrance.is_directory))) }
{
    let entry = OpenedEntry {
        path: relative_text(alloc, &place.path)?,
        parent: token(alloc, true, entrance.around)?,
        token: token(alloc, entrance.is_directory, entrance.around + 1)?,
        revision: trees.reported_revision(place),
    };
    if entrance.is_directory {
        Ok(EditorCommand::OpenDirectory(entry))
    } else {
        Ok(EditorCommand::OpenFile(entry))
    }
}

/// Makes the command that adds an entry.
fn add_command(alloc: Global, path: &Path, entrance: Entrance) -> Result<EditorCommand, AllocError>
    requires { entrance.around + 1 < 2 ^ 64 }
    ensures { Makes result (add_command (kind_if entrance.is_directory)
        (added_entry entrance.around path.now (kind_if entrance.is_directory))) }
{
    let entry = AddedEntry {
        path: relative_text(alloc, path)?,
        parent: token(alloc, true, entrance.around)?,
        token: token(alloc, entrance.is_directory, entrance.around + 1)?,
        source: None,
    };
    if entrance.is_directory {
        Ok(EditorCommand::AddDirectory(entry))
    } else {
        Ok(EditorCommand::AddFile(entry))
    }
}

/// Makes the command that deletes an entry.
fn delete_command(alloc: Global, path: &Path, around: u64) -> Result<EditorCommand, AllocError>
    ensures { Makes result (EditorCommand.DeleteEntry (deleted_entry around path.now)) }
{
    Ok(EditorCommand::DeleteEntry(DeletedEntry {
        path: relative_text(alloc, path)?,
        parent: token(alloc, true, around)?,
        revision: None,
    }))
}

/// Makes the command that closes a directory.
fn close_command(alloc: Global, around: u64) -> Result<EditorCommand, AllocError>
    ensures { Makes result (EditorCommand.CloseDirectory (token_of DirectoryKind around)) }
{
    Ok(EditorCommand::CloseDirectory(token(alloc, true, around)?))
}

/// Finds what is sent about an entry.
fn news_told<R: Repository>(
    alloc: Global,
    trees: &TwoTrees<R>,
    place: &DrivePlace,
    is_anew: bool,
) -> Result<News, AllocError>
    requires { IsKnown (on_trees trees.now IsKnownOf) place.now }
    ensures { Makes result (on_trees trees.now news_told place.now.path is_anew) }
{
    let found = trees.news(alloc, place, is_anew)?;
    Ok(or_no_news(alloc, found))
}

/// Finds what is sent about the target, where it stays.
pub(crate) fn target_news<R: Repository>(
    alloc: Global,
    trees: &TwoTrees<R>,
) -> Result<News, AllocError>
    ensures { Makes result (on_trees trees.now news_told trees.now.report.now.ask.target false) }
{
    let target = trees.top(alloc)?;
    news_told(alloc, trees, &target, false)
}

/// Finds the text that the client has of an entry that stays, where its text is sent.
fn text_before<'a, R: Repository>(
    trees: &'a TwoTrees<'_, R>,
    place: &DrivePlace,
    news: &News,
) -> Option<&'a FileText>
    requires known { IsKnown (on_trees trees.now IsKnownOf) place.now }
    requires told { news.now ≡ on_trees trees.now news_told place.now.path false }
    ensures { IsSentOver news.now (text_or_empty (option_copied result))
        (on_trees trees.now text_had place.now.path false) }
{
    match &news.text {
        None => None,
        Some(_) => trees.had_text(place),
    }
}

/// Writes that an entry is opened, and what it is told.
fn say_open<R: Repository, S: ReplySink>(
    alloc: Global,
    trees: &TwoTrees<R>,
    place: &DrivePlace,
    entrance: Entrance,
    out: &mut S,
) -> Result<(), AllocError>
    requires around { entrance.around + 1 < 2 ^ 64 }
    requires known { IsKnown (on_trees trees.now IsKnownOf) place.now }
    ensures { Sends result (S.writes out.old out.new) (on_trees trees.now visit_commands
        entrance.around (Visit.Open place.now.path entrance.is_directory)) }
{
    let news = news_told(alloc, trees, place, false)?;
    say_made(open_command(alloc, trees, place, entrance), out)?;
    let basis = Basis {
        purpose: trees.report.ask.purpose,
        before: text_before(trees, place, &news),
    };
    say_news(alloc, basis, entrance, &news, out)
}

/// Writes that an entry is added, and what it is told.
fn say_add<R: Repository, S: ReplySink>(
    alloc: Global,
    trees: &TwoTrees<R>,
    place: &DrivePlace,
    entrance: Entrance,
    out: &mut S,
) -> Result<(), AllocError>
    requires around { entrance.around + 1 < 2 ^ 64 }
    requires known { IsKnown (on_trees trees.now IsKnownOf) place.now }
    ensures { Sends result (S.writes out.old out.new) (on_trees trees.now visit_commands
        entrance.around (Visit.Add place.now.path entrance.is_directory)) }
{
    let news = news_told(alloc, trees, place, true)?;
    say_made(add_command(alloc, &place.path, entrance), out)?;
    let basis = Basis {
        purpose: trees.report.ask.purpose,
        before: None,
    };
    say_news(alloc, basis, entrance, &news, out)
}

/// Writes that an entry is deleted.
fn say_delete<S: ReplySink>(
    alloc: Global,
    path: &Path,
    around: u64,
    out: &mut S,
) -> Result<(), AllocError>
    ensures { Sends result (S.writes out.old out.new)
        (EditorCommand.DeleteEntry (deleted_entry around path.now) ∷ []) }
{
    say_made(delete_command(alloc, path, around), out)
}

/// Writes that a directory is closed.
pub(crate) fn say_close<S: ReplySink>(
    alloc: Global,
    around: u64,
    out: &mut S,
) -> Result<(), AllocError>
    ensures { Sends result (S.writes out.old out.new)
        (EditorCommand.CloseDirectory (token_of DirectoryKind around) ∷ []) }
{
    say_made(close_command(alloc, around), out)
}

/// Writes a visit.
fn say_visit<R: Repository, S: ReplySink>(
    alloc: Global,
    trees: &TwoTrees<R>,
    visit: &DriveVisit,
    around: u64,
    out: &mut S,
) -> Result<(), AllocError>
    requires around { around + 1 < 2 ^ 64 }
    requires known { IsVisitKnown (on_trees trees.now IsKnownOf) visit.now }
    ensures { Sends result (S.writes out.old out.new)
        (on_trees trees.now visit_commands around (visit_of visit.now)) }
{
    match visit {
        KnownVisit::Open {
            place,
            is_directory,
        } => {
            let entrance = Entrance {
                around,
                is_directory: *is_directory,
            };
            say_open(alloc, trees, place, entrance, out)
        }
        KnownVisit::Add {
            place,
            is_directory,
        } => {
            let entrance = Entrance {
                around,
                is_directory: *is_directory,
            };
            say_add(alloc, trees, place, entrance, out)
        }
        KnownVisit::Delete(path) => say_delete(alloc, path, around, out),
        KnownVisit::Close => say_close(alloc, around, out),
    }
}

/// Says how many directories are open around the innermost one once an entry was entered.
fn around_entered(around: u64, is_directory: bool) -> u64
    requires { around + 1 < 2 ^ 64 }
    ensures { result ≡ deeper_by (kind_if is_directory) around }
{
    if is_directory { around + 1 } else { around }
}

/// Says how many directories are open around the innermost one after a visit.
fn around_after(visit: &DriveVisit, around: u64) -> u64
    requires { around + 1 < 2 ^ 64 }
    ensures { result ≡ around_after around (visit_of visit.now) }
{
    match visit {
        KnownVisit::Open { is_directory, .. } => around_entered(around, *is_directory),
        KnownVisit::Add { is_directory, .. } => around_entered(around, *is_directory),
        KnownVisit::Delete(_) => around,
        KnownVisit::Close => around.saturating_sub(1),
    }
}

/// Writes a visit, and answers how many directories are open around the innermost one after it.
fn say_next<R: Repository, S: ReplySink>(
    alloc: Global,
    trees: &TwoTrees<R>,
    visit: &DriveVisit,
    around: u64,
    out: &mut S,
) -> Result<u64, AllocError>
    requires around { around + 1 < 2 ^ 64 }
    requires known { IsVisitKnown (on_trees trees.now IsKnownOf) visit.now }
    ensures after { Makes result (around_after around (visit_of visit.now)) }
    ensures said { Sends result (S.writes out.old out.new)
        (on_trees trees.now visit_commands around (visit_of visit.now)) }
{
    say_visit(alloc, trees, visit, around, out)?;
    Ok(around_after(visit, around))
}

/// Writes visits as they are made. More than can be counted are as want of memory.
pub(crate) fn say_visits<R: Repository, S: ReplySink>(
    alloc: Global,
    trees: &TwoTrees<R>,
    visitor: &mut DriveVisitor,
    out: &mut S,
) -> Result<(), AllocError>
    requires { HoldsKnown (on_trees trees.now IsKnownOf) visitor.old }
    ensures { SendsVisits result (S.writes out.old out.new) trees.now visitor.old
        (λ c report. plan_commands c report 0) }
{
    let mut around = 0;
    for _ in 0..u64::MAX {
        let Some(visit) = visitor.next(alloc, trees)? else {
            return Ok(());
        };
        around = say_next(alloc, trees, &visit, around, out)?;
    }
    Err(AllocError)
}
