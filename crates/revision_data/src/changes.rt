//! The change at one path that an edit leaves there, by the change before it.
ghost use Rattle.std.specs.Prelude.{◌≡◌, IfOk, option_copied, Some};
ghost use Rattle.repo_api.specs.Changes.{after_add, after_delete, after_property, after_text, or_modified, plain_change};
ghost use Rattle.revision_data.specs.Prepared.{change_after, path_of, prunes};

use repo_api::{Action, Change, EditOp, Source};
use std::alloc::AllocError;
use svnpath::Path;

/// Says where the edit is.
pub(crate) fn path_of(op: &EditOp) -> &Path
    ensures { result.now ≡ path_of op.now }
{
    match op {
        EditOp::AddDirectory(path) | EditOp::AddFile(path) | EditOp::Delete(path) => path,
        EditOp::Copy(_, path) | EditOp::Replace(_, path) => path,
        EditOp::SetProperty(path, _, _) | EditOp::RemoveProperty(path, _) => path,
        EditOp::SetText(path, _) => path,
    }
}

/// Says whether the edit leaves no change beneath its path.
pub(crate) fn prunes(op: &EditOp) -> bool
    ensures { result ≡ prunes op.now }
{
    matches!(op, EditOp::Replace(_, _) | EditOp::Delete(_))
}

/// Makes the change that the edit leaves at its path, over the change before it, if any is left.
pub(crate) fn change_after(
    before: Option<&Change>,
    op: &EditOp,
) -> Result<Option<Change>, AllocError>
    ensures { IfOk result (λ change. change ≡ change_after op.now (option_copied before.entry)) }
{
    let change = match op {
        EditOp::AddDirectory(_) | EditOp::AddFile(_) => after_add(before, None),
        EditOp::Copy(source, _) => after_add(before, Some(copy_source(source)?)),
        EditOp::Replace(source, _) => after_replace(before, copy_source(source)?),
        EditOp::Delete(_) => return Ok(after_delete(before)),
        EditOp::SetProperty(_, _, _) | EditOp::RemoveProperty(_, _) => after_property(before)?,
        EditOp::SetText(_, _) => after_text(before)?,
    };
    Ok(Some(change))
}

/// Makes a change that says neither that the text nor that a property was changed.
pub(crate) fn unflagged(action: Action, source: Option<Source>) -> Change
    ensures { result ≡ plain_change action source }
{
    Change {
        action,
        text: false,
        properties: false,
        source,
    }
}

/// Makes the change of an add, over the change before it.
fn after_add(before: Option<&Change>, source: Option<Source>) -> Change
    ensures { result ≡ after_add source (option_copied before.entry) }
{
    match before {
        None => unflagged(Action::Add, source),
        Some(_) => unflagged(Action::Replace, source),
    }
}

/// Makes the change of a delete, over the change before it: none is left of an add.
fn after_delete(before: Option<&Change>) -> Option<Change>
    ensures { result ≡ after_delete (option_copied before.entry) }
{
    let Some(before) = before else {
        return Some(unflagged(Action::Delete, None));
    };
    match before.action {
        Action::Add => None,
        Action::Delete | Action::Replace | Action::Modify => Some(unflagged(Action::Delete, None)),
    }
}

/// Makes the change of a delete and then a copy, over the change before them.
fn after_replace(before: Option<&Change>, source: Source) -> Change
    ensures { result ≡ after_add (Some source) (after_delete (option_copied before.entry)) }
{
    after_add(after_delete(before).as_ref(), Some(source))
}

/// Makes the change of a property, over the change before it.
fn after_property(before: Option<&Change>) -> Result<Change, AllocError>
    ensures { IfOk result (λ change. change ≡ after_property (option_copied before.entry)) }
{
    let mut change = or_modified(before)?;
    change.properties = true;
    Ok(change)
}

/// Makes the change of the text, over the change before it.
fn after_text(before: Option<&Change>) -> Result<Change, AllocError>
    ensures { IfOk result (λ change. change ≡ after_text (option_copied before.entry)) }
{
    let mut change = or_modified(before)?;
    change.text = true;
    Ok(change)
}

/// Copies the change, or makes that of an entry modified in nothing.
fn or_modified(before: Option<&Change>) -> Result<Change, AllocError>
    ensures { IfOk result (λ change. change ≡ or_modified (option_copied before.entry)) }
{
    match before {
        None => Ok(unflagged(Action::Modify, None)),
        Some(before) => copied_change(before),
    }
}

/// Copies a change.
pub(crate) fn copied_change(change: &Change) -> Result<Change, AllocError>
    ensures { IfOk result (λ copy. copy ≡ change.now) }
{
    Ok(Change {
        action: change.action,
        text: change.text,
        properties: change.properties,
        source: copy_of(change.source.as_ref())?,
    })
}

/// Copies the source, if there is one.
fn copy_of(source: Option<&Source>) -> Result<Option<Source>, AllocError>
    ensures { IfOk result (λ copy. copy ≡ option_copied source.entry) }
{
    match source {
        None => Ok(None),
        Some(source) => Ok(Some(copy_source(source)?)),
    }
}

/// Copies the source.
fn copy_source(source: &Source) -> Result<Source, AllocError>
    ensures { IfOk result (λ copy. copy ≡ source.now) }
{
    Ok(Source {
        revision: source.revision,
        path: source.path.clone()?,
    })
}
