//! The main commands.
ghost use Rattle.items.specs.View.{value_of, values_of};
ghost use Rattle.std.specs.Prelude.{◌≡◌, option_map};
ghost use Rattle.wire_forms.specs.Answering.{Answers, Reads};
ghost use Rattle.commands.specs.Commands.{main_command, main_command_name, main_command_with, check_path, rev_proplist, locks_first, properties_at_end, commit};
ghost use Rattle.commands.specs.Commands.{lock, unlock, get_lock, get_locks, path_first, get_file, get_dir, has_fields, stat, get_dated_rev, rev_prop};
ghost use Rattle.commands.specs.Commands.{change_rev_prop, change_rev_prop2, previous_value, reparent, limit_at_end, log_command, get_locations};
ghost use Rattle.commands.specs.Commands.{get_deleted_rev, get_file_revs, get_location_segments, merged_at_end, name_of_today, replay, replay_range};

use crate::login::are_words;
use byte_string::ByteString;
use items::Item;
use repo_api::{PreviousValue, PropertyAsk};
use std::alloc::Global;
use wire_forms::CommandFault::{self, BadParameters, UnknownName};
use wire_forms::{
    Numbers, Pairs, Strings, copy_optional, named, read_boolean, read_flag, read_form, read_items,
    read_list, read_number, read_numbers, read_optional_number, read_optional_string, read_pairs,
    read_revision, read_string, read_strings,
};
use wire_reports::{DiffRequest, DriveRequest, read_diff, read_status, read_switch, read_update};

/// What a `commit` hands in.
#[derive(Drop)]
pub struct CommitCommand {
    /// The message.
    pub message: ByteString,
    /// Paths, each with the token of the lock that stands there.
    pub tokens: Pairs,
    /// Whether the locks stay after the commit.
    pub keep_locks: bool,
    /// The properties of the new revision by their names, if the client sends them.
    pub properties: Option<Pairs>,
}

/// What a `lock` asks for.
#[derive(Drop)]
pub struct LockCommand {
    pub path: ByteString,
    /// What the owner says of the lock, if anything.
    pub comment: Option<ByteString>,
    /// Whether it takes the place of a lock that stands there.
    pub steals: bool,
    /// The revision at which the client has seen the file, if it says so.
    pub current: Option<u64>,
}

/// What an `unlock` asks for.
#[derive(Drop)]
pub struct UnlockCommand {
    pub path: ByteString,
    /// The lock's token, if the client has it.
    pub token: Option<ByteString>,
    /// Whether the lock is taken away whose ever it is.
    pub breaks: bool,
}

/// What a `get-file` asks for.
#[derive(Drop)]
pub struct GetFileCommand {
    pub path: ByteString,
    /// The revision, or `None` for the youngest.
    pub revision: Option<u64>,
    /// Whether the file's properties are to be told.
    pub wants_properties: bool,
    /// Whether the file's text is to be sent.
    pub wants_contents: bool,
}

/// What a `get-dir` asks for.
#[derive(Drop)]
pub struct GetDirCommand {
    pub path: ByteString,
    /// The revision, or `None` for the youngest.
    pub revision: Option<u64>,
    /// Whether the directory's properties are to be told.
    pub wants_properties: bool,
    /// Whether the directory's entries are to be told.
    pub wants_contents: bool,
}

/// What a `log` asks for.
#[derive(Drop)]
pub struct LogCommand {
    /// The paths, none for the whole repository.
    pub paths: Strings,
    /// The revision that comes first, or `None` for the youngest.
    pub start: Option<u64>,
    /// The revision that comes last, or `None` for the youngest.
    pub end: Option<u64>,
    /// Whether the changes of each revision are to be told.
    pub wants_changes: bool,
    /// Whether the log ends where a copy brought a path.
    pub strict: bool,
    /// The most revisions, 0 for all.
    pub limit: u64,
}

/// What a `get-locations` asks for.
#[derive(Drop)]
pub struct GetLocationsCommand {
    pub path: ByteString,
    /// The revision in which the path is meant.
    pub peg: u64,
    /// The revisions in which it is looked for.
    pub revisions: Numbers,
}

/// What a `get-location-segments` asks for.
#[derive(Drop)]
pub struct GetLocationSegmentsCommand {
    pub path: ByteString,
    /// The revision in which the path is meant, or `None` for the youngest.
    pub peg: Option<u64>,
    /// The newest revision of the segments, or `None` for the youngest.
    pub start: Option<u64>,
    /// The oldest revision of the segments, or `None` for revision 0.
    pub end: Option<u64>,
}

/// What a `get-deleted-rev` asks for.
#[derive(Drop)]
pub struct GetDeletedRevCommand {
    pub path: ByteString,
    /// The revisions between which it was taken away, in either order.
    pub peg: u64,
    pub end: u64,
}

/// What a `get-file-revs` asks for.
#[derive(Drop)]
pub struct GetFileRevsCommand {
    pub path: ByteString,
    /// The revision that comes first, or `None` for the youngest.
    pub start: Option<u64>,
    /// The revision that comes last, or `None` for the youngest.
    pub end: Option<u64>,
    /// Whether the revisions that were merged into the file are to be sent too.
    pub wants_merged: bool,
}

/// What a `replay` asks for.
#[derive(Drop)]
pub struct ReplayCommand {
    pub revision: u64,
    /// The revision below which the client has nothing.
    pub low: u64,
    /// Whether texts and the values of properties are to be sent.
    pub sends_deltas: bool,
}

/// What a `replay-range` asks for.
#[derive(Drop)]
pub struct ReplayRangeCommand {
    /// The revision that comes first.
    pub start: u64,
    /// The revision that comes last.
    pub end: u64,
    /// The revision below which the client has nothing.
    pub low: u64,
    /// Whether texts and the values of properties are to be sent.
    pub sends_deltas: bool,
}

/// A command of clients of today alone that reads the history of a path or of the repository, with its parameters.
#[derive(Drop)]
pub enum HistoryCommand {
    /// Where something was, stretch by stretch: `( get-location-segments ( path [ peg ] [ start ] [ end ] ) )`.
    GetLocationSegments(GetLocationSegmentsCommand),
    /// In which revision something was taken away: `( get-deleted-rev ( path peg end ) )`.
    GetDeletedRev(GetDeletedRevCommand),
    /// The revisions of a file with their texts: `( get-file-revs ( path [ start ] [ end ] ? include-merged ) )`.
    GetFileRevs(GetFileRevsCommand),
    /// What a revision did, as an edit: `( replay ( rev low-water-mark send-deltas ) )`.
    Replay(ReplayCommand),
    /// What revisions did, one after another: `( replay-range ( start end low-water-mark send-deltas ) )`.
    ReplayRange(ReplayRangeCommand),
}

/// A command that only reads the repository, with its parameters.
#[derive(Drop)]
pub enum ReadCommand {
    /// The number of the youngest revision: `( get-latest-rev ( ) )`.
    GetLatestRev,
    /// What stands at a path, in a revision or the youngest: `( check-path ( path [ rev ] ) )`.
    CheckPath(ByteString, Option<u64>),
    /// The properties of a revision: `( rev-proplist ( rev ) )`.
    RevProplist(u64),
    /// The lock at a path, if there is one: `( get-lock ( path ) )`.
    GetLock(ByteString),
    /// The locks at a path and under it: `( get-locks ( path ) )`.
    GetLocks(ByteString),
    /// A file, in a revision or the youngest:
    /// `( get-file ( path [ rev ] want-props want-contents ) )`.
    GetFile(GetFileCommand),
    /// A directory, in a revision or the youngest:
    /// `( get-dir ( path [ rev ] want-props want-contents ? ( field ... ) ) )`.
    GetDir(GetDirCommand),
    /// What is known of a path's entry, in a revision or the youngest: `( stat ( path [ rev ] ) )`.
    Stat(ByteString, Option<u64>),
    /// The number of the youngest revision up to a date: `( get-dated-rev ( date ) )`.
    GetDatedRev(ByteString),
    /// One property of a revision: `( rev-prop ( rev name ) )`.
    RevProp(u64, ByteString),
    /// The revisions that changed paths:
    /// `( log ( ( path ... ) [ start ] [ end ] changed-paths strict-node ? limit ) )`.
    Log(LogCommand),
    /// Where something was in other revisions: `( get-locations ( path peg-rev ( rev ... ) ) )`.
    GetLocations(GetLocationsCommand),
    /// Reads the history of a path or of the repository for a client of today.
    History(HistoryCommand),
}

/// A command that begins a report of what the client has, which a drive answers.
#[derive(Drop)]
pub enum DriveCommand {
    /// What leads from what the client has to a revision:
    /// `( update ( [ rev ] target recurse ? depth send-copyfrom ignore-ancestry ) )`.
    Update(DriveRequest),
    /// What leads from what the client has to what stands at another URL:
    /// `( switch ( [ rev ] target recurse url ? depth send-copyfrom ignore-ancestry ) )`.
    Switch(DriveRequest, ByteString),
    /// What an update would bring, without the texts:
    /// `( status ( target recurse ? [ rev ] ? depth ) )`.
    Status(DriveRequest),
    /// What leads from what the client has to what exists at another URL, by what entries are and not by when they were
    /// changed, for a client of today:
    /// `( diff ( [ rev ] target recurse ignore-ancestry url ? text-deltas ? depth ) )`.
    Diff(DiffRequest),
}

/// A command outside an edit or a report, with its parameters.
#[derive(Drop)]
pub enum MainCommand {
    /// Reads the repository.
    Read(ReadCommand),
    /// Begins a report.
    Drive(DriveCommand),
    /// Begins an edit:
    /// `( commit ( message ? ( ( path token ) ... ) keep-locks ? ( ( name value ) ... ) ) )`.
    Commit(CommitCommand),
    /// What a client sends after a commit that failed: `( abort-edit ( ) )`.
    AbortEdit,
    /// Locks a file: `( lock ( path [ comment ] steal [ current-rev ] ) )`.
    Lock(LockCommand),
    /// Takes a lock away: `( unlock ( path [ token ] break ) )`.
    Unlock(UnlockCommand),
    /// Sets a property of a revision, or takes it out: `( change-rev-prop ( rev name ? value ) )`, or where
    /// it has the value that the client has seen,
    /// `( change-rev-prop2 ( rev name [ value ] ( dont-care ? previous ) ) )`.
    ChangeRevProp(PropertyAsk),
    /// Goes on at another URL of the same repository: `( reparent ( url ) )`.
    Reparent(ByteString),
}

impl MainCommand {
    /// Reads the command that an item is, of a client of today or of another, to which some commands are unknown.
    pub fn from_item(
        alloc: Global,
        is_of_today: bool,
        item: &Item,
    ) -> Result<MainCommand, CommandFault>
        ensures { Answers result (main_command is_of_today (value_of item.now)) }
    {
        let (name, params) = read_form(item).ok_or(BadParameters)?;
        let name = main_command_name(is_of_today, name).ok_or(UnknownName)?;
        read_command(alloc, name, params)
    }
}

/// The name of a command outside an edit or a report.
#[derive(Clone, Copy)]
pub enum CommandName {
    GetLatestRev,
    CheckPath,
    RevProplist,
    Commit,
    AbortEdit,
    Lock,
    Unlock,
    GetLock,
    GetLocks,
    GetFile,
    GetDir,
    Stat,
    GetDatedRev,
    RevProp,
    ChangeRevProp,
    ChangeRevProp2,
    Reparent,
    Log,
    GetLocations,
    GetLocationSegments,
    GetDeletedRev,
    GetFileRevs,
    Replay,
    ReplayRange,
    Update,
    Switch,
    Status,
    Diff,
}

/// The names of the commands, as any client sends them.
const COMMAND_NAMES: [(&[u8], CommandName); 22] = [
    (b"get-latest-rev", CommandName::GetLatestRev),
    (b"check-path", CommandName::CheckPath),
    (b"rev-proplist", CommandName::RevProplist),
    (b"commit", CommandName::Commit),
    (b"abort-edit", CommandName::AbortEdit),
    (b"lock", CommandName::Lock),
    (b"unlock", CommandName::Unlock),
    (b"get-lock", CommandName::GetLock),
    (b"get-locks", CommandName::GetLocks),
    (b"get-file", CommandName::GetFile),
    (b"get-dir", CommandName::GetDir),
    (b"stat", CommandName::Stat),
    (b"get-dated-rev", CommandName::GetDatedRev),
    (b"rev-prop", CommandName::RevProp),
    (b"change-rev-prop", CommandName::ChangeRevProp),
    (b"change-rev-prop2", CommandName::ChangeRevProp2),
    (b"reparent", CommandName::Reparent),
    (b"log", CommandName::Log),
    (b"get-locations", CommandName::GetLocations),
    (b"update", CommandName::Update),
    (b"switch", CommandName::Switch),
    (b"status", CommandName::Status),
];

/// The names of those that clients of today alone send.
const NAMES_OF_TODAY: [(&[u8], CommandName); 6] = [
    (b"get-location-segments", CommandName::GetLocationSegments),
    (b"get-deleted-rev", CommandName::GetDeletedRev),
    (b"get-file-revs", CommandName::GetFileRevs),
    (b"replay", CommandName::Replay),
    (b"replay-range", CommandName::ReplayRange),
    (b"diff", CommandName::Diff),
];

/// Finds the command of this name that clients of today alone send, for a client of today or for another.
fn name_of_today(is_of_today: bool, name: &[u8]) -> Option<CommandName>
    ensures { result ≡ name_of_today is_of_today name.now }
{
    if is_of_today {
        named(&NAMES_OF_TODAY, name)
    } else {
        None
    }
}

/// Finds the command that has this name, for a client of today or for another.
fn main_command_name(is_of_today: bool, name: &[u8]) -> Option<CommandName>
    ensures { result ≡ main_command_name is_of_today name.now }
{
    match named(&COMMAND_NAMES, name) {
        Some(known) => Some(known),
        None => name_of_today(is_of_today, name),
    }
}

/// Reads the command of a name that is known.
fn read_command(
    alloc: Global,
    name: CommandName,
    params: &[Item],
) -> Result<MainCommand, CommandFault>
    ensures { Reads result (main_command_with name (values_of params.now)) }
{
    match name {
        CommandName::GetLatestRev => Ok(MainCommand::Read(ReadCommand::GetLatestRev)),
        CommandName::CheckPath => read_check_path(params),
        CommandName::RevProplist => read_rev_proplist(params),
        CommandName::Commit => read_commit(alloc, params),
        CommandName::AbortEdit => Ok(MainCommand::AbortEdit),
        CommandName::Lock => read_lock(params),
        CommandName::Unlock => read_unlock(params),
        CommandName::GetLock => read_get_lock(params),
        CommandName::GetLocks => read_get_locks(params),
        CommandName::GetFile => read_get_file(params),
        CommandName::GetDir => read_get_dir(params),
        CommandName::Stat => read_stat(params),
        CommandName::GetDatedRev => read_get_dated_rev(params),
        CommandName::RevProp => read_rev_prop(params),
        CommandName::ChangeRevProp => read_change_rev_prop(params),
        CommandName::ChangeRevProp2 => read_change_rev_prop2(params),
        CommandName::Reparent => read_reparent(params),
        CommandName::Log => read_log(alloc, params),
        CommandName::GetLocations => read_get_locations(alloc, params),
        CommandName::GetLocationSegments => read_get_location_segments(params),
        CommandName::GetDeletedRev => read_get_deleted_rev(params),
        CommandName::GetFileRevs => read_get_file_revs(params),
        CommandName::Replay => read_replay(params),
        CommandName::ReplayRange => read_replay_range(params),
        CommandName::Update => Ok(MainCommand::Drive(DriveCommand::Update(read_update(params)?))),
        CommandName::Switch => {
            let (request, url) = read_switch(params)?;
            Ok(MainCommand::Drive(DriveCommand::Switch(request, url)))
        }
        CommandName::Status => Ok(MainCommand::Drive(DriveCommand::Status(read_status(params)?))),
        CommandName::Diff => Ok(MainCommand::Drive(DriveCommand::Diff(read_diff(params)?))),
    }
}

/// Reads `( path [ rev ] )`.
fn read_check_path(params: &[Item]) -> Result<MainCommand, CommandFault>
    ensures { Reads result (check_path (values_of params.now)) }
{
    let (path, rest) = read_string(params).ok_or(BadParameters)?;
    let (revision, _) = read_list(rest).ok_or(BadParameters)?;
    let revision = read_optional_number(revision).ok_or(BadParameters)?;
    Ok(MainCommand::Read(ReadCommand::CheckPath(path.clone()?, revision)))
}

/// Reads `( rev )`.
fn read_rev_proplist(params: &[Item]) -> Result<MainCommand, CommandFault>
    ensures { Reads result (rev_proplist (values_of params.now)) }
{
    let (revision, _) = read_number(params).ok_or(BadParameters)?;
    Ok(MainCommand::Read(ReadCommand::RevProplist(revision)))
}

/// Reads `( message ? ( ( path token ) ... ) keep-locks ? ( ( name value ) ... ) )`.
fn read_commit(alloc: Global, params: &[Item]) -> Result<MainCommand, CommandFault>
    ensures { Reads result (commit (values_of params.now)) }
{
    let (message, rest) = read_string(params).ok_or(BadParameters)?;
    let (tokens, keep_locks, rest) = read_locks(rest).ok_or(BadParameters)?;
    Ok(MainCommand::Commit(CommitCommand {
        message: message.clone()?,
        tokens: read_pairs(alloc, tokens)?,
        keep_locks,
        properties: read_properties(alloc, rest)?,
    }))
}

/// Reads `? ( ( path token ) ... ) keep-locks`: what is in the list, whether the locks stay, and what comes after them.
fn read_locks(items: &[Item]) -> Option<(&[Item], bool, &[Item])>
    ensures { option_map (λ p. (values_of p.0.now, p.1, values_of p.2.now)) result
        ≡ locks_first (values_of items.now) }
{
    let Some((tokens, rest)) = items.split_first() else {
        return Some((items, true, items));
    };
    let (keep_locks, rest) = read_flag(rest)?;
    Some((read_items(tokens)?, keep_locks, rest))
}

/// Reads `? ( ( name value ) ... )`.
fn read_properties(alloc: Global, items: &[Item]) -> Result<Option<Pairs>, CommandFault>
    ensures { Reads result (properties_at_end (values_of items.now)) }
{
    match items {
        [] => Ok(None),
        [Item::List(properties), ..] => Ok(Some(read_pairs(alloc, properties.as_slice())?)),
        _ => Err(BadParameters),
    }
}

/// Reads `( path [ comment ] steal [ current-rev ] )`.
fn read_lock(params: &[Item]) -> Result<MainCommand, CommandFault>
    ensures { Reads result (lock (values_of params.now)) }
{
    let (path, rest) = read_string(params).ok_or(BadParameters)?;
    let (comment, rest) = read_list(rest).ok_or(BadParameters)?;
    let comment = read_optional_string(comment).ok_or(BadParameters)?;
    let (steals, rest) = read_flag(rest).ok_or(BadParameters)?;
    let (current, _) = read_list(rest).ok_or(BadParameters)?;
    let current = read_optional_number(current).ok_or(BadParameters)?;
    Ok(MainCommand::Lock(LockCommand {
        path: path.clone()?,
        comment: copy_optional(comment)?,
        steals,
        current,
    }))
}

/// Reads `( path [ token ] break )`.
fn read_unlock(params: &[Item]) -> Result<MainCommand, CommandFault>
    ensures { Reads result (unlock (values_of params.now)) }
{
    let (path, rest) = read_string(params).ok_or(BadParameters)?;
    let (token, rest) = read_list(rest).ok_or(BadParameters)?;
    let token = read_optional_string(token).ok_or(BadParameters)?;
    let (breaks, _) = read_flag(rest).ok_or(BadParameters)?;
    Ok(MainCommand::Unlock(UnlockCommand {
        path: path.clone()?,
        token: copy_optional(token)?,
        breaks,
    }))
}

/// Reads `( path )`.
fn read_get_lock(params: &[Item]) -> Result<MainCommand, CommandFault>
    ensures { Reads result (get_lock (values_of params.now)) }
{
    let (path, _) = read_string(params).ok_or(BadParameters)?;
    Ok(MainCommand::Read(ReadCommand::GetLock(path.clone()?)))
}

/// Reads `( path )`.
fn read_get_locks(params: &[Item]) -> Result<MainCommand, CommandFault>
    ensures { Reads result (get_locks (values_of params.now)) }
{
    let (path, _) = read_string(params).ok_or(BadParameters)?;
    Ok(MainCommand::Read(ReadCommand::GetLocks(path.clone()?)))
}

/// Reads `path [ rev ]` in front, and gives what comes after it too.
fn read_path(items: &[Item]) -> Option<(&ByteString, Option<u64>, &[Item])>
    ensures { option_map (λ p. (p.0.now, p.1, values_of p.2.now)) result
        ≡ path_first (values_of items.now) }
{
    let (path, rest) = read_string(items)?;
    let (revision, rest) = read_list(rest)?;
    Some((path, read_optional_number(revision)?, rest))
}

/// Reads `( path [ rev ] want-props want-contents )`.
fn read_get_file(params: &[Item]) -> Result<MainCommand, CommandFault>
    ensures { Reads result (get_file (values_of params.now)) }
{
    let (path, revision, rest) = read_path(params).ok_or(BadParameters)?;
    let (wants_properties, rest) = read_flag(rest).ok_or(BadParameters)?;
    let (wants_contents, _) = read_flag(rest).ok_or(BadParameters)?;
    Ok(MainCommand::Read(ReadCommand::GetFile(GetFileCommand {
        path: path.clone()?,
        revision,
        wants_properties,
        wants_contents,
    })))
}

/// Reads `( path [ rev ] want-props want-contents ? ( field ... ) )`.
fn read_get_dir(params: &[Item]) -> Result<MainCommand, CommandFault>
    ensures { Reads result (get_dir (values_of params.now)) }
{
    let (path, revision, rest) = read_path(params).ok_or(BadParameters)?;
    let (wants_properties, rest) = read_flag(rest).ok_or(BadParameters)?;
    let (wants_contents, rest) = read_flag(rest).ok_or(BadParameters)?;
    if !has_fields(rest) {
        return Err(BadParameters);
    }
    Ok(MainCommand::Read(ReadCommand::GetDir(GetDirCommand {
        path: path.clone()?,
        revision,
        wants_properties,
        wants_contents,
    })))
}

/// Says whether the items are `? ( field ... )`: nothing, or a list of words.
fn has_fields(items: &[Item]) -> bool
    ensures { result ≡ has_fields (values_of items.now) }
{
    match items {
        [] => true,
        [Item::List(fields), ..] => are_words(fields.as_slice()),
        _ => false,
    }
}

/// Reads `( path [ rev ] )`.
fn read_stat(params: &[Item]) -> Result<MainCommand, CommandFault>
    ensures { Reads result (stat (values_of params.now)) }
{
    let (path, revision, _) = read_path(params).ok_or(BadParameters)?;
    Ok(MainCommand::Read(ReadCommand::Stat(path.clone()?, revision)))
}

/// Reads `( date )`.
fn read_get_dated_rev(params: &[Item]) -> Result<MainCommand, CommandFault>
    ensures { Reads result (get_dated_rev (values_of params.now)) }
{
    let (date, _) = read_string(params).ok_or(BadParameters)?;
    Ok(MainCommand::Read(ReadCommand::GetDatedRev(date.clone()?)))
}

/// Reads `( rev name )`.
fn read_rev_prop(params: &[Item]) -> Result<MainCommand, CommandFault>
    ensures { Reads result (rev_prop (values_of params.now)) }
{
    let (revision, rest) = read_number(params).ok_or(BadParameters)?;
    let (name, _) = read_string(rest).ok_or(BadParameters)?;
    Ok(MainCommand::Read(ReadCommand::RevProp(revision, name.clone()?)))
}

/// Reads `( rev name ? value )`.
fn read_change_rev_prop(params: &[Item]) -> Result<MainCommand, CommandFault>
    ensures { Reads result (change_rev_prop (values_of params.now)) }
{
    let (revision, rest) = read_number(params).ok_or(BadParameters)?;
    let (name, rest) = read_string(rest).ok_or(BadParameters)?;
    let value = read_optional_string(rest).ok_or(BadParameters)?;
    Ok(MainCommand::ChangeRevProp(PropertyAsk {
        revision,
        name: name.clone()?,
        value: copy_optional(value)?,
        previous: PreviousValue::Any,
    }))
}

/// Reads `( rev name [ value ] ( dont-care ? previous ) )`.
fn read_change_rev_prop2(params: &[Item]) -> Result<MainCommand, CommandFault>
    ensures { Reads result (change_rev_prop2 (values_of params.now)) }
{
    let (revision, rest) = read_number(params).ok_or(BadParameters)?;
    let (name, rest) = read_string(rest).ok_or(BadParameters)?;
    let (value, rest) = read_list(rest).ok_or(BadParameters)?;
    let value = read_optional_string(value).ok_or(BadParameters)?;
    let (previous, _) = read_list(rest).ok_or(BadParameters)?;
    Ok(MainCommand::ChangeRevProp(PropertyAsk {
        revision,
        name: name.clone()?,
        value: copy_optional(value)?,
        previous: read_previous_value(previous)?,
    }))
}

/// Reads `dont-care ? previous`.
fn read_previous_value(items: &[Item]) -> Result<PreviousValue, CommandFault>
    ensures { Reads result (previous_value (values_of items.now)) }
{
    let (any, rest) = read_flag(items).ok_or(BadParameters)?;
    let previous = read_optional_string(rest).ok_or(BadParameters)?;
    if any {
        Ok(PreviousValue::Any)
    } else {
        Ok(PreviousValue::Exactly(copy_optional(previous)?))
    }
}

/// Reads `( url )`.
fn read_reparent(params: &[Item]) -> Result<MainCommand, CommandFault>
    ensures { Reads result (reparent (values_of params.now)) }
{
    let (url, _) = read_string(params).ok_or(BadParameters)?;
    Ok(MainCommand::Reparent(url.clone()?))
}

/// Reads `? limit`: 0 where there is none.
fn read_limit(items: &[Item]) -> Option<u64>
    ensures { result ≡ limit_at_end (values_of items.now) }
{
    match items {
        [] => Some(0),
        [Item::Number(limit), ..] => Some(*limit),
        _ => None,
    }
}

/// Reads `( ( path ... ) [ start ] [ end ] changed-paths strict-node ? limit )`.
fn read_log(alloc: Global, params: &[Item]) -> Result<MainCommand, CommandFault>
    ensures { Reads result (log_command (values_of params.now)) }
{
    let (paths, rest) = read_list(params).ok_or(BadParameters)?;
    let (start, rest) = read_revision(rest).ok_or(BadParameters)?;
    let (end, rest) = read_revision(rest).ok_or(BadParameters)?;
    let (wants_changes, rest) = read_flag(rest).ok_or(BadParameters)?;
    let (strict, rest) = read_flag(rest).ok_or(BadParameters)?;
    let limit = read_limit(rest).ok_or(BadParameters)?;
    Ok(MainCommand::Read(ReadCommand::Log(LogCommand {
        paths: read_strings(alloc, paths)?,
        start,
        end,
        wants_changes,
        strict,
        limit,
    })))
}

/// Reads `( path peg-rev ( rev ... ) )`.
fn read_get_locations(alloc: Global, params: &[Item]) -> Result<MainCommand, CommandFault>
    ensures { Reads result (get_locations (values_of params.now)) }
{
    let (path, rest) = read_string(params).ok_or(BadParameters)?;
    let (peg, rest) = read_number(rest).ok_or(BadParameters)?;
    let (revisions, _) = read_list(rest).ok_or(BadParameters)?;
    Ok(MainCommand::Read(ReadCommand::GetLocations(GetLocationsCommand {
        path: path.clone()?,
        peg,
        revisions: read_numbers(alloc, revisions)?,
    })))
}

/// Reads `( path [ peg ] [ start ] [ end ] )`.
fn read_get_location_segments(params: &[Item]) -> Result<MainCommand, CommandFault>
    ensures { Reads result (get_location_segments (values_of params.now)) }
{
    let (path, rest) = read_string(params).ok_or(BadParameters)?;
    let (peg, rest) = read_revision(rest).ok_or(BadParameters)?;
    let (start, rest) = read_revision(rest).ok_or(BadParameters)?;
    let (end, _) = read_revision(rest).ok_or(BadParameters)?;
    Ok(MainCommand::Read(ReadCommand::History(HistoryCommand::GetLocationSegments(
        GetLocationSegmentsCommand {
            path: path.clone()?,
            peg,
            start,
            end,
        },
    ))))
}

/// Reads `( path peg end )`.
fn read_get_deleted_rev(params: &[Item]) -> Result<MainCommand, CommandFault>
    ensures { Reads result (get_deleted_rev (values_of params.now)) }
{
    let (path, rest) = read_string(params).ok_or(BadParameters)?;
    let (peg, rest) = read_number(rest).ok_or(BadParameters)?;
    let (end, _) = read_number(rest).ok_or(BadParameters)?;
    Ok(MainCommand::Read(ReadCommand::History(HistoryCommand::GetDeletedRev(
        GetDeletedRevCommand {
            path: path.clone()?,
            peg,
            end,
        },
    ))))
}

/// Reads `? include-merged`: false where there is none.
fn read_merged(items: &[Item]) -> Option<bool>
    ensures { result ≡ merged_at_end (values_of items.now) }
{
    match items {
        [] => Some(false),
        [merged, ..] => read_boolean(merged),
    }
}

/// Reads `( path [ start ] [ end ] ? include-merged )`.
fn read_get_file_revs(params: &[Item]) -> Result<MainCommand, CommandFault>
    ensures { Reads result (get_file_revs (values_of params.now)) }
{
    let (path, rest) = read_string(params).ok_or(BadParameters)?;
    let (start, rest) = read_revision(rest).ok_or(BadParameters)?;
    let (end, rest) = read_revision(rest).ok_or(BadParameters)?;
    let wants_merged = read_merged(rest).ok_or(BadParameters)?;
    Ok(MainCommand::Read(ReadCommand::History(HistoryCommand::GetFileRevs(GetFileRevsCommand {
        path: path.clone()?,
        start,
        end,
        wants_merged,
    }))))
}

/// Reads `( rev low-water-mark send-deltas )`.
fn read_replay(params: &[Item]) -> Result<MainCommand, CommandFault>
    ensures { Reads result (replay (values_of params.now)) }
{
    let (revision, rest) = read_number(params).ok_or(BadParameters)?;
    let (low, rest) = read_number(rest).ok_or(BadParameters)?;
    let (sends_deltas, _) = read_flag(rest).ok_or(BadParameters)?;
    let command = ReplayCommand {
        revision,
        low,
        sends_deltas,
    };
    Ok(MainCommand::Read(ReadCommand::History(HistoryCommand::Replay(command))))
}

/// Reads `( start end low-water-mark send-deltas )`.
fn read_replay_range(params: &[Item]) -> Result<MainCommand, CommandFault>
    ensures { Reads result (replay_range (values_of params.now)) }
{
    let (start, rest) = read_number(params).ok_or(BadParameters)?;
    let (end, rest) = read_number(rest).ok_or(BadParameters)?;
    let (low, rest) = read_number(rest).ok_or(BadParameters)?;
    let (sends_deltas, _) = read_flag(rest).ok_or(BadParameters)?;
    let command = ReplayRangeCommand {
        start,
        end,
        low,
        sends_deltas,
    };
    Ok(MainCommand::Read(ReadCommand::History(HistoryCommand::ReplayRange(command))))
}
