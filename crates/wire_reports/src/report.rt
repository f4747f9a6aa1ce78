//! The commands of a report.
ghost use Rattle.std.specs.Prelude.{◌≡◌};
ghost use Rattle.items.specs.View.{value_of, values_of};
ghost use Rattle.wire_forms.specs.Answering.{Answers, Reads};
ghost use Rattle.wire_reports.specs.Reporting.{report_command, report_name, name_of, report_command_with, set_path, link_path, delete_path, reported_path};

use crate::depth_word::DepthWord;
use crate::parameters::{read_last_depth, read_token};
use byte_string::ByteString;
use items::Item;
use wire_forms::CommandFault::{self, BadParameters, UnknownName};
use wire_forms::{copy_optional, named, read_flag, read_form, read_number, read_string};

/// What a client has at a path: what stands at and under a path of the repository in a revision.
#[derive(Drop)]
pub struct ReportedPath {
    pub path: ByteString,
    pub revision: u64,
    /// Whether the client has nothing of what is in the directory.
    pub starts_empty: bool,
    /// The token of the lock that the client has there.
    pub token: Option<ByteString>,
    pub depth: Option<DepthWord>,
}

/// A command of a report, with its parameters. Paths are relative to the target, beneath the
/// session's URL.
#[derive(Drop)]
pub enum ReportCommand {
    /// At the path is what stands there in the repository:
    /// `( set-path ( path rev start-empty ? [ token ] ? depth ) )`.
    SetPath(ReportedPath),
    /// Nothing is at the path: `( delete-path ( path ) )`.
    DeletePath(ByteString),
    /// At the path is what stands at a URL:
    /// `( link-path ( path url rev start-empty ? [ token ] ? depth ) )`.
    LinkPath(ReportedPath, ByteString),
    /// The report is whole: `( finish-report ( ) )`.
    FinishReport,
    /// The report is given up: `( abort-report ( ) )`.
    AbortReport,
}

impl ReportCommand {
    /// Reads the command that an item is: `( name ( params ) )`. Items after the parameters that a command knows are
    /// ignored.
    pub fn from_item(item: &Item) -> Result<ReportCommand, CommandFault>
        ensures { Answers result (report_command (value_of item.now)) }
    {
        let (name, params) = read_form(item).ok_or(BadParameters)?;
        let name = report_name(name).ok_or(UnknownName)?;
        read_command(name, params)
    }
}

/// The name of a command of a report.
#[derive(Clone, Copy)]
pub enum ReportName {
    SetPath,
    DeletePath,
    LinkPath,
    FinishReport,
    AbortReport,
}

/// The names of the commands, as they are sent.
const REPORT_NAMES: [(&[u8], ReportName); 5] = [
    (b"set-path", ReportName::SetPath),
    (b"delete-path", ReportName::DeletePath),
    (b"link-path", ReportName::LinkPath),
    (b"finish-report", ReportName::FinishReport),
    (b"abort-report", ReportName::AbortReport),
];

/// Finds the command of a report that has this name.
fn report_name(name: &[u8]) -> Option<ReportName>
    ensures { result ≡ report_name name.now }
{
    named(&REPORT_NAMES, name)
}

/// Reads the name of a command, if it is one of a report's; `None` for an item that is not a command.
pub fn read_name(item: &Item) -> Option<Option<ReportName>>
    ensures { result ≡ name_of (value_of item.now) }
{
    let (name, _) = read_form(item)?;
    Some(report_name(name))
}

/// Reads the command of a name that is known.
fn read_command(name: ReportName, params: &[Item]) -> Result<ReportCommand, CommandFault>
    ensures { Reads result (report_command_with name (values_of params.now)) }
{
    match name {
        ReportName::SetPath => read_set_path(params),
        ReportName::DeletePath => read_delete_path(params),
        ReportName::LinkPath => read_link_path(params),
        ReportName::FinishReport => Ok(ReportCommand::FinishReport),
        ReportName::AbortReport => Ok(ReportCommand::AbortReport),
    }
}

/// Reads `( path rev start-empty ? [ token ] ? depth )`.
fn read_set_path(params: &[Item]) -> Result<ReportCommand, CommandFault>
    ensures { Reads result (set_path (values_of params.now)) }
{
    let (path, rest) = read_string(params).ok_or(BadParameters)?;
    Ok(ReportCommand::SetPath(read_reported_path(path, rest)?))
}

/// Reads `( path url rev start-empty ? [ token ] ? depth )`.
fn read_link_path(params: &[Item]) -> Result<ReportCommand, CommandFault>
    ensures { Reads result (link_path (values_of params.now)) }
{
    let (path, rest) = read_string(params).ok_or(BadParameters)?;
    let (url, rest) = read_string(rest).ok_or(BadParameters)?;
    let reported = read_reported_path(path, rest)?;
    Ok(ReportCommand::LinkPath(reported, url.clone()?))
}

/// Reads `( path )`.
fn read_delete_path(params: &[Item]) -> Result<ReportCommand, CommandFault>
    ensures { Reads result (delete_path (values_of params.now)) }
{
    let (path, _) = read_string(params).ok_or(BadParameters)?;
    Ok(ReportCommand::DeletePath(path.clone()?))
}

/// Reads `rev start-empty ? [ token ] ? depth`.
fn read_reported_path(path: &ByteString, items: &[Item]) -> Result<ReportedPath, CommandFault>
    ensures { Reads result (reported_path path.now (values_of items.now)) }
{
    let (revision, rest) = read_number(items).ok_or(BadParameters)?;
    let (starts_empty, rest) = read_flag(rest).ok_or(BadParameters)?;
    let (token, rest) = read_token(rest).ok_or(BadParameters)?;
    let depth = read_last_depth(rest).ok_or(BadParameters)?;
    Ok(ReportedPath {
        path: path.clone()?,
        revision,
        starts_empty,
        token: copy_optional(token)?,
        depth,
    })
}
