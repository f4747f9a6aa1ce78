//! Replies, as items and as bytes.
ghost use Rattle.std.specs.Prelude.{◌≡◌, ◌++◌, IfOk, IsOkAnd, OnOk, OnErr, codes};
ghost use Rattle.items.specs.{Print.{AppendsItem, WritesItem, printed}, Values.{both, list, more, none, only, string, word}, View.{value_of, values_of}};
ghost use Rattle.wire_replies.specs.Replies.{reply_item, success, failure, mechanism_trees, capabilities, uuid_text, commit_info, refusal_message};
ghost use Rattle.wire_replies.specs.Replies.{release_fault, replayed_properties};

use crate::build::{list_item, number_item, optional_string_item, string_item, word_item};
use crate::contents::TextPiece;
use crate::entries::{
    DirectoryInfo, FileInfo, NodeInfo, directory_info_item, file_info_item, stat_item,
};
use crate::failures::{FailureLinks, failures_item};
use crate::file_revisions::{FileRevision, file_revision_item};
use crate::histories::{LogEntry, location_item, log_entry_item, segment_item};
use crate::locks::{LockList, lock_item, locks_item};
use crate::numbers::uuid_text;
use crate::properties::properties_item;
use byte_string::ByteString;
use items::{Item, append_string, write_item};
use refusals::Refusal;
use repo_api::{Lock, NodeKind, Properties};
use std::alloc::{AllocError, Global};
use svnpath::Path;
use wire_edits::{EditorCommand, write_command};

/// The mechanisms of a login that a client may choose from.
#[derive(Clone, Copy, Debug, PartialEq, Eq)]
pub enum Offer {
    /// `ANONYMOUS` alone: a login without a name.
    Anonymous,
    /// `ANONYMOUS`, or `CRAM-MD5`: a login without a name, or of a user by its password.
    AnonymousOrUser,
    /// `CRAM-MD5` alone.
    User,
    /// `EXTERNAL` alone: a login as the account that the client came as.
    External,
}

/// What a client is told.
pub enum Reply {
    /// The versions and the capabilities of the server.
    Greeting,
    /// No login is wanted.
    NoLogin,
    /// A login by one of these mechanisms is wanted, to this realm.
    Login(Offer, ByteString),
    /// The mechanism is none of those that were offered.
    MechanismNotOffered,
    /// The challenge of a login by `CRAM-MD5`.
    Challenge(ByteString),
    /// The answer to the challenge is no user's.
    LoginFailed,
    /// It is done.
    Success,
    /// The repository's name among all repositories, and the URL of its root.
    ReposInfo(u128, ByteString),
    /// The number of a revision.
    Revision(u64),
    /// What stands at a path.
    Kind(NodeKind),
    /// The properties of a revision.
    Properties(Properties),
    /// The lock that was made, and where it stands.
    Lock(Path, Lock),
    /// The locks that were asked for, and where they stand.
    Locks(LockList),
    /// The number of the revision that a commit has made, its date, its author if it has one, and
    /// whether the release of its locks has failed.
    CommitInfo(u64, ByteString, Option<ByteString>, bool),
    /// A file without its text.
    FileInfo(FileInfo),
    /// A piece of a file's text, or the empty string that ends it.
    Piece(TextPiece),
    /// A directory with its entries.
    DirectoryInfo(DirectoryInfo),
    /// What is known of what stands at a path, if anything does.
    Stat(Option<NodeInfo>),
    /// The value of a property of a revision, if it has one.
    RevisionProperty(Option<ByteString>),
    /// A revision of a log.
    LogEntry(LogEntry),
    /// Where something was in a revision.
    Location(u64, Path),
    /// The path that something had from the one revision to the other, or that it was nowhere.
    Segment(u64, u64, Option<Path>),
    /// A revision of a file, without its text.
    FileRevision(FileRevision),
    /// The next bytes of a delta, or the empty string that ends it.
    Chunk(ByteString),
    /// A command of a drive, or of the edit of a revision that is replayed.
    Edit(EditorCommand),
    /// The properties of a revision that is replayed, before its edit.
    ReplayedProperties(Properties),
    /// The edit of a revision that is replayed has come to its end.
    FinishReplay,
    /// No further revision of a log or of a file comes, or no further location or segment.
    Done,
    /// The command is refused, and the path at which it is, if that is told.
    Failure(Refusal, Option<Path>),
    /// A failure of these links.
    Failures(FailureLinks),
}

impl Drop for Reply {
    fn drop(self) {
        match self {
            Reply::Greeting => {}
            Reply::NoLogin => {}
            Reply::Login(_, _) => {}
            Reply::MechanismNotOffered => {}
            Reply::Challenge(_) => {}
            Reply::LoginFailed => {}
            Reply::Success => {}
            Reply::ReposInfo(_, _) => {}
            Reply::Revision(_) => {}
            Reply::Kind(_) => {}
            Reply::Properties(_) => {}
            Reply::Lock(_, _) => {}
            Reply::Locks(_) => {}
            Reply::CommitInfo(_, _, _, _) => {}
            Reply::FileInfo(_) => {}
            Reply::Piece(_) => {}
            Reply::DirectoryInfo(_) => {}
            Reply::Stat(_) => {}
            Reply::RevisionProperty(_) => {}
            Reply::LogEntry(_) => {}
            Reply::Location(_, _) => {}
            Reply::Segment(_, _, _) => {}
            Reply::FileRevision(_) => {}
            Reply::Chunk(_) => {}
            Reply::Edit(_) => {}
            Reply::ReplayedProperties(_) => {}
            Reply::FinishReplay => {}
            Reply::Done => {}
            Reply::Failure(_, _) => {}
            Reply::Failures(_) => {}
        }
    }
}

impl Reply {
    /// Writes the reply at the end. An `Err` changes nothing.
    pub fn write(&self, alloc: Global, out: &mut Vec<u8>) -> Result<(), AllocError>
        ensures { WritesItem result out.old (reply_item self.now) out.new }
    {
        match self {
            Reply::Greeting => out.extend_from_slice(
                b"( success ( 2 2 ( ) ( edit-pipeline absent-entries commit-revprops depth \
                atomic-revprops ) ) ) ",
            ),
            Reply::NoLogin => out.extend_from_slice(b"( success ( ( ) 0: ) ) "),
            Reply::Login(offer, realm) => write_made(
                login_item(alloc, *offer, realm.as_slice()),
                out,
            ),
            Reply::MechanismNotOffered => out.extend_from_slice(
                b"( failure ( 21:mechanism not offered ) ) ",
            ),
            Reply::Challenge(text) => write_made(challenge_item(alloc, text.as_slice()), out),
            Reply::LoginFailed => out.extend_from_slice(b"( failure ( 12:login failed ) ) "),
            Reply::Success => out.extend_from_slice(b"( success ( ) ) "),
            Reply::ReposInfo(uuid, root) => write_made(
                repos_info_item(alloc, *uuid, root.as_slice()),
                out,
            ),
            Reply::Revision(n) => write_revision(*n, out),
            Reply::Kind(kind) => write_kind(*kind, out),
            Reply::Properties(properties) => write_made(
                success_of(alloc, properties_item(alloc, properties)),
                out,
            ),
            Reply::Lock(path, lock) => write_made(
                success_of(alloc, lock_item(alloc, path, lock)),
                out,
            ),
            Reply::Locks(locks) => write_made(success_of(alloc, locks_item(alloc, locks)), out),
            Reply::CommitInfo(revision, date, author, release_fails) => write_made(
                commit_info_item(alloc, *revision, date.as_slice(), author, *release_fails),
                out,
            ),
            Reply::FileInfo(info) => write_made(file_info_item(alloc, info), out),
            Reply::Piece(piece) => write_string(piece.as_slice(), out),
            Reply::DirectoryInfo(info) => write_made(directory_info_item(alloc, info), out),
            Reply::Stat(node) => write_made(success_of(alloc, stat_item(alloc, node)), out),
            Reply::RevisionProperty(value) => write_made(
                success_of(alloc, optional_string_item(alloc, value)),
                out,
            ),
            Reply::LogEntry(entry) => write_made(log_entry_item(alloc, entry), out),
            Reply::Location(revision, path) => write_made(
                location_item(alloc, *revision, path),
                out,
            ),
            Reply::Segment(first, last, path) => write_made(
                segment_item(alloc, *first, *last, path),
                out,
            ),
            Reply::FileRevision(told) => write_made(file_revision_item(alloc, told), out),
            Reply::Chunk(bytes) => write_string(bytes.as_slice(), out),
            Reply::Edit(command) => write_command(command, out),
            Reply::ReplayedProperties(properties) => write_made(
                replayed_properties_item(alloc, properties),
                out,
            ),
            Reply::FinishReplay => out.extend_from_slice(b"( finish-replay ( ) ) "),
            Reply::Done => out.extend_from_slice(b"done "),
            Reply::Failure(refusal, path) => write_made(refusal_item(alloc, *refusal, path), out),
            Reply::Failures(links) => write_made(failures_item(alloc, links), out),
        }
    }
}

/// Writes an item at the end, if it was made. An `Err` changes nothing.
pub(crate) fn write_made(
    made: Result<Item, AllocError>,
    out: &mut Vec<u8>,
) -> Result<(), AllocError>
    ensures ok { OnOk result (IsOkAnd made (λ item.
        out.new.items ≡ out.old.items ++ printed (value_of item))) }
    ensures err { OnErr result (out.new.items ≡ out.old.items) }
{
    write_item(&made?, out)
}

/// Writes the number of a revision at the end. An `Err` changes nothing.
fn write_revision(n: u64, out: &mut Vec<u8>) -> Result<(), AllocError>
    ensures { WritesItem result out.old (reply_item (Reply.Revision n)) out.new }
{
    let len = out.len();
    let written = append_revision(n, out);
    if written.is_err() {
        out.truncate(len);
    }
    written
}

// An `Err` leaves a part of the bytes behind the old ones.
fn append_revision(n: u64, out: &mut Vec<u8>) -> Result<(), AllocError>
    ensures { AppendsItem result out.old (reply_item (Reply.Revision n)) out.new }
{
    let mut buffer = itoa::Buffer::new();
    out.extend_from_slice(b"( success ( ")?;
    out.extend_from_slice(buffer.format(n).as_bytes())?;
    out.extend_from_slice(b" ) ) ")
}

/// Writes a string at the end. An `Err` changes nothing.
fn write_string(text: &[u8], out: &mut Vec<u8>) -> Result<(), AllocError>
    ensures { WritesItem result out.old (string text.now) out.new }
{
    let len = out.len();
    let written = append_string(text, out);
    if written.is_err() {
        out.truncate(len);
    }
    written
}

/// Writes what stands at a path at the end. An `Err` changes nothing.
fn write_kind(kind: NodeKind, out: &mut Vec<u8>) -> Result<(), AllocError>
    ensures { WritesItem result out.old (reply_item (Reply.Kind kind)) out.new }
{
    match kind {
        NodeKind::Absent => out.extend_from_slice(b"( success ( none ) ) "),
        NodeKind::File => out.extend_from_slice(b"( success ( file ) ) "),
        NodeKind::Directory => out.extend_from_slice(b"( success ( dir ) ) "),
    }
}

/// Makes `( success ( params ) )`.
fn success_item<const N: usize>(alloc: Global, params: [Item; N]) -> Result<Item, AllocError>
    ensures { IfOk result (λ item. value_of item ≡ success (values_of params.entry)) }
{
    let word = word_item(alloc, b"success")?;
    let params = list_item(alloc, params)?;
    list_item(alloc, [word, params])
}

/// Makes `( success ( param ) )`, if the parameter was made.
fn success_of(alloc: Global, param: Result<Item, AllocError>) -> Result<Item, AllocError>
    ensures { IfOk result (λ item. IsOkAnd param (λ made.
        value_of item ≡ success (only (value_of made)))) }
{
    success_item(alloc, [param?])
}

/// Makes `( revprops ( ( name value ) ... ) )`.
fn replayed_properties_item(alloc: Global, properties: &Properties) -> Result<Item, AllocError>
    ensures { IfOk result (λ item. value_of item ≡ replayed_properties properties.now) }
{
    let word = word_item(alloc, b"revprops")?;
    let properties = properties_item(alloc, properties)?;
    list_item(alloc, [word, properties])
}

/// Makes `( failure ( param ) )`.
fn failure_item(alloc: Global, param: Item) -> Result<Item, AllocError>
    ensures { IfOk result (λ item. value_of item ≡ failure (only (value_of param))) }
{
    let word = word_item(alloc, b"failure")?;
    let params = list_item(alloc, [param])?;
    list_item(alloc, [word, params])
}

/// Makes `( success ( ( mechanism ... ) realm ) )`.
fn login_item(alloc: Global, offer: Offer, realm: &[u8]) -> Result<Item, AllocError>
    ensures { IfOk result (λ item. value_of item
        ≡ success (both (list (mechanism_trees offer)) (string realm.now))) }
{
    let mechanisms = mechanisms_item(alloc, offer)?;
    let realm = string_item(alloc, realm)?;
    success_item(alloc, [mechanisms, realm])
}

/// Makes `( mechanism ... )`.
fn mechanisms_item(alloc: Global, offer: Offer) -> Result<Item, AllocError>
    ensures { IfOk result (λ item. value_of item ≡ list (mechanism_trees offer)) }
{
    match offer {
        Offer::Anonymous => list_item(alloc, [word_item(alloc, b"ANONYMOUS")?]),
        Offer::AnonymousOrUser => {
            let anonymous = word_item(alloc, b"ANONYMOUS")?;
            let user = word_item(alloc, b"CRAM-MD5")?;
            list_item(alloc, [anonymous, user])
        }
        Offer::User => list_item(alloc, [word_item(alloc, b"CRAM-MD5")?]),
        Offer::External => list_item(alloc, [word_item(alloc, b"EXTERNAL")?]),
    }
}

/// Makes `( step ( challenge ) )`.
fn challenge_item(alloc: Global, text: &[u8]) -> Result<Item, AllocError>
    ensures { IfOk result (λ item. value_of item
        ≡ list (both (word (codes "step")) (list (only (string text.now))))) }
{
    let word = word_item(alloc, b"step")?;
    let text = string_item(alloc, text)?;
    let params = list_item(alloc, [text])?;
    list_item(alloc, [word, params])
}

/// Makes `( success ( uuid root ( ) ) )`, whose list of capabilities is empty.
fn repos_info_item(alloc: Global, uuid: u128, root: &[u8]) -> Result<Item, AllocError>
    ensures { IfOk result (λ item. value_of item
        ≡ success (more (string (uuid_text uuid)) (both (string root.now) (list none)))) }
{
    let uuid = uuid_item(alloc, uuid)?;
    let root = string_item(alloc, root)?;
    let capabilities = list_item(alloc, [])?;
    success_item(alloc, [uuid, root, capabilities])
}

/// Makes a string item of a UUID, in lowercase and with its hyphens.
fn uuid_item(alloc: Global, uuid: u128) -> Result<Item, AllocError>
    ensures { IfOk result (λ item. value_of item ≡ string (uuid_text uuid)) }
{
    let text = uuid_text(alloc, uuid)?;
    string_item(alloc, text.as_slice())
}

/// Makes `( rev [ date ] [ author ] [ post-commit-err ] )`.
fn commit_info_item(
    alloc: Global,
    revision: u64,
    date: &[u8],
    author: &Option<ByteString>,
    release_fails: bool,
) -> Result<Item, AllocError>
    ensures { IfOk result (λ item. value_of item
        ≡ commit_info revision date.now author.now release_fails) }
{
    let date = string_item(alloc, date)?;
    let date = list_item(alloc, [date])?;
    let author = optional_string_item(alloc, author)?;
    let fault = release_fault_item(alloc, release_fails)?;
    list_item(alloc, [number_item(revision), date, author, fault])
}

/// Makes `[ post-commit-err ]`.
fn release_fault_item(alloc: Global, release_fails: bool) -> Result<Item, AllocError>
    ensures { IfOk result (λ item. value_of item ≡ list (release_fault release_fails)) }
{
    if release_fails {
        list_item(alloc, [string_item(alloc, Refusal::StoreFailed.text())?])
    } else {
        list_item(alloc, [])
    }
}

/// Makes the message of a refusal.
fn message_item(alloc: Global, refusal: Refusal, path: &Option<Path>) -> Result<Item, AllocError>
    ensures { IfOk result (λ item. value_of item ≡ string (refusal_message refusal path.now)) }
{
    match path {
        None => string_item(alloc, refusal.text()),
        Some(path) => {
            let mut message = Vec::from_slice(alloc, refusal.text())?;
            message.extend_from_slice(b": ")?;
            path.append_text(&mut message)?;
            Ok(Item::Str(ByteString::new(message)))
        }
    }
}

/// Makes `( failure ( ( number message file line ) ) )`, with an empty file and the line 0.
fn refusal_item(alloc: Global, refusal: Refusal, path: &Option<Path>) -> Result<Item, AllocError>
    ensures { IfOk result (λ item. value_of item ≡ reply_item (Reply.Failure refusal path.now)) }
{
    let message = message_item(alloc, refusal, path)?;
    let place = string_item(alloc, b"")?;
    let fault = list_item(
        alloc,
        [
            number_item(refusal.number()),
            message,
            place,
            number_item(0),
        ],
    )?;
    failure_item(alloc, fault)
}
