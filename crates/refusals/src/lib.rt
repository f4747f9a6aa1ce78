//! Why a command is refused: the numbers are Subversion's, the texts are this server's own.
#![tactic(auto)]

mod fault;
mod refusing;

ghost use Rattle.std.specs.Prelude.{◌≡◌};
ghost use Rattle.refusals.specs.Table.{refusal_number, refusal_text, says_path};

pub use fault::{NotDone, NotDoneAt};
pub use refusing::path_refusal;

/// Why a command is refused.
#[derive(Clone, Copy, Debug, PartialEq, Eq)]
pub enum Refusal {
    /// The value is no date that clients can read.
    NotADate,
    /// What is at the path was not deleted between the revisions.
    NotDeleted,
    /// The files could not be written.
    StoreFailed,
    /// The path or URL is none.
    BadPath,
    /// The revision is above the youngest.
    NoSuchRevision,
    /// Nothing stands at the path.
    NotFound,
    /// A file stands where a directory is asked.
    NotADirectory,
    /// A directory stands where a file is asked.
    NotAFile,
    /// Something stands at the path already.
    AlreadyExists,
    /// Others changed what the transaction changed.
    Conflict,
    /// The entry has changed since the revision that was named.
    OutOfDate,
    /// The session has no user.
    NoUser,
    /// A lock stands at the path.
    AlreadyLocked,
    /// The lock's token was not handed in.
    BadLockToken,
    /// The lock is another user's.
    NotTheLockOwner,
    /// No lock stands at the path.
    NoSuchLock,
    /// The entry has changed since the revision at which it was to be locked.
    LockOutOfDate,
    /// The property had another value.
    PreviousValueDiffers,
    /// This server does not change revision properties.
    RevisionPropertiesClosed,
    /// Reserved.
    NotAuthorized,
    /// The text delta breaks its format.
    BadSvndiff,
    /// This server does not do it, or it passes a limit.
    NotSupported,
    /// The text has another digest.
    ChecksumMismatch,
    /// No command has that name.
    UnknownCommand,
    /// The bytes are no command, or come out of place.
    MalformedData,
    /// The URL names another repository.
    NoSuchRepository,
    /// The edit was given up.
    EditAborted,
}

impl Refusal {
    /// Gives the number that the client is sent, as Subversion numbers its errors.
    pub fn number(self) -> u64
        ensures { result ≡ refusal_number self }
    {
        match self {
            Refusal::NotADate => 125005,
            Refusal::NotDeleted => 150003,
            Refusal::StoreFailed => 160000,
            Refusal::BadPath => 160005,
            Refusal::NoSuchRevision => 160006,
            Refusal::NotFound => 160013,
            Refusal::NotADirectory => 160016,
            Refusal::NotAFile => 160017,
            Refusal::AlreadyExists => 160020,
            Refusal::Conflict => 160024,
            Refusal::OutOfDate => 160028,
            Refusal::NoUser => 160034,
            Refusal::AlreadyLocked => 160035,
            Refusal::BadLockToken => 160037,
            Refusal::NotTheLockOwner => 160039,
            Refusal::NoSuchLock => 160040,
            Refusal::LockOutOfDate => 160042,
            Refusal::PreviousValueDiffers => 160049,
            Refusal::RevisionPropertiesClosed => 165006,
            Refusal::NotAuthorized => 170001,
            Refusal::BadSvndiff => 185001,
            Refusal::NotSupported => 200007,
            Refusal::ChecksumMismatch => 200014,
            Refusal::UnknownCommand => 210001,
            Refusal::MalformedData => 210004,
            Refusal::NoSuchRepository => 210005,
            Refusal::EditAborted => 210008,
        }
    }

    /// Gives the text that the client is sent, in ASCII.
    pub fn text(self) -> &'static [u8]
        ensures { result.now ≡ refusal_text self }
    {
        match self {
            Refusal::NotADate => b"not a date",
            Refusal::NotDeleted => b"not deleted",
            Refusal::StoreFailed => b"store failed",
            Refusal::BadPath => b"bad path",
            Refusal::NoSuchRevision => b"no such revision",
            Refusal::NotFound => b"not found",
            Refusal::NotADirectory => b"not a directory",
            Refusal::NotAFile => b"not a file",
            Refusal::AlreadyExists => b"already exists",
            Refusal::Conflict => b"conflict",
            Refusal::OutOfDate => b"out of date",
            Refusal::NoUser => b"no user",
            Refusal::AlreadyLocked => b"already locked",
            Refusal::BadLockToken => b"bad lock token",
            Refusal::NotTheLockOwner => b"not the lock owner",
            Refusal::NoSuchLock => b"no such lock",
            Refusal::LockOutOfDate => b"lock out of date",
            Refusal::PreviousValueDiffers => b"previous value differs",
            Refusal::RevisionPropertiesClosed => b"revision properties are closed",
            Refusal::NotAuthorized => b"not authorized",
            Refusal::BadSvndiff => b"bad svndiff",
            Refusal::NotSupported => b"not supported",
            Refusal::ChecksumMismatch => b"checksum mismatch",
            Refusal::UnknownCommand => b"unknown command",
            Refusal::MalformedData => b"malformed data",
            Refusal::NoSuchRepository => b"no such repository",
            Refusal::EditAborted => b"edit aborted",
        }
    }

    /// Says whether the message says the path at which a command is refused, where a client is told one.
    pub fn says_path(self) -> bool
        ensures { result ≡ says_path self }
    {
        match self {
            Refusal::NotFound
            | Refusal::NotADirectory
            | Refusal::NotAFile
            | Refusal::AlreadyExists
            | Refusal::Conflict
            | Refusal::OutOfDate
            | Refusal::NoUser
            | Refusal::AlreadyLocked
            | Refusal::BadLockToken
            | Refusal::NotTheLockOwner
            | Refusal::NoSuchLock
            | Refusal::LockOutOfDate => true,
            _ => false,
        }
    }
}
