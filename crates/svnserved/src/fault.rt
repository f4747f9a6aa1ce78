//! Why the program ends before its time.

use fsfs_text::FileFault;
use health::AskFault;
use hub::HubFault;
use serving::{Reason, ServingFault};
use std::alloc::{AllocError, AllocFailed};
use std::fmt;
use store_files::{FileName, StoreFault};
use store_folder::FolderFault;
use streams::ServeFault;

/// The number of the failure by which a client is turned away once changes have come to a halt.
pub const STORE_FAILED: u64 = 160_000;

/// Why the program ends before its time.
#[derive(Debug, Drop)]
pub enum ProgramFault {
    /// The command line is bad, and this text, with its line feed, says why.
    CommandLine(String),
    /// No repository may have the name.
    Name,
    /// The system gives no random bytes.
    Random,
    /// Standard input failed.
    Input(Reason),
    /// Standard output failed.
    Output(Reason),
    /// The hub failed, or memory was refused.
    Hub(HubFault),
    /// The repository's folder is not opened.
    Folder(FolderFault),
    /// No sessions are served over TCP.
    Serving(ServingFault),
    /// The repository's files are not made, or are not those that can be served.
    Store(StoreFault),
    /// The repository's files are not read, and this one was read last.
    Unread(StoreFault, Option<FileName>),
    /// The repository to copy is not of format 2.
    NotOfFormatTwo,
    /// The folder of the copy is not opened.
    NewFolder(FolderFault),
    /// The files of the copy are not written.
    NewStore(StoreFault),
    /// What a server is to be reached at is no address with a port.
    Address,
    /// A server does not say which revision is its youngest.
    Unanswered(AskFault),
}

impl ProgramFault {
    /// Gives the status to end with.
    pub fn status(&self) -> u8 {
        match self {
            ProgramFault::CommandLine(_) | ProgramFault::Name | ProgramFault::Address => 2,
            ProgramFault::Serving(fault) if fault.is_of_command_line() => 2,
            _ => 1,
        }
    }
}

/// What a fault is called, by its number where it has one, and what it means to who reads it.
#[derive(Clone, Copy)]
struct Called {
    name: &'static str,
    meaning: &'static str,
}

impl fmt::Display for Called {
    fn fmt<W: fmt::Write>(&self, f: &mut fmt::Formatter<W>) -> fmt::Result {
        writeln!(f, "svnserved: {}", self.name)?;
        writeln!(f, "  {}", self.meaning)
    }
}

/// Gives what a fault is called, with its meaning.
fn explain(name: &'static str, meaning: &'static str) -> Called {
    Called { name, meaning }
}

/// Gives what a fault of a file is called.
fn file_fault(fault: FileFault) -> Called {
    match fault {
        FileFault::Truncated => explain("X1", "a file is cut off: take the folder from a backup"),
        FileFault::BadLine => explain("X2", "a file has a bad line: take the folder from a backup"),
        FileFault::Delta => explain(
            "X3",
            "another program wrote the folder, with texts as deltas: take its history over by `svnsync`",
        ),
        FileFault::Digest => explain(
            "X4",
            "a file does not have its digest: take the folder from a backup",
        ),
        FileFault::Dangling => explain(
            "X5",
            "a file names what is not there: take the folder from a backup",
        ),
        FileFault::WrongFormat => explain(
            "X6",
            "there is no repository of format 2 or 3: take over that of another program by `svnsync`",
        ),
        FileFault::NoMemory => explain("X7", "out of memory"),
    }
}

/// Gives what a fault is called by which the files of a repository are not read, or not made.
fn store_fault(fault: StoreFault) -> Called {
    match fault {
        StoreFault::Exists => explain("exists", "there is a repository, which is left as it is"),
        StoreFault::Device => explain(
            "O1",
            "the device failed: a file is not read, or not written",
        ),
        StoreFault::Halted => explain("O3", "changes have come to a halt: start again"),
        StoreFault::NoMemory => explain("O4", "out of memory"),
        StoreFault::File(fault) => file_fault(fault),
    }
}

/// Gives what a fault is called by which a folder is not opened.
fn folder_fault(fault: FolderFault) -> Called {
    match fault {
        FolderFault::Missing => explain("X6", "there is no repository: make one by `create`"),
        FolderFault::InUse => explain("in use", "another program has the folder"),
        FolderFault::NotPlain => explain(
            "not plain",
            "a file or folder of the repository is a link, or of another kind",
        ),
        FolderFault::Unwritable => explain("O1", "the folder cannot be written"),
        FolderFault::Device => explain("O1", "the folder cannot be opened"),
        FolderFault::NoMemory => explain("O4", "out of memory"),
    }
}

/// Gives what a fault of a hub is called.
fn hub_fault(fault: HubFault) -> Called {
    match fault {
        HubFault::NoSession => explain("H1", "no session of that number is open"),
        HubFault::NoMemory => explain("H2", "out of memory"),
        HubFault::Halted => explain("H3", "changes have come to a halt: start again"),
        HubFault::Full => explain("H4", "all sessions are taken"),
    }
}

/// A fault by which no sessions are served over TCP.
#[derive(Clone, Copy)]
struct Unserved<'a>(&'a ServingFault);

impl fmt::Display for Unserved<'_> {
    fn fmt<W: fmt::Write>(&self, f: &mut fmt::Formatter<W>) -> fmt::Result {
        let fault = self.0;
        match fault {
            ServingFault::Name | ServingFault::Address(_) => writeln!(f, "error: {fault}"),
            ServingFault::Store(fault) => write!(f, "{}", store_fault(*fault)),
            ServingFault::NoMemory => write!(f, "{}", explain("O4", "out of memory")),
            _ => writeln!(f, "svnserved: {fault}"),
        }
    }
}

/// A fault by which a server does not say which revision is its youngest.
#[derive(Clone, Copy)]
struct Unanswered<'a>(&'a AskFault);

impl fmt::Display for Unanswered<'_> {
    fn fmt<W: fmt::Write>(&self, f: &mut fmt::Formatter<W>) -> fmt::Result {
        match self.0 {
            AskFault::Connection(_) | AskFault::Ended => writeln!(f, "svnserved: io"),
            AskFault::Failed(STORE_FAILED) => writeln!(f, "svnserved: O3"),
            AskFault::Failed(_) | AskFault::Unknown => writeln!(f, "svnserved: no answer"),
            AskFault::NoMemory => write!(f, "{}", explain("O4", "out of memory")),
        }
    }
}

impl fmt::Display for ProgramFault {
    fn fmt<W: fmt::Write>(&self, f: &mut fmt::Formatter<W>) -> fmt::Result {
        match self {
            ProgramFault::CommandLine(text) => write!(f, "{text}"),
            ProgramFault::Name => writeln!(
                f,
                "error: a name is 1 to 64 of A-Z, a-z, 0-9, `-`, `_` and `.`, and not `.` or `..`"
            ),
            ProgramFault::Random | ProgramFault::Input(_) | ProgramFault::Output(_) => {
                writeln!(f, "svnserved: io")
            }
            ProgramFault::Hub(fault) => write!(f, "{}", hub_fault(*fault)),
            ProgramFault::Folder(fault) | ProgramFault::NewFolder(fault) => {
                write!(f, "{}", folder_fault(*fault))
            }
            ProgramFault::Serving(fault) => write!(f, "{}", Unserved(fault)),
            ProgramFault::Store(fault)
            | ProgramFault::Unread(fault, _)
            | ProgramFault::NewStore(fault) => write!(f, "{}", store_fault(*fault)),
            ProgramFault::NotOfFormatTwo => {
                write!(f, "{}", explain("X6", "there is no repository of format 2"))
            }
            ProgramFault::Address => writeln!(f, "error: {}", ServingFault::Address(0)),
            ProgramFault::Unanswered(fault) => write!(f, "{}", Unanswered(fault)),
        }
    }
}

impl From<HubFault> for ProgramFault {
    fn from(fault: HubFault) -> Self {
        ProgramFault::Hub(fault)
    }
}

impl From<FolderFault> for ProgramFault {
    fn from(fault: FolderFault) -> Self {
        ProgramFault::Folder(fault)
    }
}

impl From<StoreFault> for ProgramFault {
    fn from(fault: StoreFault) -> Self {
        ProgramFault::Store(fault)
    }
}

impl From<ServeFault> for ProgramFault {
    fn from(fault: ServeFault) -> Self {
        match fault {
            ServeFault::Read(error) => ProgramFault::Input(Reason::of(&error)),
            ServeFault::Write(error) => ProgramFault::Output(Reason::of(&error)),
            ServeFault::Hub(fault) => ProgramFault::Hub(fault),
        }
    }
}

impl From<AllocError> for ProgramFault {
    fn from(_fault: AllocError) -> Self {
        ProgramFault::Hub(HubFault::NoMemory)
    }
}

impl<T: Drop> From<AllocFailed<T>> for ProgramFault {
    fn from(_fault: AllocFailed<T>) -> Self {
        ProgramFault::Hub(HubFault::NoMemory)
    }
}

impl From<AskFault> for ProgramFault {
    fn from(fault: AskFault) -> Self {
        ProgramFault::Unanswered(fault)
    }
}

impl From<ServingFault> for ProgramFault {
    fn from(fault: ServingFault) -> Self {
        ProgramFault::Serving(fault)
    }
}
