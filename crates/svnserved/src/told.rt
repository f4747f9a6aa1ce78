//! What a fault was met at, in a line of its own.

use crate::fault::{ProgramFault, STORE_FAILED};
use command_line::{Location, Order};
use fsfs_text::FileFault;
use health::AskFault;
use serving::{INVALID_LINE, Reason, ServingFault, UNREADABLE};
use std::fmt;
use store_files::{FileName, StoreFault};
use store_folder::FolderFault;

/// What an order names, as the command line has it.
#[derive(Clone, Copy)]
pub struct Named<'a> {
    folder: &'a str,
    new: &'a str,
    name: &'a str,
    /// Where to listen.
    listen: &'a [String],
    users: &'a str,
    /// Where a server is asked.
    address: &'a str,
}

/// Gives the folder of a location.
fn folder_of(location: &Location) -> &str {
    match location {
        Location::Memory => "-",
        Location::Folder(folder) => folder.as_str(),
    }
}

impl<'a> Named<'a> {
    /// Gives what an order names that names nothing.
    pub fn nothing() -> Self {
        Named {
            folder: "",
            new: "",
            name: "",
            listen: &[],
            users: "",
            address: "",
        }
    }

    /// Gives what an order names.
    pub fn of(order: &'a Order) -> Self {
        let nothing = Named::nothing();
        match order {
            Order::Create { folder, format: _ } => Named {
                folder: folder.as_str(),
                ..nothing
            },
            Order::Migrate {
                folder,
                new,
                quiet: _,
            } => Named {
                folder: folder.as_str(),
                new: new.as_str(),
                ..nothing
            },
            Order::Stdio(session) => Named {
                folder: folder_of(&session.location),
                name: session.name.as_str(),
                ..nothing
            },
            Order::Serve(service) => Named {
                folder: folder_of(&service.location),
                name: service.name.as_str(),
                listen: service.listen.as_slice(),
                users: service.users.as_str(),
                ..nothing
            },
            Order::Status { address, name } => Named {
                name: name.as_str(),
                address: address.as_str(),
                ..nothing
            },
            Order::Version => nothing,
        }
    }
}

/// A fault with what the order names: its own lines, and after them one that says at which file, address or name it was met.
/// Where there is no such thing, as where memory runs out, the fault's own lines are all.
#[derive(Clone, Copy)]
pub struct Told<'a> {
    pub fault: &'a ProgramFault,
    pub named: Named<'a>,
}

/// Which of a repository's files is faulty, as far as it is known.
#[derive(Clone, Copy)]
enum FaultyFile {
    One(FileName),
    OneOf(FileName, FileName),
}

/// Says which file is faulty, where this one was read last. Those of a revision are judged together, and so are the first
/// three.
fn faulty_file(fault: StoreFault, last: FileName) -> FaultyFile {
    match (fault, last) {
        (StoreFault::File(FileFault::WrongFormat), _) => FaultyFile::One(FileName::Format),
        (StoreFault::Device, _) | (_, FileName::Locks) => FaultyFile::One(last),
        (_, FileName::Revision(shard, number) | FileName::Properties(shard, number)) => {
            let properties = FileName::Properties(shard, number);
            FaultyFile::OneOf(FileName::Revision(shard, number), properties)
        }
        _ => FaultyFile::OneOf(FileName::Uuid, FileName::Current),
    }
}

impl fmt::Display for FaultyFile {
    fn fmt<W: fmt::Write>(&self, f: &mut fmt::Formatter<W>) -> fmt::Result {
        match self {
            FaultyFile::One(name) => write!(f, "db/{name}"),
            FaultyFile::OneOf(name, other) => write!(f, "db/{name} or db/{other}"),
        }
    }
}

/// What is said where the system gives no random bytes.
const NO_RANDOM_BYTES: &str = "no random bytes from the system";

/// Where a fault was met: words, the name that follows them, which file of it is faulty, and why the system failed there.
#[derive(Clone, Copy)]
struct Place<'a> {
    words: &'static str,
    name: &'a str,
    file: Option<FaultyFile>,
    reason: Option<Reason>,
}

/// Gives a place where the system gives no reason.
fn plain_place<'a>(words: &'static str, name: &'a str) -> Option<Place<'a>> {
    Some(Place {
        words,
        name,
        file: None,
        reason: None,
    })
}

/// Gives a place where the system has failed for this reason.
fn failed_place<'a>(words: &'static str, name: &'a str, reason: Reason) -> Option<Place<'a>> {
    Some(Place {
        words,
        name,
        file: None,
        reason: Some(reason),
    })
}

impl<'a> Named<'a> {
    /// Gives the address in a place of those at which to listen.
    fn listen_at(self, place: usize) -> &'a str {
        match self.listen.get(place) {
            Some(address) => address.as_str(),
            None => "",
        }
    }

    /// Gives where sessions over TCP were not served.
    fn place_of_serving(self, fault: &ServingFault) -> Option<Place<'a>> {
        match fault {
            ServingFault::Name => plain_place("--name is ", self.name),
            ServingFault::Address(place) => plain_place("--listen is ", self.listen_at(*place)),
            ServingFault::Users(_) => plain_place(INVALID_LINE, self.users),
            ServingFault::UsersFile(reason) => failed_place(UNREADABLE, self.users, *reason),
            ServingFault::Listening(place, reason) => failed_place(
                "cannot listen at ",
                self.listen_at(*place),
                *reason,
            ),
            ServingFault::Thread => plain_place("cannot start a thread", ""),
            ServingFault::Random => plain_place(NO_RANDOM_BYTES, ""),
            ServingFault::Output(reason) => failed_place(
                "cannot write to standard output",
                "",
                *reason,
            ),
            ServingFault::Store(_) => plain_place("in the folder ", self.folder),
            ServingFault::NoMemory => None,
        }
    }

    /// Gives where a server was asked in vain.
    fn place_of_asking(self, fault: &AskFault) -> Option<Place<'a>> {
        match fault {
            AskFault::Connection(error) => failed_place(
                "cannot reach ",
                self.address,
                Reason::of(error),
            ),
            AskFault::Ended => plain_place("the connection was closed at ", self.address),
            AskFault::Failed(STORE_FAILED) => plain_place(
                "changes have come to a halt at ",
                self.address,
            ),
            AskFault::Failed(_) => plain_place("a client is refused at ", self.address),
            AskFault::Unknown => plain_place("no Subversion server is at ", self.address),
            AskFault::NoMemory => None,
        }
    }

    /// Gives where a fault was met, if it was at something that can be named.
    fn place_of(self, fault: &ProgramFault) -> Option<Place<'a>> {
        match fault {
            ProgramFault::Name => plain_place("--name is ", self.name),
            ProgramFault::Random => plain_place(NO_RANDOM_BYTES, ""),
            ProgramFault::Input(reason) => failed_place("cannot read standard input", "", *reason),
            ProgramFault::Output(reason) => failed_place(
                "cannot write to standard output",
                "",
                *reason,
            ),
            ProgramFault::Serving(fault) => self.place_of_serving(fault),
            ProgramFault::Folder(FolderFault::NoMemory)
            | ProgramFault::Store(StoreFault::NoMemory)
            | ProgramFault::Unread(StoreFault::NoMemory, _)
            | ProgramFault::NewFolder(FolderFault::NoMemory)
            | ProgramFault::NewStore(StoreFault::NoMemory)
            | ProgramFault::CommandLine(_)
            | ProgramFault::Hub(_) => None,
            ProgramFault::Folder(FolderFault::Missing)
            | ProgramFault::Store(_)
            | ProgramFault::Unread(_, None)
            | ProgramFault::NotOfFormatTwo => plain_place("in the folder ", self.folder),
            ProgramFault::Unread(fault, Some(last)) => Some(Place {
                words: "in the folder ",
                name: self.folder,
                file: Some(faulty_file(*fault, *last)),
                reason: None,
            }),
            ProgramFault::Folder(_) => plain_place("the folder is ", self.folder),
            ProgramFault::NewStore(_) => plain_place("in the folder ", self.new),
            ProgramFault::NewFolder(_) => plain_place("the folder is ", self.new),
            ProgramFault::Address => plain_place("the address is ", self.address),
            ProgramFault::Unanswered(fault) => self.place_of_asking(fault),
        }
    }
}

impl fmt::Display for Place<'_> {
    fn fmt<W: fmt::Write>(&self, f: &mut fmt::Formatter<W>) -> fmt::Result {
        let Place {
            words,
            name,
            file,
            reason,
        } = self;
        match (file, reason) {
            (Some(file), _) => writeln!(f, "  {words}{name}, at {file}"),
            (None, Some(reason)) => writeln!(f, "  {words}{name}: {reason}"),
            (None, None) => writeln!(f, "  {words}{name}"),
        }
    }
}

impl fmt::Display for Told<'_> {
    fn fmt<W: fmt::Write>(&self, f: &mut fmt::Formatter<W>) -> fmt::Result {
        write!(f, "{}", self.fault)?;
        match self.named.place_of(self.fault) {
            Some(place) => write!(f, "{place}"),
            None => Ok(()),
        }
    }
}
