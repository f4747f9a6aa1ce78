//! What the program is asked for.
ghost use Rattle.std.specs.Prelude.{◌≡◌, ◌≤◌, ◌⊎◌};
ghost use Rattle.command_line.specs.declared.order.TheConstants.{SESSION_LIMIT};

/// How many sessions over TCP there may be at a time at most.
pub const SESSION_LIMIT: u64 = 1_024;

/// Where a repository is.
#[derive(Debug, Drop)]
pub enum Location {
    /// In memory: it is empty, and gone with the program.
    Memory,
    /// In this folder.
    Folder(String),
}

/// One session over the standard streams: where the repository is, its name, the account that the client came as, if that is said,
/// and whether it may change the properties of revisions.
#[derive(Debug, Drop)]
pub struct SoleSession {
    pub location: Location,
    pub name: String,
    pub account: Option<String>,
    pub revprops: bool,
}

/// Sessions over TCP: the repository of this name, at which addresses to listen, the file of users, how many sessions there may be
/// at a time, and how many of them the clients of one address may have, whether clients may change the properties of revisions,
/// whether nothing is told on standard error but a fault, and whether the program ends once changes have come to a halt.
#[derive(Debug, Drop)]
pub struct Service {
    pub location: Location,
    pub listen: Vec<String>,
    pub name: String,
    pub users: String,
    pub sessions: u64,
    pub per_address: u64,
    pub revprops: bool,
    pub quiet: bool,
    pub exit_on_halt: bool,
    ghost served: { 1 ≤ per_address },
    ghost placed: { per_address ≤ sessions },
    ghost bounded: { sessions ≤ SESSION_LIMIT },
}

/// Which format a new repository is of.
#[derive(Clone, Copy, Debug, PartialEq, Eq)]
pub enum NewFormat {
    Two,
    Three,
}

impl NewFormat {
    /// Gives the number of the format.
    pub fn number(self) -> u32
        ensures { (result ≡ 2) ⊎ (result ≡ 3) }
    {
        match self {
            NewFormat::Two => 2,
            NewFormat::Three => 3,
        }
    }
}

/// What the program is asked for. Whether a repository may have the name, whether the address has its form and what
/// stands in the file of users is not judged here.
#[derive(Debug, Drop)]
pub enum Order {
    /// Make an empty repository of a format in this folder.
    Create {
        folder: String,
        format: NewFormat,
    },
    /// Copy the repository of format 2 in a folder into a new one, of format 3, and tell somebody at a terminal how far that
    /// is, or nothing but a fault.
    Migrate {
        folder: String,
        new: String,
        quiet: bool,
    },
    /// Serve one session over the standard streams.
    Stdio(SoleSession),
    /// Serve sessions over TCP.
    Serve(Service),
    /// Ask the server at an address which revision of the repository of this name is the youngest.
    Status {
        address: String,
        name: String,
    },
    /// Say which version of the program this is.
    Version,
}
