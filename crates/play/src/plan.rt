//! What the lines before a hub's first call ask for.
ghost use Rattle.std.specs.Prelude.{◌≡◌, ℕ, List, IfOk};
ghost use Rattle.dates.specs.Dates.{IsDateText};
ghost use Rattle.hub.specs.Laws.{new_hub};

use crate::hubs::{PlayedHub, new_folder_hub, new_memory_hub};
use access::SoleRepository;
use byte_string::ByteString;
use cram::Users;
use flatrepo::InMemory;
use hub::Hub;
use script_lines::{Failing, LineFault, NewFormat, NewHub, NewUser, Place};
use std::alloc::{AllocError, Global};
use std::mem::drop;

/// A hub over a repository in memory.
pub type MemoryHub<R> = Hub<SoleRepository<R>>;

/// Makes a hub without sessions over an empty repository.
fn make_hub<R: InMemory>(alloc: Global, asked: NewHub) -> Result<MemoryHub<R>, LineFault>
    ensures { IfOk result (λ hub. (date : List ℕ) × IsDateText asked.moment date
        × (hub ≡ new_hub asked.options asked.uuid date)) }
{
    match R::empty(alloc, asked.uuid, asked.moment) {
        Ok(repository) => match Hub::over_new(alloc, repository, asked.options) {
            Ok(hub) => Ok(hub),
            Err(_) => Err(LineFault::NoMemory),
        },
        Err(error) => {
            drop(asked);
            Err(LineFault::from(error))
        }
    }
}

/// Makes a hub whose repository is in files in memory.
fn hub_in_memory<R: InMemory>(
    alloc: Global,
    asked: NewHub,
    format: NewFormat,
    failing: Failing,
) -> Result<PlayedHub<R>, LineFault> {
    match new_memory_hub(alloc, asked, format, failing) {
        Ok(hub) => Ok(PlayedHub::Memory(hub)),
        Err(fault) => Err(fault),
    }
}

/// Makes a hub whose repository is in the files of a folder.
fn hub_in_folder<R: InMemory>(
    rt: &HostRuntime,
    asked: NewHub,
    folder: String,
    format: NewFormat,
    failing: Failing,
) -> Result<PlayedHub<R>, LineFault> {
    match new_folder_hub(rt, &folder, asked, format, failing) {
        Ok(hub) => Ok(PlayedHub::Folder(hub, folder)),
        Err(fault) => {
            drop(folder);
            Err(fault)
        }
    }
}

/// Makes a hub whose repository is at a place.
fn hub_at<R: InMemory>(
    rt: &HostRuntime,
    asked: NewHub,
    place: Place,
    format: NewFormat,
    failing: Failing,
) -> Result<PlayedHub<R>, LineFault> {
    match place {
        Place::Plain => match make_hub(rt.alloc(), asked) {
            Ok(hub) => Ok(PlayedHub::Plain(hub)),
            Err(fault) => Err(fault),
        },
        Place::Memory => hub_in_memory(rt.alloc(), asked, format, failing),
        Place::Folder(folder) => hub_in_folder(rt, asked, folder, format, failing),
    }
}

/// A hub that is asked for, the account that its clients came as, if one is said, the bytes of its users file, if it has one,
/// whether its clients may change the properties of revisions, where its repository is, and which format that is of, where it is new.
pub struct Plan {
    hub: NewHub,
    account: Option<String>,
    users: Option<Vec<u8>>,
    revprops: bool,
    place: Place,
    format: NewFormat,
}

impl Drop for Plan {
    fn drop(self) {
        let Plan {
            hub: _,
            account: _,
            users: _,
            revprops: _,
            place: _,
            format: _,
        } = self;
    }
}

/// Gives the hub that is asked for the users of a file, if there is one.
fn with_users(alloc: Global, hub: NewHub, users: Option<Vec<u8>>) -> Result<NewHub, LineFault> {
    let Some(bytes) = users else {
        return Ok(hub);
    };
    let read = Users::read(alloc, &bytes);
    drop(bytes);
    match read {
        Ok(users) => {
            let mut hub = hub;
            hub.options = hub.options.with_users(users);
            Ok(hub)
        }
        Err(fault) => {
            drop(hub);
            Err(LineFault::from(fault))
        }
    }
}

/// Gives the hub that is asked for clients that came as an account, if one is said.
fn with_account(alloc: Global, hub: NewHub, account: Option<String>) -> Result<NewHub, AllocError> {
    let Some(name) = account else {
        return Ok(hub);
    };
    let name = ByteString::from_slice(alloc, name.as_bytes());
    match name {
        Ok(name) => {
            let mut hub = hub;
            hub.options = hub.options.with_account(name);
            Ok(hub)
        }
        Err(error) => {
            drop(hub);
            Err(error)
        }
    }
}

/// Lets the clients of the hub that is asked for change the properties of revisions, if they may.
fn with_revprops(hub: NewHub, revprops: bool) -> NewHub {
    let mut hub = hub;
    if revprops {
        hub.options = hub.options.with_revprops();
    }
    hub
}

impl Plan {
    /// Makes the plan of a hub without a users file, over a repository without files, whose clients may not change the
    /// properties of revisions.
    pub fn new(hub: NewHub) -> Self {
        Plan {
            hub,
            account: None,
            users: None,
            revprops: false,
            place: Place::Plain,
            format: NewFormat::Three,
        }
    }

    /// Lets its clients change the properties of revisions.
    pub fn open_revprops(&mut self) {
        self.revprops = true;
    }

    /// Has clients that came as the account of this name.
    pub fn set_account(&mut self, name: String) {
        self.account = Some(name);
    }

    /// Has its repository at another place.
    pub fn put(&mut self, place: Place) {
        self.place = place;
    }

    /// Has its repository of this format, where it is new.
    pub fn set_format(&mut self, format: NewFormat) {
        self.format = format;
    }

    /// Begins a users file without users, in place of the one before.
    pub fn begin_users(&mut self, alloc: Global) -> Result<(), AllocError> {
        self.users = Some(Vec::from_slice(alloc, b"[users]\n")?);
        Ok(())
    }

    /// Adds one more user at the end of the file.
    pub fn add_user(&mut self, alloc: Global, user: &NewUser) -> Result<(), AllocError> {
        if self.users.is_none() {
            self.begin_users(alloc)?;
        }
        if let Some(users) = &mut self.users {
            users.extend_from_slice(user.name.as_bytes())?;
            users.extend_from_slice(b" = ")?;
            users.extend_from_slice(&user.password)?;
            users.push(b'\n')?;
        }
        Ok(())
    }

    /// Gives the hub that is to be made, with all its options, where its repository is, and of which format.
    fn settled(self, alloc: Global) -> Result<(NewHub, Place, NewFormat), LineFault> {
        let Plan {
            hub,
            account,
            users,
            revprops,
            place,
            format,
        } = self;
        let hub = with_revprops(hub, revprops);
        let settled = match with_account(alloc, hub, account) {
            Ok(hub) => with_users(alloc, hub, users),
            Err(AllocError) => {
                drop(users);
                Err(LineFault::from(AllocError))
            }
        };
        match settled {
            Ok(hub) => Ok((hub, place, format)),
            Err(fault) => {
                drop(place);
                Err(fault)
            }
        }
    }

    /// Makes the hub. Its store, if it has one, fails so.
    pub fn into_hub<R: InMemory>(
        self,
        rt: &HostRuntime,
        failing: Failing,
    ) -> Result<PlayedHub<R>, LineFault> {
        match self.settled(rt.alloc()) {
            Ok((hub, place, format)) => hub_at(rt, hub, place, format, failing),
            Err(fault) => Err(fault),
        }
    }
}
