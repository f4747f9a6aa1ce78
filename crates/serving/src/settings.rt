//! What sessions are served by.
ghost use Rattle.std.specs.{Prelude.{◌≡◌, ◌<◌, ℕ, List, IfOk, IfSome, None, Some, length, map, slice_get, string_bytes}, Net.Grammar.IsSocketText};
ghost use Rattle.cram.specs.UsersFile.{AreRight, file_lines, logins_of};
ghost use Rattle.serving.specs.Asked.{AreSocketTexts, CountsAreAsked, OptionsAreAsked, PlaceIsAsked};

use crate::fault::ServingFault;
use crate::reason::Reason;
use command_line::Service;
use cram::Users;
use machine::{Options, is_repository_name};
use std::alloc::{AllocError, Global};
use std::fs;
use std::fs::Files;
use std::mem::drop;
use std::net::SocketAddr;
use std::os::unix::fs::PermissionsExt;
use std::rt::Runtime;

/// What sessions are served by: the options of the repository, the addresses to listen at, how many sessions there may be at a time, and
/// how many of them one address may have, whether others can read the file of users, whether they can write it, whether
/// nothing is told on standard error, and whether the server ends once changes have come to a halt.
#[derive(Drop)]
pub struct Settings {
    pub options: Options,
    pub addresses: Vec<SocketAddr>,
    pub sessions: u64,
    pub per_address: u64,
    pub is_exposed: bool,
    pub is_writable: bool,
    pub is_quiet: bool,
    pub exits_on_halt: bool,
}

/// What serves sessions: who hands the system in, where memory comes from, and what sessions are served by.
#[derive(Drop)]
pub struct Server<'s, R> {
    pub rt: &'s R,
    pub alloc: Global,
    pub settings: &'s Settings,
}

/// Reads one of the addresses with a port at which to listen, which is in this place.
fn address_at(listen: &[String], place: usize) -> Result<SocketAddr, ServingFault>
    requires { place < length listen.now }
    ensures { IfOk result (λ address. IfSome (slice_get listen.now place)
        (λ text. IsSocketText (string_bytes text) address)) }
{
    match listen[place].as_str().parse::<SocketAddr>() {
        Ok(address) => Ok(address),
        Err(_) => Err(ServingFault::Address(place)),
    }
}

/// Reads where to listen: addresses with a port.
fn addresses_of(alloc: Global, listen: &[String]) -> Result<Vec<SocketAddr>, ServingFault>
    ensures { IfOk result (λ addresses. AreSocketTexts (map string_bytes listen.now) addresses.items) }
{
    let mut addresses = Vec::new(alloc);
    for place in 0..listen.len() {
        addresses.push(address_at(listen, place)?)?;
    }
    Ok(addresses)
}

/// Makes the options of the repository, with the users of a file.
pub(crate) fn options_of(
    alloc: Global,
    service: &Service,
    users: Users,
) -> Result<Options, ServingFault>
    ensures { IfOk result (λ o. o ≡ record {
      name = string_bytes service.now.name;
      account = None;
      users = Some users;
      revprops = service.now.revprops;
    }) }
{
    if !is_repository_name(service.name.as_str()) {
        drop(users);
        return Err(ServingFault::Name);
    }
    match Options::new(alloc, service.name.as_str()) {
        Ok(options) if service.revprops => Ok(options.with_users(users).with_revprops()),
        Ok(options) => Ok(options.with_users(users)),
        Err(AllocError) => {
            drop(users);
            Err(ServingFault::NoMemory)
        }
    }
}

/// Reads the file of users.
fn users_of<R: Runtime>(rt: &R, alloc: Global, file: &str) -> Result<Users, ServingFault>
    ensures { IfOk result (λ users. (bytes : List ℕ) × AreRight (file_lines bytes)
        × (users ≡ logins_of (file_lines bytes))) }
{
    match fs::read(rt, file) {
        Ok(bytes) => Ok(Users::read(alloc, bytes.as_slice())?),
        Err(error) => Err(ServingFault::UsersFile(Reason::of(&error))),
    }
}

/// What others than a file's owner and its group may do with it, as bits of its mode.
const OTHERS_READ: u32 = 0o004;

const OTHERS_WRITE: u32 = 0o002;

/// Gives the mode of a file, and 0 where that is not known.
fn mode_of<R: Files>(rt: &R, file: &str) -> u32 {
    match fs::metadata(rt, file) {
        Ok(metadata) => metadata.permissions().mode(),
        Err(_) => 0,
    }
}

/// Reads what sessions are to be served by: the name that was asked for, the users that a file says, whether the properties
/// of revisions may be changed, and how many sessions there may be. A faulty name is told first, then a faulty address, then
/// what is wrong with the file of users.
pub fn read_settings<R: Runtime>(
    rt: &R,
    alloc: Global,
    service: &Service,
) -> Result<Settings, ServingFault>
    ensures options { IfOk result (OptionsAreAsked service.now) }
    ensures counts { IfOk result (CountsAreAsked service.now) }
    ensures place { IfOk result (PlaceIsAsked service.now) }
{
    if !is_repository_name(service.name.as_str()) {
        return Err(ServingFault::Name);
    }
    let addresses = addresses_of(alloc, service.listen.as_slice())?;
    let users = users_of(rt, alloc, service.users.as_str())?;
    let mode = mode_of(rt, service.users.as_str());
    Ok(Settings {
        options: options_of(alloc, service, users)?,
        addresses,
        sessions: service.sessions,
        per_address: service.per_address,
        is_exposed: mode & OTHERS_READ != 0,
        is_writable: mode & OTHERS_WRITE != 0,
        is_quiet: service.quiet,
        exits_on_halt: service.exit_on_halt,
    })
}
