//! Serves a Subversion repository.
#![tactic(auto)]

ghost use Rattle.std.specs.Prelude.{◌≡◌, IfOk, None, option_map, string_bytes};
ghost use Rattle.serving.specs.Asked.{CountsAreAsked, OptionsAreAsked};

mod asking;
mod beside;
mod fault;
mod migrating;
mod repositories;
mod sharing;
mod told;
mod tunnel;
mod version;

use asking::tell_status;
use byte_string::ByteString;
use command_line::{CommandLineFault, Location, Order, Service, SoleSession, read_command_line};
use fault::ProgramFault;
use filed_repository::FolderRepository;
use hub::{FolderHub, HubFault, Options, is_repository_name};
use migrating::migrate_folder;
use published::NewHistory;
use repositories::{DiskStore, create_in_folder, empty_hub, folder_hub, open_folder};
use serving::{Reason, Server, Settings, SystemEnvs, Tunnel, UsersFile, read_settings, tunnel_in};
use sharing::serve_shared;
use std::alloc::{AllocError, Global};
use std::env;
use std::io::ErrorKind;
use std::marker::Brand;
use std::mem::drop;
use std::process::ExitCode;
use store_files::{MemoryStore, Store};
use store_folder::FolderFault;
use streams::run_stdio;
use told::{Named, Told};
use tunnel::serve_elsewhere;
use version::tell_version;

/// Reads the words of the command line.
fn words(rt: &HostRuntime) -> Result<Vec<String>, ProgramFault> {
    match env::args(rt) {
        Ok(arguments) => Ok(arguments.collect(rt.alloc())?),
        Err(error) if error.kind() == ErrorKind::OutOfMemory => Err(ProgramFault::Hub(
            HubFault::NoMemory,
        )),
        Err(_) => Err(ProgramFault::CommandLine(String::from_str(
            rt.alloc(),
            "error: a word of the command line is not UTF-8\n",
        )?)),
    }
}

/// Reads what the command line asks for; none where it asked for the help, which is printed.
fn order(rt: &HostRuntime) -> Result<Option<Order>, ProgramFault> {
    match read_command_line(rt.alloc(), words(rt)?.as_slice()) {
        Ok(order) => Ok(Some(order)),
        Err(CommandLineFault::Help(text)) => {
            match print!(rt; "{text}") {
                Ok(()) => Ok(None),
                Err(error) => Err(ProgramFault::Output(Reason::of(&error))),
            }
        }
        Err(CommandLineFault::Bad(text)) => Err(ProgramFault::CommandLine(text)),
        Err(CommandLineFault::NoMemory) => Err(ProgramFault::Hub(HubFault::NoMemory)),
    }
}

/// Makes the name of the account that a client came as, if it is said.
fn account_of(alloc: Global, session: &SoleSession) -> Result<Option<ByteString>, AllocError>
    ensures { IfOk result (λ account. account ≡ option_map string_bytes session.now.account) }
{
    match &session.account {
        Some(account) => Ok(Some(ByteString::from_slice(alloc, account.as_bytes())?)),
        None => Ok(None),
    }
}

/// Makes the options of one session.
fn options(alloc: Global, session: &SoleSession) -> Result<Options, ProgramFault>
    ensures { IfOk result (λ o. o ≡ record {
      name = string_bytes session.now.name;
      account = option_map string_bytes session.now.account;
      users = None;
      revprops = session.now.revprops;
    }) }
{
    if !is_repository_name(session.name.as_str()) {
        return Err(ProgramFault::Name);
    }
    let account = account_of(alloc, session)?;
    let options = Options::new(alloc, session.name.as_str())?;
    let options = match account {
        Some(account) => options.with_account(account),
        None => options,
    };
    Ok(if session.revprops {
        options.with_revprops()
    } else {
        options
    })
}

/// Serves one session over the standard streams.
fn serve<S: Store>(rt: &HostRuntime, mut hub: FolderHub<S>) -> Result<(), ProgramFault> {
    let Ok(mut envs) = SystemEnvs::new(rt) else {
        return Err(ProgramFault::Random);
    };
    run_stdio(&mut hub, &mut rt.stdin(), &mut rt.stdout(), &mut envs)?;
    Ok(())
}

/// Makes the hub of an empty repository in memory, with the options that are asked for.
fn hub_in_memory(
    alloc: Global,
    session: &SoleSession,
) -> Result<FolderHub<MemoryStore>, ProgramFault>
    ensures { IfOk result (λ hub. hub.settings ≡ record {
      name = string_bytes session.now.name;
      account = option_map string_bytes session.now.account;
      users = None;
      revprops = session.now.revprops;
    }) }
{
    empty_hub(alloc, options(alloc, session)?)
}

/// Makes the hub of the repository in a folder, with the options that are asked for.
fn hub_in_folder(
    rt: &HostRuntime,
    folder: &String,
    session: &SoleSession,
) -> Result<FolderHub<DiskStore>, ProgramFault>
    ensures { IfOk result (λ hub. hub.settings ≡ record {
      name = string_bytes session.now.name;
      account = option_map string_bytes session.now.account;
      users = None;
      revprops = session.now.revprops;
    }) }
{
    folder_hub(rt, folder, options(rt.alloc(), session)?)
}

/// Makes the fault of an order that cannot be served, with its text.
fn not_served(alloc: Global, text: &str) -> ProgramFault {
    match String::from_str(alloc, text) {
        Ok(text) => ProgramFault::CommandLine(text),
        Err(_) => ProgramFault::Hub(HubFault::NoMemory),
    }
}

/// Serves one session over the standard streams.
fn serve_one(rt: &HostRuntime, session: &SoleSession) -> Result<(), ProgramFault> {
    match &session.location {
        Location::Memory => serve(rt, hub_in_memory(rt.alloc(), session)?),
        Location::Folder(folder) => serve(rt, hub_in_folder(rt, folder, session)?),
    }
}

/// Opens the repository in a folder, into which files can be written.
fn open_to_write(
    rt: &HostRuntime,
    folder: &String,
    is_quiet: bool,
) -> Result<FolderRepository<DiskStore>, ProgramFault> {
    let stored = open_folder(rt, folder, is_quiet)?;
    match stored.store().inner().is_writable() {
        Ok(()) => Ok(stored),
        Err(fault) => {
            drop(stored);
            Err(ProgramFault::Folder(fault))
        }
    }
}

/// Reads what sessions over TCP are served by, and opens the repository in a folder that they are served at, with the door for
/// the clients of tunnels.
fn prepare(
    rt: &HostRuntime,
    service: &Service,
) -> Result<(Settings, FolderRepository<DiskStore>, Option<Tunnel>), ProgramFault>
    ensures options { IfOk result (λ prepared. OptionsAreAsked service.now prepared.0) }
    ensures counts { IfOk result (λ prepared. CountsAreAsked service.now prepared.0) }
{
    let Location::Folder(folder) = &service.location else {
        return Err(not_served(rt.alloc(), "error: DIR of `serve` is a folder\n"));
    };
    let settings = read_settings(rt, rt.alloc(), service)?;
    let stored = open_to_write(rt, folder, service.quiet)?;
    match tunnel_in(rt, rt.alloc(), folder.as_str(), service.exit_on_halt) {
        Ok(tunnel) => Ok((settings, stored, tunnel)),
        Err(AllocError) => {
            drop(stored);
            Err(ProgramFault::Hub(HubFault::NoMemory))
        }
    }
}

/// Gives the status to end with; a fault is printed before, with where it was met.
fn status_of(rt: &HostRuntime, done: Result<(), ProgramFault>, named: Named<'_>) -> ExitCode {
    match done {
        Ok(()) => ExitCode::SUCCESS,
        Err(fault) => {
            let told = Told {
                fault: &fault,
                named,
            };
            // where standard error fails too, the status alone tells
            let _ = eprint!(rt; "{told}");
            ExitCode::from(fault.status())
        }
    }
}

fn main(rt: HostRuntime) -> ExitCode {
    let order = match order(&rt) {
        Ok(Some(order)) => order,
        Ok(None) => return ExitCode::SUCCESS,
        Err(fault) => return status_of(&rt, Err(fault), Named::nothing()),
    };
    let done = match &order {
        Order::Create { folder, format } => create_in_folder(&rt, folder.as_str(), *format),
        Order::Migrate { folder, new, quiet } => {
            migrate_folder(&rt, folder.as_str(), new.as_str(), *quiet)
        }
        // threads are started by who has the runtime of `main`
        Order::Stdio(session) => match serve_one(&rt, session) {
            Err(ProgramFault::Folder(FolderFault::InUse)) => serve_elsewhere(&rt, &rt, session),
            done => done,
        },
        Order::Serve(service) => {
            let users = UsersFile::new(&rt, rt.alloc(), service);
            match prepare(&rt, service) {
                Ok((settings, stored, tunnel)) => {
                    let server = Server {
                        rt: &rt,
                        alloc: rt.alloc(),
                        settings: &settings,
                    };
                    serve_shared::<Brand, HostRuntime, _>(
                        &server,
                        (&users, tunnel),
                        stored,
                        NewHistory::new(),
                    )
                }
                Err(fault) => Err(fault),
            }
        }
        Order::Status { address, name } => tell_status(&rt, address.as_str(), name.as_str()),
        Order::Version => tell_version(&rt),
    };
    status_of(&rt, done, Named::of(&order))
}
