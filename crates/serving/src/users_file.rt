//! The file of users, which is read anew where it has changed.
ghost use Rattle.std.specs.Prelude.{◌≡◌, IfOk, None, OnOk, Some, string_bytes};
ghost use Rattle.cram.specs.UsersFile.{AreRight, file_lines, logins_of};

use crate::fault::{INVALID_LINE, ServingFault, UNREADABLE};
use crate::reason::Reason;
use crate::settings::options_of;
use command_line::Service;
use cram::Users;
use entrance::{Readings, Registry, millis_now};
use machine::Options;
use session_pool::Reading;
use std::alloc::{Alloc, AllocError, Global};
use std::fs;
use std::fs::Files;
use std::io::Eprint;
use std::mem::drop;
use std::sync::{Arc, Mutex, Wait};
use std::time::Clock;

/// For how long the file is not looked at again, in milliseconds.
const LOOK_TURN: u64 = 2_000;

/// What was found at the last look at the file: its bytes, nothing where it could not be read; when that was, in milliseconds;
/// and the newest reading of a file whose lines are right, after that of the start.
#[derive(Drop)]
struct Known {
    bytes: Option<Vec<u8>>,
    looked: u64,
    newest: Option<Arc<Reading>>,
}

/// The file of users of a server, which is looked at as a session begins.
pub struct UsersFile<'a, R> {
    rt: &'a R,
    alloc: Global,
    service: &'a Service,
    known: Mutex<Known>,
}

impl<'a, R> Drop for UsersFile<'a, R> {
    fn drop(self) {
        let UsersFile {
            rt: _,
            alloc: _,
            service: _,
            known: _,
        } = self;
    }
}

/// Reads the bytes of the file of users.
fn bytes_of<R: Files + Alloc>(rt: &R, alloc: Global, file: &str) -> Result<Vec<u8>, ServingFault> {
    match fs::read(rt, file) {
        Ok(bytes) => Ok(bytes.as_slice().to_vec(alloc)?),
        Err(error) => Err(ServingFault::UsersFile(Reason::of(&error))),
    }
}

/// Makes a reading of a file, by options that have its users.
fn reading_by(alloc: Global, file: &[u8], options: Options) -> Result<Reading, ServingFault>
    requires right { AreRight (file_lines file.now) }
    requires read { options.users ≡ Some (logins_of (file_lines file.now)) }
    ensures { IfOk result (λ reading. reading.options ≡ options) }
{
    match file.to_vec(alloc) {
        Ok(file) => Ok(Reading::new(file, options)),
        Err(AllocError) => {
            drop(options);
            Err(ServingFault::NoMemory)
        }
    }
}

/// Reads what sessions are to be served by: what was asked for, with the users of a file.
fn reading_of(alloc: Global, service: &Service, file: &[u8]) -> Result<Reading, ServingFault>
    ensures { IfOk result (λ reading. (reading.options ≡ record {
      name = string_bytes service.now.name;
      account = None;
      users = Some (logins_of (file_lines file.now));
      revprops = service.now.revprops;
    }) × AreRight (file_lines file.now)) }
{
    let users = Users::read(alloc, file)?;
    let options = options_of(alloc, service, users)?;
    reading_by(alloc, file, options)
}

/// Counts the names in a file of users whose lines are right.
fn count_names(file: &[u8]) -> usize {
    let mut count: usize = 0;
    for line in file.split(|byte| *byte == b'\n') {
        if !line.starts_with(b"#") && line.contains(&b'=') {
            count = count.saturating_add(1);
        }
    }
    count
}

/// Writes why the file of users was not read anew, in the words of a start.
fn fault_text(alloc: Global, file: &str, fault: &ServingFault) -> Result<String, AllocError> {
    match fault {
        ServingFault::Users(_) => {
            format!(in alloc; "svnserved: {fault}\n  {}{file}", INVALID_LINE)
        }
        ServingFault::UsersFile(reason) => {
            format!(in alloc; "svnserved: {fault}\n  {}{file}: {reason}", UNREADABLE)
        }
        _ => String::from_str(alloc, "svnserved: O4\n  out of memory"),
    }
}

impl<'a, R: Files + Alloc> UsersFile<'a, R> {
    /// Finds what the file of users contains that is asked for. It is to be found before its users are read, so that no change
    /// after that is missed.
    pub fn new(rt: &'a R, alloc: Global, service: &'a Service) -> Self {
        UsersFile {
            rt,
            alloc,
            service,
            known: Mutex::new(Known {
                bytes: bytes_of(rt, alloc, service.users.as_str()).ok(),
                looked: 0,
                newest: None,
            }),
        }
    }

    /// Reads the users of a file that has changed, and counts them. Where a line is invalid, the newest reading stays.
    fn take(&self, known: &mut Known, file: Vec<u8>) -> Result<usize, ServingFault> {
        let read = reading_of(self.alloc, self.service, file.as_slice());
        let names = count_names(file.as_slice());
        known.bytes = Some(file);
        known.newest = Some(Arc::new(self.alloc, read?)?);
        Ok(names)
    }

    /// Looks at the file, and reads it anew where it has changed. It says what has come of that: how many names are in the file,
    /// or why it is not read; nothing where it is as at the last look.
    fn look(&self, known: &mut Known) -> Option<Result<usize, ServingFault>> {
        match bytes_of(self.rt, self.alloc, self.service.users.as_str()) {
            Ok(file) => {
                if is_same(&known.bytes, file.as_slice()) {
                    return None;
                }
                Some(self.take(known, file))
            }
            Err(fault) => {
                let was_read = known.bytes.is_some();
                known.bytes = None;
                if was_read { Some(Err(fault)) } else { None }
            }
        }
    }
}

/// Says whether these bytes were found at the last look.
fn is_same(known: &Option<Vec<u8>>, file: &[u8]) -> bool {
    match known {
        Some(known) => known.as_slice() == file,
        None => false,
    }
}

impl<'a, Q: Alloc + Clock + Eprint + Files + Wait> UsersFile<'a, Q> {
    /// Tells what has come of a look at the file. A fault is also told where nothing else is.
    fn tell<R: Clock + Wait>(&self, registry: &Registry<'_, R>, done: Result<usize, ServingFault>) {
        let file = self.service.users.as_str();
        match &done {
            Ok(names) => registry.tell_reading(format!(in self.alloc;
                "svnserved: reads the users in {file} anew: {names} names"
            )),
            Err(fault) => {
                let text = fault_text(self.alloc, file, fault);
                if !registry.is_quiet() {
                    registry.tell_reading(text);
                } else if let Ok(text) = text {
                    // what standard error does not take is lost
                    let _ = eprint!(self.rt; "{text}\n");
                }
            }
        }
    }
}

impl<'a, Q: Alloc + Clock + Eprint + Files + Wait> Readings for UsersFile<'a, Q> {
    fn newest<R: Clock + Wait>(
        &self,
        registry: &Registry<'_, R>,
    ) -> Result<Option<Arc<Reading>>, AllocError> {
        let now = millis_now(self.rt);
        let mut guard = self.known.lock(self.rt);
        let known = &mut *guard;
        if known.looked == 0 || now >= known.looked.saturating_add(LOOK_TURN) {
            known.looked = now;
            if let Some(done) = self.look(known) {
                self.tell(registry, done);
            }
        }
        match &known.newest {
            Some(reading) => Ok(Some(Arc::try_clone(reading)?)),
            None => Ok(None),
        }
    }
}
