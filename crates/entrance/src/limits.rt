//! How many files the process may have open at a time.
ghost use Rattle.std.specs.Prelude.{◌≤◌, IfOk, length};

use crate::accepting::MAX_WAITING;
use crate::events::Event;
use std::fs::{File, Files};
use std::io::{self, Read};

/// How many files the server has open at most but for those of sessions: the standard streams, the listeners of two doors, the lock
/// of the folder, one for each client that waits for a place at one of two doors, a
/// connection that is judged at each, and a file that is written.
const OTHER_FILES: u64 = 3 + 3 + 2 * MAX_WAITING as u64 + 3;

/// The file in which the system tells a process of its limits.
const LIMITS: &str = "/proc/self/limits";

/// How the line of the limit of open files begins.
const OPEN_FILES: &str = "Max open files";

/// Reads the beginning of a file, as long as the room for it, and gives its length.
fn read_beginning<R: Files>(rt: &R, path: &str, room: &mut [u8]) -> io::Result<usize>
    ensures { IfOk result (λ count. count ≤ length room.new) }
{
    File::open(rt, path)?.read(room)
}

/// Finds how many files may be open in the text of a process's limits; none where it names no number.
fn files_of(limits: &str) -> Option<u64> {
    for line in limits.lines() {
        if let Some(numbers) = line.strip_prefix(OPEN_FILES) {
            return numbers.split_whitespace().next()?.parse::<u64>().ok();
        }
    }
    None
}

/// Gives how many files the process may have open, if that is known.
fn most_files<R: Files>(rt: &R) -> Option<u64> {
    let mut room = [0; 4096];
    let count = read_beginning(rt, LIMITS, &mut room).ok()?;
    let limits = str::from_utf8(&room[..count]).ok()?;
    files_of(limits)
}

/// Says that the process may have fewer files open than the server needs for so many sessions, where that is known.
pub fn too_few_files<R: Files>(rt: &R, sessions: u64) -> Option<Event> {
    let needed = sessions.saturating_add(OTHER_FILES);
    let files = most_files(rt)?;
    if files < needed {
        Some(Event::FewFiles(files, needed))
    } else {
        None
    }
}
