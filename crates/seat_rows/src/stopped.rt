//! What is opened where a commit that is made beside another seat's look is stopped at one of its calls.
ghost use Rattle.std.specs.Prelude.{◌≡◌};

use crate::commits::youngest;
use crate::files::new_files;
use crate::places::{SoundTrees, opened};
use crate::plays::Marks;
use crate::saves::look_beside;
use crate::stores::{TestStore, failing, waiting};
use published::NewHistory;
use std::alloc::Global;
use std::marker::Brand;
use std::process::Abort;
use std::sync::{Arc, Mutex, Wait};
use store_files::{FileName, Left, Store};
use stored_repository::StoredRepository;

/// A call that changes a file.
#[derive(Drop)]
pub(crate) struct Call {
    name: FileName,
    bytes: Vec<u8>,
    replaces: bool,
}

/// Calls that change files, one after another.
#[derive(Drop)]
pub(crate) struct Calls {
    alloc: Global,
    made: Mutex<Vec<Call>>,
}

impl Calls {
    /// Makes a list of none.
    pub(crate) fn new(alloc: Global) -> Self {
        Calls {
            alloc,
            made: Mutex::new(Vec::new(alloc)),
        }
    }

    /// Notes a call; none is noted where memory runs out.
    pub(crate) fn note(&self, name: FileName, bytes: &[u8], replaces: bool) {
        let Ok(bytes) = bytes.to_vec(self.alloc) else {
            return;
        };
        if let Some(mut made) = self.made.try_lock() {
            let _outcome = made.push(Call {
                name,
                bytes,
                replaces,
            });
        }
    }
}

/// Makes calls in a store, up to the one that fails.
fn make_in<S: Store>(store: &mut S, calls: &[Call]) {
    for call in calls {
        let bytes = call.bytes.as_slice();
        let is_made = if call.replaces {
            store.replace(call.name, bytes).is_ok()
        } else {
            store.write_new(call.name, bytes).is_ok()
        };
        if !is_made {
            return;
        }
    }
}

/// Gives the youngest revision of a repository in files.
fn youngest_in<F: SoundTrees, S: Store>(rt: &impl Abort, stored: StoredRepository<F, S>) -> u64 {
    let mut stored = stored;
    youngest(rt, &mut stored)
}

/// Gives the youngest revision that is found in files of a new repository where these calls are stopped behind so many,
/// and the next one leaves this.
fn found_behind(
    rt: &impl Abort,
    alloc: Global,
    calls: &[Call],
    (passes, left): (u64, Left),
) -> u64 {
    let mut store = failing(new_files(rt, alloc), passes, left);
    make_in(&mut store, calls);
    youngest_in(rt, opened(rt, alloc, store))
}

/// What is found behind so many calls of a commit of revision 1, whatever the next one leaves: its two files are written,
/// and then it is made the youngest.
static ROWS: [(u64, u64); 3] = [(0, 0), (1, 0), (3, 1)];

/// What is found where that replacement leaves this.
static REPLACED: [(Left, u64); 3] = [(Left::Old, 0), (Left::New, 1), (Left::Torn, 0)];

/// Says whether these are the calls of such a commit, and the revision before it or its own is found wherever it is
/// stopped.
fn are_found(rt: &impl Abort, alloc: Global, calls: &[Call]) -> bool {
    let mut are_found = calls.len() == 3;
    for (left, replaced) in REPLACED.iter() {
        for (passes, wanted) in ROWS.iter() {
            are_found &= found_behind(rt, alloc, calls, (*passes, *left)) == *wanted;
        }
        are_found &= found_behind(rt, alloc, calls, (2, *left)) == *replaced;
    }
    are_found
}

/// Says so of the calls that were noted.
fn are_found_of<R: Abort + Wait>(rt: &R, alloc: Global, calls: &Calls) -> bool {
    let made = calls.made.lock(rt);
    are_found(rt, alloc, made.as_slice())
}

#[test]
fn a_commit_beside_a_look_is_found_whole_or_not_at_all(rt: HostRuntime) {
    let alloc = rt.alloc();
    let marks = Arc::new(alloc, Marks::new(alloc)).expect(&rt, "memory");
    let others = Arc::try_clone(&marks).expect(&rt, "memory");
    let store = waiting(new_files(&rt, alloc), others);
    let seen = look_beside::<TestStore, Brand, HostRuntime>(
        &rt,
        alloc,
        opened(&rt, alloc, store),
        &marks,
        NewHistory::new(),
    );
    assert!(rt; seen == (Some(0), Some(1)) && are_found_of(&rt, alloc, &marks.calls));
}
