//! A look that is made while another seat's commit is being saved.
ghost use Rattle.std.specs.Prelude.{◌≡◌};

use crate::commits::youngest;
use crate::files::new_files;
use crate::places::{opened, two_seats};
use crate::plays::{Act, Marks, act_at};
use crate::stores::{TestStore, wait_for, waiting};
use access::RepoAccess;
use filed_repository::{FiledWorld, FolderRepository};
use published::{Naming, NewHistory};
use std::alloc::Global;
use std::marker::Brand;
use std::process::Abort;
use std::sync::atomic::Ordering;
use std::sync::{Arc, Wait};
use std::thread::{Threads, join};
use store_files::Store;

/// Gives the youngest revision that a look has while a commit is being saved; none where no save begins.
pub(crate) fn youngest_in_save<A: RepoAccess>(
    rt: &impl Abort,
    access: &mut A,
    marks: &Marks,
) -> Option<u64> {
    let is_saved = wait_for(&marks.begun);
    let number = youngest(rt, access);
    marks.looked.store(true, Ordering::SeqCst);
    is_saved.then_some(number)
}

/// Gives the youngest revisions that one seat sees while and after the other commits, in files whose replacements wait so.
pub(crate) fn look_beside<S, J, R>(
    rt: &R,
    alloc: Global,
    stored: FolderRepository<S>,
    marks: &Marks,
    history: NewHistory,
) -> (Option<u64>, Option<u64>)
where
    S: Store + Send + Sync + 'static,
    J: Naming + Send + Sync + 'static,
    R: Abort + Threads + Wait + Sync,
    requires { history.seen.book ≡ J.book }
{
    let (mut one, mut other) = two_seats::<FiledWorld, S, J, R>(rt, alloc, stored, history);
    let (_, seen) = join(
        rt,
        || act_at(rt, alloc, &mut one, Act::Commit, marks),
        || act_at(rt, alloc, &mut other, Act::LookInSave, marks),
    );
    (seen, act_at(rt, alloc, &mut other, Act::Look, marks))
}

#[test]
fn a_look_waits_for_no_save(rt: HostRuntime) {
    let alloc = rt.alloc();
    let marks = Arc::new(alloc, Marks::new(alloc)).expect(&rt, "memory");
    let others = Arc::try_clone(&marks).expect(&rt, "memory");
    let store = waiting(new_files(&rt, alloc), others);
    let seen = look_beside::<TestStore, Brand, HostRuntime>(
        &rt,
        alloc,
        opened(&rt, alloc, store),
        &marks,
        NewHistory::new(),
    );
    assert!(rt; seen == (Some(0), Some(1)));
}
