//! Each look has what the other seat has changed.

use crate::commits::{commit, youngest};
use crate::files::new_files;
use crate::places::{SoundTrees, opened};
use crate::plays::{Play, is_played_over};
use crate::stores::{TestStore, whole};
use access::RepoAccess;
use filed_repository::FiledWorld;
use published::NewHistory;
use std::alloc::Global;
use std::marker::Brand;
use std::process::Abort;

/// How many commits one seat makes.
const COMMITS: u64 = 100;

/// Says whether each commit is in the next look of the other seat, which makes no change itself; and so the other way round.
pub(crate) fn are_seen<A: RepoAccess<View = V> + Drop, V: SoundTrees>(
    rt: &impl Abort,
    alloc: Global,
    seats: (A, A),
) -> bool {
    let (mut one, mut other) = seats;
    let mut are_seen = true;
    for number in 1..=COMMITS {
        are_seen = are_seen
            && commit(rt, alloc, &mut one) == Ok(number)
            && youngest(rt, &mut other) == number;
    }
    are_seen
        && commit(rt, alloc, &mut other) == Ok(COMMITS + 1)
        && youngest(rt, &mut one) == COMMITS + 1
}

#[test]
fn each_look_has_the_last_commit(rt: HostRuntime) {
    let seen = is_played_over::<FiledWorld, TestStore, Brand, HostRuntime>(
        &rt,
        rt.alloc(),
        opened(&rt, rt.alloc(), whole(new_files(&rt, rt.alloc()))),
        NewHistory::new(),
        Play::Looks,
    );
    assert!(rt; seen);
}
