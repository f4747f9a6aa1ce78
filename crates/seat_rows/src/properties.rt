//! Of two seats that ask for one value of a property, one changes it.
ghost use Rattle.std.specs.Prelude.{◌≡◌};

use crate::files::{bytes, new_files};
use crate::places::{opened, two_seats};
use crate::plays::{Act, Marks, Play, act_at, is_played_over};
use crate::stores::{TestStore, whole};
use access::RepoAccess;
use byte_string::ByteString;
use filed_repository::{FiledWorld, FolderRepository};
use published::{Naming, NewHistory};
use refusals::Refusal;
use repo_api::{ChangeFault, PreviousValue, PropertyAsk};
use std::alloc::Global;
use std::marker::Brand;
use std::process::Abort;
use std::sync::Wait;
use std::thread::{Threads, join};
use store_files::Store;

/// Makes a value of a property, or none.
fn value_of(rt: &impl Abort, alloc: Global, value: &[u8]) -> Option<ByteString> {
    match value {
        [] => None,
        value => Some(bytes(rt, alloc, value)),
    }
}

/// Changes the message of revision 0, where it is the one that was seen; no bytes are no message.
fn change<A: RepoAccess>(
    rt: &impl Abort,
    alloc: Global,
    access: &mut A,
    value: &[u8],
    seen: &[u8],
) -> Result<(), ChangeFault> {
    access.set_rev_prop(PropertyAsk {
        revision: 0,
        name: bytes(rt, alloc, b"svn:log"),
        value: value_of(rt, alloc, value),
        previous: PreviousValue::Exactly(value_of(rt, alloc, seen)),
    })
}

/// Says whether of two seats that have both seen no message one changes it, and is told of the other's change next.
pub(crate) fn is_changed_by_one<A: RepoAccess + Drop>(
    rt: &impl Abort,
    alloc: Global,
    seats: (A, A),
) -> bool {
    let (mut one, mut other) = seats;
    let differs = Err(ChangeFault::Refused(Refusal::PreviousValueDiffers));
    change(rt, alloc, &mut one, b"mine", b"") == Ok(())
        && change(rt, alloc, &mut other, b"yours", b"") == differs
        && change(rt, alloc, &mut other, b"ours", b"mine") == Ok(())
        && change(rt, alloc, &mut one, b"", b"mine") == differs
}

/// Says how many changes a seat makes that asks for a message where there is none: one, or none where another has made it.
pub(crate) fn told_of_change<A: RepoAccess>(
    rt: &impl Abort,
    alloc: Global,
    access: &mut A,
) -> Option<u64> {
    match change(rt, alloc, access, b"mine", b"") {
        Ok(()) => Some(1),
        Err(ChangeFault::Refused(Refusal::PreviousValueDiffers)) => Some(0),
        Err(_) => None,
    }
}

/// Gives how many changes each of two seats makes that ask for the same one at once, each in a thread of its own.
fn change_at_once<S, J, R>(
    rt: &R,
    alloc: Global,
    stored: FolderRepository<S>,
    history: NewHistory,
) -> (Option<u64>, Option<u64>)
where
    S: Store + Send + Sync + 'static,
    J: Naming + Send + Sync + 'static,
    R: Abort + Threads + Wait + Sync,
    requires { history.seen.book ≡ J.book }
{
    let marks = Marks::new(alloc);
    let (mut one, mut other) = two_seats::<FiledWorld, S, J, R>(rt, alloc, stored, history);
    join(
        rt,
        || act_at(rt, alloc, &mut one, Act::Change, &marks),
        || act_at(rt, alloc, &mut other, Act::Change, &marks),
    )
}

#[test]
fn of_two_that_ask_at_once_one_changes_it(rt: HostRuntime) {
    let made = change_at_once::<TestStore, Brand, HostRuntime>(
        &rt,
        rt.alloc(),
        opened(&rt, rt.alloc(), whole(new_files(&rt, rt.alloc()))),
        NewHistory::new(),
    );
    assert!(rt; made == (Some(1), Some(0)) || made == (Some(0), Some(1)));
}

#[test]
fn of_two_that_have_seen_one_value_one_changes_it(rt: HostRuntime) {
    let is_changed = is_played_over::<FiledWorld, TestStore, Brand, HostRuntime>(
        &rt,
        rt.alloc(),
        opened(&rt, rt.alloc(), whole(new_files(&rt, rt.alloc()))),
        NewHistory::new(),
        Play::Properties,
    );
    assert!(rt; is_changed);
}
