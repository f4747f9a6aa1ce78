//! Sixteen seats at work at once, and the plain model of what then stands.
ghost use Rattle.std.specs.Prelude.{◌≡◌};

use crate::commits::{ask_for, commit_of};
use crate::files::{bytes, files_with_a, lock_ask, path_a};
use crate::places::{Place, SoundTrees, opened, places};
use crate::plays::{Act, Marks, act_in};
use crate::stores::{TestStore, whole};
use access::RepoAccess;
use byte_string::ByteString;
use filed_repository::{FiledWorld, FolderRepository};
use published::{Naming, NewHistory};
use refusals::Refusal;
use repo_api::{ChangeFault, PreviousValue, PropertyAsk, Repository, UnlockAsk};
use std::alloc::Global;
use std::marker::Brand;
use std::process::Abort;
use std::sync::Wait;
use std::sync::atomic::{AtomicBool, Ordering};
use std::thread;
use std::thread::Threads;
use store_files::Store;

/// How many seats there are.
const SEATS: usize = 16;

/// How often each commits, counts one up, and asks for the lock.
const TURNS: u64 = 100;

/// How often a seat tries to count one up, at most, where others do so meanwhile.
const MOST_TRIES: u64 = 1_000_000;

/// The property of revision 0 that all count up.
const COUNT: &[u8] = b"count";

/// Gives the value of a property of a revision, if there is one.
fn property<V: Repository>(
    rt: &impl Abort,
    alloc: Global,
    view: &V,
    revision: u64,
    name: &[u8],
) -> Option<ByteString> {
    let name = bytes(rt, alloc, name);
    let value = view.revision_properties(revision)?.get(&name)?;
    Some(value.clone().expect(rt, "memory"))
}

/// Says whether a revision has this message. Each seat has a letter, which is its message, its user and its token.
fn has_message<V: Repository>(
    rt: &impl Abort,
    alloc: Global,
    view: &V,
    revision: u64,
    letter: u8,
) -> bool {
    let message = property(rt, alloc, view, revision, b"svn:log");
    message.is_some_and(|message| message.as_slice() == [letter].as_slice())
}

/// Says whether a seat's commit stands at the revision that it was told.
fn commits<A: RepoAccess<View = V>, V: SoundTrees>(
    rt: &impl Abort,
    alloc: Global,
    access: &mut A,
    letter: u8,
) -> bool {
    match commit_of(rt, alloc, access, ask_for(rt, alloc, &[letter])) {
        Ok(committed) => {
            let view = access.look().expect(rt, "a look");
            has_message(rt, alloc, &view, committed.revision, letter)
        }
        Err(_) => false,
    }
}

/// Reads the count that a value is, in eight bytes; none is 0.
fn count_of(value: Option<&ByteString>) -> u64 {
    let mut count = 0u64;
    if let Some(bytes) = value {
        for byte in bytes.as_slice() {
            count = count.wrapping_mul(256).wrapping_add(u64::from(*byte));
        }
    }
    count
}

/// Counts one up from what a look has.
fn count_once<A: RepoAccess>(
    rt: &impl Abort,
    alloc: Global,
    access: &mut A,
) -> Result<(), ChangeFault> {
    let view = access.look().expect(rt, "a look");
    let seen = property(rt, alloc, &view, 0, COUNT);
    let next = count_of(seen.as_ref()).wrapping_add(1);
    access.set_rev_prop(PropertyAsk {
        revision: 0,
        name: bytes(rt, alloc, COUNT),
        value: Some(bytes(rt, alloc, &next.to_be_bytes())),
        previous: PreviousValue::Exactly(seen),
    })
}

/// Says whether one is counted up, after as many tries as others make in vain meanwhile.
fn counts<A: RepoAccess>(rt: &impl Abort, alloc: Global, access: &mut A) -> bool {
    for _ in 0..MOST_TRIES {
        let told = count_once(rt, alloc, access);
        if told != Err(ChangeFault::Refused(Refusal::PreviousValueDiffers)) {
            return told.is_ok();
        }
    }
    false
}

/// Asks for the lock to be taken away.
fn unlock_ask(rt: &impl Abort, alloc: Global, letter: u8) -> UnlockAsk {
    UnlockAsk {
        path: path_a(rt, alloc),
        user: Some(bytes(rt, alloc, &[letter])),
        token: Some(bytes(rt, alloc, &[letter])),
        breaks: false,
        tells_dead_tokens: false,
    }
}

/// Says whether a look has the lock of this seat.
fn has_lock<A: RepoAccess>(rt: &impl Abort, alloc: Global, access: &mut A, letter: u8) -> bool {
    let view = access.look().expect(rt, "a look");
    let path = path_a(rt, alloc);
    view.lock_at(&path)
        .is_some_and(|lock| lock.token.as_slice() == [letter].as_slice())
}

/// Says whether the lock is this seat's alone where it is had.
fn locks<A: RepoAccess>(
    rt: &impl Abort,
    alloc: Global,
    access: &mut A,
    letter: u8,
    is_held: &AtomicBool,
) -> bool {
    match access.lock(lock_ask(rt, alloc, &[letter], &[letter])) {
        Ok(()) => {
            let is_alone = !is_held.swap(true, Ordering::SeqCst);
            let is_own = has_lock(rt, alloc, access, letter);
            is_held.store(false, Ordering::SeqCst);
            let told = access.unlock(&unlock_ask(rt, alloc, letter));
            is_alone && is_own && told.is_ok()
        }
        Err(fault) => fault == ChangeFault::Refused(Refusal::AlreadyLocked),
    }
}

/// Takes all turns of a seat, and says whether it is told what can be.
pub(crate) fn works<A: RepoAccess<View = V>, V: SoundTrees>(
    rt: &impl Abort,
    alloc: Global,
    access: &mut A,
    letter: u8,
    marks: &Marks,
) -> bool {
    let mut is_right = true;
    for _ in 0..TURNS {
        is_right = is_right
            && commits(rt, alloc, access, letter)
            && counts(rt, alloc, access)
            && locks(rt, alloc, access, letter, &marks.is_held);
    }
    is_right
}

/// Takes them in a thread, and marks whether it was told what cannot be.
fn work_at<F: SoundTrees, S: Store, J: Naming, R: Abort + Wait>(
    rt: &R,
    alloc: Global,
    place: Place<'_, F, S, J, R>,
    letter: u8,
    marks: &Marks,
) {
    let told = act_in(rt, alloc, place, Act::Work(letter), marks);
    if told.is_none() {
        marks.is_wrong.store(true, Ordering::SeqCst);
    }
}

/// Takes the turns of all seats, each in a thread of its own.
fn work_in_threads<S, R, J>(
    rt: &R,
    alloc: Global,
    places: Vec<Place<'_, FiledWorld, S, J, R>>,
    marks: &Marks,
)
where
    S: Store + Send + Sync + 'static,
    J: Naming + Send + Sync + 'static,
    R: Abort + Threads + Wait + Sync,
{
    thread::scope(thread::scope_env(), rt, move |scope| {
        let mut name = b'a';
        for place in places {
            let letter = name;
            name = name.wrapping_add(1);
            let worker = scope.spawn(move || work_at(rt, alloc, place, letter, marks));
            assert!(rt; worker.is_ok());
        }
    });
}

/// Counts the revisions that have this message.
fn revisions_of<V: Repository>(rt: &impl Abort, alloc: Global, view: &V, letter: u8) -> u64 {
    let mut count = 0u64;
    for revision in 0..=view.youngest() {
        if has_message(rt, alloc, view, revision, letter) {
            count = count.wrapping_add(1);
        }
    }
    count
}

/// Says whether each seat's commits stand, the count is the sum, and no lock stands.
pub(crate) fn has_all<A: RepoAccess>(rt: &impl Abort, alloc: Global, access: &mut A) -> bool {
    let view = access.look().expect(rt, "a look");
    let mut are_made = true;
    for letter in b'a'..=b'p' {
        are_made &= revisions_of(rt, alloc, &view, letter) == TURNS;
    }
    let count = count_of(property(rt, alloc, &view, 0, COUNT).as_ref());
    are_made && count == 16 * TURNS && view.lock_at(&path_a(rt, alloc)).is_none()
}

/// Says whether that is so after the turns of all seats at a repository, as one more seat sees it, and each was told what
/// can be.
fn is_whole_behind_all<S, J, R>(
    rt: &R,
    alloc: Global,
    stored: FolderRepository<S>,
    history: NewHistory,
) -> bool
where
    S: Store + Send + Sync + 'static,
    J: Naming + Send + Sync + 'static,
    R: Abort + Threads + Wait + Sync,
    requires { history.seen.book ≡ J.book }
{
    let marks = Marks::new(alloc);
    let mut places = places::<FiledWorld, S, J, R>(rt, alloc, stored, SEATS + 1, history);
    let last = places.pop().expect(rt, "a place");
    work_in_threads(rt, alloc, places, &marks);
    !marks.is_wrong.load(Ordering::SeqCst)
        && act_in(rt, alloc, last, Act::HaveAll, &marks).is_some()
}

#[test]
fn nothing_is_lost_where_sixteen_work_at_once(rt: HostRuntime) {
    let files = files_with_a(&rt, rt.alloc());
    let is_whole = is_whole_behind_all::<TestStore, Brand, HostRuntime>(
        &rt,
        rt.alloc(),
        opened(&rt, rt.alloc(), whole(files)),
        NewHistory::new(),
    );
    assert!(rt; is_whole);
}
