//! Hubs over repositories in which locks stand that nobody asked for there.
ghost use Rattle.std.specs.Prelude.{◌≡◌, IfOk};
ghost use Rattle.repo_api.specs.Soundness.{AreSound};

use crate::hubs::{ENV, are, options_of_r};
use access::SoleAccess;
use byte_string::ByteString;
use cram::Users;
use flatrepo::{FlatRepo, InMemory};
use hub::{Hub, new_repositories_are_sound};
use repo_api::{LOCK_LIMIT, Lock};
use std::alloc::{AllocError, Global};
use std::process::Abort;
use svnpath::Path;
use world::World;

/// Makes a copy of bytes.
fn bytes(rt: &impl Abort, alloc: Global, bytes: &[u8]) -> ByteString {
    ByteString::from_slice(alloc, bytes).expect(rt, "memory")
}

/// Makes a lock of a user that no hub here has.
fn lock_of_another(rt: &impl Abort, alloc: Global) -> Lock {
    Lock {
        token: bytes(rt, alloc, b"opaquelocktoken:x"),
        owner: bytes(rt, alloc, b"eve"),
        comment: None,
        created: bytes(rt, alloc, b"1970-01-01T00:00:00.000000Z"),
    }
}

/// Puts a lock at a path, whatever stands there.
fn put_lock<R: InMemory>(rt: &impl Abort, alloc: Global, repository: &mut R, path: &str)
    ensures { (R.content repository.new).revisions ≡ (R.content repository.old).revisions }
{
    let path = Path::parse(alloc, path.as_bytes()).expect(rt, "a path");
    let lock = lock_of_another(rt, alloc);
    repository.plant_lock(path, lock).expect(rt, "memory");
}

/// Puts so many locks at paths where nothing stands.
fn put_locks<R: InMemory>(rt: &impl Abort, alloc: Global, repository: &mut R, count: usize)
    ensures { (R.content repository.new).revisions ≡ (R.content repository.old).revisions }
{
    for n in 0..count {
        let path = format!(in alloc; "/l{n}").expect(rt, "memory");
        put_lock(rt, alloc, repository, &path);
    }
}

/// Makes a new repository.
fn new_repository<R: InMemory>(alloc: Global) -> Result<R, AllocError>
    ensures { IfOk result (λ repository. AreSound (R.content repository).revisions) }
{
    new_repositories_are_sound();
    let repository = R::empty(alloc, 0, 0)?;
    Ok(repository)
}

/// The greeting of a client.
const CLIENT: &[u8] = b"( 2 ( edit-pipeline ) 9:svn://h/r ) ";

/// What alice is told up to the end of her login.
const LOGIN_OF_ALICE: &[u8] = b"( success ( ( ANONYMOUS CRAM-MD5 ) 1:r ) ) \
      ( step ( 7:<0.0@r> ) ) ( success ( ) ) \
      ( success ( 36:00000000-0000-0000-0000-000000000000 9:svn://h/r ( ) ) ) ";

/// What a client without a name is told up to the end of its login.
const LOGIN_WITHOUT_A_NAME: &[u8] = b"( success ( ( ANONYMOUS ) 1:r ) ) ( success ( ) ) \
      ( success ( 36:00000000-0000-0000-0000-000000000000 9:svn://h/r ( ) ) ) ";

const ADD_FILES: &[u8] = b"( commit ( 5:first ( ) false ) ) ( open-root ( ( ) 2:d0 ) ) \
      ( add-file ( 1:a 2:d0 2:c1 ( ) ) ) ( add-file ( 1:b 2:d0 2:c2 ( ) ) ) ( close-edit ( ) ) ";

const LOCK_OF_A: &[u8] = b"( success ( ( ) 0: ) ) ( success ( ( 2:/a \
      52:opaquelocktoken:00000000-0000-0000-0000-000000000000 5:alice ( ) \
      27:1970-01-01T00:00:00.000000Z ( ) ) ) ) ";

/// Says whether a client of a hub is sent this for its pieces.
fn is_told<A: SoleAccess + Drop>(
    rt: &impl Abort,
    alloc: Global,
    hub: Hub<A>,
    pieces: &[&[u8]],
    wanted: &[&[u8]],
) -> bool {
    let mut hub = hub;
    let (client, _) = hub.connect().expect(rt, "a session");
    let mut out = Vec::new(alloc);
    for piece in pieces {
        let replies = hub.feed(client, piece, ENV).expect(rt, "replies");
        out.extend_from_slice(replies.as_slice())
            .expect(rt, "memory");
    }
    are(out.as_slice(), wanted)
}

/// Alice locks one file, and then no second one.
static LOCKS_OF_ALICE: [&[u8]; 8] = [
    CLIENT,
    b"( CRAM-MD5 ( ) ) ",
    b"38:alice 1ff4edffd136d795aaff36134c8379a7 ",
    ADD_FILES,
    b"( lock ( 1:a ( ) false ( ) ) ) ",
    b"( lock ( 1:b ( ) false ( ) ) ) ",
    b"( lock ( 1:a ( ) true ( ) ) ) ",
    b"( unlock ( 1:a ( ) true ) ) ( lock ( 1:b ( ) false ( ) ) ) ",
];

/// What she is sent.
static TOLD_ALICE: [&[u8]; 6] = [
    LOGIN_OF_ALICE,
    b"( success ( ( ) 0: ) ) ( success ( ) ) \
      ( success ( ) ) ( success ( ( ) 0: ) ) \
      ( 1 ( 27:1970-01-01T00:00:00.000000Z ) ( 5:alice ) ( ) ) ",
    LOCK_OF_A,
    b"( success ( ( ) 0: ) ) \
      ( failure ( ( 200007 13:not supported 0: 0 ) ) ) ",
    LOCK_OF_A,
    b"( success ( ( ) 0: ) ) ( success ( ) ) \
      ( success ( ( ) 0: ) ) ( success ( ( 2:/b \
      52:opaquelocktoken:00000000-0000-0000-0000-000000000000 5:alice ( ) \
      27:1970-01-01T00:00:00.000000Z ( ) ) ) ) ",
];

/// Says whether alice is told that she has the last lock, and no other, where as many locks exist as may, but for one.
fn is_told_of_the_last_lock<R: InMemory>(rt: &impl Abort, alloc: Global) -> bool {
    let mut repository: R = new_repository(alloc).expect(rt, "memory");
    put_locks(rt, alloc, &mut repository, LOCK_LIMIT - 1);
    let users = Users::read(alloc, b"[users]\nalice = p\n").expect(rt, "users");
    let options = options_of_r(rt, alloc).with_users(users);
    let hub = Hub::over(alloc, repository, options).expect(rt, "a hub");
    is_told(rt, alloc, hub, &LOCKS_OF_ALICE, &TOLD_ALICE)
}

#[test]
fn as_many_locks_as_may_stand(rt: HostRuntime) {
    assert!(rt; is_told_of_the_last_lock::<World>(&rt, rt.alloc()));
}

#[test]
fn as_many_locks_as_may_stand_in_flat(rt: HostRuntime) {
    assert!(rt; is_told_of_the_last_lock::<FlatRepo>(&rt, rt.alloc()));
}

/// A client without a name adds files, and asks for what stands then.
static COMMIT_WITHOUT_A_NAME: [&[u8]; 4] = [
    CLIENT,
    b"( ANONYMOUS ( ) ) ",
    ADD_FILES,
    b"( get-latest-rev ( ) ) ( get-lock ( 1:a ) ) ",
];

/// What it is sent.
static TOLD_WITHOUT_A_NAME: [&[u8]; 3] = [
    LOGIN_WITHOUT_A_NAME,
    b"( success ( ( ) 0: ) ) ( success ( ) ) \
      ( failure ( ( 160034 7:no user 0: 0 ) ) ) ",
    b"( success ( ( ) 0: ) ) ( success ( 0 ) ) \
      ( success ( ( ) 0: ) ) ( success ( ( ( 2:/a 17:opaquelocktoken:x 3:eve ( ) \
      27:1970-01-01T00:00:00.000000Z ( ) ) ) ) ) ",
];

/// Says whether a client without a name is told that another's lock, at `/a`, is in its way.
fn is_told_of_a_lock<R: InMemory>(rt: &impl Abort, alloc: Global) -> bool {
    let mut repository: R = new_repository(alloc).expect(rt, "memory");
    put_lock(rt, alloc, &mut repository, "/a");
    let hub = Hub::over(alloc, repository, options_of_r(rt, alloc)).expect(rt, "a hub");
    is_told(rt, alloc, hub, &COMMIT_WITHOUT_A_NAME, &TOLD_WITHOUT_A_NAME)
}

#[test]
fn a_lock_that_stood_before_refuses_a_commit_without_a_user(rt: HostRuntime) {
    let alloc = rt.alloc();
    assert!(rt;
        is_told_of_a_lock::<World>(&rt, alloc) && is_told_of_a_lock::<FlatRepo>(&rt, alloc)
    );
}
