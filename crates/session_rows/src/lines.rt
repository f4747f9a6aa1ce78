//! Lines of history, over a repository whose entries were changed, copied, moved and replaced.

use crate::hubs::{ENV, new_hub, options_of_r};
use access::RepoAccess;
use flatrepo::{FlatRepo, InMemory};
use history::{Place, is_one_line};
use repo_api::Repository;
use std::alloc::Global;
use std::mem::drop;
use std::process::Abort;
use svnpath::Path;
use world::World;

/// A client that logs in and commits seven times.
static CLIENT: [&[u8]; 8] = [
    b"( 2 ( edit-pipeline ) 9:svn://h/r ) ( ANONYMOUS ( ) ) ",
    b"( commit ( 4:adds ( ) false ) ) ( open-root ( ( ) 1:r ) ) \
      ( add-dir ( 1:A 1:r 1:a ( ) ) ) ( add-file ( 3:A/f 1:a 1:f ( ) ) ) \
      ( add-dir ( 1:B 1:r 1:b ( ) ) ) ( add-file ( 3:B/g 1:b 1:g ( ) ) ) ( close-edit ( ) ) ",
    b"( commit ( 12:changes /A/f ( ) false ) ) ( open-root ( ( ) 1:r ) ) \
      ( open-dir ( 1:A 1:r 1:a ( 1 ) ) ) ( open-file ( 3:A/f 1:a 1:f ( 1 ) ) ) \
      ( change-file-prop ( 1:f 1:p ( 1:v ) ) ) ( close-edit ( ) ) ",
    b"( commit ( 15:copies /A to /C ( ) false ) ) ( open-root ( ( ) 1:r ) ) \
      ( add-dir ( 1:C 1:r 1:c ( 11:svn://h/r/A 2 ) ) ) ( close-edit ( ) ) ",
    b"( commit ( 12:changes /C/f ( ) false ) ) ( open-root ( ( ) 1:r ) ) \
      ( open-dir ( 1:C 1:r 1:c ( 3 ) ) ) ( open-file ( 3:C/f 1:c 1:f ( 3 ) ) ) \
      ( change-file-prop ( 1:f 1:p ( 1:w ) ) ) ( close-edit ( ) ) ",
    b"( commit ( 30:deletes /A/f, and adds another ( ) false ) ) ( open-root ( ( ) 1:r ) ) \
      ( open-dir ( 1:A 1:r 1:a ( 4 ) ) ) ( delete-entry ( 3:A/f ( 4 ) 1:a ) ) \
      ( add-file ( 3:A/f 1:a 1:f ( ) ) ) ( close-edit ( ) ) ",
    b"( commit ( 16:moves /C/f to /h ( ) false ) ) ( open-root ( ( ) 1:r ) ) \
      ( add-file ( 1:h 1:r 1:h ( 13:svn://h/r/C/f 5 ) ) ) \
      ( open-dir ( 1:C 1:r 1:c ( 5 ) ) ) ( delete-entry ( 3:C/f ( 5 ) 1:c ) ) ( close-edit ( ) ) ",
    b"( commit ( 32:puts /A/f of r2 in place of /B/g ( ) false ) ) ( open-root ( ( ) 1:r ) ) \
      ( open-dir ( 1:B 1:r 1:b ( 6 ) ) ) ( delete-entry ( 3:B/g ( 6 ) 1:b ) ) \
      ( add-file ( 3:B/g 1:b 1:g ( 13:svn://h/r/A/f 2 ) ) ) ( close-edit ( ) ) ",
];

/// Two places, and whether they are of one line of history.
static ROWS: [(&str, u64, &str, u64, bool); 18] = [
    ("/A/f", 1, "/A/f", 1, true),
    ("/A/f", 1, "/A/f", 2, true),
    ("/A/f", 1, "/A/f", 4, true),
    ("/A/f", 4, "/A/f", 5, false),
    ("/A/f", 5, "/A/f", 7, true),
    ("/A/f", 1, "/B/g", 1, false),
    ("/A/f", 2, "/C/f", 3, true),
    ("/A/f", 4, "/C/f", 5, true),
    ("/C/f", 5, "/A/f", 7, false),
    ("/C/f", 4, "/h", 7, true),
    ("/h", 6, "/A/f", 1, true),
    ("/B/g", 6, "/B/g", 7, false),
    ("/B/g", 7, "/h", 7, true),
    ("/A", 1, "/C", 7, true),
    ("/A", 7, "/C", 7, true),
    ("/A", 1, "/B", 1, false),
    ("/", 0, "/", 7, true),
    ("/", 7, "/A", 1, false),
];

/// Makes the place at a path of a revision.
fn place(rt: &impl Abort, alloc: Global, path: &str, revision: u64) -> Place {
    Place {
        path: Path::parse(alloc, path.as_bytes()).expect(rt, "a path"),
        revision,
    }
}

/// Makes a repository with the commits of the client, as a look has it.
fn committed<R: InMemory>(rt: &impl Abort, alloc: Global) -> R {
    let mut hub = new_hub::<R>(rt, alloc, options_of_r(rt, alloc));
    let (number, _) = hub.connect().expect(rt, "a session");
    for piece in &CLIENT {
        drop(hub.feed(number, piece, ENV).expect(rt, "replies"));
    }
    let (mut access, _) = hub.into_parts();
    access.look().expect(rt, "a look")
}

/// Says whether each row is answered as it is to be, whichever of its places comes first.
fn are_found(rt: &impl Abort, alloc: Global, repository: &impl Repository) -> bool {
    let mut are_found = repository.youngest() == 7;
    for (path, revision, other_path, other_revision, wanted) in &ROWS {
        let one = place(rt, alloc, path, *revision);
        let other = place(rt, alloc, other_path, *other_revision);
        are_found = are_found
            && is_one_line(alloc, repository, &one, &other) == Ok(*wanted)
            && is_one_line(alloc, repository, &other, &one) == Ok(*wanted);
    }
    are_found
}

/// Says so of a repository in memory.
fn are_found_in<R: InMemory>(rt: &impl Abort, alloc: Global) -> bool {
    are_found(rt, alloc, &committed::<R>(rt, alloc))
}

#[test]
fn lines_of_history(rt: HostRuntime) {
    let alloc = rt.alloc();
    assert!(rt; are_found_in::<World>(&rt, alloc) && are_found_in::<FlatRepo>(&rt, alloc));
}
