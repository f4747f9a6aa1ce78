//! Values as Subversion 1.14 read and wrote them.

use crate::MergeInfo;
use std::alloc::Global;
use std::process::Abort;
use svnpath::Path;

/// Says whether the value is read and written so, or is none.
fn is_written(rt: &impl Abort, alloc: Global, value: &str, written: Option<&str>) -> bool {
    let read = MergeInfo::read(alloc, value.as_bytes()).expect(rt, "memory");
    match (read, written) {
        (Some(info), Some(written)) => {
            info.write(alloc).expect(rt, "memory").as_slice() == written.as_bytes()
        }
        (None, None) => true,
        _ => false,
    }
}

/// Says whether an entry with this rest of a path inherits so much of the value.
fn is_inherited(rt: &impl Abort, alloc: Global, value: &str, rest: &str, written: &str) -> bool {
    let rest = Path::parse(alloc, rest.as_bytes()).expect(rt, "memory");
    match MergeInfo::read(alloc, value.as_bytes()).expect(rt, "memory") {
        Some(info) => {
            let inherited = info.inherited(alloc, &rest).expect(rt, "memory");
            inherited.write(alloc).expect(rt, "memory").as_slice() == written.as_bytes()
        }
        None => false,
    }
}

static VALUES: [(&str, Option<&str>); 52] = [
    ("", Some("")),
    ("\n", None),
    ("/b:1", Some("/b:1")),
    ("b:1\n", Some("/b:1")),
    ("/b:1\n\n", None),
    ("/b", None),
    ("/b:", None),
    ("/b: \n", None),
    (":1", Some("/:1")),
    ("/a:b:2", Some("/a:b:2")),
    ("/a:1:2", Some("/a:1:2")),
    ("//b/./c/:1", Some("/b/c:1")),
    (" /b :1", Some("/ /b :1")),
    ("/b: \t\r1", Some("/b:1")),
    ("/b:1 ", None),
    ("/b:1, 2", None),
    ("/b:1\r\n", None),
    ("/b:1,", None),
    ("/b:1,\n", Some("/b:1")),
    ("/b:1*,\n/c:2", Some("/b:1*\n/c:2")),
    ("/b:1,,2", None),
    ("/b:,\n", None),
    ("/b:0", None),
    ("/b:0-1", None),
    ("/b:1-1", None),
    ("/b:2-1", None),
    ("/b:1-", None),
    ("/b:-1", None),
    ("/b:1-2-3", None),
    ("/b:1-2*", Some("/b:1-2*")),
    ("/b:*", None),
    ("/b:1**", None),
    ("/b:1*-2", None),
    ("/b:+1", None),
    ("/b:0000000001", Some("/b:1")),
    ("/b:00000000001", None),
    ("/b:2147483647", Some("/b:2147483647")),
    ("/b:2147483648", None),
    ("/b:99999999999999999999999999", None),
    ("/b:5-7,1-3", Some("/b:1-3,5-7")),
    ("/b:1-3,2-5", Some("/b:1-5")),
    ("/b:1-3,4", Some("/b:1-4")),
    ("/b:1-3*,4", Some("/b:1-3*,4")),
    ("/b:10,9,8,7*,6*", Some("/b:6-7*,8-10")),
    ("/b:1-5,3*", None),
    ("/b:3*,3", None),
    ("/b:1-5*\n/b:3", Some("/b:1-2*,3,4-5*")),
    ("/b:1-5\n/b:3*", Some("/b:1-5")),
    ("b:1\n/b:2*", Some("/b:1,2*")),
    ("/a-b:1\n/a/c:2\n/a:3", Some("/a:3\n/a/c:2\n/a-b:1")),
    ("/b:1-2147483647\n/b:9*", Some("/b:1-2147483647")),
    ("/b/../c\\:1\n", None),
];

static INHERITED: [(&str, &str, &str); 4] = [
    ("/a:1-3,5*\n/b:7*", "/x/y", "/a/x/y:1-3"),
    ("/a:1-3,5*\n/b:7*", "/", "/a:1-3"),
    ("/a:1,2*,3", "/x", "/a/x:1,3"),
    ("/a:1\n/a/b:2", "/c", "/a/b/c:2\n/a/c:1"),
];

#[test]
fn values_are_written_as_subversion_writes_them(rt: HostRuntime) {
    let mut are_right = true;
    for (value, written) in VALUES.iter() {
        are_right &= is_written(&rt, rt.alloc(), value, *written);
    }
    assert!(rt; are_right);
}

#[test]
fn inheritable_ranges_are_inherited(rt: HostRuntime) {
    let mut are_right = true;
    for (value, rest, written) in INHERITED.iter() {
        are_right &= is_inherited(&rt, rt.alloc(), value, rest, written);
    }
    assert!(rt; are_right);
}
