//! What is wrong with a name, an address and a file of users, in this order.

use command_line::{Location, Service};
use serving::read_settings;
use std::alloc::Global;
use std::fs;
use std::process::Abort;
use std::rt::Runtime;

/// Makes a copy of a text.
fn text(rt: &impl Abort, alloc: Global, text: &str) -> String {
    String::from_str(alloc, text).expect(rt, "memory")
}

/// Names, addresses with a space between them and files of users, and what is told of the first fault among them.
static FAULTS: [((&str, &str, &str), &str); 10] = [
    (
        (".", "localhost:1", "none"),
        "a name is 1 to 64 of A-Z, a-z, 0-9, `-`, `_` and `.`, and not `.` or `..`",
    ),
    (
        ("r", "localhost:1", "none"),
        "an address is a dotted IPv4 address or an IPv6 address in brackets, `:` and a port",
    ),
    (
        ("r", "127.0.0.1:65536", "none"),
        "an address is a dotted IPv4 address or an IPv6 address in brackets, `:` and a port",
    ),
    (
        ("r", "127.0.0.1", "none"),
        "an address is a dotted IPv4 address or an IPv6 address in brackets, `:` and a port",
    ),
    (("r", "127.0.0.1:1", "none"), "io"),
    (("r", "127.0.0.1:1", "faulty"), "M4 line 3"),
    (("r", "127.0.0.1:1", "users"), ""),
    (("r", "[::1]:1", "users"), ""),
    (("r", "[::1]:1 127.0.0.1:1", "users"), ""),
    (
        ("r", "127.0.0.1:1 localhost:1", "users"),
        "an address is a dotted IPv4 address or an IPv6 address in brackets, `:` and a port",
    ),
];

/// Makes a list of the words of a text.
fn words(rt: &impl Abort, alloc: Global, words: &str) -> Vec<String> {
    let mut list = Vec::new(alloc);
    for word in words.split(' ') {
        list.push(text(rt, alloc, word)).expect(rt, "memory");
    }
    list
}

/// Says whether this is what is told of the fault of an order to serve with this name, address and file of users, or
/// nothing where it has none. There are as many addresses as were asked for.
fn is_told<R: Abort + Runtime>(
    rt: &R,
    alloc: Global,
    (name, listen, users): (&str, &str, &str),
    wanted: &str,
) -> bool {
    let asked = Service {
        location: Location::Memory,
        listen: words(rt, alloc, listen),
        name: text(rt, alloc, name),
        users: text(rt, alloc, users),
        sessions: 16,
        per_address: 16,
        revprops: false,
        quiet: true,
        exit_on_halt: false,
    };
    match read_settings(rt, alloc, &asked) {
        Ok(read) => wanted.is_empty() && read.addresses.len() == asked.listen.len(),
        Err(fault) => format!(in alloc; "{fault}").expect(rt, "memory").as_str() == wanted,
    }
}

#[test]
fn the_first_fault_is_told(rt: HostRuntime) {
    fs::write(&rt, "faulty", b"[users]\ntim = x\ntim = y\n").expect(&rt, "a file");
    fs::write(&rt, "users", b"[users]\nalice = secret\n").expect(&rt, "a file");
    let mut are_told = true;
    for (asked, wanted) in FAULTS.iter() {
        are_told &= is_told(&rt, rt.alloc(), *asked, wanted);
    }
    fs::remove_file(&rt, "faulty").expect(&rt, "the file");
    fs::remove_file(&rt, "users").expect(&rt, "the file");
    assert!(rt; are_told);
}
