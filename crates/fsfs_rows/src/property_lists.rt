//! A list of properties that grows from a few to many, and is emptied again.

use byte_string::ByteString;
use repo_api::Properties;
use std::alloc::Global;
use std::process::Abort;

/// Names of one byte each, more than are a few, in no order.
static NAMES: [u8; 24] = [
    12, 3, 20, 7, 0, 16, 23, 9, 1, 14, 5, 18, 11, 22, 2, 8, 19, 13, 6, 21, 10, 4, 17, 15,
];

/// Makes bytes.
fn bytes(rt: &impl Abort, alloc: Global, bytes: &[u8]) -> ByteString {
    ByteString::from_slice(alloc, bytes).expect(rt, "memory")
}

/// Sets the property of this name.
fn set(rt: &impl Abort, alloc: Global, properties: &mut Properties, name: u8, value: &[u8]) {
    let name = bytes(rt, alloc, &[name]);
    let value = bytes(rt, alloc, value);
    properties.set(name, value).expect(rt, "memory");
}

/// Appends bytes.
fn append(rt: &impl Abort, list: &mut Vec<u8>, bytes: &[u8]) {
    list.extend_from_slice(bytes).expect(rt, "memory");
}

/// Lists each name, followed by its value.
fn listed(rt: &impl Abort, alloc: Global, properties: &Properties) -> Vec<u8> {
    let mut list = Vec::new(alloc);
    for (name, value) in properties.iter() {
        append(rt, &mut list, name.as_slice());
        append(rt, &mut list, value.as_slice());
    }
    list
}

/// Lists what is wanted: each of the names in order, followed by the value that all have.
fn wanted(rt: &impl Abort, alloc: Global, names: &[u8], value: &[u8]) -> Vec<u8> {
    let mut names = Vec::from_slice(alloc, names).expect(rt, "memory");
    names.sort().expect(rt, "memory");
    let mut list = Vec::new(alloc);
    for name in &names {
        append(rt, &mut list, &[*name]);
        append(rt, &mut list, value);
    }
    list
}

/// Says whether the property of this name has the value.
fn is_value(properties: &Properties, name: &ByteString, value: &[u8]) -> bool {
    match properties.get(name) {
        Some(found) => found.as_slice() == value,
        None => false,
    }
}

/// Says whether the list has these names alone, each with the value, and finds the value by each name.
fn has(
    rt: &impl Abort,
    alloc: Global,
    properties: &Properties,
    names: &[u8],
    value: &[u8],
) -> bool {
    for name in names {
        if !is_value(properties, &bytes(rt, alloc, &[*name]), value) {
            return false;
        }
    }
    listed(rt, alloc, properties) == wanted(rt, alloc, names, value)
}

#[test]
fn a_list_grows_and_is_emptied(rt: HostRuntime) {
    let alloc = rt.alloc();
    let mut properties = Properties::new(alloc);
    for place in 0..24 {
        set(&rt, alloc, &mut properties, NAMES[place], b"one");
        assert!(rt;
            has(&rt, alloc, &properties, &NAMES[..place + 1], b"one"),
            "{place}"
        );
    }
    for name in &NAMES {
        set(&rt, alloc, &mut properties, *name, b"other");
    }
    let copy = properties.clone().expect(&rt, "memory");
    for place in 0..24 {
        assert!(rt;
            has(&rt, alloc, &properties, &NAMES[place..], b"other"),
            "{place}"
        );
        properties.remove(&bytes(&rt, alloc, &[NAMES[place]]));
    }
    assert!(rt; properties.is_empty() && has(&rt, alloc, &copy, &NAMES, b"other"));
}
