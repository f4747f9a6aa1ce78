//! A list with as many items as there can be.

use pvec::{PVec, PushFault};
use std::alloc::Global;
use std::process::Abort;
use std::sync::Arc;

/// Makes an item.
fn item(rt: &impl Abort, alloc: Global) -> Arc<u64> {
    Arc::new(alloc, 0u64).expect(rt, "memory")
}

/// Makes a list of so many items.
fn list_of(rt: &impl Abort, alloc: Global, count: u32) -> PVec<u64> {
    let mut list = PVec::new(alloc).expect(rt, "memory");
    for _ in 0..count {
        list = list.pushed(alloc, item(rt, alloc)).expect(rt, "a place");
    }
    list
}

/// A list of 262,144 items takes no further one, and stays as it is.
#[test]
fn a_full_list_takes_no_item(rt: HostRuntime) {
    let list = list_of(&rt, rt.alloc(), 262_144);
    let told = list.pushed(rt.alloc(), item(&rt, rt.alloc()));
    let is_full = matches!(told, Err(PushFault::Full));
    assert!(rt; is_full && list.len() == 262_144);
}
