//! Hubs of new repositories, and the bytes of their sessions.

use access::SoleRepository;
use flatrepo::InMemory;
use hub::{Env, Hub, Options};
use std::alloc::Global;
use std::process::Abort;

/// The UUID of the repositories.
const UUID: u128 = 0x0000_0000_0000_4000_8000_0000_0000_0000;

/// What each call hands in.
pub(crate) const ENV: Env = Env {
    moment: 0,
    token: 0,
    nonce: 0,
};

/// What a client is greeted with.
pub(crate) const GREETING: &[u8] =
    b"( success ( 2 2 ( ) ( edit-pipeline absent-entries commit-revprops depth atomic-revprops ) ) ) ";

/// Makes the options of the repository `r`.
pub(crate) fn options_of_r(rt: &impl Abort, alloc: Global) -> Options {
    Options::new(alloc, "r").expect(rt, "memory")
}

/// Makes a hub of a new repository.
pub(crate) fn new_hub<R: InMemory>(
    rt: &impl Abort,
    alloc: Global,
    options: Options,
) -> Hub<SoleRepository<R>> {
    let repository = R::empty(alloc, UUID, 0).expect(rt, "memory");
    Hub::over_new(alloc, repository, options).expect(rt, "a hub")
}

/// Says whether bytes are these, one after another.
pub(crate) fn are(bytes: &[u8], parts: &[&[u8]]) -> bool {
    let mut rest = bytes;
    for part in parts {
        match rest.strip_prefix(*part) {
            Some(behind) => rest = behind,
            None => return false,
        }
    }
    rest.is_empty()
}
