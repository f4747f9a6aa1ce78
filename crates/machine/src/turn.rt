//! What a step of a session takes with it.
use crate::env::Env;
use std::alloc::Global;

/// What a step of a session takes with it: where it has its memory from, what the call hands in from outside, as far
/// as it is not used yet, and where the replies go.
#[derive(Drop)]
pub struct Turn<S> {
    pub alloc: Global,
    pub env: Env,
    pub out: S,
}
