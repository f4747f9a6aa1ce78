//! A repository that threads share: each looks at it without waiting, and changes it under one lock.
#![tactic(auto)]

mod shared_repo;

pub use shared_repo::{Locked, SharedRepo};
