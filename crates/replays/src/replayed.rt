//! A revision that is replayed.
use crate::ask::ReplayAsk;
use repo_api::Repository;

/// The replay of a revision of a repository.
#[derive(Drop)]
pub struct Replayed<'a, R: Repository> {
    pub view: &'a R,
    pub ask: &'a ReplayAsk,
    pub revision: u64,
}
