//! What has happened to a repository, which proofs alone know.
use access::Handed;
use logbook::Plain;
use noted::Noted;
use repo_api::{CommitAsk, LockAsk, PropertyAsk, Repository, UnlockAsk};
use std::marker::{Model, PhantomData};

/// An event. No value of it is made.
#[derive(Drop)]
pub struct Happened {
    of: PhantomData<()>,
}

impl Model for Happened {
    ghost use Rattle.std.specs.{Prelude.{None, []}, Coded.codes, FinMap.code as map_code};
    ghost use Rattle.repo_api.specs.Accepted.Accepted.{Releases};
    ghost use Rattle.published.specs.{Events.Event, Events.Event.Makes};

    ghost Value = { Event };

    ghost coded = { Prim.hlevel (map_code, codes) };

    ghost view = { λ _. Makes 0 (Releases None []) };
}

/// A repository that is opened, as contracts see it, and how often its store has failed before.
#[derive(Drop)]
pub(crate) struct Opening<R> {
    pub(crate) repository: Noted<R>,
    pub(crate) failures: u64,
}

/// The opening of a repository.
pub(crate) struct OpeningEvent;

impl<R: Repository> Plain<Opening<R>, Happened, u64> for OpeningEvent {
    ghost use Rattle.std.specs.Prelude.{None};
    ghost use Rattle.published.specs.Events.Event.{Opened};

    ghost ask = { λ opening. Opened (R.content opening.repository.value) opening.failures };

    ghost state = { λ opening. None };
}

/// A change that is being made, with what was asked, as contracts see it.
#[derive(Drop)]
pub enum AskedChange<T: Drop> {
    Commit(Noted<CommitAsk>, Noted<T>),
    Lock(Noted<LockAsk>),
    Unlock(Noted<UnlockAsk>),
    Release(Noted<Handed>),
    Property(Noted<PropertyAsk>),
}

/// A change that was saved, and the number of its author.
#[derive(Drop)]
pub(crate) struct SavedChange<T: Drop> {
    pub(crate) by: u64,
    pub(crate) asked: AskedChange<T>,
}

/// A change.
pub(crate) struct ChangeEvent<R: Repository> {
    of: PhantomData<R>,
}

impl<R: Repository> Plain<SavedChange<R::Txn>, Happened, u64> for ChangeEvent<R> {
    ghost use Rattle.std.specs.Prelude.{None};
    ghost use Rattle.published.specs.{Events.accepted_by, Events.Event.Makes};

    ghost ask = { λ change. Makes change.by (accepted_by R.txn_state change.asked) };

    ghost state = { λ change. None };
}

/// A change that was not saved, the number of its author, and what is known of the store since: whether changes have
/// come to a halt, and how often it has failed.
#[derive(Drop)]
pub(crate) struct FailedChange<T: Drop> {
    pub(crate) by: u64,
    pub(crate) asked: AskedChange<T>,
    pub(crate) halts: bool,
    pub(crate) failures: u64,
}

/// A failure of the store.
pub(crate) struct FailureEvent<R: Repository> {
    of: PhantomData<R>,
}

impl<R: Repository> Plain<FailedChange<R::Txn>, Happened, u64> for FailureEvent<R> {
    ghost use Rattle.std.specs.Prelude.{None};
    ghost use Rattle.published.specs.{Events.accepted_by, Events.Event.Fails};

    ghost ask = { λ change. Fails change.by (accepted_by R.txn_state change.asked) change.halts change.failures };

    ghost state = { λ change. None };
}
