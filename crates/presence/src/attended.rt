//! A repository as the session of a client reaches it, who may have gone.
ghost use Rattle.std.specs.Prelude.{◌≡◌};

use crate::client::Presence;
use crate::deed::{Deed, deed_of, failed_deed};
use crate::view::AttendedView;
use access::{Committed, NotCommitted, RepoAccess, SharedAccess};
use byte_string::ByteString;
use repo_api::{ChangeFault, CommitAsk, LockAsk, PropertyAsk, Repository, UnlockAsk};
use std::alloc::AllocError;
use std::cell::Cell;
use std::mem::{self, drop};
use svnpath::Path;

/// An access to a repository for a client: once it has gone, no more directories are listed, as where memory runs out, and
/// long work that is not answered ends so.
#[derive(Drop)]
pub struct AttendedAccess<A, P> {
    pub access: A,
    client: P,
}

impl<A: RepoAccess + Drop, P: Presence> AttendedAccess<A, P> {
    /// Makes an access for no client yet.
    pub fn new(access: A) -> Self
        ensures { result.access ≡ access }
    {
        AttendedAccess {
            access,
            client: P::nobody(),
        }
    }

    /// Gives the access, for no client any more.
    pub fn into_access(self) -> A
        ensures { result ≡ self.access }
    {
        let AttendedAccess { access, client } = self;
        drop(client);
        access
    }

    /// Serves this client from now on.
    pub fn attend(&mut self, client: P)
        ensures { self.new.access ≡ self.old.access }
    {
        drop(mem::replace(&mut self.client, client));
    }
}

/// Copies the name of a user, if there is one, and memory for it.
fn user_of(user: &Option<ByteString>) -> Option<ByteString> {
    match user.clone() {
        Ok(user) => user,
        Err(AllocError) => None,
    }
}

/// Says what a commit has come to.
fn commit_deed(done: &Result<Committed, NotCommitted>) -> Option<Deed<'_>> {
    match done {
        Ok(committed) => Some(Deed::Commits(committed.revision)),
        Err(not) => failed_deed(not.fault, not.path.as_ref()),
    }
}

/// Notes what a client has done, if anything is to be said of it.
fn note<P: Presence>(client: &P, user: &Option<ByteString>, deed: Option<Deed<'_>>) {
    if let Some(deed) = deed {
        client.notes(user.as_ref(), deed);
    }
}

impl<A: RepoAccess + Drop, P: Presence> RepoAccess for AttendedAccess<A, P> {
    type View = AttendedView<A::View, P>;

    ghost point = { λ a. A.point a.access };

    ghost rules = { A.rules };

    ghost stays = { A.stays };

    ghost goes_on = { A.goes_on };

    ghost keeps = { A.keeps };

    ghost sound = { A.sound };

    ghost lasts = { A.lasts };

    ghost counts = { A.counts };

    fn look(&mut self) -> Result<AttendedView<A::View, P>, AllocError> {
        if self.client.is_gone_meanwhile() {
            return Err(AllocError);
        }
        let view = self.access.look()?;
        let client = self.client.share()?;
        Ok(AttendedView {
            view,
            client,
            listed: Cell::new(0),
        })
    }

    fn is_halted(&self) -> bool {
        self.access.is_halted()
    }

    fn commit(
        &mut self,
        ask: CommitAsk,
        txn: <A::View as Repository>::Txn,
    ) -> Result<Committed, NotCommitted> {
        let user = user_of(&ask.author);
        let done = self.access.commit(ask, txn);
        note(&self.client, &user, commit_deed(&done));
        done
    }

    fn lock(&mut self, ask: LockAsk) -> Result<(), ChangeFault> {
        let user = user_of(&ask.user);
        let path: Result<Path, AllocError> = ask.path.clone();
        let done = self.access.lock(ask);
        if let Ok(path) = &path {
            note(
                &self.client,
                &user,
                deed_of(Deed::Locks(path), Some(path), done),
            );
        }
        done
    }

    fn unlock(&mut self, ask: &UnlockAsk) -> Result<(), ChangeFault> {
        let done = self.access.unlock(ask);
        let path = &ask.path;
        note(
            &self.client,
            &ask.user,
            deed_of(Deed::Unlocks(path), Some(path), done),
        );
        done
    }

    fn set_rev_prop(&mut self, ask: PropertyAsk) -> Result<(), ChangeFault> {
        let revision = ask.revision;
        let name: Result<ByteString, AllocError> = ask.name.clone();
        let done = self.access.set_rev_prop(ask);
        if let Ok(name) = &name {
            let deed = deed_of(Deed::ChangesProperty(revision, name), None, done);
            note(&self.client, &None, deed);
        }
        done
    }
}

impl<A: SharedAccess + Drop, P: Presence> SharedAccess for AttendedAccess<A, P> {
    ghost others = { A.others };

    ghost counted = { A.counted };
}
