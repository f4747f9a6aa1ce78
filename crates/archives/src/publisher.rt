//! The history of a repository, and what shows the repository to readers. All that is needed after a save is taken before.
ghost use Rattle.std.specs.Prelude.{◌≡◌, ◌<◌, ◌^◌, [], ◌∷◌, ◌++◌, false, length, IfOk};
ghost use Rattle.access.specs.Points.{HasRisen};
ghost use Rattle.published.specs.{Changes.IsRight, Edition.edition_after, Files.Agrees, Events.{IsHistory, accepted_by, knowing, state_of, told_in}};
ghost use Rattle.published.specs.Events.Event.{Fails, Makes};
ghost use Rattle.archives.specs.Publishing.{AreAtHand, BothContain};

use left_right::Absorb;
use published::{
    AskedChange, Author, Carries, Desk, Files, Front, Naming, Places, Published, Sets, Turn,
    WholeHistory,
};
use repo_api::Repository;
use std::alloc::{AllocError, Global};
use std::marker::PhantomData;
use std::mem::drop;
use std::sync::{Arc, Wait};

/// What is at hand before a save: two copies each of the next repository and of the present one, the places of the
/// operation that publishes the one or the other, what was asked, and the turn to add an event to the history.
#[derive(Drop)]
pub struct Ready<R: Repository, J: Naming> {
    next: (R, R),
    present: (R, R),
    places: Arc<Places<Published<R, J>>>,
    asked: AskedChange<R::Txn>,
    turn: Turn<J>,
}

/// The history of a repository, and what shows the repository to readers.
pub struct Publisher<
    R: Repository,
    S: Files + Drop,
    J: Naming,
    T: Absorb<O> + Carries<Published<R, J>> + Drop,
    O: Sets<Published<R, J>> + Drop,
> {
    pub history: WholeHistory<J, S>,
    pub desk: Desk<T, O>,
    of: PhantomData<R>,
}

impl<
    R: Repository,
    S: Files + Drop,
    J: Naming,
    T: Absorb<O> + Carries<Published<R, J>> + Drop,
    O: Sets<Published<R, J>> + Drop,
> Drop for Publisher<R, S, J, T, O> {
    fn drop(self) {
        let Publisher {
            history: _,
            desk: _,
            of: _,
        } = self;
    }
}

impl<
    R: Repository,
    S: Files + Drop,
    J: Naming,
    T: Absorb<O> + Carries<Published<R, J>> + Drop,
    O: Sets<Published<R, J>> + Drop,
> Publisher<R, S, J, T, O> {
    /// Puts a history together with what shows the repository.
    pub fn new(history: WholeHistory<J, S>, desk: Desk<T, O>) -> Self
        ensures { (result.history ≡ history) × (result.desk ≡ desk) }
    {
        Publisher {
            history,
            desk,
            of: PhantomData,
        }
    }

    /// Takes all that a change needs of memory, and the turn to add an event.
    pub fn make_ready(
        &mut self,
        alloc: Global,
        next: &R,
        present: &R,
        asked: AskedChange<R::Txn>,
    ) -> Result<Ready<R, J>, AllocError>
        ensures history { self.new.history ≡ self.old.history }
        ensures desk { self.new.desk.writer.desk ≡ self.old.desk.writer.desk }
        ensures ready { IfOk result (AreAtHand R.content (R.content next.now) (R.content present.now)
            asked (length self.old.history)) }
    {
        let (next, present) = match share_both(next, present) {
            Ok(copies) => copies,
            Err(error) => {
                drop(asked);
                return Err(error);
            }
        };
        match self.take_places(alloc) {
            Ok((places, turn)) => Ok(Ready {
                next,
                present,
                places,
                asked,
                turn,
            }),
            Err(error) => {
                drop((next, present));
                drop(asked);
                Err(error)
            }
        }
    }

    /// Takes the places of the next value, and the turn to add an event.
    fn take_places(
        &mut self,
        alloc: Global,
    ) -> Result<(Arc<Places<Published<R, J>>>, Turn<J>), AllocError>
        ensures history { self.new.history ≡ self.old.history }
        ensures desk { self.new.desk.writer.desk ≡ self.old.desk.writer.desk }
        ensures turn { IfOk result (λ taken. taken.1 ≡ length self.old.history) }
    {
        let places = pend_places(alloc, &mut self.desk)?;
        match self.history.take_turn() {
            Some(turn) => Ok((places, turn)),
            None => {
                drop(places);
                Err(AllocError)
            }
        }
    }

    /// Takes back what was at hand before a save that lacked memory.
    pub fn put_back(&mut self, ready: Ready<R, J>)
        requires { ready.turn ≡ length self.old.history }
        ensures history { self.new.history ≡ self.old.history }
        ensures desk { self.new.desk ≡ self.old.desk }
    {
        let Ready {
            next,
            present,
            places,
            asked,
            turn,
        } = ready;
        drop((next, present));
        drop((places, asked));
        self.history.keep_turn(turn);
    }

    /// Adds a change that was saved to the history, and publishes the repository after it.
    pub fn show_change<W: Wait>(
        &mut self,
        rt: &W,
        author: &mut Author<J>,
        files: &S,
        ready: Ready<R, J>,
    )
        requires room { length self.old.history < 2 ^ 60 }
        requires turn { ready.turn ≡ length self.old.history }
        requires met { author.old ≡ knowing author.old.number self.old.history }
        requires running { (told_in self.old.history).halted ≡ false }
        requires right { IsRight (state_of self.old.history) (accepted_by R.txn_state ready.asked) }
        requires saved { Agrees (S.kept files.now) (self.old.history
            ++ Makes author.old.number (accepted_by R.txn_state ready.asked) ∷ []) }
        requires ready { BothContain R.content (state_of (self.old.history
            ++ Makes author.old.number (accepted_by R.txn_state ready.asked) ∷ [])) ready.next }
        ensures list { self.new.history ≡ self.old.history
            ++ Makes author.old.number (accepted_by R.txn_state ready.asked) ∷ [] }
        ensures right { IsHistory self.new.history }
        ensures told { author.new ≡ knowing author.old.number self.new.history }
        ensures shown { T.carried_value self.new.desk.writer.desk.shown.value
            ≡ edition_after self.new.history }
    {
        let Ready {
            next,
            present,
            places,
            asked,
            turn,
        } = ready;
        drop(present);
        self.history.add_change::<R>(turn, author, asked, files);
        fill(places, next, self.history.front());
        publish(rt, &mut self.desk, self.history.front());
    }

    /// Adds a failure of the store to the history, and publishes the repository, which stays as it was.
    pub fn show_failure<W: Wait>(
        &mut self,
        rt: &W,
        author: &mut Author<J>,
        files: &S,
        ready: Ready<R, J>,
    )
        requires room { length self.old.history < 2 ^ 60 }
        requires begun { 0 < length self.old.history }
        requires turn { ready.turn ≡ length self.old.history }
        requires met { author.old ≡ knowing author.old.number self.old.history }
        requires running { (told_in self.old.history).halted ≡ false }
        requires right { IsRight (state_of self.old.history) (accepted_by R.txn_state ready.asked) }
        requires risen { HasRisen (told_in self.old.history).failures (S.kept files.now).failures }
        requires ready { BothContain R.content (state_of self.old.history) ready.present }
        ensures list { self.new.history ≡ self.old.history
            ++ Fails author.old.number (accepted_by R.txn_state ready.asked)
            (S.kept files.now).halted (S.kept files.now).failures ∷ [] }
        ensures right { IsHistory self.new.history }
        ensures told { author.new ≡ knowing author.old.number self.new.history }
        ensures shown { T.carried_value self.new.desk.writer.desk.shown.value
            ≡ edition_after self.new.history }
    {
        let Ready {
            next,
            present,
            places,
            asked,
            turn,
        } = ready;
        drop(next);
        self.history.add_failure::<R>(turn, author, asked, files);
        fill(places, present, self.history.front());
        publish(rt, &mut self.desk, self.history.front());
    }
}

/// Makes two copies each of two repositories.
fn share_both<R: Repository>(next: &R, present: &R) -> Result<((R, R), (R, R)), AllocError>
    ensures { IfOk result (λ copies. BothContain R.content (R.content next.now) copies.0
        × BothContain R.content (R.content present.now) copies.1) }
{
    let next = share_twice(next)?;
    match share_twice(present) {
        Ok(present) => Ok((next, present)),
        Err(error) => {
            drop(next);
            Err(error)
        }
    }
}

/// Makes two copies of a repository.
fn share_twice<R: Repository>(repository: &R) -> Result<(R, R), AllocError>
    ensures { IfOk result (BothContain R.content (R.content repository.now)) }
{
    let first = repository.share()?;
    match repository.share() {
        Ok(second) => Ok((first, second)),
        Err(error) => {
            drop(first);
            Err(error)
        }
    }
}

/// Puts the operation behind what is pending by which the next value is published, and gives its places.
fn pend_places<P: Drop, T: Absorb<O> + Drop, O: Sets<P> + Drop>(
    alloc: Global,
    desk: &mut Desk<T, O>,
) -> Result<Arc<Places<P>>, AllocError>
    ensures { desk.new.writer.desk ≡ desk.old.writer.desk }
{
    let places = Arc::new(alloc, Places::new())?;
    match Arc::try_clone(&places) {
        Ok(pending) => match desk.pend(O::set(pending)) {
            Ok(()) => Ok(places),
            Err(operation) => {
                drop(operation);
                drop(places);
                Err(AllocError)
            }
        },
        Err(_) => {
            drop(places);
            Err(AllocError)
        }
    }
}

/// Puts two copies into their places, at this front.
fn fill<R: Repository, J: Naming>(
    places: Arc<Places<Published<R, J>>>,
    copies: (R, R),
    front: &Front<J>,
)
    requires { BothContain R.content (state_of front.now) copies }
{
    let (first, second) = copies;
    let first = Published::new(first, front.again());
    let second = Published::new(second, front.again());
    places.fill(first, second);
}

/// Publishes what is pending, until it is the value at this front.
fn publish<
    R: Repository,
    J: Naming,
    T: Absorb<O> + Carries<Published<R, J>> + Drop,
    O: Sets<Published<R, J>> + Drop,
    W: Wait,
>(rt: &W, desk: &mut Desk<T, O>, front: &Front<J>)
    ensures { T.carried_value desk.new.writer.desk.shown.value ≡ edition_after front.now }
{
    for _ in rt.forever() {
        let _ = desk.show(rt);
        if desk.published().carried().front().is_same(front) {
            return;
        }
    }
    unreachable!()
}
