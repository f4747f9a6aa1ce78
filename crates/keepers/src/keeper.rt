//! The keeper of a repository: it alone changes it.
ghost use Rattle.std.specs.Prelude.{◌≡◌, ◌<◌, ◌^◌, ◌+◌, ◌∷◌, [], ℕ, slice_get, Some, IfOk, MatchBool};
ghost use Rattle.published.specs.{Authors.roll, Edition.edition_after, Events.{Known, accepted_by, knowing, state_of}, Files.MayOpen};
ghost use Rattle.archives.specs.Archives.{IsNext};
ghost use Rattle.keepers.specs.{Settling.SettlesTo, Standing.{Begins, CanBegin, HappensAt, IsOpened, IsSteady, Meets, StopLeaves}};

use archives::{Archive, Publisher, SaveFault};
use left_right::Absorb;
use published::{
    AskedChange, Authors, Carries, Desk, Front, Naming, NewHistory, Published, Sets, WholeHistory,
};
use repo_api::{ChangeFault, Repository};
use seats::Seat;
use std::alloc::{AllocError, Global};
use std::marker::Model;
use std::mem::{self, drop};
use std::sync::Wait;

/// How many seats there are at most.
pub const MAX_SEATS: usize = 65_536;

/// How many events there are at most.
const MAX_EVENTS: u64 = 1 << 60;

/// A repository, its history and what publishes it, and its archive.
pub struct Keeper<
    R: Repository,
    S: Archive<R>,
    J: Naming,
    T: Absorb<O> + Carries<Published<R, J>> + Drop,
    O: Sets<Published<R, J>> + Drop,
> {
    alloc: Global,
    publisher: Publisher<R, S, J, T, O>,
    repository: R,
    archive: S,
    has_ended: bool,
}

impl<
    R: Repository,
    S: Archive<R>,
    J: Naming,
    T: Absorb<O> + Carries<Published<R, J>> + Drop,
    O: Sets<Published<R, J>> + Drop,
> Drop for Keeper<R, S, J, T, O> {
    fn drop(self) {
        let Keeper {
            alloc: _,
            publisher: _,
            repository: _,
            archive: _,
            has_ended: _,
        } = self;
    }
}

impl<
    R: Repository,
    S: Archive<R>,
    J: Naming,
    T: Absorb<O> + Carries<Published<R, J>> + Drop,
    O: Sets<Published<R, J>> + Drop,
> Model for Keeper<R, S, J, T, O> {
    ghost use Rattle.std.specs.{Coded.codes, FinMap.code as map_code};
    ghost use Rattle.keepers.specs.Standing.{Standing, standing, IsSteady};

    ghost Value = { Standing S };

    ghost coded = { Prim.hlevel (map_code, codes) };

    ghost view = { λ k. standing k.publisher.history (R.content k.repository)
        (T.carried_value k.publisher.desk.writer.desk.shown.value) k.archive };

    ghost invariant = { λ k. IsSteady S.kept S.stands (standing k.publisher.history (R.content k.repository)
        (T.carried_value k.publisher.desk.writer.desk.shown.value) k.archive) };
}

/// Makes so many seats of these authors.
fn seat_all<
    R: Repository,
    J: Naming,
    T: Absorb<O> + Carries<Published<R, J>> + Drop,
    O: Sets<Published<R, J>> + Drop,
>(
    alloc: Global,
    desk: &Desk<T, O>,
    authors: &mut Authors<J>,
    seats: usize,
) -> Result<Vec<Seat<R, J, T>>, AllocError>
    requires { authors.old.next ≡ 0 }
    ensures { IfOk result (λ v. (n : ℕ) (seat : Known) → slice_get v.items n ≡ Some seat
        → seat ≡ knowing n authors.old.list) }
{
    let mut all = Vec::new(alloc);
    for _ in 0..seats {
        let seat = seat_at(desk, authors)?;
        all.push(seat)?;
    }
    Ok(all)
}

/// Makes a seat of the next author.
fn seat_at<
    R: Repository,
    J: Naming,
    T: Absorb<O> + Carries<Published<R, J>> + Drop,
    O: Sets<Published<R, J>> + Drop,
>(desk: &Desk<T, O>, authors: &mut Authors<J>) -> Result<Seat<R, J, T>, AllocError>
    ensures { IfOk result (λ s. (s ≡ knowing authors.old.next authors.old.list)
        × (authors.new ≡ roll (authors.old.next + 1) authors.old.list)) }
{
    let reader = desk.reader()?;
    match authors.give() {
        Some(author) => Ok(Seat::new(reader, author)),
        None => {
            drop(reader);
            Err(AllocError)
        }
    }
}

/// Makes the two copies, and the writer over them.
fn desk_at<
    R: Repository,
    J: Naming,
    T: Absorb<O> + Carries<Published<R, J>> + Drop,
    O: Sets<Published<R, J>> + Drop,
>(alloc: Global, repository: &R, front: &Front<J>, seats: usize) -> Result<Desk<T, O>, AllocError>
    requires seats { (0 < seats) × (seats < 2 ^ 32) }
    requires alike { (x y : T) → T.state x ≡ T.state y }
    requires stands { R.content repository.now ≡ state_of front.now }
    ensures { IfOk result (λ d. T.carried_value d.writer.desk.shown.value
        ≡ edition_after front.now) }
{
    let first = T::carry(Published::new(repository.share()?, front.again()));
    let second = T::carry(Published::new(repository.share()?, front.again()));
    Desk::new(alloc, first, second, seats)
}

/// Makes the writer over the two copies, with so many seats.
fn open_desk<
    R: Repository,
    J: Naming,
    T: Absorb<O> + Carries<Published<R, J>> + Drop,
    O: Sets<Published<R, J>> + Drop,
>(
    alloc: Global,
    repository: &R,
    front: &Front<J>,
    authors: &mut Authors<J>,
    seats: usize,
) -> Result<(Desk<T, O>, Vec<Seat<R, J, T>>), AllocError>
    requires alike { (x y : T) → T.state x ≡ T.state y }
    requires stands { R.content repository.now ≡ state_of front.now }
    requires next { authors.old.next ≡ 0 }
    ensures desk { IfOk result (λ opened. T.carried_value opened.0.writer.desk.shown.value
        ≡ edition_after front.now) }
    ensures seats { IfOk result (λ opened. (n : ℕ) (seat : Known) → slice_get opened.1.items n ≡ Some seat
        → seat ≡ knowing n authors.old.list) }
{
    if seats == 0 || seats > MAX_SEATS {
        return Err(AllocError);
    }
    let desk = desk_at(alloc, repository, front, seats)?;
    match seat_all(alloc, &desk, authors, seats) {
        Ok(seats) => Ok((desk, seats)),
        Err(error) => {
            drop(desk);
            Err(error)
        }
    }
}

impl<
    R: Repository,
    S: Archive<R>,
    J: Naming,
    T: Absorb<O> + Carries<Published<R, J>> + Drop,
    O: Sets<Published<R, J>> + Drop,
> Keeper<R, S, J, T, O> {
    /// Makes a keeper of a repository, whose files the archive has, and so many seats.
    pub fn open(
        alloc: Global,
        repository: R,
        archive: S,
        seats: usize,
        history: NewHistory,
    ) -> Result<(Keeper<R, S, J, T, O>, Vec<Seat<R, J, T>>), AllocError>
        requires book { history.seen.book ≡ J.book }
        requires alike { (x y : T) → T.state x ≡ T.state y }
        requires stands { MayOpen (S.kept archive) (R.content repository) }
        ensures { IfOk result (IsOpened S.kept S.stands archive (R.content repository)) }
    {
        match WholeHistory::<J, S>::open::<R>(alloc, history, &repository, &archive, seats) {
            Ok((history, mut authors)) => {
                match open_desk(alloc, &repository, history.front(), &mut authors, seats) {
                    Ok((desk, seats)) => {
                        drop(authors);
                        let keeper = Keeper {
                            alloc,
                            publisher: Publisher::new(history, desk),
                            repository,
                            archive,
                            has_ended: false,
                        };
                        Ok((keeper, seats))
                    }
                    Err(error) => {
                        drop((authors, history));
                        drop((repository, archive));
                        Err(error)
                    }
                }
            }
            Err(error) => {
                drop((repository, archive));
                Err(error)
            }
        }
    }

    /// Ends it, unless memory is refused: looks and changes are then refused. What it has published is
    /// given up, and a copy of it that no seat reads stands in its place.
    pub fn end<W: Wait>(&mut self, rt: &W) -> Result<(), AllocError>
        requires { (x y : T) → T.state x ≡ T.state y }
        ensures { self.new ≡ self.old }
    {
        let desk = desk_at(
            self.alloc,
            &self.repository,
            self.publisher.history.front(),
            1,
        )?;
        let ended = mem::replace(&mut self.publisher.desk, desk);
        ended.close(rt);
        self.has_ended = true;
        Ok(())
    }

    /// Gives what keeps the files.
    pub fn archive(&self) -> &S
        ensures archive { result.now ≡ self.now.archive }
        ensures steady { IsSteady S.kept S.stands self.now }
    {
        &self.archive
    }

    /// Gives the repository as it is now.
    pub fn repository(&self) -> &R
        ensures repository { R.content result.now ≡ self.now.content }
        ensures steady { IsSteady S.kept S.stands self.now }
    {
        &self.repository
    }

    /// Says whether a change can begin, or why none can.
    pub fn readiness(&self) -> Result<(), ChangeFault>
        ensures { IsSteady S.kept S.stands self.now × Begins S.kept result self.now }
    {
        if self.archive.is_halted() {
            return Err(ChangeFault::Halted);
        }
        if self.has_ended || self.publisher.history.front().len() >= MAX_EVENTS {
            return Err(ChangeFault::NoMemory);
        }
        Ok(())
    }

    /// Shows a seat where the keeper stands, and says whether it did. Its events begin with those of the seat, and since the
    /// seat last met it, none was the seat's own.
    pub fn meet(&self, seat: &mut Seat<R, J, T>) -> bool
        ensures meets { MatchBool result (Meets seat.old self.now seat.new) (seat.new ≡ seat.old) }
        ensures steady { IsSteady S.kept S.stands self.now }
    {
        self.publisher.history.meet(&mut seat.author)
    }

    /// Saves what a change of a seat's has made, the next repository and what is to be written, and publishes it. Where the
    /// store fails, that is published.
    pub fn settle<W: Wait>(
        &mut self,
        rt: &W,
        seat: &mut Seat<R, J, T>,
        made: (R, S::Unsaved),
        asked: AskedChange<R::Txn>,
    ) -> Result<(), ChangeFault>
        requires ready { CanBegin S.kept self.old }
        requires met { seat.old ≡ knowing seat.old.number self.old.list }
        requires next { IsNext self.old.content (accepted_by R.txn_state asked) (R.content made.0) }
        requires writes { S.writes self.old.archive made.1 (accepted_by R.txn_state asked) }
        ensures point { HappensAt (SettlesTo (accepted_by R.txn_state asked)) seat.old.number self.old result
            self.new }
        ensures told { seat.new ≡ knowing seat.old.number self.new.list }
        ensures stop { StopLeaves S.kept S.leaves (accepted_by R.txn_state asked ∷ []) self.old self.new }
    {
        let (next, unsaved) = made;
        let ready = match self
            .publisher
            .make_ready(self.alloc, &next, &self.repository, asked)
        {
            Ok(ready) => ready,
            Err(AllocError) => {
                drop((next, unsaved));
                return Err(ChangeFault::NoMemory);
            }
        };
        match self.archive.save(unsaved) {
            Ok(()) => {
                self.publisher
                    .show_change(rt, &mut seat.author, &self.archive, ready);
                self.repository = next;
                Ok(())
            }
            Err(SaveFault::NoMemory) => {
                drop(next);
                self.publisher.put_back(ready);
                Err(ChangeFault::NoMemory)
            }
            Err(SaveFault::Device) => {
                drop(next);
                self.publisher
                    .show_failure(rt, &mut seat.author, &self.archive, ready);
                Err(ChangeFault::StoreFailed)
            }
            Err(SaveFault::Halted) => {
                drop(next);
                self.publisher
                    .show_failure(rt, &mut seat.author, &self.archive, ready);
                Err(ChangeFault::Halted)
            }
        }
    }
}
