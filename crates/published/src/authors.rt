//! Who makes changes, and how the history grows.
ghost use Rattle.std.specs.Prelude.{◌≡◌, ◌<◌, ◌+◌, ◌^◌, ◌∷◌, ◌++◌, [], ℕ, true, false, length, slice_index_or, IfOk, IfSome, MatchBool};
ghost use mathlib.Core.List.{IsPrefix};
ghost use Rattle.access.specs.Points.{HasRisen};
ghost use Rattle.published.specs.{Authors.{roll, GrowsBy}, Changes.IsRight, Files.{Agrees, MayOpen}, Moments.GoesOn};
ghost use Rattle.published.specs.Events.{IsHistory, IsLonger, Known, accepted_by, count_in, knowing, own_in, point_of, state_of, told_in};
ghost use Rattle.published.specs.Events.Event.{Fails, Makes, Opened};

use crate::event::{
    AskedChange, ChangeEvent, FailedChange, FailureEvent, Opening, OpeningEvent, SavedChange,
};
use crate::files::Files;
use crate::history::{Book, Front, Naming, NewHistory, Turn, first_front, next_front};
use noted::Noted;
use repo_api::Repository;
use std::alloc::{AllocError, Global};
use std::marker::Model;
use std::mem::drop;

/// Who makes changes: a number that no other has, and a beginning of the history that was seen. Contracts see these, and
/// the changes that it made itself.
#[derive(Drop)]
pub struct Author<J: Naming> {
    number: u64,
    seen: Front<J>,
    /// All that there was as it last met the keeper of the history.
    told: Front<J>,
    /// How many of these events are its own.
    made: u64,
}

impl<J: Naming> Model for Author<J> {
    ghost use Rattle.std.specs.{Prelude.{◌≡◌, ◌<◌, length}, Coded.codes, FinMap.code as map_code};
    ghost use mathlib.Core.List.{IsPrefix};
    ghost use Rattle.published.specs.Events.{Known, count_in, own_in};

    ghost Value = { Known };

    ghost coded = { Prim.hlevel (map_code, codes) };

    ghost view = { λ a. record {
      number = a.number;
      list = a.seen;
      own = own_in a.number a.told;
      count = a.made;
    } };

    ghost invariant = { λ a. (0 < length a.seen) × IsPrefix a.told a.seen × (a.made ≡ count_in a.number a.told) };
}

impl<J: Naming> Author<J> {
    /// Says whether changes have come to a halt in what it has seen.
    pub fn is_halted(&self) -> bool
        ensures { result ≡ (told_in self.now.list).halted }
    {
        self.seen.is_halted()
    }

    /// Takes a later beginning of the history, and says whether it did.
    pub fn look(&mut self, shown: &Front<J>) -> bool
        ensures took { MatchBool result (self.new ≡ record self.old { list = shown.now }) (self.new ≡ self.old) }
        ensures later { GoesOn (point_of self.old) (point_of self.new) }
    {
        self.seen.take(shown)
    }

    /// Says whether it has seen less than the other. Then the other's events begin with its own, and otherwise its events
    /// begin with the other's.
    pub fn is_behind(&self, other: &Author<J>) -> bool
        ensures { MatchBool result (IsLonger self.now.list other.now.list)
            (IsPrefix other.now.list self.now.list) }
    {
        self.seen.is_shorter(&other.seen)
    }
}

/// Gives out the authors of a history: each has a number of its own.
#[derive(Drop)]
pub struct Authors<J: Naming> {
    front: Front<J>,
    next: u64,
    most: u64,
}

impl<J: Naming> Model for Authors<J> {
    ghost use Rattle.std.specs.{Prelude.{ℕ, ◌≡◌, ◌<◌, length}, Coded.codes, FinMap.code as map_code};
    ghost use Rattle.published.specs.{Authors.Roll, Events.count_in};

    ghost Value = { Roll };

    ghost coded = { Prim.hlevel (map_code, codes) };

    ghost view = { λ a. record { next = a.next; list = a.front } };

    ghost invariant = { λ a. (0 < length a.front) × ((n : ℕ) → count_in n a.front ≡ 0) };
}

impl<J: Naming> Authors<J> {
    /// Gives the next, if there is one.
    pub fn give(&mut self) -> Option<Author<J>>
        ensures { IfSome result (λ author. (author ≡ knowing self.old.next self.old.list)
            × (self.new ≡ roll (self.old.next + 1) self.old.list)) }
    {
        if self.next >= self.most {
            return None;
        }
        let number = self.next;
        self.next += 1;
        Some(Author {
            number,
            seen: self.front.again(),
            told: self.front.again(),
            made: 0,
        })
    }
}

/// The whole history, which its keeper alone has: it grows by changes that were saved, and by those that were not.
#[derive(Drop)]
pub struct WholeHistory<J: Naming, S: Files> {
    book: Book<J, S>,
    front: Front<J>,
    /// How many events each author has.
    made: Vec<u64>,
    /// The turn to add the next event, if it was taken and not used.
    turn: Option<Turn<J>>,
}

impl<J: Naming, S: Files> Model for WholeHistory<J, S> {
    ghost use Rattle.std.specs.{Prelude.{◌≡◌, ◌<◌, List, length, IfSome}, Coded.{codes, coded_list}, FinMap.code as map_code};
    ghost use Rattle.published.specs.{Authors.AreCounted, Events.Event};

    ghost Value = { List Event };

    ghost coded = { Prim.hlevel (map_code, codes) };

    ghost view = { λ h. h.front };

    ghost invariant = { λ h. (0 < length h.front) × AreCounted h.made.items h.front
        × IfSome h.turn (λ turn. turn ≡ length h.front) };
}

/// Makes so many zeros.
fn zeros(alloc: Global, count: usize) -> Result<Vec<u64>, AllocError>
    ensures { IfOk result (λ v. (n d : ℕ) → n < length v.items → slice_index_or v.items n d ≡ 0) }
{
    Ok(vec![in alloc; 0; count]?)
}

impl<J: Naming, S: Files> WholeHistory<J, S> {
    /// Begins the history of a repository whose files these are: its opening is the first event. It has so many authors.
    pub fn open<R: Repository>(
        alloc: Global,
        history: NewHistory,
        repository: &R,
        files: &S,
        authors: usize,
    ) -> Result<(WholeHistory<J, S>, Authors<J>), AllocError>
        requires book { history.seen.book ≡ J.book }
        requires stands { MayOpen (S.kept files.now) (R.content repository.now) }
        ensures { IfOk result (λ r. (r.0 ≡ Opened (R.content repository.now) (S.kept files.now).failures ∷ [])
            × (r.1 ≡ roll 0 r.0)) }
    {
        let made = zeros(alloc, authors)?;
        let opening = Opening {
            repository: Noted::of(repository),
            failures: files.failures(),
        };
        let (book, front) = history.named::<J, S>();
        match first_front::<Opening<R>, OpeningEvent, J, S>(&book, &front, &opening) {
            Some(front) => {
                drop(opening);
                let all = Authors {
                    front: front.again(),
                    next: 0,
                    most: authors as u64,
                };
                let history = WholeHistory {
                    book,
                    front,
                    made,
                    turn: None,
                };
                Ok((history, all))
            }
            None => {
                drop((opening, book, front, made));
                Err(AllocError)
            }
        }
    }

    /// Gives all of it as one that may be shown.
    pub fn front(&self) -> &Front<J>
        ensures { (result.now ≡ self.now) × (0 < length self.now) × IsHistory self.now }
    {
        let _len = self.front.len();
        &self.front
    }

    /// Shows an author all of it, and says whether it did. Since it last met this, it has made no change.
    pub fn meet(&self, author: &mut Author<J>) -> bool
        ensures { MatchBool result ((author.new ≡ knowing author.old.number self.now)
            × GoesOn (point_of author.old) (point_of author.new)
            × IsPrefix author.old.list self.now × (count_in author.old.number self.now ≡ author.old.count))
            (author.new ≡ author.old) }
    {
        let number = author.number as usize;
        if number >= self.made.len() || self.made[number] != author.made {
            return false;
        }
        if !author.seen.take(&self.front) {
            return false;
        }
        author.told = self.front.again();
        true
    }

    /// Gives the turn to add the next event, unless another has it.
    pub fn take_turn(&mut self) -> Option<Turn<J>>
        ensures same { self.new ≡ self.old }
        ensures turn { IfSome result (λ turn. turn ≡ length self.old) }
    {
        match self.turn.take() {
            Some(turn) => Some(turn),
            None => self.front.take_turn::<S>(&self.book),
        }
    }

    /// Takes a turn back that was not used.
    pub fn keep_turn(&mut self, turn: Turn<J>)
        requires { turn ≡ length self.old }
        ensures { self.new ≡ self.old }
    {
        self.turn = Some(turn);
    }

    /// Adds a change that an author has made, for which the files stand now, and tells the author.
    pub fn add_change<R: Repository>(
        &mut self,
        turn: Turn<J>,
        author: &mut Author<J>,
        asked: AskedChange<R::Txn>,
        files: &S,
    )
        requires room { length self.old < 2 ^ 60 }
        requires turn { turn ≡ length self.old }
        requires met { author.old ≡ knowing author.old.number self.old }
        requires running { (told_in self.old).halted ≡ false }
        requires right { IsRight (state_of self.old) (accepted_by R.txn_state asked) }
        requires saved { Agrees (S.kept files.now)
            (self.old ++ Makes author.old.number (accepted_by R.txn_state asked) ∷ []) }
        ensures list { self.new ≡ self.old ++ Makes author.old.number (accepted_by R.txn_state asked) ∷ [] }
        ensures told { author.new ≡ knowing author.old.number self.new }
    {
        let change = SavedChange {
            by: author.number,
            asked,
        };
        let next = next_front::<SavedChange<R::Txn>, ChangeEvent<R>, J, S>(
            &self.book,
            turn,
            &self.front,
            &change,
            false,
        );
        drop(change);
        self.tell(author, next);
    }

    /// Adds that the store has failed at a change of an author's, as what keeps the files says now, and tells the author.
    pub fn add_failure<R: Repository>(
        &mut self,
        turn: Turn<J>,
        author: &mut Author<J>,
        asked: AskedChange<R::Txn>,
        files: &S,
    )
        requires room { length self.old < 2 ^ 60 }
        requires turn { turn ≡ length self.old }
        requires met { author.old ≡ knowing author.old.number self.old }
        requires running { (told_in self.old).halted ≡ false }
        requires right { IsRight (state_of self.old) (accepted_by R.txn_state asked) }
        requires risen { HasRisen (told_in self.old).failures (S.kept files.now).failures }
        ensures list { self.new ≡ self.old ++ Fails author.old.number (accepted_by R.txn_state asked)
            (S.kept files.now).halted (S.kept files.now).failures ∷ [] }
        ensures told { author.new ≡ knowing author.old.number self.new }
    {
        let halts = files.is_halted();
        let change = FailedChange {
            by: author.number,
            asked,
            halts,
            failures: files.failures(),
        };
        let next = next_front::<FailedChange<R::Txn>, FailureEvent<R>, J, S>(
            &self.book,
            turn,
            &self.front,
            &change,
            change.halts,
        );
        drop(change);
        self.tell(author, next);
    }

    /// Has one event more, which is this author's, and tells it.
    fn tell(&mut self, author: &mut Author<J>, next: Front<J>)
        requires room { length self.old < 2 ^ 60 }
        requires met { author.old ≡ knowing author.old.number self.old }
        requires grows { GrowsBy author.old.number self.old next }
        ensures list { self.new ≡ next }
        ensures told { author.new ≡ knowing author.old.number next }
    {
        let number = author.number as usize;
        if number < self.made.len() {
            self.made[number] += 1;
        }
        author.made += 1;
        author.seen = next.again();
        author.told = next.again();
        self.front = next;
        self.turn = None;
    }
}
