//! The history of one repository, which exists in the proofs alone.
ghost use Rattle.std.specs.Prelude.{◌≡◌, ◌+◌, ◌<◌, ◌^◌, ◌++◌, ◌∷◌, [], false, length, IfSome, MatchBool};
ghost use mathlib.Core.List.{IsPrefix};
ghost use Rattle.published.specs.{Events.{IsHistory, IsLonger, told_in}, Rules.{head_of, MayAdd}, Moments.ListGoesOn};

use crate::event::Happened;
use crate::files::Files;
use logbook::{Gain, Offer, Pen, Plain, Play, Rule, Seen, Start, Word};
use std::marker::{Brand, Model, PhantomData};
use std::mem::drop;

/// The rule of the history.
pub struct Law;

impl Rule<Happened, u64> for Law {
    ghost use Rattle.std.specs.Prelude.{[]};
    ghost use base.Fml.{ftrue};
    ghost use Rattle.published.specs.Rules.{IsKept};

    ghost holds = { λ cells log. IsKept cells log };

    ghost first = { [] };

    ghost hinted = { λ n log. Unit {0} };

    ghost shows = { λ log. [] };

    ghost keeps = { λ names log. ftrue };

    ghost moves = { λ ask before after answer. Unit {0} };
}

/// Callers trade nothing.
pub struct Nothing;

impl Gain<Happened, u64> for Nothing {
    ghost use base.Fml.{ftrue};

    ghost after = { λ names about answer. ftrue };
}

/// A step that takes the turn to add the next event.
pub struct Take;

impl Play<Happened, u64> for Take {
    ghost use Rattle.published.specs.Rules.{Takes};

    ghost then = { Takes };
}

/// What is asked by a step that adds no event.
pub struct NoEvent;

impl Plain<(), Happened, u64> for NoEvent {
    ghost use Rattle.std.specs.Prelude.{None, []};
    ghost use Rattle.repo_api.specs.Accepted.Accepted.{Releases};
    ghost use Rattle.published.specs.Events.Event.{Makes};

    ghost ask = { λ x. Makes 0 (Releases None []) };

    ghost state = { λ x. None };
}

/// A step that adds an event.
pub struct Add;

impl Play<Happened, u64> for Add {
    ghost use Rattle.published.specs.Rules.{Adds};

    ghost then = { Adds };
}

/// Which history it is. Each call of a program picks it.
pub trait Naming {
    ghost use Rattle.logbook.specs.Pages.{Book};

    ghost book: { Book };
}

impl Naming for Brand {
    ghost book = { record { number = 0; log_name = 0; cells_name = 0 } };
}

/// An empty history, which has no name yet.
#[derive(Drop)]
pub struct NewHistory {
    head: Word<Happened, u64, Law>,
    seen: Seen<Happened, u64, Law>,
    pub ghost empty: { seen.log ≡ [] },
    pub ghost head_is: { head ≡ head_of seen.book },
}

impl NewHistory {
    /// Makes an empty history.
    pub fn new() -> NewHistory {
        let (seen, mut first, _second) = Seen::open(Start::alone(), 0, 0);
        NewHistory {
            head: Word::tracked(0, &mut first),
            seen,
        }
    }

    /// Gives the history under a name, for files of one type, and the front that has seen nothing of it.
    pub(crate) fn named<J: Naming, S: Files>(self) -> (Book<J, S>, Front<J>)
        requires { self.seen.book ≡ J.book }
        ensures { result.1 ≡ [] }
    {
        let NewHistory { head, seen } = self;
        (
            Book {
                head,
                of: PhantomData,
                files: PhantomData,
            },
            Front {
                events: 0,
                is_halted: false,
                seen,
                of: PhantomData,
            },
        )
    }
}

/// The word that has the length of the history. Files of this type alone stand for it.
#[derive(Drop)]
pub(crate) struct Book<J: Naming, S: Files> {
    head: Word<Happened, u64, Law>,
    of: PhantomData<J>,
    files: PhantomData<S>,
    ghost head_is: { head ≡ head_of J.book },
}

/// The turn to add an event to the history: until it is used, nobody else can add one. Contracts see how many events stand
/// before that one.
#[derive(Drop)]
pub struct Turn<J: Naming> {
    pen: Pen,
    of: PhantomData<J>,
}

impl<J: Naming> Model for Turn<J> {
    ghost use Rattle.std.specs.{Prelude.{◌≡◌, ◌-◌, ℕ}, Coded.codes, FinMap.code as map_code};
    ghost use Rattle.published.specs.Rules.{turn_after};

    ghost Value = { ℕ };

    ghost coded = { Prim.hlevel (map_code, codes) };

    ghost view = { λ t. t.pen.nib.key - 2 };

    ghost invariant = { λ t. (t.pen.book ≡ J.book) × (t.pen.nib ≡ turn_after (t.pen.nib.key - 2)) };
}

/// A beginning of the history. Contracts see it as its events.
#[derive(Drop)]
pub struct Front<J: Naming> {
    events: u64,
    is_halted: bool,
    seen: Seen<Happened, u64, Law>,
    of: PhantomData<J>,
}

impl<J: Naming> Model for Front<J> {
    ghost use Rattle.std.specs.{Prelude.{◌≡◌, List, length}, Coded.{codes, coded_list}, FinMap.code as map_code};
    ghost use Rattle.published.specs.Events.{Event, IsHistory, told_in};

    ghost Value = { List Event };

    ghost coded = { Prim.hlevel (map_code, codes) };

    ghost view = { λ f. f.seen.log };

    ghost invariant = { λ f. (f.events ≡ length f.seen.log) × (f.seen.book ≡ J.book) × IsHistory f.seen.log
        × (f.is_halted ≡ (told_in f.seen.log).halted) };
}

impl<J: Naming> Front<J> {
    /// Says how many events it has.
    pub fn len(&self) -> u64
        ensures { (result ≡ length self.now) × IsHistory self.now }
    {
        self.events
    }

    /// Says whether changes have come to a halt in it.
    pub fn is_halted(&self) -> bool
        ensures { result ≡ (told_in self.now).halted }
    {
        self.is_halted
    }

    /// Makes a copy.
    pub fn again(&self) -> Front<J>
        ensures { result ≡ self.now }
    {
        Front {
            events: self.events,
            is_halted: self.is_halted,
            seen: self.seen.again(),
            of: PhantomData,
        }
    }

    /// Says whether it has fewer events than the other. Then the other begins with it, and otherwise it with the other.
    pub fn is_shorter(&self, other: &Front<J>) -> bool
        ensures order { MatchBool result (IsLonger self.now other.now)
            (IsPrefix other.now self.now) }
        ensures histories { IsHistory self.now × IsHistory other.now }
    {
        let mut both = self.seen.again();
        both.learn(&other.seen);
        self.events < other.events
    }

    /// Says whether the two are equal.
    pub fn is_same(&self, other: &Front<J>) -> bool
        ensures { MatchBool result (self.now ≡ other.now) (Unit {0}) }
    {
        let mut both = self.seen.again();
        both.learn(&other.seen);
        self.events == other.events
    }

    /// Takes the other for its own unless that is shorter, and says whether it did.
    pub fn take(&mut self, other: &Front<J>) -> bool
        requires { 0 < length self.old }
        ensures took { MatchBool result (self.new ≡ other.now) (self.new ≡ self.old) }
        ensures later { ListGoesOn self.old self.new }
    {
        if other.is_shorter(self) {
            return false;
        }
        *self = other.again();
        true
    }

    /// Takes the turn to add an event to what was seen, unless the history is longer or another has the turn.
    pub(crate) fn take_turn<S: Files>(&self, book: &Book<J, S>) -> Option<Turn<J>>
        ensures { IfSome result (λ turn. turn ≡ length self.now) }
    {
        let events = self.events;
        if events == u64::MAX {
            return None;
        }
        let mut seen = self.seen.again();
        let mut offer: Offer<Happened, u64, Law, Nothing> = seen.plain::<Nothing, (), NoEvent>(&());
        let mut pen = seen.no_pen();
        let found = book
            .head
            .compare_exchange::<Take, Nothing>(events, events + 1, &mut seen, &mut offer, &mut pen);
        if found != events {
            return None;
        }
        drop(Word::<Happened, u64, Law>::tracked(0, &mut pen));
        Some(Turn {
            pen,
            of: PhantomData,
        })
    }

    /// Adds an event to all that was seen, in its turn. After it changes have come to a halt, or not.
    fn add<X, M: Plain<X, Happened, u64>, S: Files>(
        &mut self,
        book: &Book<J, S>,
        turn: Turn<J>,
        about: &X,
        is_halted: bool,
    )
        requires room { length self.old < 2 ^ 62 }
        requires turn { turn ≡ length self.old }
        requires may { MayAdd M.Plain self.old about.now }
        requires halted { is_halted ≡ (told_in (self.old ++ M.ask about.now ∷ [])).halted }
        ensures { self.new ≡ self.old ++ M.ask about.now ∷ [] }
    {
        let Turn { mut pen, of: _ } = turn;
        let mut seen = self.seen.again();
        let mut offer: Offer<Happened, u64, Law, Nothing> = seen.plain::<Nothing, X, M>(about);
        let events = self.events + 1;
        let _ = book
            .head
            .compare_exchange::<Add, Nothing>(events, events, &mut seen, &mut offer, &mut pen);
        self.events = events;
        self.is_halted = is_halted;
        self.seen = seen;
    }
}

/// Makes the front with the first event, unless somebody has added one.
pub(crate) fn first_front<X, M: Plain<X, Happened, u64>, J: Naming, S: Files>(
    book: &Book<J, S>,
    front: &Front<J>,
    about: &X,
) -> Option<Front<J>>
    requires room { length front.now < 2 ^ 60 }
    requires may { MayAdd M.Plain front.now about.now }
    requires halted { false ≡ (told_in (front.now ++ M.ask about.now ∷ [])).halted }
    ensures { IfSome result (λ next. next ≡ front.now ++ M.ask about.now ∷ []) }
{
    let turn = front.take_turn::<S>(book)?;
    Some(next_front::<X, M, J, S>(book, turn, front, about, false))
}

/// Makes the front with an event more, in its turn.
pub(crate) fn next_front<X, M: Plain<X, Happened, u64>, J: Naming, S: Files>(
    book: &Book<J, S>,
    turn: Turn<J>,
    front: &Front<J>,
    about: &X,
    is_halted: bool,
) -> Front<J>
    requires room { length front.now < 2 ^ 60 }
    requires turn { turn ≡ length front.now }
    requires may { MayAdd M.Plain front.now about.now }
    requires halted { is_halted ≡ (told_in (front.now ++ M.ask about.now ∷ [])).halted }
    ensures { (result ≡ front.now ++ M.ask about.now ∷ []) × IsHistory result }
{
    let mut next = front.again();
    next.add::<X, M, S>(book, turn, about, is_halted);
    let _ = next.len();
    next
}
