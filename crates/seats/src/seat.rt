//! A seat, which looks and never waits.
ghost use Rattle.std.specs.Prelude.{◌≡◌, IfOk, MatchBool};
ghost use mathlib.Core.List.{IsPrefix};
ghost use Rattle.access.specs.Points.{content_of};
ghost use Rattle.published.specs.{Events.{IsLonger, point_of}, Moments.GoesOn};

use access::Looks;
use crossbeam_utils::rule::Unruled;
use left_right::reader::Reader;
use published::{Author, Carries, Naming, Published};
use repo_api::Repository;
use std::alloc::AllocError;
use std::marker::{Model, PhantomData};

/// A reader of what is published, which makes changes too. Contracts see what it knows: its number, the events that it has
/// seen, and those of them that are its own.
pub struct Seat<R: Repository, J: Naming, T: Carries<Published<R, J>> + Drop> {
    reader: Option<Reader<T, (), Unruled>>,
    pub author: Author<J>,
    of: PhantomData<R>,
}

impl<R: Repository, J: Naming, T: Carries<Published<R, J>> + Drop> Drop for Seat<R, J, T> {
    fn drop(self) {
        let Seat {
            reader: _,
            author: _,
            of: _,
        } = self;
    }
}

impl<R: Repository, J: Naming, T: Carries<Published<R, J>> + Drop> Model for Seat<R, J, T> {
    ghost use Rattle.std.specs.{Prelude.IsSome, Coded.codes, FinMap.code as map_code};
    ghost use Rattle.published.specs.Events.{Known};

    ghost Value = { Known };

    ghost coded = { Prim.hlevel (map_code, codes) };

    ghost view = { λ s. s.author };

    ghost invariant = { λ s. IsSome s.reader };
}

impl<R: Repository, J: Naming, T: Carries<Published<R, J>> + Drop> Seat<R, J, T> {
    /// Makes the seat of an author, which looks by this reader.
    pub fn new(reader: Reader<T, (), Unruled>, author: Author<J>) -> Self
        ensures { result ≡ author }
    {
        Seat {
            reader: Some(reader),
            author,
            of: PhantomData,
        }
    }

    /// Gives the repository as it is now, without a wait.
    pub fn look(&mut self) -> Result<R, AllocError>
        ensures number { self.new.number ≡ self.old.number }
        ensures later { GoesOn (point_of self.old) (point_of self.new) }
        ensures view { IfOk result (λ view. R.content view ≡ content_of (point_of self.new)) }
    {
        let Some(reader) = self.reader.take() else {
            unreachable!()
        };
        match reader.enter_as::<Unruled>() {
            Ok(reading) => {
                let shown = reading.get().carried();
                let view = if self.author.look(shown.front()) {
                    shown.share()
                } else {
                    Err(AllocError)
                };
                self.reader = Some(reading.leave());
                view
            }
            Err(reader) => {
                self.reader = Some(reader);
                Err(AllocError)
            }
        }
    }

    /// Says whether changes are known to have come to a halt.
    pub fn is_halted(&self) -> bool
        ensures { result ≡ (point_of self.now).halted }
    {
        self.author.is_halted()
    }

    /// Says whether it has seen less than another seat of the repository. Then the other's events begin with its own, and
    /// otherwise its events begin with the other's.
    pub fn is_behind(&self, other: &Seat<R, J, T>) -> bool
        ensures { MatchBool result (IsLonger self.now.list other.now.list)
            (IsPrefix other.now.list self.now.list) }
    {
        self.author.is_behind(&other.author)
    }
}

impl<R: Repository, J: Naming, T: Carries<Published<R, J>> + Drop> Looks for Seat<R, J, T> {
    ghost use Rattle.published.specs.{Events.point_of, Moments.{shared_rules, stays, goes_on, keeps, sound, lasts, counts, others, counted}};

    type View = R;

    ghost point = { λ s. point_of s };

    ghost rules = { shared_rules };

    ghost stays = { stays };

    ghost goes_on = { goes_on };

    ghost keeps = { keeps };

    ghost sound = { sound };

    ghost lasts = { lasts };

    ghost counts = { counts };

    ghost others = { others };

    ghost counted = { counted };

    fn look(&mut self) -> Result<R, AllocError> {
        Seat::look(self)
    }

    fn is_halted(&self) -> bool {
        Seat::is_halted(self)
    }
}
