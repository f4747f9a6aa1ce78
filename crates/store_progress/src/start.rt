//! How far a start is, and when it is said.
ghost use Rattle.std.specs.Prelude.{◌≤◌, length};

use fsfs_text::parse_decimal;
use std::io::Eprint;
use std::time::{Clock, Instant};

/// How many seconds pass before it is said how far a start is, and before it is said again.
const SECONDS: u64 = 2;

/// How far a start is. It ends with the youngest revision that there is when it begins.
#[derive(Drop)]
pub struct Start {
    youngest: Option<u64>,
    /// When it was said last how far it is, or when it began.
    said: Option<Instant>,
}

/// Counts the digits that a text begins with.
fn count_digits(text: &[u8]) -> usize
    ensures { result ≤ length text.now }
{
    for (place, byte) in text.iter().enumerate() {
        if !byte.is_ascii_digit() {
            return place;
        }
    }
    text.len()
}

/// Reads the youngest revision, which the file `current` names first.
fn youngest_in(current: &[u8]) -> Option<u64> {
    parse_decimal(&current[..count_digits(current)])
}

impl Start {
    /// Makes a start that has read nothing.
    pub fn new() -> Start {
        Start {
            youngest: None,
            said: None,
        }
    }

    /// Begins, if it has not, with what the file `current` contains.
    pub fn begin<R: Clock>(&mut self, rt: &R, current: &[u8]) {
        if self.said.is_none() {
            self.youngest = youngest_in(current);
            self.said = Instant::now(rt).ok();
        }
    }

    /// Says whether it is time to say how far it is.
    fn is_due<R: Clock>(&self, rt: &R) -> bool {
        match self.said {
            Some(said) => match said.elapsed(rt) {
                Ok(since) => since.as_secs() >= SECONDS,
                Err(_) => false,
            },
            None => false,
        }
    }

    /// Says that the file of a revision is read, if it is time for that. The start is over with that of the youngest one.
    pub fn read<R: Clock + Eprint>(&mut self, rt: &R, revision: u64) {
        let Some(youngest) = self.youngest else {
            return;
        };
        if revision >= youngest {
            self.youngest = None;
            return;
        }
        if self.is_due(rt) {
            // what cannot be said is not needed
            let _ = eprint!(rt; "svnserved: reads revision {revision} of {youngest}\n");
            self.said = Instant::now(rt).ok();
        }
    }
}
