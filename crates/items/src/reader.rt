// A reader of items, which is fed the stream in pieces.
ghost use Rattle.std.specs.Prelude.{◌≡◌, ◌++◌, [], length, IfOk, IfErr, IfSome, IfNone, OnOk, OnErr};

use crate::build::build;
use crate::fault::fault_at;
use crate::item::Item;
use crate::scan::{Defect, End, Lex, Progress, Scan, lacking, proceed};
use bytes::BytesMut;
use std::alloc::{AllocError, Global};
use std::marker::Model;
use thiserror::Error;

/// Why there is no item. A place is the count of the stream's bytes before the one that is wrong; it
/// stays at 2^64 - 1 once there.
#[derive(Clone, Copy, Debug, PartialEq, Eq, Error)]
pub enum ItemFault {
    /// A byte that goes on to no item.
    #[error("malformed item at byte {0}")]
    Malformed(u64),
    /// The `(` of a list within 64 others.
    #[error("lists nested too deep at byte {0}")]
    TooDeep(u64),
    /// The `:` behind a count over 16,777,216.
    #[error("string too long at byte {0}")]
    StringTooLong(u64),
    /// The digit with which a number passes 2^64 - 1.
    #[error("number too large at byte {0}")]
    NumberTooLarge(u64),
    /// Memory ran out.
    #[error("out of memory")]
    NoMemory,
}

impl From<AllocError> for ItemFault {
    ghost use Rattle.items.specs.declared.reader.ItemFault.TheVariants.{NoMemory};
    ghost use Rattle.std.specs.Prelude.{◌≡◌};

    ghost from_gives = { λ _ e. e ≡ NoMemory };

    fn from(_error: AllocError) -> Self {
        ItemFault::NoMemory
    }
}

/// A reader of items, which is fed the stream in pieces. It holds the bytes that were fed and belong
/// to no item yet, and how far they are scanned, so that each byte is scanned once however small the
/// pieces are. In a clause it is an `Unread`: those bytes, and how many came before them.
pub struct ItemReader {
    alloc: Global,
    bytes: BytesMut,
    progress: Progress,
    place: u64,
}

impl Model for ItemReader {
    ghost use Rattle.std.specs.Prelude.{◌<◌};
    ghost use Rattle.items.specs.{Unread.Unread, Run.IsScanned, Tally.IsCounted};

    ghost Value = { Unread };

    ghost view = { λ r. record { place = r.place; rest = r.bytes.items } };

    ghost invariant = { λ r. IsScanned r.bytes.items r.progress.count r.progress.scan
        × IsCounted r.bytes.items r.progress.count r.progress.items };
}

impl Drop for ItemReader {
    fn drop(self) {
        let ItemReader {
            alloc: _,
            bytes: _,
            progress: _,
            place: _,
        } = self;
    }
}

const START: Progress = Progress {
    count: 0,
    items: 0,
    scan: Scan {
        depth: 0,
        lex: Lex::Gap,
    },
};

impl ItemReader {
    ghost use Rattle.items.specs.{Counting.CountsItems, Reading.{Takes, IsFaultOf, HasNone}, View.value_of};

    /// Makes a reader of a stream from its beginning.
    pub fn new(alloc: Global) -> ItemReader
        ensures { result ≡ record { place = 0; rest = [] } }
    {
        ItemReader {
            alloc,
            bytes: BytesMut::new(alloc),
            progress: START,
            place: 0,
        }
    }

    /// Says how many bytes it holds that belong to no item yet.
    pub fn unread_len(&self) -> usize
        ensures { result ≡ length self.now.rest }
    {
        self.bytes.len()
    }

    /// Says how many items, in lists of any depth and with itself, the one that its bytes begin has at least: those
    /// that have begun. No byte is scanned twice for it where `next` has answered none.
    pub fn unread_items(&self) -> usize
        ensures { CountsItems result self.now.rest }
    {
        let (progress, _) = proceed(self.progress, self.bytes.as_slice());
        progress.items + lacking(progress.scan)
    }

    /// Takes the next piece of the stream, which may be cut anywhere. It fails for want of memory
    /// only, and an `Err` changes nothing.
    pub fn feed(&mut self, piece: &[u8]) -> Result<(), ItemFault>
        ensures ok { OnOk result (self.new
            ≡ record self.old { rest = self.old.rest ++ piece.now }) }
        ensures memory { IfErr result (λ e. e ≡ ItemFault.NoMemory) }
        ensures err { OnErr result (self.new ≡ self.old) }
    {
        self.bytes.extend_from_slice(piece)?;
        Ok(())
    }

    /// Gives the next item, or `None` where the bytes so far are too few. Items come out in the
    /// order of the stream, each as soon as the whitespace after it is there. Without an item
    /// nothing changes, so a fault is answered again, and after running out of memory the same call
    /// may succeed.
    pub fn next(&mut self) -> Result<Option<Item>, ItemFault>
        ensures item { IfOk result (λ found. IfSome found
            (λ i. Takes self.old (value_of i) self.new)) }
        ensures none { IfOk result (λ found. IfNone found (HasNone self.old
            × (self.new ≡ self.old))) }
        ensures fault { IfErr result (λ e. IsFaultOf self.old e) }
        ensures err { OnErr result (self.new ≡ self.old) }
    {
        let (progress, end) = proceed(self.progress, self.bytes.as_slice());
        self.progress = progress;
        match end {
            End::More => Ok(None),
            End::Bad(defect) => Err(fault_at(
                defect,
                self.place.saturating_add(progress.count as u64),
            )),
            End::Whole => {
                let len = progress.count + 1;
                let item = build(self.alloc, &self.bytes.as_slice()[..len])?;
                self.bytes.advance(len);
                self.progress = START;
                self.place = self.place.saturating_add(len as u64);
                Ok(Some(item))
            }
        }
    }
}
