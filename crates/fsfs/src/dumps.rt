//! What is known of directories from one revision to the next.
ghost use Rattle.std.specs.Prelude.{◌≡◌, ◌<◌, Ok, IfSome, length};
ghost use Rattle.fsfs_nodes.specs.Entries.{entries_of};
ghost use Rattle.fsfs.specs.Pieces.{entries_in};

use crate::known::KnownDump;
use crate::piece::FilePiece;
use fsfs_nodes::{DirectoryEntry, EntryKind};
use fsfs_text::FileId;
use repo_api::FileText;
use std::alloc::{AllocError, Global};

/// The most directories that are known at a time.
const LIMIT: usize = 64;

/// The most entries that are known at a time, unless one directory has more.
const ENTRY_LIMIT: usize = 262_144;

/// Knows the entries of the directories that were read last. The text of a directory's next node revision has to be read only
/// where it differs.
pub struct KnownDumps {
    alloc: Global,
    dumps: Vec<KnownDump>,
}

impl Drop for KnownDumps {
    fn drop(self) {
        let KnownDumps { alloc: _, dumps: _ } = self;
    }
}

impl KnownDumps {
    /// Knows none.
    pub fn new(alloc: Global) -> Self {
        KnownDumps {
            alloc,
            dumps: Vec::new(alloc),
        }
    }

    /// Gives what allocates.
    pub fn alloc(&self) -> Global {
        self.alloc
    }

    /// Gives the entries that a text says, if they are known.
    pub fn entries_of(&self, text: &FileText) -> Option<&[DirectoryEntry]>
        ensures { IfSome result (λ entries. entries_of text.now ≡ Ok entries.now) }
    {
        for dump in &self.dumps {
            if let Some(entries) = dump.entries_of(text) {
                return Some(entries);
            }
        }
        None
    }

    /// Gives the new entries that come with a directory, if they are known.
    pub fn entries_in(&self, piece: &FilePiece) -> Option<&[DirectoryEntry]>
        ensures { IfSome result (λ entries. entries_in piece.now ≡ Ok entries.now) }
    {
        match (piece.node.kind, &piece.text) {
            (EntryKind::Directory, Some(text)) => self.entries_of(text),
            _ => None,
        }
    }

    /// Finds the place of a directory.
    fn place_of(&self, id: FileId) -> Option<usize>
        ensures { IfSome result (λ place. place < length self.now.dumps.items) }
    {
        for place in 0..self.dumps.len() {
            if self.dumps[place].is_of(id) {
                return Some(place);
            }
        }
        None
    }

    /// Takes what is known of a directory out.
    fn take(&mut self, id: FileId) -> Option<KnownDump> {
        let place = self.place_of(id)?;
        Some(self.dumps.remove(place))
    }

    /// Reads a directory by what is known of its predecessor.
    fn followed(
        &mut self,
        piece: &FilePiece,
        text: &FileText,
    ) -> Result<Option<KnownDump>, AllocError> {
        let Some(predecessor) = piece.node.predecessor else {
            return Ok(None);
        };
        match self.take(predecessor) {
            Some(dump) => dump.followed(self.alloc, piece.node.id, text),
            None => Ok(None),
        }
    }

    /// Counts the entries of all.
    fn count(&self) -> usize {
        let mut count: usize = 0;
        for dump in &self.dumps {
            count = count.saturating_add(dump.count());
        }
        count
    }

    /// Drops the oldest, until there is room for one of so many entries.
    fn make_room(&mut self, count: usize) {
        let limit = ENTRY_LIMIT.saturating_sub(count);
        for _ in 0..LIMIT {
            if self.dumps.is_empty() || self.dumps.len() < LIMIT && self.count() <= limit {
                return;
            }
            let oldest = self.dumps.remove(0);
            std::mem::drop(oldest);
        }
    }

    /// Puts a directory in.
    fn put(&mut self, dump: KnownDump) -> Result<(), AllocError> {
        self.make_room(dump.count());
        self.dumps.push(dump)?;
        Ok(())
    }

    /// Reads a text of a directory, and knows its entries from then on.
    fn note_text(&mut self, piece: &FilePiece, text: &FileText) -> Result<(), AllocError> {
        if let Some(dump) = self.followed(piece, text)? {
            return self.put(dump);
        }
        match KnownDump::read(self.alloc, piece.node.id, text)? {
            Some(dump) => self.put(dump),
            None => Ok(()),
        }
    }

    /// Reads the new entries that come with a directory, and knows them from then on.
    pub(crate) fn note(&mut self, piece: &FilePiece) -> Result<(), AllocError> {
        match (piece.node.kind, &piece.text) {
            (EntryKind::Directory, Some(text)) => self.note_text(piece, text),
            _ => Ok(()),
        }
    }
}
