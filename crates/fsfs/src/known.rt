//! The entries of the directories that were read last.
ghost use Rattle.std.specs.Prelude.{◌≡◌, Ok, IfSome};
ghost use Rattle.fsfs_nodes.specs.Entries.{entries_of};
ghost use Rattle.fsfs.specs.Known.{IsKnown};

use crate::change::{apply, change_of};
use crate::listed::{Listed, listed_in};
use crate::same::is_same;
use fsfs_nodes::DirectoryEntry;
use fsfs_text::FileId;
use repo_api::FileText;
use std::alloc::{AllocError, Global};

/// Holds the entries of a directory with the text that says them.
pub(crate) struct KnownDump {
    id: FileId,
    text: FileText,
    listed: Listed,
    ghost known: { IsKnown text listed.lengths.items listed.entries.items },
}

impl Drop for KnownDump {
    fn drop(self) {
        let KnownDump {
            id: _,
            text: _,
            listed: _,
        } = self;
    }
}

impl KnownDump {
    /// Reads the entries of a directory, if its text is that which is written for them.
    #[tactic(auto, using(crate::proofs::KnownTexts::known_same))]
    pub(crate) fn read(
        alloc: Global,
        id: FileId,
        text: &FileText,
    ) -> Result<Option<Self>, AllocError> {
        match listed_in(alloc, text.as_slice())? {
            Some(listed) => Ok(Some(KnownDump {
                id,
                text: text.clone()?,
                listed,
            })),
            None => Ok(None),
        }
    }

    /// Reads the entries of a directory that has most of the entries of this one, if its text is that which is written for
    /// them.
    #[tactic(auto, using(crate::proofs::KnownTexts::known_same))]
    pub(crate) fn followed(
        self,
        alloc: Global,
        id: FileId,
        text: &FileText,
    ) -> Result<Option<Self>, AllocError> {
        let KnownDump {
            id: _,
            text: old,
            mut listed,
        } = self;
        let Some(mut change) = change_of(alloc, old.as_slice(), &listed, text.as_slice())? else {
            return Ok(None);
        };
        apply(&mut listed, &mut change)?;
        Ok(Some(KnownDump {
            id,
            text: text.clone()?,
            listed,
        }))
    }

    /// Says whether this is the directory of an id.
    pub(crate) fn is_of(&self, id: FileId) -> bool {
        self.id == id
    }

    /// Counts the entries.
    pub(crate) fn count(&self) -> usize {
        self.listed.entries.len()
    }

    /// Gives the entries, if this is their text.
    #[tactic(auto, using(crate::proofs::KnownTexts::known_entries))]
    pub(crate) fn entries_of(&self, text: &FileText) -> Option<&[DirectoryEntry]>
        ensures { IfSome result (λ entries. entries_of text.now ≡ Ok entries.now) }
    {
        let bytes = text.as_slice();
        let _length = bytes.len();
        if self.text.digest() == text.digest() && is_same(bytes, self.text.as_slice()) {
            Some(self.listed.entries.as_slice())
        } else {
            None
        }
    }
}
