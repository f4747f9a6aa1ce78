// What an item is.
ghost use Rattle.std.specs.Prelude.{◌≡◌, IfOk};
ghost use Rattle.items.specs.Word.{IsWord};

use byte_string::ByteString;
use std::alloc::{AllocError, Global};
use std::marker::Model;

/// A word: a letter, then letters, digits and dashes.
pub struct Name {
    bytes: ByteString,
}

impl Drop for Name {
    fn drop(self) {
        let Name { bytes: _ } = self;
    }
}

impl Model for Name {
    ghost use Rattle.std.specs.Prelude.{List, ℕ};
    ghost use Rattle.items.specs.Word.{IsWord};

    ghost Value = { List ℕ };

    ghost view = { λ n. n.bytes };

    ghost invariant = { λ n. IsWord n.bytes };
}

impl Name {
    /// Makes the word of these bytes, which the caller knows to be one.
    ///
    /// # Errors
    ///
    /// `AllocError` where there is no memory for them.
    pub fn from_slice(alloc: Global, bytes: &[u8]) -> Result<Name, AllocError>
        requires { IsWord bytes.now }
        ensures { IfOk result (λ name. name ≡ bytes.now) }
    {
        Ok(Name {
            bytes: ByteString::from_slice(alloc, bytes)?,
        })
    }

    /// Gives the bytes of the word, one of them at least.
    pub fn as_bytes(&self) -> &[u8]
        ensures value { result.now ≡ self.now }
        ensures is_word { IsWord self.now }
    {
        self.bytes.as_slice()
    }
}

/// An item of the stream. On the wire whitespace, a space or a line feed, ends each.
#[derive(Drop)]
pub enum Item {
    /// `word`
    Word(Name),
    /// `22`, in decimal
    Number(u64),
    /// `6:string`, a count of bytes and the bytes, which may be any. One with more than 16,777,216 of
    /// them is not read again.
    Str(ByteString),
    /// `( word 22 6:string ( ) )`
    List(Vec<Item>),
}
