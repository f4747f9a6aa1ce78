//! A delta between two texts in memory.
ghost use Rattle.std.specs.{Prelude.{◌≡◌, ◌<◌, IfOk, length}, Int.div_ceil};
ghost use Rattle.text_deltas.specs.{Alike.shared_by, Deltas.nth_window};

use crate::shared::{Shared, find_shared};
use crate::windows::window;
use std::alloc::{AllocError, Global};

/// The longest part of a text that a window gives, in bytes.
pub const WINDOW: usize = 65_536;

/// A delta that leads from one text to another. What they share is found once, and each window is made when it is asked
/// for.
#[derive(Clone, Copy)]
pub struct Delta<'a> {
    /// The text that the reader has.
    pub before: &'a [u8],
    /// The text that the delta gives.
    pub text: &'a [u8],
    /// What is copied.
    pub shared: Shared,
    pub ghost found: { shared ≡ shared_by before.now text.now },
}

impl<'a> Delta<'a> {
    /// Begins a delta that leads from a text to another.
    pub fn new(before: &'a [u8], text: &'a [u8]) -> Self
        ensures before { result.before.now ≡ before.now }
        ensures text { result.text.now ≡ text.now }
    {
        Delta {
            before,
            text,
            shared: find_shared(before, text),
        }
    }

    /// Counts its windows.
    pub fn count(self) -> usize
        ensures { result ≡ div_ceil (length self.entry.text.now) 65536 }
    {
        self.text.len().div_ceil(WINDOW)
    }

    /// Makes a window, by its place among them.
    pub fn window(self, alloc: Global, place: usize) -> Result<Vec<u8>, AllocError>
        requires { place < div_ceil (length self.text.now) 65536 }
        ensures { IfOk result (λ bytes. bytes.items
            ≡ nth_window self.entry.before.now self.entry.text.now place) }
    {
        let at = place * WINDOW;
        let rest = &self.text[at..];
        window(alloc, self.shared, at, &rest[..rest.len().min(WINDOW)])
    }
}
