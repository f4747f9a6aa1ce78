//! Words for depths.
ghost use Rattle.std.specs.Prelude.{◌≡◌};
ghost use Rattle.wire_reports.specs.Depths.{depth_word};

use drive_rules::Depth;
use wire_forms::named;

/// What a word says of a depth.
#[derive(Clone, Copy, Debug, PartialEq, Eq)]
pub enum DepthWord {
    /// This depth.
    Known(Depth),
    /// The depth that is reported.
    Unknown,
    /// Nothing at all, also not the directory.
    Exclude,
}

/// The words for depths.
const DEPTH_WORDS: [(&[u8], DepthWord); 6] = [
    (b"empty", DepthWord::Known(Depth::Empty)),
    (b"files", DepthWord::Known(Depth::Files)),
    (b"immediates", DepthWord::Known(Depth::Immediates)),
    (b"infinity", DepthWord::Known(Depth::Infinity)),
    (b"unknown", DepthWord::Unknown),
    (b"exclude", DepthWord::Exclude),
];

/// Reads what a word says of a depth.
pub fn depth_word(word: &[u8]) -> Option<DepthWord>
    ensures { result ≡ depth_word word.now }
{
    named(&DEPTH_WORDS, word)
}
