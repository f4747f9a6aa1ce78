//! How much of a directory there is.

/// How much of a directory is reported, or asked for: the directory alone, its files too, all
/// that is straight in it, or everything beneath it.
#[derive(Clone, Copy, Debug, PartialEq, Eq)]
pub enum Depth {
    Empty,
    Files,
    Immediates,
    Infinity,
}
