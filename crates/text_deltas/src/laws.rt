//! What holds of deltas. The functions do nothing: their contracts are the laws.
ghost use Rattle.std.specs.{Prelude.{◌≡◌, ◌≤◌, ◌<◌, ◌+◌, ◌*◌, ℕ, List, Ok, length, take, drop}, List.concat, Int.div_ceil};
ghost use Rattle.svndiff0.specs.{Document.document_text, Full.full_window, Window.limit};
ghost use Rattle.text_deltas.specs.{Alike.{alike, alike_behind}, Deltas.{delta_chunks, nth_window, windows}, Streams.AreStreamed};

use svndiff0::has_the_text_of_the_format;

/// Shows that the strings of a delta, one after another, are a document that gives the text over the text before.
pub fn deltas_give_the_text()
    ensures { (before text : List ℕ) → length text ≤ limit
        → document_text before (concat (delta_chunks before text)) ≡ Ok text }
{
    has_the_text_of_the_format();
}

/// Shows that the views of a delta can be read as a stream.
pub fn views_go_on()
    ensures { (before text : List ℕ) → length text ≤ limit
        → AreStreamed 0 0 (windows before text) }
{}

/// Shows that a window has its part of the text as new data, where less than 64 bytes are shared.
pub fn little_in_common_goes_whole()
    ensures { (before text : List ℕ) (place : ℕ)
        → alike before text + alike_behind (alike before text) before text < 64
        → place < div_ceil (length text) 65536
        → nth_window before text place ≡ full_window (take 65536 (drop (place * 65536) text)) }
{}
