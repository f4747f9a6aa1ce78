//! What reading gives is what the format says.

ghost use Rattle.std.specs.Prelude.{◌≡◌, ◌≤◌, ℕ, List, Ok, length};
ghost use Rattle.svndiff0.specs.{Window.limit, Document.document_text, Format.IsDocument};

/// Shows that the text that a document is read to have is the one that the format gives it, and a document that has a
/// text by the format is read to have it. So it has no other.
pub fn has_the_text_of_the_format()
    ensures found { (base document text : List ℕ) → document_text base document ≡ Ok text
        → IsDocument base document text }
    ensures only { (base document text : List ℕ) → IsDocument base document text
        → document_text base document ≡ Ok text }
{}

/// Shows that a document's text keeps the limit.
pub fn texts_keep_the_limit()
    ensures { (base document text : List ℕ) → document_text base document ≡ Ok text
        → length text ≤ limit }
{}
