//! The edits of a transaction.
use crate::change::Source;
use crate::file_text::FileText;
use byte_string::ByteString;
use svnpath::Path;

/// One edit of a transaction's tree.
#[derive(Debug, Drop)]
pub enum EditOp {
    /// Adds an empty directory at the path.
    AddDirectory(Path),
    /// Adds an empty file at the path.
    AddFile(Path),
    /// Puts what stands at the source, with all that is under it, at the path, where nothing stands.
    Copy(Source, Path),
    /// Takes out what stands at the path and under it, and puts a copy of the source there.
    Replace(Source, Path),
    /// Takes out what stands at the path and under it.
    Delete(Path),
    /// Sets the property of this name at the path to the value.
    SetProperty(Path, ByteString, ByteString),
    /// Takes out the property of this name at the path.
    RemoveProperty(Path, ByteString),
    /// Makes this the text of the file at the path.
    SetText(Path, FileText),
}
