//! An entry of a tree.
ghost use Rattle.std.specs.Prelude.{◌≡◌, Option, is_some};
ghost use Rattle.repo_api.specs.Kinds.{content_kind, is_directory_kind, is_file_kind, is_present, kind_of};
ghost use Rattle.repo_api.specs.{Trees.{same_mark, is_open_mark, is_directory, is_directory_there, is_file_there}, declared.entry.Entry.Entry};

use crate::file_text::FileText;
use crate::properties::Properties;
use std::alloc::AllocError;
use svnpath::Path;

/// The revision and the path at which a change was made, or open in a transaction.
#[derive(Debug, Drop)]
pub enum Mark {
    Open,
    Made(u32, Path),
}

/// What stands at a path, seen from outside.
#[derive(Clone, Copy, Debug, PartialEq, Eq)]
pub enum NodeKind {
    Absent,
    File,
    Directory,
}

/// A directory, or a file with its text.
#[derive(Debug)]
pub enum Content {
    Directory,
    File(FileText),
}

impl Drop for Content {
    fn drop(self) {
        match self {
            Content::Directory => {}
            Content::File(_) => {}
        }
    }
}

/// A path's entry: `own` is the last change of the entry itself, `last` the last at or under it.
#[derive(Debug, Drop)]
pub struct Entry {
    pub content: Content,
    pub properties: Properties,
    pub own: Mark,
    pub last: Mark,
}

impl Mark {
    /// Says whether both are open, or both name the same revision and path.
    pub fn is_same(&self, other: &Mark) -> bool
        ensures { result ≡ same_mark self.now other.now }
    {
        match (self, other) {
            (Mark::Open, Mark::Open) => true,
            (Mark::Made(revision, path), Mark::Made(other_revision, other_path)) => revision
                == other_revision
                && path == other_path,
            _ => false,
        }
    }

    /// Says whether the mark is open: it then names no revision and no path.
    pub fn is_open(&self) -> bool
        ensures { result ≡ is_open_mark self.now }
    {
        matches!(self, Mark::Open)
    }
}

impl NodeKind {
    /// Says whether something exists there.
    pub fn is_present(self) -> bool
        ensures kind { result ≡ is_present self }
        ensures entry { (e : Option Entry) → self ≡ kind_of e → result ≡ is_some e }
    {
        match self {
            NodeKind::Absent => false,
            NodeKind::File | NodeKind::Directory => true,
        }
    }

    /// Says whether a file exists there.
    pub fn is_file(self) -> bool
        ensures kind { result ≡ is_file_kind self }
        ensures entry { (e : Option Entry) → self ≡ kind_of e → result ≡ is_file_there e }
    {
        match self {
            NodeKind::File => true,
            NodeKind::Absent | NodeKind::Directory => false,
        }
    }

    /// Says whether a directory exists there.
    pub fn is_directory(self) -> bool
        ensures kind { result ≡ is_directory_kind self }
        ensures entry { (e : Option Entry) → self ≡ kind_of e → result ≡ is_directory_there e }
    {
        match self {
            NodeKind::Directory => true,
            NodeKind::Absent | NodeKind::File => false,
        }
    }
}

impl Entry {
    /// Says whether the entry is a directory.
    pub fn is_directory(&self) -> bool
        ensures { result ≡ is_directory self.now }
    {
        matches!(self.content, Content::Directory)
    }

    /// Says what the entry is.
    pub fn kind(&self) -> NodeKind
        ensures { result ≡ content_kind self.now.content }
    {
        match self.content {
            Content::Directory => NodeKind::Directory,
            Content::File(_) => NodeKind::File,
        }
    }
}

impl Clone for Mark {
    ghost is_clone = { λ mark copy. copy ≡ mark };

    fn clone(&self) -> Result<Self, AllocError> {
        match self {
            Mark::Open => Ok(Mark::Open),
            Mark::Made(revision, path) => Ok(Mark::Made(*revision, path.clone()?)),
        }
    }
}

impl Clone for Content {
    ghost is_clone = { λ content copy. copy ≡ content };

    fn clone(&self) -> Result<Self, AllocError> {
        match self {
            Content::Directory => Ok(Content::Directory),
            Content::File(text) => Ok(Content::File(text.clone()?)),
        }
    }
}

impl Clone for Entry {
    ghost is_clone = { λ entry copy. copy ≡ entry };

    fn clone(&self) -> Result<Self, AllocError> {
        Ok(Entry {
            content: self.content.clone()?,
            properties: self.properties.clone()?,
            own: self.own.clone()?,
            last: self.last.clone()?,
        })
    }
}
