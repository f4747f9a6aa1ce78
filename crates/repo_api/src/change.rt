//! What a revision did at a path.
use svnpath::Path;

#[derive(Clone, Copy, Debug, PartialEq, Eq)]
pub enum Action {
    Add,
    Delete,
    Replace,
    Modify,
}

/// Where a copy came from.
#[derive(Debug)]
pub struct Source {
    pub revision: u64,
    pub path: Path,
}

impl Drop for Source {
    fn drop(self) {
        let Source {
            revision: _,
            path: _,
        } = self;
    }
}

#[derive(Debug)]
pub struct Change {
    pub action: Action,
    pub text: bool,
    pub properties: bool,
    pub source: Option<Source>,
}

impl Drop for Change {
    fn drop(self) {
        let Change {
            action: _,
            text: _,
            properties: _,
            source: _,
        } = self;
    }
}
