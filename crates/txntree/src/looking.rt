//! What stands at the paths of a transaction's tree.
ghost use Rattle.std.specs.Prelude.{◌≡◌, option_copied, option_map};
ghost use Rattle.repo_api.specs.Kinds.{created_of};
ghost use Rattle.txntree.specs.Spots.{change_tree, open_tree};

use crate::open::{Change, OpenNode};
use byte_string::ByteString;
use noderevs::Nodes;
use repo_api::Content;

impl OpenNode {
    /// Gives what exists at a path: that it is a directory, or a file's text.
    #[cycle(content)]
    pub fn content_at<'a>(&'a self, nodes: &'a Nodes, path: &[ByteString]) -> Option<&'a Content>
        ensures { option_copied result ≡ option_map (λ e. e.content)
            (open_tree nodes.now self.now path.now) }
    {
        let Some((name, rest)) = path.split_first() else {
            return Some(&self.content);
        };
        if let Some(change) = self.changed.get(name) {
            return change.content_at(nodes, rest);
        }
        nodes.content(nodes.kid(self.base, name), rest)
    }

    /// Gives the revision that last changed what exists at a path, at or under it: none where the transaction has.
    #[cycle(made)]
    pub fn made_at(&self, nodes: &Nodes, path: &[ByteString]) -> Option<u64>
        ensures { result ≡ created_of (open_tree nodes.now self.now path.now) }
    {
        let Some((name, rest)) = path.split_first() else {
            return None;
        };
        if let Some(change) = self.changed.get(name) {
            return change.made_at(nodes, rest);
        }
        nodes.made(nodes.kid(self.base, name), rest)
    }
}

impl Change {
    /// Gives what exists at a path from the changed entry on: `None` where nothing does, or the entry is gone.
    #[cycle(content)]
    fn content_at<'a>(&'a self, nodes: &'a Nodes, path: &[ByteString]) -> Option<&'a Content>
        ensures { option_copied result ≡ option_map (λ e. e.content)
            (change_tree nodes.now self.now path.now) }
    {
        match self {
            Change::Gone => None,
            Change::Is(node) => node.content_at(nodes, path),
        }
    }

    /// Gives the revision that last changed what exists at a path from the changed entry on, at or under it: `None`
    /// where the transaction has, and where nothing exists.
    #[cycle(made)]
    fn made_at(&self, nodes: &Nodes, path: &[ByteString]) -> Option<u64>
        ensures { result ≡ created_of (change_tree nodes.now self.now path.now) }
    {
        match self {
            Change::Gone => None,
            Change::Is(node) => node.made_at(nodes, path),
        }
    }
}
