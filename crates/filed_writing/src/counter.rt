//! The new ids of a revision's nodes and copies.
ghost use Rattle.std.specs.Prelude.{◌≡◌};
ghost use Rattle.filed_writing.specs.Pieces.{counted, counter_in, ids_after, next_number};

use fsfs_nodes::NextIds;
use fsfs_text::IdPart;

/// Says which node id and which copy id come next, and in which revision they are counted, if not over all of them.
#[derive(Clone, Copy)]
pub struct Counter {
    pub revision: Option<u32>,
    pub node: u128,
    pub copy: u128,
}

impl Counter {
    /// Begins with the first new ids of a revision: those that come next, where ids are counted over all revisions,
    /// else the first ones of the revision itself.
    pub fn new(ids: Option<NextIds>, number: u32) -> Self
        ensures { result ≡ counter_in ids number }
    {
        match ids {
            Some(ids) => Counter {
                revision: None,
                node: ids.node,
                copy: ids.copy,
            },
            None => Counter {
                revision: Some(number),
                node: 0,
                copy: 0,
            },
        }
    }

    /// Gives the ids that come next after the revision, where those before it are counted over all revisions.
    pub fn ids_after(self, before: Option<NextIds>) -> Option<NextIds>
        ensures { result ≡ ids_after before self }
    {
        match before {
            Some(_) => Some(NextIds {
                node: self.node,
                copy: self.copy,
            }),
            None => None,
        }
    }
}

/// Takes the next number, which is counted in the revision, if there is one.
pub fn taken(revision: Option<u32>, counter: &mut u128) -> IdPart
    ensures given { result ≡ counted revision counter.old }
    ensures next { counter.new ≡ next_number counter.old }
{
    let number = *counter;
    *counter = number.saturating_add(1);
    IdPart { number, revision }
}
