//! Revisions one after another in which something was at one path, or nowhere.
ghost use Rattle.std.specs.Prelude.{◌≡◌};
ghost use Rattle.file_histories.specs.Segments.{cut_to};

use svnpath::Path;

/// Revisions, both ends among them, in which something was at one path, or, without a path, in which it was nowhere.
#[derive(Drop)]
pub struct Segment {
    pub first: u64,
    pub last: u64,
    pub path: Option<Path>,
}

impl Segment {
    /// Gives what of the segment lies between two revisions, if anything does.
    pub(crate) fn cut_to(self, low: u64, high: u64) -> Option<Segment>
        ensures { result ≡ cut_to low high self }
    {
        let first = self.first.max(low);
        let last = self.last.min(high);
        if first <= last {
            Some(Segment {
                first,
                last,
                path: self.path,
            })
        } else {
            None
        }
    }
}
