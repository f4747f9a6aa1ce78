//! What holds of segments. The functions do nothing: their contracts are the laws.
ghost use Rattle.std.specs.Prelude.{ℕ, List};
ghost use Rattle.repo_api.specs.Histories.{History};
ghost use Rattle.traces.specs.declared.place.Place.{Place};
ghost use Rattle.file_histories.specs.{Laws.{AreSegmentsOf, IsCut}, Segments.{cut, segments}, declared.segment.Segment.Segment};

/// Shows that from a trace's beginning on each revision is in exactly one of its segments, with the path that it has there,
/// or in a gap where it has none; and that what is cut says the same of the revisions that are asked for.
pub fn segments_are_whole()
    ensures segments { (h : History) (at : Place)
        → AreSegmentsOf h at (segments h at.revision at.path) }
    ensures cut { (low high : ℕ) (ss : List Segment) → IsCut low high ss (cut low high ss) }
{}
