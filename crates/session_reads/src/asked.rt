//! What clients of either kind ask for.
use commands::{GetFileRevsCommand, GetLocationSegmentsCommand, GetLocationsCommand, LogCommand};
use history::Place;

/// A place that is asked for, and whether it is by a client of today.
#[derive(Clone, Copy)]
pub(crate) struct PlaceAsked<'a> {
    pub(crate) place: &'a Place,
    pub(crate) is_of_today: bool,
}

/// A log that is asked for, and whether it is by a client of today.
#[derive(Clone, Copy)]
pub(crate) struct LogAsked<'a> {
    pub(crate) command: &'a LogCommand,
    pub(crate) is_of_today: bool,
}

/// Locations that are asked for, and whether they are by a client of today.
#[derive(Clone, Copy)]
pub(crate) struct LocationsAsked<'a> {
    pub(crate) command: &'a GetLocationsCommand,
    pub(crate) is_of_today: bool,
}

/// Segments that are asked for, and whether they are by a client of today.
#[derive(Clone, Copy)]
pub(crate) struct SegmentsAsked<'a> {
    pub(crate) command: &'a GetLocationSegmentsCommand,
    pub(crate) is_of_today: bool,
}

/// Revisions of a file that are asked for, and whether they are by a client of today.
#[derive(Clone, Copy)]
pub(crate) struct FileRevisionsAsked<'a> {
    pub(crate) command: &'a GetFileRevsCommand,
    pub(crate) is_of_today: bool,
}
