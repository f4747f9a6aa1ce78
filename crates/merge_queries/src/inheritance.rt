//! From where merge information is wanted.

/// From where the merge information of an entry is wanted.
#[derive(Clone, Copy, Debug, PartialEq, Eq)]
pub enum Inheritance {
    /// From the entry itself.
    Explicit,
    /// From the entry itself, or from the nearest one above it that has the property.
    Inherited,
    /// From the nearest one above it that has the property.
    NearestAncestor,
}
