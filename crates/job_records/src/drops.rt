//! Which list a drop drops from.

/// The list that a drop drops from.
#[derive(Clone, Copy, PartialEq, Eq)]
pub(crate) enum Dropped {
    Job,
    Log,
}
