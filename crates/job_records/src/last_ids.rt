//! The last ids that were given.

/// The last ids that were given to a group, a job and a log; 0 where none was.
#[derive(Clone, Copy, PartialEq, Eq)]
pub struct LastIds {
    pub group: u32,
    pub job: u32,
    pub log: u64,
}
