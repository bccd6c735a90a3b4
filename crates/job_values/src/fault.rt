//! The first fault of a text that a user gives for a schedule or a zone.

/// The first fault of a schedule's text: the field, and the place of a byte, counted from 1.
#[derive(Clone, Copy, Debug, PartialEq, Eq)]
pub struct ScheduleFault {
    /// 0 for the text as a whole, 1 to 7 for a field, 8 where there are more.
    pub field: u8,
    pub place: u32,
}

/// The first fault of a zone's text: the place of a byte, counted from 1.
#[derive(Clone, Copy, PartialEq, Eq)]
pub struct ZoneFault {
    /// One past the longest prefix of the text that begins a zone.
    pub place: u32,
}
