//! The items of a cron text: what stands between its blanks and commas.

/// Every `step`-th value of the sequence that begins at `from` and goes up to `to`; where `from`
/// is above `to`, it goes up to the field's greatest value and on from the least.
#[derive(Clone, Copy, PartialEq, Eq)]
pub struct Run {
    pub from: u16,
    pub to: u16,
    pub step: u16,
}

/// What an item says of a value or a day.
#[derive(Clone, Copy, PartialEq, Eq)]
pub enum Item {
    /// The values of a run: `*`, `n`, `a-b` and each of them with `/s`.
    Values(Run),
    /// `?`: no condition.
    Free,
    /// `L` and `L-n`: so many days before the last day of the month. As a weekday, Saturday.
    Last(u16),
    /// `LW`: the last Monday to Friday day of the month.
    LastWorkday,
    /// `nW`: the Monday to Friday day nearest to this day, within its month.
    Workday(u16),
    /// `dL`: the last such weekday of the month, 1 for Sunday.
    LastWeekday(u16),
    /// `d#k`: the k-th such weekday of the month.
    NthWeekday(u16, u16),
}

/// An item with its field: 1 second, 2 minute, 3 hour, 4 day of month, 5 month, 6 day of week,
/// 7 year.
#[derive(Clone, Copy, PartialEq, Eq)]
pub struct FieldItem {
    pub field: u8,
    pub item: Item,
}
