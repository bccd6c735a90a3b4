//! How rows are put and taken by their keys.
ghost use Rattle.std.specs.Prelude.{◌≡◌, ◌+◌, ◌<◌, ◌≤◌, vec_len, vec_capacity};
ghost use Rattle.rising_rows.specs.Rising.{RisesFrom, put_row, without, without_all};

use super::keyed::Keyed;
use super::look_ups::has_row;
use super::seats::{put_at, seat_of, take_at};

/// Puts a row in place of the one with its key, or in order of the keys. There is room for it.
pub fn put<R: Keyed + Drop>(rows: &mut Vec<R>, row: R)
    requires rising { RisesFrom R.key_of 0 rows.old.items }
    requires room { vec_len rows.old < vec_capacity rows.old }
    ensures rows { rows.new.items ≡ put_row R.key_of row rows.old.items }
    ensures capacity { vec_capacity rows.new ≡ vec_capacity rows.old }
    ensures length { vec_len rows.new ≤ vec_len rows.old + 1 }
{
    let seat = seat_of(rows.as_slice(), row.key());
    put_at(rows, row, seat);
}

/// Takes the row with this key out, if there is one.
pub fn take<R: Keyed + Drop>(rows: &mut Vec<R>, key: u64)
    requires { RisesFrom R.key_of 0 rows.old.items }
    ensures rows { rows.new.items ≡ without R.key_of key rows.old.items }
    ensures capacity { vec_capacity rows.new ≡ vec_capacity rows.old }
    ensures length { vec_len rows.new ≤ vec_len rows.old }
{
    let seat = seat_of(rows.as_slice(), key);
    take_at(rows, seat);
}

/// Takes all rows out that have the key of one of these others, whose keys rise: one pass over the
/// rows, with a binary search for each.
pub fn take_all<R: Keyed + Drop, D: Keyed>(rows: &mut Vec<R>, others: &[D])
    requires { RisesFrom D.key_of 0 others.now }
    ensures rows { rows.new.items ≡ without_all R.key_of D.key_of others.now rows.old.items }
    ensures capacity { vec_capacity rows.new ≡ vec_capacity rows.old }
    ensures length { vec_len rows.new ≤ vec_len rows.old }
{
    rows.retain(
        |row| -> bool
            requires { RisesFrom D.key_of 0 others.now }
        { !has_row(others, row.key()) },
    );
}
