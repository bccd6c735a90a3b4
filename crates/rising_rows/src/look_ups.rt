//! How a row is found by its key.
ghost use Rattle.std.specs.Prelude.{◌≡◌, ◌==◌, nat_le, is_some, position};
ghost use Rattle.std.specs.List.{position_or_len};
ghost use Rattle.std.specs.Option.{option_copied};
ghost use Rattle.rising_rows.specs.Rising.{RisesFrom, row_with};

use super::keyed::Keyed;
use super::seats::seat_of;

/// The place, counted from 0, of the row with this key; None exactly where there is none.
pub fn place_of<R: Keyed>(rows: &[R], key: u64) -> Option<usize>
    requires { RisesFrom R.key_of 0 rows.now }
    ensures { result ≡ position (λ row. R.key_of row == key) rows.now }
{
    match seat_of(rows, key) {
        Ok(place) => Some(place),
        Err(_) => None,
    }
}

/// The place of the first row whose key is not below this one, or the number of rows.
pub fn place_from<R: Keyed>(rows: &[R], key: u64) -> usize
    requires { RisesFrom R.key_of 0 rows.now }
    ensures { result ≡ position_or_len (λ row. nat_le key (R.key_of row)) rows.now }
{
    match seat_of(rows, key) {
        Ok(place) => place,
        Err(place) => place,
    }
}

/// The row with this key; None exactly where there is none.
pub fn row_of<R: Keyed>(rows: &[R], key: u64) -> Option<&R>
    requires { RisesFrom R.key_of 0 rows.now }
    ensures { option_copied result ≡ row_with R.key_of key rows.now }
{
    match seat_of(rows, key) {
        Ok(place) => Some(&rows[place]),
        Err(_) => None,
    }
}

/// Whether a list has a row with this key.
pub fn has_row<R: Keyed>(rows: &[R], key: u64) -> bool
    requires { RisesFrom R.key_of 0 rows.now }
    ensures { result ≡ is_some (row_with R.key_of key rows.now) }
{
    match seat_of(rows, key) {
        Ok(_) => true,
        Err(_) => false,
    }
}
