//! Where a row stands in an ordered list, and what is put or taken there. The order is any one: rows
//! whose keys are no numbers are sought by their own comparison, as by `binary_search_by`.
ghost use Rattle.std.specs.Prelude.{◌≡◌, ℕ, ◌+◌, ◌-◌, ◌<◌, ◌≤◌, vec_len, vec_capacity, filter, not, Ok, Err, IfOk, IfErr};
ghost use Rattle.std.specs.Ordering.{is_eq};
ghost use Rattle.std.specs.declared.cmp.Ordering.{Ordering};
ghost use Rattle.rising_rows.specs.Rising.{RisesFrom};
ghost use Rattle.rising_rows.specs.Seats.{key_order, put_by, IsSeat};

use super::keyed::Keyed;

/// The seat of the row with this key. It is looked for behind the last row first.
pub(crate) fn seat_of<R: Keyed>(rows: &[R], key: u64) -> Result<usize, usize>
    requires { RisesFrom R.key_of 0 rows.now }
    ensures { IsSeat (key_order R.key_of key) rows.now result }
{
    if let Some(last) = rows.last() {
        if last.key() < key {
            return Err(rows.len());
        }
    }
    rows.binary_search_by(|row| row.key().cmp(&key))
}

/// Puts a row at its seat, for which there is room: in place of the equal one, or between the others.
pub fn put_at<R: Drop>(rows: &mut Vec<R>, row: R, seat: Result<usize, usize>)
    requires found { IfOk seat (λ at. at < vec_len rows.old) }
    requires absent { IfErr seat (λ at. at ≤ vec_len rows.old) }
    requires room { vec_len rows.old < vec_capacity rows.old }
    ensures rows { (order : R → Ordering) → IsSeat order rows.old.items seat → rows.new.items ≡ put_by order row rows.old.items }
    ensures capacity { vec_capacity rows.new ≡ vec_capacity rows.old }
    ensures length { vec_len rows.new ≤ vec_len rows.old + 1 }
{
    match seat {
        Ok(at) => rows[at] = row,
        Err(at) => rows.insert(at, row).unwrap(),
    }
}

/// Takes the row that has this seat out, if there is one.
pub fn take_at<R: Drop>(rows: &mut Vec<R>, seat: Result<usize, usize>)
    requires { IfOk seat (λ at. at < vec_len rows.old) }
    ensures rows { (order : R → Ordering) → IsSeat order rows.old.items seat → rows.new.items ≡ filter (λ row. not (is_eq (order row))) rows.old.items }
    ensures capacity { vec_capacity rows.new ≡ vec_capacity rows.old }
    ensures length { vec_len rows.new ≤ vec_len rows.old }
{
    if let Ok(at) = seat {
        rows.remove(at);
    }
}
