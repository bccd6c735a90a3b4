//! Rows in rising order of their ranks, in a queue with two ends. A row is found by halves, and a put or a take moves the rows
//! between it and the nearer end.
ghost use Rattle.std.specs.Prelude.{◌≡◌, ℕ, ◌+◌, ◌<◌, ◌≤◌, ◌==◌, nat_lt, false};
ghost use Rattle.std.specs.List.{list_any};
ghost use Rattle.std.specs.Ordering.{nat_cmp};
ghost use Rattle.std.specs.VecDeque.{deque_len, deque_capacity};
ghost use Rattle.job_lane.specs.Runs.{put_before};
ghost use Rattle.rising_rows.specs.Rising.{RisesFrom, without};
ghost use Rattle.rising_rows.specs.Seats.{key_order, IsSeat};

use std::cmp::Ordering;
use std::collections::VecDeque;

/// A row that has a rank among others, which is a number.
pub trait Ranked {
    ghost rank_of: { Self → ℕ };

    /// How its rank compares with that of another row.
    fn compare(&self, other: &Self) -> Ordering
        ensures { result ≡ nat_cmp (rank_of self.now) (rank_of other.now) };
}

/// The seat of a row among others.
fn seat_of<R: Ranked>(rows: &VecDeque<R>, row: &R) -> Result<usize, usize>
    requires { RisesFrom R.rank_of 0 rows.now.items }
    ensures { IsSeat (key_order R.rank_of (R.rank_of row.now)) rows.now.items result }
{
    rows.binary_search_by(|other| other.compare(row))
}

/// Puts a row whose rank no other has among the others. There is room for it.
pub fn put<R: Ranked + Drop>(rows: &mut VecDeque<R>, row: R)
    requires rises { RisesFrom R.rank_of 0 rows.old.items }
    requires new { list_any (λ other. R.rank_of row == R.rank_of other) rows.old.items ≡ false }
    requires room { deque_len rows.old < deque_capacity rows.old }
    ensures rows { rows.new.items ≡ put_before (λ other. nat_lt (R.rank_of row) (R.rank_of other)) row rows.old.items }
    ensures len { deque_len rows.new ≤ deque_len rows.old + 1 }
    ensures capacity { deque_capacity rows.old ≤ deque_capacity rows.new }
{
    match seat_of(rows, &row) {
        Ok(_) => drop(row),
        Err(at) => {
            let _put = rows.insert(at, row);
        }
    }
}

/// Takes the row out that has the rank of this one, if there is one.
pub fn take<R: Ranked + Drop>(rows: &mut VecDeque<R>, row: &R)
    requires { RisesFrom R.rank_of 0 rows.old.items }
    ensures rows { rows.new.items ≡ without R.rank_of (R.rank_of row.now) rows.old.items }
    ensures len { deque_len rows.new ≤ deque_len rows.old }
    ensures capacity { deque_capacity rows.new ≡ deque_capacity rows.old }
{
    if let Ok(at) = seat_of(rows, row) {
        let _taken = rows.remove(at);
    }
}
