//! How a registration is found, put and dropped by its key and its value.
ghost use Rattle.std.specs.Prelude.{◌≡◌, ◌+◌, ◌<◌, ◌≤◌, vec_len, vec_capacity, filter, not};
ghost use Rattle.std.specs.Ordering.{nat_cmp, ordering_then};
ghost use Rattle.std.specs.Cmp.Lexicographic.{slice_cmp};
ghost use Rattle.rising_rows.specs.Seats.{put_by, IsSeat};
ghost use Rattle.job_records.specs.Order.{RisesByKey, key_order, is_registered};

use super::registry::RegistryRow;
use job_values::RegistryText;
use rising_rows::{put_at, take_at};
use std::cmp::Ordering;

/// How a key and a value compare with others.
pub(crate) fn compare_texts(own_key: &str, own_value: &str, key: &str, value: &str) -> Ordering
    ensures { result ≡ ordering_then (slice_cmp nat_cmp own_key.now key.now) (slice_cmp nat_cmp own_value.now value.now) }
{
    match own_key.cmp(&key) {
        Ordering::Less => Ordering::Less,
        Ordering::Equal => own_value.cmp(&value),
        Ordering::Greater => Ordering::Greater,
    }
}

/// How a registration compares with a key and a value.
fn compare_keys(row: &RegistryRow, key: &str, value: &str) -> Ordering
    ensures { result ≡ key_order key.now value.now row.now }
{
    compare_texts(row.key.as_str(), row.value.as_str(), key, value)
}

/// The seat of the registration with this key and this value: a binary search.
pub(crate) fn seat_of(rows: &[RegistryRow], key: &str, value: &str) -> Result<usize, usize>
    requires { RisesByKey rows.now }
    ensures { IsSeat (key_order key.now value.now) rows.now result }
{
    rows.binary_search_by(|row| compare_keys(row, key, value))
}

/// Puts a registration in place of the one with its key and value, or in order of these.
pub(crate) fn put_registration(rows: &mut Vec<RegistryRow>, row: RegistryRow)
    requires rising { RisesByKey rows.old.items }
    requires room { vec_len rows.old < vec_capacity rows.old }
    ensures rows { rows.new.items ≡ put_by (key_order row.key row.value) row rows.old.items }
    ensures capacity { vec_capacity rows.new ≡ vec_capacity rows.old }
    ensures length { vec_len rows.new ≤ vec_len rows.old + 1 }
{
    let seat = seat_of(rows.as_slice(), row.key.as_str(), row.value.as_str());
    put_at(rows, row, seat);
}

/// Drops the registration with this key and this value, if there is one.
pub(crate) fn drop_registration(
    rows: &mut Vec<RegistryRow>,
    key: &RegistryText,
    value: &RegistryText,
)
    requires { RisesByKey rows.old.items }
    ensures rows { rows.new.items ≡ filter (λ row. not (is_registered key.now value.now row)) rows.old.items }
    ensures capacity { vec_capacity rows.new ≡ vec_capacity rows.old }
    ensures length { vec_len rows.new ≤ vec_len rows.old }
{
    let seat = seat_of(rows.as_slice(), key.as_str(), value.as_str());
    take_at(rows, seat);
}
