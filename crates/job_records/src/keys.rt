//! Whether there is place for a registration.
ghost use Rattle.std.specs.Prelude.{◌≡◌, ◌↔◌, IsTrue};
ghost use Rattle.job_records.specs.Order.{RisesByKey};
ghost use Rattle.job_records.specs.Rules.{IsNamed, HasKeyPlace, count_of_key};

use super::registry::RegistryRow;
use super::registry_edits::seat_of;
use job_values::limits::{MOST_OF_KEY, MOST_REGISTRATIONS};

/// How many registrations have this key: two binary searches.
fn rows_of_key(rows: &[RegistryRow], key: &str) -> usize
    requires { RisesByKey rows.now }
    ensures { result ≡ count_of_key key.now rows.now }
{
    let start = rows.partition_point(|row| row.key.as_str().cmp(&key).is_lt());
    let end = rows.partition_point(|row| row.key.as_str().cmp(&key).is_le());
    end - start
}

fn has_key_place(rows: &[RegistryRow], row: &RegistryRow) -> bool
    requires { RisesByKey rows.now }
    ensures { IsTrue result ↔ HasKeyPlace row.now rows.now }
{
    match seat_of(rows, row.key.as_str(), row.value.as_str()) {
        Ok(_) => true,
        Err(_) => {
            rows.len() < MOST_REGISTRATIONS && rows_of_key(rows, row.key.as_str()) < MOST_OF_KEY
        }
    }
}

/// Whether a registration is not empty and there is place for it.
pub(crate) fn registration_fits(rows: &[RegistryRow], row: &RegistryRow) -> bool
    requires { RisesByKey rows.now }
    ensures { IsTrue result ↔ (IsNamed row.now × HasKeyPlace row.now rows.now) }
{
    row.key.get().len() > 0 && row.value.get().len() > 0 && has_key_place(rows, row)
}
