//! The registrations of one key, which stand together.
ghost use Rattle.std.specs.Prelude.{◌≡◌, filter, bytes_eq};
ghost use Rattle.job_records.specs.Order.{RisesByKey};

use job_records::RegistryRow;

/// The registrations of a key: two binary searches.
pub(crate) fn rows_of_key<'a>(rows: &'a [RegistryRow], key: &str) -> &'a [RegistryRow]
    requires { RisesByKey rows.now }
    ensures { result.now ≡ filter (λ row. bytes_eq row.key key.now) rows.now }
{
    let start = rows.partition_point(|row| row.key.as_str().cmp(&key).is_lt());
    let from = &rows[start..];
    let count = from.partition_point(|row| row.key.as_str().cmp(&key).is_le());
    &from[..count]
}
