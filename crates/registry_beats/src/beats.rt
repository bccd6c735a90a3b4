//! The beat of an executor, and its removal.
ghost use Rattle.std.specs.Prelude.{◌≡◌, ◌<◌, [], ◌∷◌, nat_lt, if◌then◌else◌, length, IfOk, IfErr};
ghost use Rattle.job_values.specs.declared.limits.TheConstants.{MOST_OF_KEY, MOST_REGISTRATIONS};
ghost use Rattle.job_records.specs.Order.{RisesByKey};
ghost use Rattle.job_records.specs.Rules.{KeepsRules, count_of_key};
ghost use Rattle.registry_beats.specs.Beats.{Beats, IsRefused, Removes};

use super::keys::rows_of_key;
use job_records::{Change, Records, RegistryRow};
use job_values::limits::{MOST_OF_KEY, MOST_REGISTRATIONS};
use job_values::{Moment, NoMemory, RegistryText, Seq};
use std::alloc::Global;
use thiserror::Error;

/// Why a registration is not taken.
#[derive(Clone, Copy, Debug, PartialEq, Eq, Error)]
pub enum BeatFault {
    /// It would be one more than this limit.
    #[error("more than {limit} registrations")]
    TooMany { limit: u32 },
    #[error("no memory")]
    NoMemory,
}

impl From<NoMemory> for BeatFault {
    ghost use Rattle.std.specs.Prelude.{◌≡◌};
    ghost use Rattle.registry_beats.specs.declared.beats.BeatFault.TheVariants.{NoMemory};

    ghost from_gives = { λ _ f. f ≡ NoMemory };

    fn from(_: NoMemory) -> BeatFault {
        BeatFault::NoMemory
    }
}

/// How many registrations have this key.
fn key_count(rows: &[RegistryRow], key: &str) -> usize
    requires { RisesByKey rows.now }
    ensures { result ≡ count_of_key key.now rows.now }
{
    rows_of_key(rows, key).len()
}

/// The limit that a new registration passes where it has no place: that of its key, or else that of all.
fn limit_of(rows: &[RegistryRow], key: &str) -> u32
    requires { RisesByKey rows.now }
    ensures { result ≡ (if nat_lt (count_of_key key.now rows.now) MOST_OF_KEY then MOST_REGISTRATIONS else MOST_OF_KEY) }
{
    if key_count(rows, key) < MOST_OF_KEY {
        MOST_REGISTRATIONS as u32
    } else {
        MOST_OF_KEY as u32
    }
}

/// The row of a registration with its beat.
fn beat_row(
    alloc: Global,
    key: &RegistryText,
    value: &RegistryText,
    at: Moment,
) -> Result<RegistryRow, NoMemory>
    ensures { IfOk result (λ row. row ≡ record { key = key.now; value = value.now; beat = at }) }
{
    let key = key.copy(alloc)?;
    let value = value.copy(alloc)?;
    Ok(RegistryRow {
        key,
        value,
        beat: at,
    })
}

/// A list of one change.
fn one_change(alloc: Global, change: Change) -> Result<Seq<Change>, NoMemory>
    ensures { IfOk result (λ changes. changes ≡ change ∷ []) }
{
    let changes = vec![in alloc; change].map_err(|_| NoMemory)?;
    Ok(Seq::of(changes))
}

/// The change that adds a registration, or renews it. A new one is refused where it would pass a
/// limit, that of its key before that of all.
pub fn beat(
    alloc: Global,
    records: &Records,
    key: &RegistryText,
    value: &RegistryText,
    at: Moment,
) -> Result<Seq<Change>, BeatFault>
    requires rules { KeepsRules records.now.kept }
    requires key { 0 < length key.now }
    requires value { 0 < length value.now }
    ensures beats { IfOk result (Beats key.now value.now at records.now.kept) }
    ensures refused { IfErr result (IsRefused key.now value.now records.now.kept.registry) }
{
    let row = beat_row(alloc, key, value, at)?;
    let put = Change::PutRegistry(row);
    if records.allows(alloc, &put)? {
        let changes = one_change(alloc, put)?;
        return Ok(changes);
    }
    let limit = limit_of(records.registry(), key.as_str());
    Err(BeatFault::TooMany { limit })
}

/// The change that drops a registration, if it is there.
pub fn remove(
    alloc: Global,
    records: &Records,
    key: &RegistryText,
    value: &RegistryText,
) -> Result<Seq<Change>, NoMemory>
    requires { KeepsRules records.now.kept }
    ensures { IfOk result (Removes key.now value.now records.now.kept) }
{
    let key = key.copy(alloc)?;
    let value = value.copy(alloc)?;
    one_change(alloc, Change::DropRegistry { key, value })
}
