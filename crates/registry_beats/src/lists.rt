//! The address lists of the automatic groups.
ghost use Rattle.std.specs.Prelude.{◌≡◌, ◌≤◌, map, All, length, bytes_eq, IfOk, Some, None, if◌then◌else◌};
ghost use Rattle.std.specs.Cmp.Lexicographic.{pointwise};
ghost use Rattle.job_values.specs.declared.limits.TheConstants.{MOST_ADDRESSES};
ghost use Rattle.job_records.specs.Rules.{IsNamed, RegistryRules};
ghost use Rattle.registry_beats.specs.Registrations.{is_dead, rows_left, values_of, group_swept};
ghost use Rattle.registry_beats.specs.Beats.{gets_list};

use super::keys::rows_of_key;
use job_records::{Group, RegistryRow};
use job_values::limits::DEAD_AFTER;
use job_values::{Address, Addresses, GroupKind, Moment, NoMemory, Seq};
use std::alloc::Global;

/// Whether a registration is dead at a moment: its last beat is more than ninety seconds ago.
pub fn dead(row: &RegistryRow, at: Moment) -> bool
    ensures { result ≡ is_dead at row.now }
{
    row.beat.get() + DEAD_AFTER < at.get()
}

/// The values of those of these registrations that live at a moment.
fn living_values(alloc: Global, rows: &[RegistryRow], at: Moment) -> Result<Addresses, NoMemory>
    requires named { All IsNamed rows.now }
    requires few { length rows.now ≤ MOST_ADDRESSES }
    ensures { IfOk result (λ values. values ≡ map (λ row. row.value) (rows_left at rows.now)) }
{
    let mut values: Vec<Address> = Vec::new(alloc);
    for row in rows {
        if !dead(row, at) {
            let text = row.value.get().copy(alloc)?;
            values.push(Address::of(text))?;
        }
    }
    Ok(Addresses::of(Seq::of(values)))
}

/// The list of an app after a sweep at a moment.
fn list_of(
    alloc: Global,
    rows: &[RegistryRow],
    app: &str,
    at: Moment,
) -> Result<Addresses, NoMemory>
    requires { RegistryRules rows.now }
    ensures { IfOk result (λ addresses. addresses ≡ values_of app.now (rows_left at rows.now)) }
{
    living_values(alloc, rows_of_key(rows, app), at)
}

/// Whether two lists have the same addresses in the same order.
fn is_same(addresses: &[Address], others: &[Address]) -> bool
    ensures { result ≡ pointwise bytes_eq addresses.now others.now }
{
    if addresses.len() != others.len() {
        return false;
    }
    for place in 0..addresses.len() {
        if addresses[place].as_str() != others[place].as_str() {
            return false;
        }
    }
    true
}

/// A group with another list; None where it has this list.
fn relisted(alloc: Global, group: &Group, addresses: Addresses) -> Result<Option<Group>, NoMemory>
    ensures { IfOk result (λ other. other ≡ (if pointwise bytes_eq addresses group.now.addresses then None else Some (record group.now { addresses = addresses }))) }
{
    if is_same(addresses.as_slice(), group.addresses.as_slice()) {
        return Ok(None);
    }
    let app = group.app.copy(alloc)?;
    Ok(Some(Group {
        id: group.id,
        app,
        kind: group.kind,
        addresses,
    }))
}

/// A group with the list that a sweep at a moment gives it; None where its list stays.
pub(crate) fn swept_group(
    alloc: Global,
    rows: &[RegistryRow],
    group: &Group,
    at: Moment,
) -> Result<Option<Group>, NoMemory>
    requires { RegistryRules rows.now }
    ensures { IfOk result (λ swept. swept ≡ (if gets_list (rows_left at rows.now) group.now then Some (group_swept (rows_left at rows.now) group.now) else None)) }
{
    match group.kind {
        GroupKind::Manual => Ok(None),
        GroupKind::Auto => {
            let addresses = list_of(alloc, rows, group.app.as_str(), at)?;
            relisted(alloc, group, addresses)
        }
    }
}
