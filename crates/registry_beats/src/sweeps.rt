//! The sweep: dead registrations go, and the automatic groups get the lists of those that are left.
ghost use Rattle.std.specs.Prelude.{◌≡◌, [], ◌∷◌, ◌++◌, map, filter, IfOk, OnOk};
ghost use Rattle.job_records.specs.declared.change.Change.TheVariants.{PutGroup};
ghost use Rattle.job_records.specs.Rules.{KeepsRules, RegistryRules};
ghost use Rattle.registry_beats.specs.Registrations.{is_dead, rows_left};
ghost use Rattle.registry_beats.specs.Beats.{Sweeps, drop_of, groups_put};

pub use super::lists::dead;
use super::lists::swept_group;
use job_records::{Change, Group, Records, RegistryRow};
use job_values::{Moment, NoMemory};
use std::alloc::Global;

/// What a sweep changes, and how many registrations it drops.
#[derive(Drop)]
pub struct Swept {
    pub changes: Vec<Change>,
    pub dropped: usize,
}

/// Drops the registrations that are dead at a moment, in order.
fn drop_dead(
    alloc: Global,
    rows: &[RegistryRow],
    at: Moment,
    changes: &mut Vec<Change>,
) -> Result<(), NoMemory>
    ensures { OnOk result (changes.new.items ≡ changes.old.items ++ map drop_of (filter (is_dead at) rows.now)) }
{
    for row in rows {
        if dead(row, at) {
            let key = row.key.copy(alloc)?;
            let value = row.value.copy(alloc)?;
            changes.push(Change::DropRegistry { key, value })?;
        }
    }
    Ok(())
}

/// Puts a group, if it gets another list.
fn put_group(
    alloc: Global,
    rows: &[RegistryRow],
    group: &Group,
    at: Moment,
    changes: &mut Vec<Change>,
) -> Result<(), NoMemory>
    requires { RegistryRules rows.now }
    ensures { OnOk result (changes.new.items ≡ changes.old.items ++ map PutGroup (groups_put (rows_left at rows.now) (group.now ∷ []))) }
{
    match swept_group(alloc, rows, group, at)? {
        Some(swept) => changes.push(Change::PutGroup(swept)).map_err(|_| NoMemory),
        None => Ok(()),
    }
}

/// Puts the groups that get another list.
fn put_groups(
    alloc: Global,
    rows: &[RegistryRow],
    groups: &[Group],
    at: Moment,
    changes: &mut Vec<Change>,
) -> Result<(), NoMemory>
    requires { RegistryRules rows.now }
    ensures { OnOk result (changes.new.items ≡ changes.old.items ++ map PutGroup (groups_put (rows_left at rows.now) groups.now)) }
{
    for group in groups {
        put_group(alloc, rows, group, at, changes)?;
    }
    Ok(())
}

/// The changes of a sweep at a moment: one pass over the registrations, and for each automatic group
/// one over those of its app. They drop the dead registrations as one run, in order.
pub fn sweep(alloc: Global, records: &Records, at: Moment) -> Result<Swept, NoMemory>
    requires { KeepsRules records.now.kept }
    ensures { IfOk result (Sweeps at records.now.kept) }
{
    let mut changes = Vec::new(alloc);
    drop_dead(alloc, records.registry(), at, &mut changes)?;
    let dropped = changes.len();
    put_groups(
        alloc,
        records.registry(),
        records.groups(),
        at,
        &mut changes,
    )?;
    Ok(Swept { changes, dropped })
}
