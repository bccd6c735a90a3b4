//! The groups.
ghost use Rattle.std.specs.Prelude.{◌≡◌, IfOk};
ghost use Rattle.job_events.specs.declared.cluster.ClusterEvent.TheVariants.{AddGroup, SetGroup};
ghost use Rattle.cluster_plan.specs.Kept.{IsSound, kept_in};
ghost use Rattle.cluster_plan.specs.Plans.{IsPlanned};

use super::changes::{one_change, two_changes};
use super::ids::next_group;
use cluster_plan::{NodeChange, Prepared, Seen};
use job_events::{ClusterRefusal, ClusterReply};
use job_records::{Change, Group, LastIds};
use job_values::limits::{LAST_JOB_ID, MOST_GROUPS};
use job_values::{Addresses, AppName, GroupId, GroupKind, NoMemory, copy_addresses};

/// A group is added.
pub fn plan_add_group(
    seen: &Seen<'_>,
    app: &AppName,
    kind: GroupKind,
    addresses: &Addresses,
) -> Result<Prepared, NoMemory>
    requires { IsSound (kept_in seen.now) }
    ensures { IfOk result (IsPlanned (kept_in seen.now) (AddGroup app.now kind addresses.now)) }
{
    if seen.records.groups().len() >= MOST_GROUPS {
        let why = ClusterRefusal::TooMany(MOST_GROUPS as u32);
        return Ok(Prepared::refusal(seen.alloc, why));
    }
    let last = seen.records.last_ids();
    let Some(id) = next_group(last.group) else {
        let why = ClusterRefusal::TooMany(LAST_JOB_ID);
        return Ok(Prepared::refusal(seen.alloc, why));
    };
    let group = Group {
        id,
        app: app.copy(seen.alloc)?,
        kind,
        addresses: copy_addresses(seen.alloc, addresses)?,
    };
    let last = LastIds {
        group: id.get(),
        job: last.job,
        log: last.log,
    };
    let changes = two_changes(seen.alloc, Change::LastIds(last), Change::PutGroup(group))?;
    Ok(Prepared::changing(ClusterReply::Group(id), changes, NodeChange::Nothing))
}

/// A group gets another kind and other addresses.
pub fn plan_set_group(
    seen: &Seen<'_>,
    group: GroupId,
    kind: GroupKind,
    addresses: &Addresses,
) -> Result<Prepared, NoMemory>
    requires { IsSound (kept_in seen.now) }
    ensures { IfOk result (IsPlanned (kept_in seen.now) (SetGroup group kind addresses.now)) }
{
    let Some(row) = seen.records.group(group) else {
        return Ok(Prepared::refusal(seen.alloc, ClusterRefusal::NoGroup));
    };
    let app = row.app.copy(seen.alloc)?;
    let addresses = copy_addresses(seen.alloc, addresses)?;
    let set = Group {
        id: row.id,
        app,
        kind,
        addresses,
    };
    let changes = one_change(seen.alloc, Change::PutGroup(set))?;
    Ok(Prepared::changing(ClusterReply::Done, changes, NodeChange::Nothing))
}
