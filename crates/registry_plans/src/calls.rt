//! The calls of executors.
ghost use Rattle.std.specs.Prelude.{◌≡◌, IfOk};
ghost use Rattle.job_events.specs.declared.cluster.ClusterEvent.TheVariants.{Registry, RegistryRemove};
ghost use Rattle.cluster_history.specs.Replies.{is_named};
ghost use Rattle.cluster_plan.specs.Kept.{IsSound, kept_in};
ghost use Rattle.cluster_plan.specs.Plans.{IsPlanned};

use cluster_plan::{NodeChange, Prepared, Seen};
use job_events::{ClusterRefusal, ClusterReply};
use job_values::{Moment, NoMemory, RegistryText};
use registry_beats::{BeatFault, beat, remove};

/// Whether a call is one of executors, and names an app and an address.
fn is_named(group: &RegistryText, key: &RegistryText, value: &RegistryText) -> bool
    ensures { result ≡ is_named group.now key.now value.now }
{
    group.as_str() == "EXECUTOR" && 0 < key.get().len() && 0 < value.get().len()
}

/// An executor says at a moment that it is there. BadRegistry comes first, then TooMany with the limit
/// of the key, then TooMany with that of all.
pub fn plan_registry(
    seen: &Seen<'_>,
    at: Moment,
    group: &RegistryText,
    key: &RegistryText,
    value: &RegistryText,
) -> Result<Prepared, NoMemory>
    requires { IsSound (kept_in seen.now) }
    ensures { IfOk result (IsPlanned (kept_in seen.now) (Registry at group.now key.now value.now)) }
{
    if !is_named(group, key, value) {
        return Ok(Prepared::refusal(seen.alloc, ClusterRefusal::BadRegistry));
    }
    match beat(seen.alloc, seen.records, key, value, at) {
        Ok(changes) => Ok(Prepared::changing(ClusterReply::Done, changes, NodeChange::Nothing)),
        Err(BeatFault::TooMany { limit }) => {
            Ok(Prepared::refusal(seen.alloc, ClusterRefusal::TooMany(limit)))
        }
        Err(BeatFault::NoMemory) => Err(NoMemory),
    }
}

/// An executor says that it is gone; it is done also where it was not there.
pub fn plan_registry_remove(
    seen: &Seen<'_>,
    group: &RegistryText,
    key: &RegistryText,
    value: &RegistryText,
) -> Result<Prepared, NoMemory>
    requires { IsSound (kept_in seen.now) }
    ensures { IfOk result (IsPlanned (kept_in seen.now) (RegistryRemove group.now key.now value.now)) }
{
    if !is_named(group, key, value) {
        return Ok(Prepared::refusal(seen.alloc, ClusterRefusal::BadRegistry));
    }
    let changes = remove(seen.alloc, seen.records, key, value)?;
    Ok(Prepared::changing(ClusterReply::Done, changes, NodeChange::Nothing))
}
