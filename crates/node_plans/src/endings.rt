//! What ends with the stop of admins, and with an opening: the logs that were not sent, and the tickets.
ghost use Rattle.std.specs.Prelude.{◌≡◌, [], ◌∷◌, ◌++◌, map, min, IfOk, OnOk};
ghost use Rattle.job_records.specs.declared.change.Change.TheVariants.{PutLog};
ghost use Rattle.job_records.specs.Changes.{applied_all, AreAllowed};
ghost use Rattle.job_records.specs.Rules.{KeepsRules};
ghost use Rattle.cluster_history.specs.Settling.{is_unsent, ended_log, log_with};
ghost use Rattle.cluster_plan.specs.Nodes.{node_in};
ghost use Rattle.node_plans.specs.Endings.{ending_of, endings, unsent_endings, unsent_ended, lost_of};

use cluster_plan::Node;
use job_records::{Change, Log, Records};
use job_values::limits::FAILURE;
use job_values::{LogId, NoMemory, Seq};
use std::alloc::Global;

/// A log with the trigger code of a stop.
fn ended(mut log: Log) -> Log
    ensures { result ≡ ended_log log }
{
    log.trigger_code = FAILURE;
    log
}

/// Ends the log of a row.
fn end_row(alloc: Global, row: &Log, changes: &mut Vec<Change>) -> Result<(), NoMemory>
    ensures { OnOk result (changes.new.items ≡ changes.old.items ++ PutLog (ended_log row.now) ∷ []) }
{
    let row = row.copy(alloc)?;
    changes
        .push(Change::PutLog(ended(row)))
        .map_err(|_| NoMemory)
}

/// Ends a log, if its row is there.
fn end_log(
    alloc: Global,
    records: &Records,
    id: LogId,
    changes: &mut Vec<Change>,
) -> Result<(), NoMemory>
    ensures { OnOk result (changes.new.items ≡ changes.old.items ++ ending_of (log_with id records.now.kept.logs)) }
{
    match records.log(id) {
        Some(row) => end_row(alloc, row, changes),
        None => Ok(()),
    }
}

/// The changes that end the logs with these ids, as far as their rows are there.
pub fn end_logs(alloc: Global, records: &Records, ids: &Vec<LogId>) -> Result<Vec<Change>, NoMemory>
    ensures { IfOk result (λ changes. changes.items ≡ endings records.now.kept.logs ids.now.items) }
{
    let mut changes = Vec::new(alloc);
    for id in ids {
        end_log(alloc, records, *id, &mut changes)?;
    }
    Ok(changes)
}

/// Whether a log has no trigger code.
fn is_unsent(log: &Log) -> bool
    ensures { result ≡ is_unsent log.now }
{
    log.trigger_code == 0
}

/// The ends of the logs that have no trigger code, in one pass.
fn unsent_ends(alloc: Global, records: &Records) -> Result<Vec<Change>, NoMemory>
    ensures { IfOk result (λ changes. changes.items ≡ unsent_endings records.now.kept.logs) }
{
    let mut changes = Vec::new(alloc);
    for log in records.logs() {
        if is_unsent(log) {
            end_row(alloc, log, &mut changes)?;
        }
    }
    Ok(changes)
}

/// The changes that end each log that has no trigger code, in order of their ids.
pub fn end_unsent(alloc: Global, records: &Records) -> Result<Seq<Change>, NoMemory>
    ensures changes { IfOk result (λ changes. changes ≡ unsent_endings records.now.kept.logs) }
    ensures allowed { IfOk result (AreAllowed records.now.kept) }
    ensures gives { IfOk result (λ changes. applied_all records.now.kept changes ≡ unsent_ended records.now.kept) }
    ensures rules { KeepsRules (unsent_ended records.now.kept) }
{
    let _ = records.last_ids();
    Ok(Seq::of(unsent_ends(alloc, records)?))
}

/// How many tickets the rings of the running admins have.
pub fn lost_tickets(nodes: &Vec<Node>) -> u64
    ensures { result ≡ min (lost_of (map node_in nodes.now.items)) (u64.MAX) }
{
    let mut lost: u64 = 0;
    for node in nodes {
        if node.running {
            lost = lost.saturating_add(node.ring.count());
        }
    }
    lost
}
