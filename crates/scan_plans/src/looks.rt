//! What a step of the scan looks at.
ghost use Rattle.std.specs.Prelude.{◌≡◌, IfOk, IfNone, IfSome, is_some};
ghost use Rattle.cluster_history.specs.Looks.{look_row};
ghost use Rattle.cluster_plan.specs.Edits.{turned_row};

use cluster_history::Settings;
use cluster_plan::zone_of;
use job_records::Job;
use job_values::{Edition, Moment, NoMemory};
use misfire_rules::{Decision, decide};
use std::alloc::Global;

/// A look at the row of a job: its due time, and what is decided.
#[derive(Clone, Copy)]
pub struct Look {
    pub due: Moment,
    pub decision: Decision,
}

/// The look at a row; None where the job has another edition than its entry, or is stopped.
pub fn look_at(row: &Job, settings: Settings, at: Moment, edition: Edition) -> Option<Look>
    ensures some { IfSome result (λ look. look_row settings at edition (Some row.now) ≡ Some (record { row = row.now; due = look.due; decision = look.decision })) }
    ensures none { IfNone result (look_row settings at edition (Some row.now) ≡ None) }
{
    if row.edition != edition {
        return None;
    }
    let Some(due) = row.next else {
        return None;
    };
    let zone = zone_of(settings, &row.spec);
    let decision = decide(due, &row.schedule, row.spec.misfire, &zone, at);
    Some(Look { due, decision })
}

/// The row with the next time that is decided; the job runs where there is one.
pub fn looked_row(alloc: Global, row: &Job, decision: &Decision) -> Result<Job, NoMemory>
    ensures { IfOk result (λ new. new ≡ turned_row row.now.edition decision.now.next row.now) }
{
    let mut row = row.copy(alloc)?;
    row.running = decision.next.is_some();
    row.next = decision.next;
    Ok(row)
}
