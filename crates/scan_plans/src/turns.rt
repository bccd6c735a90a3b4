//! The turns of the rings: the tickets of two slots fire.
ghost use Rattle.std.specs.Prelude.{◌≡◌, ◌≤◌, [], ◌∷◌, ◌++◌, IfOk};
ghost use Rattle.job_values.specs.declared.limits.TheConstants.{LAST_LOG_ID};
ghost use Rattle.job_events.specs.declared.cluster.ClusterEvent.TheVariants.{Turn};
ghost use Rattle.time_ring.specs.Ring.{slot_of_second, slot_before, tickets_in};
ghost use Rattle.cluster_plan.specs.Kept.{IsSound, kept_in, ring_at};
ghost use Rattle.cluster_plan.specs.Plans.{IsPlanned};
ghost use Rattle.scan_plans.specs.Turning.{FiresTickets};

use cluster_plan::{NodeChange, Prepared, Seen};
use job_events::{ClusterRefusal, ClusterReply, FiredTicket};
use job_records::Records;
use job_values::limits::SECOND;
use job_values::{AdminNo, Moment, NoMemory, Seq, TriggerKind};
use log_opening::{Openings, open_job, opened_changes, push_row};
use std::alloc::Global;
use time_ring::Ticket;

/// What a turn has opened so far, and the tickets that it has fired, each with its logs.
#[derive(Drop)]
pub struct Turned<'a> {
    pub openings: Openings<'a>,
    pub fired: Vec<FiredTicket>,
}

/// Fires a ticket; false where the ids are spent.
fn fire_ticket(
    alloc: Global,
    records: &Records,
    at: Moment,
    ticket: &Ticket,
    turned: &mut Turned<'_>,
) -> Result<bool, NoMemory>
    requires { turned.old.openings.last ≤ LAST_LOG_ID }
    ensures { IfOk result (FiresTickets records.now.kept at (ticket.now ∷ []) turned.old turned.new) }
{
    let kind = TriggerKind::Cron;
    let opened = open_job(alloc, records, kind, at, ticket.job, &mut turned.openings)?;
    let Some(opened) = opened else {
        return Ok(false);
    };
    let fired = FiredTicket {
        job: ticket.job,
        edition: ticket.edition,
        due: ticket.due,
        opened,
    };
    push_row(&mut turned.fired, fired)?;
    Ok(true)
}

/// Fires tickets, one after another; false where the ids are spent.
fn fire_tickets(
    alloc: Global,
    records: &Records,
    at: Moment,
    tickets: &[Ticket],
    turned: &mut Turned<'_>,
) -> Result<bool, NoMemory>
    requires { turned.old.openings.last ≤ LAST_LOG_ID }
    ensures { IfOk result (FiresTickets records.now.kept at tickets.now turned.old turned.new) }
{
    for ticket in tickets {
        let fits = fire_ticket(alloc, records, at, ticket, turned)?;
        if !fits {
            return Ok(false);
        }
    }
    Ok(true)
}

/// Fires the tickets of the slot of a second, then those of the slot before; false where the ids are
/// spent.
fn fire_slots(
    alloc: Global,
    records: &Records,
    at: Moment,
    present: &[Ticket],
    past: &[Ticket],
    turned: &mut Turned<'_>,
) -> Result<bool, NoMemory>
    requires { turned.old.openings.last ≤ LAST_LOG_ID }
    ensures { IfOk result (FiresTickets records.now.kept at (present.now ++ past.now) turned.old turned.new) }
{
    let fits = fire_tickets(alloc, records, at, present, turned)?;
    if !fits {
        return Ok(false);
    }
    fire_tickets(alloc, records, at, past, turned)
}

/// The tickets in the slot of a second of an admin's ring, and in the slot before.
fn slots_at<'a>(seen: &Seen<'a>, admin: AdminNo, second: u64) -> (&'a [Ticket], &'a [Ticket])
    requires { IsSound (kept_in seen.now) }
    ensures present { result.0.now ≡ tickets_in (ring_at (kept_in seen.now) admin) (slot_of_second second) }
    ensures past { result.1.now ≡ tickets_in (ring_at (kept_in seen.now) admin) (slot_before second) }
{
    seen.node_at(admin).ring.slots(second)
}

/// The ring of an admin turns, and fires the tickets of two slots.
pub fn plan_turn(seen: &Seen<'_>, admin: AdminNo, at: Moment) -> Result<Prepared, NoMemory>
    requires { IsSound (kept_in seen.now) }
    ensures { IfOk result (IsPlanned (kept_in seen.now) (Turn admin at)) }
{
    let alloc = seen.alloc;
    if !seen.is_running(admin) {
        let why = ClusterRefusal::NodeStopped(admin);
        return Ok(Prepared::refusal(alloc, why));
    }
    let second = at.get() / SECOND;
    let (present, past) = slots_at(seen, admin, second);
    let last = seen.records.last_ids();
    let mut turned = Turned {
        openings: Openings::new(alloc, last.log, seen.pools_at(admin)),
        fired: Vec::new(alloc),
    };
    let fits = fire_slots(alloc, seen.records, at, present, past, &mut turned)?;
    if !fits {
        return Ok(Prepared::refusal(alloc, ClusterRefusal::IdsSpent));
    }
    let Turned { openings, fired } = turned;
    let Openings {
        puts,
        entering,
        last: log,
        ..
    } = openings;
    Ok(Prepared::changing(
        ClusterReply::Fired(Seq::of(fired)),
        Seq::of(opened_changes(alloc, last, log, puts)?),
        NodeChange::Turns(admin, second, Seq::of(entering)),
    ))
}
