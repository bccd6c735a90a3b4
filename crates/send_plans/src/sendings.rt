//! The sending of a log that was taken.
ghost use Rattle.std.specs.Prelude.{◌≡◌, bytes_eq, IfOk};
ghost use Rattle.std.specs.List.{list_any};
ghost use Rattle.job_events.specs.declared.cluster.ClusterEvent.TheVariants.{Sent};
ghost use Rattle.cluster_history.specs.Settling.{sent_log};
ghost use Rattle.cluster_plan.specs.Kept.{IsSound, kept_in};
ghost use Rattle.cluster_plan.specs.Plans.{IsPlanned};
ghost use Rattle.send_plans.specs.Sendings.{is_given, sending};

use cluster_history::TakenLog;
use cluster_plan::{NodeChange, Prepared, Seen};
use job_events::{ClusterRefusal, ClusterReply};
use job_records::{Change, Log};
use job_values::limits::SUCCESS;
use job_values::{Address, Addresses, AdminNo, LogId, Moment, NoMemory, Seq};
use rising_rows::row_of;
use std::alloc::Global;

/// Whether a list has an address.
fn has_address(list: &Addresses, address: &str) -> bool
    ensures { result ≡ list_any (λ one. bytes_eq one address.now) list.now }
{
    list.as_slice().iter().any(|one| one.as_str() == address)
}

/// Whether a log that these addresses were given for may be sent so: to one of them, or to none
/// without success.
fn is_given(address: &Option<Address>, code: i32, given: &Addresses) -> bool
    ensures { result ≡ is_given address.now code given.now }
{
    match address {
        Some(address) => has_address(given, address.as_str()),
        None => code != SUCCESS,
    }
}

/// The same address, if there is one.
fn copied(alloc: Global, address: &Option<Address>) -> Result<Option<Address>, NoMemory>
    ensures { IfOk result (λ copy. copy ≡ address.now) }
{
    match address {
        Some(address) => Ok(Some(address.copy(alloc)?)),
        None => Ok(None),
    }
}

/// The row of a log that was sent.
fn sent_row(alloc: Global, row: &Log, address: &Option<Address>, code: i32) -> Result<Log, NoMemory>
    ensures { IfOk result (λ sent. sent ≡ sent_log address.now code row.now) }
{
    let mut sent = row.copy(alloc)?;
    sent.address = copied(alloc, address)?;
    sent.trigger_code = code;
    Ok(sent)
}

/// The sending of a taken log, whose row then has this address and this code.
fn sent_of(
    alloc: Global,
    admin: AdminNo,
    sent: Log,
    start: Moment,
    end: Moment,
) -> Result<Prepared, NoMemory>
    ensures { IfOk result (λ prepared. prepared ≡ sending admin sent start end) }
{
    let node = NodeChange::Sends {
        admin,
        log: sent.id,
        job: sent.job,
        start,
        end,
    };
    let changes = vec![in alloc; Change::PutLog(sent)].map_err(|_| NoMemory)?;
    Ok(Prepared::changing(ClusterReply::Done, Seq::of(changes), node))
}

/// A log was sent to an address, or to none, with a code, from a moment to another. It is found among
/// the taken ones by a binary search.
pub fn plan_sent(
    seen: &Seen<'_>,
    log: LogId,
    address: &Option<Address>,
    code: i32,
    start: Moment,
    end: Moment,
) -> Result<Prepared, NoMemory>
    requires { IsSound (kept_in seen.now) }
    ensures { IfOk result (IsPlanned (kept_in seen.now) (Sent log address.now code start end)) }
{
    if code < 1 {
        return Ok(Prepared::refusal(seen.alloc, ClusterRefusal::BadCode));
    }
    let Some(row) = seen.records.log(log) else {
        return Ok(Prepared::refusal(seen.alloc, ClusterRefusal::NoLog));
    };
    if row.trigger_code != 0 {
        let why = ClusterRefusal::AlreadySent(row.trigger_code);
        return Ok(Prepared::refusal(seen.alloc, why));
    }
    let Some(taken) = row_of(seen.taken.as_slice(), log.get()) else {
        return Ok(Prepared::refusal(seen.alloc, ClusterRefusal::NotTaken));
    };
    if !is_given(address, code, &taken.addresses) {
        return Ok(Prepared::refusal(seen.alloc, ClusterRefusal::WrongAddress));
    }
    let sent = sent_row(seen.alloc, row, address, code)?;
    sent_of(seen.alloc, taken.admin, sent, start, end)
}
