//! Lost logs: sent ten minutes ago or more, without a result, to an executor that is registered no more.
ghost use Rattle.std.specs.Prelude.{◌≡◌, ◌+◌, ◌<◌, ◌≤◌, bytes_eq, length, option_map, IfOk};
ghost use Rattle.std.specs.List.{list_any};
ghost use Rattle.std.specs.Option.{option_copied};
ghost use Rattle.rising_rows.specs.Rising.{row_with};
ghost use Rattle.row_indexes.specs.Entries.{passes};
ghost use Rattle.job_records.specs.LogClasses.{log_ids};
ghost use Rattle.job_records.specs.Rules.{KeepsRules};
ghost use Rattle.settle_log.specs.Settling.{is_unregistered, is_awaited, is_lost, first_lost, settled_log, lost_text};

use job_records::{Log, Records, RegistryRow};
use job_values::limits::{FAILURE, LOST_AFTER};
use job_values::{Address, LogId, Moment, NoMemory, ResultText, Steps, Text};
use std::alloc::Global;
use std::marker::Brand;
use std::sync::ledger::{Blank, Ledger};

/// Whether a registration has this address: one pass over the registrations.
fn has_address(rows: &[RegistryRow], address: &str) -> bool
    ensures { result ≡ list_any (λ row. bytes_eq row.value address.now) rows.now }
{
    rows.iter().any(|row| row.value.as_str() == address)
}

/// Whether there is an address, and no registration has it.
fn unregistered(rows: &[RegistryRow], address: &Option<Address>) -> bool
    ensures { result ≡ is_unregistered rows.now address.now }
{
    match address {
        Some(address) => !has_address(rows, address.as_str()),
        None => false,
    }
}

/// Whether a log was sent with success and has no result.
pub fn awaited(log: &Log) -> bool
    ensures { result ≡ is_awaited log.now }
{
    log.is_awaited()
}

/// Whether a log is lost at a moment.
pub fn lost(log: &Log, records: &Records, at: Moment) -> bool
    ensures { result ≡ is_lost at records.now.kept.registry log.now }
{
    awaited(log)
        && log.time.get() + LOST_AFTER <= at.get()
        && unregistered(records.registry(), &log.address)
}

/// Whether the log with this id is lost at a moment.
fn lost_with(records: &Records, id: LogId, at: Moment) -> bool
    ensures { result ≡ passes (is_lost at records.now.kept.registry) (row_with (λ log. log.id) id records.now.kept.logs) }
{
    match records.log(id) {
        Some(log) => lost(log, records, at),
        None => false,
    }
}

/// The first log that is lost at a moment. It makes one step for each awaited log up to it, or for all
/// of them and one more: of each the row is found by a binary search, and for each that has waited ten
/// minutes the registrations are passed. It takes no memory.
pub fn lost_of<L: Ledger>(records: &Records, now: Moment, steps: &mut Steps<L>) -> Option<LogId>
    ensures log { result ≡ option_map (λ log. log.id) (first_lost now records.now.kept.registry records.now.kept.logs) }
    ensures steps { steps.new ≤ steps.old + (length (log_ids is_awaited records.now.kept.logs) + 1) }
{
    let index = records.log_index();
    for place in 0..records.logs().len() {
        match index.open_at(place, steps) {
            Some(id) => {
                if lost_with(records, id, now) {
                    return Some(id);
                }
            }
            None => return None,
        }
    }
    None
}

/// The same, of which nothing is counted.
fn uncounted_lost<L: Ledger>(records: &Records, at: Moment, blank: Blank) -> Option<LogId>
    requires name { blank.name ≡ L.name }
    requires parts { blank.parts ≡ L.parts }
    requires some { 0 < L.parts }
    ensures { result ≡ option_map (λ log. log.id) (first_lost at records.now.kept.registry records.now.kept.logs) }
{
    let mut steps = Steps::<L>::none(blank);
    lost_of(records, at, &mut steps)
}

/// The first log that is lost at a moment.
pub fn first_lost(records: &Records, at: Moment) -> Option<&Log>
    requires { KeepsRules records.now.kept }
    ensures { option_copied result ≡ first_lost at records.now.kept.registry records.now.kept.logs }
{
    match uncounted_lost::<Brand>(records, at, Blank::new(1)) {
        Some(id) => records.log(id),
        None => None,
    }
}

/// The row of a log that is lost at a moment, with its result.
pub fn lost_row(alloc: Global, log: &Log, at: Moment) -> Result<Log, NoMemory>
    ensures { IfOk result (λ row. row ≡ settled_log at FAILURE lost_text log.now) }
{
    let text = Text::copied(alloc, "job lost")?;
    let mut row = log.copy(alloc)?;
    row.result_time = Some(at);
    row.result_code = FAILURE;
    row.result_text = ResultText::of(text);
    Ok(row)
}
