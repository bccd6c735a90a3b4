//! Whether rows say the same.

use job_records::{Group, Job, Log, Records, RegistryRow};
use job_values::{Address, JobSpec};

fn same_addresses(one: &[Address], other: &[Address]) -> bool {
    one.len() == other.len()
        && one
            .iter()
            .zip(other)
            .all(|(one, other)| one.as_str() == other.as_str())
}

fn same_group(one: &Group, other: &Group) -> bool {
    one.id == other.id
        && one.app.as_str() == other.app.as_str()
        && one.kind == other.kind
        && same_addresses(one.addresses.as_slice(), other.addresses.as_slice())
}

fn same_trigger(one: &JobSpec, other: &JobSpec) -> bool {
    one.group == other.group
        && one.kind == other.kind
        && one.schedule.as_str() == other.schedule.as_str()
        && one.zone.as_str() == other.zone.as_str()
        && one.misfire == other.misfire
        && one.route == other.route
        && one.block == other.block
}

fn same_work(one: &JobSpec, other: &JobSpec) -> bool {
    one.handler.as_str() == other.handler.as_str()
        && one.param.as_str() == other.param.as_str()
        && one.timeout == other.timeout
        && one.retries == other.retries
        && one.children.as_slice() == other.children.as_slice()
}

fn same_job(one: &Job, other: &Job) -> bool {
    one.id == other.id
        && same_trigger(&one.spec, &other.spec)
        && same_work(&one.spec, &other.spec)
        && one.running == other.running
        && one.edition == other.edition
        && one.next == other.next
}

fn same_address(one: &Option<Address>, other: &Option<Address>) -> bool {
    match (one, other) {
        (None, None) => true,
        (Some(one), Some(other)) => one.as_str() == other.as_str(),
        _ => false,
    }
}

fn same_order(one: &Log, other: &Log) -> bool {
    one.job == other.job
        && one.group == other.group
        && same_address(&one.address, &other.address)
        && one.handler.as_str() == other.handler.as_str()
        && one.param.as_str() == other.param.as_str()
        && one.block == other.block
        && one.route == other.route
        && one.timeout == other.timeout
}

fn same_trace(one: &Log, other: &Log) -> bool {
    one.index == other.index
        && one.total == other.total
        && one.retries == other.retries
        && one.kind == other.kind
        && one.time == other.time
        && one.trigger_code == other.trigger_code
}

fn same_result(one: &Log, other: &Log) -> bool {
    one.result_time == other.result_time
        && one.result_code == other.result_code
        && one.result_text.as_str() == other.result_text.as_str()
        && one.marked == other.marked
}

fn same_log(one: &Log, other: &Log) -> bool {
    one.id == other.id
        && same_order(one, other)
        && same_trace(one, other)
        && same_result(one, other)
}

fn same_registration(one: &RegistryRow, other: &RegistryRow) -> bool {
    one.key.as_str() == other.key.as_str()
        && one.value.as_str() == other.value.as_str()
        && one.beat == other.beat
}

/// Rows that can be compared.
trait Row {
    fn is_same(&self, other: &Self) -> bool;
}

impl Row for Group {
    fn is_same(&self, other: &Group) -> bool {
        same_group(self, other)
    }
}

impl Row for Job {
    fn is_same(&self, other: &Job) -> bool {
        same_job(self, other)
    }
}

impl Row for Log {
    fn is_same(&self, other: &Log) -> bool {
        same_log(self, other)
    }
}

impl Row for RegistryRow {
    fn is_same(&self, other: &RegistryRow) -> bool {
        same_registration(self, other)
    }
}

fn all_same<T: Row>(one: &[T], other: &[T]) -> bool {
    if one.len() != other.len() {
        return false;
    }
    for (one, other) in one.iter().zip(other) {
        if !one.is_same(other) {
            return false;
        }
    }
    true
}

/// Whether the rows are the same, and the last ids.
pub fn same_rows(one: &Records, other: &Records) -> bool {
    one.last_ids() == other.last_ids()
        && all_same(one.groups(), other.groups())
        && all_same(one.jobs(), other.jobs())
        && all_same(one.logs(), other.logs())
        && all_same(one.registry(), other.registry())
}
