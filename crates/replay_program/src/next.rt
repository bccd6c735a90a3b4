//! The next times of a schedule on the clock of a zone.
ghost use Rattle.std.specs.Prelude.{◌≡◌, ◌++◌, ◌∷◌, [], Ok, OnOk, IfOk};
ghost use Rattle.std.specs.Fmt.{decimal};
ghost use Rattle.line_grammar.specs.Writing.{spaced_number};
ghost use Rattle.cron_schedule.specs.Parse.{parsed};
ghost use Rattle.zone_texts.specs.Parsed.{zone_parsed};
ghost use Rattle.replay_program.specs.Times.{times_text, fault_text, zone_fault_text};
ghost use Rattle.replay_program.specs.Next.{answer_text, answer_status};

use super::replay::push_bytes;
use cron_schedule::{ParseFault, Schedule};
use itoa::Buffer;
use job_values::{Moment, NoMemory, Offset, ScheduleFault, ScheduleKind, Text, ZoneFault};
use line_program::Status;
use std::alloc::Global;
use zone_texts::Zone;

/// What the words of `next` ask for.
#[derive(Drop)]
pub(crate) struct Ask {
    pub kind: ScheduleKind,
    pub text: Text,
    /// The clock where the zone is empty.
    pub offset: Offset,
    /// The times after this moment.
    pub from: Moment,
    /// 1 to 1,000.
    pub count: u32,
    /// The text of a zone, or empty.
    pub zone: Text,
}

/// Puts a moment as a line behind the buffer.
fn put_moment(out: &mut Vec<u8>, at: Moment) -> Result<(), NoMemory>
    ensures { OnOk result (out.new.items ≡ out.old.items ++ (decimal at ++ 10 ∷ [])) }
{
    let mut digits = Buffer::new();
    push_bytes(out, digits.format(at.get()).as_bytes())?;
    push_bytes(out, b"\n")?;
    Ok(())
}

/// Puts so many times of a schedule behind the buffer, a line each, and `none` where there are fewer.
fn put_times(
    out: &mut Vec<u8>,
    schedule: &Schedule,
    zone: &Zone,
    count: u32,
    at: Moment,
) -> Result<(), NoMemory>
    ensures { OnOk result (out.new.items ≡ out.old.items ++ times_text schedule.now zone.now count at) }
{
    if count == 0 {
        return Ok(());
    }
    match schedule.after(at, zone) {
        Some(next) => {
            put_moment(out, next)?;
            put_times(out, schedule, zone, count - 1, next)
        }
        None => push_bytes(out, b"none\n"),
    }
}

/// Puts a blank and a number behind the buffer.
fn put_number(out: &mut Vec<u8>, n: u32) -> Result<(), NoMemory>
    ensures { OnOk result (out.new.items ≡ out.old.items ++ spaced_number n) }
{
    let mut digits = Buffer::new();
    push_bytes(out, b" ")?;
    push_bytes(out, digits.format(n).as_bytes())?;
    Ok(())
}

/// Puts the fault of a schedule behind the buffer.
fn put_fault(out: &mut Vec<u8>, fault: ScheduleFault) -> Result<(), NoMemory>
    ensures { OnOk result (out.new.items ≡ out.old.items ++ fault_text fault) }
{
    push_bytes(out, b"bad schedule")?;
    put_number(out, fault.field as u32)?;
    put_number(out, fault.place)?;
    push_bytes(out, b"\n")?;
    Ok(())
}

/// Puts the fault of a zone behind the buffer.
fn put_zone_fault(out: &mut Vec<u8>, fault: ZoneFault) -> Result<(), NoMemory>
    ensures { OnOk result (out.new.items ≡ out.old.items ++ zone_fault_text fault) }
{
    push_bytes(out, b"bad zone")?;
    put_number(out, fault.place)?;
    push_bytes(out, b"\n")?;
    Ok(())
}

/// Puts the times of a schedule in the zone that is asked for behind the buffer, or the zone's fault.
fn put_in_zone(out: &mut Vec<u8>, ask: &Ask, schedule: &Schedule) -> Result<Status, NoMemory>
    ensures text { OnOk result (out.new.items ≡ out.old.items ++ answer_text ask.now (Ok schedule.now) (zone_parsed ask.now.zone ask.now.offset)) }
    ensures status { IfOk result (λ status. status ≡ answer_status (Ok schedule.now) (zone_parsed ask.now.zone ask.now.offset)) }
{
    match Zone::parse(&ask.zone, ask.offset) {
        Ok(zone) => {
            put_times(out, schedule, &zone, ask.count, ask.from)?;
            Ok(Status::Done)
        }
        Err(fault) => {
            put_zone_fault(out, fault)?;
            Ok(Status::BadWords)
        }
    }
}

/// Puts the answer to a question for next times behind the buffer, and gives its status.
pub(crate) fn put_answer(alloc: Global, out: &mut Vec<u8>, ask: &Ask) -> Result<Status, NoMemory>
    ensures text { OnOk result (out.new.items ≡ out.old.items ++ answer_text ask.now (parsed ask.now.kind ask.now.text) (zone_parsed ask.now.zone ask.now.offset)) }
    ensures status { IfOk result (λ status. status ≡ answer_status (parsed ask.now.kind ask.now.text) (zone_parsed ask.now.zone ask.now.offset)) }
{
    match Schedule::parse(alloc, ask.kind, &ask.text) {
        Ok(schedule) => {
            let status = put_in_zone(out, ask, &schedule)?;
            Ok(status)
        }
        Err(ParseFault::Bad(fault)) => {
            put_fault(out, fault)?;
            Ok(Status::BadWords)
        }
        Err(ParseFault::NoMemory) => Err(NoMemory),
    }
}
