//! Lines of jobs and of their logs, read word by word.
ghost use Rattle.job_values.specs.declared.limits.TheConstants.{LAST_JOB_ID, MOST_CHILDREN};
ghost use Rattle.std.specs.Prelude.{◌≡◌, [], MatchResult, IfOk};
ghost use Rattle.line_grammar.specs.Reading.{Takes};
ghost use Rattle.line_grammar.specs.Grammar.{reading};
ghost use Rattle.line_grammar.specs.Dashes.{number_form};
ghost use Rattle.line_grammar.specs.Lists.{ended_numbers_at};
ghost use Rattle.line_grammar.specs.Texts.{text_form};
ghost use Rattle.line_grammar.specs.Laws.{IsNumberOf};
ghost use Rattle.std.specs.List.{AllByRecursion};
ghost use Rattle.script_text.specs.Lines.{zone_at, spec_at, behind};
ghost use Rattle.script_text.specs.declared.commands.Command.TheVariants as command;

use crate::words::{
    admin, block, block_word, group, job, log, misfire, misfire_word, moment, retries, route,
    route_word, schedule_kind, schedule_kind_word, timeout,
};
use job_events::ClusterEvent;
use job_values::limits::{LAST_JOB_ID, LONGEST_NAME, MOST_CHILDREN};
use job_values::{BoundedText, Children, JobId, JobSpec, NoMemory, Seq, Text, ZoneText};
use line_grammar::{End, ReadError, Reader, TextForm};
use std::alloc::Global;

/// The ids that numbers within the bounds are.
fn ids(alloc: Global, numbers: &[u64]) -> Result<Vec<JobId>, ReadError>
    requires { AllByRecursion (IsNumberOf (number_form 1 LAST_JOB_ID End.Line)) numbers.now }
    ensures { MatchResult result (λ v. v.items ≡ numbers.now) (λ e. e ≡ ReadError.Memory) }
{
    let mut ids = Vec::new(alloc);
    for number in numbers {
        match JobId::new(*number as u32) {
            Some(id) => ids.push(id)?,
            None => unreachable!(),
        }
    }
    Ok(ids)
}

/// The children of a job, and what stands behind them.
fn children(reader: &mut Reader, alloc: Global) -> Result<(End, Children), ReadError>
    ensures { Takes (λ v. v) result reader.new.rest.now (ended_numbers_at MOST_CHILDREN 1 LAST_JOB_ID reader.old.rest.now) }
{
    let (end, numbers) = reader.ended_numbers(
        alloc,
        MOST_CHILDREN as u32,
        1,
        u64::from(LAST_JOB_ID),
    )?;
    let ids = ids(alloc, numbers.as_slice())?;
    Ok((end, Children::of(Seq::of(ids))))
}

/// The zone of a spec that names none.
fn no_zone(alloc: Global) -> Result<ZoneText, NoMemory>
    ensures { IfOk result (λ zone. zone ≡ []) }
{
    Ok(BoundedText::of(Text::copied(alloc, "")?))
}

/// The word in front of a zone, and the zone.
#[tactic(auto, unfolding(crate::specs::Lines::zone_at))]
fn named_zone(reader: &mut Reader, alloc: Global) -> Result<ZoneText, ReadError>
    ensures { Takes (λ z. z) result reader.new.rest.now (zone_at End.Space reader.old.rest.now) }
{
    reader.choice(&["zone "])?;
    let zone = reader.text(
        alloc,
        TextForm {
            least: 1,
            greatest: LONGEST_NAME,
            behind: End::Line,
        },
    )?;
    Ok(BoundedText::of(zone))
}

/// The zone of a spec whose children this end stands behind.
#[tactic(auto, unfolding(crate::specs::Lines::zone_at))]
fn zone(reader: &mut Reader, alloc: Global, end: End) -> Result<ZoneText, ReadError>
    ensures { Takes (λ z. z) result reader.new.rest.now (zone_at end reader.old.rest.now) }
{
    match end {
        End::Line => {
            let zone = no_zone(alloc)?;
            Ok(zone)
        }
        End::Space => named_zone(reader, alloc),
    }
}

/// The spec of a job, which ends its line.
#[tactic(auto, unfolding(crate::specs::Lines::spec_at))]
pub(crate) fn spec(reader: &mut Reader, alloc: Global) -> Result<JobSpec, ReadError>
    ensures { Takes (λ s. s) result reader.new.rest.now (spec_at reader.old.rest.now) }
{
    let group = group(reader, End::Space)?;
    let kind = schedule_kind_word(reader)?;
    let schedule = reader.bounded(alloc, End::Space)?;
    let rule = misfire_word(reader)?;
    let way = route_word(reader)?;
    let strategy = block_word(reader)?;
    let handler = reader.bounded(alloc, End::Space)?;
    let param = reader.bounded(alloc, End::Space)?;
    let timeout = timeout(reader, End::Space)?;
    let retries = retries(reader, End::Space)?;
    let (end, children) = children(reader, alloc)?;
    let zone = zone(reader, alloc, end)?;
    Ok(JobSpec {
        group,
        kind: schedule_kind(kind),
        schedule,
        misfire: misfire(rule),
        route: route(way),
        block: block(strategy),
        handler,
        param,
        timeout,
        retries,
        children,
        zone,
    })
}

pub(crate) fn addjob(reader: &mut Reader, alloc: Global) -> Result<ClusterEvent, ReadError>
    ensures { Takes (λ e. e) result reader.new.rest.now (reading (behind command.AddJob) reader.old.rest.now) }
{
    let spec = spec(reader, alloc)?;
    Ok(ClusterEvent::AddJob(spec))
}

pub(crate) fn setjob(reader: &mut Reader, alloc: Global) -> Result<ClusterEvent, ReadError>
    ensures { Takes (λ e. e) result reader.new.rest.now (reading (behind command.SetJob) reader.old.rest.now) }
{
    let at = moment(reader, End::Space)?;
    let job = job(reader, End::Space)?;
    let spec = spec(reader, alloc)?;
    Ok(ClusterEvent::UpdateJob(at, job, spec))
}

pub(crate) fn startjob(reader: &mut Reader) -> Result<ClusterEvent, ReadError>
    ensures { Takes (λ e. e) result reader.new.rest.now (reading (behind command.StartJob) reader.old.rest.now) }
{
    let at = moment(reader, End::Space)?;
    let job = job(reader, End::Line)?;
    Ok(ClusterEvent::StartJob(at, job))
}

pub(crate) fn stopjob(reader: &mut Reader) -> Result<ClusterEvent, ReadError>
    ensures { Takes (λ e. e) result reader.new.rest.now (reading (behind command.StopJob) reader.old.rest.now) }
{
    let job = job(reader, End::Line)?;
    Ok(ClusterEvent::StopJob(job))
}

pub(crate) fn dropjob(reader: &mut Reader) -> Result<ClusterEvent, ReadError>
    ensures { Takes (λ e. e) result reader.new.rest.now (reading (behind command.DropJob) reader.old.rest.now) }
{
    let job = job(reader, End::Line)?;
    Ok(ClusterEvent::RemoveJob(job))
}

pub(crate) fn fire(reader: &mut Reader, alloc: Global) -> Result<ClusterEvent, ReadError>
    ensures { Takes (λ e. e) result reader.new.rest.now (reading (behind command.Fire) reader.old.rest.now) }
{
    let admin = admin(reader, End::Space)?;
    let at = moment(reader, End::Space)?;
    let job = job(reader, End::Space)?;
    let param = reader.optional_text(alloc, End::Line)?;
    Ok(ClusterEvent::TriggerJob(admin, at, job, param))
}

pub(crate) fn showlog(reader: &mut Reader) -> Result<ClusterEvent, ReadError>
    ensures { Takes (λ e. e) result reader.new.rest.now (reading (behind command.ShowLog) reader.old.rest.now) }
{
    let log = log(reader, End::Line)?;
    Ok(ClusterEvent::ReadLog(log))
}
