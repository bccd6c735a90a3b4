//! A schedule: read from its text once, it tells the due times after a moment.
ghost use Rattle.std.specs.Prelude.{◌≡◌, ◌+◌, ◌<◌, ◌≤◌, ◌↔◌, IsTrue, IfOk};
ghost use Rattle.cron_schedule.specs.PlanDue.{IsDueAt, IsDayDueAt};
ghost use Rattle.cron_schedule.specs.Parse.{parsed, Gives};
ghost use Rattle.cron_schedule.specs.After.{time_after, after_seconds, most_steps};

use super::clock::{after_cron, is_day_in, is_due_at, no_day};
use super::cron::Cron;
use super::cron_text::read_cron;
use super::fault::ParseFault;
use super::plan::Plan;
use super::rate::read_rate;
use job_values::limits::LONGEST_SCHEDULE;
use job_values::steps::Steps;
use job_values::{Moment, NoMemory, ScheduleFault, ScheduleKind, Text};
use std::alloc::Global;
use std::marker::{Brand, Model};
use std::sync::ledger::{Blank, Ledger};
use zone_texts::Zone;

/// When a job is due.
#[derive(Drop)]
pub struct Schedule {
    plan: Plan,
}

impl Model for Schedule {
    ghost use Rattle.cron_schedule.specs.declared.plan.Plan.{Plan};

    ghost Value = { Plan };

    ghost view = { λ s. s.plan };
}

impl Schedule {
    /// The schedule that a text of this kind gives, or the text's first fault.
    pub fn parse(alloc: Global, kind: ScheduleKind, text: &Text) -> Result<Schedule, ParseFault>
        ensures { Gives result (parsed kind text.now) }
    {
        let bytes = text.as_bytes();
        if bytes.len() > LONGEST_SCHEDULE {
            return Err(ParseFault::Bad(ScheduleFault {
                field: 0,
                place: 129,
            }));
        }
        match kind {
            ScheduleKind::Never => Ok(Schedule { plan: Plan::Never }),
            ScheduleKind::FixRate => match read_rate(bytes) {
                Some(seconds) => Ok(Schedule {
                    plan: Plan::Every(seconds),
                }),
                None => Err(ParseFault::Bad(ScheduleFault { field: 0, place: 1 })),
            },
            ScheduleKind::Cron => match read_cron(alloc, bytes) {
                Ok(items) => Ok(Schedule {
                    plan: Plan::Cron(Cron::of(items)),
                }),
                Err(fault) => Err(fault),
            },
        }
    }

    /// The first due time after `t` on the clock of a zone, or None where none comes up to the
    /// last moment. At a fixed rate it is so many seconds after `t`.
    pub fn after(&self, t: Moment, zone: &Zone) -> Option<Moment>
        ensures { result ≡ time_after self.now zone.now t }
    {
        uncounted_after::<Brand>(self, t, zone, Blank::new(1))
    }

    /// The same, with a step for each day that is tested: at most 47,482 in a zone without rules,
    /// and 48,526 in one with rules.
    pub fn after_counted<L: Ledger>(
        &self,
        t: Moment,
        zone: &Zone,
        steps: &mut Steps<L>,
    ) -> Option<Moment>
        ensures time { result ≡ time_after self.now zone.now t }
        ensures cost { steps.new ≤ steps.old + most_steps zone.now.rules }
    {
        match &self.plan {
            Plan::Never => None,
            Plan::Every(seconds) => after_rate(t, *seconds),
            Plan::Cron(cron) => after_cron(cron, t, zone, steps),
        }
    }

    /// Whether the moment is due: under a cron text, whether it is a whole second whose civil time
    /// in the zone is in the seven sets: a time that a change leaves out is due at no moment, and one
    /// that it repeats at both. At a fixed rate no moment is due by itself.
    pub fn matches(&self, moment: Moment, zone: &Zone) -> bool
        ensures { IsTrue result ↔ IsDueAt self.now zone.now moment }
    {
        uncounted_matches::<Brand>(self, moment, zone, Blank::new(1))
    }

    /// Whether the civil day that many days after 1970-01-01 is in the four sets of days of a cron
    /// text: one step.
    pub fn test_day<L: Ledger>(&self, day: i32, steps: &mut Steps<L>) -> bool
        ensures due { IsTrue result ↔ IsDayDueAt self.now day }
        ensures cost { steps.new ≡ steps.old + 1 }
    {
        match &self.plan {
            Plan::Never => no_day(steps),
            Plan::Every(_) => no_day(steps),
            Plan::Cron(cron) => is_day_in(cron, day, steps),
        }
    }

    /// Whether the other schedule says the same.
    pub fn is_same(&self, other: &Schedule) -> bool
        ensures { IsTrue result ↔ (self.now ≡ other.now) }
    {
        match (&self.plan, &other.plan) {
            (Plan::Never, Plan::Never) => true,
            (Plan::Every(seconds), Plan::Every(others)) => *seconds == *others,
            (Plan::Cron(cron), Plan::Cron(other)) => cron.is_same(other),
            _ => false,
        }
    }

    /// Another schedule that says the same.
    pub fn copy(&self, alloc: Global) -> Result<Schedule, NoMemory>
        ensures { IfOk result (λ s. s ≡ self.now) }
    {
        match &self.plan {
            Plan::Never => Ok(Schedule { plan: Plan::Never }),
            Plan::Every(seconds) => Ok(Schedule {
                plan: Plan::Every(*seconds),
            }),
            Plan::Cron(cron) => {
                let cron = cron.copy(alloc)?;
                Ok(Schedule {
                    plan: Plan::Cron(cron),
                })
            }
        }
    }
}

fn uncounted_after<L: Ledger>(
    schedule: &Schedule,
    t: Moment,
    zone: &Zone,
    blank: Blank,
) -> Option<Moment>
    requires name { blank.name ≡ L.name }
    requires parts { blank.parts ≡ L.parts }
    requires some { 0 < L.parts }
    ensures { result ≡ time_after schedule.now zone.now t }
{
    let mut steps = Steps::<L>::none(blank);
    schedule.after_counted(t, zone, &mut steps)
}

fn uncounted_matches<L: Ledger>(
    schedule: &Schedule,
    moment: Moment,
    zone: &Zone,
    blank: Blank,
) -> bool
    requires name { blank.name ≡ L.name }
    requires parts { blank.parts ≡ L.parts }
    requires some { 0 < L.parts }
    ensures { IsTrue result ↔ IsDueAt schedule.now zone.now moment }
{
    let mut steps = Steps::<L>::none(blank);
    match &schedule.plan {
        Plan::Never => false,
        Plan::Every(_) => false,
        Plan::Cron(cron) => is_due_at(cron, moment, zone, &mut steps),
    }
}

/// The moment so many seconds after `t`; None at 0 seconds and above the last moment.
fn after_rate(t: Moment, seconds: u32) -> Option<Moment>
    ensures { result ≡ after_seconds seconds t }
{
    if seconds == 0 {
        None
    } else {
        Moment::new(t.get() + 1000 * seconds as u64)
    }
}
