//! The table of scans: misfire, late or early, and what follows.
ghost use Rattle.std.specs.Prelude.{◌≡◌};
ghost use Rattle.misfire_rules.specs.Decide.{decided, late_decision};

use cron_schedule::Schedule;
use job_values::limits::MISFIRE_WINDOW;
use job_values::{Case, Misfire, Moment};
use zone_texts::Zone;

/// What a look at a due time finds, and what it does.
#[derive(Clone, Copy, PartialEq, Eq)]
pub struct Decision {
    pub case: Case,
    /// Whether the job fires at once.
    pub fire_now: bool,
    /// The due time for which a ticket is put in the ring.
    pub put: Option<Moment>,
    /// The job's next due time; where there is none the job stops.
    pub next: Option<Moment>,
}

/// What a scan at `now` does with a job whose next due time is `next`.
pub fn decide(
    next: Moment,
    schedule: &Schedule,
    misfire: Misfire,
    zone: &Zone,
    now: Moment,
) -> Decision
    ensures { result ≡ decided next schedule.now misfire zone.now now }
{
    let due = next.get();
    let at = now.get();
    if due + MISFIRE_WINDOW < at {
        Decision {
            case: Case::Misfire,
            fire_now: matches!(misfire, Misfire::FireOnceNow),
            put: None,
            next: schedule.after(now, zone),
        }
    } else if due < at {
        decide_late(schedule, zone, now)
    } else {
        Decision {
            case: Case::Early,
            fire_now: false,
            put: Some(next),
            next: schedule.after(next, zone),
        }
    }
}

/// The late case: the job fires, and a ticket is put for its next time where that is near.
fn decide_late(schedule: &Schedule, zone: &Zone, now: Moment) -> Decision
    ensures { result ≡ late_decision schedule.now zone.now now }
{
    match schedule.after(now, zone) {
        Some(near) if near.get() < now.get() + MISFIRE_WINDOW => Decision {
            case: Case::Late,
            fire_now: true,
            put: Some(near),
            next: schedule.after(near, zone),
        },
        next => Decision {
            case: Case::Late,
            fire_now: true,
            put: None,
            next,
        },
    }
}

#[cfg(test)]
mod tests {
    use super::*;
    use cron_schedule::ParseFault;
    use job_values::{Offset, ScheduleKind, Text};
    use std::alloc::Global;

    fn rate(alloc: Global, text: &str) -> Result<Schedule, ParseFault> {
        Schedule::parse(alloc, ScheduleKind::FixRate, &Text::copied(alloc, text)?)
    }

    /// A rate of three seconds, looked at two seconds late: it fires, and its next time gets a ticket.
    #[test]
    fn late_with_a_near_next(rt: HostRuntime) -> Result<(), ParseFault> {
        let schedule = rate(rt.alloc(), "3")?;
        let due = Moment::new(125_000).expect(&rt, "a moment");
        let now = Moment::new(127_000).expect(&rt, "a moment");
        let zone = Zone {
            standard: Offset::new(0).expect(&rt, "an offset"),
            rules: None,
        };
        let got = decide(due, &schedule, Misfire::FireOnceNow, &zone, now);
        assert_eq!(rt; got.case, Case::Late);
        assert_eq!(rt; number(got.put), 130_000);
        assert_eq!(rt; number(got.next), 133_000);
        Ok(())
    }

    fn number(moment: Option<Moment>) -> u64 {
        match moment {
            Some(moment) => moment.get(),
            None => 0,
        }
    }
}
