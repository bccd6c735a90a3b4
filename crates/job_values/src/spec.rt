//! What a user says of a job.
ghost use Rattle.std.specs.Prelude.{◌≡◌, IfOk};

use super::bounded::{Children, HandlerName, ParamText, ScheduleText, ZoneText};
use super::no_memory::NoMemory;
use super::numbers::{GroupId, Retries, Timeout};
use super::words::{Block, Misfire, Route, ScheduleKind};
use std::alloc::Global;

/// What a user says of a job.
#[derive(Drop)]
pub struct JobSpec {
    pub group: GroupId,
    pub kind: ScheduleKind,
    /// The cron text, or the number of seconds between due times, or any text where there is none.
    pub schedule: ScheduleText,
    pub misfire: Misfire,
    pub route: Route,
    pub block: Block,
    pub handler: HandlerName,
    pub param: ParamText,
    pub timeout: Timeout,
    pub retries: Retries,
    /// The jobs that fire when a log of this one is settled with success, in order.
    pub children: Children,
    /// The zone whose clock the cron text reads; empty for the clock of the settings.
    pub zone: ZoneText,
}

impl JobSpec {
    /// Another spec that says the same.
    pub fn copy(&self, alloc: Global) -> Result<JobSpec, NoMemory>
        ensures { IfOk result (λ s. s ≡ self.now) }
    {
        let schedule = self.schedule.copy(alloc)?;
        let handler = self.handler.copy(alloc)?;
        let param = self.param.copy(alloc)?;
        let children = self.children.copy(alloc)?;
        let zone = self.zone.copy(alloc)?;
        Ok(JobSpec {
            group: self.group,
            kind: self.kind,
            schedule,
            misfire: self.misfire,
            route: self.route,
            block: self.block,
            handler,
            param,
            timeout: self.timeout,
            retries: self.retries,
            children,
            zone,
        })
    }
}
