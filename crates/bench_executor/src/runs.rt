//! The runs that a workload asks for, and the order of their log ids.

use job_values::{
    BoundedText, HandlerName, JobId, LogId, LogMoment, NoMemory, Run, Seq, ShardNo, Text, Timeout,
};
use std::alloc::Global;

/// The order in which log ids come.
#[derive(Clone, Copy)]
pub enum Order {
    Rising,
    Falling,
    /// Each anywhere among the earlier ones.
    Scattered,
}

/// The name of an order.
pub fn order_name(order: Order) -> &'static str {
    match order {
        Order::Rising => "rising",
        Order::Falling => "falling",
        Order::Scattered => "scattered",
    }
}

/// The log of the run at a place, another one for each place.
pub fn log_at(order: Order, place: u32) -> Option<LogId> {
    let below = match order {
        Order::Rising => place,
        Order::Falling => u32::MAX - place,
        Order::Scattered => place.wrapping_mul(2_654_435_761),
    };
    LogId::new(u64::from(below) + 1)
}

/// The job of the run at a place: one of 10,000.
pub fn job_at(place: u32) -> Option<JobId> {
    JobId::new(place % 10_000 + 1)
}

/// A short text.
pub fn text<const MOST: usize>(
    alloc: Global,
    text: &str,
) -> Result<BoundedText<0, MOST>, NoMemory> {
    BoundedText::new(Text::copied(alloc, text)?).ok_or(NoMemory)
}

/// The name of the one handler.
pub fn names(alloc: Global) -> Result<Seq<HandlerName>, NoMemory> {
    let mut names = Seq::new(alloc);
    names.push(text(alloc, "demo")?)?;
    Ok(names)
}

/// What all runs have in common.
#[derive(Clone, Copy)]
pub struct Common {
    moment: LogMoment,
    timeout: Timeout,
    index: ShardNo,
    total: ShardNo,
}

impl Common {
    /// A log moment, no timeout, and the first of one part.
    pub fn new() -> Option<Common> {
        Some(Common {
            moment: LogMoment::new(100_000)?,
            timeout: Timeout::new(0)?,
            index: ShardNo::new(0)?,
            total: ShardNo::new(1)?,
        })
    }

    /// A run of a job.
    pub fn run(&self, alloc: Global, job: JobId, log: LogId) -> Result<Run, NoMemory> {
        Ok(Run {
            job,
            log,
            handler: text(alloc, "demo")?,
            param: text(alloc, "")?,
            block: text(alloc, "SERIAL_EXECUTION")?,
            glue: text(alloc, "BEAN")?,
            timeout: self.timeout,
            log_moment: self.moment,
            index: self.index,
            total: self.total,
        })
    }
}
