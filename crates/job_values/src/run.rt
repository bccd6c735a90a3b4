//! Runs and their results, as they go between admins and executors.
ghost use Rattle.std.specs.Prelude.{◌≡◌, IfOk};

use super::bounded::{BoundedText, HandlerName, ResultText};
use super::limits::{LONGEST_RUN_PARAM, LONGEST_RUN_WORD};
use super::no_memory::NoMemory;
use super::numbers::{JobId, LogId, LogMoment, ShardNo, Timeout};
use std::alloc::Global;

/// The parameter of a run, as a message may give it.
pub type RunParam = BoundedText<0, LONGEST_RUN_PARAM>;

/// The block rule or the glue type of a run, as a message may give it.
pub type RunWord = BoundedText<0, LONGEST_RUN_WORD>;

/// A run that an executor is asked for.
#[derive(Drop)]
pub struct Run {
    pub job: JobId,
    pub log: LogId,
    pub handler: HandlerName,
    pub param: RunParam,
    /// A text that is no block rule's is kept as serial.
    pub block: RunWord,
    /// Only `BEAN` is taken.
    pub glue: RunWord,
    pub timeout: Timeout,
    pub log_moment: LogMoment,
    pub index: ShardNo,
    pub total: ShardNo,
}

/// The result of a run.
#[derive(Drop)]
pub struct CallbackItem {
    pub log: LogId,
    pub log_moment: LogMoment,
    pub code: i32,
    pub msg: ResultText,
}

impl CallbackItem {
    /// Another item that says the same.
    pub fn copy(&self, alloc: Global) -> Result<CallbackItem, NoMemory>
        ensures { IfOk result (λ item. item ≡ self.now) }
    {
        Ok(CallbackItem {
            log: self.log,
            log_moment: self.log_moment,
            code: self.code,
            msg: self.msg.copy(alloc)?,
        })
    }
}
