//! The plain types that every crate of the scheduler speaks of: numbers with their bounds, texts,
//! lists, the enums of words, limits, and the records of jobs, runs and callbacks.
#![tactic(auto)]

pub mod bounded;
pub mod choice;
pub mod fault;
pub mod laws;
pub mod limits;
pub mod no_memory;
pub mod numbers;
pub mod run;
pub mod seq;
pub mod spec;
pub mod steps;
#[cfg(test)]
mod tests;
pub mod text;
pub mod words;

pub use bounded::{
    Address, Addresses, AppName, BoundedSeq, BoundedText, Children, HandlerName, HandlerNames,
    LogLine, ParamText, RegistryText, ResultText, ScheduleText, ZoneText, copy_addresses,
};
pub use choice::Choice;
pub use fault::{ScheduleFault, ZoneFault};
pub use no_memory::NoMemory;
pub use numbers::{
    AdminNo, Edition, ExecutorNo, GroupId, JobId, LineNo, LogId, LogMoment, Moment, Offset,
    RequestNo, Retries, RunnerNo, ShardNo, Timeout,
};
pub use run::{CallbackItem, Run, RunParam, RunWord};
pub use seq::Seq;
pub use spec::JobSpec;
pub use steps::Steps;
pub use text::Text;
pub use words::{
    Block, Case, GroupKind, Misfire, PoolAnswer, PoolKind, Route, ScheduleKind, TriggerKind,
};
