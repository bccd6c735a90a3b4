//! An executor as a machine that threads share.
ghost use Rattle.std.specs.Prelude.{◌≡◌, [], List};
ghost use Rattle.job_values.specs.declared.run.CallbackItem.{CallbackItem};
ghost use Rattle.executor_history.specs.History.{Opening};
ghost use Rattle.executor_core.specs.Parts.{StandsFor};
ghost use Rattle.executor_node.specs.Standing.{opening_of, Stands};

use executor_core::Executor;
use job_events::{ExecutorEvent, ExecutorReply};
use job_values::{CallbackItem, HandlerName, NoMemory, Seq};
use std::marker::Model;
use turn_lock::Machine;

/// The handlers and the kept items that an executor began with. No value of it is made.
pub struct ExecutorOpening {
    pub handlers: Seq<HandlerName>,
    pub kept: Seq<CallbackItem>,
}

/// An executor, whose entries are its events with their replies.
#[derive(Drop)]
pub struct ExecutorMachine {
    executor: Executor,
}

impl Model for ExecutorMachine {
    ghost use Rattle.executor_history.specs.Past.{Parts};

    ghost Value = { Parts };

    ghost view = { λ m. m.executor.parts };
}

impl ExecutorMachine {
    /// The machine of an executor. It takes no memory.
    pub fn of(executor: Executor) -> ExecutorMachine
        ensures { result ≡ executor.parts }
    {
        ExecutorMachine { executor }
    }

    /// The executor.
    pub fn executor(&self) -> &Executor
        ensures { result.now.parts ≡ self.now }
    {
        &self.executor
    }
}

impl Machine for ExecutorMachine {
    ghost use Rattle.std.specs.Prelude.{true};
    ghost use Rattle.executor_node.specs.Standing.{IsLegalList, Stands, opening_of};

    type Event = ExecutorEvent;

    type Reply = ExecutorReply;

    type Refused = NoMemory;

    type Opening = ExecutorOpening;

    ghost opening = { opening_of };

    ghost stands = { Stands };

    ghost legal = { IsLegalList };

    ghost refuses = { λ o log e x. Unit {0} };

    ghost is_want = { λ _. true };

    fn step(&mut self, event: &ExecutorEvent) -> Result<ExecutorReply, NoMemory> {
        self.executor.step(event)
    }

    fn is_memory(_refused: &NoMemory) -> bool {
        true
    }

    ghost stands_legally = { λ o log m h. h.1 };
}
