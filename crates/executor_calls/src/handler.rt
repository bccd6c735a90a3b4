//! What runs a job: handlers, which are told a run and give lines and a result.
ghost use Rattle.std.specs.Prelude.{◌≡◌, [], ◌∷◌, ◌++◌, OnOk, OnErr};

use job_values::{HandlerName, JobId, LogId, NoMemory, RunParam, ShardNo, Text};
use std::alloc::Global;
use std::marker::Model;

/// What a handler is told of a run.
#[derive(Drop)]
pub struct RunInput {
    pub job: JobId,
    pub log: LogId,
    pub param: RunParam,
    /// The number of the shard, from 0.
    pub index: ShardNo,
    /// How many shards there are.
    pub total: ShardNo,
}

/// What a handler gives in the end.
#[derive(Drop)]
pub struct HandlerResult {
    /// Whether it succeeded.
    pub ok: bool,
    /// A text for people; what passes 15,000 bytes is cut.
    pub msg: Text,
}

/// The lines that a handler writes, which are stored when it returns.
#[derive(Drop)]
pub struct RunOutput {
    alloc: Global,
    lines: Vec<Text>,
}

impl Model for RunOutput {
    ghost use Rattle.std.specs.Prelude.{List, ℕ};
    ghost use Rattle.std.specs.Coded.{coded_list, coded_ℕ};

    ghost Value = { List (List ℕ) };

    ghost coded = { coded_list (coded_list coded_ℕ) };

    ghost view = { λ o. o.lines.items };
}

impl RunOutput {
    /// No lines yet. It takes no memory.
    pub fn new(alloc: Global) -> RunOutput
        ensures { result ≡ [] }
    {
        RunOutput {
            alloc,
            lines: Vec::new(alloc),
        }
    }

    /// Writes a line; what passes 1,024 bytes is cut where it is stored.
    pub fn line(&mut self, text: &Text) -> Result<(), NoMemory>
        ensures written { OnOk result (self.new ≡ self.old ++ text.now ∷ []) }
        ensures left { OnErr result (self.new ≡ self.old) }
    {
        let own = text.copy(self.alloc)?;
        match self.lines.push(own) {
            Ok(()) => Ok(()),
            Err(_) => Err(NoMemory),
        }
    }

    /// The lines so far.
    pub fn lines(&self) -> &[Text]
        ensures { result.now ≡ self.now }
    {
        self.lines.as_slice()
    }
}

/// The handlers of an executor, by their names.
pub trait Handlers: Drop {
    ghost use Rattle.std.specs.Prelude.{List, ℕ};
    ghost use Rattle.executor_calls.specs.declared.handler.RunInput.{RunInput};
    ghost use Rattle.executor_calls.specs.declared.handler.HandlerResult.{HandlerResult};

    // Which lines and which result the handler of a name may give for an input.
    ghost gives: { Self → List ℕ → RunInput → List (List ℕ) → HandlerResult → Type 0 };

    /// Runs the handler of this name.
    fn run(&self, name: &HandlerName, input: &RunInput, out: &mut RunOutput) -> HandlerResult
        requires { out.old ≡ [] }
        ensures { gives self.now name.now input.now out.new result };
}
