//! The cluster that a script is played on, line by line.
ghost use Rattle.std.specs.Prelude.{◌≡◌, [], ◌++◌, IfOk, OnOk};
ghost use Rattle.replay_program.specs.Script.{script_play};

use crate::laws::law_lines_end;
use cluster_core::Cluster;
use cluster_history::Settings;
use job_events::{ClusterEvent, Report};
use job_values::{NoMemory, Seq};
use line_program::{LineMachine, Unread};
use script_text::{LineError, read_line, write_reply, write_report};
use std::alloc::Global;

/// The cluster.
#[derive(Drop)]
pub(crate) struct Machine {
    pub(crate) cluster: Cluster,
}

impl Machine {
    /// A cluster that has played nothing.
    pub(crate) fn new(alloc: Global, settings: Settings) -> Result<Machine, NoMemory>
        ensures { IfOk result (λ machine. script_play.stands settings machine []) }
    {
        Ok(Machine {
            cluster: Cluster::new(alloc, settings)?,
        })
    }
}

impl LineMachine for Machine {
    ghost use Rattle.replay_program.specs.Script.{script_play};

    type Event = ClusterEvent;

    type Settings = Settings;

    ghost play = { script_play };

    fn read(&self, alloc: Global, line: &[u8]) -> Result<ClusterEvent, Unread> {
        law_lines_end();
        match read_line(alloc, line) {
            Ok(event) => Ok(event),
            Err(LineError::Bad(fault)) => Err(Unread::Bad(fault.column)),
            Err(LineError::NoMemory) => Err(Unread::NoMemory),
        }
    }

    fn act(
        &mut self,
        alloc: Global,
        event: &ClusterEvent,
        out: &mut Vec<u8>,
    ) -> Result<(), NoMemory> {
        let reply = self.cluster.step(event)?;
        let text = write_reply(alloc, &reply)?;
        push_text(out, &text)?;
        Ok(())
    }

    fn report(&self, alloc: Global, lines: usize, out: &mut Vec<u8>) -> Result<(), NoMemory> {
        let counts = self.cluster.counts();
        let report = Report {
            entries: lines as u64,
            ..counts
        };
        let text = write_report(alloc, &report)?;
        push_text(out, &text)?;
        Ok(())
    }
}

/// Puts a text behind the buffer.
fn push_text(out: &mut Vec<u8>, text: &Seq<u8>) -> Result<(), NoMemory>
    ensures { OnOk result (out.new.items ≡ out.old.items ++ text.now) }
{
    out.extend_from_slice(text.as_slice())?;
    Ok(())
}
