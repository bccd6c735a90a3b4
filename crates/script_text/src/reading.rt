//! Lines, each read by its command.
ghost use Rattle.std.specs.Prelude.{◌≡◌, ◌+◌, ◌-◌, ◌^◌, ◌≤◌, min, IfOk, IfErr};
ghost use Rattle.job_events.specs.declared.cluster.ClusterEvent.{ClusterEvent};
ghost use Rattle.line_grammar.specs.Reading.{Takes};
ghost use Rattle.script_text.specs.Lines.{line_at, IsLine};
ghost use Rattle.script_text.specs.Faults.{IsFaultOf, IsReadAs};

use crate::commands::{Command, command_of};
use crate::faults::{LineError, LineFault};
use crate::groups::{addgroup, setgroup};
use crate::jobs::{addjob, dropjob, fire, setjob, showlog, startjob, stopjob};
use crate::nodes::{ask, scan, start, step, stop, turn};
use crate::registrations::{reg, sweep, unreg};
use crate::results::{back, clean, lost, monitor};
use crate::sendings::{sent, take};
use job_events::ClusterEvent;
use line_grammar::laws::law_grammar;
use line_grammar::{ReadError, Reader};
use std::alloc::Global;

/// Any line.
fn any(reader: &mut Reader, alloc: Global) -> Result<ClusterEvent, ReadError>
    ensures { Takes (λ e. e) result reader.new.rest.now (line_at reader.old.rest.now) }
{
    match command_of(reader)? {
        Command::Start => start(reader),
        Command::Stop => stop(reader),
        Command::Ask => ask(reader),
        Command::AddGroup => addgroup(reader, alloc),
        Command::SetGroup => setgroup(reader, alloc),
        Command::AddJob => addjob(reader, alloc),
        Command::SetJob => setjob(reader, alloc),
        Command::StartJob => startjob(reader),
        Command::StopJob => stopjob(reader),
        Command::DropJob => dropjob(reader),
        Command::Fire => fire(reader, alloc),
        Command::Scan => scan(reader),
        Command::Step => step(reader),
        Command::Turn => turn(reader),
        Command::Take => take(reader),
        Command::Sent => sent(reader, alloc),
        Command::Back => back(reader, alloc),
        Command::Register => reg(reader, alloc),
        Command::Unregister => unreg(reader, alloc),
        Command::Sweep => sweep(reader),
        Command::Monitor => monitor(reader),
        Command::Lost => lost(reader),
        Command::Clean => clean(reader),
        Command::ShowLog => showlog(reader),
        Command::Reopen => Ok(ClusterEvent::Reopen),
    }
}

/// The column behind so many bytes. One above the greatest number of its type stays there.
fn column_behind(bytes: usize) -> u32
    ensures { result ≡ min (bytes + 1) (2 ^ 32 - 1) }
{
    if bytes < u32::MAX as usize {
        bytes as u32 + 1
    } else {
        u32::MAX
    }
}

/// The fault where so many bytes are left.
pub(crate) fn fault(len: usize, left: usize) -> LineError
    requires { left ≤ len }
    ensures { result ≡ LineError.Bad (record { column = min (len - left + 1) (2 ^ 32 - 1) }) }
{
    LineError::Bad(LineFault {
        column: column_behind(len - left),
    })
}

/// The event whose line the bytes are, its LF with them. A column above 2^32 - 1 is told as that.
pub fn read_line(alloc: Global, bytes: &[u8]) -> Result<ClusterEvent, LineError>
    // What is read is the event of the line.
    ensures line { IfOk result (λ event. IsLine event bytes.now) }
    // What is a line is read, unless memory runs out.
    ensures only { (event : ClusterEvent) → IsLine event bytes.now → IsReadAs event result }
    // Bad comes exactly where no event has these bytes, with the exact column.
    ensures fault { IfErr result (IsFaultOf bytes.now) }
{
    law_grammar::<ClusterEvent>();
    let mut reader = Reader { rest: bytes };
    match any(&mut reader, alloc) {
        Ok(event) => {
            let left = reader.rest.len();
            if left == 0 {
                Ok(event)
            } else {
                Err(fault(bytes.len(), left))
            }
        }
        Err(error) => match error {
            ReadError::Memory => Err(LineError::NoMemory),
            ReadError::Bad(left) => Err(fault(bytes.len(), left)),
        },
    }
}
