//! What a program does with its lines.
ghost use Rattle.std.specs.Prelude.{◌≡◌, ◌+◌, ◌++◌, ◌≤◌, length, List, IfOk, IfErr, OnOk};
ghost use Rattle.line_program.specs.declared.limits.TheConstants.{LAST_LINE_BYTES};
ghost use Rattle.line_program.specs.Script.{IsLineOf};
ghost use Rattle.line_program.specs.Steps.{IsUnread, Answered};

use job_values::NoMemory;
use std::alloc::Global;

/// Why a line was not read.
#[derive(Clone, Copy)]
pub enum Unread {
    /// It is none; what begins some line ends before this column, counted from 1.
    Bad(u32),
    /// Memory ran out.
    NoMemory,
}

/// What a program does with its lines: it reads each as an event, acts it, and reports at the end.
pub trait LineMachine: Drop {
    ghost use Rattle.line_program.specs.Meaning.{Play};

    type Event: Drop;

    /// What the answers of a new machine depend on.
    type Settings;

    // What its lines mean, and for which events it stands.
    ghost play: { Play Self Self.Event Self.Settings };

    /// The event of a line, which has its end with it.
    fn read(&self, alloc: Global, line: &[u8]) -> Result<Self::Event, Unread>
        requires { length line.now ≤ LAST_LINE_BYTES + 1 }
        ensures line { IfOk result (λ event. (settings : Self.Settings) → IsLineOf (play.meaning settings) event line.now) }
        ensures bad { IfErr result (λ e. (settings : Self.Settings) → IsUnread (play.meaning settings) line.now e) };

    /// Acts an event, and puts the text of its answer behind the buffer.
    fn act(&mut self, alloc: Global, event: &Self::Event, out: &mut Vec<u8>) -> Result<(), NoMemory>
        ensures { OnOk result ((settings : Self.Settings) (events : List Self.Event) → play.stands settings self.old events →
            Answered play settings self.new events event.now out.old.items out.new.items) };

    /// Puts the text of the report behind the buffer; so many lines were taken.
    fn report(&self, alloc: Global, lines: usize, out: &mut Vec<u8>) -> Result<(), NoMemory>
        ensures { OnOk result ((settings : Self.Settings) (events : List Self.Event) → play.stands settings self.now events → length events ≡ lines →
            out.new.items ≡ out.old.items ++ (play.meaning settings).report events) };
}
