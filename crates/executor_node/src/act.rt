//! One act of an executor's seat.
ghost use Rattle.std.specs.Prelude.{◌≡◌, [], ◌∷◌, IfOk, OnErr};
ghost use Rattle.turn_lock.specs.Gains.{Gains};
ghost use Rattle.executor_node.specs.Standing.{IsLegalList, CanReply};

use crate::machine::ExecutorMachine;
use job_events::{ExecutorEvent, ExecutorReply};
use job_values::NoMemory;
use std::sync::Wait;
use turn_lock::{Seat, Shared};

/// One act: its entry, or none for want of memory.
pub fn act<R: Wait>(
    rt: &R,
    shared: &Shared<ExecutorMachine>,
    seat: &mut Seat<ExecutorMachine>,
    event: &ExecutorEvent,
) -> Result<ExecutorReply, NoMemory>
    requires { seat.old.shared ≡ shared.now }
    ensures done { IfOk result (λ r. Gains IsLegalList seat.old ((event.now, r) ∷ []) seat.new × CanReply event.now r) }
    ensures refused { OnErr result (Gains IsLegalList seat.old [] seat.new) }
{
    shared.act(rt, seat, event)
}
