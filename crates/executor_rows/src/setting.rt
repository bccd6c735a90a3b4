//! Where the rows are played: an executor `demo` with two admins, at a moment.

ghost use Rattle.std.specs.Prelude.{◌≡◌};

use executor_node::{ExecutorMachine, ExecutorSettings};
use job_values::{Moment, NoMemory, Seq, Text};
use std::alloc::Global;
use std::sync::Wait;
use turn_lock::{Seat, Shared};

/// The hosts of the admins.
pub const ADMINS: [&str; 2] = ["a1:9000", "a2:9001"];

/// The settings of an executor with this token.
pub fn settings(alloc: Global, token: &str) -> Result<ExecutorSettings, NoMemory> {
    let mut admins = Seq::new(alloc);
    for host in ADMINS {
        admins.push(Text::of(format!(in alloc; "http://{host}/")?))?;
    }
    Ok(ExecutorSettings {
        app: Text::copied(alloc, "demo")?,
        address: Text::copied(alloc, "http://e1:9999/")?,
        admins,
        base: Text::copied(alloc, "/xxl-job-admin/api/")?,
        token: Text::copied(alloc, token)?,
    })
}

/// The moment at which a row begins.
pub fn beginning() -> Moment {
    match Moment::new(100_000) {
        Some(at) => at,
        None => unreachable!(),
    }
}

/// Ends an executor through its only seat: how many entries it has had, and how many logs it holds.
pub fn close<R: Wait>(
    rt: &R,
    shared: &Shared<ExecutorMachine>,
    seat: Seat<ExecutorMachine>,
) -> (u64, u64)
    requires here { seat.shared ≡ shared.now }
    requires all { seat.parts ≡ 9223372036854775808 }
{
    let (machine, entries) = shared.close(rt, seat);
    (entries, machine.executor().held())
}

/// The number that decimal digits say, up to the greatest.
pub fn number(digits: &str) -> u64 {
    digits.bytes().fold(0, |sum: u64, digit| {
        sum.saturating_mul(10)
            .saturating_add(digit.saturating_sub(b'0') as u64)
    })
}
