//! The result of a log, which it gets once.
ghost use Rattle.std.specs.Prelude.{◌≡◌, IfOk, IfErr};
ghost use Rattle.settle_log.specs.Results.{is_positive, Settles, IsRefused};

use job_records::Log;
use job_values::{CallbackItem, Moment, NoMemory};
use std::alloc::Global;
use thiserror::Error;

/// Why a log takes no result.
#[derive(Clone, Copy, Debug, PartialEq, Eq, Error)]
pub enum SettleFault {
    /// The code is not positive.
    #[error("bad code")]
    BadCode,
    /// The log has a result already, with this code.
    #[error("result {code} was given before")]
    Repeat { code: i32 },
    #[error("no memory")]
    NoMemory,
}

impl From<NoMemory> for SettleFault {
    ghost use Rattle.std.specs.Prelude.{◌≡◌};
    ghost use Rattle.settle_log.specs.declared.results.SettleFault.TheVariants.{NoMemory};

    ghost from_gives = { λ _ f. f ≡ NoMemory };

    fn from(_: NoMemory) -> SettleFault {
        SettleFault::NoMemory
    }
}

/// Whether a code is positive, as the code of a result must be.
pub fn is_positive(code: i32) -> bool
    ensures { result ≡ is_positive code }
{
    1 <= code
}

/// The row of a log once a callback has given it its result. A code that is not positive is refused
/// before a second result is.
pub fn settle(alloc: Global, log: &Log, item: &CallbackItem, at: Moment) -> Result<Log, SettleFault>
    ensures settled { IfOk result (Settles at item.now log.now) }
    ensures refused { IfErr result (IsRefused item.now.code log.now) }
{
    if !is_positive(item.code) {
        return Err(SettleFault::BadCode);
    }
    if log.result_code != 0 {
        return Err(SettleFault::Repeat {
            code: log.result_code,
        });
    }
    let text = item.msg.copy(alloc)?;
    let mut row = log.copy(alloc)?;
    row.result_time = Some(at);
    row.result_code = item.code;
    row.result_text = text;
    Ok(row)
}
