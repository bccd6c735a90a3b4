//! Fixed rates: texts of a number of seconds.
ghost use Rattle.std.specs.Prelude.{◌≡◌};
ghost use Rattle.cron_schedule.specs.Rate.{rate_of};

use super::number::read_number;

/// The greatest rate, in seconds.
pub const LAST_RATE: u32 = 2_147_483_647;

/// The number of seconds that a text of one to ten decimal digits gives; None exactly where the
/// text is none, and where the number is 0 or above `LAST_RATE`.
pub fn read_rate(text: &[u8]) -> Option<u32>
    ensures { result ≡ rate_of text.now }
{
    match read_number(10, text) {
        Some(seconds) if 1 <= seconds && seconds <= LAST_RATE as u64 => Some(seconds as u32),
        _ => None,
    }
}
