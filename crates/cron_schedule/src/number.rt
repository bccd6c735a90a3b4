//! Numbers in texts: decimal digits without sign.
ghost use Rattle.std.specs.Prelude.{◌≡◌, ◌≤◌};
ghost use Rattle.cron_schedule.specs.Number.{number_of};

/// The number that one to `longest` decimal digits spell; None where the text is none of these.
pub fn read_number(longest: usize, text: &[u8]) -> Option<u64>
    requires { longest ≤ 10 }
    ensures { result ≡ number_of longest text.now }
{
    if text.is_empty() || text.len() > longest {
        return None;
    }
    let mut value: u64 = 0;
    for byte in text {
        if !byte.is_ascii_digit() {
            return None;
        }
        value = value * 10 + (*byte - b'0') as u64;
    }
    Some(value)
}
