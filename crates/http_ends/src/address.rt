//! Addresses: `http://`, a host, `:`, a port, and a path or none.
ghost use Rattle.std.specs.Prelude.{◌≡◌, ◌≢◌, ℕ, ◌+◌, ◌-◌, ◌≤◌, ◌<◌, ◌==◌, ◌⊎◌, ◌↔◌, [], ◌∷◌, ◌++◌, length, slice_index, codes, decimal, IsTrue, IfSome, IfNone, MatchBool, MatchOption};
ghost use Rattle.std.specs.List.{list_all};
ghost use Rattle.std.specs.Prelude.{List};
ghost use Rattle.http_ends.specs.Addresses.{LacksByte, is_host_byte, is_path_byte, Address, IsAddress, NoAddress, IsDivided, address_of};

use itoa::Buffer;

/// The parts of an address. The tail is what follows the slash behind the port, empty where there is none.
#[derive(Clone, Copy)]
pub(crate) struct Parts<'a> {
    pub(crate) host: &'a str,
    pub(crate) port: u16,
    pub(crate) tail: &'a str,
}

/// Whether each byte is a letter, a digit, `.` or `-`.
fn is_host(text: &str) -> bool
    ensures { result ≡ list_all is_host_byte text.now }
{
    text.as_bytes()
        .iter()
        .all(|b| b.is_ascii_alphanumeric() || *b == b'.' || *b == b'-')
}

/// Whether each byte is a graphic character of ASCII.
fn is_graphic(text: &str) -> bool
    ensures { result ≡ list_all is_path_byte text.now }
{
    text.as_bytes().iter().all(|b| 0x21 <= *b && *b <= 0x7e)
}

/// The port that decimal digits without a leading zero write, if it is from 1 to 65,535.
fn port_of(digits: &str) -> Option<u16>
    ensures found { IfSome result (λ n. (1 ≤ n) × (digits.now ≡ decimal n)) }
    ensures none { IfNone result ((n : ℕ) → 1 ≤ n → n ≤ 65535 → digits.now ≡ decimal n → ⊥) }
{
    match digits.parse::<u16>() {
        Ok(port) => {
            let mut buffer = Buffer::new();
            if port > 0 && buffer.format(port) == digits {
                Some(port)
            } else {
                None
            }
        }
        Err(_) => None,
    }
}

/// The text behind `http://`.
fn behind_scheme(text: &str) -> Option<&str>
    ensures found { IfSome result (λ rest. text.now ≡ codes "http://" ++ rest.now) }
    ensures none { IfNone result ((rest : List ℕ) → text.now ≡ codes "http://" ++ rest → ⊥) }
{
    text.strip_prefix("http://")
}

/// The text before the first such character, which is of ASCII, and the text behind it.
fn around(text: &str, mark: char) -> Option<(&str, &str)>
    requires { mark < 128 }
    ensures found { IfSome result (λ p. text.now ≡ p.0.now ++ mark ∷ p.1.now) }
    ensures first { IfSome result (λ p. LacksByte mark p.0.now) }
    ensures none { IfNone result (LacksByte mark text.now) }
{
    text.split_once(mark)
}

/// The host, the digits of the port, and what follows the slash behind them, if the text is so divided.
fn divided(text: &str) -> Option<(&str, &str, &str)>
    ensures found { IfSome result (λ p. IsDivided text.now p.0.now p.1.now p.2.now) }
    ensures none { IfNone result ((host rest : List ℕ) → text.now ≡ codes "http://" ++ (host ++ 58 ∷ rest) → ⊥) }
{
    let rest = behind_scheme(text)?;
    let (host, rest) = around(rest, ':')?;
    match around(rest, '/') {
        Some((digits, tail)) => Some((host, digits, tail)),
        None => Some((host, rest, "")),
    }
}

/// The parts of an address.
pub(crate) fn read_address(text: &str) -> Option<Parts<'_>>
    ensures found { IfSome result (λ p. IsAddress text.now (address_of p.host.now p.port p.tail.now)) }
    ensures none { IfNone result (NoAddress text.now) }
{
    let (host, digits, tail) = divided(text)?;
    let port = port_of(digits)?;
    if host.is_empty() || !is_host(host) || !is_graphic(tail) {
        return None;
    }
    Some(Parts { host, port, tail })
}

/// Whether the text is an address.
pub fn is_address(text: &str) -> bool
    ensures { MatchBool result ((address : Address) × IsAddress text.now address) (NoAddress text.now) }
{
    read_address(text).is_some()
}
