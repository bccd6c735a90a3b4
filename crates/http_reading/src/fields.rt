//! The fields of a head, as spans of its bytes.
ghost use Rattle.std.specs.Prelude.{◌≡◌, ℕ, ◌≤◌, List, [], ◌∷◌, ◌++◌, All, length, map, codes};
ghost use Rattle.std.specs.Str.{str_eq_ignore_ascii_case};
ghost use Rattle.httparse.specs.Spans.{IsWithin, IsHeaderWithin, span_bytes, header_bytes};
ghost use Rattle.std.specs.List.{list_any};
ghost use Rattle.http_reading.specs.Plans.{values_of, value_if, is_close, has_close};
ghost use Rattle.http_reading.specs.Found.{IsFound, IsFirst};

use httparse::spans::{HeaderSpan, Span};

/// The values of the fields with a name.
#[derive(Clone, Copy)]
pub(crate) enum Found {
    None,
    One(Span),
    /// The first of several.
    More(Span),
}

impl Found {
    /// The first value.
    pub(crate) fn first(self) -> Option<Span>
        ensures { (bytes : List ℕ) (values : List (List ℕ)) → IsFound bytes self values → IsFirst bytes values result }
    {
        match self {
            Found::None => None,
            Found::One(value) => Some(value),
            Found::More(value) => Some(value),
        }
    }

    /// The same with the value of one more field, if that has the name.
    fn with(self, bytes: &[u8], header: &HeaderSpan, name: &[u8]) -> Found
        requires { IsHeaderWithin (length bytes.now) header.now }
        ensures { (values : List (List ℕ)) → IsFound bytes.now self values
            → IsFound bytes.now result (values ++ value_if name.now (header_bytes bytes.now header.now)) }
    {
        if same_text(header.name.of(bytes), name) {
            self.and(header.value)
        } else {
            self
        }
    }

    /// The same with one more value behind the others.
    fn and(self, value: Span) -> Found
        ensures { (bytes : List ℕ) (values : List (List ℕ)) → IsWithin (length bytes) value → IsFound bytes self values
            → IsFound bytes result (values ++ span_bytes bytes value ∷ []) }
    {
        match self {
            Found::None => Found::One(value),
            Found::One(first) => Found::More(first),
            Found::More(first) => Found::More(first),
        }
    }
}

/// Whether two texts are the same without regard to ASCII case.
pub(crate) fn same_text(a: &[u8], b: &[u8]) -> bool
    ensures { result ≡ str_eq_ignore_ascii_case a.now b.now }
{
    a.eq_ignore_ascii_case(b)
}

/// The values of the fields with a name.
pub(crate) fn values_of(bytes: &[u8], headers: &[HeaderSpan], name: &[u8]) -> Found
    requires { All (IsHeaderWithin (length bytes.now)) headers.now }
    ensures { IsFound bytes.now result (values_of name.now (map (header_bytes bytes.now) headers.now)) }
{
    let mut found = Found::None;
    for header in headers {
        found = found.with(bytes, header, name);
    }
    found
}

/// Whether this field says that the link is to be closed.
fn says_close(bytes: &[u8], header: &HeaderSpan) -> bool
    requires { IsHeaderWithin (length bytes.now) header.now }
    ensures { result ≡ list_any is_close (value_if (codes "connection") (header_bytes bytes.now header.now)) }
{
    same_text(header.name.of(bytes), b"connection") && same_text(header.value.of(bytes), b"close")
}

/// Whether a field says that the link is to be closed.
pub(crate) fn has_close(bytes: &[u8], headers: &[HeaderSpan]) -> bool
    requires { All (IsHeaderWithin (length bytes.now)) headers.now }
    ensures { result ≡ has_close (map (header_bytes bytes.now) headers.now) }
{
    for header in headers {
        if says_close(bytes, header) {
            return true;
        }
    }
    false
}
