//! The access token of a request.
ghost use Rattle.std.specs.Prelude.{◌≡◌, ◌⊎◌, ◌↔◌, [], IsTrue, IsSomeAnd};

/// Whether a request with this token is taken: no token is configured, or it is that one.
pub fn token_ok(configured: &[u8], given: Option<&[u8]>) -> bool
    ensures { IsTrue result ↔ ((configured.now ≡ [])
        ⊎ IsSomeAnd given.entry (λ token. token.now ≡ configured.now)) }
{
    if configured.is_empty() {
        return true;
    }
    match given {
        Some(token) => token == configured,
        None => false,
    }
}
