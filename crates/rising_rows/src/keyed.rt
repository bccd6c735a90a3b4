//! What has a key.
ghost use Rattle.std.specs.Prelude.{◌≡◌, ℕ};

use job_values::LogId;

/// A row that has a key, which is a number.
pub trait Keyed {
    ghost key_of: { Self → ℕ };

    /// Its key.
    fn key(&self) -> u64
        ensures { result ≡ key_of self.now };
}

/// A log id is its own key.
impl Keyed for LogId {
    ghost key_of = { λ id. id };

    fn key(&self) -> u64 {
        self.get()
    }
}
