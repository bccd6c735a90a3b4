//! What an executor is told when it starts.

use job_values::{Seq, Text};

/// The name and the address of an executor, the addresses of its admins, the base of their paths, and the token.
#[derive(Drop)]
pub struct ExecutorSettings {
    pub app: Text,
    pub address: Text,
    pub admins: Seq<Text>,
    pub base: Text,
    pub token: Text,
}
