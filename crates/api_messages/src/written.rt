//! A JSON value as its compact text.
ghost use Rattle.std.specs.Prelude.{◌≡◌, ◌≤◌, false, Some, IfOk};
ghost use Rattle.std.specs.Str.{IsUtf8};
ghost use Rattle.serde_json.specs.Data.{depth};
ghost use Rattle.serde_json.specs.Read.{read, max_depth};
ghost use Rattle.serde_json.specs.View.{view};
ghost use Rattle.serde_json.specs.Written.{has_float, compact_text};

use job_values::{NoMemory, Seq};
use serde_json::Value;
use std::alloc::Global;

pub(crate) fn text_of(alloc: Global, value: &Value) -> Result<Seq<u8>, NoMemory>
    ensures text { IfOk result (λ b. has_float (view value.now) ≡ false
        → b ≡ compact_text (view value.now)) }
    ensures utf8 { IfOk result (λ b. IsUtf8 b) }
    ensures reads { IfOk result (λ b. depth (view value.now) ≤ max_depth
        → read b ≡ Some (view value.now)) }
{
    match value.to_vec(alloc) {
        Ok(bytes) => Ok(Seq::of(bytes)),
        Err(_) => Err(NoMemory),
    }
}
