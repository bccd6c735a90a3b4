//! Results as a spool text.
ghost use Rattle.std.specs.Prelude.{◌≡◌, [], ◌∷◌, ◌++◌, Ok, OnOk, IfOk};
ghost use Rattle.callback_spool.specs.Different.{HaveDifferentLogs};
ghost use Rattle.spool_text.specs.Spool.{item_line, spool_text, spool_at};

use api_messages::write_item;
use job_values::{CallbackItem, NoMemory, Seq};
use std::alloc::Global;

/// Puts a line behind the others, and LF.
fn append(bytes: &mut Vec<u8>, line: &[u8]) -> Result<(), NoMemory>
    ensures { OnOk result (bytes.new.items ≡ (bytes.old.items ++ line.now) ++ 10 ∷ []) }
{
    bytes.extend_from_slice(line).map_err(|_| NoMemory)?;
    bytes.push(b'\n').map_err(|_| NoMemory)?;
    Ok(())
}

/// The text of these items: the JSON of each, and LF.
pub fn write_spool(alloc: Global, items: &Seq<CallbackItem>) -> Result<Seq<u8>, NoMemory>
    ensures text { IfOk result (λ b. b ≡ spool_text items.now) }
    ensures reads { IfOk result (λ b. HaveDifferentLogs items.now → spool_at b ≡ Ok items.now) }
{
    let mut bytes = Vec::new(alloc);
    for item in items.as_slice() {
        let line = write_item(alloc, item)?;
        append(&mut bytes, line.as_slice())?;
    }
    Ok(Seq::of(bytes))
}
