//! Results from a spool text.
ghost use Rattle.std.specs.Prelude.{◌≡◌, ℕ, ◌+◌, ◌<◌, ◌≤◌, ◌==◌, nat_eq, true, not, if◌then◌else◌, Some, IfOk, IfErr, OnOk, position, Ok, length, take, drop};
ghost use Rattle.std.specs.List.{list_any};
ghost use Rattle.callback_spool.specs.Different.{HaveDifferentLogs};
ghost use Rattle.spool_text.specs.Spool.{item_at, spool_at, IsFaultOf, IsLineFault};

use super::fault::SpoolFault;
use api_messages::{MessageFault, read_item};
use job_values::{CallbackItem, LogId, Seq};
use std::alloc::Global;
use std::collections::HashSet;

/// Where the first LF stands.
fn line_end(bytes: &[u8]) -> Option<usize>
    ensures { result ≡ position (λ b. b == 10) bytes.now }
{
    bytes.iter().position(|b| *b == b'\n')
}

/// The item of a line with this number.
fn read_line(alloc: Global, bytes: &[u8], line: u64) -> Result<CallbackItem, SpoolFault>
    ensures item { IfOk result (λ item. item_at bytes.now ≡ Some item) }
    ensures bad { IfErr result (IsLineFault line (item_at bytes.now)) }
{
    match read_item(alloc, bytes) {
        Ok(item) => Ok(item),
        Err(MessageFault::NoMemory) => Err(SpoolFault::NoMemory),
        Err(_) => Err(SpoolFault::Bad { line }),
    }
}

/// The bytes before a place.
fn front(bytes: &[u8], end: usize) -> &[u8]
    requires { end ≤ length bytes.now }
    ensures { result.now ≡ take end bytes.now }
{
    let (front, _rest) = bytes.split_at(end);
    front
}

/// The bytes behind the one at a place.
fn behind(bytes: &[u8], end: usize) -> &[u8]
    requires { end < length bytes.now }
    ensures { result.now ≡ drop (end + 1) bytes.now }
{
    let (_front, rest) = bytes.split_at(end + 1);
    rest
}

/// Notes the id of a log, and tells whether it is new.
fn note(seen: &mut HashSet<u64>, log: LogId) -> Result<bool, SpoolFault>
    ensures new { IfOk result (λ new. new ≡ not (list_any (nat_eq log) seen.old.keys)) }
    ensures seen { OnOk result ((x : ℕ) → list_any (nat_eq x) seen.new.keys ≡ (if log == x then true else list_any (nat_eq x) seen.old.keys)) }
    ensures err { IfErr result (λ e. e ≡ SpoolFault.NoMemory) }
{
    match seen.insert(log.get()) {
        Ok(new) => Ok(new),
        Err(_) => Err(SpoolFault::NoMemory),
    }
}

/// The items of a spool text, or its first bad line.
pub fn read_spool(alloc: Global, bytes: &[u8]) -> Result<Seq<CallbackItem>, SpoolFault>
    ensures items { IfOk result (λ items. spool_at bytes.now ≡ Ok items) }
    ensures different { IfOk result HaveDifferentLogs }
    ensures bad { IfErr result (IsFaultOf (spool_at bytes.now)) }
{
    let mut items = Seq::new(alloc);
    let mut seen: HashSet<u64> = HashSet::new(alloc);
    let mut rest = bytes;
    let mut done = 0;
    while !rest.is_empty() {
        let line = done + 1;
        match line_end(rest) {
            None => return Err(SpoolFault::Bad { line }),
            Some(end) => {
                let item = read_line(alloc, front(rest, end), line)?;
                let new = note(&mut seen, item.log)?;
                if !new {
                    return Err(SpoolFault::Bad { line });
                }
                items.push(item)?;
                rest = behind(rest, end);
                done = line;
            }
        }
    }
    Ok(items)
}
