//! Management lines, read word by word, each by its command.
ghost use Rattle.job_values.specs.declared.limits.TheConstants.{LONGEST_APP, LONGEST_PARAM};
ghost use Rattle.std.specs.Prelude.{◌≡◌, [], ◌∷◌, ◌++◌, IfOk, IfErr};
ghost use Rattle.line_grammar.specs.Reading.{Takes};
ghost use Rattle.line_grammar.specs.Grammar.{reading};
ghost use Rattle.line_grammar.specs.Dashes.{number_form};
ghost use Rattle.line_grammar.specs.Texts.{text_form};
ghost use Rattle.script_text.specs.declared.manage_lines.ManageLine.{ManageLine};
ghost use Rattle.script_text.specs.declared.manage_words.ManageCommand.TheVariants as command;
ghost use Rattle.script_text.specs.Manage.{behind, line_at, IsManageLine};
ghost use Rattle.script_text.specs.Faults.{IsFaultIn, IsReadAs};

use crate::faults::LineError;
use crate::groups::addresses;
use crate::jobs::spec;
use crate::manage_lines::ManageLine;
use crate::manage_words::{ManageCommand, manage_command};
use crate::reading::fault;
use crate::words::{group, group_kind, group_kind_word, job, log};
use job_values::NoMemory;
use line_grammar::laws::law_grammar;
use line_grammar::{End, ReadError, Reader, write_byte};
use std::alloc::Global;

fn new_group(reader: &mut Reader, alloc: Global) -> Result<ManageLine, ReadError>
    ensures { Takes (λ e. e) result reader.new.rest.now (reading (behind command.AddGroup) reader.old.rest.now) }
{
    let app = reader.bounded(alloc, End::Space)?;
    let kind = group_kind_word(reader)?;
    let addresses = addresses(reader, alloc)?;
    Ok(ManageLine::AddGroup(app, group_kind(kind), addresses))
}

fn other_group(reader: &mut Reader, alloc: Global) -> Result<ManageLine, ReadError>
    ensures { Takes (λ e. e) result reader.new.rest.now (reading (behind command.SetGroup) reader.old.rest.now) }
{
    let group = group(reader, End::Space)?;
    let kind = group_kind_word(reader)?;
    let addresses = addresses(reader, alloc)?;
    Ok(ManageLine::SetGroup(group, group_kind(kind), addresses))
}

fn new_job(reader: &mut Reader, alloc: Global) -> Result<ManageLine, ReadError>
    ensures { Takes (λ e. e) result reader.new.rest.now (reading (behind command.AddJob) reader.old.rest.now) }
{
    let spec = spec(reader, alloc)?;
    Ok(ManageLine::AddJob(spec))
}

fn other_spec(reader: &mut Reader, alloc: Global) -> Result<ManageLine, ReadError>
    ensures { Takes (λ e. e) result reader.new.rest.now (reading (behind command.SetJob) reader.old.rest.now) }
{
    let job = job(reader, End::Space)?;
    let spec = spec(reader, alloc)?;
    Ok(ManageLine::UpdateJob(job, spec))
}

fn firing(reader: &mut Reader, alloc: Global) -> Result<ManageLine, ReadError>
    ensures { Takes (λ e. e) result reader.new.rest.now (reading (behind command.Fire) reader.old.rest.now) }
{
    let job = job(reader, End::Space)?;
    let param = reader.optional_text(alloc, End::Line)?;
    Ok(ManageLine::TriggerJob(job, param))
}

/// Any management line, with its LF.
fn any(reader: &mut Reader, alloc: Global) -> Result<ManageLine, ReadError>
    ensures { Takes (λ e. e) result reader.new.rest.now (line_at reader.old.rest.now) }
{
    match manage_command(reader)? {
        ManageCommand::AddGroup => new_group(reader, alloc),
        ManageCommand::SetGroup => other_group(reader, alloc),
        ManageCommand::AddJob => new_job(reader, alloc),
        ManageCommand::SetJob => other_spec(reader, alloc),
        ManageCommand::StartJob => Ok(ManageLine::StartJob(job(reader, End::Line)?)),
        ManageCommand::StopJob => Ok(ManageLine::StopJob(job(reader, End::Line)?)),
        ManageCommand::DropJob => Ok(ManageLine::RemoveJob(job(reader, End::Line)?)),
        ManageCommand::Fire => firing(reader, alloc),
        ManageCommand::ShowLog => Ok(ManageLine::ReadLog(log(reader, End::Line)?)),
        ManageCommand::Shutdown => Ok(ManageLine::Shutdown),
    }
}

/// The bytes with an LF behind them.
fn with_end(alloc: Global, bytes: &[u8]) -> Result<Vec<u8>, NoMemory>
    ensures { IfOk result (λ line. line.items ≡ bytes.now ++ 10 ∷ []) }
{
    let mut line = Vec::new(alloc);
    line.extend_from_slice(bytes).map_err(|_| NoMemory)?;
    write_byte(&mut line, b'\n')?;
    Ok(line)
}

/// What the line of these bytes and an LF says.
fn read_ended(alloc: Global, bytes: &[u8], line: &[u8]) -> Result<ManageLine, LineError>
    requires { line.now ≡ bytes.now ++ 10 ∷ [] }
    ensures line { IfOk result (λ said. IsManageLine said bytes.now) }
    ensures only { (said : ManageLine) → IsManageLine said bytes.now → IsReadAs said result }
    ensures fault { IfErr result (IsFaultIn IsManageLine bytes.now) }
{
    law_grammar::<ManageLine>();
    let mut reader = Reader { rest: line };
    match any(&mut reader, alloc) {
        Ok(said) => {
            let left = reader.rest.len();
            if left == 0 {
                Ok(said)
            } else {
                Err(fault(bytes.len(), left))
            }
        }
        Err(error) => match error {
            ReadError::Memory => Err(LineError::NoMemory),
            ReadError::Bad(left) => Err(fault(bytes.len(), left.saturating_sub(1))),
        },
    }
}

/// The management line that the bytes are; it has no LF. A column above 2^32 - 1 is told as that.
pub fn read_manage(alloc: Global, bytes: &[u8]) -> Result<ManageLine, LineError>
    // What is read is the management line.
    ensures line { IfOk result (λ said. IsManageLine said bytes.now) }
    // What is a management line is read, unless memory runs out.
    ensures only { (said : ManageLine) → IsManageLine said bytes.now → IsReadAs said result }
    // Bad comes exactly where the bytes are none, with the exact column.
    ensures fault { IfErr result (IsFaultIn IsManageLine bytes.now) }
{
    match with_end(alloc, bytes) {
        Ok(line) => read_ended(alloc, bytes, line.as_slice()),
        Err(_) => Err(LineError::NoMemory),
    }
}
