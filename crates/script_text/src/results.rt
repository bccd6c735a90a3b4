//! Lines of results, and of logs that are looked at, lost or old, read word by word.
ghost use Rattle.job_values.specs.declared.limits.TheConstants.{LAST_LOG_MOMENT, LONGEST_RESULT};
ghost use Rattle.std.specs.Prelude.{◌≡◌};
ghost use Rattle.line_grammar.specs.Reading.{Takes};
ghost use Rattle.line_grammar.specs.Grammar.{reading};
ghost use Rattle.line_grammar.specs.Dashes.{number_form};
ghost use Rattle.line_grammar.specs.Texts.{text_form};
ghost use Rattle.script_text.specs.Lines.{behind};
ghost use Rattle.script_text.specs.declared.commands.Command.TheVariants as command;

use crate::words::{admin, log, log_moment, moment};
use job_events::ClusterEvent;
use job_values::CallbackItem;
use line_grammar::{End, ReadError, Reader};
use std::alloc::Global;

pub(crate) fn back(reader: &mut Reader, alloc: Global) -> Result<ClusterEvent, ReadError>
    ensures { Takes (λ e. e) result reader.new.rest.now (reading (behind command.Back) reader.old.rest.now) }
{
    let admin = admin(reader, End::Space)?;
    let at = moment(reader, End::Space)?;
    let log = log(reader, End::Space)?;
    let log_moment = log_moment(reader, End::Space)?;
    let code = reader.code(End::Space)?;
    let msg = reader.bounded(alloc, End::Line)?;
    Ok(ClusterEvent::Callback(
        admin,
        at,
        CallbackItem {
            log,
            log_moment,
            code,
            msg,
        },
    ))
}

pub(crate) fn monitor(reader: &mut Reader) -> Result<ClusterEvent, ReadError>
    ensures { Takes (λ e. e) result reader.new.rest.now (reading (behind command.Monitor) reader.old.rest.now) }
{
    let admin = admin(reader, End::Space)?;
    let at = moment(reader, End::Line)?;
    Ok(ClusterEvent::Monitor(admin, at))
}

pub(crate) fn lost(reader: &mut Reader) -> Result<ClusterEvent, ReadError>
    ensures { Takes (λ e. e) result reader.new.rest.now (reading (behind command.Lost) reader.old.rest.now) }
{
    let at = moment(reader, End::Line)?;
    Ok(ClusterEvent::Lost(at))
}

pub(crate) fn clean(reader: &mut Reader) -> Result<ClusterEvent, ReadError>
    ensures { Takes (λ e. e) result reader.new.rest.now (reading (behind command.Clean) reader.old.rest.now) }
{
    let at = moment(reader, End::Line)?;
    Ok(ClusterEvent::Clean(at))
}
