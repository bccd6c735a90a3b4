//! Lines of takes and sendings, read word by word.
ghost use Rattle.job_values.specs.declared.limits.TheConstants.{LONGEST_NAME};
ghost use Rattle.std.specs.Prelude.{◌≡◌};
ghost use Rattle.line_grammar.specs.Reading.{Takes};
ghost use Rattle.line_grammar.specs.Grammar.{reading};
ghost use Rattle.line_grammar.specs.Dashes.{number_form};
ghost use Rattle.line_grammar.specs.Texts.{text_form};
ghost use Rattle.script_text.specs.Lines.{behind};
ghost use Rattle.script_text.specs.declared.commands.Command.TheVariants as command;

use crate::words::{admin, choice_word, log, moment, pool_kind, pool_kind_word};
use job_events::ClusterEvent;
use line_grammar::{End, ReadError, Reader};
use std::alloc::Global;

pub(crate) fn take(reader: &mut Reader) -> Result<ClusterEvent, ReadError>
    ensures { Takes (λ e. e) result reader.new.rest.now (reading (behind command.Take) reader.old.rest.now) }
{
    let admin = admin(reader, End::Space)?;
    let pool = pool_kind_word(reader)?;
    let at = moment(reader, End::Space)?;
    let word = choice_word(reader, End::Line)?;
    Ok(ClusterEvent::Take(admin, pool_kind(pool), at, word))
}

pub(crate) fn sent(reader: &mut Reader, alloc: Global) -> Result<ClusterEvent, ReadError>
    ensures { Takes (λ e. e) result reader.new.rest.now (reading (behind command.Sent) reader.old.rest.now) }
{
    let log = log(reader, End::Space)?;
    let address = reader.optional_text(alloc, End::Space)?;
    let code = reader.code(End::Space)?;
    let start = moment(reader, End::Space)?;
    let end = moment(reader, End::Line)?;
    Ok(ClusterEvent::Sent(log, address, code, start, end))
}
