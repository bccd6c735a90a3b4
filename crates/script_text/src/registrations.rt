//! Lines of registrations, read word by word.
ghost use Rattle.job_values.specs.declared.limits.TheConstants.{LONGEST_NAME};
ghost use Rattle.std.specs.Prelude.{◌≡◌};
ghost use Rattle.line_grammar.specs.Reading.{Takes};
ghost use Rattle.line_grammar.specs.Grammar.{reading};
ghost use Rattle.line_grammar.specs.Dashes.{number_form};
ghost use Rattle.line_grammar.specs.Texts.{text_form};
ghost use Rattle.script_text.specs.Lines.{behind};
ghost use Rattle.script_text.specs.declared.commands.Command.TheVariants as command;

use crate::words::moment;
use job_events::ClusterEvent;
use line_grammar::{End, ReadError, Reader};
use std::alloc::Global;

pub(crate) fn reg(reader: &mut Reader, alloc: Global) -> Result<ClusterEvent, ReadError>
    ensures { Takes (λ e. e) result reader.new.rest.now (reading (behind command.Register) reader.old.rest.now) }
{
    let at = moment(reader, End::Space)?;
    let group = reader.bounded(alloc, End::Space)?;
    let key = reader.bounded(alloc, End::Space)?;
    let value = reader.bounded(alloc, End::Line)?;
    Ok(ClusterEvent::Registry(at, group, key, value))
}

pub(crate) fn unreg(reader: &mut Reader, alloc: Global) -> Result<ClusterEvent, ReadError>
    ensures { Takes (λ e. e) result reader.new.rest.now (reading (behind command.Unregister) reader.old.rest.now) }
{
    let group = reader.bounded(alloc, End::Space)?;
    let key = reader.bounded(alloc, End::Space)?;
    let value = reader.bounded(alloc, End::Line)?;
    Ok(ClusterEvent::RegistryRemove(group, key, value))
}

pub(crate) fn sweep(reader: &mut Reader) -> Result<ClusterEvent, ReadError>
    ensures { Takes (λ e. e) result reader.new.rest.now (reading (behind command.Sweep) reader.old.rest.now) }
{
    let at = moment(reader, End::Line)?;
    Ok(ClusterEvent::Sweep(at))
}
