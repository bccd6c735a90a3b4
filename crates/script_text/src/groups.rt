//! Lines of groups, read word by word.
ghost use Rattle.job_values.specs.declared.limits.TheConstants.{LONGEST_NAME, MOST_ADDRESSES};
ghost use Rattle.std.specs.Prelude.{◌≡◌};
ghost use Rattle.line_grammar.specs.Reading.{Takes};
ghost use Rattle.line_grammar.specs.Grammar.{reading};
ghost use Rattle.line_grammar.specs.Dashes.{number_form};
ghost use Rattle.line_grammar.specs.Lists.{text_list_at};
ghost use Rattle.line_grammar.specs.Texts.{text_form};
ghost use Rattle.script_text.specs.Lines.{behind};
ghost use Rattle.script_text.specs.declared.commands.Command.TheVariants as command;

use crate::words::{group, group_kind, group_kind_word};
use job_events::ClusterEvent;
use job_values::limits::MOST_ADDRESSES;
use job_values::{Addresses, Seq};
use line_grammar::{End, ReadError, Reader};
use std::alloc::Global;

/// The addresses of a group, which end its line.
pub(crate) fn addresses(reader: &mut Reader, alloc: Global) -> Result<Addresses, ReadError>
    ensures { Takes (λ v. v) result reader.new.rest.now (text_list_at MOST_ADDRESSES (text_form 1 LONGEST_NAME End.Line) reader.old.rest.now) }
{
    let addresses = reader.text_list(alloc, MOST_ADDRESSES as u32, End::Line)?;
    Ok(Addresses::of(Seq::of(addresses)))
}

pub(crate) fn addgroup(reader: &mut Reader, alloc: Global) -> Result<ClusterEvent, ReadError>
    ensures { Takes (λ e. e) result reader.new.rest.now (reading (behind command.AddGroup) reader.old.rest.now) }
{
    let app = reader.bounded(alloc, End::Space)?;
    let kind = group_kind_word(reader)?;
    let addresses = addresses(reader, alloc)?;
    Ok(ClusterEvent::AddGroup(app, group_kind(kind), addresses))
}

pub(crate) fn setgroup(reader: &mut Reader, alloc: Global) -> Result<ClusterEvent, ReadError>
    ensures { Takes (λ e. e) result reader.new.rest.now (reading (behind command.SetGroup) reader.old.rest.now) }
{
    let group = group(reader, End::Space)?;
    let kind = group_kind_word(reader)?;
    let addresses = addresses(reader, alloc)?;
    Ok(ClusterEvent::SetGroup(group, group_kind(kind), addresses))
}
