//! Lines of admins, read word by word.
ghost use Rattle.std.specs.Prelude.{◌≡◌};
ghost use Rattle.line_grammar.specs.Reading.{Takes};
ghost use Rattle.line_grammar.specs.Grammar.{reading};
ghost use Rattle.line_grammar.specs.Dashes.{number_form};
ghost use Rattle.script_text.specs.Lines.{behind};
ghost use Rattle.script_text.specs.declared.commands.Command.TheVariants as command;

use crate::words::{admin, moment};
use job_events::ClusterEvent;
use line_grammar::{End, ReadError, Reader};

pub(crate) fn start(reader: &mut Reader) -> Result<ClusterEvent, ReadError>
    ensures { Takes (λ e. e) result reader.new.rest.now (reading (behind command.Start) reader.old.rest.now) }
{
    let admin = admin(reader, End::Line)?;
    Ok(ClusterEvent::NodeStart(admin))
}

pub(crate) fn stop(reader: &mut Reader) -> Result<ClusterEvent, ReadError>
    ensures { Takes (λ e. e) result reader.new.rest.now (reading (behind command.Stop) reader.old.rest.now) }
{
    let admin = admin(reader, End::Line)?;
    Ok(ClusterEvent::NodeStop(admin))
}

pub(crate) fn ask(reader: &mut Reader) -> Result<ClusterEvent, ReadError>
    ensures { Takes (λ e. e) result reader.new.rest.now (reading (behind command.Ask) reader.old.rest.now) }
{
    let admin = admin(reader, End::Line)?;
    Ok(ClusterEvent::NodeAsk(admin))
}

pub(crate) fn scan(reader: &mut Reader) -> Result<ClusterEvent, ReadError>
    ensures { Takes (λ e. e) result reader.new.rest.now (reading (behind command.Scan) reader.old.rest.now) }
{
    let admin = admin(reader, End::Space)?;
    let at = moment(reader, End::Line)?;
    Ok(ClusterEvent::ScanBegin(admin, at))
}

pub(crate) fn step(reader: &mut Reader) -> Result<ClusterEvent, ReadError>
    ensures { Takes (λ e. e) result reader.new.rest.now (reading (behind command.Step) reader.old.rest.now) }
{
    let admin = admin(reader, End::Line)?;
    Ok(ClusterEvent::ScanStep(admin))
}

pub(crate) fn turn(reader: &mut Reader) -> Result<ClusterEvent, ReadError>
    ensures { Takes (λ e. e) result reader.new.rest.now (reading (behind command.Turn) reader.old.rest.now) }
{
    let admin = admin(reader, End::Space)?;
    let at = moment(reader, End::Line)?;
    Ok(ClusterEvent::Turn(admin, at))
}
