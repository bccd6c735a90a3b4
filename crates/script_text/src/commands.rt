//! The commands, each told by the word that begins its line.
ghost use Rattle.std.specs.Prelude.{◌≡◌};
ghost use Rattle.line_grammar.specs.Reading.{Takes};
ghost use Rattle.script_text.specs.Lines.{command_at};

use line_grammar::{ReadError, Reader};

/// What a line asks for.
#[derive(Clone, Copy, PartialEq, Eq)]
pub(crate) enum Command {
    Start,
    Stop,
    Ask,
    AddGroup,
    SetGroup,
    AddJob,
    SetJob,
    StartJob,
    StopJob,
    DropJob,
    Fire,
    Scan,
    Step,
    Turn,
    Take,
    Sent,
    Back,
    Register,
    Unregister,
    Sweep,
    Monitor,
    Lost,
    Clean,
    ShowLog,
    Reopen,
}

/// The command of a line.
pub(crate) fn command_of(reader: &mut Reader) -> Result<Command, ReadError>
    ensures { Takes (λ c. c) result reader.new.rest.now (command_at reader.old.rest.now) }
{
    reader.one_of(&[
        ("start ", Command::Start),
        ("stop ", Command::Stop),
        ("ask ", Command::Ask),
        ("addgroup ", Command::AddGroup),
        ("setgroup ", Command::SetGroup),
        ("addjob ", Command::AddJob),
        ("setjob ", Command::SetJob),
        ("startjob ", Command::StartJob),
        ("stopjob ", Command::StopJob),
        ("dropjob ", Command::DropJob),
        ("fire ", Command::Fire),
        ("scan ", Command::Scan),
        ("step ", Command::Step),
        ("turn ", Command::Turn),
        ("take ", Command::Take),
        ("sent ", Command::Sent),
        ("back ", Command::Back),
        ("reg ", Command::Register),
        ("unreg ", Command::Unregister),
        ("sweep ", Command::Sweep),
        ("monitor ", Command::Monitor),
        ("lost ", Command::Lost),
        ("clean ", Command::Clean),
        ("showlog ", Command::ShowLog),
        ("reopen\n", Command::Reopen),
    ])
}
