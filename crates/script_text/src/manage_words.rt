//! The commands of management lines, each told by the word that begins its line.
ghost use Rattle.std.specs.Prelude.{◌≡◌};
ghost use Rattle.line_grammar.specs.Reading.{Takes};
ghost use Rattle.script_text.specs.Manage.{command_at};

use line_grammar::{ReadError, Reader};

/// What a management line asks for.
#[derive(Clone, Copy, PartialEq, Eq)]
pub(crate) enum ManageCommand {
    AddGroup,
    SetGroup,
    AddJob,
    SetJob,
    StartJob,
    StopJob,
    DropJob,
    Fire,
    ShowLog,
    Shutdown,
}

/// The command of a management line.
pub(crate) fn manage_command(reader: &mut Reader) -> Result<ManageCommand, ReadError>
    ensures { Takes (λ c. c) result reader.new.rest.now (command_at reader.old.rest.now) }
{
    reader.one_of(&[
        ("addgroup ", ManageCommand::AddGroup),
        ("setgroup ", ManageCommand::SetGroup),
        ("addjob ", ManageCommand::AddJob),
        ("setjob ", ManageCommand::SetJob),
        ("startjob ", ManageCommand::StartJob),
        ("stopjob ", ManageCommand::StopJob),
        ("dropjob ", ManageCommand::DropJob),
        ("fire ", ManageCommand::Fire),
        ("showlog ", ManageCommand::ShowLog),
        ("shutdown\n", ManageCommand::Shutdown),
    ])
}
