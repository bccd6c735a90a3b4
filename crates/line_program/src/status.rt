//! How a program ends.
ghost use Rattle.std.specs.Prelude.{◌≡◌};
ghost use Rattle.line_program.specs.Outcome.{code_of};

/// How a program ends.
#[derive(Clone, Copy, PartialEq, Eq)]
pub enum Status {
    /// All lines were answered.
    Done,
    /// A line is none.
    BadLine,
    /// The words of the command are none.
    BadWords,
    /// The source failed.
    SourceFailed,
    /// The sink failed.
    SinkFailed,
    /// Memory ran out.
    NoMemory,
    /// A line or the input is past its limit.
    TooLarge,
}

impl Status {
    /// The exit status.
    pub fn code(self) -> u8
        ensures { result ≡ code_of self }
    {
        match self {
            Status::Done => 0,
            Status::BadLine => 1,
            Status::BadWords => 2,
            Status::SourceFailed => 3,
            Status::SinkFailed => 4,
            Status::NoMemory => 5,
            Status::TooLarge => 6,
        }
    }
}
