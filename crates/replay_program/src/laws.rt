//! What holds of all scripts, and the numbers that the definitions cite.
ghost use Rattle.replay_program.specs.Laws.{EachLineEndsOnce, BoundsAre};

use script_text::laws::law_one_line;

/// Each line of an event has one end of a line, at its end: so the lines of a script are cut as they
/// were put together.
pub fn law_lines_end()
    ensures { EachLineEndsOnce }
{
    law_one_line();
}

/// The bounds of the words of a command as numbers.
pub fn law_numbers()
    ensures { BoundsAre }
{}
