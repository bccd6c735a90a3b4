//! The laws of lines.
ghost use Rattle.job_events.specs.declared.cluster.ClusterEvent.{ClusterEvent};
ghost use Rattle.script_text.specs.Laws.{NoLineBeginsAnother, EachEventHasOneLine, BoundsAre};
ghost use Rattle.script_text.specs.Manage.{ManageLinesAreWords};

use job_events::ClusterEvent;
use line_grammar::laws::law_no_text_begins_another;

/// No line is a proper prefix of another, and no bytes are the line of two events.
pub fn law_no_line_begins_another()
    ensures { NoLineBeginsAnother }
{
    law_no_text_begins_another::<ClusterEvent>();
}

/// Each event has exactly one line.
pub fn law_one_line()
    ensures { EachEventHasOneLine }
{}

/// Each management line has at most one text, its words.
pub fn law_management_lines()
    ensures { ManageLinesAreWords }
{}

/// The bounds that lines cite as numbers.
pub fn law_numbers()
    ensures { BoundsAre }
{}
