//! The numbers that the definitions cite.
ghost use Rattle.line_program.specs.Laws.{LimitsAre};

/// The limits on lines and on the input as numbers.
pub fn law_numbers()
    ensures { LimitsAre }
{}
