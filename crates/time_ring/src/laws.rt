//! What the definitions say in other words.
ghost use Rattle.std.specs.Prelude.{◌≡◌};
ghost use Rattle.job_values.specs.declared.limits.TheConstants.{SLOTS, SECOND};

/// The limits that the definitions cite.
pub fn law_numbers()
    ensures slots { SLOTS ≡ 60 }
    ensures second { SECOND ≡ 1000 }
{}
