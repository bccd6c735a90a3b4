//! The limits that the definitions cite.
ghost use Rattle.std.specs.Prelude.{◌≡◌};
ghost use Rattle.job_values.specs.declared.limits.TheConstants.{MISFIRE_WINDOW};

/// The limits that the definitions cite.
pub fn law_numbers()
    ensures { MISFIRE_WINDOW ≡ 5000 }
{}
