//! The constants that the definitions cite.
ghost use Rattle.std.specs.Prelude.{◌≡◌};
ghost use Rattle.job_values.specs.declared.limits.TheConstants.{SECOND};

/// The constants that the definitions cite, as numbers.
pub fn law_numbers()
    ensures { SECOND ≡ 1000 }
{}
