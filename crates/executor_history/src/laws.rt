//! The constants that the definitions cite.
ghost use Rattle.std.specs.Prelude.{◌≡◌, pos};
ghost use Rattle.job_values.specs.declared.limits.TheConstants.{SUCCESS, FAILURE, EXPIRED, HELD_IDS, LOG_LINES, LINES_READ};

/// The constants that the definitions cite, as numbers.
pub fn law_numbers()
    ensures success { SUCCESS ≡ pos 200 }
    ensures failure { FAILURE ≡ pos 500 }
    ensures expired { EXPIRED ≡ pos 502 }
    ensures held { HELD_IDS ≡ 10000 }
    ensures lines { LOG_LINES ≡ 10000 }
    ensures read { LINES_READ ≡ 100 }
{}
