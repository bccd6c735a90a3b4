//! What the limits are.
ghost use Rattle.job_values.specs.Limits.{AreTheLimits};

/// Each limit is the number that the rules give.
pub fn law_limits()
    ensures { AreTheLimits }
{}
