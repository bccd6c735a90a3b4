//! The next ids and editions.
ghost use Rattle.std.specs.Prelude.{◌≡◌, ◌+◌, ◌<◌, ◌≤◌, IfSome, IfNone};
ghost use Rattle.job_values.specs.declared.limits.TheConstants.{LAST_EDITION, LAST_JOB_ID};

use job_values::{Edition, GroupId, JobId};

/// The group id after the last one; None where that is the greatest.
pub fn next_group(last: u32) -> Option<GroupId>
    ensures some { IfSome result (λ id. (last < LAST_JOB_ID) × (id ≡ last + 1)) }
    ensures none { IfNone result (LAST_JOB_ID ≤ last) }
{
    GroupId::new(last.checked_add(1)?)
}

/// The job id after the last one; None where that is the greatest.
pub fn next_job(last: u32) -> Option<JobId>
    ensures some { IfSome result (λ id. (last < LAST_JOB_ID) × (id ≡ last + 1)) }
    ensures none { IfNone result (LAST_JOB_ID ≤ last) }
{
    JobId::new(last.checked_add(1)?)
}

/// The edition after one; None where that is the greatest.
pub fn next_edition(edition: Edition) -> Option<Edition>
    ensures some { IfSome result (λ next. (edition < LAST_EDITION) × (next ≡ edition + 1)) }
    ensures none { IfNone result (LAST_EDITION ≤ edition) }
{
    edition.checked_add(1)
}
