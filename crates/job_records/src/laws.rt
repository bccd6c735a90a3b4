//! What the definitions say in other words.
ghost use Rattle.std.specs.Prelude.{◌≡◌, ℕ, ◌+◌, pos, List, map, filter, take};
ghost use Rattle.job_values.specs.declared.limits.TheConstants.{MOST_GROUPS, MOST_JOBS, MOST_REGISTRATIONS, MOST_OF_KEY};
ghost use Rattle.job_values.specs.declared.limits.TheConstants.{LAST_JOB_ID, LAST_LOG_ID, LOOK_AHEAD, SUCCESS};
ghost use Rattle.row_indexes.specs.Pages.{is_next_by, IsPage};
ghost use Rattle.job_records.specs.DueJobs.{due_entries};
ghost use Rattle.job_records.specs.Rules.{KeepsRules};
ghost use Rattle.job_records.specs.Tables.{Tables};

/// The limits that the definitions cite.
pub fn law_numbers()
    ensures groups { MOST_GROUPS ≡ 10000 }
    ensures jobs { MOST_JOBS ≡ 100000 }
    ensures registrations { MOST_REGISTRATIONS ≡ 65536 }
    ensures of_key { MOST_OF_KEY ≡ 256 }
    ensures job_ids { LAST_JOB_ID ≡ 2147483647 }
    ensures log_ids { LAST_LOG_ID ≡ 9223372036854775807 }
    ensures success { SUCCESS ≡ pos 200 }
{}

/// A page that is read from the index of the due jobs is what the rows say: the first jobs, in order
/// of their ids, whose next times are no further ahead than a scan looks.
pub fn law_page()
    ensures { (limit now : ℕ) (t : Tables) (page : List ℕ) → KeepsRules t → IsPage limit now (due_entries t.jobs) page → page ≡ take limit (map (λ job. job.id) (filter (λ job. is_next_by (now + LOOK_AHEAD) job.next) t.jobs)) }
{}
