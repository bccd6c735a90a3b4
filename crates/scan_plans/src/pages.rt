//! The scan: its page and its next entry.
ghost use Rattle.std.specs.Prelude.{◌≡◌, ◌<◌, IfOk, IfNone, IfSome};
ghost use Rattle.std.specs.List.{filter_map};
ghost use Rattle.row_indexes.specs.Pages.{IsPage};
ghost use Rattle.job_records.specs.DueJobs.{due_entries};
ghost use Rattle.job_records.specs.Rules.{KeepsRules};
ghost use Rattle.cluster_history.specs.Pages.{page_in, begun};
ghost use Rattle.scan_plans.specs.Entries.{entry_at};
ghost use Rattle.scan_plans.specs.Steps.{StandsAt, IsNotScanning};

use cluster_history::{PageEntry, Scan};
use job_records::Records;
use job_records::laws::law_page;
use job_values::{AdminNo, JobId, Moment, NoMemory, Seq, Steps};
use row_indexes::page_of;
use std::alloc::{AllocError, Global};
use std::marker::Brand;
use std::sync::ledger::{Blank, Ledger};

/// The ids of a page, from the index of the running jobs, by a ledger of steps that nobody reads.
fn uncounted_ids<L: Ledger>(
    alloc: Global,
    records: &Records,
    limit: usize,
    at: Moment,
    blank: Blank,
) -> Result<Seq<JobId>, NoMemory>
    requires name { blank.name ≡ L.name }
    requires parts { blank.parts ≡ L.parts }
    requires some { 0 < L.parts }
    ensures { IfOk result (IsPage limit at (due_entries records.now.kept.jobs)) }
{
    let mut steps = Steps::<L>::none(blank);
    page_of(alloc, records.due(), at, limit, &mut steps)
}

/// The page entry of the job with this id.
fn entry_of(records: &Records, id: JobId) -> Option<PageEntry>
    ensures { result ≡ entry_at records.now.kept.jobs id }
{
    match records.job(id) {
        Some(job) => Some(PageEntry {
            job: job.id,
            edition: job.edition,
        }),
        None => None,
    }
}

/// The page entries of the jobs with these ids.
fn entries_of(alloc: Global, records: &Records, ids: &[JobId]) -> Result<Vec<PageEntry>, AllocError>
    ensures { IfOk result (λ page. page.items ≡ filter_map (entry_at records.now.kept.jobs) ids.now) }
{
    ids.iter()
        .filter_map(|id| entry_of(records, *id))
        .collect(alloc)
}

/// The page of a scan at a moment: a step for each job that is due and one more, and a look-up for
/// each entry.
pub fn page_at(
    alloc: Global,
    records: &Records,
    limit: usize,
    at: Moment,
) -> Result<Vec<PageEntry>, NoMemory>
    requires { KeepsRules records.now.kept }
    ensures { IfOk result (λ page. page.items ≡ page_in limit at records.now.kept.jobs) }
{
    let ids = uncounted_ids::<Brand>(alloc, records, limit, at, Blank::new(1))?;
    law_page();
    let page = entries_of(alloc, records, ids.as_slice())?;
    Ok(page)
}

/// The scan of an admin at a moment; an empty page ends it at once.
pub fn open_scan(admin: AdminNo, at: Moment, page: Vec<PageEntry>) -> Option<Scan>
    ensures { result ≡ begun admin at page.items }
{
    if page.is_empty() {
        return None;
    }
    Some(Scan {
        owner: admin,
        at,
        page: Seq::of(page),
        steps: 0,
    })
}

/// The entry that a step looks at, and the moment of its scan.
#[derive(Clone, Copy)]
pub struct Standing {
    pub entry: PageEntry,
    pub at: Moment,
}

/// The entry of an admin's next step, if it owns the open scan.
pub fn next_entry(scan: &Option<Scan>, admin: AdminNo) -> Option<Standing>
    ensures some { IfSome result (StandsAt scan.now admin) }
    ensures none { IfNone result (IsNotScanning scan.now admin) }
{
    let Some(scan) = scan else {
        return None;
    };
    if scan.owner != admin {
        return None;
    }
    let Some(entry) = scan.page.get(scan.steps) else {
        return None;
    };
    Some(Standing {
        entry: *entry,
        at: scan.at,
    })
}
