//! The steps of the open scan, and its end.
ghost use Rattle.std.specs.Prelude.{◌≡◌};
ghost use Rattle.cluster_history.specs.Pages.{one_step, stepped, unless_owner};

use cluster_history::Scan;
use job_values::AdminNo;

/// A stop of its owner ends the scan.
pub fn close_of(scan: &mut Option<Scan>, admin: AdminNo)
    ensures { scan.new ≡ unless_owner admin scan.old }
{
    if let Some(open) = scan {
        if open.owner == admin {
            *scan = None;
        }
    }
}

/// The scan after a step more.
fn one_on(mut scan: Scan) -> Option<Scan>
    ensures { result ≡ one_step scan }
{
    if scan.page.len().saturating_sub(scan.steps) > 1 {
        scan.steps += 1;
        Some(scan)
    } else {
        None
    }
}

/// Takes a step more; the last one ends the scan.
pub fn step_on(scan: &mut Option<Scan>)
    ensures { scan.new ≡ stepped scan.old }
{
    if let Some(open) = scan.take() {
        *scan = one_on(open);
    }
}
