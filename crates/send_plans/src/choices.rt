//! Where a log that is taken may be sent.
ghost use Rattle.std.specs.Prelude.{◌≡◌, ℕ, ◌<◌, ◌^◌, List, [], ◌∷◌, IfOk, OnOk};
ghost use Rattle.route_strategies.specs.State.{counts_of, ArePicksOf};
ghost use Rattle.cluster_history.specs.Orders.{looks_back, choice_by, given_in};
ghost use Rattle.send_plans.specs.Takes.{pick_of};

use cluster_plan::Pick;
use job_records::{Log, Records};
use job_values::{Address, Addresses, Choice, NoMemory, Route, Seq, copy_addresses};
use route_strategies::{RouteAsk, Routes};
use std::alloc::Global;

/// What the route of a log chooses from the list of its group. A job whose picks can't be counted on
/// has no memory for one more.
pub(crate) fn choice_for(
    records: &Records,
    routes: &Routes,
    row: &Log,
    word: u64,
) -> Result<Choice, NoMemory>
    ensures choice { (picks : List (List ℕ)) → ArePicksOf routes.now.kept row.now.job picks → IfOk result (λ choice. choice ≡ choice_by records.now.kept.groups word picks row.now) }
    ensures few { OnOk result ((counts_of routes.now.kept row.now.job).number < 2 ^ 64) }
{
    if routes.number_of_picks(row.job) == u64::MAX {
        return Err(NoMemory);
    }
    match records.group(row.group) {
        Some(group) => routes.choose(&RouteAsk {
            route: row.route,
            job: row.job,
            list: &group.addresses,
            index: row.index,
            word,
        }),
        None => Ok(Choice::NoAddress),
    }
}

/// Whether a route looks at the picks before.
fn looks_back(route: Route) -> bool
    ensures { result ≡ looks_back route }
{
    match route {
        Route::Round | Route::LeastFrequentlyUsed | Route::LeastRecentlyUsed => true,
        _ => false,
    }
}

/// The pick that a choice for a log is, if it is one.
pub(crate) fn pick_of(alloc: Global, row: &Log, choice: &Choice) -> Result<Option<Pick>, NoMemory>
    ensures { IfOk result (λ pick. pick ≡ pick_of row.now choice.now) }
{
    if !looks_back(row.route) {
        return Ok(None);
    }
    match choice {
        Choice::To(address) => {
            let address = address.copy(alloc)?;
            Ok(Some(Pick {
                job: row.job,
                address,
            }))
        }
        _ => Ok(None),
    }
}

/// A list of one address.
fn one_address(alloc: Global, address: &Address) -> Result<Addresses, NoMemory>
    ensures { IfOk result (λ list. list ≡ address.now ∷ []) }
{
    let address = address.copy(alloc)?;
    let list = vec![in alloc; address].map_err(|_| NoMemory)?;
    Ok(Addresses::of(Seq::of(list)))
}

/// The addresses that a choice gives.
pub(crate) fn given(alloc: Global, choice: &Choice) -> Result<Addresses, NoMemory>
    ensures { IfOk result (λ list. list ≡ given_in choice.now) }
{
    match choice {
        Choice::To(address) => one_address(alloc, address),
        Choice::Beat(list) => copy_addresses(alloc, list),
        Choice::Idle(list) => copy_addresses(alloc, list),
        Choice::NoAddress => Ok(Addresses::of(Seq::new(alloc))),
    }
}
