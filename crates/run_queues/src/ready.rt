//! The fronts in order of acceptance.
ghost use Rattle.std.specs.Prelude.{◌≡◌, ◌+◌, ◌<◌, ◌≤◌, ◌==◌, not, false, find, filter, ◌++◌, ◌∷◌, [], if◌then◌else◌, length};
ghost use Rattle.std.specs.List.{list_any};
ghost use Rattle.std.specs.Option.{option_copied};
ghost use Rattle.std.specs.VecDeque.{deque_len, deque_capacity};
ghost use Rattle.job_lane.specs.Lanes.{runs};
ghost use Rattle.rising_rows.specs.Rising.{RisesFrom};
ghost use Rattle.run_queues.specs.Order.{lane_of, put_next, without_front, IsNew};

use super::front::Front;
use super::lanes::is_running;
use super::ranked::{put, take};
use indexmap::IndexMap;
use job_lane::Lane;
use std::collections::VecDeque;

/// The first front whose job does not run, where it is kept.
fn find_ready<'a>(fronts: &'a VecDeque<Front>, lanes: &IndexMap<u32, Lane>) -> Option<&'a Front>
    ensures { option_copied result ≡ find (λ f. not (runs (lane_of f.job lanes.now.entries).on_runners)) fronts.now.items }
{
    fronts.iter().find(|f| !is_running(lanes, f.job))
}

/// The first front whose job does not run. It passes over the fronts of jobs that run alone.
pub(crate) fn ready_front(fronts: &VecDeque<Front>, lanes: &IndexMap<u32, Lane>) -> Option<Front>
    ensures { result ≡ find (λ f. not (runs (lane_of f.job lanes.now.entries).on_runners)) fronts.now.items }
{
    match find_ready(fronts, lanes) {
        None => None,
        Some(front) => Some(*front),
    }
}

/// Takes the front with the number of this one out.
fn take_front(fronts: &mut VecDeque<Front>, front: &Front)
    requires { RisesFrom (λ f. f.number) 0 fronts.old.items }
    ensures items { fronts.new.items ≡ filter (λ f. not (front.now.number == f.number)) fronts.old.items }
    ensures len { deque_len fronts.new ≤ deque_len fronts.old }
    ensures capacity { deque_capacity fronts.new ≡ deque_capacity fronts.old }
{
    take(fronts, front);
}

/// Takes a front out, if there is one.
pub(crate) fn take_first(fronts: &mut VecDeque<Front>, front: Option<Front>)
    requires { RisesFrom (λ f. f.number) 0 fronts.old.items }
    ensures items { fronts.new.items ≡ without_front front fronts.old.items }
    ensures len { deque_len fronts.new ≤ deque_len fronts.old }
    ensures capacity { deque_capacity fronts.new ≡ deque_capacity fronts.old }
{
    if let Some(front) = front {
        take_front(fronts, &front);
    }
}

/// Puts a front with a new number among the others, if there is one. There is room for it.
fn put_new(fronts: &mut VecDeque<Front>, next: Option<Front>)
    requires rises { RisesFrom (λ f. f.number) 0 fronts.old.items }
    requires new { IsNew next fronts.old.items }
    requires room { deque_len fronts.old < deque_capacity fronts.old }
    ensures items { fronts.new.items ≡ put_next next fronts.old.items }
    ensures room { deque_len fronts.new ≤ deque_capacity fronts.new }
{
    if let Some(next) = next {
        put(fronts, next);
    }
}

/// Takes a front out, and puts the next one of its job among the others, if there is one.
pub(crate) fn replace(fronts: &mut VecDeque<Front>, taken: Front, next: Option<Front>)
    requires rises { RisesFrom (λ f. f.number) 0 fronts.old.items }
    requires new { IsNew next (filter (λ f. not (taken.number == f.number)) fronts.old.items) }
    requires room { length (filter (λ f. not (taken.number == f.number)) fronts.old.items) < deque_capacity fronts.old }
    ensures items { fronts.new.items ≡ put_next next (filter (λ f. not (taken.number == f.number)) fronts.old.items) }
    ensures room { deque_len fronts.new ≤ deque_capacity fronts.new }
{
    take_front(fronts, &taken);
    put_new(fronts, next);
}

/// Puts the front of a new run behind the others, where no run of its job waits. There is room for it.
pub(crate) fn add(fronts: &mut VecDeque<Front>, front: Front, waits: bool)
    requires { deque_len fronts.old < deque_capacity fronts.old }
    ensures items { fronts.new.items ≡ (if waits then fronts.old.items else fronts.old.items ++ front ∷ []) }
    ensures room { deque_len fronts.new ≤ deque_capacity fronts.new }
{
    if !waits {
        fronts.push_back_reserved(front);
    }
}
