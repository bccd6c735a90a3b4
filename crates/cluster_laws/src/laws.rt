//! The laws.
ghost use Rattle.cluster_laws.specs.Moments.{NextTimesCarried};
ghost use Rattle.cluster_laws.specs.Fates.{WaitingByFate};
ghost use Rattle.cluster_laws.specs.Owners.{OneScan};
ghost use Rattle.cluster_laws.specs.Dues.{EachDueOnce};
ghost use Rattle.cluster_laws.specs.Told.{EachFateTold};
ghost use Rattle.cluster_laws.specs.FiredLogs.{EachFiringOpens};
ghost use Rattle.cluster_laws.specs.Codes.{CodesByEntries};
ghost use Rattle.cluster_laws.specs.Queues.{QueuesAreLeft};
ghost use Rattle.cluster_laws.specs.OpenLogs.{EachOpenHeld};
ghost use Rattle.cluster_laws.specs.ScanPlaces.{ScansByPlace};
ghost use Rattle.cluster_laws.specs.Settles.{EachSettledOnce};
ghost use Rattle.cluster_laws.specs.Results.{ResultsByEntries};
ghost use Rattle.cluster_laws.specs.Children.{ChildrenOnce};
ghost use Rattle.cluster_laws.specs.Registered.{RegistrationsStand};
ghost use Rattle.cluster_laws.specs.Lists.{ListsByEntries};

use cron_schedule::laws::law_after_rises;

/// A job's next time is its first time, carried through the table of scans at each scan that looked at it.
pub fn law_next_times()
    ensures { NextTimesCarried }
{}

/// The tickets that wait are those whose fate is not decided, in the order of the steps that put them.
pub fn law_waiting()
    ensures { WaitingByFate }
{}

/// A scan begins while no other is open, and every step is its owner's.
pub fn law_scans()
    ensures { OneScan }
{}

/// The due times of a job in an edition rise, and each is fired for at most once.
pub fn law_dues()
    ensures { EachDueOnce }
{
    law_after_rises();
}

/// What a step and a turn open is what their firings for due times open, one after another.
pub fn law_firings()
    ensures { EachFiringOpens }
{}

/// A ticket has one fate: it waits, or the reply of one turn tells it, or the number of one stop counts it.
pub fn law_fates()
    ensures { EachFateTold }
{
    law_after_rises();
}

/// The trigger code of a log is that of failure where no pool had room for it; else that of its sending;
/// else that of failure where a stop of its admin or of all stands behind its opening, and else none.
pub fn law_codes()
    ensures { CodesByEntries }
{}

/// What waits in a pool is what the replies tell as added to it since the last stop of its admin,
/// without its first, as many as were taken.
pub fn law_queues()
    ensures { QueuesAreLeft }
{}

/// The logs of an admin without a trigger code are those that wait in its pools, and those that it took.
pub fn law_open_logs()
    ensures { EachOpenHeld }
{}

/// The open scan is that of the last begin: the page of the entries before it, with fewer steps since
/// than the page has entries, and no stop of its owner or of all.
pub fn law_scan_places()
    ensures { ScansByPlace }
{}

/// A log gets its result at most once, by a callback or as a lost one, and none where the opening has it
/// with one; and it is marked at most once. What opens logs of children is a result of success: just those
/// of the children of its log's job, which the reply tells in order; a log starts its children at most once.
pub fn law_settle()
    ensures once { EachSettledOnce }
    ensures children { ChildrenOnce }
{}

/// The result of a log is what the entry gave that settled it, or what the opening has of it; and it is
/// marked where a monitor marked it, or the opening has it so.
pub fn law_results()
    ensures { ResultsByEntries }
{}

/// A registration stands with the moment of its last beat, unless its removal came since, or a sweep
/// more than ninety seconds behind the beat. The list of an automatic group that was swept since it was
/// given is what stood under its app right behind the last sweep, sorted by bytes, each once; any other
/// list is the one that was given last.
pub fn law_registrations()
    ensures rows { RegistrationsStand }
    ensures lists { ListsByEntries }
{}
