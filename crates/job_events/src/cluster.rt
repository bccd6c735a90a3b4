//! The events of the cluster, their replies and their refusals.

use super::opened::{FiredChild, FiredTicket, Opened};
use super::order::Order;
use super::shown_log::ShownLog;
use job_values::{
    Address, Addresses, AdminNo, AppName, CallbackItem, Case, Edition, GroupId, GroupKind, JobId,
    JobSpec, LogId, Moment, ParamText, PoolKind, RegistryText, ScheduleFault, Seq, ZoneFault,
};

/// What happens to the cluster.
#[derive(Drop)]
pub enum ClusterEvent {
    /// An admin starts.
    NodeStart(AdminNo),
    /// An admin stops, and loses its ring and what its pools hold.
    NodeStop(AdminNo),
    /// Whether an admin runs.
    NodeAsk(AdminNo),
    /// A group is added.
    AddGroup(AppName, GroupKind, Addresses),
    /// A group gets another kind and other addresses.
    SetGroup(GroupId, GroupKind, Addresses),
    /// A job is added; it is stopped.
    AddJob(JobSpec),
    /// A job gets another spec at a moment; it runs on where it ran.
    UpdateJob(Moment, JobId, JobSpec),
    /// A job is started at a moment.
    StartJob(Moment, JobId),
    /// A job is stopped.
    StopJob(JobId),
    /// A job is removed; its logs stay.
    RemoveJob(JobId),
    /// A job is fired by hand on an admin at a moment, with this parameter or its own.
    TriggerJob(AdminNo, Moment, JobId, Option<ParamText>),
    /// An admin takes the schedule lock at a moment.
    ScanBegin(AdminNo, Moment),
    /// The owner of the lock looks at the next job of its page.
    ScanStep(AdminNo),
    /// The ring of an admin turns at a moment.
    Turn(AdminNo, Moment),
    /// An admin takes the first log of one of its pools, at a moment and with a word for a random choice.
    Take(AdminNo, PoolKind, Moment, u64),
    /// A log was sent to an address, or to none, with a code; the sending began and ended at these moments.
    Sent(LogId, Option<Address>, i32, Moment, Moment),
    /// An admin takes the result of a log at a moment.
    Callback(AdminNo, Moment, CallbackItem),
    /// An executor says at a moment that it is there: the group of its call, its app and its address.
    Registry(Moment, RegistryText, RegistryText, RegistryText),
    /// It says that it is gone.
    RegistryRemove(RegistryText, RegistryText, RegistryText),
    /// The registrations that are dead at a moment are dropped, and the automatic groups get their lists.
    Sweep(Moment),
    /// An admin marks the first failed log at a moment, and tries it again.
    Monitor(AdminNo, Moment),
    /// The first log that is lost at a moment gets its end.
    Lost(Moment),
    /// The logs from before a moment are dropped, but those that wait to be sent.
    Clean(Moment),
    /// What is known of a log.
    ReadLog(LogId),
    /// All admins stop.
    Reopen,
}

/// The answer to an event.
#[derive(Drop)]
pub enum ClusterReply {
    /// It is done.
    Done,
    /// The id of the added group.
    Group(GroupId),
    /// The id of the added job.
    Job(JobId),
    /// The job runs, in this edition, and is due at this moment next.
    Running(Edition, Moment),
    /// The job has this edition, and is due at this moment next where it runs.
    Updated(Edition, Option<Moment>),
    /// The job is stopped, in this edition.
    Halted(Edition),
    /// A scan began, with this many jobs on its page.
    Begun(u64),
    /// The job is gone or has another edition than on the page.
    Skip(JobId),
    /// A job was looked at.
    Look {
        job: JobId,
        case: Case,
        /// Its due time.
        due: Moment,
        /// Its new next time.
        next: Option<Moment>,
        /// The time that was put in the ring.
        put: Option<Moment>,
        /// The logs that were opened.
        opened: Seq<Opened>,
    },
    /// The tickets that a turn took, in order.
    Fired(Seq<FiredTicket>),
    /// The logs that a firing by hand opened.
    Opened(Seq<Opened>),
    /// What the taken log is to run, and where.
    Took(Order),
    /// The log has its result, with this code; the children that it fired, in order.
    Settled {
        code: i32,
        children: Seq<FiredChild>,
    },
    /// How many registrations were dropped.
    Swept(u64),
    /// The log that was marked, and the log that tries it again, if there is one.
    Marked {
        log: LogId,
        opened: Seq<Opened>,
    },
    /// The log that was lost.
    Lost(LogId),
    /// How many logs were dropped.
    Cleaned(u64),
    /// The log.
    Shown(ShownLog),
    /// How many tickets a stop lost, and how many logs it gave their end.
    Stopped {
        lost: u64,
        ended: u64,
    },
    /// The same of the stop of all admins.
    Reopened {
        lost: u64,
        ended: u64,
    },
    /// It was refused, and changed nothing.
    Refused(ClusterRefusal),
}

/// Why an event was refused.
#[derive(Clone, Copy, PartialEq, Eq)]
pub enum ClusterRefusal {
    /// The admin runs.
    NodeRunning(AdminNo),
    /// The admin does not run.
    NodeStopped(AdminNo),
    /// A scan has this owner.
    Busy(AdminNo),
    /// The admin owns no scan.
    NotScanning,
    /// The pool has no log.
    Empty,
    /// The code of a sending or of a result is not positive.
    BadCode,
    /// The log has this trigger code.
    AlreadySent(i32),
    /// The log waits in a pool, or is nowhere: no take gave it.
    NotTaken,
    /// The address is none of those that the take of the log gave, or there is none and the code is that of success.
    WrongAddress,
    /// The log has a result already, with this code.
    Repeat(i32),
    /// The group of a call is not that of executors, or its app or its address is empty.
    BadRegistry,
    /// No log is failed and unmarked, or none is lost.
    NothingDone,
    /// No group has the id.
    NoGroup,
    /// No job has the id.
    NoJob,
    /// No log has the id.
    NoLog,
    /// The schedule's text is none of its kind.
    BadSchedule(ScheduleFault),
    /// The zone's text is no zone.
    BadZone(ZoneFault),
    /// The job has no time after the moment and the time that a start looks ahead.
    NoNext,
    /// The limit that is reached.
    TooMany(u32),
    /// An id or an edition would pass its greatest value.
    IdsSpent,
}
