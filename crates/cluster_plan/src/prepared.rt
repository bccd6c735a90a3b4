//! An event that is decided and not yet done: its reply, and all that it will change.
ghost use Rattle.std.specs.Prelude.{◌≡◌, []};
ghost use Rattle.job_events.specs.declared.cluster.ClusterReply.TheVariants.{Refused};
ghost use Rattle.cluster_plan.specs.declared.prepared.NodeChange.TheVariants as node;

use cluster_history::{Scan, TakenLog};
use job_events::{ClusterRefusal, ClusterReply};
use job_records::Change;
use job_values::{Address, AdminNo, JobId, LogId, Moment, PoolKind, Seq};
use std::alloc::Global;
use std::marker::Model;
use time_ring::Ticket;

/// A log that enters the pools of an admin, and its job.
#[derive(Clone, Copy, PartialEq, Eq)]
pub struct Entering {
    pub log: LogId,
    pub job: JobId,
}

/// An address that was picked for a job.
#[derive(Drop)]
pub struct Pick {
    pub job: JobId,
    pub address: Address,
}

/// What an event changes beside the rows.
#[derive(Drop)]
pub enum NodeChange {
    Nothing,
    /// The admin runs.
    Starts(AdminNo),
    /// The admin stops: its scan ends, its ring and its pools are emptied, its taken logs and picks forgotten.
    Stops(AdminNo),
    /// Every admin stops.
    StopsAll,
    /// This scan is open.
    Begins(Scan),
    /// The scan makes a step; the ticket goes into the ring of the admin, the logs into its pools.
    Steps(AdminNo, Option<Ticket>, Seq<Entering>),
    /// The ring of the admin turns at this second; the logs go into its pools.
    Turns(AdminNo, u64, Seq<Entering>),
    /// The logs go into the pools of the admin.
    Fires(AdminNo, Seq<Entering>),
    /// The admin takes the first log of this pool, and with it picks an address, if it does.
    Takes(AdminNo, PoolKind, TakenLog, Option<Pick>),
    /// A taken log of the admin is sent; the sending was for this job, from a moment to another.
    Sends {
        admin: AdminNo,
        log: LogId,
        job: JobId,
        start: Moment,
        end: Moment,
    },
}

/// What an event will answer and change. It is good for the state that it was prepared on alone.
#[derive(Drop)]
pub struct Prepared {
    reply: ClusterReply,
    changes: Seq<Change>,
    node: NodeChange,
}

impl Model for Prepared {
    ghost use Rattle.cluster_plan.specs.Prepared.{PreparedEvent};

    ghost Value = { PreparedEvent };

    ghost view = { λ p. record { reply = p.reply; changes = p.changes; node = p.node } };
}

impl Prepared {
    /// An answer, the changes of the rows in order, each allowed after those before it, and what else
    /// changes.
    pub fn changing(reply: ClusterReply, changes: Seq<Change>, node: NodeChange) -> Prepared
        ensures { result ≡ record { reply = reply; changes = changes; node = node } }
    {
        Prepared {
            reply,
            changes,
            node,
        }
    }

    /// An answer that changes nothing.
    pub fn answer(alloc: Global, reply: ClusterReply) -> Prepared
        ensures { result ≡ record { reply = reply; changes = []; node = node.Nothing } }
    {
        Prepared::changing(reply, Seq::new(alloc), NodeChange::Nothing)
    }

    /// A refusal, which changes nothing.
    pub fn refusal(alloc: Global, why: ClusterRefusal) -> Prepared
        ensures { result ≡ record { reply = Refused why; changes = []; node = node.Nothing } }
    {
        Prepared::answer(alloc, ClusterReply::Refused(why))
    }

    /// What the event is answered.
    pub fn reply(&self) -> &ClusterReply
        ensures { result.now ≡ self.now.reply }
    {
        &self.reply
    }

    /// The changes of the rows, in order: each is allowed after those before it.
    pub fn changes(&self) -> &Seq<Change>
        ensures { result.now ≡ self.now.changes }
    {
        &self.changes
    }

    /// What the event changes beside the rows.
    pub fn node(&self) -> &NodeChange
        ensures { result.now ≡ self.now.node }
    {
        &self.node
    }

    /// The answer, the changes of the rows and the change beside them, to be carried out.
    pub fn into_parts(self) -> (ClusterReply, Seq<Change>, NodeChange)
        ensures reply { result.0 ≡ self.reply }
        ensures changes { result.1 ≡ self.changes }
        ensures node { result.2 ≡ self.node }
    {
        let Prepared {
            reply,
            changes,
            node,
        } = self;
        (reply, changes, node)
    }
}
