//! A list of events, played on a centre over a keeper that stops or fails, beside a cluster that keeps
//! its rows itself.

use crate::fault::Fault;
use crate::same::same_rows;
use admin_machine::{AdminMachine, AdminRefusal};
use cluster_core::Cluster;
use cluster_history::Settings;
use job_events::{ClusterEvent, ClusterReply};
use job_values::AdminNo;
use job_values::limits::ADMINS;
use record_keeper::MemoryKeeper;
use script_text::write_reply;
use std::alloc::Global;

/// What a centre does behind a save that failed.
#[derive(Clone, Copy)]
pub enum Then {
    /// It goes on, with the same event.
    Goes,
    /// It stops, and opens again over what was saved.
    Stops,
}

/// How many plays there were, and how many of them went otherwise than the cluster beside them.
#[derive(Clone, Copy)]
pub struct Told {
    pub played: u64,
    pub other: u64,
}

/// A list of events under some settings.
#[derive(Clone, Copy)]
pub struct Plays<'a> {
    pub alloc: Global,
    pub settings: Settings,
    pub events: &'a [ClusterEvent],
}

/// A centre over a keeper, and a cluster beside it.
#[derive(Drop)]
struct Pair {
    centre: AdminMachine<MemoryKeeper>,
    cluster: Cluster,
}

/// What came of an event.
#[derive(Clone, Copy)]
enum Came {
    /// Both answered the same, and have the same rows.
    Same,
    Other,
    /// The save failed, and the rows stayed as they were.
    Failed,
}

/// Whether two replies are told by the same text.
fn same_replies(alloc: Global, one: &ClusterReply, other: &ClusterReply) -> Result<bool, Fault> {
    let one = write_reply(alloc, one)?;
    let other = write_reply(alloc, other)?;
    Ok(one.as_slice() == other.as_slice())
}

impl Plays<'_> {
    fn open(&self, keeper: MemoryKeeper) -> Result<AdminMachine<MemoryKeeper>, Fault> {
        match AdminMachine::of_keeper(self.alloc, self.settings, keeper) {
            Ok(centre) => Ok(centre),
            Err(_) => Err(Fault::Keeper),
        }
    }

    /// A centre over a new keeper with these failing calls, and a cluster without rows.
    fn pair(&self, failing: Vec<u64>) -> Result<Pair, Fault> {
        let keeper = MemoryKeeper::new(self.alloc).failing(failing);
        Ok(Pair {
            centre: self.open(keeper)?,
            cluster: Cluster::new(self.alloc, self.settings)?,
        })
    }

    /// Both act an event; where the centre's save fails, the cluster does not.
    fn act(&self, pair: &mut Pair, event: &ClusterEvent) -> Result<Came, Fault> {
        match pair.centre.act(event) {
            Ok(reply) => self.act_beside(pair, event, &reply),
            Err(AdminRefusal::Memory) => Err(Fault::Memory),
            Err(
                AdminRefusal::KeeperFault {
                    before: _,
                    after: _,
                },
            ) => Ok(pair.failed()),
        }
    }

    /// The cluster acts an event that the centre gave this reply.
    fn act_beside(
        &self,
        pair: &mut Pair,
        event: &ClusterEvent,
        reply: &ClusterReply,
    ) -> Result<Came, Fault> {
        let wanted = pair.cluster.step(event)?;
        if same_replies(self.alloc, reply, &wanted)? && pair.are_same() {
            Ok(Came::Same)
        } else {
            Ok(Came::Other)
        }
    }

    /// Both act events, none of whose saves fails; whether all came the same.
    fn act_all(&self, pair: &mut Pair, events: &[ClusterEvent]) -> Result<bool, Fault> {
        for event in events {
            match self.act(pair, event)? {
                Came::Same => {}
                _ => return Ok(false),
            }
        }
        Ok(true)
    }

    /// The centre stops and opens again over what was saved, and all admins of the cluster stop; those
    /// that ran start again. Whether all came the same.
    fn reopen(&self, pair: Pair) -> Result<(Pair, bool), Fault> {
        let Pair {
            centre,
            mut cluster,
        } = pair;
        let starts = self.running(&cluster)?;
        let centre = self.open(centre.into_keeper())?;
        cluster.step(&ClusterEvent::Reopen)?;
        let mut pair = Pair { centre, cluster };
        let same = pair.are_same()
            && pair.stands_still()
            && self.act_all(&mut pair, starts.as_slice())?;
        Ok((pair, same))
    }

    /// The starts of the admins that run.
    fn running(&self, cluster: &Cluster) -> Result<Vec<ClusterEvent>, Fault> {
        let mut starts = Vec::new(self.alloc);
        for number in 0..ADMINS as u8 {
            let Some(admin) = AdminNo::new(number) else {
                continue;
            };
            if cluster.is_running(admin) {
                starts
                    .push(ClusterEvent::NodeStart(admin))
                    .map_err(|_| Fault::Memory)?;
            }
        }
        Ok(starts)
    }

    /// How many events a cluster accepts.
    pub fn accepted(&self) -> Result<u64, Fault> {
        let mut cluster = Cluster::new(self.alloc, self.settings)?;
        let mut accepted: u64 = 0;
        for event in self.events {
            match cluster.step(event)? {
                ClusterReply::Refused(_) => {}
                _ => accepted = accepted.saturating_add(1),
            }
        }
        Ok(accepted)
    }

    /// The first events, so many, and those behind them.
    fn parted(&self, place: usize) -> (&[ClusterEvent], &[ClusterEvent]) {
        self.events.split_at(place.min(self.events.len()))
    }

    /// A centre stops behind so many events, and goes on.
    fn stopped_at(&self, place: usize) -> Result<bool, Fault> {
        let (before, behind) = self.parted(place);
        let mut pair = self.pair(Vec::new(self.alloc))?;
        let first = self.act_all(&mut pair, before)?;
        let (mut pair, opened) = self.reopen(pair)?;
        let last = self.act_all(&mut pair, behind)?;
        Ok(first && opened && last)
    }

    /// A centre stops before the first event, and behind each in turn.
    pub fn stopped(&self) -> Result<Told, Fault> {
        let mut told = Told {
            played: 0,
            other: 0,
        };
        for place in 0..=self.events.len() {
            told.put(self.stopped_at(place)?);
        }
        Ok(told)
    }

    /// A centre whose keeper fails in its call of this number; None where no save failed.
    fn failing_at(&self, call: u64, then: Then) -> Result<Option<bool>, Fault> {
        let failing = vec![in self.alloc; call].map_err(|_| Fault::Memory)?;
        let mut pair = self.pair(failing)?;
        for (place, event) in self.events.iter().enumerate() {
            match self.act(&mut pair, event)? {
                Came::Same => {}
                Came::Other => return Ok(Some(false)),
                Came::Failed => return Ok(Some(self.goes_on(pair, place, then)?)),
            }
        }
        Ok(None)
    }

    /// Behind a save that failed, the event at this place is acted again, and those behind it.
    fn goes_on(&self, pair: Pair, place: usize, then: Then) -> Result<bool, Fault> {
        let (_, behind) = self.parted(place);
        match then {
            Then::Goes => {
                let mut pair = pair;
                self.act_all(&mut pair, behind)
            }
            Then::Stops => {
                let (mut pair, opened) = self.reopen(pair)?;
                Ok(opened && self.act_all(&mut pair, behind)?)
            }
        }
    }

    /// Each save of a centre fails in turn. The first call of a keeper is the load.
    pub fn failing(&self, then: Then) -> Result<Told, Fault> {
        let mut told = Told {
            played: 0,
            other: 0,
        };
        for call in 2..u64::MAX {
            match self.failing_at(call, then)? {
                Some(same) => told.put(same),
                None => return Ok(told),
            }
        }
        Ok(told)
    }
}

impl Pair {
    fn are_same(&self) -> bool {
        same_rows(self.centre.cluster().records(), self.cluster.records())
    }

    /// Whether no admin of the centre runs.
    fn stands_still(&self) -> bool {
        for number in 0..ADMINS as u8 {
            if let Some(admin) = AdminNo::new(number) {
                if self.centre.cluster().is_running(admin) {
                    return false;
                }
            }
        }
        true
    }

    fn failed(&self) -> Came {
        if self.are_same() {
            Came::Failed
        } else {
            Came::Other
        }
    }
}

impl Told {
    fn put(&mut self, same: bool) {
        self.played = self.played.saturating_add(1);
        if !same {
            self.other = self.other.saturating_add(1);
        }
    }
}
