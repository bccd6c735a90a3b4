//! The numbers of the scheduler, each within its bounds: moments, ids, node numbers and the offset.
ghost use Rattle.std.specs.Prelude.{◌≡◌, ℕ, ℤ, pos, negsuc, ◌≤◌, ◌≤ℤ◌, ◌&&◌, nat_le, int_le, if◌then◌else◌};
ghost use Rattle.job_values.specs.declared.limits.TheConstants.{LAST_MOMENT, LAST_JOB_ID, LAST_LOG_ID, LAST_ADMIN, LAST_RUNNER, LAST_OFFSET, LAST_SECONDS, LAST_RETRIES, LAST_SHARD, LAST_LOG_MOMENT, LAST_REQUEST, LAST_LINE};

use super::limits::{
    LAST_ADMIN, LAST_JOB_ID, LAST_LINE, LAST_LOG_ID, LAST_LOG_MOMENT, LAST_MOMENT, LAST_OFFSET,
    LAST_REQUEST, LAST_RETRIES, LAST_RUNNER, LAST_SECONDS, LAST_SHARD,
};
use std::marker::Model;

/// How often a job was started, stopped or updated.
pub type Edition = u64;

/// Milliseconds since 1970-01-01T00:00:00Z, from 0 to `LAST_MOMENT`.
#[derive(Clone, Copy, PartialEq, Eq, PartialOrd, Ord)]
pub struct Moment {
    ms: u64,
}

impl Model for Moment {
    ghost Value = { ℕ };

    ghost view = { λ a. a.ms };

    ghost invariant = { λ a. a.ms ≤ LAST_MOMENT };

    ghost inverse = { λ n. record { ms = n } };
}

impl Moment {
    /// None exactly above `LAST_MOMENT`.
    pub fn new(n: u64) -> Option<Moment>
        ensures { result ≡ (if nat_le n LAST_MOMENT then Some n else None) }
    {
        if n <= LAST_MOMENT {
            Some(Moment { ms: n })
        } else {
            None
        }
    }

    /// The number of milliseconds.
    pub fn get(self) -> u64
        ensures value { result ≡ self }
        ensures most { result ≤ LAST_MOMENT }
    {
        self.ms
    }
}

/// The id of a group, from 1 to `LAST_JOB_ID`.
#[derive(Clone, Copy, PartialEq, Eq, PartialOrd, Ord)]
pub struct GroupId {
    number: u32,
}

impl Model for GroupId {
    ghost Value = { ℕ };

    ghost view = { λ a. a.number };

    ghost invariant = { λ a. (1 ≤ a.number) × (a.number ≤ LAST_JOB_ID) };

    ghost inverse = { λ n. record { number = n } };
}

impl GroupId {
    /// None exactly at 0 and above `LAST_JOB_ID`.
    pub fn new(n: u32) -> Option<GroupId>
        ensures { result ≡ (if nat_le 1 n && nat_le n LAST_JOB_ID then Some n else None) }
    {
        if n >= 1 && n <= LAST_JOB_ID {
            Some(GroupId { number: n })
        } else {
            None
        }
    }

    /// The number that `new` took.
    pub fn get(self) -> u32
        ensures value { result ≡ self }
        ensures least { 1 ≤ result }
        ensures most { result ≤ LAST_JOB_ID }
    {
        self.number
    }
}

/// The id of a job, from 1 to `LAST_JOB_ID`.
#[derive(Clone, Copy, PartialEq, Eq, PartialOrd, Ord)]
pub struct JobId {
    number: u32,
}

impl Model for JobId {
    ghost Value = { ℕ };

    ghost view = { λ a. a.number };

    ghost invariant = { λ a. (1 ≤ a.number) × (a.number ≤ LAST_JOB_ID) };

    ghost inverse = { λ n. record { number = n } };
}

impl JobId {
    /// None exactly at 0 and above `LAST_JOB_ID`.
    pub fn new(n: u32) -> Option<JobId>
        ensures { result ≡ (if nat_le 1 n && nat_le n LAST_JOB_ID then Some n else None) }
    {
        if n >= 1 && n <= LAST_JOB_ID {
            Some(JobId { number: n })
        } else {
            None
        }
    }

    /// The number that `new` took.
    pub fn get(self) -> u32
        ensures value { result ≡ self }
        ensures least { 1 ≤ result }
        ensures most { result ≤ LAST_JOB_ID }
    {
        self.number
    }
}

/// The id of a log, from 1 to `LAST_LOG_ID`.
#[derive(Clone, Copy, PartialEq, Eq, PartialOrd, Ord)]
pub struct LogId {
    number: u64,
}

impl Model for LogId {
    ghost Value = { ℕ };

    ghost view = { λ a. a.number };

    ghost invariant = { λ a. (1 ≤ a.number) × (a.number ≤ LAST_LOG_ID) };

    ghost inverse = { λ n. record { number = n } };
}

impl LogId {
    /// None exactly at 0 and above `LAST_LOG_ID`.
    pub fn new(n: u64) -> Option<LogId>
        ensures { result ≡ (if nat_le 1 n && nat_le n LAST_LOG_ID then Some n else None) }
    {
        if n >= 1 && n <= LAST_LOG_ID {
            Some(LogId { number: n })
        } else {
            None
        }
    }

    /// The number that `new` took.
    pub fn get(self) -> u64
        ensures value { result ≡ self }
        ensures least { 1 ≤ result }
        ensures most { result ≤ LAST_LOG_ID }
    {
        self.number
    }
}

/// The number of an admin node, from 0 to `LAST_ADMIN`.
#[derive(Clone, Copy, PartialEq, Eq, PartialOrd, Ord)]
pub struct AdminNo {
    number: u8,
}

impl Model for AdminNo {
    ghost Value = { ℕ };

    ghost view = { λ a. a.number };

    ghost invariant = { λ a. a.number ≤ LAST_ADMIN };

    ghost inverse = { λ n. record { number = n } };
}

impl AdminNo {
    /// None exactly above `LAST_ADMIN`.
    pub fn new(n: u8) -> Option<AdminNo>
        ensures { result ≡ (if nat_le n LAST_ADMIN then Some n else None) }
    {
        if n <= LAST_ADMIN {
            Some(AdminNo { number: n })
        } else {
            None
        }
    }

    /// The number that `new` took.
    pub fn get(self) -> u8
        ensures value { result ≡ self }
        ensures most { result ≤ LAST_ADMIN }
    {
        self.number
    }
}

/// The number of an executor, from 0 to `LAST_RUNNER`.
#[derive(Clone, Copy, PartialEq, Eq, PartialOrd, Ord)]
pub struct ExecutorNo {
    number: u8,
}

impl Model for ExecutorNo {
    ghost Value = { ℕ };

    ghost view = { λ a. a.number };

    ghost invariant = { λ a. a.number ≤ LAST_RUNNER };

    ghost inverse = { λ n. record { number = n } };
}

impl ExecutorNo {
    /// None exactly above `LAST_RUNNER`.
    pub fn new(n: u8) -> Option<ExecutorNo>
        ensures { result ≡ (if nat_le n LAST_RUNNER then Some n else None) }
    {
        if n <= LAST_RUNNER {
            Some(ExecutorNo { number: n })
        } else {
            None
        }
    }

    /// The number that `new` took.
    pub fn get(self) -> u8
        ensures value { result ≡ self }
        ensures most { result ≤ LAST_RUNNER }
    {
        self.number
    }
}

/// The number of a runner of an executor, from 0 to `LAST_RUNNER`.
#[derive(Clone, Copy, PartialEq, Eq, PartialOrd, Ord)]
pub struct RunnerNo {
    number: u8,
}

impl Model for RunnerNo {
    ghost Value = { ℕ };

    ghost view = { λ a. a.number };

    ghost invariant = { λ a. a.number ≤ LAST_RUNNER };

    ghost inverse = { λ n. record { number = n } };
}

impl RunnerNo {
    /// None exactly above `LAST_RUNNER`.
    pub fn new(n: u8) -> Option<RunnerNo>
        ensures { result ≡ (if nat_le n LAST_RUNNER then Some n else None) }
    {
        if n <= LAST_RUNNER {
            Some(RunnerNo { number: n })
        } else {
            None
        }
    }

    /// The number that `new` took.
    pub fn get(self) -> u8
        ensures value { result ≡ self }
        ensures most { result ≤ LAST_RUNNER }
    {
        self.number
    }
}

/// How long a run may last, in seconds, from 0 for no end to `LAST_SECONDS`.
#[derive(Clone, Copy, PartialEq, Eq, PartialOrd, Ord)]
pub struct Timeout {
    seconds: u32,
}

impl Model for Timeout {
    ghost Value = { ℕ };

    ghost view = { λ a. a.seconds };

    ghost invariant = { λ a. a.seconds ≤ LAST_SECONDS };

    ghost inverse = { λ n. record { seconds = n } };
}

impl Timeout {
    /// None exactly above `LAST_SECONDS`.
    pub fn new(n: u32) -> Option<Timeout>
        ensures { result ≡ (if nat_le n LAST_SECONDS then Some n else None) }
    {
        if n <= LAST_SECONDS {
            Some(Timeout { seconds: n })
        } else {
            None
        }
    }

    /// The number of seconds.
    pub fn get(self) -> u32
        ensures value { result ≡ self }
        ensures most { result ≤ LAST_SECONDS }
    {
        self.seconds
    }
}

/// How often a failed run is tried again, from 0 to `LAST_RETRIES`.
#[derive(Clone, Copy, PartialEq, Eq, PartialOrd, Ord)]
pub struct Retries {
    number: u32,
}

impl Model for Retries {
    ghost Value = { ℕ };

    ghost view = { λ a. a.number };

    ghost invariant = { λ a. a.number ≤ LAST_RETRIES };

    ghost inverse = { λ n. record { number = n } };
}

impl Retries {
    /// None exactly above `LAST_RETRIES`.
    pub fn new(n: u32) -> Option<Retries>
        ensures { result ≡ (if nat_le n LAST_RETRIES then Some n else None) }
    {
        if n <= LAST_RETRIES {
            Some(Retries { number: n })
        } else {
            None
        }
    }

    /// The number that `new` took.
    pub fn get(self) -> u32
        ensures value { result ≡ self }
        ensures most { result ≤ LAST_RETRIES }
    {
        self.number
    }
}

/// The index of a shard, or the number of shards, from 0 to `LAST_SHARD`.
#[derive(Clone, Copy, PartialEq, Eq, PartialOrd, Ord)]
pub struct ShardNo {
    number: u32,
}

impl Model for ShardNo {
    ghost Value = { ℕ };

    ghost view = { λ a. a.number };

    ghost invariant = { λ a. a.number ≤ LAST_SHARD };

    ghost inverse = { λ n. record { number = n } };
}

impl ShardNo {
    /// None exactly above `LAST_SHARD`.
    pub fn new(n: u32) -> Option<ShardNo>
        ensures { result ≡ (if nat_le n LAST_SHARD then Some n else None) }
    {
        if n <= LAST_SHARD {
            Some(ShardNo { number: n })
        } else {
            None
        }
    }

    /// The number that `new` took.
    pub fn get(self) -> u32
        ensures value { result ≡ self }
        ensures most { result ≤ LAST_SHARD }
    {
        self.number
    }
}

/// The moment of a log as an executor is told it, in milliseconds, from 0 to `LAST_LOG_MOMENT`.
#[derive(Clone, Copy, PartialEq, Eq, PartialOrd, Ord)]
pub struct LogMoment {
    ms: u64,
}

impl Model for LogMoment {
    ghost Value = { ℕ };

    ghost view = { λ a. a.ms };

    ghost invariant = { λ a. a.ms ≤ LAST_LOG_MOMENT };

    ghost inverse = { λ n. record { ms = n } };
}

impl LogMoment {
    /// None exactly above `LAST_LOG_MOMENT`.
    pub fn new(n: u64) -> Option<LogMoment>
        ensures { result ≡ (if nat_le n LAST_LOG_MOMENT then Some n else None) }
    {
        if n <= LAST_LOG_MOMENT {
            Some(LogMoment { ms: n })
        } else {
            None
        }
    }

    /// The number of milliseconds.
    pub fn get(self) -> u64
        ensures value { result ≡ self }
        ensures most { result ≤ LAST_LOG_MOMENT }
    {
        self.ms
    }
}

/// The number of a run request, or of a batch, from 0 to `LAST_REQUEST`.
#[derive(Clone, Copy, PartialEq, Eq, PartialOrd, Ord)]
pub struct RequestNo {
    number: u64,
}

impl Model for RequestNo {
    ghost Value = { ℕ };

    ghost view = { λ a. a.number };

    ghost invariant = { λ a. a.number ≤ LAST_REQUEST };

    ghost inverse = { λ n. record { number = n } };
}

impl RequestNo {
    /// None exactly above `LAST_REQUEST`.
    pub fn new(n: u64) -> Option<RequestNo>
        ensures { result ≡ (if nat_le n LAST_REQUEST then Some n else None) }
    {
        if n <= LAST_REQUEST {
            Some(RequestNo { number: n })
        } else {
            None
        }
    }

    /// The number that `new` took.
    pub fn get(self) -> u64
        ensures value { result ≡ self }
        ensures most { result ≤ LAST_REQUEST }
    {
        self.number
    }
}

/// The number of a line of a log, from 0 to `LAST_LINE`.
#[derive(Clone, Copy, PartialEq, Eq, PartialOrd, Ord)]
pub struct LineNo {
    number: u32,
}

impl Model for LineNo {
    ghost Value = { ℕ };

    ghost view = { λ a. a.number };

    ghost invariant = { λ a. a.number ≤ LAST_LINE };

    ghost inverse = { λ n. record { number = n } };
}

impl LineNo {
    /// None exactly above `LAST_LINE`.
    pub fn new(n: u32) -> Option<LineNo>
        ensures { result ≡ (if nat_le n LAST_LINE then Some n else None) }
    {
        if n <= LAST_LINE {
            Some(LineNo { number: n })
        } else {
            None
        }
    }

    /// The number that `new` took.
    pub fn get(self) -> u32
        ensures value { result ≡ self }
        ensures most { result ≤ LAST_LINE }
    {
        self.number
    }
}

/// How far the civil clock is ahead of UTC, in seconds, from `-LAST_OFFSET` to `LAST_OFFSET`.
#[derive(Clone, Copy, PartialEq, Eq, PartialOrd, Ord)]
pub struct Offset {
    seconds: i32,
}

impl Model for Offset {
    ghost Value = { ℤ };

    ghost view = { λ a. a.seconds };

    ghost invariant = { λ a. (negsuc 64799 ≤ℤ a.seconds) × (a.seconds ≤ℤ LAST_OFFSET) };

    ghost inverse = { λ n. record { seconds = n } };
}

impl Offset {
    /// None exactly outside these bounds.
    pub fn new(n: i32) -> Option<Offset>
        ensures { result ≡ (if int_le (negsuc 64799) n && int_le n LAST_OFFSET then Some n else None) }
    {
        if n >= -LAST_OFFSET && n <= LAST_OFFSET {
            Some(Offset { seconds: n })
        } else {
            None
        }
    }

    /// The number of seconds.
    pub fn get(self) -> i32
        ensures value { result ≡ self }
        ensures least { negsuc 64799 ≤ℤ result }
        ensures most { result ≤ℤ LAST_OFFSET }
    {
        self.seconds
    }
}
