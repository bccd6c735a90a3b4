//! The limits of the scheduler, each once.

/// The last moment, 2099-12-31T23:59:59.999Z in milliseconds since 1970-01-01T00:00:00Z.
pub const LAST_MOMENT: u64 = 4_102_444_799_999;

/// The greatest group id, and the greatest job id.
pub const LAST_JOB_ID: u32 = 2_147_483_647;

/// The greatest log id.
pub const LAST_LOG_ID: u64 = 9_223_372_036_854_775_807;

/// The greatest edition.
pub const LAST_EDITION: u64 = 18_446_744_073_709_551_615;

/// How many admins there may be.
pub const ADMINS: usize = 64;

/// The greatest number of an admin.
pub const LAST_ADMIN: u8 = 63;

/// How many executors there may be, and how many runners an executor may have.
pub const EXECUTORS: usize = 64;

/// The greatest number of an executor, and of a runner.
pub const LAST_RUNNER: u8 = 63;

/// The greatest distance of the civil clock from UTC, in seconds.
pub const LAST_OFFSET: i32 = 64_800;

/// The greatest timeout, in seconds.
pub const LAST_SECONDS: u32 = 2_147_483_647;

/// The greatest number of retries.
pub const LAST_RETRIES: u32 = 100;

/// The greatest index of a shard, and the greatest number of shards.
pub const LAST_SHARD: u32 = 2_147_483_647;

/// The greatest moment of a log that an executor is told.
pub const LAST_LOG_MOMENT: u64 = 9_223_372_036_854_775_807;

/// The greatest number of a run request, and of a batch.
pub const LAST_REQUEST: u64 = 9_223_372_036_854_775_807;

/// The greatest line number that is asked for.
pub const LAST_LINE: u32 = 2_147_483_647;

/// The greatest number of groups.
pub const MOST_GROUPS: usize = 10_000;

/// The greatest number of jobs.
pub const MOST_JOBS: usize = 100_000;

/// The greatest number of registrations.
pub const MOST_REGISTRATIONS: usize = 65_536;

/// The greatest number of registrations of one key.
pub const MOST_OF_KEY: usize = 256;

/// The greatest number of addresses of a group.
pub const MOST_ADDRESSES: usize = 256;

/// The greatest number of children of a job.
pub const MOST_CHILDREN: usize = 64;

/// The greatest number of handlers of an executor.
pub const MOST_HANDLERS: usize = 64;

/// How many bytes the name of an application has at most.
pub const LONGEST_APP: usize = 64;

/// How many bytes an address, the name of a handler, a text of a registration and a zone have at most.
pub const LONGEST_NAME: usize = 255;

/// How many bytes the parameter of a job has at most.
pub const LONGEST_PARAM: usize = 512;

/// How many bytes the parameter of a run has at most.
pub const LONGEST_RUN_PARAM: usize = 65_536;

/// How many bytes the block rule and the glue type of a run have at most.
pub const LONGEST_RUN_WORD: usize = 64;

/// How many bytes the text of a schedule has at most where it is given.
pub const LONGEST_SCHEDULE_GIVEN: usize = 1_024;

/// How many bytes the text of a schedule has at most where it is read.
pub const LONGEST_SCHEDULE: usize = 128;

/// How many bytes the text of a result has at most.
pub const LONGEST_RESULT: usize = 15_000;

/// How many bytes a line of a run's log has at most.
pub const LONGEST_LOG_LINE: usize = 1_024;

/// How many bytes a body has at most, of HTTP and of JSON.
pub const LONGEST_BODY: usize = 1_048_576;

/// How far a start and a scan look ahead, in milliseconds.
pub const LOOK_AHEAD: u64 = 5_000;

/// A scan is a misfire where it looks later than this after the due time, in milliseconds.
pub const MISFIRE_WINDOW: u64 = 5_000;

/// How many jobs a scan takes for each thread of the pools.
pub const JOBS_PER_THREAD: u64 = 20;

/// How many slots the ring of an admin has: one for each second of a minute.
pub const SLOTS: u64 = 60;

/// How many milliseconds a second has.
pub const SECOND: u64 = 1_000;

/// How many milliseconds a minute has.
pub const MINUTE: u64 = 60_000;

/// How many logs the fast pool of an admin holds at most.
pub const FAST_LIMIT: usize = 1_000;

/// How many logs the slow pool of an admin holds at most.
pub const SLOW_LIMIT: usize = 2_000;

/// A job whose slow count is above this is slow.
pub const SLOW_ABOVE: u64 = 10;

/// A sending that took more milliseconds than this is slow.
pub const LATE_ABOVE: u64 = 500;

/// After how many milliseconds without a beat a registration is dead.
pub const DEAD_AFTER: u64 = 90_000;

/// After how many milliseconds without a result a log may be lost.
pub const LOST_AFTER: u64 = 600_000;

/// The code of success.
pub const SUCCESS: i32 = 200;

/// The code of failure: of a log that no pool had room for, of one that a stop ended, of one that was
/// lost, of a run that was killed.
pub const FAILURE: i32 = 500;

/// The code of a run that lasted too long.
pub const EXPIRED: i32 = 502;

/// How many items a batch has at most.
pub const BATCH_ITEMS: usize = 1_000;

/// How many bytes of result text a batch that is taken has at most.
pub const BATCH_BYTES: usize = 131_072;

/// How many log ids an executor holds at most.
pub const HELD_IDS: usize = 10_000;

/// How many lines of a log an executor keeps at most.
pub const LOG_LINES: usize = 10_000;

/// How many lines of a log are read at once.
pub const LINES_READ: usize = 100;
