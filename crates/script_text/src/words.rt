//! The words of lines, read as the types that they stand for.
ghost use Rattle.job_values.specs.declared.limits.TheConstants.{LAST_ADMIN, LAST_MOMENT, LAST_LOG_ID, LAST_LOG_MOMENT, LAST_JOB_ID, LAST_SECONDS, LAST_RETRIES};
ghost use Rattle.script_text.specs.declared.limits.TheConstants.{LAST_WORD};
ghost use Rattle.std.specs.Prelude.{◌≡◌, [], ◌∷◌, codes};
ghost use Rattle.line_grammar.specs.Reading.{Takes};
ghost use Rattle.line_grammar.specs.Numbers.{number_at};
ghost use Rattle.line_grammar.specs.Choices.{words_at};
ghost use Rattle.line_grammar.specs.Dashes.{number_form};
ghost use Rattle.script_text.specs.Words.{pool_kind_at, group_kind_at, schedule_kind_at, misfire_at, route_at, route_words, block_at};

use crate::limits::LAST_WORD;
use job_values::limits::{
    LAST_ADMIN, LAST_JOB_ID, LAST_LOG_ID, LAST_LOG_MOMENT, LAST_MOMENT, LAST_RETRIES, LAST_SECONDS,
};
use job_values::{
    AdminNo, Block, GroupId, GroupKind, JobId, LogId, LogMoment, Misfire, Moment, PoolKind,
    Retries, Route, ScheduleKind, Timeout,
};
use line_grammar::{End, NumberForm, ReadError, Reader};

fn form(least: u64, greatest: u64, end: End) -> NumberForm
    ensures { result ≡ number_form least greatest end }
{
    NumberForm {
        least,
        greatest,
        behind_zero: end,
        behind: end,
    }
}

/// A moment.
pub(crate) fn moment(reader: &mut Reader, end: End) -> Result<Moment, ReadError>
    ensures { Takes (λ t. t) result reader.new.rest.now (number_at (number_form 0 LAST_MOMENT end) reader.old.rest.now) }
{
    let ms = reader.number(form(0, LAST_MOMENT, end))?;
    match Moment::new(ms) {
        Some(at) => Ok(at),
        None => unreachable!(),
    }
}

/// The id of a group.
pub(crate) fn group(reader: &mut Reader, end: End) -> Result<GroupId, ReadError>
    ensures { Takes (λ t. t) result reader.new.rest.now (number_at (number_form 1 LAST_JOB_ID end) reader.old.rest.now) }
{
    let number = reader.number(form(1, u64::from(LAST_JOB_ID), end))?;
    match GroupId::new(number as u32) {
        Some(id) => Ok(id),
        None => unreachable!(),
    }
}

/// The id of a job.
pub(crate) fn job(reader: &mut Reader, end: End) -> Result<JobId, ReadError>
    ensures { Takes (λ t. t) result reader.new.rest.now (number_at (number_form 1 LAST_JOB_ID end) reader.old.rest.now) }
{
    let number = reader.number(form(1, u64::from(LAST_JOB_ID), end))?;
    match JobId::new(number as u32) {
        Some(id) => Ok(id),
        None => unreachable!(),
    }
}

/// The seconds after which a run is stopped, or 0.
pub(crate) fn timeout(reader: &mut Reader, end: End) -> Result<Timeout, ReadError>
    ensures { Takes (λ t. t) result reader.new.rest.now (number_at (number_form 0 LAST_SECONDS end) reader.old.rest.now) }
{
    let number = reader.number(form(0, u64::from(LAST_SECONDS), end))?;
    match Timeout::new(number as u32) {
        Some(seconds) => Ok(seconds),
        None => unreachable!(),
    }
}

/// How often a failed run is tried again.
pub(crate) fn retries(reader: &mut Reader, end: End) -> Result<Retries, ReadError>
    ensures { Takes (λ t. t) result reader.new.rest.now (number_at (number_form 0 LAST_RETRIES end) reader.old.rest.now) }
{
    let number = reader.number(form(0, u64::from(LAST_RETRIES), end))?;
    match Retries::new(number as u32) {
        Some(count) => Ok(count),
        None => unreachable!(),
    }
}

/// The number of an admin.
pub(crate) fn admin(reader: &mut Reader, end: End) -> Result<AdminNo, ReadError>
    ensures { Takes (λ t. t) result reader.new.rest.now (number_at (number_form 0 LAST_ADMIN end) reader.old.rest.now) }
{
    let number = reader.number(form(0, u64::from(LAST_ADMIN), end))?;
    match AdminNo::new(number as u8) {
        Some(admin) => Ok(admin),
        None => unreachable!(),
    }
}

/// The id of a log.
pub(crate) fn log(reader: &mut Reader, end: End) -> Result<LogId, ReadError>
    ensures { Takes (λ t. t) result reader.new.rest.now (number_at (number_form 1 LAST_LOG_ID end) reader.old.rest.now) }
{
    let number = reader.number(form(1, LAST_LOG_ID, end))?;
    match LogId::new(number) {
        Some(id) => Ok(id),
        None => unreachable!(),
    }
}

/// The moment of a log as its executor was told it.
pub(crate) fn log_moment(reader: &mut Reader, end: End) -> Result<LogMoment, ReadError>
    ensures { Takes (λ t. t) result reader.new.rest.now (number_at (number_form 0 LAST_LOG_MOMENT end) reader.old.rest.now) }
{
    let ms = reader.number(form(0, LAST_LOG_MOMENT, end))?;
    match LogMoment::new(ms) {
        Some(at) => Ok(at),
        None => unreachable!(),
    }
}

/// A word for a random choice.
pub(crate) fn choice_word(reader: &mut Reader, end: End) -> Result<u64, ReadError>
    ensures { Takes (λ t. t) result reader.new.rest.now (number_at (number_form 0 LAST_WORD end) reader.old.rest.now) }
{
    reader.number(form(0, LAST_WORD, end))
}

/// Which word of a pool.
pub(crate) fn pool_kind_word(reader: &mut Reader) -> Result<usize, ReadError>
    ensures { Takes (λ i. i) result reader.new.rest.now (words_at (codes "fast " ∷ codes "slow " ∷ []) reader.old.rest.now) }
{
    reader.choice(&["fast ", "slow "])
}

/// The pool of a word.
pub(crate) fn pool_kind(word: usize) -> PoolKind
    ensures { result ≡ pool_kind_at word }
{
    match word {
        0 => PoolKind::Fast,
        _ => PoolKind::Slow,
    }
}

/// Which word of a group kind.
pub(crate) fn group_kind_word(reader: &mut Reader) -> Result<usize, ReadError>
    ensures { Takes (λ i. i) result reader.new.rest.now (words_at (codes "auto " ∷ codes "manual " ∷ []) reader.old.rest.now) }
{
    reader.choice(&["auto ", "manual "])
}

/// The group kind of a word.
pub(crate) fn group_kind(word: usize) -> GroupKind
    ensures { result ≡ group_kind_at word }
{
    match word {
        0 => GroupKind::Auto,
        _ => GroupKind::Manual,
    }
}

/// Which word of a schedule kind.
pub(crate) fn schedule_kind_word(reader: &mut Reader) -> Result<usize, ReadError>
    ensures { Takes (λ i. i) result reader.new.rest.now (words_at (codes "NONE " ∷ codes "CRON " ∷ codes "FIX_RATE " ∷ []) reader.old.rest.now) }
{
    reader.choice(&["NONE ", "CRON ", "FIX_RATE "])
}

/// The schedule kind of a word.
pub(crate) fn schedule_kind(word: usize) -> ScheduleKind
    ensures { result ≡ schedule_kind_at word }
{
    match word {
        0 => ScheduleKind::Never,
        1 => ScheduleKind::Cron,
        _ => ScheduleKind::FixRate,
    }
}

/// Which word of a misfire rule.
pub(crate) fn misfire_word(reader: &mut Reader) -> Result<usize, ReadError>
    ensures { Takes (λ i. i) result reader.new.rest.now (words_at (codes "DO_NOTHING " ∷ codes "FIRE_ONCE_NOW " ∷ []) reader.old.rest.now) }
{
    reader.choice(&["DO_NOTHING ", "FIRE_ONCE_NOW "])
}

/// The misfire rule of a word.
pub(crate) fn misfire(word: usize) -> Misfire
    ensures { result ≡ misfire_at word }
{
    match word {
        0 => Misfire::DoNothing,
        _ => Misfire::FireOnceNow,
    }
}

/// Which word of a route.
pub(crate) fn route_word(reader: &mut Reader) -> Result<usize, ReadError>
    ensures { Takes (λ i. i) result reader.new.rest.now (words_at (codes "FIRST " ∷ route_words) reader.old.rest.now) }
{
    reader.choice(&[
        "FIRST ",
        "LAST ",
        "ROUND ",
        "RANDOM ",
        "CONSISTENT_HASH ",
        "LEAST_FREQUENTLY_USED ",
        "LEAST_RECENTLY_USED ",
        "FAILOVER ",
        "BUSYOVER ",
        "SHARDING_BROADCAST ",
    ])
}

/// The route of a word.
pub(crate) fn route(word: usize) -> Route
    ensures { result ≡ route_at word }
{
    match word {
        0 => Route::First,
        1 => Route::Last,
        2 => Route::Round,
        3 => Route::Random,
        4 => Route::ConsistentHash,
        5 => Route::LeastFrequentlyUsed,
        6 => Route::LeastRecentlyUsed,
        7 => Route::Failover,
        8 => Route::Busyover,
        _ => Route::ShardingBroadcast,
    }
}

/// Which word of a block rule.
pub(crate) fn block_word(reader: &mut Reader) -> Result<usize, ReadError>
    ensures { Takes (λ i. i) result reader.new.rest.now
        (words_at (codes "SERIAL_EXECUTION " ∷ codes "DISCARD_LATER " ∷ codes "COVER_EARLY " ∷ []) reader.old.rest.now) }
{
    reader.choice(&["SERIAL_EXECUTION ", "DISCARD_LATER ", "COVER_EARLY "])
}

/// The block rule of a word.
pub(crate) fn block(word: usize) -> Block
    ensures { result ≡ block_at word }
{
    match word {
        0 => Block::SerialExecution,
        1 => Block::DiscardLater,
        _ => Block::CoverEarly,
    }
}
