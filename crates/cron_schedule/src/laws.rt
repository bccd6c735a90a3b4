//! Laws of due times, each the contract of a function without parameters and with an empty body.
ghost use Rattle.std.specs.Prelude.{◌≡◌};
ghost use Rattle.job_values.specs.declared.limits.TheConstants.{LAST_MOMENT, LONGEST_SCHEDULE};
ghost use Rattle.cron_schedule.specs.After.{TimesRise};
ghost use Rattle.cron_schedule.specs.Grammar.{ReaderIsGrammar};
ghost use Rattle.cron_schedule.specs.PlanDue.{TimeIsLeast, LeastIsTime, OneOffset};
ghost use Rattle.cron_schedule.specs.Zones.{RuleDays};

/// The limits that the definitions cite.
pub fn law_numbers()
    ensures last_moment { LAST_MOMENT ≡ 4_102_444_799_999 }
    ensures longest_schedule { LONGEST_SCHEDULE ≡ 128 }
{}

/// A time after a moment is later than it, and not above the last moment.
pub fn law_after_rises()
    ensures { TimesRise }
{}

/// The time after a moment, under a cron text, is the least moment after it that is due.
pub fn law_time_is_least()
    ensures { TimeIsLeast }
{}

/// What is the least moment after a moment that is due is the time after it.
pub fn law_least_is_time()
    ensures { LeastIsTime }
{}

/// What is read as an item of a field is what the grammar of items gives, and nothing else.
pub fn law_reader_is_grammar()
    ensures { ReaderIsGrammar }
{}

/// In a zone of one offset the time after a moment is that of a clock so far ahead of UTC.
pub fn law_one_offset()
    ensures { OneOffset }
{}

/// The day of a rule is the day of its month with its weekday in its week, and there is no other.
pub fn law_rule_days()
    ensures { RuleDays }
{}
