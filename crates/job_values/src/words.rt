//! The enums of words, each with its text in lines, messages and tables.
ghost use Rattle.std.specs.Prelude.{◌≡◌, IfSome};
ghost use Rattle.job_values.specs.declared.words.ScheduleKind.{ScheduleKind};
ghost use Rattle.job_values.specs.declared.words.Misfire.{Misfire};
ghost use Rattle.job_values.specs.declared.words.Route.{Route};
ghost use Rattle.job_values.specs.declared.words.Block.{Block};
ghost use Rattle.job_values.specs.declared.words.TriggerKind.{TriggerKind};
ghost use Rattle.job_values.specs.declared.words.PoolKind.{PoolKind};
ghost use Rattle.job_values.specs.declared.words.GroupKind.{GroupKind};
ghost use Rattle.job_values.specs.declared.words.Case.{Case};
ghost use Rattle.job_values.specs.declared.words.PoolAnswer.{PoolAnswer};
ghost use Rattle.job_values.specs.Words.{schedule_kind_text, misfire_text, route_text, block_text, trigger_kind_text, pool_kind_text, group_kind_text, case_text, pool_answer_text};

/// How a job's due times are given.
#[derive(Clone, Copy, PartialEq, Eq)]
pub enum ScheduleKind {
    /// No due time: the job fires by hand, as a child or as a retry.
    Never,
    /// A cron text.
    Cron,
    /// A number of seconds between due times.
    FixRate,
}

impl ScheduleKind {
    /// None exactly where no schedule kind has this text.
    pub fn of_text(text: &str) -> Option<ScheduleKind>
        ensures found { IfSome result (λ v. schedule_kind_text v ≡ text.now) }
        ensures only { (v : ScheduleKind) → schedule_kind_text v ≡ text.now → result ≡ Some v }
    {
        match text {
            "NONE" => Some(ScheduleKind::Never),
            "CRON" => Some(ScheduleKind::Cron),
            "FIX_RATE" => Some(ScheduleKind::FixRate),
            _ => None,
        }
    }

    /// Its text.
    pub fn text(self) -> &'static str
        ensures { result.now ≡ schedule_kind_text self }
    {
        match self {
            ScheduleKind::Never => "NONE",
            ScheduleKind::Cron => "CRON",
            ScheduleKind::FixRate => "FIX_RATE",
        }
    }
}

/// What a scan does with a due time that lies more than the misfire window back.
#[derive(Clone, Copy, PartialEq, Eq)]
pub enum Misfire {
    DoNothing,
    FireOnceNow,
}

impl Misfire {
    /// None exactly where no misfire rule has this text.
    pub fn of_text(text: &str) -> Option<Misfire>
        ensures found { IfSome result (λ v. misfire_text v ≡ text.now) }
        ensures only { (v : Misfire) → misfire_text v ≡ text.now → result ≡ Some v }
    {
        match text {
            "DO_NOTHING" => Some(Misfire::DoNothing),
            "FIRE_ONCE_NOW" => Some(Misfire::FireOnceNow),
            _ => None,
        }
    }

    /// Its text.
    pub fn text(self) -> &'static str
        ensures { result.now ≡ misfire_text self }
    {
        match self {
            Misfire::DoNothing => "DO_NOTHING",
            Misfire::FireOnceNow => "FIRE_ONCE_NOW",
        }
    }
}

/// How the address of a run is chosen.
#[derive(Clone, Copy, PartialEq, Eq)]
pub enum Route {
    First,
    Last,
    Round,
    Random,
    ConsistentHash,
    LeastFrequentlyUsed,
    LeastRecentlyUsed,
    Failover,
    Busyover,
    ShardingBroadcast,
}

impl Route {
    /// None exactly where no route has this text.
    pub fn of_text(text: &str) -> Option<Route>
        ensures found { IfSome result (λ v. route_text v ≡ text.now) }
        ensures only { (v : Route) → route_text v ≡ text.now → result ≡ Some v }
    {
        match text {
            "FIRST" => Some(Route::First),
            "LAST" => Some(Route::Last),
            "ROUND" => Some(Route::Round),
            "RANDOM" => Some(Route::Random),
            "CONSISTENT_HASH" => Some(Route::ConsistentHash),
            "LEAST_FREQUENTLY_USED" => Some(Route::LeastFrequentlyUsed),
            "LEAST_RECENTLY_USED" => Some(Route::LeastRecentlyUsed),
            "FAILOVER" => Some(Route::Failover),
            "BUSYOVER" => Some(Route::Busyover),
            "SHARDING_BROADCAST" => Some(Route::ShardingBroadcast),
            _ => None,
        }
    }

    /// Its text.
    pub fn text(self) -> &'static str
        ensures { result.now ≡ route_text self }
    {
        match self {
            Route::First => "FIRST",
            Route::Last => "LAST",
            Route::Round => "ROUND",
            Route::Random => "RANDOM",
            Route::ConsistentHash => "CONSISTENT_HASH",
            Route::LeastFrequentlyUsed => "LEAST_FREQUENTLY_USED",
            Route::LeastRecentlyUsed => "LEAST_RECENTLY_USED",
            Route::Failover => "FAILOVER",
            Route::Busyover => "BUSYOVER",
            Route::ShardingBroadcast => "SHARDING_BROADCAST",
        }
    }
}

/// What an executor does with a run of a job that runs or has a queue.
#[derive(Clone, Copy, PartialEq, Eq)]
pub enum Block {
    SerialExecution,
    DiscardLater,
    CoverEarly,
}

impl Block {
    /// None exactly where no block rule has this text.
    pub fn of_text(text: &str) -> Option<Block>
        ensures found { IfSome result (λ v. block_text v ≡ text.now) }
        ensures only { (v : Block) → block_text v ≡ text.now → result ≡ Some v }
    {
        match text {
            "SERIAL_EXECUTION" => Some(Block::SerialExecution),
            "DISCARD_LATER" => Some(Block::DiscardLater),
            "COVER_EARLY" => Some(Block::CoverEarly),
            _ => None,
        }
    }

    /// Its text.
    pub fn text(self) -> &'static str
        ensures { result.now ≡ block_text self }
    {
        match self {
            Block::SerialExecution => "SERIAL_EXECUTION",
            Block::DiscardLater => "DISCARD_LATER",
            Block::CoverEarly => "COVER_EARLY",
        }
    }
}

/// Why a log was opened.
#[derive(Clone, Copy, PartialEq, Eq)]
pub enum TriggerKind {
    /// A late look, or a ticket of the ring.
    Cron,
    /// A misfire that fires once now.
    Misfire,
    Manual,
    Retry,
    /// A parent's log was settled with success.
    Parent,
}

impl TriggerKind {
    /// None exactly where no trigger kind has this text.
    pub fn of_text(text: &str) -> Option<TriggerKind>
        ensures found { IfSome result (λ v. trigger_kind_text v ≡ text.now) }
        ensures only { (v : TriggerKind) → trigger_kind_text v ≡ text.now → result ≡ Some v }
    {
        match text {
            "CRON" => Some(TriggerKind::Cron),
            "MISFIRE" => Some(TriggerKind::Misfire),
            "MANUAL" => Some(TriggerKind::Manual),
            "RETRY" => Some(TriggerKind::Retry),
            "PARENT" => Some(TriggerKind::Parent),
            _ => None,
        }
    }

    /// Its text.
    pub fn text(self) -> &'static str
        ensures { result.now ≡ trigger_kind_text self }
    {
        match self {
            TriggerKind::Cron => "CRON",
            TriggerKind::Misfire => "MISFIRE",
            TriggerKind::Manual => "MANUAL",
            TriggerKind::Retry => "RETRY",
            TriggerKind::Parent => "PARENT",
        }
    }
}

/// The two pools of an admin.
#[derive(Clone, Copy, PartialEq, Eq)]
pub enum PoolKind {
    Fast,
    Slow,
}

impl PoolKind {
    /// None exactly where no pool has this text.
    pub fn of_text(text: &str) -> Option<PoolKind>
        ensures found { IfSome result (λ v. pool_kind_text v ≡ text.now) }
        ensures only { (v : PoolKind) → pool_kind_text v ≡ text.now → result ≡ Some v }
    {
        match text {
            "fast" => Some(PoolKind::Fast),
            "slow" => Some(PoolKind::Slow),
            _ => None,
        }
    }

    /// Its text.
    pub fn text(self) -> &'static str
        ensures { result.now ≡ pool_kind_text self }
    {
        match self {
            PoolKind::Fast => "fast",
            PoolKind::Slow => "slow",
        }
    }
}

/// Who writes a group's address list.
#[derive(Clone, Copy, PartialEq, Eq)]
pub enum GroupKind {
    /// The sweep, from the registry.
    Auto,
    /// The user.
    Manual,
}

impl GroupKind {
    /// None exactly where no group kind has this text.
    pub fn of_text(text: &str) -> Option<GroupKind>
        ensures found { IfSome result (λ v. group_kind_text v ≡ text.now) }
        ensures only { (v : GroupKind) → group_kind_text v ≡ text.now → result ≡ Some v }
    {
        match text {
            "auto" => Some(GroupKind::Auto),
            "manual" => Some(GroupKind::Manual),
            _ => None,
        }
    }

    /// Its text.
    pub fn text(self) -> &'static str
        ensures { result.now ≡ group_kind_text self }
    {
        match self {
            GroupKind::Auto => "auto",
            GroupKind::Manual => "manual",
        }
    }
}

/// What a look at a due time finds.
#[derive(Clone, Copy, Debug, PartialEq, Eq)]
pub enum Case {
    /// The due time lies more than the misfire window back.
    Misfire,
    /// The due time lies back, within the window.
    Late,
    /// The due time is now or to come.
    Early,
}

impl Case {
    /// None exactly where no case has this text.
    pub fn of_text(text: &str) -> Option<Case>
        ensures found { IfSome result (λ v. case_text v ≡ text.now) }
        ensures only { (v : Case) → case_text v ≡ text.now → result ≡ Some v }
    {
        match text {
            "misfire" => Some(Case::Misfire),
            "late" => Some(Case::Late),
            "early" => Some(Case::Early),
            _ => None,
        }
    }

    /// Its text.
    pub fn text(self) -> &'static str
        ensures { result.now ≡ case_text self }
    {
        match self {
            Case::Misfire => "misfire",
            Case::Late => "late",
            Case::Early => "early",
        }
    }
}

/// Where a log was put when it was opened.
#[derive(Clone, Copy, Debug, PartialEq, Eq)]
pub enum PoolAnswer {
    Fast,
    Slow,
    /// In no pool: it is open with trigger code 500.
    Full,
}

impl PoolAnswer {
    /// None exactly where no pool answer has this text.
    pub fn of_text(text: &str) -> Option<PoolAnswer>
        ensures found { IfSome result (λ v. pool_answer_text v ≡ text.now) }
        ensures only { (v : PoolAnswer) → pool_answer_text v ≡ text.now → result ≡ Some v }
    {
        match text {
            "fast" => Some(PoolAnswer::Fast),
            "slow" => Some(PoolAnswer::Slow),
            "full" => Some(PoolAnswer::Full),
            _ => None,
        }
    }

    /// Its text.
    pub fn text(self) -> &'static str
        ensures { result.now ≡ pool_answer_text self }
    {
        match self {
            PoolAnswer::Fast => "fast",
            PoolAnswer::Slow => "slow",
            PoolAnswer::Full => "full",
        }
    }
}
