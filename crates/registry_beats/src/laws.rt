//! What the definitions say in other words.
ghost use Rattle.std.specs.Prelude.{◌≡◌};
ghost use Rattle.job_values.specs.declared.limits.TheConstants.{DEAD_AFTER, MOST_OF_KEY, MOST_REGISTRATIONS};
ghost use Rattle.registry_beats.specs.Laws.{LivesNinetySeconds, SweepsToLists, KeepsManual};

/// The limits that the definitions cite.
pub fn law_numbers()
    ensures dead_after { DEAD_AFTER ≡ 90000 }
    ensures of_key { MOST_OF_KEY ≡ 256 }
    ensures registrations { MOST_REGISTRATIONS ≡ 65536 }
{}

/// When a registration is dead.
pub fn law_dead()
    ensures { LivesNinetySeconds }
{}

/// What the list of an automatic group is.
pub fn law_lists()
    ensures { SweepsToLists }
{}

/// Manual groups keep their lists.
pub fn law_manual()
    ensures { KeepsManual }
{}
