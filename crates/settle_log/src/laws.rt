//! What the definitions say in other words.
ghost use Rattle.std.specs.Prelude.{◌≡◌, pos};
ghost use Rattle.job_values.specs.declared.limits.TheConstants.{FAILURE, LOST_AFTER, SUCCESS};
ghost use Rattle.settle_log.specs.Laws.{SettlesOnce, MarksOnce, ChildrenOfSuccess, NotLostBefore};

/// The limits and codes that the definitions cite.
pub fn law_numbers()
    ensures lost_after { LOST_AFTER ≡ 600000 }
    ensures success { SUCCESS ≡ pos 200 }
    ensures failure { FAILURE ≡ pos 500 }
{}

/// A log is settled once.
pub fn law_settles_once()
    ensures { SettlesOnce }
{}

/// A log is marked once.
pub fn law_marks_once()
    ensures { MarksOnce }
{}

/// Children fire at success alone.
pub fn law_children()
    ensures { ChildrenOfSuccess }
{}

/// No log is lost early.
pub fn law_not_lost_before()
    ensures { NotLostBefore }
{}
