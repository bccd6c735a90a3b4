//! What is so of the definitions themselves.
ghost use Rattle.cluster_history.specs.Entries.{EntriesInOrder};
ghost use Rattle.cluster_history.specs.Numbers.{TheNumbers};
ghost use Rattle.cluster_history.specs.Records.{OpeningsAreKept};
ghost use Rattle.cluster_history.specs.Runs.{RunsAreLegal};

/// Each limit that the definitions cite, as its number.
pub fn law_numbers()
    ensures { TheNumbers }
{}

/// After an opening and no entry the rows are those of the opening.
pub fn law_opening()
    ensures { OpeningsAreKept }
{}

/// A run of events of admins that there are goes on as a legal history.
pub fn law_runs()
    ensures { RunsAreLegal }
{}

/// Entries stand one behind another, each at its place.
pub fn law_entries()
    ensures { EntriesInOrder }
{}
