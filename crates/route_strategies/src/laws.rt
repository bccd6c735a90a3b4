//! What the definitions say in other words.
ghost use Rattle.std.specs.Prelude.{◌≡◌};
ghost use Rattle.route_strategies.specs.declared.hash.TheConstants.{NODES};
ghost use Rattle.route_strategies.specs.Laws.{ChosenIsChoice};

/// The limit that the definitions cite.
pub fn law_numbers()
    ensures { NODES ≡ 100 }
{}

/// What each route chooses, in the words of the routes.
pub fn law_chosen()
    ensures { ChosenIsChoice }
{}
