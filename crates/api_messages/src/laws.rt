//! What holds of every body and every message.
ghost use Rattle.api_messages.specs.Laws.{MessageExact, FaultExact, ItemExact, ItemFaultExact, CallbackExact, CallbackFaultExact, TablesInOrder, SameValues, BoundsAre};

/// Reading a body gives exactly the message that the body means member by member, and each refusal
/// is exactly the first fault. This holds of every table of members.
pub fn law_messages()
    ensures message { MessageExact }
    ensures fault { FaultExact }
{}

/// The same of callbacks, and of one item alone.
pub fn law_callbacks()
    ensures item { ItemExact }
    ensures item_fault { ItemFaultExact }
    ensures callback { CallbackExact }
    ensures fault { CallbackFaultExact }
{}

/// The tables have their members in byte order of the names.
pub fn law_tables()
    ensures { TablesInOrder }
{}

/// A message is told by the values of its rows, so that what reads back is the message that was
/// written.
pub fn law_values()
    ensures { SameValues }
{}

/// The bounds that the definitions cite, as numbers.
pub fn law_numbers()
    ensures { BoundsAre }
{}
