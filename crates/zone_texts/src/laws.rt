//! Laws of zone texts, each the contract of a function without parameters and with an empty body.
ghost use Rattle.zone_texts.specs.Laws.{ChoicesSay, NamesSay, SequencesSay, ZonesAreParsed};

/// What is parsed is a zone text that says this zone, each zone text is parsed, and the place of a
/// fault is one past the longest prefix that begins some zone text.
pub fn law_zones_are_parsed()
    ensures { ZonesAreParsed }
{}

/// One grammar behind another says the texts of both, one behind the other.
pub fn law_sequences<V, W>()
    ensures { SequencesSay V W }
{}

/// One grammar or another, of which the first is not whole at once, says the texts of either.
pub fn law_choices<V>()
    ensures { ChoicesSay V }
{}

/// A name is three to eight letters, or three to eight letters, digits and signs between `<` and `>`.
pub fn law_names()
    ensures { NamesSay }
{}
