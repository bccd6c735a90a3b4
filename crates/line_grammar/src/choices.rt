//! One of some fixed words.
ghost use Rattle.std.specs.Prelude.{◌≡◌, MatchResult, Ok, Err};
ghost use Rattle.line_grammar.specs.Choices.{word_at};

/// The bytes behind the word, or how many are left where they differ.
pub(crate) fn behind<'a>(word: &[u8], bytes: &'a [u8]) -> Result<&'a [u8], usize>
    ensures { MatchResult result
        (λ rest. word_at word.now bytes.now ≡ Ok rest.now)
        (λ left. word_at word.now bytes.now ≡ Err left) }
{
    let mut word = word;
    let mut rest = bytes;
    while let [a, letters @ ..] = word {
        match rest {
            [] => return Err(0),
            [b, more @ ..] => {
                if a != b {
                    return Err(rest.len());
                }
                rest = more;
            }
        }
        word = letters;
    }
    Ok(rest)
}
