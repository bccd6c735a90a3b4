//! The laws of grammars and of words, over all of them.
ghost use Rattle.line_grammar.specs.Laws.{GrammarsAreRead, NoTextBeginsAnother, WordsHaveOneSpelling, WordsAreReadAgain};

/// Every grammar is read as it says, and reading stops where nothing that it can say goes on.
pub fn law_grammar<E>()
    ensures { GrammarsAreRead E }
{}

/// No text of a grammar begins another, and no text says two things.
pub fn law_no_text_begins_another<E>()
    ensures { NoTextBeginsAnother E }
{}

/// Each word says its value in one way.
pub fn law_one_spelling()
    ensures { WordsHaveOneSpelling }
{}

/// What is written as a word is read as it was.
pub fn law_read_again()
    ensures { WordsAreReadAgain }
{}
