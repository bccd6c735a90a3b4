//! What holds of all words, and the numbers that the options cite.
ghost use Rattle.option_words.specs.Laws.{PlainWordsAreTaken, LimitsAre};
ghost use Rattle.option_words.specs.Programs.{admin_app, admin_options, executor_app, executor_options};

/// `xxl_admin` takes words of the plain form, and reads from them what they say.
pub fn law_admin_words()
    ensures { PlainWordsAreTaken admin_app admin_options }
{}

/// `xxl_executor` takes words of the plain form, and reads from them what they say.
pub fn law_executor_words()
    ensures { PlainWordsAreTaken executor_app executor_options }
{}

/// The limits as numbers.
pub fn law_numbers()
    ensures { LimitsAre }
{}
