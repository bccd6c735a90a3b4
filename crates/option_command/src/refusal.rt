//! Why words give no options.

use clap::Error;

/// Why words give no options.
#[derive(Drop)]
pub enum WordsRefusal {
    /// `clap` refuses them; the error has its text.
    Words(Error),
    /// `clap` takes them, and the text of an option has not the form that the option asks for.
    Form,
    /// Memory ran out.
    Memory,
}
