//! The byte behind a word.
ghost use Rattle.std.specs.Prelude.{◌≡◌};
ghost use Rattle.line_grammar.specs.Ends.{end_byte};

/// What stands behind a word: the space before the next word, or the LF that ends the line.
#[derive(Clone, Copy, PartialEq, Eq)]
pub enum End {
    Space,
    Line,
}

impl End {
    /// Its byte.
    pub fn byte(self) -> u8
        ensures { result ≡ end_byte self }
    {
        match self {
            End::Space => b' ',
            End::Line => b'\n',
        }
    }
}
