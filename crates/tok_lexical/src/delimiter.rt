//! The delimiters of groups.
ghost use Rattle.std.specs.Prelude.{◌≡◌};
ghost use Rattle.tok_lexical.specs.Delimiters.{opening, closing};

/// Describes how a group is delimited: with `( .. )`, `{ .. }` or `[ .. ]`, or invisibly.
#[derive(Clone, Copy, PartialEq, Eq, Debug)]
pub enum Delimiter {
    Parenthesis,
    Brace,
    Bracket,
    /// An invisible delimiter, which may, for example, enclose the tokens of a macro variable such
    /// as `$e:expr`.
    None,
}

impl Delimiter {
    /// Returns the opening delimiter as text, such as `(`. For `Delimiter::None`, the text is `«`.
    pub fn opening(self) -> &'static str
        ensures { result.now ≡ opening self }
    {
        match self {
            Delimiter::Parenthesis => "(",
            Delimiter::Brace => "{",
            Delimiter::Bracket => "[",
            Delimiter::None => "«",
        }
    }

    /// Returns the closing delimiter as text, such as `)`. For `Delimiter::None`, the text is `»`.
    pub fn closing(self) -> &'static str
        ensures { result.now ≡ closing self }
    {
        match self {
            Delimiter::Parenthesis => ")",
            Delimiter::Brace => "}",
            Delimiter::Bracket => "]",
            Delimiter::None => "»",
        }
    }
}
