//! The kinds of lexer errors.
ghost use Rattle.std.specs.Prelude.{◌≡◌};
ghost use Rattle.tok_lexical.specs.Errors.{kind_message, kind_number, kind_words};

/// The kind of a lexer error.
///
/// Each variant stands for one of the rules L1 to L15 that reject a text. The variants are in the
/// order of these rules.
#[derive(Clone, Copy, PartialEq, Eq, Debug)]
pub enum LexErrorKind {
    UnknownCharacter,
    UnclosedGroup,
    UnexpectedClosing,
    UnclosedComment,
    DocComment,
    MalformedQuoted,
    PrefixedString,
    FloatLiteral,
    MalformedNumber,
    MissingRawIdentifier,
    LoneApostrophe,
    DeepGroup,
    ReservedPrefix,
    BareReturn,
    ReservedGuard,
}

impl LexErrorKind {
    /// Returns the number of the rule that rejects the text, from 1 for L1 to 15 for L15.
    pub fn number(self) -> u8
        ensures { result ≡ kind_number self }
    {
        match self {
            LexErrorKind::UnknownCharacter => 1,
            LexErrorKind::UnclosedGroup => 2,
            LexErrorKind::UnexpectedClosing => 3,
            LexErrorKind::UnclosedComment => 4,
            LexErrorKind::DocComment => 5,
            LexErrorKind::MalformedQuoted => 6,
            LexErrorKind::PrefixedString => 7,
            LexErrorKind::FloatLiteral => 8,
            LexErrorKind::MalformedNumber => 9,
            LexErrorKind::MissingRawIdentifier => 10,
            LexErrorKind::LoneApostrophe => 11,
            LexErrorKind::DeepGroup => 12,
            LexErrorKind::ReservedPrefix => 13,
            LexErrorKind::BareReturn => 14,
            LexErrorKind::ReservedGuard => 15,
        }
    }

    /// Returns a short description of the rejected text, such as `unclosed comment`.
    pub fn words(self) -> &'static str
        ensures { result.now ≡ kind_words self }
    {
        match self {
            LexErrorKind::UnknownCharacter => "unknown character",
            LexErrorKind::UnclosedGroup => "unclosed group",
            LexErrorKind::UnexpectedClosing => "unexpected closing delimiter",
            LexErrorKind::UnclosedComment => "unclosed comment",
            LexErrorKind::DocComment => "doc comment",
            LexErrorKind::MalformedQuoted => "malformed string or character",
            LexErrorKind::PrefixedString => "raw, byte or C string",
            LexErrorKind::FloatLiteral => "float literal",
            LexErrorKind::MalformedNumber => "malformed number",
            LexErrorKind::MissingRawIdentifier => "raw identifier that does not exist",
            LexErrorKind::LoneApostrophe => "lone apostrophe",
            LexErrorKind::DeepGroup => "groups nested too deep",
            LexErrorKind::ReservedPrefix => "reserved prefix",
            LexErrorKind::BareReturn => "bare carriage return in a doc comment",
            LexErrorKind::ReservedGuard => "reserved guard",
        }
    }

    /// Returns a message that explains the error to the author of the text.
    pub fn message(self) -> &'static str
        ensures { result.now ≡ kind_message self }
    {
        match self {
            LexErrorKind::DocComment => "a doc comment is not allowed here",
            LexErrorKind::PrefixedString => "a raw, byte or C string is not allowed here",
            LexErrorKind::FloatLiteral => "a float is not allowed here",
            LexErrorKind::MissingRawIdentifier => "this name cannot be a raw identifier",
            LexErrorKind::LoneApostrophe => "expected a lifetime, or one character and another `'`",
            LexErrorKind::DeepGroup => "more than 256 groups are nested here",
            LexErrorKind::ReservedPrefix => "a name directly before a quote or `#` is reserved",
            LexErrorKind::ReservedGuard => "`#` directly before a quote or `#` is reserved",
            _ => self.words(),
        }
    }
}
