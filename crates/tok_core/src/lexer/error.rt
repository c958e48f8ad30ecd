//! The errors of the lexer.
ghost use Rattle.std.specs.Prelude.{◌≡◌, ◌≤◌, ◌+◌, ◌++◌, IfSome, List, MatchOption, Some, length, ℕ};
ghost use Rattle.std.specs.Str.{chars, IsUtf8};
ghost use Rattle.tok_lexical.specs.Widths.{bytes};
ghost use Rattle.tok_core.specs.Lexical.Errors.{Explains, IsQuotedFaultAt, IsFaultOfError, error_number, error_byte, error_span, error_words, lex_fault_words};
ghost use Rattle.tok_core.specs.Private.Halted.{fault_of};

use std::alloc::AllocError;
use std::fmt;
use std::fmt::{Formatter, Write};
use tok_leaves::Span;
use tok_lexical::{LexErrorKind, QuotedFault, quoted_fault};

/// The reason why the lexer rejects a text, and the byte at which it rejects the text.
///
/// The reason is one of the rules L1 to L15 of the grammar.
///
/// # Examples
///
/// ```rust
/// if let Err(LexFault::Refused(error)) = lex(alloc, 0, "(a") {
///     assert_eq!(rt; (error.number(), error.at()), (2, 0));
/// }
/// ```
#[derive(Clone, Copy, PartialEq, Eq, Debug)]
pub struct LexError {
    kind: LexErrorKind,
    source: u32,
    at: usize,
}

impl LexError {
    pub(crate) fn new(kind: LexErrorKind, source: u32, at: usize) -> LexError
        ensures { result ≡ record { kind = kind; source = source; at = at } }
    {
        LexError { kind, source, at }
    }

    /// Returns the number of the rule that rejects the text, from 1 for L1 to 15 for L15.
    pub fn number(&self) -> u8
        ensures { result ≡ error_number self.now }
    {
        self.kind.number()
    }

    /// Returns the position of the first byte of the rejected token, comment or group.
    pub fn at(&self) -> usize
        ensures { result ≡ error_byte self.now }
    {
        self.at
    }

    /// Returns an empty span at the start of the rejected token, comment or group.
    pub fn span(&self) -> Span
        ensures { result ≡ error_span self.now }
    {
        Span::source(self.source, self.at, self.at)
    }

    /// Returns the span at which to show the error in `text`, and a description of the error.
    ///
    /// `text` must be the whole text that was lexed. For an invalid escape, the span is at the
    /// backslash. For an invalid part of a character literal, the span is at that part. For any
    /// other error, the span is the one that `span` returns. The description says what is wrong,
    /// whereas `Display` names the rejected text.
    ///
    /// For an error of `lex_marked`, use its `span` and its `Display` text instead, because the
    /// span does not count the bytes of `«` and `»`.
    ///
    /// # Examples
    ///
    /// ```rust
    /// let text = "name: \"a\\q\"";
    /// if let Err(LexFault::Refused(error)) = lex(alloc, 0, text) {
    ///     let (span, words) = error.explain(text);
    ///     assert!(rt; span == Span::source(0, 8, 8));
    ///     assert_eq!(rt; words, "unknown escape");
    /// }
    /// ```
    pub fn explain(&self, text: &str) -> (Span, &'static str)
        ensures { Explains (chars text.now) self.now (result.0, result.1.now) }
    {
        match self.quoted_fault(text) {
            Some((fault, after)) => {
                let at = self.at + after;
                (Span::source(self.source, at, at), fault.words())
            }
            None => (self.span(), self.kind.message()),
        }
    }

    // Returns what is wrong with the quoted literal that is rejected, and how many bytes after its
    // start.
    fn quoted_fault(&self, text: &str) -> Option<(QuotedFault, usize)>
        ensures within { IfSome result (λ found. self.now.at + found.1 ≤ length text.now) }
        ensures is { IsFaultOfError (chars text.now) self.now result }
    {
        match self.kind {
            LexErrorKind::MalformedQuoted => fault_at(text, self.at),
            _ => None,
        }
    }
}

// Returns what is wrong with the quoted literal at this byte, if a character begins there.
fn fault_at(text: &str, at: usize) -> Option<(QuotedFault, usize)>
    ensures within { IfSome result (λ found. at + found.1 ≤ length text.now) }
    ensures is { IsQuotedFaultAt (chars text.now) at result }
{
    match from_byte(text, at) {
        Some(literal) => quoted_fault(literal),
        None => None,
    }
}

// Returns the text from this byte on, or `None` if no character begins there.
fn from_byte(text: &str, at: usize) -> Option<&str>
    ensures cut { MatchOption result
        ((front rest : List ℕ) → chars text.now ≡ front ++ rest → bytes front ≡ at → ⊥)
        (λ after. (front : List ℕ) × (chars text.now ≡ front ++ chars after.now)
        × (bytes front ≡ at)) }
    ensures within { IfSome result (λ after. at + length after.now ≡ length text.now) }
    ensures utf8 { IfSome result (λ after. IsUtf8 after.now) }
{
    let (_, after) = text.split_at_checked(at)?;
    Some(after)
}

impl fmt::Display for LexError {
    ghost output = { λ error. Some (error_words error) };

    fn fmt<W: Write>(&self, f: &mut Formatter<W>) -> fmt::Result {
        f.write_str(self.kind.words())
    }
}

impl std::error::Error for LexError {}

/// An error that the lexer can return.
#[derive(Clone, Copy, PartialEq, Eq, Debug)]
pub enum LexFault {
    /// The grammar rejects the text.
    Refused(LexError),
    /// An allocation failed.
    Memory,
}

impl From<AllocError> for LexFault {
    ghost use Rattle.tok_core.specs.declared.lexer.error.LexFault.TheVariants.{Memory};

    ghost from_gives = { λ _ fault. fault ≡ Memory };

    fn from(_: AllocError) -> Self {
        LexFault::Memory
    }
}

impl From<LexError> for LexFault {
    ghost use Rattle.tok_core.specs.declared.lexer.error.LexFault.TheVariants.{Refused};

    ghost from_gives = { λ error fault. fault ≡ Refused error };

    fn from(error: LexError) -> Self {
        LexFault::Refused(error)
    }
}

/// Writes a description of the error.
impl fmt::Display for LexFault {
    ghost output = { λ fault. Some (lex_fault_words fault) };

    fn fmt<W: Write>(&self, f: &mut Formatter<W>) -> fmt::Result {
        match self {
            LexFault::Refused(error) => write!(f, "{error}"),
            LexFault::Memory => f.write_str("out of memory"),
        }
    }
}

impl std::error::Error for LexFault {}

/// The reason why the lexer stops: the grammar rejects a token or a comment, or an allocation
/// failed.
// Smaller than a `LexFault`: the loop over pieces would move one for each piece.
#[derive(Clone, Copy, PartialEq, Eq, Debug)]
pub enum Halt {
    Refused(LexErrorKind),
    Memory,
}

impl Halt {
    /// Converts the reason into an error at byte `at` of source number `source`.
    pub fn fault(self, source: u32, at: usize) -> LexFault
        ensures { result ≡ fault_of source at self }
    {
        match self {
            Halt::Refused(kind) => LexFault::Refused(LexError::new(kind, source, at)),
            Halt::Memory => LexFault::Memory,
        }
    }
}

impl From<AllocError> for Halt {
    ghost use Rattle.tok_core.specs.declared.lexer.error.Halt.TheVariants.{Memory};

    ghost from_gives = { λ _ halt. halt ≡ Memory };

    fn from(_: AllocError) -> Self {
        Self::Memory
    }
}
