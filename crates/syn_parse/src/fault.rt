//! The error type of parsers, and the texts of their error messages.
ghost use Rattle.std.specs.Prelude.{◌≡◌, ◌++◌, IfOk, IfSome, MatchResult, string_bytes};
ghost use Rattle.tok_buffer.specs.Messages.{message_at};
ghost use Rattle.syn_parse.specs.Faults.{Combines, Refuses, RefusesAt};
ghost use Rattle.syn_parse.specs.ErrorWords.{delimiter_words, leftover_words};
ghost use Rattle.syn_parse.specs.declared.fault.Fault.TheVariants.{Memory, Refused};

use std::alloc::{AllocError, AllocFailed, Global};
use std::fmt::{self, Display, Formatter, Write};
use tok_buffer::Error;
use tok_core::{Delimiter, Span};

/// The error type of parsers. A parser either rejects its input or fails to allocate memory.
#[derive(Drop, Debug)]
pub enum Fault {
    /// The parser rejected its input, with the messages of this `Error`.
    Refused(Error),
    /// An allocation failed.
    Memory(AllocError),
}

/// The result type of parsers. The error type is `Fault`.
pub type Result<T> = std::result::Result<T, Fault>;

impl Fault {
    /// Creates a fault with one message at `span`.
    ///
    /// If an allocation fails, the fault is `Memory`.
    ///
    /// # Examples
    ///
    /// ```rust
    /// let fault = Fault::at(alloc, name.span(), "this name is taken");
    /// ```
    pub fn at<T: Display + Drop>(alloc: Global, span: Span, message: T) -> Fault
        ensures span { RefusesAt span result }
        ensures words { IfSome (T.output message)
            (λ words. Refuses (message_at span words) result) }
    {
        Fault::refused(Error::new(alloc, span, message))
    }

    /// Appends the messages of `another` to the messages of this fault.
    ///
    /// If one of the faults is `Memory`, or if an allocation fails in this call, this fault becomes
    /// `Memory` and the messages are dropped.
    ///
    /// # Examples
    ///
    /// ```rust
    /// let mut fault = Fault::at(alloc, Span::source(0, 2, 5), "this name is taken");
    /// fault.combine(Fault::at(alloc, Span::source(0, 0, 1), "it was defined here"));
    /// if let Fault::Refused(error) = fault {
    ///     assert_eq!(rt; error.into_iter().count(), 2);
    /// }
    /// ```
    pub fn combine(&mut self, another: Fault)
        ensures { Combines self.old another self.new }
    {
        if let Fault::Refused(error) = self {
            let outcome = match another {
                Fault::Refused(more) => error.combine(more),
                Fault::Memory(failed) => Err(failed),
            };
            if let Err(failed) = outcome {
                *self = Fault::Memory(failed);
            }
        }
    }

    // Returns the fault of an error of this text at `span`, or the allocation failure in its place.
    //
    // Unlike `at`, this calls no formatter: alternatives on forks refuse again and again.
    pub(crate) fn of_text(
        alloc: Global,
        span: Span,
        text: std::result::Result<String, AllocError>,
    ) -> Fault
        ensures { MatchResult text
            (λ t. Refuses (message_at span (string_bytes t)) result)
            (λ e. result ≡ Memory e) }
    {
        match text {
            Ok(text) => Fault::refused(Error::from_string(alloc, span, text)),
            Err(error) => Fault::Memory(error),
        }
    }

    // Returns the fault of an error, or the allocation failure in its place.
    pub(crate) fn refused(error: std::result::Result<Error, AllocError>) -> Fault
        ensures { MatchResult error (λ e. result ≡ Refused e) (λ e. result ≡ Memory e) }
    {
        match error {
            Ok(error) => Fault::Refused(error),
            Err(error) => Fault::Memory(error),
        }
    }
}

/// Writes the text of the first message. If the fault is `Memory`, writes "out of memory".
impl Display for Fault {
    ghost use Rattle.std.specs.Prelude.{Some};
    ghost use Rattle.syn_parse.specs.Faults.{fault_words};

    ghost output = { λ fault. Some (fault_words fault) };

    fn fmt<W: Write>(&self, f: &mut Formatter<W>) -> fmt::Result {
        match self {
            Fault::Refused(error) => f.write_str(error.as_str()),
            Fault::Memory(_) => f.write_str("out of memory"),
        }
    }
}

impl std::error::Error for Fault {}

impl From<Error> for Fault {
    ghost use Rattle.std.specs.Prelude.{◌≡◌};
    ghost use Rattle.syn_parse.specs.declared.fault.Fault.TheVariants.{Refused};

    ghost from_gives = { λ e f. f ≡ Refused e };

    fn from(error: Error) -> Self {
        Fault::Refused(error)
    }
}

impl From<AllocError> for Fault {
    ghost use Rattle.std.specs.Prelude.{◌≡◌};
    ghost use Rattle.syn_parse.specs.declared.fault.Fault.TheVariants.{Memory};

    ghost from_gives = { λ e f. f ≡ Memory e };

    fn from(error: AllocError) -> Self {
        Fault::Memory(error)
    }
}

/// Converts an `AllocFailed` to `Fault::Memory`, and drops the value in the `AllocFailed`.
impl<T: Drop> From<AllocFailed<T>> for Fault {
    ghost use Rattle.std.specs.Prelude.{◌≡◌, alloc_error};
    ghost use Rattle.syn_parse.specs.declared.fault.Fault.TheVariants.{Memory};

    ghost from_gives = { λ _ f. f ≡ Memory alloc_error };

    fn from(_: AllocFailed<T>) -> Self {
        Fault::Memory(AllocError)
    }
}

/// Returns two error messages about groups with the delimiter `delimiter`.
///
/// The first message says that such a group is missing. The second message says that a token in
/// such a group was left unread.
pub(crate) fn words_of(delimiter: Delimiter) -> (&'static str, &'static str)
    ensures expected { result.0.now ≡ delimiter_words delimiter }
    ensures leftover { result.1.now ≡ leftover_words delimiter }
{
    match delimiter {
        Delimiter::Parenthesis => ("expected parentheses", "unexpected token, expected `)`"),
        Delimiter::Brace => ("expected curly braces", "unexpected token, expected `}`"),
        Delimiter::Bracket => ("expected square brackets", "unexpected token, expected `]`"),
        Delimiter::None => ("expected invisible group", "unexpected token"),
    }
}

// Returns three texts in a row, written in one allocation.
//
// Inlined: where the last text is a backquote, writing it is storing one byte.
#[inline(always)]
pub(crate) fn joined(
    alloc: Global,
    front: &str,
    text: &str,
    back: &str,
) -> std::result::Result<String, AllocError>
    ensures { IfOk result (λ t. string_bytes t ≡ front.now ++ (text.now ++ back.now)) }
{
    let inside = text.len().saturating_add(back.len());
    let mut words = String::with_capacity(alloc, front.len().saturating_add(inside))?;
    words.push_str(front)?;
    words.push_str(text)?;
    words.push_str(back)?;
    Ok(words)
}
