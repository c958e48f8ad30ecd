//! The type `Error`, which holds a list of messages about rejected input.
mod compile_error;
mod iter;

ghost use Rattle.std.specs.Prelude.{◌≡◌, [], ◌∷◌, ◌++◌, IfOk};
ghost use Rattle.tok_core.specs.Seen.{trees_of};
ghost use Rattle.tok_buffer.specs.Spans.{spanned};

use crate::cursor::Cursor;
pub use iter::{IntoIter, Iter};
use std::alloc::{AllocError, Global};
use std::fmt;
use std::fmt::{Debug, Display, Formatter, Write};
use std::marker::Model;
use tok_core::{LexError, Span, ToTokens, TokenTree};

// A string of at most so many bytes is copied where it would keep a spacious allocation.
const SHORT: usize = 14;

// An allocation of more bytes is spacious.
const SPACIOUS: usize = 64;

// The text of a message, in the string that it was written to: a message is on the heap, so a text
// in place would save no room in an error.
#[derive(Drop)]
struct Words {
    string: String,
}

impl Model for Words {
    ghost use Rattle.std.specs.Prelude.{List, ℕ, string_bytes};

    ghost Value = { List ℕ };

    ghost view = { λ w. string_bytes w.string };
}

// A message: the spans of the first and the last token it is about, and its text.
#[derive(Drop)]
struct Message {
    start: Span,
    end: Span,
    text: Words,
}

/// An error that consists of one or more messages about rejected input.
///
/// Each message has the spans of the first and the last token that it is about. Contracts describe
/// an error as the list of its messages.
///
/// # Examples
///
/// ```rust
/// let mut error = Error::new(alloc, Span::source(0, 2, 5), "expected a name")?;
/// error.combine(Error::new(alloc, Span::call_site(), "second message")?)?;
/// assert_eq!(rt; error.as_str(), "expected a name");
/// assert_eq!(rt; error.span(), Span::source(0, 2, 5));
/// assert_eq!(rt; error.into_iter().count(), 2);
/// ```
//
// The messages are boxed, so that an error takes 32 bytes: each `Result` of a parser is as large as
// its largest value, and is moved at each call.
#[derive(Drop)]
pub struct Error {
    first: Box<Message>,
    more: Vec<Box<Message>>,
}

impl Model for Error {
    ghost use Rattle.std.specs.Prelude.{List, ◌∷◌};
    ghost use Rattle.tok_buffer.specs.declared.error.Message.{Message};
    ghost use Rattle.tok_buffer.specs.Messages.{messages_code, unboxed};

    ghost Value = { List Message };

    ghost coded = { messages_code };

    ghost view = { λ e. e.first.value ∷ unboxed e.more.items };
}

impl Words {
    ghost use Rattle.std.specs.Prelude.{string_bytes};

    fn new(string: String) -> Words
        ensures { result ≡ string_bytes string }
    {
        Words { string }
    }

    // Keeps a string, or a copy of it if it is short and its allocation is spacious.
    fn kept(alloc: Global, string: String) -> Words
        ensures { result ≡ string_bytes string }
    {
        if string.len() <= SHORT && string.capacity() > SPACIOUS {
            if let Ok(copy) = String::from_str(alloc, string.as_str()) {
                return Words::new(copy);
            }
        }
        Words::new(string)
    }

    fn as_str(&self) -> &str
        ensures { result.now ≡ self.now }
    {
        self.string.as_str()
    }

    fn copied(&self, alloc: Global) -> Result<Words, AllocError>
        ensures { IfOk result (λ w. w ≡ self.now) }
    {
        Ok(Words::new(String::from_str(alloc, self.as_str())?))
    }
}

impl Message {
    fn boxed_clone(&self, alloc: Global) -> Result<Box<Message>, AllocError>
        ensures { IfOk result (λ m. m.value ≡ self.now) }
    {
        let copy = Message {
            start: self.start,
            end: self.end,
            text: self.text.copied(alloc)?,
        };
        Ok(Box::new(alloc, copy)?)
    }
}

// Returns the spans of the first and the last tree.
fn ends(trees: &[TokenTree]) -> (Span, Span)
    ensures { result ≡ spanned (trees_of trees.now) }
{
    match (trees.first(), trees.last()) {
        (Some(first), Some(last)) => (first.span(), last.span()),
        _ => (Span::call_site(), Span::call_site()),
    }
}

impl Error {
    ghost use Rattle.std.specs.Prelude.{IfSome, OnOk, OnErr, string_bytes, true};
    ghost use Rattle.std.specs.Iterator.{IsFiniteIterable};
    ghost use Rattle.std.specs.Ordering.{partial_le};
    ghost use Rattle.tok_core.specs.Lexical.Errors.{error_span, error_words};
    ghost use Rattle.tok_buffer.specs.Cursors.{place_of};
    ghost use Rattle.tok_buffer.specs.Messages.{ExtendsWithErrors, HasMessage, error_of, one_message, spans_of, first_message_span, first_text};
    ghost use Rattle.tok_buffer.specs.Order.{order};
    ghost use Rattle.tok_buffer.specs.Spans.{current_span, range_end};
    ghost use Rattle.tok_buffer.specs.Messages.{stream_span, at_stream};

    /// Creates an error with one message at `span`.
    ///
    /// The text of the message is the text that `message` displays. The call allocates the text in
    /// `alloc`. `message` can be a `&str` or any other value that implements `Display`. To insert
    /// values into the text, pass the result of `format_args!`, which does not allocate.
    ///
    /// Returns an `AllocError` if an allocation fails.
    ///
    /// # Examples
    ///
    /// ```rust
    /// let wanted: usize = 3;
    /// let span = Span::source(0, 2, 5);
    /// let error = Error::new(alloc, span, format_args!("expected {wanted} values"))?;
    /// assert_eq!(rt; error.as_str(), "expected 3 values");
    /// ```
    pub fn new<T: Display + Drop>(
        alloc: Global,
        span: Span,
        message: T,
    ) -> Result<Error, AllocError>
        ensures { IfOk result (HasMessage (span, span) (T.output message)) }
    {
        Error::new2(alloc, span, span, message)
    }

    // Creates an error of one message, from the start of one span to the end of another.
    fn new2<T: Display + Drop>(
        alloc: Global,
        start: Span,
        end: Span,
        message: T,
    ) -> Result<Error, AllocError>
        ensures { IfOk result (HasMessage (start, end) (T.output message)) }
    {
        let text = format!(in alloc; "{message}")?;
        Error::of_string(alloc, start, end, text)
    }

    // Creates an error of one message, from the start of one span to the end of another.
    #[inline(always)]
    fn of_string(alloc: Global, start: Span, end: Span, text: String) -> Result<Error, AllocError>
        ensures { IfOk result (λ e. e ≡ error_of start end (string_bytes text)) }
    {
        let text = Words::kept(alloc, text);
        let first = Box::new(alloc, Message { start, end, text })?;
        Ok(Error {
            first,
            more: Vec::new(alloc),
        })
    }

    /// Creates an error with one message at `span`, without copying `text`.
    ///
    /// Returns an `AllocError` if an allocation fails.
    pub fn from_string(alloc: Global, span: Span, text: String) -> Result<Error, AllocError>
        ensures { IfOk result (λ e. e ≡ error_of span span (string_bytes text)) }
    {
        Error::of_string(alloc, span, span, text)
    }

    /// Creates an error with one message about the tokens that `tokens` writes, from the first
    /// token to the last.
    ///
    /// If there are no tokens, the message is at the call site. Returns an `AllocError` if an
    /// allocation fails.
    pub fn new_spanned<S: ToTokens + Drop, T: Display + Drop>(
        alloc: Global,
        tokens: S,
        message: T,
    ) -> Result<Error, AllocError>
        ensures { IfOk result (HasMessage (spanned (S.printed tokens)) (T.output message)) }
    {
        let stream = tokens.into_token_stream(alloc)?;
        let (start, end) = ends(stream.trees());
        Error::new2(alloc, start, end, message)
    }

    /// Creates an error with one message about the tokens between two cursors.
    ///
    /// The message spans the token at `start`, the token directly before `end`, and all tokens in
    /// between. If the cursors are equal, the message is at the next token. Returns an `AllocError`
    /// if an allocation fails.
    ///
    /// # Requires
    ///
    /// Both cursors must be in the same buffer, and `start` must not be later than `end`.
    pub fn new_range<T: Display + Drop>(
        alloc: Global,
        start: Cursor<'_>,
        end: Cursor<'_>,
        message: T,
    ) -> Result<Error, AllocError>
        requires { partial_le order (place_of start) (place_of end) ≡ true }
        ensures { let from = place_of start.entry in IfOk result
            (HasMessage (current_span from, range_end from (place_of end.entry))
            (T.output message)) }
    {
        let last = if start == end {
            end.span()
        } else {
            end.prev_span()
        };
        Error::new2(alloc, start.span(), last, message)
    }

    /// Creates an error with one message at the next token of `cursor`.
    ///
    /// If the cursor is at the end of its scope, the text begins with "unexpected end of input, ",
    /// and the span is `scope`. Returns an `AllocError` if an allocation fails.
    pub fn new_at<T: Display + Drop>(
        alloc: Global,
        scope: Span,
        cursor: Cursor<'_>,
        message: T,
    ) -> Result<Error, AllocError>
        ensures spans { IfOk result
            (λ e. let span = stream_span (place_of cursor.entry) scope in spans_of e
            ≡ (span, span) ∷ []) }
        ensures text { IfOk result
            (λ e. IfSome (T.output message)
            (λ words. e ≡ one_message (at_stream (place_of cursor.entry) scope words))) }
    {
        if cursor.eof() {
            Error::new(
                alloc,
                scope,
                format_args!("unexpected end of input, {message}"),
            )
        } else {
            Error::new(alloc, cursor.start_span(), message)
        }
    }

    /// Converts an error of the lexer into an `Error` with the same span and text.
    ///
    /// Returns an `AllocError` if an allocation fails.
    pub fn from_lex(alloc: Global, error: LexError) -> Result<Error, AllocError>
        ensures { IfOk result
            (λ e. e ≡ error_of (error_span error) (error_span error) (error_words error)) }
    {
        Error::new(alloc, error.span(), error)
    }

    /// Returns the span of the first message, from its first token to its last token.
    ///
    /// If these two tokens are not in the same source, returns the span of the first token.
    pub fn span(&self) -> Span
        ensures { result ≡ first_message_span self.now }
    {
        let start = self.first.start;
        start.join(self.first.end).unwrap_or(start)
    }

    /// Returns the text of the error's first message.
    pub fn as_str(&self) -> &str
        ensures { result.now ≡ first_text self.now }
    {
        self.first.text.as_str()
    }

    /// Appends the messages of `another` to this error.
    ///
    /// Returns an error if an allocation fails. The messages are then unchanged, and `another` is
    /// dropped.
    pub fn combine(&mut self, another: Error) -> Result<(), AllocError>
        ensures ok { OnOk result (self.new ≡ self.old ++ another) }
        ensures err { OnErr result (self.new ≡ self.old) }
    {
        let Error { first, mut more } = another;
        self.more.reserve(more.len().saturating_add(1))?;
        self.more.push_reserved(first);
        match self.more.append(&mut more) {
            Ok(()) => Ok(()),
            Err(_) => unreachable!(),
        }
    }

    /// Appends the messages of several errors to this error, in order.
    ///
    /// If an allocation fails, the call returns an error. In this case, only the messages of some
    /// leading errors were appended, and the messages of at least one error are missing.
    ///
    /// # Requires
    ///
    /// `errors` must yield a finite number of errors.
    pub fn extend<I: IntoIterator<Item = Error>>(&mut self, errors: I) -> Result<(), AllocError>
        requires { IsFiniteIterable I.into_iter_gives I.IntoIter.can_next
            I.IntoIter.remaining errors }
        ensures { ExtendsWithErrors I.into_iter_gives I.IntoIter.next_gives errors self.old self.new
            result }
    {
        for another in errors {
            self.combine(another)?;
        }
        Ok(())
    }
}

/// Copies the error, with its messages and spans.
impl Clone for Error {
    ghost is_clone = { λ e f. f ≡ e };

    fn clone(&self) -> Result<Error, AllocError> {
        let alloc = *self.more.allocator();
        let first = self.first.boxed_clone(alloc)?;
        let mut more = Vec::with_capacity(alloc, self.more.len())?;
        for message in &self.more {
            more.push(message.boxed_clone(alloc)?)?;
        }
        Ok(Error { first, more })
    }
}

/// Writes the text of the first message.
impl Display for Error {
    ghost use Rattle.std.specs.Prelude.{Some};
    ghost use Rattle.tok_buffer.specs.Messages.{first_text};

    ghost output = { λ e. Some (first_text e) };

    fn fmt<W: Write>(&self, f: &mut Formatter<W>) -> fmt::Result {
        f.write_str(self.as_str())
    }
}

impl Debug for Message {
    fn fmt<W: Write>(&self, f: &mut Formatter<W>) -> fmt::Result {
        write!(f, "{:?}", self.text.as_str())
    }
}

impl Debug for Error {
    fn fmt<W: Write>(&self, f: &mut Formatter<W>) -> fmt::Result {
        if self.more.is_empty() {
            write!(f, "Error({:?})", self.first)
        } else {
            write!(f, "Error([{:?}", self.first)?;
            for message in &self.more {
                write!(f, ", {message:?}")?;
            }
            f.write_str("])")
        }
    }
}

impl std::error::Error for Error {}
