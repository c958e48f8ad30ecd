//! The types of parse streams and of paused streams.
ghost use Rattle.std.specs.Prelude.{◌≡◌, None, true, IfSome, MatchOption, Ok};
ghost use Rattle.std.specs.Fn.{FnOnceReturnsAtMut, FnOnceTakesAtMut};
ghost use Rattle.tok_core.specs.Laws.{IsTheOnly};
ghost use Rattle.tok_buffer.specs.Ahead.{left_of};
ghost use Rattle.tok_buffer.specs.Cursors.{place_of};
ghost use Rattle.tok_buffer.specs.Order.{same_scope};
ghost use Rattle.tok_buffer.specs.Place.{start, is_at_end};
ghost use Rattle.syn_parse.specs.Faults.{Refuses, RefusesAt, FailsWith};
ghost use Rattle.syn_parse.specs.Parsers.{Finishes};
ghost use Rattle.syn_parse.specs.State.{fresh, moved, handed, closed, forked, advanced, state_span};
ghost use Rattle.syn_parse.specs.ErrorWords.{expected, refused_at, leftover_message};
ghost use Rattle.syn_parse.specs.Takes.{SaysAt, missing_next};
ghost use Rattle.tok_types.specs.Texts.{in_backquotes};
ghost use Rattle.syn_parse.specs.TreesAhead.{IsFilled, after_content, after_fork, ahead, is_spent};

use crate::fault::{Fault, Result, joined, words_of};
use std::alloc::Global;
use std::fmt;
use std::fmt::{Debug, Display, Formatter, Write};
use std::marker::Model;
use tok_buffer::{Cursor, Error, TokenBuffer};
use tok_core::{Delimiter, Span};

/// A stream of tokens from which a parser reads.
///
/// A stream is a position in a buffer, with a scope that is the whole buffer or the contents of a
/// group. Contracts describe a stream as its position, the span of the end of its scope, and a
/// leftover. The leftover is the first token that was left unread in a closed group.
///
/// Each stream must be ended with `close`, `discard`, `advance_to`, `finish`, `finish_parsed` or
/// `pause`. A function that lets a stream go out of scope, even through an early `?`, does not
/// compile. A parser can therefore not ignore unread tokens by mistake.
pub struct ParseBuffer<'a> {
    alloc: Global,
    cursor: Cursor<'a>,
    // The span of the scope's end: a group's closing delimiter.
    scope_span: Span,
    // The first leftover that a closed group recorded.
    noted: Option<(Span, Delimiter)>,
}

impl<'a> Model for ParseBuffer<'a> {
    ghost use Rattle.tok_buffer.specs.Ahead.{left_of};
    ghost use Rattle.tok_buffer.specs.Cursors.{place_of};
    ghost use Rattle.syn_parse.specs.State.{State, coded_state};

    ghost Value = { State };

    ghost coded = { coded_state };

    ghost view = { λ s. record {
      place = place_of s.cursor;
      scope_span = s.scope_span;
      noted = left_of s.noted;
    } };
}

/// The argument type of parsers, which is a mutable reference to a `ParseBuffer`.
///
/// A parser is a function `fn(ParseStream) -> Result<T>`.
pub type ParseStream<'p, 'a> = &'p mut ParseBuffer<'a>;

/// Creates a parse stream over all tokens of the buffer `tokens`.
///
/// `scope` is the span of the end of the stream.
pub fn tokens_to_parse_buffer<'a>(
    alloc: Global,
    tokens: &'a TokenBuffer,
    scope: Span,
) -> ParseBuffer<'a>
    ensures { result ≡ fresh (start tokens.now.number tokens.now.forest) scope }
{
    ParseBuffer::made(alloc, tokens.begin(), scope, None)
}

impl<'a> ParseBuffer<'a> {
    ghost use Rattle.syn_parse.specs.Pauses.{paused_state};

    pub(crate) fn made(
        alloc: Global,
        cursor: Cursor<'a>,
        scope_span: Span,
        noted: Option<(Span, Delimiter)>,
    ) -> Self
        ensures { result
            ≡ record {
              place = place_of cursor.entry;
              scope_span = scope_span;
              noted = left_of noted;
            } }
    {
        ParseBuffer {
            alloc,
            cursor,
            scope_span,
            noted,
        }
    }

    /// Returns the allocator for the parsers of this stream.
    ///
    /// All streams have the same allocator, because a program has only one `Global`.
    pub fn allocator(&self) -> Global
        ensures { IsTheOnly result }
    {
        self.alloc
    }

    pub(crate) fn scope_span(&self) -> Span
        ensures { result ≡ self.now.scope_span }
    {
        self.scope_span
    }

    pub(crate) fn move_to(&mut self, cursor: Cursor<'a>)
        ensures { self.new ≡ moved (place_of cursor.entry) self.old }
    {
        self.cursor = cursor;
    }

    /// Returns the cursor at the position of the stream.
    pub fn cursor(&self) -> Cursor<'a>
        ensures { place_of result ≡ self.now.place }
    {
        self.cursor
    }

    /// Returns `true` if the stream is at the end of its scope.
    ///
    /// If the next tree is an invisible group, the stream is not at the end, even if the group is
    /// empty.
    ///
    /// # Examples
    ///
    /// ```rust
    /// if input.is_empty() {
    ///     return Ok(None);
    /// }
    /// ```
    #[tactic(auto, using(crate::proofs::Told::end_told))]
    pub fn is_empty(&self) -> bool
        ensures at_end { result ≡ is_at_end self.now.place }
        ensures spent { IsFilled self.now.place → result ≡ is_spent (ahead self.now) }
    {
        self.cursor.eof()
    }

    /// Returns the span of the next token, or of the opening delimiter of the next group.
    ///
    /// At the end of a group, returns the span of the closing delimiter. At the end of a stream
    /// that is not in a group, returns the span that was given when the stream was created. For
    /// `parse2` and `parse_str`, this span is the call site.
    pub fn span(&self) -> Span
        ensures { result ≡ state_span self.now }
    {
        if self.cursor.eof() {
            self.scope_span
        } else {
            self.cursor.start_span()
        }
    }

    /// Creates an error with the message `message` at the next token.
    ///
    /// The error has the span that the method `span` returns. At the end of the stream, the text
    /// begins with "unexpected end of input, ".
    ///
    /// # Examples
    ///
    /// ```rust
    /// return Err(input.error("expected a name"));
    /// ```
    pub fn error<T: Display + Drop>(&self, message: T) -> Fault
        ensures span { RefusesAt (state_span self.now) result }
        ensures words { IfSome (T.output message)
            (λ words. Refuses (refused_at self.now words) result) }
        ensures says { IfSome (T.output message)
            (λ words. SaysAt self.now (missing_next words (ahead self.now).trees) result) }
    {
        self.fault(message)
    }

    // Does what `error` does.
    fn fault<T: Display + Drop>(&self, message: T) -> Fault
        ensures span { RefusesAt (state_span self.now) result }
        ensures words { IfSome (T.output message)
            (λ words. Refuses (refused_at self.now words) result) }
    {
        Fault::refused(Error::new_at(self.alloc, self.scope_span, self.cursor, message))
    }

    // Returns the error with these words, as `error` does.
    // Kept out of line: parsers mostly find their token.
    #[inline(never)]
    pub(crate) fn refuse(&self, words: &str) -> Fault
        ensures { Refuses (refused_at self.now words.now) result }
    {
        let text = if self.cursor.eof() {
            joined(self.alloc, "unexpected end of input, ", "", words)
        } else {
            String::from_str(self.alloc, words)
        };
        Fault::of_text(self.alloc, self.span(), text)
    }

    // Returns the error that this text was expected, as `error` does.
    //
    // Beside `refuse`, whose words would have to be joined first: one allocation more.
    #[inline(never)]
    pub(crate) fn refuse_text(&self, text: &str) -> Fault
        ensures { Refuses (refused_at self.now (expected (in_backquotes text.now))) result }
    {
        let front = if self.cursor.eof() {
            "unexpected end of input, expected `"
        } else {
            "expected `"
        };
        let words = joined(self.alloc, front, text, "`");
        Fault::of_text(self.alloc, self.span(), words)
    }

    /// Creates a fork, which is a second stream at the same position. The two streams can be read
    /// independently.
    ///
    /// End the fork with `advance_to`, which moves a stream to the position of the fork, or with
    /// `discard`.
    pub fn fork(&self) -> Self
        ensures { result ≡ forked self.now }
    {
        ParseBuffer::made(self.alloc, self.cursor, self.scope_span, None)
    }

    /// Moves this stream to the position of `fork`, and ends the fork.
    ///
    /// If the fork has recorded a leftover (an unread token of a closed group), this stream records
    /// the same leftover. If this stream already has a leftover, the call does not replace it.
    ///
    /// # Requires
    ///
    /// `fork` must be in the scope of this stream.
    #[tactic(auto, using(crate::proofs::Scopes::advanced_ahead))]
    pub fn advance_to(&mut self, fork: Self)
        requires { same_scope self.old.place fork.place ≡ true }
        ensures moves { self.new ≡ advanced fork.entry self.old }
        ensures takes { ahead self.new ≡ after_fork (ahead fork.entry) (ahead self.old) }
    {
        self.go_to(fork);
    }

    // Does what `advance_to` does.
    fn go_to(&mut self, fork: Self)
        ensures { self.new ≡ advanced fork.entry self.old }
    {
        let ParseBuffer {
            alloc: _,
            cursor,
            scope_span: _,
            noted,
        } = fork;
        self.cursor = cursor;
        self.noted = self.noted.or(noted);
    }

    // Returns the recorded leftover, or else the leftover at the cursor.
    fn handed(&self) -> Option<(Span, Delimiter)>
        ensures { left_of result ≡ handed self.now }
    {
        match self.noted {
            Some(note) => Some(note),
            None => self.cursor.leftover(),
        }
    }

    /// Ends `content`, the stream of a group's contents, and records its leftover in this stream.
    ///
    /// A leftover is an unread token, which `finish` reports as an error. The leftover of `content`
    /// is the one that `content` has recorded itself, or otherwise the first unread token of
    /// `content`, if there is one. If this stream already has a leftover, the call does not replace
    /// it.
    #[tactic(auto, using(crate::proofs::GroupTakes::closed_ahead))]
    pub fn close(&mut self, content: Self)
        ensures closes { self.new ≡ closed content.entry self.old }
        ensures takes { ahead self.new ≡ after_content (ahead content.entry) (ahead self.old) }
    {
        self.take_back(content);
    }

    // Does what `close` does.
    pub(crate) fn take_back(&mut self, content: Self)
        ensures { self.new ≡ closed content.entry self.old }
    {
        let note = content.handed();
        content.discard();
        self.noted = self.noted.or(note);
    }

    /// Ends the stream without checking for unread tokens.
    pub fn discard(self) {
        let ParseBuffer {
            alloc: _,
            cursor: _,
            scope_span: _,
            noted: _,
        } = self;
    }

    /// Ends the stream, and checks that all of its tokens were read.
    ///
    /// Returns an error if a token is unread, or if the stream has recorded an unread token of a
    /// closed group.
    pub fn finish(self) -> Result<()>
        ensures { MatchOption (handed self.entry) (result ≡ Ok tt)
            (λ left. FailsWith (leftover_message left) result) }
    {
        let alloc = self.alloc;
        let left = self.handed();
        self.discard();
        match left {
            None => Ok(()),
            Some((span, delimiter)) => {
                let (_, leftover) = words_of(delimiter);
                let error = Error::new(alloc, span, leftover);
                Err(Fault::refused(error))
            }
        }
    }

    /// Ends the stream after a parser returned `parsed`, and returns the result of parsing all of its
    /// tokens.
    ///
    /// If `parsed` is an error, returns this error. If `parsed` is a value, checks the stream in the
    /// same way as `finish`, and returns the value or the error of `finish`.
    pub fn finish_parsed<T: Drop>(self, parsed: Result<T>) -> Result<T>
        ensures { Finishes parsed self.entry result }
    {
        match parsed {
            Ok(value) => {
                self.finish()?;
                Ok(value)
            }
            Err(fault) => {
                self.discard();
                Err(fault)
            }
        }
    }

    /// Converts the stream into a paused stream, which may be copied and dropped.
    ///
    /// The method `Paused::resume` converts a paused stream back into a stream.
    pub fn pause(self) -> Paused<'a>
        ensures { paused_state result ≡ self.entry }
    {
        let ParseBuffer {
            alloc,
            cursor,
            scope_span,
            noted,
        } = self;
        Paused {
            alloc,
            cursor,
            scope_span,
            noted,
        }
    }

    /// Swaps this stream and `other`, including their positions, scopes and leftovers.
    pub fn swap(&mut self, other: &mut Self)
        ensures mine { self.new ≡ other.old }
        ensures theirs { other.new ≡ self.old }
    {
        std::mem::swap(self, other);
    }

    /// Runs the parser `f` on this stream, and returns the result of `f`.
    ///
    /// After the call, the stream is where the parser left it.
    ///
    /// # Requires
    ///
    /// `f` must be callable on this stream.
    ///
    /// # Examples
    ///
    /// ```rust
    /// let path = input.call(parse_path)?;
    /// ```
    pub fn call<T, F>(&mut self, f: F) -> Result<T>
    where
        F: FnOnce(ParseStream<'_, 'a>) -> Result<T>,
        requires { FnOnceTakesAtMut F.FnOnce f self.old }
        ensures { FnOnceReturnsAtMut F.FnOnce f self.old result self.new }
    {
        f(self)
    }
}

/// A paused parse stream, which may be copied and dropped.
///
/// The method `ParseBuffer::pause` creates a paused stream, and `resume` converts it back into a
/// stream. If a paused stream is dropped, its unread tokens are not recorded.
#[derive(Clone, Copy, Debug)]
pub struct Paused<'a> {
    alloc: Global,
    cursor: Cursor<'a>,
    scope_span: Span,
    noted: Option<(Span, Delimiter)>,
}

impl<'a> Paused<'a> {
    ghost use Rattle.syn_parse.specs.Pauses.{paused_state};

    /// Returns the cursor at the position where the stream was paused.
    pub fn cursor(&self) -> Cursor<'a>
        ensures { place_of result ≡ (paused_state self.now).place }
    {
        self.cursor
    }

    /// Converts the paused stream back into a stream with the same position, scope and leftover.
    pub fn resume(self) -> ParseBuffer<'a>
        ensures { result ≡ paused_state self.entry }
    {
        ParseBuffer::made(self.alloc, self.cursor, self.scope_span, self.noted)
    }
}

/// Writes the remaining trees of the scope in the same form as the `Display` of a `TokenStream`.
///
/// The call does not allocate.
impl Display for ParseBuffer<'_> {
    ghost use Rattle.std.specs.Prelude.{Some};
    ghost use Rattle.tok_buffer.specs.Rest.{rest};
    ghost use Rattle.tok_core.specs.Text.{text};

    ghost output = { λ s. Some (text (rest s.place)) };

    fn fmt<W: Write>(&self, f: &mut Formatter<W>) -> fmt::Result {
        self.cursor.write_ahead(f)
    }
}

/// Writes the remaining trees of the scope, as in `ParseBuffer(a b)`.
impl Debug for ParseBuffer<'_> {
    ghost use Rattle.std.specs.Prelude.{◌++◌, codes, Some};
    ghost use Rattle.tok_buffer.specs.Rest.{rest};
    ghost use Rattle.tok_core.specs.Text.{text};

    ghost debug_output = { λ s. Some (codes "ParseBuffer(" ++ text (rest s.place) ++ codes ")") };

    fn fmt<W: Write>(&self, f: &mut Formatter<W>) -> fmt::Result {
        write!(f, "ParseBuffer({self})")
    }
}
