//! The type `Source`, which formats errors that are about a text.
ghost use Rattle.std.specs.Prelude.{◌≡◌, ℕ, ◌++◌, ◌∷◌, [], IfOk, OnOk, codes, decimal, length, string_bytes, take};
ghost use Rattle.std.specs.Option.{ForSome};
ghost use Rattle.std.specs.List.{flat_map, repeat};
ghost use Rattle.tok_lexical.specs.Ascii.{space};
ghost use Rattle.tok_leaves.specs.Spans.{range};
ghost use Rattle.std.specs.Str.{chars};
ghost use Rattle.tok_buffer.specs.Messages.{each_message};
ghost use Rattle.tok_carets.specs.Shown.{Shows, ShowsEach, ShowsLex, caret, carets, drawn, gutter, heading, place, row, words_alone};
ghost use Rattle.tok_carets.specs.Lines.{IsLastLine, line_number, marks, shown_character};

use crate::index::LineIndex;
use crate::line::{
    chars_in, first_line, last_line, push_marks, push_shown, push_times, within, without_return,
};
use itoa::Buffer;
use std::alloc::{AllocError, Global};
use tok_buffer::Error;
use tok_core::{LexError, Span};

// How many bytes stand beside the words, the name and the line, with numbers of up to 6 digits.
const ROOM: usize = 64;

/// A text with a name, for formatting errors that are about the text.
///
/// The field `number` is the source number of the spans that refer to the text.
///
/// # Examples
///
/// ```rust
/// let source = Source {
///     name: "config",
///     number: 0,
///     text: "a b",
/// };
/// let shown = source.show(alloc, Span::source(0, 2, 3), "expected `,`")?;
/// assert_eq!(rt;
///     shown.as_str(),
///     "error: expected `,`\n --> config:1:3\n  |\n1 | a b\n  |   ^\n"
/// );
/// ```
#[derive(Clone, Copy, Debug)]
pub struct Source<'a> {
    pub name: &'a str,
    pub number: u32,
    pub text: &'a str,
}

impl Source<'_> {
    /// Formats an error with the message `words`, the line in which `span` begins, and carets under
    /// the part of this line that `span` covers.
    ///
    /// There is at least one caret. If `span` is the call site, or does not begin at a character of
    /// this text, the result consists only of the message. Returns an error if an allocation fails.
    pub fn show(&self, alloc: Global, span: Span, words: &str) -> Result<String, AllocError>
        ensures { IfOk result (λ out. Shows self.now (codes "error") words.now (range span)
            (string_bytes out)) }
    {
        self.lookup().show(alloc, "error", span, words)
    }

    /// Formats the first message of `error` as an error in the same way as `show`, and the other
    /// messages as notes.
    ///
    /// A note begins with `note` instead of `error`. To format each message as a separate error,
    /// call `show` for each message. Returns an error if an allocation fails.
    ///
    /// # Examples
    ///
    /// ```rust
    /// let mut error = Error::new(alloc, Span::source(0, 2, 3), "this name is taken")?;
    /// error.combine(Error::new(alloc, Span::source(0, 0, 1), "it was defined here")?)?;
    /// let shown = source.show_error(alloc, &error)?;
    /// assert!(rt;
    ///     shown
    ///         .as_str()
    ///         .contains("\nnote: it was defined here\n --> config:1:1\n")
    /// );
    /// ```
    pub fn show_error(&self, alloc: Global, error: &Error) -> Result<String, AllocError>
        ensures { IfOk result
            (λ out. ShowsEach self.now (codes "error") (each_message error.now)
            (string_bytes out)) }
    {
        self.lookup().show_error(alloc, error)
    }

    /// Formats an error of the lexer with the message of `LexError::explain`.
    ///
    /// Pass the error that `lex` or `lex_source` returned for the text of this source. For another
    /// error, the message may name the wrong fault. If the source number of the error's span is not
    /// the number of this source, the result consists only of the error's `Display` message.
    /// Returns an error if an allocation fails.
    pub fn show_lex(&self, alloc: Global, error: LexError) -> Result<String, AllocError>
        ensures { IfOk result (λ out. ShowsLex self.now error (string_bytes out)) }
    {
        self.lookup().show_lex(alloc, error)
    }

    // Returns the lookup without an index.
    fn lookup(&self) -> Lookup<'_, '_>
        ensures { result.source.now ≡ self.now }
    {
        Lookup {
            source: self,
            index: None,
        }
    }
}

// A source whose errors are shown, and the index of its text's lines, if there is one. Without an
// index all text before a line is read.
#[derive(Drop)]
pub struct Lookup<'s, 'a> {
    pub source: &'s Source<'a>,
    pub index: Option<&'s LineIndex<'a>>,
    ghost is: { ForSome index (λ index. index.now.text.now ≡ source.now.text.now) },
}

impl Lookup<'_, '_> {
    // Shows words at this level, as `Source::show` shows those of an error.
    pub fn show(
        &self,
        alloc: Global,
        level: &str,
        span: Span,
        words: &str,
    ) -> Result<String, AllocError>
        ensures { IfOk result (λ out. Shows self.now.source.now level.now words.now (range span)
            (string_bytes out)) }
    {
        let source = self.source;
        let Some((number, start, end)) = span.as_range() else {
            return alone(alloc, level, words);
        };
        if number != source.number {
            return alone(alloc, level, words);
        }
        let Some((before, after)) = source.text.split_at_checked(start) else {
            return alone(alloc, level, words);
        };
        let (line, head) = self.last_line(before);
        let tail = without_return(first_line(after));
        let marked = within(tail, end.saturating_sub(start));
        let row = Row {
            line,
            head,
            tail,
            marked,
        };
        drawn(alloc, level, words, source.name, &row)
    }

    // Returns the number of the last line of a front of the text, and this line.
    fn last_line<'t>(&self, before: &'t str) -> (usize, &'t str)
        requires front { before.now ≡ take (length before.now) self.now.source.now.text.now }
        ensures number { result.0 ≡ line_number (chars before.now) }
        ensures line { IsLastLine (chars before.now) (chars result.1.now) }
    {
        match self.index {
            Some(index) => index.last_line(before),
            None => last_line(before),
        }
    }

    // Shows an error as `Source::show_error` does.
    pub fn show_error(&self, alloc: Global, error: &Error) -> Result<String, AllocError>
        ensures { IfOk result
            (λ out. ShowsEach self.now.source.now (codes "error") (each_message error.now)
            (string_bytes out)) }
    {
        let mut out = String::new(alloc);
        let mut level = "error";
        for message in error {
            let message = message?;
            let one = self.show(alloc, level, message.span(), message.as_str())?;
            out.push_str(one.as_str())?;
            level = "note";
        }
        Ok(out)
    }

    // Shows an error of the lexer as `Source::show_lex` does.
    pub fn show_lex(&self, alloc: Global, error: LexError) -> Result<String, AllocError>
        ensures { IfOk result (λ out. ShowsLex self.now.source.now error (string_bytes out)) }
    {
        match error.span().as_range() {
            Some((number, _, _)) if number == self.source.number => {
                let (span, words) = error.explain(self.source.text);
                self.show(alloc, "error", span, words)
            }
            _ => format!(in alloc; "error: {error}\n"),
        }
    }
}

fn alone(alloc: Global, level: &str, words: &str) -> Result<String, AllocError>
    ensures { IfOk result (λ out. string_bytes out ≡ words_alone level.now words.now) }
{
    format!(in alloc; "{level}: {words}\n")
}

// Appends the words alone.
fn push_words(to: &mut String, level: &str, words: &str) -> Result<(), AllocError>
    ensures { OnOk result (string_bytes to.new
        ≡ string_bytes to.old ++ words_alone level.now words.now) }
{
    to.push_str(level)?;
    to.push_str(": ")?;
    to.push_str(words)?;
    to.push_str("\n")
}

// Appends the words, and the name of the source, after a gutter so wide.
fn push_heading(
    to: &mut String,
    level: &str,
    words: &str,
    gutter: usize,
    name: &str,
) -> Result<(), AllocError>
    ensures { OnOk result (string_bytes to.new
        ≡ string_bytes to.old
        ++ heading level.now words.now (repeat gutter (space ∷ [])) name.now) }
{
    push_words(to, level, words)?;
    push_times(to, ' ', gutter)?;
    to.push_str("--> ")?;
    to.push_str(name)?;
    to.push_str(":")
}

// Appends the place, whose line is written so.
fn push_place(to: &mut String, line: &str, column: usize) -> Result<(), AllocError>
    ensures { OnOk result ((number : ℕ) → line.now ≡ decimal number → string_bytes to.new
        ≡ string_bytes to.old ++ place number column (gutter number)) }
{
    to.push_str(line)?;
    to.push_str(":")?;
    to.push_str(Buffer::new().format(column))?;
    to.push_str("\n")?;
    push_times(to, ' ', line.len())?;
    to.push_str(" |\n")
}

// Appends two parts of the line whose number is written so.
fn push_row(to: &mut String, line: &str, head: &str, tail: &str) -> Result<(), AllocError>
    ensures { OnOk result ((number : ℕ) → line.now ≡ decimal number → string_bytes to.new
        ≡ string_bytes to.old ++ row number (flat_map shown_character (chars head.now))
        (flat_map shown_character (chars tail.now)) (gutter number)) }
{
    to.push_str(line)?;
    to.push_str(" | ")?;
    push_shown(to, head)?;
    push_shown(to, tail)?;
    to.push_str("\n")?;
    push_times(to, ' ', line.len())?;
    to.push_str(" | ")
}

// Appends the carets under a part of a line.
fn push_carets(to: &mut String, marked: &str) -> Result<(), AllocError>
    ensures { OnOk result (string_bytes to.new
        ≡ string_bytes to.old ++ carets (marks caret (chars marked.now))) }
{
    let before = to.len();
    push_marks(to, marked, '^')?;
    if to.len() == before {
        to.push('^')?;
    }
    Ok(())
}

// A line that is shown: its number, its parts before and after a place, and what of it is marked.
#[derive(Drop)]
struct Row<'a> {
    line: usize,
    head: &'a str,
    tail: &'a str,
    marked: &'a str,
}

// Returns the words and this line.
fn drawn(
    alloc: Global,
    level: &str,
    words: &str,
    name: &str,
    row: &Row<'_>,
) -> Result<String, AllocError>
    ensures { IfOk result (λ out. string_bytes out
        ≡ drawn level.now words.now name.now row.now.line (chars row.now.head.now)
        (chars row.now.tail.now) (chars row.now.marked.now)) }
{
    let mut buffer = Buffer::new();
    let number = buffer.format(row.line);
    // A tab is wider than it is long, so for long lines this is a guess.
    let room = words
        .len()
        .saturating_add(name.len())
        .saturating_add(row.head.len().saturating_mul(2))
        .saturating_add(row.tail.len())
        .saturating_add(row.marked.len())
        .saturating_add(ROOM);
    let mut out = String::with_capacity(alloc, room)?;
    push_heading(&mut out, level, words, number.len(), name)?;
    push_place(&mut out, number, chars_in(row.head) + 1)?;
    push_row(&mut out, number, row.head, row.tail)?;
    push_marks(&mut out, row.head, ' ')?;
    push_carets(&mut out, row.marked)?;
    out.push_str("\n")?;
    Ok(out)
}
