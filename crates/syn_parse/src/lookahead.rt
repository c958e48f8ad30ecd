//! The type `Lookahead1`, with which a parser chooses between alternatives by the next token.
ghost use Rattle.std.specs.Prelude.{◌≡◌, ◌<◌, [], ◌∷◌, ◌++◌, false, length, IfOk, IfSome, IsOk, MatchOption, OnOk, OnErr, string_bytes};
ghost use Rattle.std.specs.Str.{IsUtf8};
ghost use Rattle.tok_buffer.specs.Messages.{one_message};
ghost use Rattle.syn_parse.specs.Faults.{Refuses};
ghost use Rattle.syn_parse.specs.Lookahead.{Looked, at_look, look_message, look_missing, looks, more_words, named, named_ends, noted_as, texts_of};
ghost use Rattle.syn_parse.specs.Lookahead as spec;
ghost use Rattle.syn_parse.specs.Takes.{SaysAt};
ghost use Rattle.tok_types.specs.Sees.{Sees};

use crate::fault::Fault;
use crate::stream::ParseBuffer;
use smallvec::SmallVec;
use std::alloc::{AllocError, Global};
use std::marker::Model;
use tok_buffer::{Cursor, Error};
use tok_core::{Delimiter, Span};
use tok_types::token::Token;

/// A helper for choosing between alternatives by peeking at the next token of a stream.
///
/// A lookahead records the name of each token that it does not find. The method `error` returns an
/// error that lists these names.
///
/// # Examples
///
/// ```rust
/// let mut lookahead = input.lookahead1();
/// if lookahead.peek::<token::Fn>()? {
///     parse_function(input)
/// } else if lookahead.peek::<token::Struct>()? {
///     parse_struct(input)
/// } else {
///     Err(lookahead.error())
/// }
/// ```
#[derive(Drop, Debug)]
pub struct Lookahead1<'a> {
    alloc: Global,
    cursor: Cursor<'a>,
    scope_span: Span,
    missed: SmallVec<&'static str, 4>,
}

impl<'a> Model for Lookahead1<'a> {
    ghost use Rattle.tok_buffer.specs.Cursors.{place_of};
    ghost use Rattle.syn_parse.specs.Lookahead.{LookaheadView, coded_look, texts_of};

    ghost Value = { LookaheadView };

    ghost coded = { coded_look };

    ghost view = { λ l. record {
      place = place_of l.cursor;
      scope_span = l.scope_span;
      missed = texts_of l.missed.items;
    } };

    ghost use Rattle.std.specs.Prelude.{◌≤◌};

    ghost invariant = { λ l. 4 ≤ l.missed.capacity };
}

impl<'a> ParseBuffer<'a> {
    /// Creates a lookahead at the position of the stream. The lookahead has not recorded any names.
    pub fn lookahead1(&self) -> Lookahead1<'a>
        ensures { result ≡ looks self.now }
    {
        Lookahead1 {
            alloc: self.allocator(),
            cursor: self.cursor(),
            scope_span: self.scope_span(),
            missed: SmallVec::new(self.allocator()),
        }
    }
}

impl<'a> Lookahead1<'a> {
    /// Returns `true` if the next token is a `T`. Otherwise, records the name of `T`.
    ///
    /// Returns an error if the allocation for the name fails. The name is then not recorded.
    /// Recording the first four names does not allocate.
    pub fn peek<T: Token>(&mut self) -> Result<bool, AllocError>
        ensures ok { IfOk result
            (λ found. T.peeks self.old.place found × Looked T.shown found self.old self.new) }
        ensures err { OnErr result (T.peeks self.old.place false × (self.new ≡ self.old)) }
        ensures room { length self.old.missed < 4 → IsOk result }
        ensures sees { IfOk result (λ found. Sees T.sees self.old.place found) }
    {
        let found = T::peek(self.cursor);
        self.peek_as(found, T::display())
    }

    /// Returns `found`. If `found` is `false`, the call also records the name `display`.
    ///
    /// The method `peek` calls this method after it has looked for the token. Returns an error if
    /// the allocation for the name fails. The name is then not recorded. Recording the first four
    /// names does not allocate.
    pub fn peek_as(&mut self, found: bool, display: &'static str) -> Result<bool, AllocError>
        ensures ok { IfOk result
            (λ is_found. (is_found ≡ found) × (self.new ≡ noted_as found display.now self.old)) }
        ensures err { OnErr result ((found ≡ false) × (self.new ≡ self.old)) }
        ensures room { length self.old.missed < 4 → IsOk result }
    {
        if !found {
            self.missed.push(display)?;
        }
        Ok(found)
    }

    /// Returns an error that names all recorded tokens in the order of their peeks, such as
    /// "expected `,` or `]`".
    ///
    /// For the end of the scope, the error names the scope's closing delimiter. If the scope has no
    /// closing delimiter, the error does not name its end. If there are no names, the text is
    /// "unexpected end of input" or "unexpected token". Returns `Fault::Memory` if an allocation
    /// fails.
    #[tactic(auto, using(crate::proofs::Told::look_told))]
    pub fn error(self) -> Fault
        ensures refuses { Refuses (look_message self.entry) result }
        ensures says { SaysAt (at_look self.entry) (look_missing self.entry) result }
    {
        refused(self)
    }

    // Returns what `error` returns, or an allocation failure.
    fn try_error(&self) -> Result<Error, AllocError>
        ensures { IfOk result (λ e. e ≡ one_message (look_message self.now)) }
    {
        let closing = closing_word(self.cursor.scope_delimiter());
        let missed = self.missed.as_slice();
        let Some(_) = next_name(closing, missed) else {
            return self.unexpected();
        };
        if self.cursor.eof() {
            let text = list(self.alloc, "unexpected end of input, ", closing, missed)?;
            Error::from_string(self.alloc, self.scope_span, text)
        } else {
            let text = list(self.alloc, "", closing, missed)?;
            Error::from_string(self.alloc, self.cursor.start_span(), text)
        }
    }

    // Returns the error that names nothing.
    fn unexpected(&self) -> Result<Error, AllocError>
        ensures { IfOk result
            (λ e. e ≡ one_message (spec.unexpected self.now.place self.now.scope_span)) }
    {
        if self.cursor.eof() {
            Error::new(self.alloc, self.scope_span, "unexpected end of input")
        } else {
            Error::new(self.alloc, self.cursor.span(), "unexpected token")
        }
    }
}

// Does what `Lookahead1::error` does.
fn refused(lookahead: Lookahead1<'_>) -> Fault
    ensures { Refuses (look_message lookahead.entry) result }
{
    Fault::refused(lookahead.try_error())
}

// Returns the name of the end of a scope: its closing delimiter, or nothing.
fn closing_word(delimiter: Delimiter) -> &'static str
    ensures { result.now ≡ spec.closing_word delimiter }
{
    match delimiter {
        Delimiter::Parenthesis => "`)`",
        Delimiter::Brace => "`}`",
        Delimiter::Bracket => "`]`",
        Delimiter::None => "",
    }
}

// Returns the name of this display, if it has one. The end has this name, or none if it is empty.
fn name_of(closing: &'static str, display: &'static str) -> Option<&'static str>
    ensures name { MatchOption result
        (named closing.now display.now ≡ [])
        (λ name. named closing.now display.now ≡ name.now ∷ []) }
    ensures utf8 { IfSome result (λ name. IsUtf8 name.now) }
{
    if display != "`)`" {
        Some(display)
    } else if closing.is_empty() {
        None
    } else {
        Some(closing)
    }
}

// Returns the first name of these displays, and the displays after it.
fn next_name<'m>(
    closing: &'static str,
    missed: &'m [&'static str],
) -> Option<(&'static str, &'m [&'static str])>
    ensures names { let names = named_ends closing.now (texts_of missed.now) in MatchOption result
        (names ≡ [])
        (λ r. names ≡ r.0.now ∷ named_ends closing.now (texts_of r.1.now)) }
    ensures utf8 { IfSome result (λ r. IsUtf8 r.0.now) }
{
    for (index, display) in missed.iter().enumerate() {
        if let Some(name) = name_of(closing, *display) {
            return Some((name, &missed[index + 1..]));
        }
    }
    None
}

// Returns this front and the list of the names of these displays. The text has room for both before
// they are written.
fn list(
    alloc: Global,
    front: &'static str,
    closing: &'static str,
    missed: &[&'static str],
) -> Result<String, AllocError>
    ensures { IfOk result
        (λ text. string_bytes text
        ≡ front.now ++ spec.list_words (named_ends closing.now (texts_of missed.now))) }
{
    let room = front.len().saturating_add(list_len(missed));
    let mut text = String::with_capacity(alloc, room)?;
    text.push_str(front)?;
    push_list(&mut text, closing, missed)?;
    Ok(text)
}

// Counts the bytes of a list of three or more names: each has two characters before it. A shorter
// list takes no more.
fn list_len(missed: &[&'static str]) -> usize {
    let mut len = "expected one of".len();
    for display in missed {
        len = len.saturating_add(", ".len()).saturating_add(display.len());
    }
    len
}

// Appends the list of the names of these displays.
fn push_list(
    text: &mut String,
    closing: &'static str,
    missed: &[&'static str],
) -> Result<(), AllocError>
    ensures { OnOk result (string_bytes text.new
        ≡ string_bytes text.old ++ spec.list_words (named_ends closing.now (texts_of missed.now))) }
{
    let Some((first, others)) = next_name(closing, missed) else {
        return Ok(());
    };
    let Some((second, more)) = next_name(closing, others) else {
        text.push_str("expected ")?;
        return text.push_str(first);
    };
    let Some(_) = next_name(closing, more) else {
        text.push_str("expected ")?;
        text.push_str(first)?;
        text.push_str(" or ")?;
        return text.push_str(second);
    };
    text.push_str("expected one of: ")?;
    text.push_str(first)?;
    push_more(text, closing, others)
}

// Appends the names of these displays to a list of three or more.
fn push_more(
    text: &mut String,
    closing: &'static str,
    missed: &[&'static str],
) -> Result<(), AllocError>
    ensures { OnOk result (string_bytes text.new
        ≡ string_bytes text.old ++ more_words (named_ends closing.now (texts_of missed.now))) }
{
    for display in missed {
        if let Some(name) = name_of(closing, *display) {
            text.push_str(", ")?;
            text.push_str(name)?;
        }
    }
    Ok(())
}
