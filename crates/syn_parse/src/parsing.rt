//! Functions that parse or peek at a token with a given text.
ghost use Rattle.std.specs.Prelude.{◌≡◌, ◌∷◌, [], Some, None, MatchOption, is_some};
ghost use Rattle.std.specs.Str.{chars};
ghost use Rattle.tok_core.specs.Forest.{leaf};
ghost use Rattle.tok_leaves.specs.Leaves.{ident};
ghost use Rattle.tok_buffer.specs.Cursors.{place_of};
ghost use Rattle.tok_buffer.specs.Reads.{read_keyword, read_punctuation, sized};
ghost use Rattle.syn_parse.specs.Faults.{Refuses};
ghost use Rattle.syn_parse.specs.Parses.{PunctuationParses, WordParses, ascii_chars};
ghost use Rattle.syn_parse.specs.ErrorWords.{punctuation_message, punctuation_span};

use crate::fault::{Fault, Result, joined};
use crate::stream::{ParseBuffer, ParseStream};
use tok_buffer::Cursor;
use tok_core::Span;

/// Parses an identifier with the text `text`, and returns its span.
///
/// If this identifier is not next, returns an error that names `text`, and the stream does not
/// move. If `text` is empty, the call always returns an error.
///
/// # Examples
///
/// ```rust
/// let span = parsing::keyword(input, "sealed")?;
/// ```
// Inlined: callers mostly know the text, so a comparison with it is a few instructions.
#[inline(always)]
pub fn keyword(input: ParseStream<'_, '_>, text: &str) -> Result<Span>
    ensures { WordParses (λ span. span) text.now input.old result input.new }
{
    match word(input.cursor(), text) {
        Some((span, rest)) => {
            input.move_to(rest);
            Ok(span)
        }
        None => Err(input.refuse_text(text)),
    }
}

/// Parses the puncts that are the characters of `text`, and returns their spans.
///
/// Each punct except the last must be joint. If these puncts are not next, returns an error that
/// names `text`, and the stream does not move.
///
/// If `text` is not ASCII, is empty or does not have `N` bytes, the call always returns an error.
///
/// # Examples
///
/// ```rust
/// let spans: [Span; 2] = parsing::punct(input, "=~")?;
/// ```
// Inlined: callers know the text, so nothing of it is decoded.
#[inline(always)]
pub fn punct<const N: usize>(input: ParseStream<'_, '_>, text: &str) -> Result<[Span; N]>
    ensures { let text = sized N text.now in PunctuationParses (λ spans. spans) (ascii_chars text)
        text input.old result input.new }
{
    let text = if text.len() == N { text } else { "" };
    let mut spans = [Span::call_site(); N];
    match input.cursor().puncts(text, &mut spans) {
        Some(rest) => {
            input.move_to(rest);
            Ok(spans)
        }
        None => Err(input.punct_error(text)),
    }
}

/// Returns `true` if the next puncts at `cursor` are the characters of `text`.
///
/// Each punct except the last must be joint.
pub fn peek_punct(cursor: Cursor<'_>, text: &str) -> bool
    ensures { result ≡ is_some (read_punctuation (chars text.now) (place_of cursor.entry)) }
{
    cursor.peek_punct(text)
}

impl<'a> ParseBuffer<'a> {
    // Returns the error of a punctuation: without the words for an end, and at the next punct if
    // there is one.
    // Kept out of line, since `punct` is inlined.
    #[inline(never)]
    fn punct_error(&self, text: &str) -> Fault
        ensures { Refuses (punctuation_message text.now self.now) result }
    {
        let span = self.punct_span(text);
        let alloc = self.allocator();
        Fault::of_text(alloc, span, joined(alloc, "expected `", text, "`"))
    }

    fn punct_span(&self, text: &str) -> Span
        ensures { result ≡ punctuation_span text.now self.now }
    {
        if text.is_empty() {
            return self.span();
        }
        match self.cursor().punct() {
            Some((punct, _)) => punct.span(),
            None => self.span(),
        }
    }
}

// Returns the span of the next token if it is the identifier with this text, and the cursor after
// it.
#[inline(always)]
#[tactic(auto, using(crate::proofs::Names::keyword_none, crate::proofs::Names::keyword_other))]
fn word<'a>(cursor: Cursor<'a>, text: &str) -> Option<(Span, Cursor<'a>)>
    ensures { MatchOption result
        (read_keyword text.now (place_of cursor.entry) ≡ None)
        (λ r. read_keyword text.now (place_of cursor.entry)
        ≡ Some (leaf (ident text.now r.0) ∷ [], place_of r.1)) }
{
    if text.is_empty() {
        return None;
    }
    let (ident, rest) = cursor.ident()?;
    if text == ident.as_str() {
        Some((ident.span(), rest))
    } else {
        None
    }
}
