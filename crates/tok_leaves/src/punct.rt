//! Puncts, which are single punctuation characters.
ghost use Rattle.std.specs.Prelude.{◌≡◌, MatchOption, true, false, Some};
ghost use Rattle.tok_leaves.specs.Leaves.{leaf_char, leaf_spacing, leaf_text, punct, punct_of, leaf_span};
ghost use Rattle.tok_lexical.specs.Characters.{is_punct_or_apostrophe};
ghost use Rattle.tok_leaves.specs.Spans.{call_site};

use crate::span::Span;
use std::fmt::{self, Display, Formatter, Write};
use tok_lexical::classes::is_punct_or_apostrophe;

/// Describes whether another punctuation character is directly after a punct.
///
/// For example, the `+` in `+=` is `Joint`, and the `+` in `+ =` is `Alone`.
#[derive(Clone, Copy, PartialEq, Eq, Debug)]
pub enum Spacing {
    Alone,
    Joint,
}

/// A punctuation character with its spacing and its span.
#[derive(Clone, Copy, Debug)]
pub struct Punct {
    ch: char,
    spacing: Spacing,
    span: Span,
}

impl Punct {
    /// Creates a punct with the call site as its span.
    ///
    /// Returns `None` if `ch` is neither an apostrophe nor one of `!#$%&*+,-./:;<=>?@^|~`.
    pub fn new(ch: char, spacing: Spacing) -> Option<Punct>
        ensures { MatchOption result (is_punct_or_apostrophe ch ≡ false)
            (λ p. (is_punct_or_apostrophe ch ≡ true) × (punct_of p ≡ punct ch spacing call_site)) }
    {
        Punct::new_spanned(ch, spacing, Span::call_site())
    }

    /// Creates a punct with the span `span`.
    ///
    /// Returns `None` if `ch` is neither an apostrophe nor one of `!#$%&*+,-./:;<=>?@^|~`.
    pub fn new_spanned(ch: char, spacing: Spacing, span: Span) -> Option<Punct>
        ensures { MatchOption result (is_punct_or_apostrophe ch ≡ false)
            (λ p. (is_punct_or_apostrophe ch ≡ true) × (punct_of p ≡ punct ch spacing span)) }
    {
        if is_punct_or_apostrophe(ch) {
            Some(Punct::unchecked(ch, spacing, span))
        } else {
            None
        }
    }

    // Doesn't test the character.
    pub(crate) fn unchecked(ch: char, spacing: Spacing, span: Span) -> Punct
        ensures { punct_of result ≡ punct ch spacing span }
    {
        Punct { ch, spacing, span }
    }

    /// Returns the character of the punct.
    pub fn as_char(&self) -> char
        ensures { result ≡ leaf_char (punct_of self.now) }
    {
        self.ch
    }

    /// Returns the spacing of the punct.
    ///
    /// The spacing is `Joint` if another punctuation character is directly after the punct, and
    /// `Alone` otherwise.
    pub fn spacing(&self) -> Spacing
        ensures { result ≡ leaf_spacing (punct_of self.now) }
    {
        self.spacing
    }

    /// Returns the span of the punct.
    pub fn span(&self) -> Span
        ensures { result ≡ leaf_span (punct_of self.now) }
    {
        self.span
    }

    /// Sets the span of the punct.
    pub fn set_span(&mut self, span: Span)
        ensures { punct_of self.new
            ≡ punct (leaf_char (punct_of self.old)) (leaf_spacing (punct_of self.old)) span }
    {
        self.span = span;
    }
}

/// Writes the character of the punct.
impl Display for Punct {
    ghost output = { λ p. Some (leaf_text (punct_of p)) };

    fn fmt<W: Write>(&self, f: &mut Formatter<W>) -> fmt::Result {
        f.write_char(self.ch)
    }
}
