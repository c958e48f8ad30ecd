//! Methods of `Cursor` that read a token, skip a token or enter a group.
ghost use Rattle.std.specs.Prelude.{◌≡◌, ◌∷◌, [], length, MatchOption, Some, None, is_some};
ghost use Rattle.std.specs.Str.{chars};
ghost use Rattle.tok_lexical.specs.Ascii.{apostrophe};
ghost use Rattle.tok_leaves.specs.Leaves.{punct_of, punct, ident_of, literal_of};
ghost use Rattle.tok_leaves.specs.Spans.{whole_span};
ghost use Rattle.tok_leaves.specs.declared.punct.Spacing.TheVariants.{Joint};
ghost use Rattle.tok_core.specs.Clear.{is_joint_apostrophe};
ghost use Rattle.tok_core.specs.Forest.{leaf};
ghost use Rattle.tok_core.specs.Seen.{lifetime_trees};
ghost use Rattle.tok_buffer.specs.Cursors.{place_of, spot_place};
ghost use Rattle.tok_buffer.specs.Descent.{descend};
ghost use Rattle.tok_buffer.specs.Entry.{enter_any, entered_of, enter};
ghost use Rattle.tok_buffer.specs.Gives.{Gives};
ghost use Rattle.tok_buffer.specs.Reads.{read_then, any_text, place_after, skip, read_if, read_ident, read_keyword, read_punct, read_literal, read_lifetime, read_tree, read_word};
ghost use Rattle.tok_buffer.specs.Reads.{is_punct_of, read_next, read_punctuation, read_spans, sized};
ghost use Rattle.tok_buffer.specs.Reads as spec;
ghost use Rattle.tok_buffer.specs.Trees.{EndsScope, read_visible};

use crate::cursor::{Cursor, LifetimeRef};
use crate::entry::{Entry, same};
use crate::spot::Spot;
use tok_core::{DelimSpan, Delimiter, Ident, Literal, Punct, Spacing, Span};
use tok_lexical::text::next_char;

impl<'a> Cursor<'a> {
    /// Reads an identifier, which may be a keyword or `_`.
    ///
    /// Returns the identifier and the cursor after it, or `None` if the next token is not an
    /// identifier.
    pub fn ident(self) -> Option<(&'a Ident, Cursor<'a>)>
        ensures { Gives result (read_ident (place_of self.entry))
            (λ r. (leaf (ident_of r.0.now) ∷ [], place_of r.1)) }
    {
        let spot = self.spot?.ignore_none();
        match spot.entry() {
            Entry::Ident(ident) => Some((ident, Cursor::at(spot.bump()))),
            _ => None,
        }
    }

    /// Reads a punct other than an apostrophe.
    ///
    /// Returns the punct and the cursor after it, or `None` if the next token is not such a punct.
    pub fn punct(self) -> Option<(Punct, Cursor<'a>)>
        ensures { Gives result (read_punct (place_of self.entry))
            (λ r. (leaf (punct_of r.0) ∷ [], place_of r.1)) }
    {
        let spot = self.spot?.ignore_none();
        match spot.entry() {
            Entry::Punct(punct) => {
                if punct.as_char() == '\'' {
                    None
                } else {
                    Some((*punct, Cursor::at(spot.bump())))
                }
            }
            _ => None,
        }
    }

    /// Reads a literal.
    ///
    /// Returns the literal and the cursor after it, or `None` if the next token is not a literal.
    pub fn literal(self) -> Option<(&'a Literal, Cursor<'a>)>
        ensures { Gives result (read_literal (place_of self.entry))
            (λ r. (leaf (literal_of r.0.now) ∷ [], place_of r.1)) }
    {
        let spot = self.spot?.ignore_none();
        match spot.entry() {
            Entry::Literal(literal) => Some((literal, Cursor::at(spot.bump()))),
            _ => None,
        }
    }

    /// Reads a lifetime, which consists of a joint apostrophe and an identifier.
    ///
    /// The identifier may be a keyword. The call ignores the delimiters of invisible groups between
    /// the apostrophe and the identifier.
    ///
    /// Returns the lifetime and the cursor after it, or `None` if the next token is not a lifetime.
    pub fn lifetime(self) -> Option<(LifetimeRef<'a>, Cursor<'a>)>
        ensures { Gives result (read_lifetime any_text (place_of self.entry))
            (λ r. (lifetime_trees r.0.apostrophe (ident_of r.0.ident.now), place_of r.1)) }
    {
        Cursor::at(self.spot?.ignore_none()).front_lifetime()
    }

    // Returns the lifetime whose apostrophe is the next entry.
    fn front_lifetime(self) -> Option<(LifetimeRef<'a>, Cursor<'a>)>
        ensures { Gives result
            (read_then (read_if is_joint_apostrophe (place_of self.entry)) (read_word any_text))
            (λ r. (lifetime_trees r.0.apostrophe (ident_of r.0.ident.now), place_of r.1)) }
    {
        let (apostrophe, name) = self.apostrophe()?;
        let (ident, rest) = name.ident()?;
        Some((LifetimeRef { apostrophe, ident }, rest))
    }

    // Returns the span of the next entry, if it is a joint apostrophe.
    fn apostrophe(self) -> Option<(Span, Cursor<'a>)>
        ensures { Gives result (read_if is_joint_apostrophe (place_of self.entry))
            (λ r. (leaf (punct apostrophe Joint r.0) ∷ [], place_of r.1)) }
    {
        let spot = self.spot?;
        match spot.entry() {
            Entry::Punct(punct) => {
                if is_apostrophe(*punct) {
                    Some((punct.span(), Cursor::at(spot.bump())))
                } else {
                    None
                }
            }
            _ => None,
        }
    }

    /// Skips the next token, and returns the cursor after that token.
    ///
    /// A lifetime counts as one token, and so does a visible group with all of its contents.
    /// Returns `None` if no visible tree is left in the scope.
    pub fn skip(self) -> Option<Cursor<'a>>
        ensures { Gives result (skip (place_of self.entry)) place_of }
    {
        let front = Cursor::at(self.spot?.ignore_none());
        match front.front_lifetime() {
            Some((_, rest)) => Some(rest),
            None => front.after_front(),
        }
    }

    /// Skips the next visible tree, and returns the cursor after that tree.
    ///
    /// The skipped tree is the one that `visible_tree` copies. A lifetime consists of two trees:
    /// the apostrophe and the identifier. Returns `None` if no visible tree is left in the scope.
    pub fn skip_tree(self) -> Option<Cursor<'a>>
        ensures { Gives result (place_after (read_visible (place_of self.entry))) place_of }
    {
        Cursor::at(self.spot?.ignore_none()).after_front()
    }

    // Returns the cursor after the next tree.
    fn after_front(self) -> Option<Cursor<'a>>
        ensures { Gives result (place_after (read_tree (place_of self.entry))) place_of }
    {
        match self.any_group() {
            Some((_, _, _, after)) => Some(after),
            None => {
                if self.eof() {
                    None
                } else {
                    Some(Cursor::at(self.spot?.bump()))
                }
            }
        }
    }

    /// Returns a cursor at the end of this cursor's scope.
    pub fn scope_end(self) -> Cursor<'a>
        ensures { EndsScope (place_of self.entry) (place_of result) }
    {
        let mut rest = self;
        while let Some(after) = rest.after_front() {
            rest = after;
        }
        rest
    }

    /// Returns `true` if the next token is an identifier whose text is `text`.
    ///
    /// Returns `false` if `text` is empty.
    // Inlined: callers mostly know the text, so a comparison with it is a few instructions.
    #[inline(always)]
    pub fn peek_keyword(self, text: &str) -> bool
        ensures { result ≡ is_some (read_keyword text.now (place_of self.entry)) }
    {
        match self.ident() {
            Some((ident, _)) => !text.is_empty() && ident.as_str() == text,
            None => false,
        }
    }

    /// Enters the next tree if it is a visible or invisible group.
    ///
    /// Returns the cursor at the start of the contents, the delimiter and the span of the group,
    /// and the cursor after the group. Returns `None` if the next tree is not a group.
    pub fn any_group(self) -> Option<(Cursor<'a>, Delimiter, DelimSpan, Cursor<'a>)>
        ensures { Gives result (enter_any (place_of self.entry))
            (λ r. record {
              delimiter = r.1;
              span = whole_span r.2;
              content = place_of r.0;
              after = place_of r.3;
            }) }
    {
        let spot = self.spot?;
        match spot.entry() {
            Entry::Group(group, offset) => {
                let content = Spot::inside(spot.buffer, spot.position, *offset, spot.scope);
                let after = Spot::past(spot.buffer, spot.position, *offset, spot.scope);
                Some((
                    Cursor::at(content),
                    group.delimiter,
                    DelimSpan::new(group.span),
                    Cursor::at(after),
                ))
            }
            _ => None,
        }
    }

    /// Enters the next group if its delimiter is `delimiter`.
    ///
    /// Returns the cursor at the start of the contents, the span of the group, and the cursor after
    /// the group. Returns `None` if no group with this delimiter is next.
    ///
    /// If `delimiter` is visible, the call first enters every invisible group that is next.
    pub fn group(self, delimiter: Delimiter) -> Option<(Cursor<'a>, DelimSpan, Cursor<'a>)>
        ensures { Gives result (enter delimiter (place_of self.entry))
            (λ r. record {
              delimiter = delimiter;
              span = whole_span r.1;
              content = place_of r.0;
              after = place_of r.2;
            }) }
    {
        if same(delimiter, Delimiter::None) {
            self.front_group(delimiter)
        } else {
            Cursor::at(self.spot?.ignore_none()).front_group(delimiter)
        }
    }

    // Enters the group of this delimiter that opens at the next entry.
    fn front_group(self, delimiter: Delimiter) -> Option<(Cursor<'a>, DelimSpan, Cursor<'a>)>
        ensures { Gives result (entered_of delimiter (enter_any (place_of self.entry)))
            (λ r. record {
              delimiter = delimiter;
              span = whole_span r.1;
              content = place_of r.0;
              after = place_of r.2;
            }) }
    {
        let (content, found, span, after) = self.any_group()?;
        if same(delimiter, found) {
            Some((content, span, after))
        } else {
            None
        }
    }

    /// Returns `true` if the next puncts are the characters of `text`.
    ///
    /// Each punct except the last must be joint. Returns `false` if `text` is empty or contains an
    /// apostrophe.
    // Inlined, as `puncts` is: nothing is left of the decoding and of the loop.
    #[inline(always)]
    pub fn peek_punct(self, text: &str) -> bool
        ensures { result ≡ is_some (read_punctuation (chars text.now) (place_of self.entry)) }
    {
        let Some(mut spot) = self.spot else {
            return false;
        };
        let Some((first, after)) = next_char(text) else {
            return false;
        };
        let mut wanted = first;
        let mut rest = after;
        while let Some((next, after)) = next_char(rest) {
            match spot.next_of(wanted, rest) {
                Some((_, ahead)) => spot = ahead,
                None => return false,
            }
            wanted = next;
            rest = after;
        }
        spot.peek_char(wanted)
    }

    /// Reads the puncts that are the characters of `text`, and returns the cursor after them.
    ///
    /// Each punct except the last must be joint. The call writes the span of each punct to `spans`,
    /// and does not allocate.
    ///
    /// Returns `None` if these puncts are not next, if `text` is empty, or if the length of `spans`
    /// is not the number of characters. The elements of `spans` are then unspecified.
    // Inlined, with what it calls: parsers know the text and the number of spans, so nothing is left
    // of the decoding and of the loop.
    #[inline(always)]
    pub fn puncts(self, text: &str, spans: &mut [Span]) -> Option<Cursor<'a>>
        ensures { MatchOption result
            (read_punctuation (sized (length spans.old) (chars text.now)) (place_of self.entry)
            ≡ None)
            (λ r. read_spans
            (read_punctuation (sized (length spans.old) (chars text.now)) (place_of self.entry))
            ≡ Some (spans.new, place_of r)) }
    {
        if spans.is_empty() {
            return None;
        }
        let mut spot = self.spot?;
        let mut rest = text;
        for span in spans.iter_mut() {
            let Some((wanted, after)) = next_char(rest) else {
                return None;
            };
            let Some((punct, ahead)) = spot.next_of(wanted, after) else {
                return None;
            };
            *span = punct.span();
            spot = ahead;
            rest = after;
        }
        match next_char(rest) {
            None => Some(Cursor::at(spot)),
            Some(_) => None,
        }
    }
}

impl<'a> Spot<'a> {
    // Reads the first of the wanted characters, joint if more of them follow.
    #[inline(always)]
    fn next_of(self, wanted: char, rest: &str) -> Option<(&'a Punct, Spot<'a>)>
        ensures { Gives result (read_next wanted (chars rest.now) (spot_place self.entry))
            (λ r. (leaf (punct_of r.0.now) ∷ [], spot_place r.1)) }
    {
        let spot = self.ignore_none();
        match spot.entry() {
            Entry::Punct(punct) => {
                if is_next_of(*punct, wanted, rest) {
                    Some((punct, spot.bump()))
                } else {
                    None
                }
            }
            _ => None,
        }
    }

    // Returns `true` if the next token is a punct of this character.
    #[inline(always)]
    fn peek_char(self, wanted: char) -> bool
        ensures { result
            ≡ is_some (read_if (is_punct_of wanted) (descend (spot_place self.entry))) }
    {
        match self.ignore_none().entry() {
            Entry::Punct(punct) => is_punct_of(*punct, wanted),
            _ => false,
        }
    }
}

fn is_apostrophe(punct: Punct) -> bool
    ensures { result ≡ is_joint_apostrophe (leaf (punct_of punct)) }
{
    match punct.spacing() {
        Spacing::Joint => punct.as_char() == '\'',
        Spacing::Alone => false,
    }
}

// Returns `true` for a punct of this character, joint if more characters follow.
#[inline(always)]
fn is_next_of(punct: Punct, wanted: char, rest: &str) -> bool
    ensures { result ≡ spec.is_next_of wanted (chars rest.now) (leaf (punct_of punct)) }
{
    is_punct_of(punct, wanted) && (rest.is_empty() || matches!(punct.spacing(), Spacing::Joint))
}

#[inline(always)]
fn is_punct_of(punct: Punct, wanted: char) -> bool
    ensures { result ≡ spec.is_punct_of wanted (leaf (punct_of punct)) }
{
    punct.as_char() == wanted && punct.as_char() != '\''
}
