//! A builder, together with the groups that are open.
ghost use Rattle.std.specs.Prelude.{◌≡◌, ℕ, ◌+◌, ◌++◌, ◌<◌, ◌≤◌, ◌^◌, ◌∷◌, [], List, length, IfOk, IfErr, OnOk, None, if◌then◌else◌, true};
ghost use Rattle.std.specs.Str.{chars, IsUtf8};
ghost use Rattle.tok_core.specs.Private.Built.{state, Grows, Reached, IsPaired, Halts, IsTooDeep, IsUnfit};
ghost use Rattle.tok_core.specs.Private.Halted.{OnHalted};
ghost use Rattle.tok_core.specs.Private.Taken.{HaltsAt, Taken};
ghost use Rattle.tok_core.specs.Lexical.Items.{opening, closing};
ghost use Rattle.tok_lexical.specs.Ascii.{apostrophe};
ghost use Rattle.tok_lexical.specs.Contents.{has_return};
ghost use Rattle.tok_lexical.specs.Errors.{error_kind};
ghost use Rattle.tok_core.specs.Lexical.Meaning.{items, ident_item, is_joint, literal_item, punct_item, pointed_items, doc_items};
ghost use Rattle.tok_lexical.specs.Widths.{bytes, width};
ghost use Rattle.tok_lexical.specs.Fits.{IsFirstFit};
ghost use Rattle.tok_lexical.specs.Rules.{rules_of, Spells};

use crate::lexer::attribute::append_doc;
use crate::lexer::build::Build;
use crate::lexer::error::Halt;
use std::alloc::{AllocError, Global};
use tok_leaves::{Spacing, Span, Text, known};
use tok_lexical::comments::{
    block_doc_text, is_block_doc, is_inner_doc, is_line_doc, line_doc_contents,
};
use tok_lexical::joint::{makes_joint, makes_joint_apostrophe, past_marks, takes_point};
use tok_lexical::text::{first_of, front_of, past_first, up_to};
use tok_lexical::{
    Delimiter, LexErrorKind, Mode, Rule, error_kind, first_rule, past_told_identifier,
    past_told_punct,
};

/// The most groups that may be nested.
pub const MOST_LEVELS: usize = 256;

/// A builder, together with the delimiters and the positions of its open groups.
///
/// `open` contains the groups from the outermost to the innermost.
#[derive(Drop)]
pub struct Nest<B> {
    pub alloc: Global,
    pub source: u32,
    pub open: Vec<(Delimiter, usize)>,
    pub built: B,
}

// The part of a text that a rule recognizes.
#[derive(Clone, Copy)]
struct Piece<'a> {
    // The byte of the source at which the part begins, and the one at which it ends.
    at: usize,
    end: usize,
    // The part, what follows it, and both.
    text: &'a str,
    after: &'a str,
    whole: &'a str,
}

fn spacing(is_joint: bool) -> Spacing
    ensures { result ≡ (if is_joint then Spacing.Joint else Spacing.Alone) }
{
    if is_joint {
        Spacing::Joint
    } else {
        Spacing::Alone
    }
}

/// Returns `true` if a punct directly before `after` is joint.
///
/// In `Mode::Marked`, the call ignores `«` and `»` at the start of `after`.
#[inline(always)]
fn is_joint(mode: Mode, after: &str) -> bool
    ensures { result ≡ is_joint mode (chars after.now) }
{
    match mode {
        Mode::Marked => makes_joint(past_marks(after)),
        Mode::Plain | Mode::Source(_) => makes_joint(after),
    }
}

impl<B: Build + Drop> Nest<B> {
    /// Creates a `Nest` without open groups.
    pub fn new(alloc: Global, source: u32, built: B) -> Nest<B>
        ensures source { result.source ≡ source }
        ensures open { result.«open».items ≡ [] }
        ensures built { result.built ≡ built }
    {
        Nest {
            alloc,
            source,
            open: Vec::new(alloc),
            built,
        }
    }

    fn punct(&mut self, at: usize, ch: char, is_joint: bool) -> Result<(), AllocError>
        requires fits { at + 1 < 2 ^ 64 }
        ensures { (from : ℕ)
            → OnOk result
            (Grows from (state B.levels self.old) (state B.levels self.new)
            (punct_item self.old.source at ch is_joint ∷ [])) }
    {
        let span = Span::source(self.source, at, at + 1);
        let punct = known::unchecked_punct(ch, spacing(is_joint), span);
        self.built.punct(punct)?;
        Ok(())
    }

    // Appends an identifier, whose text is at the front of `whole`.
    // Inlined: most pieces are identifiers, and a call would save and restore registers for each.
    #[inline(always)]
    fn ident(&mut self, start: usize, end: usize, text: &str, whole: &str) -> Result<(), AllocError>
        requires order { start ≤ end }
        requires front { (rest : List ℕ) × (chars whole.now ≡ chars text.now ++ rest) }
        ensures { (at : ℕ)
            → OnOk result
            (Grows at (state B.levels self.old) (state B.levels self.new)
            (ident_item self.old.source start end (chars text.now) ∷ [])) }
    {
        let text = Text::from_front(self.alloc, text, whole)?;
        let span = Span::source(self.source, start, end);
        self.built.ident(known::unchecked_ident(text, span))?;
        Ok(())
    }

    // Appends a literal, whose text is at the front of `whole`.
    // Inlined: literals are appended in two places, and a call would cost the more frequent one.
    #[inline(always)]
    fn literal(
        &mut self,
        start: usize,
        end: usize,
        text: &str,
        whole: &str,
    ) -> Result<(), AllocError>
        requires order { start ≤ end }
        requires front { (rest : List ℕ) × (chars whole.now ≡ chars text.now ++ rest) }
        ensures { OnOk result
            (Grows start (state B.levels self.old) (state B.levels self.new)
            (literal_item self.old.source start end (chars text.now) ∷ [])) }
    {
        let text = Text::from_front(self.alloc, text, whole)?;
        let span = Span::source(self.source, start, end);
        self.built.literal(known::unchecked_literal(text, span))?;
        Ok(())
    }

    /// Appends the apostrophe and the identifier of a lifetime.
    // Kept out of line: lifetimes are rare, and inlining them takes registers from the loop over
    // pieces.
    #[inline(never)]
    fn lifetime(&mut self, at: usize, end: usize, name: &str) -> Result<(), AllocError>
        requires fits { at + 1 < 2 ^ 64 }
        requires order { at + 1 ≤ end }
        ensures { OnOk result
            (Grows at (state B.levels self.old) (state B.levels self.new)
            (punct_item self.old.source at apostrophe true
            ∷ ident_item self.old.source (at + 1) end (chars name.now) ∷ [])) }
    {
        self.punct(at, '\'', true)?;
        self.ident(at + 1, end, name, name)?;
        Ok(())
    }

    /// Appends decimal digits and a dot, either as a float or as an integer and a punct.
    #[inline(never)]
    fn pointed(&mut self, piece: Piece<'_>) -> Result<(), AllocError>
        requires front { chars piece.whole.now ≡ chars piece.text.now ++ chars piece.after.now }
        requires some { piece.at < piece.end }
        requires ends { piece.end ≡ piece.at + bytes (chars piece.text.now) }
        ensures { OnOk result
            (Grows piece.entry.at (state B.levels self.old) (state B.levels self.new)
            (pointed_items self.old.source piece.entry.at (chars piece.entry.text.now)
            (chars piece.entry.after.now))) }
    {
        let Piece {
            at,
            end,
            text,
            after,
            whole,
        } = piece;
        let is_float = takes_point(after);
        if is_float {
            self.literal(at, end, text, whole)?;
        } else {
            let dot = end - 1;
            let digits = up_to(text, b'.');
            self.literal(at, dot, digits, whole)?;
            self.punct(dot, '.', makes_joint(after))?;
        }
        Ok(())
    }

    /// Appends the attribute of a doc comment.
    ///
    /// Returns an error if 256 groups are already open, because the attribute contains a group.
    #[inline(never)]
    fn doc(&mut self, at: usize, end: usize, is_inner: bool, text: &str) -> Result<(), Halt>
        requires order { at ≤ end }
        ensures ok { OnOk result
            (Grows at (state B.levels self.old) (state B.levels self.new)
            (doc_items self.old.source at end is_inner (chars text.now))) }
        ensures refused { IfErr result
            (λ halt. OnHalted halt (IsTooDeep (state B.levels self.old))) }
    {
        let levels = self.open.len();
        if levels == MOST_LEVELS {
            return Err(Halt::Refused(LexErrorKind::DeepGroup));
        }
        let span = Span::source(self.source, at, end);
        append_doc(&mut self.built, self.alloc, span, is_inner, text)?;
        Ok(())
    }

    /// Opens a group. Returns an error if 256 groups are already open.
    fn open(&mut self, delimiter: Delimiter, at: usize) -> Result<(), Halt>
        ensures ok { OnOk result
            (Grows at (state B.levels self.old) (state B.levels self.new)
            (opening delimiter at ∷ [])) }
        ensures refused { IfErr result
            (λ halt. OnHalted halt (IsTooDeep (state B.levels self.old))) }
    {
        if self.open.len() == MOST_LEVELS {
            return Err(Halt::Refused(LexErrorKind::DeepGroup));
        }
        self.built.open()?;
        match self.open.push((delimiter, at)) {
            Ok(()) => Ok(()),
            Err(failed) => Err(AllocError::from(failed).into()),
        }
    }

    /// Closes the innermost group. Returns an error if the group does not have the delimiter
    /// `delimiter`, or if no group is open.
    // Inlined: every group is closed, and a call would save and restore registers for each.
    #[inline(always)]
    fn close(&mut self, delimiter: Delimiter, at: usize, end: usize) -> Result<(), Halt>
        requires order { at ≤ end }
        requires reached { Reached self.old.«open».items at }
        requires paired { IsPaired (state B.levels self.old) }
        ensures ok { OnOk result
            (Grows at (state B.levels self.old) (state B.levels self.new)
            (closing delimiter end ∷ [])) }
        ensures refused { IfErr result
            (λ halt. OnHalted halt (IsUnfit (state B.levels self.old) delimiter)) }
    {
        let Some((opened, start)) = self.open.pop() else {
            return Err(Halt::Refused(LexErrorKind::UnexpectedClosing));
        };
        if opened != delimiter {
            return Err(Halt::Refused(LexErrorKind::UnexpectedClosing));
        }
        let span = Span::source(self.source, start, end);
        self.built.close(delimiter, span)?;
        Ok(())
    }

    /// Appends the first token of `text` to the builder, or skips leading white space or a comment.
    ///
    /// `text` begins at byte `at`. Returns the byte at which the rest of `text` begins, and the
    /// rest of `text`.
    ///
    /// # Requires
    ///
    /// - `text` must not be empty.
    /// - If `text` contains a carriage return, `returns` must be `true`.
    // Most pieces are told by their first character. Where their rule stands in the code, no table
    // of rules is asked for it, three times a piece.
    #[inline(always)]
    pub fn take_first<'a>(
        &mut self,
        mode: Mode,
        at: usize,
        text: &'a str,
        returns: bool,
    ) -> Result<(usize, &'a str), Halt>
        requires some { chars text.now ≡ [] → ⊥ }
        requires returns { has_return (chars text.now) ≡ true → returns ≡ true }
        requires fits { at + length text.now < 2 ^ 64 }
        requires reached { Reached self.old.«open».items at }
        requires paired { IsPaired (state B.levels self.old) }
        ensures taken { IfOk result
            (λ next. Taken mode at (state B.levels self.old) (state B.levels self.new)
            (chars text.now) next.0 (chars next.1.now)) }
        ensures utf8 { IfOk result (λ next. IsUtf8 next.1.now) }
        ensures refused { IfErr result
            (λ halt. OnHalted halt (HaltsAt self.old.«open».items mode at (chars text.now))) }
    {
        if let Some(after) = past_told_identifier(text) {
            let end = self.take(Rule::Identifier, mode, at, text, after, returns)?;
            return Ok((end, after));
        }
        if let Some(after) = past_told_punct(text) {
            let end = self.take(Rule::Punct, mode, at, text, after, returns)?;
            return Ok((end, after));
        }
        let Some((rule, after)) = first_rule(mode, text) else {
            unreachable!();
        };
        let end = self.take(rule, mode, at, text, after, returns)?;
        Ok((end, after))
    }

    /// Appends the part of `text` that `rule` recognizes, and returns the byte at which this part
    /// ends.
    ///
    /// `after` is the text after the part.
    ///
    /// # Requires
    ///
    /// - `rule` must be the first rule that fits.
    /// - If `text` contains a carriage return, `returns` must be `true`.
    #[inline(always)]
    fn take(
        &mut self,
        rule: Rule,
        mode: Mode,
        at: usize,
        text: &str,
        after: &str,
        returns: bool,
    ) -> Result<usize, Halt>
        requires found { (piece : List ℕ)
            × IsFirstFit (chars text.now) (rules_of mode) rule piece (chars after.now) }
        requires returns { has_return (chars text.now) ≡ true → returns ≡ true }
        requires fits { at + length text.now < 2 ^ 64 }
        requires reached { Reached self.old.«open».items at }
        requires paired { IsPaired (state B.levels self.old) }
        ensures taken { IfOk result
            (λ end. Taken mode at (state B.levels self.old) (state B.levels self.new)
            (chars text.now) end (chars after.now)) }
        ensures refused { IfErr result
            (λ halt. OnHalted halt (HaltsAt self.old.«open».items mode at (chars text.now))) }
    {
        let front = front_of(text, after);
        let end = at + rule.width(front);
        let piece = Piece {
            at,
            end,
            text: front,
            after,
            whole: text,
        };
        match self.take_in(rule, mode, piece, returns) {
            Ok(()) => Ok(end),
            Err(halt) => Err(halt),
        }
    }

    /// Appends `piece`, which `rule` recognizes.
    ///
    /// # Requires
    ///
    /// If the text of `piece` contains a carriage return, `returns` must be `true`.
    // Inlined, so that nothing is left of it where the rule is known but what the rule asks for.
    #[inline(always)]
    fn take_in(
        &mut self,
        rule: Rule,
        mode: Mode,
        piece: Piece<'_>,
        returns: bool,
    ) -> Result<(), Halt>
        requires front { chars piece.whole.now ≡ chars piece.text.now ++ chars piece.after.now }
        requires returns { has_return (chars piece.text.now) ≡ true → returns ≡ true }
        requires spelled { Spells rule (chars piece.text.now) }
        requires ends { piece.end ≡ piece.at + width rule (chars piece.text.now) }
        requires fits { piece.at + 1 < 2 ^ 64 }
        requires reached { Reached self.old.«open».items piece.at }
        requires paired { IsPaired (state B.levels self.old) }
        ensures meant { OnOk result
            (error_kind rule mode piece.entry.at (chars piece.entry.text.now)
            (chars piece.entry.after.now) ≡ None) }
        ensures ok { OnOk result
            (Grows piece.entry.at (state B.levels self.old) (state B.levels self.new)
            (items self.old.source rule mode piece.entry.at (chars piece.entry.text.now)
            (chars piece.entry.after.now))) }
        ensures refused { IfErr result
            (λ halt. OnHalted halt
            (Halts self.old.«open».items rule mode piece.entry.at (chars piece.entry.text.now)
            (chars piece.entry.after.now))) }
    {
        let Piece {
            at,
            end,
            text,
            after,
            whole,
        } = piece;
        // Before the search for an error, which no mark of a group needs.
        match rule {
            Rule::Opening(delimiter) => return self.open(delimiter, at),
            Rule::Closing(delimiter) => return self.close(delimiter, at, end),
            _ => {}
        }
        if let Some(kind) = error_kind(rule, mode, at, text, after, returns) {
            return Err(Halt::Refused(kind));
        }
        match rule {
            Rule::LineComment => {
                if is_line_doc(text) {
                    return self.doc(
                        at,
                        end,
                        is_inner_doc(text),
                        line_doc_contents(text, returns),
                    );
                }
            }
            Rule::BlockComment => {
                if is_block_doc(text) {
                    return self.doc(at, end, is_inner_doc(text), block_doc_text(text));
                }
            }
            Rule::PointedDecimal => self.pointed(piece)?,
            Rule::Lifetime | Rule::PlainLifetime => self.lifetime(at, end, past_first(text))?,
            Rule::Apostrophe => self.punct(at, '\'', makes_joint_apostrophe(after))?,
            Rule::Punct => self.punct(at, first_of(text), is_joint(mode, after))?,
            Rule::RawIdentifier | Rule::Identifier => self.ident(at, end, text, whole)?,
            Rule::QuotedString(_)
            | Rule::ByteChar
            | Rule::RawString(_)
            | Rule::EscapedChar
            | Rule::PlainChar
            | Rule::Based(_)
            | Rule::Float
            | Rule::Decimal => self.literal(at, end, text, whole)?,
            _ => {}
        }
        Ok(())
    }
}
