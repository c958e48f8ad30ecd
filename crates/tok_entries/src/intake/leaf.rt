//! Reads the entries of identifiers, puncts and literals.
ghost use Rattle.std.specs.Prelude.{◌≡◌, ◌+◌, ◌<◌, ◌^◌, ◌++◌, length, true, IfOk, IfErr, IfSome, MatchBool, MatchOption};
ghost use Rattle.std.specs.Str.{IsUtf8};
ghost use Rattle.tok_leaves.specs.Leaves.{Leaf, ident, leaf_text, literal, punct, punct_of};
ghost use Rattle.tok_core.specs.Building.{add_leaf};
ghost use Rattle.tok_lexical.specs.Characters.{is_punct_or_apostrophe};
ghost use Rattle.std.specs.Prelude.{ℕ, List, encode_utf8};
ghost use Rattle.tok_entries.specs.Entries as spec;
ghost use Rattle.tok_entries.specs.Blames.{FitsLeaf};
ghost use Rattle.tok_entries.specs.Refusals.{IsAmong, OnRejected};
ghost use Rattle.tok_entries.specs.Private.Parts.{AreLeafParts, RejectsLeaf};
ghost use Rattle.tok_entries.specs.Texts.{IsLeafIn, IsLiteralText, IsWord};

use crate::entry::{Entry, IDENT, LITERAL, PUNCT, leaf, spacing_number};
use crate::intake::fault::{EntryFault, Refusal};
use crate::intake::parts::{source_span, text_up_to};
use crate::texts::{is_literal, is_word};
use std::alloc::{AllocError, Global};
use tok_core::{Build, Punct, Spacing, Span, Text};
use tok_leaves::known::{unchecked_ident, unchecked_literal};

// Reads the leaf of an entry, whose text begins at byte `begin`, and returns what is left of the
// texts.
pub fn read_leaf<'b, B: Build>(
    builder: &mut B,
    alloc: Global,
    here: usize,
    begin: usize,
    entry: &Entry,
    rest: &'b str,
) -> Result<&'b str, EntryFault>
    requires { begin + length rest.now < 2 ^ 64 }
    ensures reads { IfOk result (λ behind. (l : Leaf) × IsLeafIn l
        × (entry.now ≡ spec.leaf_entry begin l) × (rest.now ≡ leaf_text l ++ behind.now)
        × (B.levels builder.new ≡ add_leaf l (B.levels builder.old))) }
    ensures utf8 { IfOk result (λ behind. IsUtf8 behind.now) }
    ensures blames { IfErr result (λ fault. OnRejected fault
        (λ why named. (named ≡ here) × RejectsLeaf begin entry.now rest.now why)) }
    ensures names { IfErr result (λ fault. IsAmong here 0 fault) }
{
    let shape = EntryFault::Refused(Refusal::Shape, here);
    let Some((spacing, span, text, behind)) = leaf_parts(begin, entry, rest) else {
        return Err(shape);
    };
    let added = match entry.kind {
        PUNCT => add_punct(builder, text, spacing, span)?,
        IDENT if spacing == Spacing::Alone => add_ident(builder, alloc, text, rest, span)?,
        LITERAL if spacing == Spacing::Alone => add_literal(builder, alloc, text, rest, span)?,
        _ => return Err(shape),
    };
    if added {
        Ok(behind)
    } else {
        Err(EntryFault::Refused(Refusal::Text, here))
    }
}

// Returns the spacing, the span and the text of a leaf, and the texts behind it, if no field of the
// entry says otherwise.
fn leaf_parts<'b>(
    begin: usize,
    entry: &Entry,
    rest: &'b str,
) -> Option<(Spacing, Span, &'b str, &'b str)>
    requires { begin + length rest.now < 2 ^ 64 }
    ensures parts { MatchOption result (FitsLeaf begin entry.now rest.now → ⊥)
        (λ p. AreLeafParts begin entry.now rest.now p.0 p.1 p.2.now p.3.now) }
    ensures utf8 { IfSome result (λ p. IsUtf8 p.2.now × IsUtf8 p.3.now) }
{
    let Some((text, behind)) = text_up_to(begin, entry.text_end, rest) else {
        return None;
    };
    let Some(span) = source_span(entry.start, entry.end) else {
        return None;
    };
    let spacing = match entry.spacing {
        0 => Spacing::Alone,
        _ => Spacing::Joint,
    };
    let number = spacing_number(spacing);
    if *entry == leaf(entry.kind, number, span, begin, entry.text_end) {
        Some((spacing, span, text, behind))
    } else {
        None
    }
}

// Appends an identifier and returns `true`, or returns `false` if the text is none. `rest` begins
// with the text.
fn add_ident<B: Build>(
    builder: &mut B,
    alloc: Global,
    text: &str,
    rest: &str,
    span: Span,
) -> Result<bool, AllocError>
    requires { (behind : List ℕ) × (rest.now ≡ text.now ++ behind) }
    ensures { IfOk result (λ added. MatchBool added
        (IsWord text.now
        × (B.levels builder.new ≡ add_leaf (ident text.now span) (B.levels builder.old)))
        (IsWord text.now → ⊥)) }
{
    if !is_word(text) {
        return Ok(false);
    }
    let word = Text::from_front(alloc, text, rest)?;
    builder.ident(unchecked_ident(word, span))?;
    Ok(true)
}

// Appends a literal and returns `true`, or returns `false` if the text is none. `rest` begins with
// the text.
fn add_literal<B: Build>(
    builder: &mut B,
    alloc: Global,
    text: &str,
    rest: &str,
    span: Span,
) -> Result<bool, AllocError>
    requires { (behind : List ℕ) × (rest.now ≡ text.now ++ behind) }
    ensures { IfOk result (λ added. MatchBool added
        (IsLiteralText text.now
        × (B.levels builder.new ≡ add_leaf (literal text.now span) (B.levels builder.old)))
        (IsLiteralText text.now → ⊥)) }
{
    if !is_literal(text) {
        return Ok(false);
    }
    let word = Text::from_front(alloc, text, rest)?;
    builder.literal(unchecked_literal(word, span))?;
    Ok(true)
}

// Appends a punct and returns `true`, or returns `false` if the text is none.
fn add_punct<B: Build>(
    builder: &mut B,
    text: &str,
    spacing: Spacing,
    span: Span,
) -> Result<bool, AllocError>
    ensures { IfOk result (λ added. MatchBool added
        ((c : ℕ) × (is_punct_or_apostrophe c ≡ true) × (text.now ≡ encode_utf8 c)
        × (B.levels builder.new ≡ add_leaf (punct c spacing span) (B.levels builder.old)))
        ((c : ℕ) → is_punct_or_apostrophe c ≡ true → text.now ≡ encode_utf8 c → ⊥)) }
{
    match punct_of_text(text, spacing, span) {
        Some(punct) => {
            builder.punct(punct)?;
            Ok(true)
        }
        None => Ok(false),
    }
}

// Makes the punct of a text of one character.
fn punct_of_text(text: &str, spacing: Spacing, span: Span) -> Option<Punct>
    ensures { MatchOption result
        ((c : ℕ) → is_punct_or_apostrophe c ≡ true → text.now ≡ encode_utf8 c → ⊥)
        (λ p. (c : ℕ) × (is_punct_or_apostrophe c ≡ true) × (text.now ≡ encode_utf8 c)
        × (punct_of p ≡ punct c spacing span)) }
{
    match text.as_bytes() {
        [byte] => Punct::new_spanned(char::from(*byte), spacing, span),
        _ => None,
    }
}
