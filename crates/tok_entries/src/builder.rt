//! A builder that lexes a text directly into entries.
ghost use Rattle.std.specs.Prelude.{◌≡◌, ◌+◌, ◌<◌, ◌≤◌, ◌/◌, ◌^◌, ◌∷◌, ◌++◌, [], length, min, true, IfOk, OnErr, OnOk, string_bytes};
ghost use Rattle.tok_core.specs.Building.{nothing};
ghost use Rattle.tok_entries.specs.Entries as spec;
ghost use Rattle.tok_entries.specs.Private.Laid.{is_in_source, unclosed};

use crate::entry::{CLOSING, Entry, IDENT, LITERAL, OPENING, PUNCT, edge, leaf, spacing_number};
use std::alloc::{AllocError, Global};
use std::marker::Model;
use tok_core::room::{MOST_BYTES, counted_bytes};
use tok_core::{Build, DelimSpan, Delimiter, Ident, Literal, Punct, Span};

/// The kind of the entry for an opening delimiter whose group is not yet closed.
///
/// When the group closes, the builder replaces this entry.
const UNCLOSED: u32 = 5;

/// A builder that collects the entries of a text, and the texts of its identifiers, puncts and
/// literals.
///
/// Contracts describe a builder as its `Levels`. The builder also stores the positions of the open
/// groups, from the outermost group to the innermost.
//
// An entry has no number of a source, and a punct is one byte. What has no entry is refused as if
// there were no memory. The lexer makes nothing of that kind of source 0.
#[derive(Drop)]
pub struct EntryWriter {
    entries: Vec<Entry>,
    texts: String,
    open: Vec<usize>,
}

impl Model for EntryWriter {
    ghost use Rattle.std.specs.Prelude.{string_bytes};
    ghost use Rattle.tok_core.specs.Building.{Levels, levels_code};
    ghost use Rattle.tok_entries.specs.Private.Laid.{IsLaid, levels_in};

    ghost Value = { Levels };

    ghost coded = { levels_code };

    ghost view = { λ b. levels_in b.entries.items (string_bytes b.texts) };

    ghost invariant = { λ b. IsLaid b.entries.items (string_bytes b.texts) b.«open».items
        (levels_in b.entries.items (string_bytes b.texts)) };
}

fn is_in_source(span: Span) -> bool
    ensures { result ≡ is_in_source span }
{
    matches!(span.as_range(), Some((0, _, _)))
}

fn unclosed(at: usize) -> Entry
    ensures { result ≡ unclosed at }
{
    Entry {
        kind: UNCLOSED,
        spacing: 0,
        delimiter: 0,
        start: 0,
        end: 0,
        text_start: at,
        text_end: at,
        distance: 0,
    }
}

// Few texts have more entries than one in so many bytes: those of inner groups count, too.
const BYTES_AN_ENTRY: usize = 4;

/// Returns for how many entries a builder makes room before it reads a text of `bytes` bytes.
///
/// Returns 0 if the text has fewer than 256 bytes. Otherwise, returns a quarter of the text's length
/// in bytes, but at most 65,536.
pub fn first_room(bytes: usize) -> usize
    ensures few { bytes < 2 ^ 8 → result ≡ 0 }
    ensures many { 2 ^ 8 ≤ bytes → result ≡ min bytes (2 ^ 18) / 4 }
{
    counted_bytes(bytes) / BYTES_AN_ENTRY
}

// Appends the entry and the text of an identifier or a literal. If that fails, nothing is appended.
#[inline(always)]
fn push_leaf(
    entries: &mut Vec<Entry>,
    texts: &mut String,
    kind: u32,
    span: Span,
    text: &str,
) -> Result<(), AllocError>
    ensures inside { OnOk result (is_in_source span ≡ true) }
    ensures entries { OnOk result (entries.new.items
        ≡ entries.old.items ++ spec.leaf_as kind 0 span (length (string_bytes texts.old))
        (length (string_bytes texts.old) + length text.now) ∷ []) }
    ensures texts { OnOk result (string_bytes texts.new ≡ string_bytes texts.old ++ text.now) }
    ensures entries_kept { OnErr result (entries.new.items ≡ entries.old.items) }
    ensures texts_kept { OnErr result (string_bytes texts.new ≡ string_bytes texts.old) }
{
    if !is_in_source(span) {
        return Err(AllocError);
    }
    entries.reserve(1)?;
    let begin = texts.len();
    texts.push_str(text)?;
    entries.push_reserved(leaf(kind, 0, span, begin, texts.len()));
    Ok(())
}

impl EntryWriter {
    /// Creates an empty builder for a text of `bytes` bytes.
    ///
    /// The builder has enough room for most texts of this length. Returns an error if an allocation
    /// fails.
    //
    // A vector that grows from nothing copies its entries about once more. Even a short text
    // consists mostly of the texts of its tokens, which therefore get room at once.
    pub fn with_room(alloc: Global, bytes: usize) -> Result<EntryWriter, AllocError>
        ensures { IfOk result (λ b. b ≡ nothing) }
    {
        Ok(EntryWriter {
            entries: Vec::with_capacity(alloc, first_room(bytes))?,
            texts: String::with_capacity(alloc, bytes.min(MOST_BYTES))?,
            open: Vec::new(alloc),
        })
    }

    /// Returns the entries, and the texts of the identifiers, puncts and literals.
    ///
    /// # Requires
    ///
    /// All groups must be closed.
    pub fn into_parts(self) -> (Vec<Entry>, String)
        requires { self.outer ≡ [] }
        ensures entries { result.0.items ≡ spec.entries 0 self.inner }
        ensures texts { string_bytes result.1 ≡ spec.texts self.inner }
    {
        (self.entries, self.texts)
    }
}

impl Build for EntryWriter {
    ghost levels = { λ b. b };

    #[inline(always)]
    fn ident(&mut self, ident: Ident) -> Result<(), AllocError> {
        let span = ident.span();
        push_leaf(
            &mut self.entries,
            &mut self.texts,
            IDENT,
            span,
            ident.as_str(),
        )?;
        Ok(())
    }

    #[inline(always)]
    fn punct(&mut self, punct: Punct) -> Result<(), AllocError> {
        let ch = punct.as_char();
        let span = punct.span();
        if !ch.is_ascii() || !is_in_source(span) {
            return Err(AllocError);
        }
        self.entries.reserve(1)?;
        let begin = self.texts.len();
        self.texts.push(ch)?;
        let end = self.texts.len();
        let spacing = spacing_number(punct.spacing());
        self.entries
            .push_reserved(leaf(PUNCT, spacing, span, begin, end));
        Ok(())
    }

    #[inline(always)]
    fn literal(&mut self, literal: Literal) -> Result<(), AllocError> {
        let span = literal.span();
        push_leaf(
            &mut self.entries,
            &mut self.texts,
            LITERAL,
            span,
            literal.as_str(),
        )?;
        Ok(())
    }

    #[inline(always)]
    fn open(&mut self) -> Result<(), AllocError> {
        self.entries.reserve(1)?;
        self.open.push(self.entries.len())?;
        self.entries.push_reserved(unclosed(self.texts.len()));
        Ok(())
    }

    #[inline(always)]
    fn close(&mut self, delimiter: Delimiter, span: Span) -> Result<(), AllocError> {
        if !is_in_source(span) {
            return Err(AllocError);
        }
        self.entries.reserve(1)?;
        let Some(start) = self.open.pop() else {
            unreachable!()
        };
        let distance = self.entries.len() - start;
        let begin = self.entries[start].text_start;
        let edges = DelimSpan::new(span);
        self.entries.push_reserved(edge(
            CLOSING,
            delimiter,
            edges.close(),
            self.texts.len(),
            distance,
        ));
        self.entries[start] = edge(OPENING, delimiter, edges.open(), begin, distance);
        Ok(())
    }
}
