//! The type `IndexedSource`, which formats many errors that are about one text.
ghost use Rattle.std.specs.Prelude.{◌≡◌, IfOk, MatchOption, codes, string_bytes};
ghost use Rattle.tok_leaves.specs.Spans.{range};
ghost use Rattle.tok_buffer.specs.Messages.{each_message};
ghost use Rattle.tok_carets.specs.Shown.{Shows, ShowsEach, ShowsLex};

use crate::index::LineIndex;
use crate::source::{Lookup, Source};
use std::alloc::{AllocError, Global};
use tok_buffer::Error;
use tok_core::{LexError, Span};

/// A source with an index of its lines, for formatting many errors that are about one text.
///
/// The methods of `IndexedSource` return the same texts as the methods of `Source`. They perform a
/// binary search over the lines, and then read one line. In contrast, the methods of `Source` read
/// the whole text before the line.
///
/// # Examples
///
/// ```rust
/// let indexed = IndexedSource::new(alloc, source)?;
/// let span = Span::source(0, 2, 3);
/// let shown = indexed.show(alloc, span, "expected `,`")?;
/// let alone = source.show(alloc, span, "expected `,`")?;
/// assert_eq!(rt; shown.as_str(), alone.as_str());
/// ```
#[derive(Drop, Debug)]
pub struct IndexedSource<'a> {
    source: Source<'a>,
    index: LineIndex<'a>,
    ghost is: { index.text.now ≡ source.text.now },
}

impl<'a> IndexedSource<'a> {
    /// Creates an index of the lines of `source`.
    ///
    /// The call reads the text of `source` once. Returns an error if an allocation fails.
    pub fn new(alloc: Global, source: Source<'a>) -> Result<IndexedSource<'a>, AllocError>
        ensures { IfOk result (λ indexed. indexed.source ≡ source.entry) }
    {
        let index = LineIndex::new(alloc, source.text)?;
        Ok(IndexedSource { source, index })
    }

    /// Returns the indexed source.
    pub fn source(&self) -> Source<'a>
        ensures { result ≡ self.now.source }
    {
        self.source
    }

    /// Formats an error in the same way as `Source::show`.
    ///
    /// Returns an error if an allocation fails.
    pub fn show(&self, alloc: Global, span: Span, words: &str) -> Result<String, AllocError>
        ensures { IfOk result (λ out. Shows self.now.source (codes "error") words.now (range span)
            (string_bytes out)) }
    {
        self.lookup().show(alloc, "error", span, words)
    }

    /// Formats an error and its notes in the same way as `Source::show_error`.
    ///
    /// Returns an error if an allocation fails.
    pub fn show_error(&self, alloc: Global, error: &Error) -> Result<String, AllocError>
        ensures { IfOk result
            (λ out. ShowsEach self.now.source (codes "error") (each_message error.now)
            (string_bytes out)) }
    {
        self.lookup().show_error(alloc, error)
    }

    /// Formats an error of the lexer in the same way as `Source::show_lex`.
    ///
    /// Pass the error that `lex` or `lex_source` returned for the text of this source. For another
    /// error, the message may name the wrong fault. Returns an error if an allocation fails.
    pub fn show_lex(&self, alloc: Global, error: LexError) -> Result<String, AllocError>
        ensures { IfOk result (λ out. ShowsLex self.now.source error (string_bytes out)) }
    {
        self.lookup().show_lex(alloc, error)
    }

    // Returns the lookup by the index.
    fn lookup(&self) -> Lookup<'_, '_>
        ensures source { result.source.now ≡ self.now.source }
        ensures index { MatchOption result.index ⊥ (λ index. index.now ≡ self.now.index) }
    {
        Lookup {
            source: &self.source,
            index: Some(&self.index),
        }
    }
}
