//! Lexes texts directly into arrays of entries.
ghost use Rattle.std.specs.Prelude.{◌+◌, ◌<◌, ◌^◌, length, IfErr, IfOk};
ghost use Rattle.std.specs.Str.{chars};
ghost use Rattle.tok_core.specs.Forest.{Forest};
ghost use Rattle.tok_core.specs.Lexical.Errors.{OnRefused};
ghost use Rattle.tok_core.specs.Lexical.Outcome.{FollowsGrammar, FollowsSource};
ghost use Rattle.tok_core.specs.Lexical.Reading.{IsRefusedFrom, ReadsFrom};
ghost use Rattle.tok_lexical.specs.declared.rule.Mode.TheVariants.{Marked, Plain};
ghost use Rattle.tok_entries.specs.Lexed.{AreOf, Writes};

use crate::builder::EntryWriter;
use crate::entry::Entry;
use std::alloc::Global;
use tok_core::{Edition, LexFault, read};
use tok_lexical::Mode;
use tok_lexical::source::past_start;

/// A text in the form of an array of entries, and the texts of its identifiers, puncts and
/// literals.
///
/// If you lex a text into a stream first, `write_entries` appends the same entries and texts for
/// the stream.
///
/// # Examples
///
/// ```rust
/// let lexed = LexedEntries::from_text(alloc, "a(b)")?;
/// assert_eq!(rt; (lexed.entries.len(), lexed.texts.as_str()), (4, "ab"));
/// ```
#[derive(Drop)]
pub struct LexedEntries {
    pub entries: Vec<Entry>,
    pub texts: String,
}

// Reads a text that begins at byte `start` of its source. No tree is made on the way.
fn lex_entries(
    alloc: Global,
    mode: Mode,
    start: usize,
    text: &str,
) -> Result<LexedEntries, LexFault>
    requires fits { start + length text.now < 2 ^ 64 }
    ensures reads { IfOk result
        (λ w. (f : Forest) × ReadsFrom start mode 0 (chars text.now) f × AreOf f w) }
    ensures refuses { IfErr result
        (λ fault. OnRefused fault (IsRefusedFrom start mode 0 (chars text.now))) }
{
    let writer = EntryWriter::with_room(alloc, text.len())?;
    match read(writer, alloc, 0, mode, start, text) {
        Ok(built) => {
            let (entries, texts) = built.into_parts();
            Ok(LexedEntries { entries, texts })
        }
        Err(fault) => Err(fault),
    }
}

impl LexedEntries {
    /// Lexes `text` directly into an array of entries, according to the rules of `lex`.
    ///
    /// `write_entries` appends the same entries for the stream that `lex` returns. All spans are in
    /// source 0. Returns the same errors as `lex`.
    pub fn from_text(alloc: Global, text: &str) -> Result<LexedEntries, LexFault>
        ensures { Writes (FollowsGrammar Plain 0 (chars text.now)) result }
    {
        lex_entries(alloc, Mode::Plain, 0, text)
    }

    /// Lexes a text directly into an array of entries, according to the rules of `lex_marked`.
    ///
    /// In the text, `«` and `»` are the delimiters of invisible groups. All spans are in source 0.
    /// Returns the same errors as `lex_marked`.
    pub fn from_marked(alloc: Global, text: &str) -> Result<LexedEntries, LexFault>
        ensures { Writes (FollowsGrammar Marked 0 (chars text.now)) result }
    {
        lex_entries(alloc, Mode::Marked, 0, text)
    }

    /// Lexes a whole Rust source of the edition `edition` directly into an array of entries,
    /// according to the rules of `lex_source`.
    ///
    /// All spans are in source 0. Returns the same errors as `lex_source`.
    pub fn from_source(
        alloc: Global,
        edition: Edition,
        text: &str,
    ) -> Result<LexedEntries, LexFault>
        ensures { Writes (FollowsSource edition 0 (chars text.now)) result }
    {
        let rest = past_start(text);
        let start = text.len() - rest.len();
        lex_entries(alloc, Mode::Source(edition), start, rest)
    }
}
