//! Functions that read texts into entries.
ghost use Rattle.std.specs.Prelude.{◌≡◌, IfOk};
ghost use Rattle.tok_core.specs.Lexical.Outcome.{FollowsGrammar};
ghost use Rattle.tok_core.specs.declared.lexer.error.LexFault.TheVariants.{Refused};
ghost use Rattle.tok_lexical.specs.declared.rule.Mode.TheVariants.{Plain, Marked};
ghost use Rattle.syn_tokens_c.specs.Outcomes.{Lexes, LexesSource, Returns, Tells, answer_of, answered, bare, edition_of, lexed_answer, refused};

use simdutf8::basic::from_utf8;
use std::alloc::{AllocError, Global};
use tok_core::{Edition, LexError, LexFault};
use tok_entries::{Entry, LexedEntries};

const READ: u32 = 0;

const REJECTED: u32 = 1;

const NOT_UTF8: u32 = 2;

const NO_MEMORY: u32 = 3;

const NO_ROOM: u32 = 4;

const NO_EDITION: u32 = 5;

/// The outcome of a call that reads a text.
#[repr(C)]
#[derive(Clone, Copy)]
pub struct Reading {
    /// The status: 0 if the text was read, 1 if the grammar rejects the text, or 2 if the text is
    /// not UTF-8. The status is 3 if an allocation failed, 4 if there is too little room, or 5 if
    /// there is no such edition.
    pub status: u32,
    /// The number of the grammar rule that rejects the text, such as 1 for rule L1.
    pub rule: u32,
    /// The offset of the byte at which the lexer rejects the text. The token, comment or group that
    /// can't be read begins at this byte.
    pub at: usize,
    /// The number of entries of the text, even if there was too little room to write them.
    pub entries: usize,
    /// The number of bytes in the texts of the leaves, or in the text of the error, even if there
    /// was too little room to write them.
    pub bytes: usize,
}

// All that there is to write of a text, in memory of its own.
#[derive(Drop)]
pub(crate) struct Answer {
    pub(crate) status: u32,
    pub(crate) rule: u32,
    pub(crate) at: usize,
    pub(crate) entries: Vec<Entry>,
    pub(crate) bytes: String,
}

impl Answer {
    // Nothing to write.
    fn bare(alloc: Global, status: u32) -> Answer
        ensures { answered result ≡ bare status }
    {
        Answer {
            status,
            rule: 0,
            at: 0,
            entries: Vec::new(alloc),
            bytes: String::new(alloc),
        }
    }

    fn of(alloc: Global, lexed: Result<LexedEntries, LexFault>) -> Result<Answer, AllocError>
        ensures { IfOk result (λ a. answered a ≡ answer_of lexed_answer lexed) }
    {
        match lexed {
            Ok(lexed) => Ok(Answer::lexed(lexed)),
            Err(LexFault::Refused(error)) => Answer::rejected(alloc, error),
            Err(LexFault::Memory) => Ok(Answer::bare(alloc, NO_MEMORY)),
        }
    }

    pub(crate) fn lexed(lexed: LexedEntries) -> Answer
        ensures { answered result ≡ lexed_answer lexed }
    {
        let LexedEntries { entries, texts } = lexed;
        Answer {
            status: READ,
            rule: 0,
            at: 0,
            entries,
            bytes: texts,
        }
    }

    pub(crate) fn rejected(alloc: Global, error: LexError) -> Result<Answer, AllocError>
        ensures { IfOk result (λ a. answered a ≡ refused (Refused error)) }
    {
        Ok(Answer {
            status: REJECTED,
            rule: u32::from(error.number()),
            at: error.at(),
            entries: Vec::new(alloc),
            bytes: error.to_string(alloc)?,
        })
    }

    // Writes all, if there is room for it, and else nothing.
    fn write(&self, entries: &mut [Entry], bytes: &mut [u8]) -> Reading
        ensures { Returns (answered self.now) result entries.old entries.new bytes.old bytes.new }
    {
        let count = self.entries.len();
        let size = self.bytes.len();
        if entries.len() < count || bytes.len() < size {
            return Reading {
                status: NO_ROOM,
                rule: 0,
                at: 0,
                entries: count,
                bytes: size,
            };
        }
        entries[..count].copy_from_slice(self.entries.as_slice());
        bytes[..size].copy_from_slice(self.bytes.as_bytes());
        Reading {
            status: self.status,
            rule: self.rule,
            at: self.at,
            entries: count,
            bytes: size,
        }
    }
}

// Writes what came of a text.
fn tell(
    alloc: Global,
    lexed: Result<LexedEntries, LexFault>,
    entries: &mut [Entry],
    bytes: &mut [u8],
) -> Reading
    ensures { Tells (answer_of lexed_answer lexed) result
        entries.old entries.new bytes.old bytes.new }
{
    match Answer::of(alloc, lexed) {
        Ok(answer) => answer.write(entries, bytes),
        Err(AllocError) => Answer::bare(alloc, NO_MEMORY).write(entries, bytes),
    }
}

pub(crate) fn edition_of(year: u32) -> Option<Edition>
    ensures { result ≡ edition_of year }
{
    match year {
        2015 => Some(Edition::Edition2015),
        2018 => Some(Edition::Edition2018),
        2021 => Some(Edition::Edition2021),
        2024 => Some(Edition::Edition2024),
        _ => None,
    }
}

/// Reads `text` by the rules of `lex`, and writes the outcome to `reading`.
///
/// The call writes the entries to the start of `entries`. It writes the texts of the leaves, in
/// order, or the text of the error to the start of `bytes`.
///
/// If one of these slices is too short, the call writes to neither of them. `reading` then contains
/// the required lengths, and the caller can repeat the call with longer slices.
#[unsafe(no_mangle)]
pub extern "C" fn syn_tokens_lex(
    alloc: Global,
    text: &[u8],
    entries: &mut [Entry],
    bytes: &mut [u8],
    reading: &mut Reading,
)
    ensures { Lexes (FollowsGrammar Plain 0) text.now reading.new
        entries.old entries.new bytes.old bytes.new }
{
    *reading = match from_utf8(text) {
        Ok(text) => tell(alloc, LexedEntries::from_text(alloc, text), entries, bytes),
        Err(_) => Answer::bare(alloc, NOT_UTF8).write(entries, bytes),
    };
}

/// Reads `text` by the rules of `lex_marked`, and writes the outcome to `reading`.
///
/// The characters `«` and `»` open and close invisible groups. Spans do not count the bytes of
/// these characters. The call writes `entries` and `bytes` in the same way as `syn_tokens_lex`.
#[unsafe(no_mangle)]
pub extern "C" fn syn_tokens_lex_marked(
    alloc: Global,
    text: &[u8],
    entries: &mut [Entry],
    bytes: &mut [u8],
    reading: &mut Reading,
)
    ensures { Lexes (FollowsGrammar Marked 0) text.now reading.new
        entries.old entries.new bytes.old bytes.new }
{
    *reading = match from_utf8(text) {
        Ok(text) => tell(
            alloc,
            LexedEntries::from_marked(alloc, text),
            entries,
            bytes,
        ),
        Err(_) => Answer::bare(alloc, NOT_UTF8).write(entries, bytes),
    };
}

/// Reads a whole Rust source by the rules of `lex_source`, and writes the outcome to `reading`.
///
/// `year` is the year of the edition: 2015, 2018, 2021 or 2024. The call writes `entries` and
/// `bytes` in the same way as `syn_tokens_lex`.
#[unsafe(no_mangle)]
pub extern "C" fn syn_tokens_lex_source(
    alloc: Global,
    year: u32,
    text: &[u8],
    entries: &mut [Entry],
    bytes: &mut [u8],
    reading: &mut Reading,
)
    ensures { LexesSource year text.now reading.new
        entries.old entries.new bytes.old bytes.new }
{
    let Some(edition) = edition_of(year) else {
        *reading = Answer::bare(alloc, NO_EDITION).write(entries, bytes);
        return;
    };
    *reading = match from_utf8(text) {
        Ok(text) => tell(
            alloc,
            LexedEntries::from_source(alloc, edition, text),
            entries,
            bytes,
        ),
        Err(_) => Answer::bare(alloc, NOT_UTF8).write(entries, bytes),
    };
}
