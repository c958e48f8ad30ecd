//! The structs and statuses that an exported function returns to C.
ghost use Rattle.std.specs.Prelude.{◌≡◌};
ghost use Rattle.tok_entries.specs.Entries.{end_byte, first_byte};
ghost use Rattle.entry_outcomes.specs.Answers as spec;

use tok_core::Span;
use tok_entries::Refusal;

/// The status of a call that succeeded.
pub const DONE: u32 = 0;

/// The status of a call that rejected the tokens.
pub const REJECTED: u32 = 1;

/// The status of a call in which an allocation failed.
pub const NO_MEMORY: u32 = 3;

/// The status of a call that had too little room to write its answer.
pub const NO_ROOM: u32 = 4;

/// The status of a call whose entries do not form a token stream.
pub const MALFORMED: u32 = 6;

/// The outcome of an exported function that parses entries.
#[repr(C)]
#[derive(Clone, Copy)]
pub struct Outcome {
    /// The status: 0 if the call succeeded, 1 if the tokens are rejected, or 2 if a line is not a
    /// command. The status is 3 if an allocation failed, 4 if there is too little room, or 6 if the
    /// entries do not form a token stream.
    pub status: u32,
    /// The reason why the entries do not form a token stream. It is 1 if a field of an entry is
    /// invalid, 2 if a text is not valid for its leaf, or 3 if groups are nested too deeply. If the
    /// entries form a token stream, the reason is 0.
    pub refusal: u32,
    /// The index of the rejected entry. If bytes of the texts are left after the last entry, this
    /// number is the number of entries. If the entries form a token stream, this number is 0.
    pub entry: usize,
    /// The number of values in the answer, even if there was too little room to write them.
    pub values: usize,
    /// The number of messages in the answer, even if there was too little room to write them.
    pub messages: usize,
    /// The number of bytes in the texts of the messages or of the values, even if there was too
    /// little room to write them.
    pub bytes: usize,
}

/// A message of an error, as a plain struct.
#[repr(C)]
#[derive(Clone, Copy)]
pub struct Message {
    /// The span of the tokens that the message is about, from `start` to `end`. If the span is the
    /// call site, both bounds are 0.
    pub start: usize,
    pub end: usize,
    /// The range of the message's text in the written bytes, from `text_start` to `text_end`.
    pub text_start: usize,
    pub text_end: usize,
}

// Makes the message at this span, whose text is this range of the bytes.
pub fn message_of(span: Span, text_start: usize, text_end: usize) -> Message
    ensures { result ≡ spec.message_as span text_start text_end }
{
    let (start, end) = range(span);
    Message {
        start,
        end,
        text_start,
        text_end,
    }
}

/// Returns the start and the end of `span`, or 0 for both if `span` is the call site.
pub fn range(span: Span) -> (usize, usize)
    ensures start { result.0 ≡ first_byte span }
    ensures end { result.1 ≡ end_byte span }
{
    match span.as_range() {
        Some((_, start, end)) => (start, end),
        None => (0, 0),
    }
}

// Returns the number of a refusal.
pub fn refusal_number(refusal: Refusal) -> u32
    ensures { result ≡ spec.refusal_number refusal }
{
    match refusal {
        Refusal::Shape => 1,
        Refusal::Text => 2,
        Refusal::Depth => 3,
    }
}
