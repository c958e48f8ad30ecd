//! The calls of `tok_entries`, and the buffers of entries.
use std::alloc::Global;
use test_outcomes::memory::{Outcome, ended, made};
use tok_buffer::TokenBuffer;
use tok_core::{Edition, lex_marked};
use tok_entries::{Entry, EntryFault, LexedEntries, Refusal, write_entries};

/// Makes each call.
pub fn calls(alloc: Global) -> Outcome {
    let mut entries = Vec::new(alloc);
    let mut texts = String::new(alloc);
    let text = "abcdefghijklmnop «» += ('b «[{1}]» \"abcdefghijklmnop\") ; ; ; ;";
    let stream = made(lex_marked(alloc, 0, text))?;
    made(write_entries(&mut entries, &mut texts, &stream))?;
    ended(TokenBuffer::from_entries(alloc, 0, entries.as_slice(), texts.as_str()))?;
    mostly_empty(alloc)?;
    made(EntryFault::Refused(Refusal::Depth, 256).to_string(alloc))?;
    lexed(alloc)
}

// A text of each kind, read straight into entries.
fn lexed(alloc: Global) -> Outcome {
    let text = "a_name_of_more_than_twenty_two_bytes += ('b [{1}] \"c\") ; ; ; ;";
    made(LexedEntries::from_text(alloc, text))?;
    made(LexedEntries::from_marked(alloc, "«a» + « »"))?;
    made(LexedEntries::from_source(alloc, Edition::default(), "/// a\nfn f() {}"))?;
    Ok(())
}

// Many entries of which one is left, so that it moves to a smaller buffer.
fn mostly_empty(alloc: Global) -> Outcome {
    let text = "«» «» «» «» «» «» «» «» «» «» «» «» «» «» «» «» «» «» «» «» «» «» «» «» «» \
        «» «» «» «» «» «» «» «» «» «» «» «» «» «» «» «» «» «» «» «» «» «» «» «» «» a";
    let stream = made(lex_marked(alloc, 0, text))?;
    let mut entries: Vec<Entry> = Vec::new(alloc);
    let mut texts = String::new(alloc);
    made(write_entries(&mut entries, &mut texts, &stream))?;
    ended(TokenBuffer::from_entries(alloc, 0, entries.as_slice(), texts.as_str()))
}
