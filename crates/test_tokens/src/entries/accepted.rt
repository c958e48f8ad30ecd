//! Streams as entries, and back in.
use std::alloc::{AllocError, Global};
use tok_buffer::TokenBuffer;
use tok_core::{TokenStream, lex_marked};
use tok_entries::{Entry, write_entries};

// The entries of a stream and the texts of its leaves.
pub fn written(alloc: Global, stream: &TokenStream) -> Result<(Vec<Entry>, String), AllocError> {
    let mut entries = Vec::new(alloc);
    let mut texts = String::new(alloc);
    write_entries(&mut entries, &mut texts, stream)?;
    Ok((entries, texts))
}

// Returns `true` if the entries of a marked text come back as those of another text, which has the
// same bytes between the marks.
fn comes_back(alloc: Global, text: &str, pruned: &str) -> Result<bool, AllocError> {
    let (Ok(stream), Ok(wanted)) = (lex_marked(alloc, 0, text), lex_marked(alloc, 0, pruned)) else {
        return Ok(false);
    };
    let (entries, texts) = written(alloc, &stream)?;
    let Ok(buffer) = TokenBuffer::from_entries(alloc, 7, entries.as_slice(), texts.as_str()) else {
        return Ok(false);
    };
    let (again, words) = written(alloc, &buffer.begin().token_stream(alloc)?)?;
    let (entries, texts) = written(alloc, &wanted)?;
    Ok(again.as_slice() == entries.as_slice() && words.as_str() == texts.as_str())
}

// Filled streams, as they come.
const FILLED: [&str; 9] = [
    "",
    "a",
    "a += (b)",
    "-1 - 1",
    "«a» + «« 3 » + 1»",
    "f(a, [b, {c}], 'x', 'static, \"s\")",
    "«(«(«a»)»)»",
    "r#fn éa _ '",
    "((((()))))",
];

// Streams with empty groups, and without them.
const EMPTY: [(&str, &str); 8] = [
    ("«»", ""),
    ("« «» »", "   "),
    ("a «» b", "a  b"),
    ("«» a", " a"),
    ("a «»", "a "),
    ("( «» )", "(  )"),
    ("« «» a «« «» »» »", "«  a    »"),
    ("«()» «[«»]»", "«()» «[]»"),
];

#[test]
fn filled_streams_come_back(rt: HostRuntime) -> Result<(), AllocError> {
    for text in FILLED {
        assert!(rt; comes_back(rt.alloc(), text, text)?, "{text}");
    }
    Ok(())
}

#[test]
fn empty_groups_are_left_out(rt: HostRuntime) -> Result<(), AllocError> {
    for (text, pruned) in EMPTY {
        assert!(rt; comes_back(rt.alloc(), text, pruned)?, "{text}");
    }
    Ok(())
}
