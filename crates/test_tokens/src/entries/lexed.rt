//! Texts read straight into entries, as their streams are written.
use crate::entries::accepted::written;
use std::alloc::{AllocError, Global};
use tok_core::{Edition, LexFault, TokenStream, lex, lex_marked, lex_source};
use tok_entries::LexedEntries;

// Returns `true` if what was read is what the stream is written as, or the same error.
fn alike(
    alloc: Global,
    lexed: Result<LexedEntries, LexFault>,
    stream: Result<TokenStream, LexFault>,
) -> Result<bool, AllocError> {
    match (lexed, stream) {
        (Ok(lexed), Ok(stream)) => {
            let (entries, texts) = written(alloc, &stream)?;
            Ok(
                lexed.entries.as_slice() == entries.as_slice()
                    && lexed.texts.as_str() == texts.as_str(),
            )
        }
        (Err(LexFault::Refused(left)), Err(LexFault::Refused(right))) => {
            Ok(left.number() == right.number() && left.at() == right.at())
        }
        _ => Ok(false),
    }
}

const TEXTS: [&str; 16] = [
    "",
    "a",
    "a += (b)",
    "{[((x))]} 'a 'b' \"s\" 1.0 r#fn",
    "«a» + «« 3 » + 1»",
    "«» « «» »",
    "/// é\nfn f() {} //! x\r\n",
    "#!shebang\n/** a */ x",
    "#![a] b",
    "an_identifier_of_more_than_twenty_two_bytes \"a string of more than twenty-two bytes\"",
    "f(a, [b, {c}], 'x', 'static, \"s\")",
    "(",
    "a ]",
    "(a]",
    "\"",
    "a \\ b",
];

#[test]
fn texts_are_read_alike(rt: HostRuntime) -> Result<(), AllocError> {
    let alloc = rt.alloc();
    for text in TEXTS {
        let plain = alike(
            alloc,
            LexedEntries::from_text(alloc, text),
            lex(alloc, 0, text),
        )?;
        assert!(rt; plain, "{text}");
        let marked = alike(
            alloc,
            LexedEntries::from_marked(alloc, text),
            lex_marked(alloc, 0, text),
        )?;
        assert!(rt; marked, "{text}");
        for edition in [Edition::Edition2015, Edition::Edition2024] {
            let source = alike(
                alloc,
                LexedEntries::from_source(alloc, edition, text),
                lex_source(alloc, edition, 0, text),
            )?;
            assert!(rt; source, "{text}");
        }
    }
    Ok(())
}
