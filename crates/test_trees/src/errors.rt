//! Explains errors of the lexer to readers of the text.
use std::alloc::{AllocError, AllocGlobal, Global};
use std::process::Abort;
use tok_core::{Edition, LexFault, TokenStream, lex, lex_source};
use tok_lexical::{QuotedFault, quoted_fault};

// The number of the texts.
const SOURCE: u32 = 3;

// Where an error is shown, and what is said.
type Shown = (usize, &'static str);

const UNCLOSED: &str = "the closing quote is missing";

const UNCLOSED_RAW: &str = "the closing quote is missing, with as many `#` as the opening one has";

const UNCLOSED_CHAR: &str = "expected `'` after one character";

const LONE: &str = "expected a lifetime, or one character and another `'`";

const UNKNOWN: &str = "unknown escape";

const ASCII: &str = "expected `\\x` and two hexadecimal digits, at most `7F`";

const BYTE: &str = "expected `\\x` and two hexadecimal digits";

const CODE: &str = "expected `\\u{..}` with the hexadecimal number of a character";

fn explained(text: &str, read: Result<TokenStream, LexFault>) -> Option<Shown> {
    match read {
        Err(LexFault::Refused(error)) => {
            let (span, words) = error.explain(text);
            match span.as_range() {
                Some((SOURCE, start, end)) if start == end => Some((start, words)),
                _ => None,
            }
        }
        _ => None,
    }
}

fn of_text(alloc: Global, text: &str) -> Option<Shown> {
    explained(text, lex(alloc, SOURCE, text))
}

fn of_source(alloc: Global, text: &str) -> Option<Shown> {
    explained(text, lex_source(alloc, Edition::Edition2024, SOURCE, text))
}

fn all_explained(rt: &(impl Abort + AllocGlobal), rows: &[(&str, Shown)]) {
    for (text, shown) in rows {
        assert_eq!(rt; of_text(rt.alloc(), text), Some(*shown), "at {text}");
    }
}

fn all_of_sources(rt: &(impl Abort + AllocGlobal), rows: &[(&str, Shown)]) {
    for (text, shown) in rows {
        assert_eq!(rt; of_source(rt.alloc(), text), Some(*shown), "at {text}");
    }
}

#[test]
fn quoted(rt: HostRuntime) {
    all_explained(
        &rt,
        &[
            ("a \"b\n", (2, UNCLOSED)),
            ("\"a\\", (0, UNCLOSED)),
            ("b'", (0, UNCLOSED)),
            ("'\\", (0, UNCLOSED)),
            ("x \"é\\q\"", (5, UNKNOWN)),
            ("\"a\\\\\\ \"", (4, UNKNOWN)),
            ("'\\q'", (1, UNKNOWN)),
            ("b'\\u{41}'", (2, UNKNOWN)),
            ("\"\\x4\"", (1, ASCII)),
            ("\"\\x80\"", (1, ASCII)),
            ("'\\xé'", (1, ASCII)),
            ("b'\\xg0'", (2, BYTE)),
            ("\"\\u{}\"", (1, CODE)),
            ("\"\\u{d800}\"", (1, CODE)),
            ("'\\u41'", (1, CODE)),
            ("'\\nn'", (3, UNCLOSED_CHAR)),
            ("b'ab'", (3, UNCLOSED_CHAR)),
            ("b'é'", (2, "expected one ASCII character or an escape")),
        ],
    );
}

#[test]
fn kinds(rt: HostRuntime) {
    all_explained(
        &rt,
        &[
            ("a\u{1}", (1, "unknown character")),
            ("(a", (0, "unclosed group")),
            ("a]", (1, "unexpected closing delimiter")),
            ("a /* b", (2, "unclosed comment")),
            ("a /// b", (2, "a doc comment is not allowed here")),
            (
                "a r\"b\"",
                (2, "a raw, byte or C string is not allowed here"),
            ),
            ("1.5", (0, "a float is not allowed here")),
            ("0x", (0, "malformed number")),
            ("r#self", (0, "this name cannot be a raw identifier")),
            ("' a", (0, LONE)),
            ("a '1", (2, LONE)),
        ],
    );
}

// The text of so many opening parentheses.
fn opened(alloc: Global, levels: usize) -> Result<String, AllocError> {
    let mut text = String::new(alloc);
    for _ in 0..levels {
        text.push('(')?;
    }
    Ok(text)
}

// The text of a raw string with so many number signs.
fn hashed(alloc: Global, hashes: usize) -> Result<String, AllocError> {
    let mut text = String::from_str(alloc, "r")?;
    for _ in 0..hashes {
        text.push('#')?;
    }
    text.push('"')?;
    Ok(text)
}

#[test]
fn hashes(rt: HostRuntime) {
    let alloc = rt.alloc();
    let most = hashed(alloc, 255)
        .ok()
        .and_then(|text| of_source(alloc, text.as_str()));
    assert_eq!(rt; most, Some((0, UNCLOSED_RAW)));
    let more = hashed(alloc, 256)
        .ok()
        .and_then(|text| of_source(alloc, text.as_str()));
    assert_eq!(rt;
        more,
        Some((0, "a raw string has at most 255 `#` before its quote"))
    );
}

#[test]
fn deep(rt: HostRuntime) {
    let alloc = rt.alloc();
    let shown = opened(alloc, 257)
        .ok()
        .and_then(|text| of_text(alloc, text.as_str()));
    assert_eq!(rt; shown, Some((256, "more than 256 groups are nested here")));
}

#[test]
fn sources(rt: HostRuntime) {
    all_of_sources(
        &rt,
        &[
            ("c\"\\q\"", (2, UNKNOWN)),
            ("b\"\\x\"", (2, BYTE)),
            ("c\"\\u\"", (2, CODE)),
            ("b\"", (0, UNCLOSED)),
            ("'ab'", (2, UNCLOSED_CHAR)),
            ("a r\"", (2, UNCLOSED_RAW)),
            ("br#\"a\"", (0, UNCLOSED_RAW)),
            ("cr##\"a\"#", (0, UNCLOSED_RAW)),
            ("r\"a\r\"", (0, "malformed string or character")),
            (
                "k\"a\"",
                (0, "a name directly before a quote or `#` is reserved"),
            ),
            ("##", (0, "`#` directly before a quote or `#` is reserved")),
            ("//! \r", (0, "bare carriage return in a doc comment")),
        ],
    );
}

// Literals that the lexer reads otherwise, or not as one, so that no error of it shows their fault.
#[test]
fn quoted_faults(rt: HostRuntime) {
    let rows = [
        ("''", Some((QuotedFault::NoChar, 1))),
        ("'", Some((QuotedFault::Unclosed, 0))),
        ("b'", Some((QuotedFault::Unclosed, 0))),
        ("'\\", Some((QuotedFault::Unclosed, 0))),
        ("'a'", None),
        ("x", None),
    ];
    for (text, fault) in &rows {
        assert_eq!(rt; quoted_fault(text), *fault, "at {text}");
    }
}
