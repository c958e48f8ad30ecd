//! The values of literals: escapes, lines that go on, bases, and what has no value.
use std::alloc::{AllocGlobal, Global};
use std::process::Abort;
use tok_core::{Edition, Literal, TokenStream, TokenTree, lex_source};
use tok_values::{IntegerFault, LiteralExt, bool_value};

fn stream(alloc: Global, text: &str) -> Option<TokenStream> {
    lex_source(alloc, Edition::default(), 0, text).ok()
}

fn only_literal(stream: &TokenStream) -> Option<&Literal> {
    match stream.trees() {
        [TokenTree::Literal(literal)] => Some(literal),
        _ => None,
    }
}

// Returns `true` if a text is one literal, and its value as a string is the wanted one.
fn is_string(alloc: Global, text: &str, wanted: Option<&str>) -> Option<bool> {
    let stream = stream(alloc, text)?;
    let value = only_literal(&stream)?.string_value(alloc).ok()?;
    Some(value.as_deref() == wanted)
}

fn is_bytes(alloc: Global, text: &str, wanted: Option<&[u8]>) -> Option<bool> {
    let stream = stream(alloc, text)?;
    let value = only_literal(&stream)?.bytes_value(alloc).ok()?;
    Some(value.as_deref() == wanted)
}

// The value as a character, as a byte, and as a truth value.
fn single(alloc: Global, text: &str) -> Option<(Option<char>, Option<u8>)> {
    let stream = stream(alloc, text)?;
    let literal = only_literal(&stream)?;
    Some((literal.char_value(), literal.byte_value()))
}

fn is_integer(
    alloc: Global,
    text: &str,
    wanted: Result<(u64, &str), IntegerFault>,
) -> Option<bool> {
    let stream = stream(alloc, text)?;
    let value = only_literal(&stream)?.integer_value();
    Some(match (value, wanted) {
        (Ok(made), Ok((value, suffix))) => made.value == value && made.suffix == suffix,
        (Err(fault), Err(wanted)) => fault == wanted,
        _ => false,
    })
}

fn is_float(alloc: Global, text: &str, wanted: Option<f64>) -> Option<bool> {
    let stream = stream(alloc, text)?;
    let value = only_literal(&stream)?.float_value(alloc).ok()?;
    Some(value == wanted)
}

fn truth(alloc: Global, text: &str) -> Option<Option<bool>> {
    let stream = stream(alloc, text)?;
    match stream.trees() {
        [TokenTree::Ident(ident)] => Some(bool_value(ident)),
        _ => None,
    }
}

fn all_strings(rt: &(impl Abort + AllocGlobal), rows: &[(&str, Option<&str>)]) {
    for (text, wanted) in rows {
        assert_eq!(rt;
            is_string(rt.alloc(), text, *wanted),
            Some(true),
            "at {text}"
        );
    }
}

fn all_bytes(rt: &(impl Abort + AllocGlobal), rows: &[(&str, Option<&[u8]>)]) {
    for (text, wanted) in rows {
        assert_eq!(rt;
            is_bytes(rt.alloc(), text, *wanted),
            Some(true),
            "at {text}"
        );
    }
}

fn all_single(rt: &(impl Abort + AllocGlobal), rows: &[(&str, Option<char>, Option<u8>)]) {
    for (text, c, byte) in rows {
        assert_eq!(rt; single(rt.alloc(), text), Some((*c, *byte)), "at {text}");
    }
}

fn all_integers(
    rt: &(impl Abort + AllocGlobal),
    rows: &[(&str, Result<(u64, &str), IntegerFault>)],
) {
    for (text, wanted) in rows {
        assert_eq!(rt;
            is_integer(rt.alloc(), text, *wanted),
            Some(true),
            "at {text}"
        );
    }
}

fn all_floats(rt: &(impl Abort + AllocGlobal), rows: &[(&str, Option<f64>)]) {
    for (text, wanted) in rows {
        assert_eq!(rt;
            is_float(rt.alloc(), text, *wanted),
            Some(true),
            "at {text}"
        );
    }
}

#[test]
fn strings(rt: HostRuntime) {
    all_strings(
        &rt,
        &[
            ("\"\"", Some("")),
            ("\"a b\"", Some("a b")),
            ("\"\\n\\r\\t\\0\\\\\\'\\\"'\"", Some("\n\r\t\0\\'\"'")),
            ("\"\\x41\\x7f\"", Some("A\u{7f}")),
            ("\"\\u{e9}\\u{1_F600}\\u{0}\"", Some("é😀\0")),
            ("\"a\\\n   \t b\"", Some("ab")),
            ("\"a\\\r\n  b\"", Some("ab")),
            ("\"a\\\n\n\n b\"", Some("ab")),
            ("\"a\r\nb\"", Some("a\nb")),
            ("\"a\\\n\u{a0}b\"", Some("a\u{a0}b")),
            ("\"fourteen bytes\"", Some("fourteen bytes")),
            ("\"fifteen bytes..\"", Some("fifteen bytes..")),
            ("\"sixteen bytes...\"", Some("sixteen bytes...")),
            (
                "\"thirty-two bytes, and an escape..\\n\"",
                Some("thirty-two bytes, and an escape..\n"),
            ),
            (
                "\"äußere Zeichen, länger als 16 Bytes\\té\"",
                Some("äußere Zeichen, länger als 16 Bytes\té"),
            ),
            (
                "\"a long line that ends here\r\nand another of the same\r\n\"",
                Some("a long line that ends here\nand another of the same\n"),
            ),
            (
                "\"a long line that goes on \\\r\n    after it has ended\"",
                Some("a long line that goes on after it has ended"),
            ),
            ("\"a text of more than 16 bytes\"s", None),
            ("\"a\"s", None),
            ("b\"a\"", None),
            ("'a'", None),
            ("1", None),
        ],
    );
}

#[test]
fn byte_strings(rt: HostRuntime) {
    all_bytes(
        &rt,
        &[
            ("b\"\"", Some(b"".as_slice())),
            (
                "b\"a\\xff\\x00\\n\\\n  c\"",
                Some(b"a\xFF\x00\nc".as_slice()),
            ),
            (
                "b\"more than sixteen bytes, \\xff and\r\nagain more than sixteen\"",
                Some(b"more than sixteen bytes, \xFF and\nagain more than sixteen".as_slice()),
            ),
            (
                "b\"sixteen bytes...\"",
                Some(b"sixteen bytes...".as_slice()),
            ),
            ("b\"a\"s", None),
            ("\"a\"", None),
        ],
    );
}

#[test]
fn characters_and_bytes(rt: HostRuntime) {
    all_single(
        &rt,
        &[
            ("'a'", Some('a'), None),
            ("'é'", Some('é'), None),
            ("'\"'", Some('"'), None),
            ("'\\''", Some('\''), None),
            ("'\\u{10FFFF}'", Some('\u{10FFFF}'), None),
            ("'\\x7F'", Some('\u{7f}'), None),
            ("'a's", None, None),
            ("b'a'", None, Some(b'a')),
            ("b'\\xFF'", None, Some(255)),
            ("b'\\\\'", None, Some(b'\\')),
            ("\"a\"", None, None),
            ("1", None, None),
        ],
    );
}

#[test]
fn integers(rt: HostRuntime) {
    all_integers(
        &rt,
        &[
            ("0", Ok((0, ""))),
            ("1_000u8", Ok((1000, "u8"))),
            ("0x_fF", Ok((255, ""))),
            ("0xe1u32", Ok((225, "u32"))),
            ("0o17_i8", Ok((15, "i8"))),
            ("0b1010", Ok((10, ""))),
            ("0_9", Ok((9, ""))),
            ("12é", Ok((12, "é"))),
            ("18446744073709551615", Ok((u64::MAX, ""))),
            ("18446744073709551616", Err(IntegerFault::TooLarge)),
            ("0x1_0000_0000_0000_0000", Err(IntegerFault::TooLarge)),
            ("1f64", Ok((1, "f64"))),
            ("1.0", Err(IntegerFault::NotInteger)),
            ("1e3", Err(IntegerFault::NotInteger)),
            ("\"1\"", Err(IntegerFault::NotInteger)),
        ],
    );
}

#[test]
fn floats(rt: HostRuntime) {
    all_floats(
        &rt,
        &[
            ("1.5", Some(1.5)),
            ("5.5", Some(5.5)),
            ("5.5E12", Some(5.5e12)),
            ("5.5e12", Some(5.5e12)),
            ("1.0__3e-12", Some(1.03e-12)),
            ("1.03e+12", Some(1.03e12)),
            ("1e_0", Some(1.0)),
            ("9e99e99", None),
            ("1.", Some(1.0)),
            ("1_0.2_5e-1", Some(1.025)),
            ("2f64", Some(2.0)),
            ("2.5f32", Some(2.5)),
            ("3", Some(3.0)),
            ("1e400", Some(f64::INFINITY)),
            ("0x1", None),
            ("0x1f", None),
            ("0b1", None),
            ("1u8", None),
            ("1f16", None),
            ("1.5f33", None),
            ("\"1\"", None),
        ],
    );
}

#[test]
fn truth_values(rt: HostRuntime) {
    assert_eq!(rt; truth(rt.alloc(), "true"), Some(Some(true)));
    assert_eq!(rt; truth(rt.alloc(), "false"), Some(Some(false)));
    assert_eq!(rt; truth(rt.alloc(), "r#true"), Some(None));
    assert_eq!(rt; truth(rt.alloc(), "truth"), Some(None));
}
