//! The suffixes of literals, the values of raw strings and whatever the suffix, and numbers made.
use std::alloc::{AllocGlobal, Global};
use std::process::Abort;
use tok_core::{Literal, Span};
use tok_values::{LiteralExt, NumberFault};

// Returns `true` if the literal of both texts has this suffix, and without it is the front, with
// its span.
fn is_suffix(alloc: Global, front: &str, suffix: &str) -> Option<bool> {
    let text = format!(in alloc; "{front}{suffix}").ok()?;
    let span = Span::source(1, 2, 4);
    let literal = Literal::new(alloc, text.as_str(), span).ok()?;
    let plain = literal.without_suffix(alloc).ok()?;
    Some(literal.suffix() == suffix && plain.as_str() == front && plain.span() == span)
}

fn all_suffixes(rt: &(impl Abort + AllocGlobal), rows: &[(&str, &str)]) {
    for (front, suffix) in rows {
        assert_eq!(rt;
            is_suffix(rt.alloc(), front, suffix),
            Some(true),
            "at {front} {suffix}"
        );
    }
}

#[test]
fn suffixes(rt: HostRuntime) {
    all_suffixes(
        &rt,
        &[
            ("1", ""),
            ("1", "u8"),
            ("1", "i32"),
            ("1_", "i32"),
            ("1_", "u8"),
            ("0o0", "A"),
            ("0_9", "é"),
            ("0x1f", ""),
            ("0x1f", "u8"),
            ("0xE", ""),
            ("0b1", "f32"),
            ("0o7_", "i8"),
            ("1.", ""),
            ("1.5", ""),
            ("1.5", "f32"),
            ("1.0", "f32"),
            ("1.0_", "f32"),
            ("1.5_0e3", "f32"),
            ("1e5", ""),
            ("1e+5_", "f64"),
            ("1E-5", "x"),
            ("9e99", "e99"),
            ("\"a\"", ""),
            ("\"\"", "s"),
            ("\"a\"", "s"),
            ("\"a 'b' #c\"", "s"),
            ("\"a text of more than fourteen bytes\"", "s"),
            ("b\"\"", "b"),
            ("b\"a\"", "s"),
            ("br\"\"", "br"),
            ("c\"a\"", "s_1"),
            ("r\"\"", "r"),
            ("r\"a\"", "s"),
            ("r#\"\"#", "r"),
            ("r#\"a\"b\"#", "s"),
            ("r#\"a\"b\"#", ""),
            ("br##\"#\"##", "é"),
            ("'a'", ""),
            ("'a'", "x"),
            ("'\"'", "x"),
            ("'c'", "c"),
            ("b'b'", "b"),
            ("b'\\''", "x"),
        ],
    );
}

// Returns `true` if the values of a literal as a raw string and as a raw byte string are the wanted
// ones.
fn is_raw(alloc: Global, text: &str, string: Option<&str>, bytes: Option<&[u8]>) -> Option<bool> {
    let literal = Literal::new(alloc, text, Span::call_site()).ok()?;
    Some(literal.raw_string_value() == string && literal.raw_bytes_value() == bytes)
}

fn all_raw(rt: &(impl Abort + AllocGlobal), rows: &[(&str, Option<&str>, Option<&[u8]>)]) {
    for (text, string, bytes) in rows {
        assert_eq!(rt;
            is_raw(rt.alloc(), text, *string, *bytes),
            Some(true),
            "at {text}"
        );
    }
}

#[test]
fn raw_strings(rt: HostRuntime) {
    all_raw(
        &rt,
        &[
            ("r\"\"", Some(""), None),
            ("r\"a é\"", Some("a é"), None),
            ("r\"a\\n\"", Some("a\\n"), None),
            ("r\"a\r\nb\"", Some("a\r\nb"), None),
            ("r#\"a\"b\"#", Some("a\"b"), None),
            ("r##\"a\"#b\"##", Some("a\"#b"), None),
            ("r#\"#\"#", Some("#"), None),
            ("r\"a\"s", None, None),
            ("r#\"a\"#s", None, None),
            ("br\"a\"", None, Some(b"a".as_slice())),
            ("br#\"\"\\\"#", None, Some(b"\"\\".as_slice())),
            ("br\"a\"s", None, None),
            ("cr\"a\"", None, None),
            ("\"a\"", None, None),
            ("b\"a\"", None, None),
            ("'r'", None, None),
            ("1", None, None),
        ],
    );
}

// The value that a literal of any form has, raw or not and with any suffix.
enum Form<'a> {
    Text(&'a str),
    Bytes(&'a [u8]),
    C(&'a [u8]),
    Character(char),
    Byte(u8),
    None,
}

// Returns `true` if this is the only value that the literal of a text has.
fn is_form(alloc: Global, text: &str, form: &Form<'_>) -> Option<bool> {
    let literal = Literal::new(alloc, text, Span::call_site()).ok()?;
    let string = literal.str_value(alloc).ok()?;
    let bytes = literal.byte_str_value(alloc).ok()?;
    let c = literal.cstr_value(alloc).ok()?;
    let (mut wanted_text, mut wanted_bytes, mut wanted_c) = (None, None, None);
    let (mut wanted_character, mut wanted_byte) = (None, None);
    match form {
        Form::Text(value) => wanted_text = Some(*value),
        Form::Bytes(value) => wanted_bytes = Some(*value),
        Form::C(value) => wanted_c = Some(*value),
        Form::Character(value) => wanted_character = Some(*value),
        Form::Byte(value) => wanted_byte = Some(*value),
        Form::None => {}
    }
    let is_c = match (&c, wanted_c) {
        (Some(value), Some(wanted)) => value.as_bytes() == wanted,
        (None, None) => true,
        _ => false,
    };
    let is_one = literal.character_value() == wanted_character
        && literal.byte_character_value() == wanted_byte;
    Some(string.as_deref() == wanted_text && bytes.as_deref() == wanted_bytes && is_c && is_one)
}

fn all_forms(rt: &(impl Abort + AllocGlobal), rows: &[(&str, Form<'_>)]) {
    for (text, form) in rows {
        assert_eq!(rt; is_form(rt.alloc(), text, form), Some(true), "at {text}");
    }
}

#[test]
fn strings_of_any_form(rt: HostRuntime) {
    all_forms(
        &rt,
        &[
            ("\"\"", Form::Text("")),
            ("\"a\\n\\\"\\u{e9}\"", Form::Text("a\n\"é")),
            ("\"\\n\\r\\t\"", Form::Text("\n\r\t")),
            (
                "\"contains\nnewlines\\\nescaped newlines\"",
                Form::Text("contains\nnewlinesescaped newlines"),
            ),
            ("\"a\"s", Form::Text("a")),
            ("\"...\"q", Form::Text("...")),
            (
                "\"a text of more than sixteen bytes\"é",
                Form::Text("a text of more than sixteen bytes"),
            ),
            ("r\"a\\n\"", Form::Text("a\\n")),
            ("r\"a\"s", Form::Text("a")),
            ("r\"...\"q", Form::Text("...")),
            ("r##\"...\"##q", Form::Text("...")),
            ("r##\"a\"#b\"##s_1", Form::Text("a\"#b")),
            ("b\"\"", Form::Bytes(b"")),
            ("b\"a\\xff\\x00\"", Form::Bytes(b"a\xFF\x00")),
            ("b\"\\n\\r\\t\\\"'\"", Form::Bytes(b"\n\r\t\"'")),
            (
                "b\"contains\nnewlines\\\nescaped newlines\"",
                Form::Bytes(b"contains\nnewlinesescaped newlines"),
            ),
            ("b\"a\"s", Form::Bytes(b"a")),
            ("b\"...\"q", Form::Bytes(b"...")),
            (
                "br\"raw\nstring\\\nhere\"",
                Form::Bytes(b"raw\nstring\\\nhere"),
            ),
            ("br\"...\"q", Form::Bytes(b"...")),
            ("br##\"...\"##q", Form::Bytes(b"...")),
            ("br\"a\\n\"", Form::Bytes(b"a\\n")),
            ("br#\"a\"\"#s", Form::Bytes(b"a\"")),
            ("c\"\"", Form::C(b"")),
            ("c\"a b\\n\\t\\\"\"", Form::C(b"a b\n\t\"")),
            (
                "c\"\\xff\\x7f\\u{e9}é\"",
                Form::C(b"\xFF\x7F\xC3\xA9\xC3\xA9"),
            ),
            ("c\"a\\\n  b\r\nc\"", Form::C(b"ab\nc")),
            ("c\"a\"s", Form::C(b"a")),
            ("cr\"a\\n\"", Form::C(b"a\\n")),
            ("cr#\"a\"é\"#s", Form::C(b"a\"\xC3\xA9")),
        ],
    );
}

#[test]
fn characters_with_any_suffix(rt: HostRuntime) {
    all_forms(
        &rt,
        &[
            ("'a'", Form::Character('a')),
            ("'a'q", Form::Character('a')),
            ("'\\n'", Form::Character('\n')),
            ("'\\r'", Form::Character('\r')),
            ("'\\t'", Form::Character('\t')),
            ("'🐕'", Form::Character('🐕')),
            ("'\"'", Form::Character('"')),
            ("'\\u{1F415}'", Form::Character('\u{1F415}')),
            ("'\\''s", Form::Character('\'')),
            ("'é'é", Form::Character('é')),
            ("'r's", Form::Character('r')),
            ("b'a'", Form::Byte(b'a')),
            ("b'a'q", Form::Byte(b'a')),
            ("b'\\n'", Form::Byte(b'\n')),
            ("b'\\r'", Form::Byte(b'\r')),
            ("b'\\t'", Form::Byte(b'\t')),
            ("b'\\''", Form::Byte(b'\'')),
            ("b'\"'", Form::Byte(b'"')),
            ("b'\\xff'u8", Form::Byte(255)),
            ("1u8", Form::None),
            ("1.5f32", Form::None),
        ],
    );
}

// Returns `true` if a number is made of the text, or none for this reason.
fn is_number(alloc: Global, text: &str, fault: Option<NumberFault>) -> bool {
    let span = Span::source(1, 2, 4);
    match Literal::number(alloc, text, span) {
        Ok(number) => fault.is_none() && number.as_str() == text && number.span() == span,
        Err(found) => fault == Some(found),
    }
}

fn all_numbers(rt: &(impl Abort + AllocGlobal), rows: &[(&str, Option<NumberFault>)]) {
    for (text, fault) in rows {
        assert!(rt; is_number(rt.alloc(), text, *fault), "at {text}");
    }
}

#[test]
fn numbers(rt: HostRuntime) {
    all_numbers(
        &rt,
        &[
            ("5", None),
            ("5i32", None),
            ("1_000_isize", None),
            ("300u8", None),
            ("340282366920938463463374607431768211456u128", None),
            ("0x1f32", None),
            ("0xfu128", None),
            ("0b1_i8", None),
            ("1.5", None),
            ("1.", None),
            ("1f64", None),
            ("1e5", None),
            ("1_0.5_0e+3_f32", None),
            ("-5", Some(NumberFault::Sign)),
            ("+1.5", Some(NumberFault::Sign)),
            ("", Some(NumberFault::NotNumber)),
            ("x", Some(NumberFault::NotNumber)),
            ("\"5\"", Some(NumberFault::NotNumber)),
            ("5 ", Some(NumberFault::NotNumber)),
            ("1.f32", Some(NumberFault::NotNumber)),
            ("0x", Some(NumberFault::NotNumber)),
            ("5i7", Some(NumberFault::Suffix)),
            ("1.5f33", Some(NumberFault::Suffix)),
            ("1.5i32", Some(NumberFault::Suffix)),
            ("0b1f32", Some(NumberFault::Suffix)),
            ("9e99e99", Some(NumberFault::Suffix)),
        ],
    );
}
