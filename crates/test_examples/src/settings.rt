//! The language `example_config`: settings that are read, printed and read again.
use example_config::{Shown, parse_config};
use std::alloc::{AllocGlobal, Global};
use std::process::Abort;

// Reads a text, and returns its normal form.
fn normal(alloc: Global, text: &str) -> Option<String> {
    let config = parse_config(alloc, 0, text).ok()?;
    format!(in alloc; "{}", Shown(&config)).ok()
}

// Returns whether the text has this normal form.
fn is_normal(alloc: Global, text: &str, wanted: &str) -> bool {
    match normal(alloc, text) {
        Some(text) => text.as_str() == wanted,
        None => false,
    }
}

// Checks the normal form of each text, which reads the same again.
fn all_normal(rt: &(impl Abort + AllocGlobal), rows: &[(&str, &str)]) {
    for (text, wanted) in rows {
        assert!(rt; is_normal(rt.alloc(), text, wanted), "at {text}");
        assert!(rt; is_normal(rt.alloc(), wanted, wanted), "at {wanted}");
    }
}

#[test]
fn reads_what_it_prints(rt: HostRuntime) {
    all_normal(
        &rt,
        &[
            ("", ""),
            ("a: 1", "a: 1,\n"),
            ("a: 0x1F_90, b: 0b101,", "a: 8080,\nb: 5,\n"),
            ("a: 18446744073709551615", "a: 18446744073709551615,\n"),
            ("on: true, off: false", "on: true,\noff: false,\n"),
            ("a: \"\\x41\\u{e9}\"", "a: \"Aé\",\n"),
            ("a: \"\\n\\t\\\\\\\"\"", "a: \"\\n\\t\\\\\\\"\",\n"),
            ("a: [[\"b\",], [], 3]", "a: [[\"b\"], [], 3],\n"),
            ("a: {b: {}, c: [{d: 1,}]}", "a: {b: {}, c: [{d: 1}]},\n"),
        ],
    );
}
