//! Arguments: what texts are read as, with marks and without, and with which errors they are
//! rejected.
use arguments::{Arguments, arguments_both, parse_arguments};
use std::alloc::{AllocGlobal, Global};
use std::process::Abort;
use syn_parse::Result;
use test_outcomes::is_said;
use tok_buffer::Error;
use tok_core::lex_marked;

// Returns the names of the outer list, each with a space. `vectors_streams` prints all of a list.
fn shown(alloc: Global, list: &Arguments) -> Result<String> {
    let mut text = String::new(alloc);
    for argument in list {
        text.push_str(argument.name.as_str())?;
        text.push(' ')?;
    }
    Ok(text)
}

fn parsed(alloc: Global, text: &str) -> Option<Result<String>> {
    let stream = lex_marked(alloc, 0, text).ok()?;
    match parse_arguments(alloc, stream) {
        Ok(list) => Some(shown(alloc, &list)),
        Err(fault) => Some(Err(fault)),
    }
}

fn is_parsed(alloc: Global, text: &str, wanted: &str) -> bool {
    match parsed(alloc, text) {
        Some(outcome) => is_said(alloc, outcome, wanted),
        None => false,
    }
}

fn all_parsed(rt: &(impl Abort + AllocGlobal), rows: &[(&str, &str)]) {
    for (text, wanted) in rows {
        assert!(rt; is_parsed(rt.alloc(), text, wanted), "at {text}");
    }
}

#[test]
fn lists(rt: HostRuntime) {
    all_parsed(
        &rt,
        &[
            ("", ""),
            ("a, b = 1, c(d, e = \"x\")", "a b c "),
            ("a, «b» = «1», c(«d», e = \"x\")", "a b c "),
            ("« »a, c(« »d), «« »b»", "a c b "),
            ("a()", "a "),
            ("a,", "a "),
        ],
    );
}

#[test]
fn errors(rt: HostRuntime) {
    all_parsed(
        &rt,
        &[
            ("a b", "2..3 expected `,`"),
            ("a = ,", "4..5 expected literal token"),
            ("a == 1", "3..4 expected literal token"),
            (
                "a =",
                "call unexpected end of input, expected literal token",
            ),
            (
                "c(d =)",
                "5..6 unexpected end of input, expected literal token",
            ),
            ("c(= 1)", "2..3 expected identifier"),
            ("a = 1 2", "6..7 expected `,`"),
            ("a(b) = 1", "5..6 expected `,`"),
            ("fn", "0..2 expected identifier, found keyword `fn`"),
        ],
    );
}

// Returns a list as text, or the words of the error.
fn shown_or_words(alloc: Global, outcome: std::result::Result<Arguments, Error>) -> Option<String> {
    match outcome {
        Ok(list) => shown(alloc, &list).ok(),
        Err(error) => format!(in alloc; "{error}").ok(),
    }
}

fn is_shown(alloc: Global, outcome: std::result::Result<Arguments, Error>, wanted: &str) -> bool {
    match shown_or_words(alloc, outcome) {
        Some(text) => text.as_str() == wanted,
        None => false,
    }
}

// Returns `true` if both texts are the same list, or are rejected in the same words.
fn are_both(alloc: Global, left: &str, right: &str, wanted: &str) -> Option<bool> {
    let left = lex_marked(alloc, 0, left).ok()?;
    let right = lex_marked(alloc, 0, right).ok()?;
    let (left, right) = arguments_both(alloc, left, right).ok()?;
    let is_left = is_shown(alloc, left, wanted);
    let is_right = is_shown(alloc, right, wanted);
    Some(is_left && is_right)
}

fn all_both(rt: &(impl Abort + AllocGlobal), rows: &[(&str, &str, &str)]) {
    for (left, right, wanted) in rows {
        assert_eq!(rt;
            are_both(rt.alloc(), left, right, wanted),
            Some(true),
            "at {left}"
        );
    }
}

#[test]
fn two_layouts(rt: HostRuntime) {
    all_both(
        &rt,
        &[
            (
                "a, b = 1, c(d, e = \"x\")",
                "a, «b» = «1», c(«d», e = \"x\")",
                "a b c ",
            ),
            ("a = , b", "«a =» , «b»", "expected literal token"),
        ],
    );
}
