//! Arguments of the visible tokens of streams, and errors.
use crate::visible::texts::{both, is_text};
use arguments::Arguments;
use std::alloc::{AllocGlobal, Global};
use std::process::Abort;
use syn_parse::{Fault, Result};
use test_outcomes::said;
use tok_buffer::Error;
use tok_core::lex_marked;
use visible_arguments::{visible_arguments, visible_arguments_both};

// Returns how many arguments a list has, and whether a comma is last.
fn counted(alloc: Global, parsed: Result<Arguments>) -> Result<String> {
    let list = parsed?;
    let count = list.len();
    let trailing = list.trailing_punct();
    Ok(format!(in alloc; "{count} {trailing}")?)
}

fn read(alloc: Global, text: &str) -> Option<String> {
    let tokens = lex_marked(alloc, 0, text).ok()?;
    said(alloc, counted(alloc, visible_arguments(alloc, tokens)))
}

fn with_fault(parsed: std::result::Result<Arguments, Error>) -> Result<Arguments> {
    match parsed {
        Ok(list) => Ok(list),
        Err(error) => Err(Fault::Refused(error)),
    }
}

// Returns what both texts are read as, if that is the same.
fn read_both(alloc: Global, left: &str, right: &str) -> Option<String> {
    let left = lex_marked(alloc, 0, left).ok()?;
    let right = lex_marked(alloc, 0, right).ok()?;
    let (left, right) = visible_arguments_both(alloc, left, right).ok()?;
    let left = said(alloc, counted(alloc, with_fault(left)));
    both(left, said(alloc, counted(alloc, with_fault(right))))
}

fn all_read(rt: &(impl Abort + AllocGlobal), rows: &[(&str, &str)]) {
    for (text, wanted) in rows {
        assert!(rt; is_text(read(rt.alloc(), text), wanted), "at {text}");
    }
}

fn all_both(rt: &(impl Abort + AllocGlobal), rows: &[(&str, &str, &str)]) {
    for (left, right, wanted) in rows {
        assert!(rt;
            is_text(read_both(rt.alloc(), left, right), wanted),
            "at {left}, {right}"
        );
    }
}

#[test]
fn lists(rt: HostRuntime) {
    all_read(
        &rt,
        &[
            ("«»", "0 false"),
            ("« «» «» »", "0 false"),
            ("x", "1 false"),
            ("x « »", "1 false"),
            ("« » x", "1 false"),
            ("x, « »", "1 true"),
            ("v(« »)", "1 false"),
            ("v(« », )", "3..4 expected identifier"),
            ("« »c, b = «3», « »", "2 true"),
            ("a « » b", "4..5 expected `,`"),
            (
                "a = « »",
                "call unexpected end of input, expected literal token",
            ),
        ],
    );
}

#[test]
fn two_streams(rt: HostRuntime) {
    all_both(
        &rt,
        &[
            ("x, ", "x,« »", "1 true"),
            ("a( )", "a(« »)", "1 false"),
            (
                "a = «»",
                "a =",
                "call unexpected end of input, expected literal token",
            ),
        ],
    );
}
