//! Values of the visible tokens of streams, and errors.
use crate::visible::texts::{both, is_text};
use std::alloc::{AllocGlobal, Global};
use std::process::Abort;
use syn_parse::{ParseStream, Result};
use test_outcomes::said;
use tok_core::{Ident, Literal, lex_marked};
use tok_types::token;
use visible_parse::{parse_visible, parse_visible_both, parse_visible_with};

fn name(alloc: Global, parsed: Result<Ident>) -> Result<String> {
    let ident = parsed?;
    Ok(format!(in alloc; "{ident}")?)
}

fn read_of_type(alloc: Global, text: &str) -> Option<String> {
    let tokens = lex_marked(alloc, 0, text).ok()?;
    said(alloc, name(alloc, parse_visible(alloc, tokens)))
}

// Parses a name, `=` and a literal.
fn assigned(input: ParseStream<'_, '_>) -> Result<Literal> {
    let _: Ident = input.parse()?;
    let _: token::Eq = input.parse()?;
    input.parse()
}

fn literal(alloc: Global, parsed: Result<Literal>) -> Result<String> {
    let literal = parsed?;
    Ok(format!(in alloc; "{literal}")?)
}

fn read_with(alloc: Global, text: &str) -> Option<String> {
    let tokens = lex_marked(alloc, 0, text).ok()?;
    said(
        alloc,
        literal(alloc, parse_visible_with(alloc, tokens, assigned)),
    )
}

// Returns what both texts are read as, if that is the same.
fn read_both(alloc: Global, left: &str, right: &str) -> Option<String> {
    let left = lex_marked(alloc, 0, left).ok()?;
    let right = lex_marked(alloc, 0, right).ok()?;
    let (left, right) = parse_visible_both(alloc, left, right);
    both(
        said(alloc, name(alloc, left)),
        said(alloc, name(alloc, right)),
    )
}

fn all_of_type(rt: &(impl Abort + AllocGlobal), rows: &[(&str, &str)]) {
    for (text, wanted) in rows {
        assert!(rt;
            is_text(read_of_type(rt.alloc(), text), wanted),
            "at {text}"
        );
    }
}

fn all_with(rt: &(impl Abort + AllocGlobal), rows: &[(&str, &str)]) {
    for (text, wanted) in rows {
        assert!(rt; is_text(read_with(rt.alloc(), text), wanted), "at {text}");
    }
}

fn all_both(rt: &(impl Abort + AllocGlobal), rows: &[(&str, &str, &str)]) {
    for (left, right, wanted) in rows {
        assert!(rt;
            is_text(read_both(rt.alloc(), left, right), wanted),
            "at {left}, {right}"
        );
    }
}

#[test]
fn values(rt: HostRuntime) {
    all_of_type(
        &rt,
        &[
            ("a", "a"),
            ("a «»", "a"),
            ("«» a", "a"),
            ("««» a» « «» »", "a"),
            ("«»", "call unexpected end of input, expected identifier"),
            (
                "« «» «» »",
                "call unexpected end of input, expected identifier",
            ),
            ("a «» b", "3..4 unexpected token"),
            ("(«»)", "0..1 expected identifier"),
        ],
    );
}

#[test]
fn values_of_functions(rt: HostRuntime) {
    all_with(
        &rt,
        &[
            ("a = 1", "1"),
            ("«» a «» = «» 1 «»", "1"),
            ("«a» = ««» 1 «»»", "1"),
            (
                "a = «»",
                "call unexpected end of input, expected literal token",
            ),
            ("a «» 1", "3..4 expected `=`"),
        ],
    );
}

#[test]
fn two_streams(rt: HostRuntime) {
    all_both(
        &rt,
        &[
            ("a", "a«»", "a"),
            ("  a", "« «» »a", "a"),
            (
                "«»",
                "",
                "call unexpected end of input, expected identifier",
            ),
            (" 1", "« »1", "1..2 expected identifier"),
            ("a b", "a«» b", "2..3 unexpected token"),
        ],
    );
}
