//! Names of the front: each is the item of the crate below that it is named after.
use std::alloc::{AllocGlobal, Global};
use std::process::Abort;
use syn_tokens::buffer::TokenBuffer;
use syn_tokens::entries::write_entries;
use syn_tokens::token::{self, Token};
use syn_tokens::{
    Edition, LexFault, LitBool, LitFloat, LitInt, LitStr, TokenStream, is_clear, is_filled, lex,
    lex_marked, lex_source, prune,
};

fn all_displays(rt: &impl Abort, rows: &[(&str, &str)]) {
    for (found, wanted) in rows {
        assert_eq!(rt; *found, *wanted);
    }
}

#[test]
fn tokens(rt: HostRuntime) {
    all_displays(
        &rt,
        &[
            (token::Fn::display(), "`fn`"),
            (token::PathSep::display(), "`::`"),
            (token::Underscore::display(), "`_`"),
            (token::Paren::display(), "parentheses"),
            (token::Brace::display(), "curly braces"),
            (token::Bracket::display(), "square brackets"),
            (token::Group::display(), "invisible group"),
            (LitStr::display(), "string literal"),
            (LitInt::display(), "integer literal"),
            (LitFloat::display(), "floating point literal"),
            (LitBool::display(), "boolean literal"),
            (token::keyword_text(18), "fn"),
            (token::keyword_display(18), "`fn`"),
            (token::punctuation_text(7), ","),
            (token::punctuation_display(7), "`,`"),
        ],
    );
}

// Returns how many trees each of the three lexers reads, if it accepts the text.
fn counts(alloc: Global, text: &str) -> [Option<usize>; 3] {
    [
        count(lex(alloc, 0, text)),
        count(lex_marked(alloc, 0, text)),
        count(lex_source(alloc, Edition::Edition2021, 0, text)),
    ]
}

fn count(read: Result<TokenStream, LexFault>) -> Option<usize> {
    Some(read.ok()?.trees().len())
}

fn all_counts(rt: &(impl Abort + AllocGlobal), rows: &[(&str, [Option<usize>; 3])]) {
    for (text, wanted) in rows {
        assert_eq!(rt; counts(rt.alloc(), text), *wanted, "at {text}");
    }
}

#[test]
fn lexers(rt: HostRuntime) {
    all_counts(
        &rt,
        &[
            ("a b", [Some(2), Some(2), Some(2)]),
            ("«a b»", [None, Some(1), None]),
            ("1.0", [None, None, Some(1)]),
        ],
    );
}

// Returns whether each invisible group has a token, and whether no apostrophe is at an edge.
fn shape(alloc: Global, text: &str) -> Option<(bool, bool)> {
    let stream = lex_marked(alloc, 0, text).ok()?;
    Some((is_filled(&stream), is_clear(&stream)))
}

fn all_shapes(rt: &(impl Abort + AllocGlobal), rows: &[(&str, Option<(bool, bool)>)]) {
    for (text, wanted) in rows {
        assert_eq!(rt; shape(rt.alloc(), text), *wanted, "at {text}");
    }
}

#[test]
fn shapes(rt: HostRuntime) {
    all_shapes(
        &rt,
        &[("«»", Some((false, true))), ("'«+»", Some((true, false)))],
    );
}

// Returns how many trees are left of a text once empty groups are removed, and how many tokens the
// buffer of its entries has.
fn left(alloc: Global, text: &str) -> Option<(usize, usize)> {
    let stream = lex_marked(alloc, 0, text).ok()?;
    let mut entries = Vec::new(alloc);
    let mut texts = String::new(alloc);
    write_entries(&mut entries, &mut texts, &stream).ok()?;
    let buffer = TokenBuffer::from_entries(alloc, 0, entries.as_slice(), texts.as_str()).ok()?;
    let trees = prune(alloc, stream).ok()?.trees().len();
    Some((trees, buffer.begin().remaining()))
}

fn all_left(rt: &(impl Abort + AllocGlobal), rows: &[(&str, Option<(usize, usize)>)]) {
    for (text, wanted) in rows {
        assert_eq!(rt; left(rt.alloc(), text), *wanted, "at {text}");
    }
}

#[test]
fn entries(rt: HostRuntime) {
    all_left(
        &rt,
        &[
            ("", Some((0, 0))),
            ("«» a", Some((1, 1))),
            ("«a «»» (b)", Some((2, 6))),
        ],
    );
}
