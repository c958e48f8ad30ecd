//! The functions of the crate `example_callers`: trees, tokens, lists, and walks with a cursor.
mod choices;
mod entries;
mod streams;

use example_callers::buffer::{any_lifetime, pair_of_idents};
use example_callers::loops::{past_idents, past_sign};
use example_callers::punctuated::{
    put_seven, raise_first, raise_last, total, two_three_four, written,
};
use example_callers::tokens::{Sealed, either, is_restricted, write_restricted};
use example_callers::trees::{by_hand, printed};
use example_callers::views::names_second;
use std::alloc::{AllocGlobal, Global};
use std::process::Abort;
use syn_punctuated::Punctuated;
use tok_buffer::{Cursor, TokenBuffer};
use tok_core::{TokenStream, lex_marked};
use tok_types::token::{self, Token};

fn is_text(text: Option<String>, wanted: &str) -> bool {
    match text {
        Some(text) => text.as_str() == wanted,
        None => false,
    }
}

fn built(alloc: Global) -> Option<String> {
    let stream = by_hand(alloc).ok()?;
    printed(alloc, &stream).ok()
}

#[test]
fn prints_what_was_built(rt: HostRuntime) {
    assert!(rt; is_text(built(rt.alloc()), "a (b «c») +="));
}

fn laid(alloc: Global, text: &str) -> Option<TokenBuffer> {
    let stream = lex_marked(alloc, 0, text).ok()?;
    TokenBuffer::new2(alloc, 0, stream).ok()
}

// What is read at a cursor.
enum Walk {
    Lifetime,
    TwoIdents,
}

// Returns the range of a lifetime's apostrophe, and its name.
fn lifetime_text(alloc: Global, cursor: Cursor<'_>) -> Option<String> {
    let (apostrophe, name) = any_lifetime(cursor)?;
    let (source, start, end) = apostrophe.as_range()?;
    format!(in alloc; "{source} {start}..{end} {}", name.as_str()).ok()
}

// Returns two identifiers, and whether two more come after them.
fn two_idents_text(alloc: Global, cursor: Cursor<'_>) -> Option<String> {
    let (first, second, rest) = pair_of_idents(cursor)?;
    let has_more = pair_of_idents(rest).is_some();
    format!(in alloc; "{} {} {has_more}", first.as_str(), second.as_str()).ok()
}

fn walk_text(alloc: Global, cursor: Cursor<'_>, walk: &Walk) -> Option<String> {
    match walk {
        Walk::Lifetime => lifetime_text(alloc, cursor),
        Walk::TwoIdents => two_idents_text(alloc, cursor),
    }
}

fn walked(alloc: Global, text: &str, walk: &Walk, is_second: bool) -> Option<String> {
    let buffer = laid(alloc, text)?;
    let start = buffer.begin();
    let cursor = if is_second { start.skip()? } else { start };
    walk_text(alloc, cursor, walk)
}

// Checks each walk from the first token of a text, or from its second.
fn all_walks(rt: &(impl Abort + AllocGlobal), rows: &[(&str, Walk, bool, &str)]) {
    for (text, walk, is_second, wanted) in rows {
        let text = walked(rt.alloc(), text, walk, *is_second);
        assert!(rt; is_text(text, wanted), "not {wanted}");
    }
}

#[test]
fn walks_across_edges(rt: HostRuntime) {
    all_walks(
        &rt,
        &[
            ("'«a» b", Walk::Lifetime, false, "0 0..1 a"),
            ("'«a» b «c» d", Walk::TwoIdents, true, "b c false"),
            ("a b c d", Walk::TwoIdents, false, "a b true"),
        ],
    );
}

// Returns whether a token of one's own is next, whether it or `pub` is, `pub` or `trait`, and a
// restricted `pub`.
fn looks(alloc: Global, text: &str) -> Option<[bool; 4]> {
    let buffer = laid(alloc, text)?;
    let cursor = buffer.begin();
    Some([
        Sealed::peek(cursor),
        either::<token::Pub, Sealed>(cursor),
        either::<token::Pub, token::Trait>(cursor),
        is_restricted(cursor),
    ])
}

fn all_looks(rt: &(impl Abort + AllocGlobal), rows: &[(&str, [bool; 4])]) {
    for (text, wanted) in rows {
        assert_eq!(rt; looks(rt.alloc(), text), Some(*wanted), "at {text}");
    }
}

#[test]
fn looks_for_tokens_of_ones_own(rt: HostRuntime) {
    all_looks(
        &rt,
        &[
            ("«sealed» trait", [true, true, false, false]),
            ("pub (crate)", [false, true, true, true]),
            ("pub crate", [false, true, true, false]),
        ],
    );
}

fn restricted(alloc: Global) -> Option<TokenStream> {
    let mut tokens = TokenStream::new(alloc);
    write_restricted(&mut tokens).ok()?;
    Some(tokens)
}

fn restricted_text(alloc: Global) -> Option<String> {
    let tokens = restricted(alloc)?;
    tokens.to_string(alloc).ok()
}

fn finds_restricted(alloc: Global) -> Option<bool> {
    let buffer = TokenBuffer::new2(alloc, 0, restricted(alloc)?).ok()?;
    Some(is_restricted(buffer.begin()))
}

#[test]
fn writes_what_it_looks_for(rt: HostRuntime) {
    assert!(rt; is_text(restricted_text(rt.alloc()), "pub (crate)"));
    assert_eq!(rt; finds_restricted(rt.alloc()), Some(true));
}

fn total_of_three(alloc: Global) -> Option<u32> {
    let list = two_three_four(alloc).ok()?;
    Some(total(&list))
}

// Returns the text of `2,3,4` without one value.
fn written_without(alloc: Global, number: u32) -> Option<String> {
    let mut list = two_three_four(alloc).ok()?;
    list.retain(|value| *value != number);
    written(alloc, &list).ok()
}

fn trails_without(alloc: Global, number: u32) -> Option<bool> {
    let mut list = two_three_four(alloc).ok()?;
    list.retain(|value| *value != number);
    Some(list.trailing_punct())
}

fn all_without(rt: &(impl Abort + AllocGlobal), rows: &[(u32, &str, bool)]) {
    for (number, wanted, is_trailing) in rows {
        assert!(rt;
            is_text(written_without(rt.alloc(), *number), wanted),
            "not {wanted}"
        );
        assert_eq!(rt;
            trails_without(rt.alloc(), *number),
            Some(*is_trailing),
            "at {wanted}"
        );
    }
}

#[test]
fn edits_a_list(rt: HostRuntime) {
    assert_eq!(rt; total_of_three(rt.alloc()), Some(9));
    all_without(&rt, &[(9, "2,3,4", false), (4, "2,3", false)]);
}

// Writes 9 over the first value of `2,3,4`, inserts 7 before it, and writes 8 over the last.
// Returns the second value and the last one.
fn raised(alloc: Global) -> Option<(Option<u32>, bool, Option<u32>)> {
    let mut list = two_three_four(alloc).ok()?;
    if list.is_empty() {
        return None;
    }
    raise_first(&mut list);
    put_seven(&mut list).ok()?;
    let second = list.get(1).copied();
    let is_raised = raise_last(&mut list);
    Some((second, is_raised, list.last().copied()))
}

fn raises_last_of_none(alloc: Global) -> bool {
    let mut list = Punctuated::new(alloc);
    raise_last(&mut list)
}

#[test]
fn writes_into_a_list(rt: HostRuntime) {
    assert_eq!(rt; raised(rt.alloc()), Some((Some(9), true, Some(8))));
    assert!(rt; !raises_last_of_none(rt.alloc()));
}

// Returns the position after all identifiers, the one after the next `@`, and whether one more is
// found.
fn looped(alloc: Global, text: &str) -> Option<(usize, usize, bool)> {
    let buffer = laid(alloc, text)?;
    let rest = past_idents(buffer.begin());
    let found = past_sign(alloc, rest).ok()??;
    let has_more = past_sign(alloc, found).ok()?.is_some();
    Some((rest.position()?, found.position()?, has_more))
}

fn all_loops(rt: &(impl Abort + AllocGlobal), rows: &[(&str, (usize, usize, bool))]) {
    for (text, wanted) in rows {
        assert_eq!(rt; looped(rt.alloc(), text), Some(*wanted), "at {text}");
    }
}

#[test]
fn loops_end(rt: HostRuntime) {
    all_loops(
        &rt,
        &[("a «b» c (@) @ d", (5, 9, false)), ("a @ @", (1, 2, true))],
    );
}

fn second_names(alloc: Global, left: &str, right: &str) -> Option<(bool, bool)> {
    let left = laid(alloc, left)?;
    let right = laid(alloc, right)?;
    Some(names_second(left.begin(), right.begin()))
}

fn all_second(rt: &(impl Abort + AllocGlobal), rows: &[(&str, &str, (bool, bool))]) {
    for (left, right, wanted) in rows {
        assert_eq!(rt;
            second_names(rt.alloc(), left, right),
            Some(*wanted),
            "at {left}"
        );
    }
}

#[test]
fn tells_what_is_second(rt: HostRuntime) {
    all_second(
        &rt,
        &[
            ("'a «b»", "'«a» b", (true, true)),
            ("+ 1", "a b", (false, true)),
        ],
    );
}
