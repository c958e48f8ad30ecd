//! Rebuilds visible trees at cursors and the trees between two, counts what is left, and goes to the
//! end of a scope.
use super::{At, Range, laid, place};
use std::alloc::{AllocGlobal, Global};
use std::process::Abort;

// Returns the span of the visible tree that is rebuilt at a place, and the position after it.
fn visible_tree(alloc: Global, text: &str, at: &At) -> Option<Option<(Range, Option<usize>)>> {
    let buffer = laid(alloc, 0, text)?;
    match place(&buffer, at).visible_tree(alloc).ok()? {
        Some((tree, rest)) => Some(Some((tree.span().as_range(), rest.position()))),
        None => Some(None),
    }
}

// Returns how much is left at a place, the position at the end of its scope, and how much is left
// there.
fn left(alloc: Global, text: &str, at: &At) -> Option<(usize, Option<usize>, usize)> {
    let buffer = laid(alloc, 0, text)?;
    let here = place(&buffer, at);
    let end = here.scope_end();
    Some((here.remaining(), end.position(), end.remaining()))
}

fn all_visible(
    rt: &(impl Abort + AllocGlobal),
    rows: &[(
        &str,
        At,
        Option<(Range, Option<usize>)>,
        (usize, Option<usize>, usize),
    )],
) {
    for (text, at, tree, counts) in rows {
        assert_eq!(rt;
            visible_tree(rt.alloc(), text, at),
            Some(*tree),
            "at {text}"
        );
        assert_eq!(rt; left(rt.alloc(), text, at), Some(*counts), "at {text}");
    }
}

#[test]
fn rebuilds_visible_trees(rt: HostRuntime) {
    all_visible(
        &rt,
        &[
            (
                "«a» b",
                At::Front(0),
                Some((Some((0, 0, 1)), Some(3))),
                (4, Some(4), 0),
            ),
            (
                "(«a») b",
                At::Front(0),
                Some((Some((0, 0, 3)), Some(5))),
                (6, Some(6), 0),
            ),
            (
                "(a b) c",
                At::Within(0, 1),
                Some((Some((0, 3, 4)), Some(3))),
                (1, Some(3), 0),
            ),
            ("a «»", At::Front(1), None, (2, Some(3), 0)),
            ("", At::Front(0), None, (0, Some(0), 0)),
            ("a", At::Nowhere, None, (0, None, 0)),
        ],
    );
}

// Returns the trees from one place up to another as text.
fn between(alloc: Global, text: &str, from: &At, to: &At) -> Option<String> {
    let buffer = laid(alloc, 0, text)?;
    let tokens = place(&buffer, from)
        .tokens_up_to(alloc, place(&buffer, to))
        .ok()?;
    tokens.to_string(alloc).ok()
}

fn is_between(alloc: Global, text: &str, from: &At, to: &At, wanted: &str) -> bool {
    match between(alloc, text, from, to) {
        Some(copied) => copied.as_str() == wanted,
        None => false,
    }
}

// Returns the positions after the next visible tree and the one after it.
fn skipped(alloc: Global, text: &str, at: &At) -> Option<(Option<usize>, Option<usize>)> {
    let buffer = laid(alloc, 0, text)?;
    let Some(one) = place(&buffer, at).skip_tree() else {
        return Some((None, None));
    };
    match one.skip_tree() {
        Some(two) => Some((one.position(), two.position())),
        None => Some((one.position(), None)),
    }
}

fn all_between(rt: &(impl Abort + AllocGlobal), rows: &[(&str, At, At, &str)]) {
    for (text, from, to, wanted) in rows {
        assert!(rt; is_between(rt.alloc(), text, from, to, wanted), "in {text}");
    }
}

fn all_skipped(
    rt: &(impl Abort + AllocGlobal),
    rows: &[(&str, At, (Option<usize>, Option<usize>))],
) {
    for (text, at, wanted) in rows {
        assert_eq!(rt; skipped(rt.alloc(), text, at), Some(*wanted), "at {text}");
    }
}

#[test]
fn copies_what_is_between(rt: HostRuntime) {
    all_between(
        &rt,
        &[
            ("+ «a b c», d", At::Front(0), At::Front(4), "+ «a b c»"),
            ("+ «a b c», d", At::Front(0), At::Front(3), "+ a b"),
            ("+ «a b c», d", At::Front(2), At::Front(5), "b c ,"),
            ("«« a» b» c", At::Front(0), At::Front(1), "«a»"),
            ("«« a» b» c", At::Front(0), At::Front(2), "««a» b»"),
            ("a (b «c») d", At::Front(0), At::Front(2), "a (b «c»)"),
            ("(a «b» c) d", At::Within(0, 1), At::Within(0, 2), "«b»"),
            ("a b", At::Front(1), At::Front(1), ""),
            ("a b", At::Front(1), At::Front(0), ""),
            ("(a b) c", At::Within(0, 0), At::Front(1), ""),
            ("(a b) c", At::Front(0), At::Within(0, 1), ""),
            ("a b", At::Nowhere, At::Front(1), ""),
            ("a b", At::Front(0), At::Nowhere, ""),
        ],
    );
}

#[test]
fn skips_trees(rt: HostRuntime) {
    all_skipped(
        &rt,
        &[
            ("«a» b", At::Front(0), (Some(3), Some(4))),
            ("(a «b») c", At::Front(0), (Some(6), Some(7))),
            ("'a b", At::Front(0), (Some(1), Some(2))),
            ("a «»", At::Front(0), (Some(1), None)),
            ("", At::Front(0), (None, None)),
            ("a", At::Nowhere, (None, None)),
        ],
    );
}
