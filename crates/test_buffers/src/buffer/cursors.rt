//! Reads, peeks and rebuilds tokens at cursors, and tells their spans.
use super::{At, Range, laid, place};
use std::alloc::{AllocGlobal, Global};
use std::process::Abort;
use tok_buffer::{Cursor, laws};
use tok_core::{Delimiter, Span, lex_marked};

// The position after a read that finds nothing.
const NO: Option<usize> = None;

// Returns the position of a cursor, if there is one.
fn position(rest: Option<Cursor<'_>>) -> Option<usize> {
    rest?.position()
}

// Returns the positions after a token, an identifier, a punct, a literal, a lifetime and a group,
// each read at this place.
fn reads(alloc: Global, text: &str, at: &At) -> Option<[Option<usize>; 6]> {
    let buffer = laid(alloc, 0, text)?;
    let here = place(&buffer, at);
    Some([
        position(here.skip()),
        position(here.ident().map(|(_, rest)| rest)),
        position(here.punct().map(|(_, rest)| rest)),
        position(here.literal().map(|(_, rest)| rest)),
        position(here.lifetime().map(|(_, rest)| rest)),
        position(here.any_group().map(|(_, _, _, rest)| rest)),
    ])
}

fn is_end(alloc: Global, text: &str, at: &At) -> Option<bool> {
    let buffer = laid(alloc, 0, text)?;
    Some(place(&buffer, at).eof())
}

// Checks what can be read at these places, none of which is the end of its scope.
fn all_reads(rt: &(impl Abort + AllocGlobal), rows: &[(&str, At, [Option<usize>; 6])]) {
    for (text, at, wanted) in rows {
        assert_eq!(rt; reads(rt.alloc(), text, at), Some(*wanted), "at {text}");
        assert_eq!(rt; is_end(rt.alloc(), text, at), Some(false), "at {text}");
    }
}

#[test]
fn reads_tokens(rt: HostRuntime) {
    all_reads(
        &rt,
        &[
            ("'a b", At::Front(0), [Some(2), NO, NO, NO, Some(2), NO]),
            ("'«a»", At::Front(0), [Some(4), NO, NO, NO, Some(4), NO]),
            ("'«a» ,", At::Front(0), [Some(4), NO, NO, NO, Some(4), NO]),
            (
                "«'»a",
                At::Front(0),
                [Some(4), NO, NO, NO, Some(4), Some(3)],
            ),
            ("'«+»", At::Front(0), [Some(1), NO, NO, NO, NO, NO]),
            ("' a", At::Front(0), [Some(1), NO, NO, NO, NO, NO]),
            ("(a) b", At::Front(0), [Some(3), NO, NO, NO, NO, Some(3)]),
            ("a", At::Front(0), [Some(1), Some(1), NO, NO, NO, NO]),
            ("+", At::Front(0), [Some(1), NO, Some(1), NO, NO, NO]),
            ("«+»", At::Front(0), [Some(3), NO, Some(3), NO, NO, Some(3)]),
            ("1", At::Front(0), [Some(1), NO, NO, Some(1), NO, NO]),
            ("«»", At::Front(0), [NO, NO, NO, NO, NO, Some(2)]),
        ],
    );
}

// Checks whether a place is at the end of its scope.
fn all_ends(rt: &(impl Abort + AllocGlobal), rows: &[(&str, At, bool)]) {
    for (text, at, wanted) in rows {
        assert_eq!(rt; is_end(rt.alloc(), text, at), Some(*wanted), "at {text}");
        if *wanted {
            assert_eq!(rt; reads(rt.alloc(), text, at), Some([None; 6]), "at {text}");
        }
    }
}

#[test]
fn ends_at_the_end_of_a_scope(rt: HostRuntime) {
    all_ends(
        &rt,
        &[
            ("", At::Front(0), true),
            ("«»", At::Front(0), false),
            ("«»", At::Within(0, 0), true),
            ("(a)", At::Within(0, 0), false),
            ("(a)", At::Within(0, 1), true),
            ("(a)", At::Front(1), true),
            ("", At::Nowhere, true),
        ],
    );
}

// Returns the apostrophe of the lifetime at the start of a text, whether it has this name, and the
// position after it.
fn reads_lifetime(alloc: Global, text: &str, name: &str) -> Option<(Range, bool, Option<usize>)> {
    let buffer = laid(alloc, 0, text)?;
    let (lifetime, rest) = buffer.begin().lifetime()?;
    Some((
        lifetime.apostrophe.as_range(),
        lifetime.ident.as_str() == name,
        rest.position(),
    ))
}

// Checks the lifetimes that texts begin with: the apostrophe, the name and the end.
fn all_lifetimes(rt: &(impl Abort + AllocGlobal), rows: &[(&str, Range, &str, Option<usize>)]) {
    for (text, apostrophe, name, end) in rows {
        let found = reads_lifetime(rt.alloc(), text, name);
        assert_eq!(rt; found, Some((*apostrophe, true, *end)), "at {text}");
    }
}

#[test]
fn reads_lifetimes(rt: HostRuntime) {
    all_lifetimes(
        &rt,
        &[
            ("'«a»", Some((0, 0, 1)), "a", Some(4)),
            ("'fn b", Some((0, 0, 1)), "fn", Some(2)),
        ],
    );
}

// Returns the span and the delimiter of the leftover at a place, and the delimiter of the scope.
fn leftover(alloc: Global, text: &str, at: &At) -> Option<(Option<(Range, Delimiter)>, Delimiter)> {
    let buffer = laid(alloc, 0, text)?;
    let here = place(&buffer, at);
    let found = match here.leftover() {
        Some((span, closing)) => Some((span.as_range(), closing)),
        None => None,
    };
    Some((found, here.scope_delimiter()))
}

fn all_leftovers(
    rt: &(impl Abort + AllocGlobal),
    rows: &[(&str, At, Option<(Range, Delimiter)>, Delimiter)],
) {
    for (text, at, wanted, scope) in rows {
        let found = leftover(rt.alloc(), text, at);
        assert_eq!(rt; found, Some((*wanted, *scope)), "at {text}");
    }
}

#[test]
fn finds_leftovers(rt: HostRuntime) {
    all_leftovers(
        &rt,
        &[
            (
                "(«a» b)",
                At::Within(0, 0),
                Some((Some((0, 1, 2)), Delimiter::None)),
                Delimiter::Parenthesis,
            ),
            (
                "(«a» b)",
                At::Within(0, 1),
                Some((Some((0, 3, 4)), Delimiter::Parenthesis)),
                Delimiter::Parenthesis,
            ),
            ("«»", At::Front(0), None, Delimiter::None),
        ],
    );
}

// Returns the delimiter and the span of the group at the start of a text, and the positions in it
// and after it.
fn group(alloc: Global, text: &str) -> Option<(Delimiter, Range, Option<usize>, Option<usize>)> {
    let buffer = laid(alloc, 0, text)?;
    let (content, delimiter, span, rest) = buffer.begin().any_group()?;
    Some((
        delimiter,
        span.join().as_range(),
        content.position(),
        rest.position(),
    ))
}

// Returns the positions in and after the group with this delimiter at the start of a text.
fn group_of(
    alloc: Global,
    text: &str,
    delimiter: Delimiter,
) -> Option<(Option<usize>, Option<usize>)> {
    let buffer = laid(alloc, 0, text)?;
    let (content, _, rest) = buffer.begin().group(delimiter)?;
    Some((content.position(), rest.position()))
}

fn all_groups(rt: &(impl Abort + AllocGlobal), rows: &[(&str, Delimiter, Range, usize)]) {
    for (text, delimiter, span, end) in rows {
        let wanted = Some((*delimiter, *span, Some(1), Some(*end)));
        assert_eq!(rt; group(rt.alloc(), text), wanted, "at {text}");
        let found = group_of(rt.alloc(), text, *delimiter);
        assert_eq!(rt; found, Some((Some(1), Some(*end))), "at {text}");
    }
}

#[test]
fn enters_groups(rt: HostRuntime) {
    all_groups(
        &rt,
        &[
            ("(«a» b)", Delimiter::Parenthesis, Some((0, 0, 5)), 6),
            ("{a}", Delimiter::Brace, Some((0, 0, 3)), 3),
            ("[] a", Delimiter::Bracket, Some((0, 0, 2)), 2),
            ("«a»", Delimiter::None, Some((0, 0, 1)), 3),
        ],
    );
}

// Returns the start span, the previous span and the span at a place, and its position.
fn spans(alloc: Global, text: &str, at: &At) -> Option<([Range; 3], Option<usize>)> {
    let buffer = laid(alloc, 0, text)?;
    let here = place(&buffer, at);
    let spans = [
        here.start_span().as_range(),
        here.prev_span().as_range(),
        here.span().as_range(),
    ];
    Some((spans, here.position()))
}

fn all_spans(rt: &(impl Abort + AllocGlobal), rows: &[(&str, At, [Range; 3], Option<usize>)]) {
    for (text, at, wanted, position) in rows {
        let found = spans(rt.alloc(), text, at);
        assert_eq!(rt; found, Some((*wanted, *position)), "at {text}");
    }
}

#[test]
fn tells_spans(rt: HostRuntime) {
    all_spans(
        &rt,
        &[
            (
                "(a)",
                At::Front(0),
                [Some((0, 0, 1)), Some((0, 0, 3)), Some((0, 0, 3))],
                Some(0),
            ),
            (
                "(a)",
                At::Within(0, 0),
                [Some((0, 1, 2)), Some((0, 0, 3)), Some((0, 1, 2))],
                Some(1),
            ),
            (
                "(a)",
                At::Within(0, 1),
                [Some((0, 2, 3)), Some((0, 1, 2)), Some((0, 2, 3))],
                Some(2),
            ),
            ("(a)", At::Front(1), [None, Some((0, 2, 3)), None], Some(3)),
            ("(a)", At::Nowhere, [None, None, None], None),
        ],
    );
}

fn peeks_keyword(alloc: Global, text: &str, at: &At, word: &str) -> Option<bool> {
    let buffer = laid(alloc, 0, text)?;
    Some(place(&buffer, at).peek_keyword(word))
}

fn all_keywords(rt: &(impl Abort + AllocGlobal), text: &str, rows: &[(At, &str, bool)]) {
    for (at, word, wanted) in rows {
        let found = peeks_keyword(rt.alloc(), text, at, word);
        assert_eq!(rt; found, Some(*wanted), "of {word}");
    }
}

#[test]
fn peeks_at_keywords(rt: HostRuntime) {
    all_keywords(
        &rt,
        "fn +",
        &[
            (At::Front(0), "fn", true),
            (At::Front(0), "f", false),
            (At::Front(0), "", false),
            (At::Front(1), "+", false),
            (At::Nowhere, "fn", false),
        ],
    );
}

fn peeks_punct(alloc: Global, text: &str, at: &At, word: &str) -> Option<bool> {
    let buffer = laid(alloc, 0, text)?;
    Some(place(&buffer, at).peek_punct(word))
}

fn all_puncts(rt: &(impl Abort + AllocGlobal), text: &str, rows: &[(At, &str, bool)]) {
    for (at, word, wanted) in rows {
        let found = peeks_punct(rt.alloc(), text, at, word);
        assert_eq!(rt; found, Some(*wanted), "of {word}");
    }
}

#[test]
fn peeks_at_puncts(rt: HostRuntime) {
    all_puncts(
        &rt,
        "fn +«=» 'a",
        &[
            (At::Front(1), "+=", true),
            (At::Front(1), "+", true),
            (At::Front(1), "==", false),
            (At::Front(1), "+==", false),
            (At::Front(1), "", false),
            (At::Front(3), "'", false),
            (At::Nowhere, "+", false),
        ],
    );
    all_reads(
        &rt,
        &[(
            "fn +«=» 'a",
            At::Front(3),
            [Some(7), NO, NO, NO, Some(7), NO],
        )],
    );
}

// Returns the spans of two puncts that are read together, and the position after them.
fn reads_puncts(
    alloc: Global,
    text: &str,
    at: &At,
    word: &str,
) -> Option<Option<([Range; 2], Option<usize>)>> {
    let buffer = laid(alloc, 0, text)?;
    let mut spans = [Span::call_site(); 2];
    match place(&buffer, at).puncts(word, &mut spans) {
        Some(rest) => {
            let [first, second] = spans;
            Some(Some(([first.as_range(), second.as_range()], rest.position())))
        }
        None => Some(None),
    }
}

fn all_reads_of_puncts(
    rt: &(impl Abort + AllocGlobal),
    text: &str,
    rows: &[(At, &str, Option<([Range; 2], Option<usize>)>)],
) {
    for (at, word, wanted) in rows {
        let found = reads_puncts(rt.alloc(), text, at, word);
        assert_eq!(rt; found, Some(*wanted), "of {word}");
    }
}

#[test]
fn reads_puncts_with_their_spans(rt: HostRuntime) {
    all_reads_of_puncts(
        &rt,
        "+«=» +",
        &[
            (
                At::Front(0),
                "+=",
                Some(([Some((0, 0, 1)), Some((0, 1, 2))], Some(4))),
            ),
            (At::Front(2), "+=", None),
            (At::Front(2), "+", None),
        ],
    );
}

fn is_rebuilt(alloc: Global, text: &str) -> Option<bool> {
    let stream = lex_marked(alloc, 0, text).ok()?;
    let again = laws::same_stream(alloc, 0, stream).ok()?;
    Some(again.to_string(alloc).ok()?.as_str() == text)
}

fn all_rebuilt(rt: &(impl Abort + AllocGlobal), rows: &[&str]) {
    for text in rows {
        assert_eq!(rt; is_rebuilt(rt.alloc(), text), Some(true), "at {text}");
    }
}

#[test]
fn rebuilds_streams(rt: HostRuntime) {
    all_rebuilt(&rt, &["", "a + 1 («b» 'c) {d}"]);
}

fn is_literal(alloc: Global, text: &str, at: &At, wanted: &str) -> Option<bool> {
    let buffer = laid(alloc, 0, text)?;
    let (literal, _) = place(&buffer, at).literal()?;
    Some(literal.as_str() == wanted)
}

// Returns the span of the tree that is rebuilt at a place, and the position after it.
fn tree(alloc: Global, text: &str, at: &At) -> Option<Option<(Range, Option<usize>)>> {
    let buffer = laid(alloc, 0, text)?;
    match place(&buffer, at).token_tree(alloc).ok()? {
        Some((tree, rest)) => Some(Some((tree.span().as_range(), rest.position()))),
        None => Some(None),
    }
}

// Returns the number of trees in the group that is rebuilt at a place, and the position after it.
fn group_tree(alloc: Global, text: &str, at: &At) -> Option<Option<(usize, Option<usize>)>> {
    let buffer = laid(alloc, 0, text)?;
    match place(&buffer, at).any_group_token(alloc).ok()? {
        Some((group, rest)) => Some(Some((group.stream().trees().len(), rest.position()))),
        None => Some(None),
    }
}

// Checks the span of the tree that is rebuilt at a place, the number of trees in it if it is a
// group, and the position after it.
fn all_trees(
    rt: &(impl Abort + AllocGlobal),
    text: &str,
    rows: &[(
        At,
        Option<(Range, Option<usize>)>,
        Option<(usize, Option<usize>)>,
    )],
) {
    for (at, wanted, group) in rows {
        assert_eq!(rt; tree(rt.alloc(), text, at), Some(*wanted), "at {text}");
        assert_eq!(rt; group_tree(rt.alloc(), text, at), Some(*group), "at {text}");
    }
}

#[test]
fn rebuilds_trees(rt: HostRuntime) {
    let text = "1 («b» 'c)";
    assert_eq!(rt;
        is_literal(rt.alloc(), text, &At::Front(0), "1"),
        Some(true)
    );
    all_trees(
        &rt,
        text,
        &[
            (At::Front(0), Some((Some((0, 0, 1)), Some(1))), None),
            (
                At::Front(1),
                Some((Some((0, 2, 8)), Some(8))),
                Some((3, Some(8))),
            ),
            (At::Front(2), None, None),
        ],
    );
}
