//! Errors with their lines and carets.
use std::alloc::{AllocGlobal, Global};
use std::process::Abort;
use tok_buffer::Error;
use tok_carets::{IndexedSource, LineColumn, LineIndex, Source, line_column};
use tok_core::{LexFault, Span, lex};

// A text, the range of a span in source 1, and what is shown.
type Row = (&'static str, usize, usize, &'static str);

fn is_shown(alloc: Global, text: &str, start: usize, end: usize, wanted: &str) -> Option<bool> {
    let source = Source {
        name: "a",
        number: 1,
        text,
    };
    let span = Span::source(1, start, start.max(end));
    let shown = source.show(alloc, span, "no").ok()?;
    let indexed = IndexedSource::new(alloc, source).ok()?;
    let again = indexed.show(alloc, span, "no").ok()?;
    Some(shown.as_str() == wanted && again.as_str() == wanted)
}

fn all_shown(rt: &(impl Abort + AllocGlobal), rows: &[Row]) {
    for (text, start, end, wanted) in rows {
        assert_eq!(rt;
            is_shown(rt.alloc(), text, *start, *end, wanted),
            Some(true),
            "at {text}"
        );
    }
}

#[test]
fn lines(rt: HostRuntime) {
    all_shown(
        &rt,
        &[
            (
                "a b",
                2,
                3,
                "error: no\n --> a:1:3\n  |\n1 | a b\n  |   ^\n",
            ),
            (
                "a bcd",
                2,
                5,
                "error: no\n --> a:1:3\n  |\n1 | a bcd\n  |   ^^^\n",
            ),
            (
                "x\ny z\n",
                4,
                5,
                "error: no\n --> a:2:3\n  |\n2 | y z\n  |   ^\n",
            ),
            (
                "x\r\ny z\r\nw",
                3,
                4,
                "error: no\n --> a:2:1\n  |\n2 | y z\n  | ^\n",
            ),
            ("x\r\ny", 0, 4, "error: no\n --> a:1:1\n  |\n1 | x\n  | ^\n"),
            (
                "a\tb",
                2,
                3,
                "error: no\n --> a:1:3\n  |\n1 | a    b\n  |      ^\n",
            ),
            (
                "a\tb",
                1,
                2,
                "error: no\n --> a:1:2\n  |\n1 | a    b\n  |  ^^^^\n",
            ),
            (
                "é b",
                3,
                4,
                "error: no\n --> a:1:3\n  |\n1 | é b\n  |   ^\n",
            ),
            (
                "中 b",
                4,
                5,
                "error: no\n --> a:1:3\n  |\n1 | 中 b\n  |    ^\n",
            ),
            (
                "a 中",
                2,
                5,
                "error: no\n --> a:1:3\n  |\n1 | a 中\n  |   ^^\n",
            ),
            (
                "e\u{301} b",
                4,
                5,
                "error: no\n --> a:1:4\n  |\n1 | e\u{301} b\n  |   ^\n",
            ),
            ("ab", 2, 2, "error: no\n --> a:1:3\n  |\n1 | ab\n  |   ^\n"),
            ("ab\n", 3, 3, "error: no\n --> a:2:1\n  |\n2 | \n  | ^\n"),
            (
                "a\nb\nc",
                2,
                5,
                "error: no\n --> a:2:1\n  |\n2 | b\n  | ^\n",
            ),
            (
                "\n\n\n\n\n\n\n\n\n x",
                10,
                11,
                "error: no\n  --> a:10:2\n   |\n10 |  x\n   |  ^\n",
            ),
            ("é", 1, 2, "error: no\n"),
            ("a", 2, 3, "error: no\n"),
        ],
    );
}

// An error of another source, at the call site, and of three messages, the last once more by an
// index.
fn others(alloc: Global) -> Option<(String, String, String, String)> {
    let text = "a \"";
    let source = Source {
        name: "a",
        number: 1,
        text,
    };
    let other = source.show(alloc, Span::source(2, 0, 1), "no").ok()?;
    let unplaced = source.show(alloc, Span::call_site(), "no").ok()?;
    let mut error = Error::new(alloc, Span::source(1, 0, 1), "one").ok()?;
    error
        .combine(Error::new(alloc, Span::source(1, 2, 3), "two").ok()?)
        .ok()?;
    error
        .combine(Error::new(alloc, Span::call_site(), "three").ok()?)
        .ok()?;
    let all = source.show_error(alloc, &error).ok()?;
    let indexed = IndexedSource::new(alloc, source).ok()?;
    let again = indexed.show_error(alloc, &error).ok()?;
    Some((other, unplaced, all, again))
}

// The error of the lexer that a text has, of this source, in a source that has the number 1: as that
// shows it, and as its index does.
fn of_lexer(alloc: Global, number: u32, text: &str) -> Option<(String, String)> {
    let source = Source {
        name: "a",
        number: 1,
        text,
    };
    let indexed = IndexedSource::new(alloc, source).ok()?;
    match lex(alloc, number, text) {
        Err(LexFault::Refused(error)) => Some((
            source.show_lex(alloc, error).ok()?,
            indexed.show_lex(alloc, error).ok()?,
        )),
        _ => None,
    }
}

// A source, a text, and the error of the lexer as it is shown.
const OF_LEXER: [(u32, &str, &str); 3] = [
    (
        1,
        "a \"",
        "error: the closing quote is missing\n --> a:1:3\n  |\n1 | a \"\n  |   ^\n",
    ),
    (
        1,
        "a \"b\\q\"",
        "error: unknown escape\n --> a:1:5\n  |\n1 | a \"b\\q\"\n  |     ^\n",
    ),
    (2, "a \"", "error: malformed string or character\n"),
];

#[test]
fn errors_of_the_lexer(rt: HostRuntime) {
    for (number, text, wanted) in &OF_LEXER {
        let shown = of_lexer(rt.alloc(), *number, text);
        assert!(rt;
            shown.is_some_and(|it| it.0.as_str() == *wanted && it.1.as_str() == *wanted),
            "{text}"
        );
    }
}

const NOTES: &str =
    "error: one\n --> a:1:1\n  |\n1 | a \"\n  | ^\nnote: two\n --> a:1:3\n  |\n1 | a \"\n  |   ^\nnote: three\n";

#[test]
fn other_errors(rt: HostRuntime) {
    let shown = others(rt.alloc());
    assert!(rt;
        shown
            .as_ref()
            .is_some_and(|it| it.0.as_str() == "error: no\n")
    );
    assert!(rt;
        shown
            .as_ref()
            .is_some_and(|it| it.1.as_str() == "error: no\n")
    );
    assert!(rt; shown.as_ref().is_some_and(|it| it.2.as_str() == NOTES));
    assert!(rt; shown.as_ref().is_some_and(|it| it.3.as_str() == NOTES));
}

#[test]
fn places(rt: HostRuntime) {
    assert_eq!(rt; line_column(""), LineColumn { line: 1, column: 1 });
    assert_eq!(rt; line_column("a\né"), LineColumn { line: 2, column: 2 });
    assert_eq!(rt; line_column("a\n\n"), LineColumn { line: 3, column: 1 });
}

// The source that an index was made of.
fn is_kept(alloc: Global) -> Option<bool> {
    let source = Source {
        name: "a",
        number: 1,
        text: "b\nc",
    };
    let kept = IndexedSource::new(alloc, source).ok()?.source();
    Some(kept.name == "a" && kept.number == 1 && kept.text == "b\nc")
}

#[test]
fn indexed_source(rt: HostRuntime) {
    assert_eq!(rt; is_kept(rt.alloc()), Some(true));
}

fn indexed(alloc: Global, text: &str, at: usize) -> Option<LineColumn> {
    LineIndex::new(alloc, text).ok()?.line_column(at)
}

// A text, a byte, and its line and column.
type Place = (&'static str, usize, usize, usize);

fn all_places(rt: &(impl Abort + AllocGlobal), rows: &[Place]) {
    for (text, at, line, column) in rows {
        let wanted = LineColumn {
            line: *line,
            column: *column,
        };
        assert_eq!(rt; indexed(rt.alloc(), text, *at), Some(wanted), "at {text}");
    }
}

// Where tokens begin and end, after and in characters of several bytes and lines.
#[test]
fn places_of_tokens(rt: HostRuntime) {
    let doc = "/// This is a document comment\ntesting 123\n{\n  testing 234\n}";
    all_places(
        &rt,
        &[
            (doc, 0, 1, 1),
            (doc, 30, 1, 31),
            (doc, 31, 2, 1),
            (doc, 38, 2, 8),
            (doc, 39, 2, 9),
            (doc, 42, 2, 12),
            (doc, 43, 3, 1),
            (doc, 60, 5, 2),
            (doc, 47, 4, 3),
            (doc, 54, 4, 10),
            (doc, 55, 4, 11),
            (doc, 58, 4, 14),
            ("aaa\nbbb", 0, 1, 1),
            ("aaa\nbbb", 7, 2, 4),
            ("/* abc */ x", 10, 1, 11),
            ("/* ábc */ x", 11, 1, 11),
            ("/* áb\nc */ x", 12, 2, 6),
            ("/* áb\nc */ x", 13, 2, 7),
            ("/*** ábc */ x", 13, 1, 13),
            ("\"ábc\"", 6, 1, 6),
            ("r#\"á\nc\"#", 9, 2, 4),
            ("'á'", 4, 1, 4),
            ("//! ábc", 8, 1, 8),
            ("/*! á\nc */", 11, 2, 5),
            ("áb\u{107}", 5, 1, 4),
            ("áb\u{107}// foo", 5, 1, 4),
            ("b\"a\\\n c\"", 8, 2, 4),
        ],
    );
}

#[test]
fn indexed_places(rt: HostRuntime) {
    let alloc = rt.alloc();
    let text = "a\né\n\nbc";
    assert_eq!(rt;
        indexed(alloc, "", 0),
        Some(LineColumn { line: 1, column: 1 })
    );
    assert_eq!(rt;
        indexed(alloc, text, 1),
        Some(LineColumn { line: 1, column: 2 })
    );
    assert_eq!(rt;
        indexed(alloc, text, 2),
        Some(LineColumn { line: 2, column: 1 })
    );
    assert_eq!(rt; indexed(alloc, text, 3), None);
    assert_eq!(rt;
        indexed(alloc, text, 4),
        Some(LineColumn { line: 2, column: 2 })
    );
    assert_eq!(rt;
        indexed(alloc, text, 6),
        Some(LineColumn { line: 4, column: 1 })
    );
    assert_eq!(rt;
        indexed(alloc, text, 8),
        Some(LineColumn { line: 4, column: 3 })
    );
    assert_eq!(rt; indexed(alloc, text, 9), None);
}

// The place of this number, of those that are written for some bytes of a text.
fn placed(alloc: Global, text: &str, bytes: &[usize], number: usize) -> Option<(usize, usize)> {
    let mut places = [LineColumn { line: 7, column: 7 }; 9];
    if bytes.len() > 9 {
        return None;
    }
    LineIndex::new(alloc, text)
        .ok()?
        .line_columns(bytes, &mut places);
    let place = places.get(number)?;
    Some((place.line, place.column))
}

// Bytes in any order, and the place of each. The last place is not written.
const BYTES: [usize; 8] = [2, 4, 3, 0, 8, 6, 7, 1];

const PLACES: [(usize, usize, usize); 9] = [
    (0, 2, 1),
    (1, 2, 2),
    (2, 0, 0),
    (3, 1, 1),
    (4, 4, 3),
    (5, 4, 1),
    (6, 4, 2),
    (7, 1, 2),
    (8, 7, 7),
];

#[test]
fn places_of_many_bytes(rt: HostRuntime) {
    for (number, line, column) in &PLACES {
        assert_eq!(rt;
            placed(rt.alloc(), "a\né\n\nbc", &BYTES, *number),
            Some((*line, *column)),
            "{number}"
        );
    }
}
