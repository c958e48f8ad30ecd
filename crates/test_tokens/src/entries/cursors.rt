//! What a cursor finds first among the entries of a marked text.
use crate::entries::accepted::written;
use std::alloc::Global;
use tok_core::{Delimiter, lex_marked};
use tok_entries::Entry;
use tok_entries::cursor::{Step, group, ident, lifetime, literal, punct, skip};

// The numbers of a step.
type Numbers = (usize, usize, usize);

// Those of no step.
const NONE: Numbers = (9, 9, 9);

// Makes the call of a letter.
fn call(letter: char, entries: &[Entry], texts: &[u8]) -> Option<Step> {
    match letter {
        'i' => ident(entries),
        'p' => punct(entries, texts),
        'l' => literal(entries),
        't' => lifetime(entries, texts),
        's' => skip(entries, texts),
        '(' => group(entries, Delimiter::Parenthesis),
        '{' => group(entries, Delimiter::Brace),
        '[' => group(entries, Delimiter::Bracket),
        '«' => group(entries, Delimiter::None),
        _ => None,
    }
}

fn numbers(found: Option<Step>) -> Numbers {
    match found {
        Some(step) => (step.at, step.last, step.next),
        None => NONE,
    }
}

fn first(alloc: Global, text: &str, letter: char) -> Option<Numbers> {
    let stream = lex_marked(alloc, 0, text).ok()?;
    let (entries, texts) = written(alloc, &stream).ok()?;
    Some(numbers(call(letter, entries.as_slice(), texts.as_bytes())))
}

// Texts, the letter of a call, and what it finds.
const FOUND: [(&str, char, Numbers); 18] = [
    ("a b", 'i', (0, 0, 1)),
    ("« a » b", 'i', (1, 1, 3)),
    ("« «» a b »", 'i', (3, 3, 4)),
    ("«« a »» b", 'i', (2, 2, 5)),
    ("«a» «b»", 'i', (1, 1, 3)),
    ("+= b", 'p', (0, 0, 1)),
    ("«» -1", 'p', (2, 2, 3)),
    ("« 'x' »", 'l', (1, 1, 3)),
    ("'a b", 't', (0, 1, 2)),
    ("« 'a » b", 't', (1, 2, 4)),
    ("(a) b", '(', (0, 2, 3)),
    ("« {a {}} » b", '{', (1, 5, 7)),
    ("«» [«»]", '[', (2, 5, 6)),
    ("«a» b", '«', (0, 2, 3)),
    ("«««»»»", '«', (0, 5, 6)),
    ("«'a» b", 's', (1, 2, 4)),
    ("« (a) » b", 's', (1, 3, 5)),
    ("«» + b", 's', (2, 2, 3)),
];

// Texts, and the letter of a call that finds nothing.
const MISSED: [(&str, char); 14] = [
    ("", 'i'),
    ("«»", 'i'),
    ("(a)", 'i'),
    ("+ a", 'i'),
    ("a +", 'p'),
    ("'a", 'p'),
    ("a 1", 'l'),
    ("a 'b", 't'),
    ("+ a", 't'),
    ("a (b)", '('),
    ("[a] (b)", '('),
    ("a «b»", '«'),
    ("", 's'),
    ("«« »»", 's'),
];

#[test]
fn cursors_look_through_invisible_groups(rt: HostRuntime) {
    for (text, letter, wanted) in &FOUND {
        assert_eq!(rt;
            first(rt.alloc(), text, *letter),
            Some(*wanted),
            "{text} {letter}"
        );
    }
}

#[test]
fn cursors_find_nothing_else(rt: HostRuntime) {
    for (text, letter) in &MISSED {
        assert_eq!(rt;
            first(rt.alloc(), text, *letter),
            Some(NONE),
            "{text} {letter}"
        );
    }
}

// Entries that no stream has: a group whose closing is not there, and a text that is not.
#[test]
fn entries_of_no_stream_are_read(rt: HostRuntime) {
    let opening = Entry {
        kind: 3,
        spacing: 0,
        delimiter: 0,
        start: 0,
        end: 0,
        text_start: 0,
        text_end: 0,
        distance: 1,
    };
    let punct = Entry {
        kind: 1,
        spacing: 1,
        delimiter: 0,
        start: 0,
        end: 0,
        text_start: usize::MAX,
        text_end: 0,
        distance: 0,
    };
    assert_eq!(rt; numbers(call('(', &[opening], b"")), NONE);
    assert_eq!(rt; numbers(call('t', &[punct, punct], b"")), NONE);
    assert_eq!(rt; numbers(call('p', &[punct, punct], b"")), (0, 0, 1));
}
