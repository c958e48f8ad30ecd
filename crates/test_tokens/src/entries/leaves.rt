//! Texts that a leaf has, and texts that it hasn't.
use crate::entries::refused::fault;
use std::alloc::Global;
use tok_entries::{Entry, EntryFault, Refusal};

fn fault_of_leaf(alloc: Global, kind: u32, text: &str) -> Option<EntryFault> {
    let entry = Entry {
        kind,
        spacing: 0,
        delimiter: 0,
        start: 3,
        end: 5,
        text_start: 0,
        text_end: text.len(),
        distance: 0,
    };
    fault(alloc, &[entry], text)
}

const IDENTS: [&str; 8] = ["a", "_", "_a", "r#a", "r#fn", "$crate", "é", "r#é"];

const NO_IDENTS: [&str; 12] = [
    "", "1", "a b", "a ", "+", "r#", "r#_", "r#self", "r#crate", "$a", "'a", "$crate ",
];

const PUNCTS: [&str; 4] = ["+", "'", "$", ","];

const NO_PUNCTS: [&str; 7] = ["", "++", "(", "a", "«", "\"", "`"];

const LITERALS: [&str; 18] = [
    "1",
    "1u8",
    "0xF_f",
    "1.5",
    "1.",
    "1e3",
    "'a'",
    "b'a'",
    "'\\n'",
    "\"s\"",
    "b\"s\"",
    "c\"s\"",
    "r\"s\"",
    "r#\"s\"#",
    "br#\"s\"#",
    "\"é\"",
    "-1",
    "-1.5e3",
];

const NO_LITERALS: [&str; 18] = [
    "", "a", "true", "+1", "--1", "- 1", "-a", "-'a'", "-\"s\"", "1 ", " 1", "1 2", "\"s", "'a",
    "''", "0b2", "\"s\" ", "// a",
];

#[test]
fn idents_are_accepted(rt: HostRuntime) {
    for text in IDENTS {
        assert!(rt; fault_of_leaf(rt.alloc(), 0, text).is_none(), "{text}");
    }
}

#[test]
fn puncts_are_accepted(rt: HostRuntime) {
    for text in PUNCTS {
        assert!(rt; fault_of_leaf(rt.alloc(), 1, text).is_none(), "{text}");
    }
}

#[test]
fn literals_are_accepted(rt: HostRuntime) {
    for text in LITERALS {
        assert!(rt; fault_of_leaf(rt.alloc(), 2, text).is_none(), "{text}");
    }
}

const REFUSED: Option<EntryFault> = Some(EntryFault::Refused(Refusal::Text, 0));

#[test]
fn other_texts_are_refused(rt: HostRuntime) {
    for text in NO_IDENTS {
        assert!(rt; fault_of_leaf(rt.alloc(), 0, text) == REFUSED, "{text}");
    }
    for text in NO_PUNCTS {
        assert!(rt; fault_of_leaf(rt.alloc(), 1, text) == REFUSED, "{text}");
    }
    for text in NO_LITERALS {
        assert!(rt; fault_of_leaf(rt.alloc(), 2, text) == REFUSED, "{text}");
    }
}
