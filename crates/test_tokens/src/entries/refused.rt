//! Entries that are refused, and where.
use crate::entries::accepted::written;
use std::alloc::{AllocError, Global};
use tok_buffer::TokenBuffer;
use tok_core::lex;
use tok_entries::{Entry, EntryFault, Refusal};

// Returns why entries are refused.
pub fn fault(alloc: Global, entries: &[Entry], texts: &str) -> Option<EntryFault> {
    TokenBuffer::from_entries(alloc, 0, entries, texts).err()
}

// A field, and what it is changed to.
#[derive(Clone, Copy)]
enum Change {
    Kind(u32),
    Spacing(u16),
    Delimiter(u16),
    Start(usize),
    End(usize),
    TextStart(usize),
    TextEnd(usize),
    Distance(usize),
}

fn changed(entry: Entry, change: Change) -> Entry {
    match change {
        Change::Kind(kind) => Entry { kind, ..entry },
        Change::Spacing(spacing) => Entry { spacing, ..entry },
        Change::Delimiter(delimiter) => Entry { delimiter, ..entry },
        Change::Start(start) => Entry { start, ..entry },
        Change::End(end) => Entry { end, ..entry },
        Change::TextStart(text_start) => Entry {
            text_start,
            ..entry
        },
        Change::TextEnd(text_end) => Entry { text_end, ..entry },
        Change::Distance(distance) => Entry { distance, ..entry },
    }
}

// The entries of this text have the numbers 0 to 7; its groups are 1 to 5.
const TEXT: &str = "a(b, 1) +c";

// Returns why the entries of the text are refused, once one is changed.
fn fault_after(alloc: Global, at: usize, change: Change) -> Result<Option<EntryFault>, AllocError> {
    let Ok(stream) = lex(alloc, 0, TEXT) else {
        return Ok(None);
    };
    let (mut entries, texts) = written(alloc, &stream)?;
    if at < entries.len() {
        entries[at] = changed(entries[at], change);
    }
    Ok(fault(alloc, entries.as_slice(), texts.as_str()))
}

const SHAPES: [(usize, Change, usize); 27] = [
    (0, Change::Kind(3), 0),
    (0, Change::Kind(4), 0),
    (0, Change::Kind(5), 0),
    (0, Change::Spacing(1), 0),
    (0, Change::Spacing(2), 0),
    (0, Change::Delimiter(1), 0),
    (0, Change::Start(2), 0),
    (0, Change::TextStart(1), 0),
    (0, Change::TextEnd(2), 1),
    (0, Change::TextEnd(99), 0),
    (0, Change::Distance(1), 0),
    (1, Change::Spacing(1), 1),
    (1, Change::Delimiter(1), 1),
    (1, Change::Delimiter(4), 1),
    (1, Change::Start(2), 1),
    (1, Change::End(3), 1),
    (1, Change::TextStart(0), 1),
    (1, Change::TextEnd(2), 1),
    (1, Change::Distance(0), 1),
    (1, Change::Distance(3), 1),
    (1, Change::Distance(5), 1),
    (1, Change::Distance(usize::MAX), 1),
    (3, Change::Spacing(2), 3),
    (5, Change::Kind(3), 1),
    (5, Change::Delimiter(2), 1),
    (5, Change::TextStart(3), 1),
    (5, Change::Distance(3), 1),
];

const TEXTS: [(usize, Change, usize); 5] = [
    (0, Change::Kind(1), 0),
    (0, Change::Kind(2), 0),
    (3, Change::Kind(0), 3),
    (4, Change::Kind(0), 4),
    (7, Change::Kind(1), 7),
];

// Changes after which the entries denote another stream.
const OTHERS: [(usize, Change); 5] = [
    (0, Change::Start(1)),
    (0, Change::End(9)),
    (3, Change::Spacing(1)),
    (6, Change::Spacing(0)),
    (7, Change::Start(0)),
];

#[test]
fn fields_that_do_not_fit_are_refused(rt: HostRuntime) -> Result<(), AllocError> {
    for (at, change, number) in SHAPES {
        let refused = Some(EntryFault::Refused(Refusal::Shape, number));
        assert!(rt;
            fault_after(rt.alloc(), at, change)? == refused,
            "{at} {number}"
        );
    }
    Ok(())
}

#[test]
fn texts_of_another_kind_are_refused(rt: HostRuntime) -> Result<(), AllocError> {
    for (at, change, number) in TEXTS {
        let refused = Some(EntryFault::Refused(Refusal::Text, number));
        assert!(rt;
            fault_after(rt.alloc(), at, change)? == refused,
            "{at} {number}"
        );
    }
    Ok(())
}

#[test]
fn other_streams_are_accepted(rt: HostRuntime) -> Result<(), AllocError> {
    for (at, change) in OTHERS {
        assert!(rt; fault_after(rt.alloc(), at, change)?.is_none(), "{at}");
    }
    Ok(())
}

// Returns why the entries of the text are refused from the first on, or up to the last, of so many.
fn fault_of_part(alloc: Global, from: usize, to: usize) -> Result<Option<EntryFault>, AllocError> {
    let Ok(stream) = lex(alloc, 0, TEXT) else {
        return Ok(None);
    };
    let (entries, texts) = written(alloc, &stream)?;
    match entries.as_slice().get(from..to) {
        Some(part) => Ok(fault(alloc, part, texts.as_str())),
        None => Ok(None),
    }
}

// Without the first entry; without the last one, so that its text is left over; without any.
const PARTS: [(usize, usize, usize); 4] = [(1, 8, 0), (0, 7, 7), (0, 0, 0), (0, 5, 1)];

#[test]
fn missing_entries_are_refused(rt: HostRuntime) -> Result<(), AllocError> {
    for (from, to, number) in PARTS {
        let refused = Some(EntryFault::Refused(Refusal::Shape, number));
        assert!(rt;
            fault_of_part(rt.alloc(), from, to)? == refused,
            "{from} {to}"
        );
    }
    Ok(())
}

// Returns why the entries of the text are refused with one more behind them.
fn fault_with(alloc: Global, extra: Entry) -> Result<Option<EntryFault>, AllocError> {
    let Ok(stream) = lex(alloc, 0, TEXT) else {
        return Ok(None);
    };
    let (mut entries, texts) = written(alloc, &stream)?;
    entries.push(extra)?;
    Ok(fault(alloc, entries.as_slice(), texts.as_str()))
}

// A closing of nothing; a name without a text; a text that another leaf has.
const EXTRA: [(u32, usize, usize, Refusal); 3] = [
    (4, 6, 6, Refusal::Shape),
    (0, 6, 6, Refusal::Text),
    (0, 5, 6, Refusal::Shape),
];

#[test]
fn more_entries_are_refused(rt: HostRuntime) -> Result<(), AllocError> {
    for (kind, text_start, text_end, refusal) in EXTRA {
        let extra = Entry {
            kind,
            text_start,
            text_end,
            ..edge(kind, 9, 0)
        };
        let refused = Some(EntryFault::Refused(refusal, 8));
        assert!(rt; fault_with(rt.alloc(), extra)? == refused, "{kind}");
    }
    Ok(())
}

fn edge(kind: u32, start: usize, distance: usize) -> Entry {
    Entry {
        kind,
        spacing: 0,
        delimiter: 0,
        start,
        end: start.saturating_add(1),
        text_start: 0,
        text_end: 0,
        distance,
    }
}

// The entries of so many parentheses, each within the one before.
fn nested(alloc: Global, count: usize) -> Result<Vec<Entry>, AllocError> {
    let mut entries = Vec::new(alloc);
    for outer in 0..count {
        let inner = count - outer;
        entries.push(edge(3, outer, inner.saturating_mul(2).saturating_sub(1)))?;
    }
    for inner in 0..count {
        let start = count.saturating_add(inner);
        entries.push(edge(4, start, inner.saturating_mul(2).saturating_add(1)))?;
    }
    Ok(entries)
}

#[test]
fn groups_are_nested_256_deep(rt: HostRuntime) -> Result<(), AllocError> {
    let deepest = nested(rt.alloc(), 256)?;
    assert!(rt; fault(rt.alloc(), deepest.as_slice(), "").is_none());
    let deeper = nested(rt.alloc(), 257)?;
    let refused = Some(EntryFault::Refused(Refusal::Depth, 256));
    assert!(rt; fault(rt.alloc(), deeper.as_slice(), "") == refused);
    Ok(())
}

#[test]
fn faults_have_words(rt: HostRuntime) -> Result<(), AllocError> {
    let fault = EntryFault::Refused(Refusal::Text, 12);
    assert!(rt; fault.to_string(rt.alloc())?.as_str() == "entry 12: not a token of this kind");
    let memory = EntryFault::Memory;
    assert!(rt; memory.to_string(rt.alloc())?.as_str() == "out of memory");
    Ok(())
}
