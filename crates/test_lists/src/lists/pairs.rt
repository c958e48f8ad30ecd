//! Tests of the calls of `Pair`.
use super::{Mark, Parts};
use std::alloc::AllocGlobal;
use std::process::Abort;
use syn_punctuated::Pair;

fn pair_of(value: u32, mark: Option<char>) -> Pair<u32, Mark> {
    match mark {
        Some(mark) => Pair::Punctuated(value, Mark(mark)),
        None => Pair::End(value),
    }
}

fn mark_of(mark: Option<&Mark>) -> Option<char> {
    match mark {
        Some(mark) => Some(mark.0),
        None => None,
    }
}

// Returns `true` if `new` makes this pair.
fn is_made(value: u32, mark: Option<char>) -> bool {
    let made = match mark {
        Some(mark) => Pair::new(value, Some(Mark(mark))),
        None => Pair::new(value, None),
    };
    made == pair_of(value, mark)
}

// Returns the pair with this value, and with this separator if it has one.
fn written(value: u32, mark: Option<char>, to: (u32, char)) -> Pair<u32, Mark> {
    let mut pair = pair_of(value, mark);
    *pair.value_mut() = to.0;
    if let Some(mark) = pair.punct_mut() {
        *mark = Mark(to.1);
    }
    pair
}

fn lends_mark(value: u32, mark: Option<char>) -> bool {
    let mut pair = pair_of(value, mark);
    pair.punct_mut().is_some()
}

fn read(pair: &Pair<u32, Mark>) -> Parts {
    (Some(*pair.value()), mark_of(pair.punct()))
}

fn in_parts(pair: Pair<u32, Mark>) -> Parts {
    let (value, mark) = pair.into_tuple();
    (Some(value), mark_of(mark.as_ref()))
}

fn is_cloned(pair: Pair<u32, Mark>) -> Option<bool> {
    Some(pair.clone().ok()? == pair)
}

// Returns `true` if the copy of a lent pair is this pair.
fn is_copied(value: u32, mark: Option<char>) -> Option<bool> {
    let copy = match mark {
        Some(mark) => Pair::Punctuated(&value, &Mark(mark)).cloned().ok()?,
        None => Pair::<&u32, &Mark>::End(&value).cloned().ok()?,
    };
    Some(copy == pair_of(value, mark))
}

// A value and a separator, what is written to them, and the separator that is there then.
type Row = (u32, Option<char>, (u32, char), Option<char>);

fn all_pairs(rt: &(impl Abort + AllocGlobal), rows: &[Row]) {
    for (value, mark, to, after) in rows {
        assert!(rt; is_made(*value, *mark), "new of {value}");
        assert_eq!(rt; is_copied(*value, *mark), Some(true), "cloned of {value}");
        assert_eq!(rt;
            lends_mark(*value, *mark),
            after.is_some(),
            "punct_mut of {value}"
        );
        let pair = written(*value, *mark, *to);
        assert_eq!(rt;
            read(&pair),
            (Some(to.0), *after),
            "value and punct of {value}"
        );
        assert_eq!(rt; pair.into_value(), to.0, "into_value of {value}");
        assert_eq!(rt;
            in_parts(pair),
            (Some(to.0), *after),
            "into_tuple of {value}"
        );
        assert_eq!(rt; is_cloned(pair), Some(true), "clone of {value}");
    }
}

#[test]
fn reads_and_writes_its_parts(rt: HostRuntime) {
    all_pairs(
        &rt,
        &[
            (2, Some(','), (3, ';'), Some(';')),
            (4, None, (5, ';'), None),
            (7, Some(','), (7, ','), Some(',')),
        ],
    );
}
