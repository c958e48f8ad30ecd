//! Tests of lists. A list is written as its values and separators in order; the default separator
//! is `d`.
mod clones;
mod iterators;
mod nested;
mod pairs;
mod tokens;

use std::alloc::{AllocGlobal, Global};
use std::cell::Cell;
use std::collections::HashSet;
use std::process::Abort;
use syn_punctuated::{Pair, PairsFault, Punctuated};

#[derive(Clone, Copy, Debug, PartialEq, Eq, Hash)]
struct Mark(char);

impl Default for Mark {
    fn default() -> Mark {
        Mark('d')
    }
}

type Numbers = Punctuated<u32, Mark>;

// A value and a separator, if there are any.
type Parts = (Option<u32>, Option<char>);

const NOTHING: Parts = (None, None);

fn add(list: &mut Numbers, c: char) -> Option<()> {
    match c.to_digit(10) {
        Some(digit) => {
            if list.empty_or_trailing() {
                return list.push_value(digit).ok();
            }
        }
        None => {
            if !list.empty_or_trailing() {
                return list.push_punct(Mark(c)).ok();
            }
        }
    }
    None
}

fn numbers(alloc: Global, text: &str) -> Option<Numbers> {
    let mut list = Punctuated::new(alloc);
    for c in text.chars() {
        add(&mut list, c)?;
    }
    Some(list)
}

// Returns the list of a text with no room for one more pair.
fn full(alloc: Global, text: &str) -> Option<Numbers> {
    numbers(alloc, text)?.clone().ok()
}

fn write(text: &mut String, pair: Pair<&u32, &Mark>) -> Option<()> {
    write!(text, "{}", pair.value()).ok()?;
    if let Some(mark) = pair.punct() {
        write!(text, "{}", mark.0).ok()?;
    }
    Some(())
}

fn shown(alloc: Global, list: &Numbers) -> Option<String> {
    let mut text = String::new(alloc);
    for pair in list.pairs() {
        write(&mut text, pair)?;
    }
    Some(text)
}

fn is_shown(alloc: Global, list: &Numbers, wanted: &str) -> bool {
    match shown(alloc, list) {
        Some(text) => text.as_str() == wanted,
        None => false,
    }
}

// A call that changes a list.
#[derive(Clone, Copy)]
enum Change<'a> {
    Push(u32),
    PushValue(u32),
    PushPunct(char),
    Insert(usize, u32),
    ExtendValues(u32, u32),
    ExtendPairs(&'a str),
    Remove(u32),
    RemoveAll,
    Clear,
    Pop,
    PopPair,
    PopPunct,
}

fn push_value(list: &mut Numbers, value: u32) -> Option<()> {
    if list.empty_or_trailing() {
        return list.push_value(value).ok();
    }
    None
}

fn push_punct(list: &mut Numbers, mark: char) -> Option<()> {
    if !list.empty_or_trailing() {
        return list.push_punct(Mark(mark)).ok();
    }
    None
}

fn insert(list: &mut Numbers, index: usize, value: u32) -> Option<()> {
    if index <= list.len() {
        return list.insert(index, value).ok();
    }
    None
}

fn extend_pairs(alloc: Global, list: &mut Numbers, text: &str) -> Option<()> {
    let pairs = numbers(alloc, text)?.into_pairs();
    list.extend_pairs(pairs).ok()
}

fn parts(pair: Pair<u32, Mark>) -> Parts {
    match pair {
        Pair::Punctuated(value, mark) => (Some(value), Some(mark.0)),
        Pair::End(value) => (Some(value), None),
    }
}

fn pop_pair(list: &mut Numbers) -> Parts {
    match list.pop_pair() {
        Some(pair) => parts(pair),
        None => NOTHING,
    }
}

fn pop_punct(list: &mut Numbers) -> Option<Parts> {
    match list.pop_punct().ok()? {
        Some(mark) => Some((None, Some(mark.0))),
        None => Some(NOTHING),
    }
}

// Makes the call, and returns what it returns if it succeeds.
fn edit(alloc: Global, list: &mut Numbers, edit: &Change<'_>) -> Option<Parts> {
    match edit {
        Change::Push(value) => list.push(*value).ok()?,
        Change::PushValue(value) => push_value(list, *value)?,
        Change::PushPunct(mark) => push_punct(list, *mark)?,
        Change::Insert(index, value) => insert(list, *index, *value)?,
        Change::ExtendValues(first, past) => list.extend_values(*first..*past).ok()?,
        Change::ExtendPairs(text) => extend_pairs(alloc, list, text)?,
        Change::Remove(refused) => list.retain(|value| *value != *refused),
        Change::RemoveAll => list.retain(|_| false),
        Change::Clear => list.clear(),
        Change::Pop => return Some((list.pop(), None)),
        Change::PopPair => return Some(pop_pair(list)),
        Change::PopPunct => return pop_punct(list),
    }
    Some(NOTHING)
}

// What the call returns, whether the list then has this text, how many values it has, and whether
// it is empty, ends in a separator, and is one of both.
type Edited = (Parts, bool, usize, [bool; 3]);

fn edited(
    alloc: Global,
    list: Option<Numbers>,
    change: &Change<'_>,
    after: &str,
) -> Option<Edited> {
    let mut list = list?;
    let parts = edit(alloc, &mut list, change)?;
    let facts = [
        list.is_empty(),
        list.trailing_punct(),
        list.empty_or_trailing(),
    ];
    Some((parts, is_shown(alloc, &list, after), list.len(), facts))
}

// A text, a call, what it returns, and the list after it: its text, its length, and whether it ends
// in a separator.
type ChangeRow<'a> = (&'a str, Change<'a>, Parts, &'a str, usize, bool);

fn all_changes(rt: &(impl Abort + AllocGlobal), rows: &[ChangeRow<'_>]) {
    let alloc = rt.alloc();
    for (text, change, parts, after, len, is_trailing) in rows {
        let is_empty = *len == 0;
        let facts = [is_empty, *is_trailing, is_empty || *is_trailing];
        let wanted = Some((*parts, true, *len, facts));
        let found = edited(alloc, numbers(alloc, text), change, after);
        assert_eq!(rt; found, wanted, "{text} to {after}");
        let found = edited(alloc, full(alloc, text), change, after);
        assert_eq!(rt; found, wanted, "{text} to {after}, without room");
    }
}

#[test]
fn retains(rt: HostRuntime) {
    all_changes(
        &rt,
        &[
            ("2,3,4", Change::Remove(4), NOTHING, "2,3", 2, false),
            ("2,3,", Change::Remove(3), NOTHING, "2,", 1, true),
            ("2,3", Change::Remove(2), NOTHING, "3", 1, false),
            ("2;3,4", Change::Remove(3), NOTHING, "2;4", 2, false),
            ("", Change::Remove(3), NOTHING, "", 0, false),
            ("2d3d4", Change::Remove(4), NOTHING, "2d3", 2, false),
            ("2,3,4", Change::RemoveAll, NOTHING, "", 0, false),
            ("1d2d3d4", Change::Clear, NOTHING, "", 0, false),
        ],
    );
}

#[test]
fn pushes(rt: HostRuntime) {
    all_changes(
        &rt,
        &[
            ("", Change::Push(1), NOTHING, "1", 1, false),
            ("1", Change::Push(2), NOTHING, "1d2", 2, false),
            ("2,3", Change::Push(4), NOTHING, "2,3d4", 3, false),
            ("2,3,", Change::Push(4), NOTHING, "2,3,4", 3, false),
            ("", Change::Push(4), NOTHING, "4", 1, false),
            ("2,", Change::PushValue(3), NOTHING, "2,3", 2, false),
            ("2,3", Change::PushPunct(';'), NOTHING, "2,3;", 2, true),
        ],
    );
}

#[test]
fn inserts(rt: HostRuntime) {
    all_changes(
        &rt,
        &[
            ("2d3", Change::Insert(1, 9), NOTHING, "2d9d3", 3, false),
            ("2,3", Change::Insert(1, 9), NOTHING, "2,9d3", 3, false),
            ("2,3", Change::Insert(2, 9), NOTHING, "2,3d9", 3, false),
        ],
    );
}

#[test]
fn extends(rt: HostRuntime) {
    let two = Change::ExtendValues(3, 5);
    let six = Change::ExtendValues(3, 9);
    let pairs = Change::ExtendPairs("3,4,5,6,7,8");
    all_changes(
        &rt,
        &[
            ("2d9d3", Change::ExtendPairs(""), NOTHING, "2d9d3d", 3, true),
            ("1,2", pairs, NOTHING, "1,2d3,4,5,6,7,8", 8, false),
            ("1d2", two, NOTHING, "1d2d3d4", 4, false),
            ("1,2", six, NOTHING, "1,2d3d4d5d6d7d8", 8, false),
        ],
    );
}

#[test]
fn pops(rt: HostRuntime) {
    let pair = (Some(2), Some(';'));
    all_changes(
        &rt,
        &[
            ("2,3", Change::PopPunct, NOTHING, "2,3", 2, false),
            ("2,3,", Change::PopPunct, (None, Some(',')), "2,3", 2, false),
            ("", Change::PopPunct, NOTHING, "", 0, false),
            ("2;3,4", Change::PopPair, (Some(4), None), "2;3,", 2, true),
            ("2;", Change::PopPair, pair, "", 0, false),
            ("2;3,", Change::Pop, (Some(3), None), "2;", 1, true),
            ("", Change::Pop, NOTHING, "", 0, false),
        ],
    );
}

// Adds four to each value, and removes the value that is then 6. Returns the digits of the values
// that the predicate saw.
fn retain_added(alloc: Global, text: &str, after: &str) -> Option<(u32, bool)> {
    let mut list = numbers(alloc, text)?;
    let mut seen = 0u32;
    list.retain(|value| {
        seen = seen.wrapping_mul(10).wrapping_add(*value);
        *value = value.wrapping_add(4);
        *value != 6
    });
    Some((seen, is_shown(alloc, &list, after)))
}

fn all_retained(rt: &(impl Abort + AllocGlobal), rows: &[(&str, u32, &str)]) {
    for (text, seen, after) in rows {
        assert_eq!(rt;
            retain_added(rt.alloc(), text, after),
            Some((*seen, true)),
            "at {text}"
        );
    }
}

#[test]
fn shows_each_value_to_the_predicate_once(rt: HostRuntime) {
    all_retained(
        &rt,
        &[
            ("1,2,3", 123, "5,7"),
            ("1,2,", 12, "5,"),
            ("1,2", 12, "5"),
            ("2", 2, ""),
            ("", 0, ""),
        ],
    );
}

// A value or a separator that counts how many are dropped.
struct Counted<'a>(&'a Cell<u32>);

impl Drop for Counted<'_> {
    fn drop(self) {
        let Counted(dropped) = self;
        dropped.set(dropped.get().wrapping_add(1));
    }
}

// Returns how many values and separators of a list of three pairs are dropped by `clear`, and then
// with the list.
fn cleared(alloc: Global) -> Option<(u32, u32)> {
    let dropped = Cell::new(0);
    let mut list = Punctuated::new(alloc);
    for _ in 0..3u32 {
        if list.empty_or_trailing() {
            list.push_value(Counted(&dropped)).ok()?;
            list.push_punct(Counted(&dropped)).ok()?;
        }
    }
    if list.empty_or_trailing() {
        list.push_value(Counted(&dropped)).ok()?;
    }
    list.clear();
    let by_clear = dropped.get();
    drop(list);
    Some((by_clear, dropped.get()))
}

#[test]
fn clear_drops_each_value_and_separator(rt: HostRuntime) {
    assert_eq!(rt; cleared(rt.alloc()), Some((7, 7)));
}

// Returns pairs of these values and separators.
fn pairs_of(alloc: Global, parts: &[(u32, Option<char>)]) -> Option<Vec<Pair<u32, Mark>>> {
    let mut pairs = Vec::new(alloc);
    for (value, mark) in parts {
        let pair = match mark {
            Some(mark) => Pair::Punctuated(*value, Mark(*mark)),
            None => Pair::End(*value),
        };
        pairs.push(pair).ok()?;
    }
    Some(pairs)
}

// Returns the fault of extending the list by these pairs, and whether it then has this text.
fn extended(
    alloc: Global,
    list: Option<Numbers>,
    parts: &[(u32, Option<char>)],
    after: &str,
) -> Option<(Option<PairsFault>, bool)> {
    let mut list = list?;
    let fault = list.extend_pairs(pairs_of(alloc, parts)?).err();
    Some((fault, is_shown(alloc, &list, after)))
}

// Returns the fault of making a list of these pairs, or else whether it has this text.
fn made_of_pairs(
    alloc: Global,
    parts: &[(u32, Option<char>)],
    text: &str,
) -> Option<Result<bool, PairsFault>> {
    match Numbers::from_pairs(alloc, pairs_of(alloc, parts)?) {
        Ok(list) => Some(Ok(is_shown(alloc, &list, text))),
        Err(fault) => Some(Err(fault)),
    }
}

// Pairs, the fault of making a list of them, and the list that they extend, before and after.
type PairsRow<'a> = (
    &'a [(u32, Option<char>)],
    Option<PairsFault>,
    &'a str,
    &'a str,
);

fn all_pairs(rt: &(impl Abort + AllocGlobal), rows: &[PairsRow<'_>]) {
    let alloc = rt.alloc();
    for (pairs, fault, before, after) in rows {
        let found = extended(alloc, numbers(alloc, before), pairs, after);
        assert_eq!(rt; found, Some((*fault, true)), "{before} to {after}");
        let found = extended(alloc, full(alloc, before), pairs, after);
        assert_eq!(rt;
            found,
            Some((*fault, true)),
            "{before} to {after}, without room"
        );
    }
}

fn all_made(
    rt: &(impl Abort + AllocGlobal),
    rows: &[(&[(u32, Option<char>)], Result<bool, PairsFault>, &str)],
) {
    for (pairs, wanted, text) in rows {
        assert_eq!(rt;
            made_of_pairs(rt.alloc(), pairs, text),
            Some(*wanted),
            "at {text}"
        );
    }
}

// Pairs of which one follows a pair without a separator.
const MISPLACED: &[(u32, Option<char>)] = &[(3, Some(',')), (4, None), (5, Some(','))];

#[test]
fn extends_up_to_a_misplaced_pair(rt: HostRuntime) {
    all_pairs(
        &rt,
        &[
            (MISPLACED, Some(PairsFault::AfterEnd), "2", "2d3,4"),
            (&[(3, Some(','))], None, "2", "2d3,"),
        ],
    );
}

#[test]
fn makes_no_list_of_misplaced_pairs(rt: HostRuntime) {
    all_made(
        &rt,
        &[
            (MISPLACED, Err(PairsFault::AfterEnd), ""),
            (
                &[(2, Some(';')), (3, Some(',')), (4, None)],
                Ok(true),
                "2;3,4",
            ),
        ],
    );
}

fn is_fault(alloc: Global, fault: PairsFault, words: &str) -> Option<bool> {
    let text = format!(in alloc; "{fault}").ok()?;
    Some(text.as_str() == words)
}

fn all_faults(rt: &(impl Abort + AllocGlobal), rows: &[(PairsFault, &str)]) {
    for (fault, words) in rows {
        assert_eq!(rt;
            is_fault(rt.alloc(), *fault, words),
            Some(true),
            "not {words}"
        );
    }
}

#[test]
fn words_faults(rt: HostRuntime) {
    let words = "a pair follows one without a separator";
    all_faults(&rt, &[(PairsFault::AfterEnd, words)]);
}

fn is_made_again(alloc: Global, text: &str) -> Option<bool> {
    let pairs = numbers(alloc, text)?.into_pairs();
    let list = Numbers::from_pairs(alloc, pairs).ok()?;
    Some(is_shown(alloc, &list, text))
}

fn all_made_again(rt: &(impl Abort + AllocGlobal), rows: &[&str]) {
    for text in rows {
        assert_eq!(rt; is_made_again(rt.alloc(), text), Some(true), "at {text}");
    }
}

#[test]
fn makes_lists_of_pairs(rt: HostRuntime) {
    all_made_again(&rt, &["2;3,4", "1,2,3,4,5,6"]);
}

fn is_made_of_values(alloc: Global, first: u32, past: u32, text: &str) -> Option<bool> {
    let list = Numbers::from_values(alloc, first..past).ok()?;
    Some(is_shown(alloc, &list, text))
}

fn all_made_of_values(rt: &(impl Abort + AllocGlobal), rows: &[(u32, u32, &str)]) {
    for (first, past, text) in rows {
        let is_made = is_made_of_values(rt.alloc(), *first, *past, text);
        assert_eq!(rt; is_made, Some(true), "not {text}");
    }
}

#[test]
fn makes_lists_of_values(rt: HostRuntime) {
    all_made_of_values(&rt, &[(1, 9, "1d2d3d4d5d6d7d8")]);
}

// A value of a list.
#[derive(Clone, Copy)]
enum Place {
    First,
    Last,
    Index(usize),
}

fn read(list: &Numbers, place: &Place) -> Option<u32> {
    match place {
        Place::First => list.first().copied(),
        Place::Last => list.last().copied(),
        Place::Index(index) => list.get(*index).copied(),
    }
}

fn lent<'a>(list: &'a mut Numbers, place: &Place) -> Option<&'a mut u32> {
    match place {
        Place::First => list.first_mut(),
        Place::Last => list.last_mut(),
        Place::Index(index) => list.get_mut(*index),
    }
}

// Writes a value, and returns the value that was there.
fn replace(list: &mut Numbers, place: &Place, new: u32) -> Option<u32> {
    let value = lent(list, place)?;
    let old = *value;
    *value = new;
    Some(old)
}

// Returns the value at a place, the value that a write of 9 replaces, and whether the list then has
// this text.
fn replaced(
    alloc: Global,
    text: &str,
    place: &Place,
    after: &str,
) -> Option<(Option<u32>, Option<u32>, bool)> {
    let mut list = numbers(alloc, text)?;
    let found = read(&list, place);
    let replaced = replace(&mut list, place, 9);
    Some((found, replaced, is_shown(alloc, &list, after)))
}

fn all_places(rt: &(impl Abort + AllocGlobal), text: &str, rows: &[(Place, Option<u32>, &str)]) {
    for (place, value, after) in rows {
        let wanted = Some((*value, *value, true));
        assert_eq!(rt;
            replaced(rt.alloc(), text, place, after),
            wanted,
            "at {after}"
        );
    }
}

#[test]
fn reads_and_writes_in_place(rt: HostRuntime) {
    all_places(
        &rt,
        "2,3;4",
        &[
            (Place::First, Some(2), "9,3;4"),
            (Place::Last, Some(4), "2,3;9"),
            (Place::Index(1), Some(3), "2,9;4"),
            (Place::Index(3), None, "2,3;4"),
        ],
    );
}

// Writes all values through an index.
fn is_raised(alloc: Global, text: &str, more: u32, after: &str) -> Option<bool> {
    let mut list = numbers(alloc, text)?;
    for index in 0..list.len() {
        if index < list.len() {
            list[index] = list[index].wrapping_add(more);
        }
    }
    Some(is_shown(alloc, &list, after))
}

fn all_raised(rt: &(impl Abort + AllocGlobal), rows: &[(&str, u32, &str)]) {
    for (text, more, after) in rows {
        assert_eq!(rt;
            is_raised(rt.alloc(), text, *more, after),
            Some(true),
            "at {text}"
        );
    }
}

#[test]
fn writes_through_an_index(rt: HostRuntime) {
    all_raised(&rt, &[("5,6;7", 3, "8,9;10")]);
}

// Returns whether two lists are equal, and whether they are unequal.
fn compared(alloc: Global, left: &str, right: &str) -> Option<[bool; 2]> {
    let left = full(alloc, left)?;
    let right = numbers(alloc, right)?;
    Some([left == right, left != right])
}

fn set_of(alloc: Global, text: &str) -> Option<HashSet<Numbers>> {
    let mut set = HashSet::new(alloc);
    set.insert(full(alloc, text)?).ok()?;
    Some(set)
}

fn is_found(alloc: Global, left: &str, right: &str) -> Option<bool> {
    let set = set_of(alloc, left)?;
    let list = numbers(alloc, right)?;
    Some(set.contains(&list))
}

fn all_compared(rt: &(impl Abort + AllocGlobal), left: &str, rows: &[(&str, bool)]) {
    for (right, wanted) in rows {
        let found = compared(rt.alloc(), left, right);
        assert_eq!(rt; found, Some([*wanted, !*wanted]), "at {right}");
        assert_eq!(rt;
            is_found(rt.alloc(), left, right),
            Some(*wanted),
            "at {right}"
        );
    }
}

#[test]
fn compares_and_hashes_values_and_separators(rt: HostRuntime) {
    all_compared(
        &rt,
        "2,3",
        &[
            ("2,3", true),
            ("2,4", false),
            ("2;3", false),
            ("2,3,", false),
            ("2,", false),
            ("2", false),
            ("", false),
        ],
    );
}

fn is_debugged(alloc: Global, text: &str, wanted: &str) -> Option<bool> {
    let list = numbers(alloc, text)?;
    let text = format!(in alloc; "{list:?}").ok()?;
    Some(text.as_str() == wanted)
}

fn all_debugged(rt: &(impl Abort + AllocGlobal), rows: &[(&str, &str)]) {
    for (text, wanted) in rows {
        assert_eq!(rt;
            is_debugged(rt.alloc(), text, wanted),
            Some(true),
            "at {text}"
        );
    }
}

#[test]
fn shows_for_debugging(rt: HostRuntime) {
    all_debugged(&rt, &[("2,3", "[2, Mark(','), 3]")]);
}

// What each iterator over a list shows for debugging.
fn iterators_debugged(alloc: Global, text: &str) -> Option<[String; 6]> {
    let mut list = numbers(alloc, text)?;
    let iter = format!(in alloc; "{:?}", list.iter()).ok()?;
    let pairs = format!(in alloc; "{:?}", list.pairs()).ok()?;
    let iter_mut = format!(in alloc; "{:?}", list.iter_mut()).ok()?;
    let pairs_mut = format!(in alloc; "{:?}", list.pairs_mut()).ok()?;
    let into_pairs = format!(in alloc; "{:?}", list.clone().ok()?.into_pairs()).ok()?;
    let into_iter = format!(in alloc; "{:?}", list.into_iter()).ok()?;
    Some([iter, pairs, iter_mut, pairs_mut, into_pairs, into_iter])
}

fn are_debugged(alloc: Global, text: &str, wanted: &[&str; 6]) -> Option<bool> {
    let found = iterators_debugged(alloc, text)?;
    Some(
        found
            .iter()
            .zip(wanted)
            .all(|(one, other)| one.as_str() == *other),
    )
}

fn all_iterators_debugged(rt: &(impl Abort + AllocGlobal), rows: &[(&str, [&str; 6])]) {
    for (text, wanted) in rows {
        assert_eq!(rt;
            are_debugged(rt.alloc(), text, wanted),
            Some(true),
            "at {text}"
        );
    }
}

#[test]
fn shows_iterators_for_debugging(rt: HostRuntime) {
    all_iterators_debugged(
        &rt,
        &[(
            "2,3",
            [
                "Iter { pairs: Pairs { inner: Iter([(2, Mark(','))]), last: Some(3) } }",
                "Pairs { inner: Iter([(2, Mark(','))]), last: Some(3) }",
                "IterMut { pairs: PairsMut { inner: IterMut([(2, Mark(','))]), last: Some(3) } }",
                "PairsMut { inner: IterMut([(2, Mark(','))]), last: Some(3) }",
                "IntoPairs { inner: [(2, Mark(','))], last: Some(3) }",
                "IntoIter { pairs: IntoPairs { inner: [(2, Mark(','))], last: Some(3) } }",
            ],
        )],
    );
}
