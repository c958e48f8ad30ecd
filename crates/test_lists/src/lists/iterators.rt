//! Tests of the six iterators of a list, each from both ends.
ghost use Rattle.std.specs.Prelude.{◌≡◌, length};
ghost use Rattle.syn_punctuated.specs.Lists.{values_of};

use super::{Mark, NOTHING, Parts, is_shown, numbers};
use std::alloc::{AllocGlobal, Global};
use std::process::Abort;
use syn_punctuated::{IntoIter, IntoPairs, Iter, IterMut, Pair, Pairs, PairsMut, Punctuated};

// An end of the items that are left.
#[derive(Clone, Copy)]
enum End {
    Front,
    Back,
}

// An iterator over the values or the pairs of a list of numbers. One for writing adds three to each
// value that it yields, and makes each separator a plus.
trait Items {
    fn take(&mut self, end: End) -> Parts;

    fn left(&self) -> (usize, (usize, Option<usize>));
}

fn parts_of_value(value: Option<&u32>) -> Parts {
    (value.copied(), None)
}

fn parts_of_pair(pair: Option<Pair<u32, Mark>>) -> Parts {
    match pair {
        Some(pair) => super::parts(pair),
        None => NOTHING,
    }
}

fn parts_of_lent(pair: Option<Pair<&u32, &Mark>>) -> Parts {
    match pair {
        Some(Pair::Punctuated(value, mark)) => (Some(*value), Some(mark.0)),
        Some(Pair::End(value)) => (Some(*value), None),
        None => NOTHING,
    }
}

fn raise(value: &mut u32) -> Option<u32> {
    let old = *value;
    *value = old.wrapping_add(3);
    Some(old)
}

fn raise_value(value: Option<&mut u32>) -> Parts {
    match value {
        Some(value) => (raise(value), None),
        None => NOTHING,
    }
}

fn mark_plus(mark: &mut Mark) -> Option<char> {
    let old = mark.0;
    *mark = Mark('+');
    Some(old)
}

impl Items for Iter<'_, u32, Mark> {
    fn take(&mut self, end: End) -> Parts {
        match end {
            End::Front => parts_of_value(self.next()),
            End::Back => parts_of_value(self.next_back()),
        }
    }

    fn left(&self) -> (usize, (usize, Option<usize>)) {
        (self.len(), self.size_hint())
    }
}

impl Items for IterMut<'_, u32, Mark> {
    fn take(&mut self, end: End) -> Parts {
        match end {
            End::Front => raise_value(self.next()),
            End::Back => raise_value(self.next_back()),
        }
    }

    fn left(&self) -> (usize, (usize, Option<usize>)) {
        (self.len(), self.size_hint())
    }
}

impl Items for IntoIter<u32, Mark> {
    fn take(&mut self, end: End) -> Parts {
        match end {
            End::Front => (self.next(), None),
            End::Back => (self.next_back(), None),
        }
    }

    fn left(&self) -> (usize, (usize, Option<usize>)) {
        (self.len(), self.size_hint())
    }
}

impl Items for Pairs<'_, u32, Mark> {
    fn take(&mut self, end: End) -> Parts {
        match end {
            End::Front => parts_of_lent(self.next()),
            End::Back => parts_of_lent(self.next_back()),
        }
    }

    fn left(&self) -> (usize, (usize, Option<usize>)) {
        (self.len(), self.size_hint())
    }
}

impl Items for PairsMut<'_, u32, Mark> {
    fn take(&mut self, end: End) -> Parts {
        let pair = match end {
            End::Front => self.next(),
            End::Back => self.next_back(),
        };
        match pair {
            Some(Pair::Punctuated(value, mark)) => (raise(value), mark_plus(mark)),
            Some(Pair::End(value)) => (raise(value), None),
            None => NOTHING,
        }
    }

    fn left(&self) -> (usize, (usize, Option<usize>)) {
        (self.len(), self.size_hint())
    }
}

impl Items for IntoPairs<u32, Mark> {
    fn take(&mut self, end: End) -> Parts {
        match end {
            End::Front => parts_of_pair(self.next()),
            End::Back => parts_of_pair(self.next_back()),
        }
    }

    fn left(&self) -> (usize, (usize, Option<usize>)) {
        (self.len(), self.size_hint())
    }
}

// An end, the item that is taken there, and how many are left then.
type Step = (End, Parts, usize);

// Returns `true` if so many items are left at first, and the steps are as wanted.
fn takes<I: Items>(items: &mut I, count: usize, steps: &[Step]) -> bool {
    let mut is_right = items.left() == (count, (count, Some(count)));
    for (end, wanted, left) in steps {
        let parts = items.take(*end);
        is_right = is_right && parts == *wanted && items.left() == (*left, (*left, Some(*left)));
    }
    is_right
}

// The list, how many items it has, the steps before the iterator is cloned, how many are left then,
// and the steps of the iterator and of its copy.
type Row<'a> = (&'a str, usize, &'a [Step], usize, &'a [Step], &'a [Step]);

fn values(alloc: Global, row: &Row<'_>) -> Option<bool> {
    let (text, count, before, left, steps, of_copy) = row;
    let list = numbers(alloc, text)?;
    let mut items = list.iter();
    let is_begun = takes(&mut items, *count, before);
    let mut copy = items.clone().ok()?;
    Some(is_begun && takes(&mut items, *left, steps) && takes(&mut copy, *left, of_copy))
}

fn pairs(alloc: Global, row: &Row<'_>) -> Option<bool> {
    let (text, count, before, left, steps, of_copy) = row;
    let list = numbers(alloc, text)?;
    let mut items = list.pairs();
    let is_begun = takes(&mut items, *count, before);
    let mut copy = items.clone().ok()?;
    Some(is_begun && takes(&mut items, *left, steps) && takes(&mut copy, *left, of_copy))
}

fn owned_values(alloc: Global, row: &Row<'_>) -> Option<bool> {
    let (text, count, before, left, steps, of_copy) = row;
    let mut items = numbers(alloc, text)?.into_iter();
    let is_begun = takes(&mut items, *count, before);
    let mut copy = items.clone().ok()?;
    Some(is_begun && takes(&mut items, *left, steps) && takes(&mut copy, *left, of_copy))
}

fn owned_pairs(alloc: Global, row: &Row<'_>) -> Option<bool> {
    let (text, count, before, left, steps, of_copy) = row;
    let mut items = numbers(alloc, text)?.into_pairs();
    let is_begun = takes(&mut items, *count, before);
    let mut copy = items.clone().ok()?;
    Some(is_begun && takes(&mut items, *left, steps) && takes(&mut copy, *left, of_copy))
}

fn all_values(rt: &(impl Abort + AllocGlobal), rows: &[Row<'_>]) {
    for row in rows {
        assert_eq!(rt; values(rt.alloc(), row), Some(true), "iter of {}", row.0);
        assert_eq!(rt;
            owned_values(rt.alloc(), row),
            Some(true),
            "into_iter of {}",
            row.0
        );
    }
}

fn all_pairs(rt: &(impl Abort + AllocGlobal), rows: &[Row<'_>]) {
    for row in rows {
        assert_eq!(rt; pairs(rt.alloc(), row), Some(true), "pairs of {}", row.0);
        assert_eq!(rt;
            owned_pairs(rt.alloc(), row),
            Some(true),
            "into_pairs of {}",
            row.0
        );
    }
}

const fn value(value: u32) -> Parts {
    (Some(value), None)
}

const fn pair(value: u32, mark: char) -> Parts {
    (Some(value), Some(mark))
}

#[test]
fn yields_values_from_both_ends(rt: HostRuntime) {
    let middle = [
        (End::Front, value(3), 0),
        (End::Front, NOTHING, 0),
        (End::Back, NOTHING, 0),
    ];
    let middle_from_back = [(End::Back, value(3), 0), (End::Front, NOTHING, 0)];
    let ends = [(End::Front, value(2), 2), (End::Back, value(4), 1)];
    let other_ends = [(End::Front, value(7), 2), (End::Back, value(9), 1)];
    let other_middle = [(End::Back, value(4), 0), (End::Front, NOTHING, 0)];
    let copied_middle = [(End::Back, value(4), 0)];
    let last = [(End::Front, value(3), 0)];
    let last_from_back = [(End::Back, value(3), 0)];
    all_values(
        &rt,
        &[
            ("2,3;4", 3, &ends, 1, &middle, &middle_from_back),
            ("2,3;4", 3, &ends, 1, &middle_from_back, &middle),
            (
                "2,3",
                2,
                &[(End::Front, value(2), 1)],
                1,
                &last,
                &last_from_back,
            ),
        ],
    );
}

#[test]
fn yields_pairs_from_both_ends(rt: HostRuntime) {
    let whole = [
        (End::Back, value(4), 2),
        (End::Front, pair(2, ','), 1),
        (End::Back, pair(3, ';'), 0),
        (End::Front, NOTHING, 0),
    ];
    let other = [
        (End::Front, pair(5, '+'), 2),
        (End::Back, value(6), 1),
        (End::Back, pair(3, ';'), 0),
        (End::Front, NOTHING, 0),
    ];
    all_pairs(
        &rt,
        &[
            ("2,3;4", 3, &[], 3, &whole, &whole),
            ("5+3;6", 3, &[], 3, &other, &[(End::Back, value(6), 2)]),
        ],
    );
}

// Takes the steps. Returns whether they are as wanted, and whether the list then has this text.
fn written_values(alloc: Global, text: &str, steps: &[Step], after: &str) -> Option<(bool, bool)> {
    let mut list = numbers(alloc, text)?;
    let count = list.len();
    let is_taken = takes(&mut list.iter_mut(), count, steps);
    Some((is_taken, is_shown(alloc, &list, after)))
}

fn written_pairs(alloc: Global, text: &str, steps: &[Step], after: &str) -> Option<(bool, bool)> {
    let mut list = numbers(alloc, text)?;
    let count = list.len();
    let is_taken = takes(&mut list.pairs_mut(), count, steps);
    Some((is_taken, is_shown(alloc, &list, after)))
}

fn all_written_values(rt: &(impl Abort + AllocGlobal), rows: &[(&str, &[Step], &str)]) {
    for (text, steps, after) in rows {
        let found = written_values(rt.alloc(), text, steps, after);
        assert_eq!(rt; found, Some((true, true)), "not {after}");
    }
}

fn all_written_pairs(rt: &(impl Abort + AllocGlobal), rows: &[(&str, &[Step], &str)]) {
    for (text, steps, after) in rows {
        let found = written_pairs(rt.alloc(), text, steps, after);
        assert_eq!(rt; found, Some((true, true)), "not {after}");
    }
}

#[test]
fn lends_values_to_write(rt: HostRuntime) {
    let ends = [(End::Back, value(6), 2), (End::Front, value(4), 1)];
    all_written_values(&rt, &[("4,3;6", &ends, "7,3;9")]);
}

#[test]
fn lends_pairs_to_write(rt: HostRuntime) {
    let ends = [(End::Front, pair(2, ','), 2), (End::Back, value(3), 1)];
    all_written_pairs(&rt, &[("2,3;3", &ends, "5+3;6")]);
}

// Adds one to each value, and returns their sum.
fn sum(alloc: Global, text: &str) -> Option<u32> {
    let mut list = numbers(alloc, text)?;
    for value in &mut list {
        *value = value.saturating_add(1);
    }
    let mut total = 0u32;
    for value in &list {
        total = total.saturating_add(*value);
    }
    Some(total)
}

fn all_sums(rt: &(impl Abort + AllocGlobal), rows: &[(&str, u32)]) {
    for (text, total) in rows {
        assert_eq!(rt; sum(rt.alloc(), text), Some(*total), "at {text}");
    }
}

#[test]
fn goes_over_values(rt: HostRuntime) {
    all_sums(&rt, &[("2,3;4", 12)]);
}

// Counts the values of any list one by one.
fn count<T, P>(list: &Punctuated<T, P>) -> usize
    ensures { result ≡ length (values_of list.now) }
{
    list.iter().count()
}

fn counted(alloc: Global, text: &str) -> Option<usize> {
    let list = numbers(alloc, text)?;
    Some(count(&list))
}

fn all_counted(rt: &(impl Abort + AllocGlobal), rows: &[(&str, usize)]) {
    for (text, wanted) in rows {
        assert_eq!(rt; counted(rt.alloc(), text), Some(*wanted), "at {text}");
    }
}

#[test]
fn counts_values(rt: HostRuntime) {
    all_counted(&rt, &[("2,3;4", 3)]);
}

// Drops a list within a loop over it that ends there, and returns the value at which it does.
fn dropped(alloc: Global, text: &str) -> Option<u32> {
    let list = numbers(alloc, text)?;
    let mut seen = 0u32;
    for value in &list {
        if *value == 2 {
            seen = *value;
            drop(list);
            break;
        }
    }
    Some(seen)
}

fn dropped_mut(alloc: Global, text: &str) -> Option<u32> {
    let mut list = numbers(alloc, text)?;
    let mut seen = 0u32;
    for value in &mut list {
        if *value == 2 {
            seen = *value;
            drop(list);
            break;
        }
    }
    Some(seen)
}

#[test]
fn ends_a_loop_without_the_list(rt: HostRuntime) {
    assert_eq!(rt; dropped(rt.alloc(), "1,2,3"), Some(2));
    assert_eq!(rt; dropped_mut(rt.alloc(), "1,2,3"), Some(2));
}
