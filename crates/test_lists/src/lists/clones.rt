//! Tests of clones of lists, and of clones of values that fail.
ghost use Rattle.std.specs.Prelude.{◌≡◌};

use super::{Mark, is_shown, numbers};
use std::alloc::{AllocError, AllocGlobal, Global};
use std::process::Abort;
use syn_punctuated::{Pair, Punctuated};

// A value that can't be cloned if it is 13.
#[derive(Debug, Drop, PartialEq, Eq)]
struct Rare(u32);

impl Clone for Rare {
    ghost is_clone = { λ s r. r ≡ s };

    fn clone(&self) -> Result<Rare, AllocError> {
        if self.0 == 13 {
            return Err(AllocError);
        }
        Ok(Rare(self.0))
    }
}

fn rare_list(alloc: Global, values: &[u32]) -> Option<Punctuated<Rare, Mark>> {
    let mut list = Punctuated::new(alloc);
    for value in values {
        list.push(Rare(*value)).ok()?;
    }
    Some(list)
}

// Returns whether the copy of the list is equal to it, if it is made.
fn list_alike(alloc: Global, values: &[u32]) -> Option<bool> {
    let list = rare_list(alloc, values)?;
    let copy = list.clone().ok()?;
    Some(copy == list)
}

// Counts the pairs in the copy of the list's pairs, if it is made.
fn pairs_copied(alloc: Global, values: &[u32]) -> Option<usize> {
    let pairs = rare_list(alloc, values)?.into_pairs();
    let copy = pairs.clone().ok()?;
    Some(copy.len())
}

fn copied(pair: Pair<&Rare, &Mark>) -> Option<u32> {
    Some(pair.cloned().ok()?.into_value().0)
}

// Returns `true` if each pair is copied, or fails to be if its value is 13.
fn are_pairs_copied(alloc: Global, values: &[u32]) -> Option<bool> {
    let list = rare_list(alloc, values)?;
    let mut is_right = true;
    for pair in list.pairs() {
        let value = pair.value().0;
        let wanted = if value == 13 { None } else { Some(value) };
        is_right = is_right && copied(pair) == wanted;
    }
    Some(is_right)
}

fn all_clones(rt: &(impl Abort + AllocGlobal), rows: &[(&[u32], Option<usize>)]) {
    let alloc = rt.alloc();
    for (values, count) in rows {
        assert_eq!(rt;
            are_pairs_copied(alloc, values),
            Some(true),
            "cloned of {values:?}"
        );
        assert_eq!(rt;
            list_alike(alloc, values),
            count.map(|_| true),
            "clone of {values:?}"
        );
        assert_eq!(rt;
            pairs_copied(alloc, values),
            *count,
            "into_pairs of {values:?}"
        );
    }
}

#[test]
fn passes_on_what_the_clone_of_a_value_returns(rt: HostRuntime) {
    all_clones(
        &rt,
        &[
            (&[1, 2, 3], Some(3)),
            (&[1, 13, 3], None),
            (&[1, 2, 13], None),
        ],
    );
}

fn is_cloned(alloc: Global, text: &str) -> Option<bool> {
    let list = numbers(alloc, text)?;
    let copy = list.clone().ok()?;
    Some(copy == list && is_shown(alloc, &copy, text))
}

fn all_cloned(rt: &(impl Abort + AllocGlobal), rows: &[&str]) {
    for text in rows {
        assert_eq!(rt; is_cloned(rt.alloc(), text), Some(true), "at {text}");
    }
}

#[test]
fn clones_lists(rt: HostRuntime) {
    all_cloned(&rt, &["1,2,3", "2,3", "2;", ""]);
}
