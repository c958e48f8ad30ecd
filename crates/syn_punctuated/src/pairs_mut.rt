//! The iterator over mutable references to the pairs of a list.
ghost use Rattle.std.specs.Prelude.{◌≡◌, ◌^◌, ◌<◌, length, IfSome};
ghost use Rattle.std.specs.Iterator.{UpTo};
ghost use Rattle.std.specs.Iterator.SizeHint.{IsWithinCount};
ghost use Rattle.std.specs.Slice.Iter.{iter_mut_rest};
ghost use Rattle.std.specs.Option.{option_map, option_copied_mut};
ghost use Rattle.syn_punctuated.specs.Lists.{values_of, separators_of};
ghost use Rattle.syn_punctuated.specs.Paired.{paired};
ghost use Rattle.syn_punctuated.specs.Pairs.{deref_both_mut, pair_of, end_of};

use crate::pair::Pair;
use crate::punctuated::Punctuated;
use std::iter::FusedIterator;
use std::slice;

impl<T, P> Punctuated<T, P> {
    ghost use Rattle.syn_punctuated.specs.Lent.{lent_pairs};

    /// Returns an iterator over the pairs of the list, in order.
    ///
    /// Each pair contains mutable references to a value and to the separator after it.
    pub fn pairs_mut(&mut self) -> PairsMut<'_, T, P>
        ensures { lent_pairs result ≡ paired (values_of self.old) (separators_of self.old) }
    {
        PairsMut {
            inner: self.inner.as_mut_slice().iter_mut(),
            last: self.last.as_deref_mut(),
        }
    }
}

/// Returns mutable references to a value and the separator after it.
fn lend_pair<'a, T, P>(pair: &'a mut (T, P)) -> Pair<&'a mut T, &'a mut P>
    ensures { deref_both_mut result ≡ pair_of pair.old }
{
    let (value, separator) = pair;
    Pair::Punctuated(value, separator)
}

/// Converts a mutable reference to the last value to a pair without a separator.
fn lend_last<'a, T, P>(last: Option<&'a mut T>) -> Option<Pair<&'a mut T, &'a mut P>>
    ensures { option_map deref_both_mut result ≡ option_map end_of (option_copied_mut last.entry) }
{
    match last {
        Some(value) => Some(Pair::End(value)),
        None => None,
    }
}

/// An iterator over mutable references to the pairs of a list.
///
/// This iterator is created by the `pairs_mut` method of `Punctuated`.
#[derive(Drop, Debug)]
pub struct PairsMut<'a, T, P> {
    pub(crate) inner: slice::IterMut<'a, (T, P)>,
    pub(crate) last: Option<&'a mut T>,
    ghost fits: { length (iter_mut_rest inner) < 2 ^ 63 },
}

impl<'a, T, P> Iterator for PairsMut<'a, T, P> {
    ghost use Rattle.std.specs.Iterator.{YieldsFirstBy, item_count};
    ghost use Rattle.syn_punctuated.specs.Lent.{lent_pairs};
    ghost use Rattle.syn_punctuated.specs.Pairs.{deref_both_mut};

    type Item = Pair<&'a mut T, &'a mut P>;

    ghost next_gives = { YieldsFirstBy deref_both_mut lent_pairs };

    ghost remaining = { item_count lent_pairs };

    fn next(&mut self) -> Option<Pair<&'a mut T, &'a mut P>> {
        match self.inner.next() {
            Some(pair) => Some(lend_pair(pair)),
            None => lend_last(self.last.take()),
        }
    }

    fn size_hint(&self) -> (usize, Option<usize>)
        ensures value { result
            ≡ (length (lent_pairs self.now), Some (length (lent_pairs self.now))) }
        ensures lower { IsWithinCount result.0 (item_count lent_pairs self.now) }
        ensures upper { IfSome result.1 (UpTo (item_count lent_pairs self.now)) }
    {
        let len = self.len();
        (len, Some(len))
    }
}

impl<'a, T, P> DoubleEndedIterator for PairsMut<'a, T, P> {
    ghost use Rattle.std.specs.Iterator.{YieldsLastBy};
    ghost use Rattle.syn_punctuated.specs.Lent.{lent_pairs};
    ghost use Rattle.syn_punctuated.specs.Pairs.{deref_both_mut};

    ghost next_back_gives = { YieldsLastBy deref_both_mut lent_pairs };

    fn next_back(&mut self) -> Option<Pair<&'a mut T, &'a mut P>> {
        if self.last.is_some() {
            return lend_last(self.last.take());
        }
        self.inner.next_back().map(lend_pair)
    }
}

impl<'a, T, P> ExactSizeIterator for PairsMut<'a, T, P> {
    fn len(&self) -> usize {
        self.inner.len() + if self.last.is_some() { 1 } else { 0 }
    }
}

impl<'a, T, P> FusedIterator for PairsMut<'a, T, P> {}
