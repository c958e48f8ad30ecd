//! The iterator that moves the pairs out of a list. Contracts represent this iterator as the list
//! of its remaining pairs.
ghost use Rattle.std.specs.Prelude.{◌≡◌, length, IfSome};
ghost use Rattle.std.specs.Iterator.{at_most, UpTo};
ghost use Rattle.std.specs.Iterator.SizeHint.{IsWithinCount};
ghost use Rattle.std.specs.Map.Iter.{TakesFirst, TakesLast, GivesInOrder, GivesInReverse};
ghost use Rattle.syn_punctuated.specs.Lists.{values_of, separators_of};
ghost use Rattle.syn_punctuated.specs.Paired.{paired};
ghost use Rattle.syn_punctuated.specs.declared.pair.Pair.{Pair};

use crate::pair::Pair;
use crate::punctuated::Punctuated;
use std::collections::VecDeque;
use std::iter::FusedIterator;
use std::marker::Model;

impl<T, P> Punctuated<T, P> {
    /// Returns an iterator that moves the pairs out of the list, in order.
    pub fn into_pairs(self) -> IntoPairs<T, P>
        ensures rest { result ≡ paired (values_of self) (separators_of self) }
        ensures runs { GivesInOrder (Pair T P) }
        ensures runs_back { GivesInReverse (Pair T P) }
    {
        let Punctuated { inner, last } = self;
        IntoPairs {
            inner: VecDeque::from_vec(inner),
            last,
        }
    }
}

/// An iterator that moves the pairs out of a list.
///
/// This iterator is created by the `into_pairs` method of `Punctuated`.
#[derive(Drop, Debug)]
pub struct IntoPairs<T, P> {
    pub(crate) inner: VecDeque<(T, P)>,
    pub(crate) last: Option<Box<T>>,
}

impl<T, P> Model for IntoPairs<T, P> {
    ghost use Rattle.std.specs.Prelude.{◌^◌, ◌<◌, List, ◌++◌, length, map};
    ghost use Rattle.std.specs.VecDeque.{deque_len};
    ghost use Rattle.syn_punctuated.specs.Private.Boxes.{boxed_values};
    ghost use Rattle.syn_punctuated.specs.declared.pair.Pair.{Pair};
    ghost use Rattle.syn_punctuated.specs.Pairs.{pair_of, end_of};

    ghost Value = { List (Pair T P) };

    ghost view = { λ a. map pair_of (a.inner.items) ++ map end_of (boxed_values a.last) };

    ghost invariant = { λ a. deque_len a.inner < 2 ^ 63 };
}

impl<T: Drop, P: Drop> Iterator for IntoPairs<T, P> {
    type Item = Pair<T, P>;

    ghost next_gives = { TakesFirst (λ x. x) };

    ghost remaining = { λ s. at_most (length s) };

    fn next(&mut self) -> Option<Pair<T, P>> {
        match self.inner.pop_front() {
            Some((value, separator)) => Some(Pair::Punctuated(value, separator)),
            None => self
                .last
                .take()
                .map(|value| Pair::End(Box::into_inner(value))),
        }
    }

    fn size_hint(&self) -> (usize, Option<usize>)
        ensures value { result ≡ (length self.now, Some (length self.now)) }
        ensures lower { IsWithinCount result.0 (at_most (length self.now)) }
        ensures upper { IfSome result.1 (UpTo (at_most (length self.now))) }
    {
        let len = self.len();
        (len, Some(len))
    }
}

impl<T: Drop, P: Drop> DoubleEndedIterator for IntoPairs<T, P> {
    ghost next_back_gives = { TakesLast (λ x. x) };

    fn next_back(&mut self) -> Option<Pair<T, P>> {
        if let Some(value) = self.last.take() {
            return Some(Pair::End(Box::into_inner(value)));
        }
        self.inner
            .pop_back()
            .map(|(value, separator)| Pair::Punctuated(value, separator))
    }
}

impl<T: Drop, P: Drop> ExactSizeIterator for IntoPairs<T, P> {
    fn len(&self) -> usize {
        self.inner.len() + if self.last.is_some() { 1 } else { 0 }
    }
}

impl<T: Drop, P: Drop> FusedIterator for IntoPairs<T, P> {}
