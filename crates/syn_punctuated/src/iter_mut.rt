//! The iterator over mutable references to the values of a list.
ghost use Rattle.std.specs.Prelude.{◌≡◌, length, IfSome};
ghost use Rattle.std.specs.Iterator.{UpTo};
ghost use Rattle.std.specs.Iterator.SizeHint.{IsWithinCount};
ghost use Rattle.syn_punctuated.specs.Lists.{values_of, separators_of};

use crate::pair::Pair;
use crate::pairs_mut::PairsMut;
use crate::punctuated::Punctuated;
use std::iter::FusedIterator;

impl<T, P> Punctuated<T, P> {
    ghost use Rattle.syn_punctuated.specs.Lent.{lent_by_values, lent_values};
    ghost use Rattle.syn_punctuated.specs.Paired.{paired};

    /// Returns an iterator over mutable references to the values of the list, in order.
    pub fn iter_mut(&mut self) -> IterMut<'_, T, P>
        ensures values { lent_values result ≡ values_of self.old }
        ensures pairs { lent_by_values result
            ≡ paired (values_of self.old) (separators_of self.old) }
    {
        IterMut {
            pairs: self.pairs_mut(),
        }
    }
}

impl<'a, T, P> IntoIterator for &'a mut Punctuated<T, P> {
    ghost use Rattle.syn_punctuated.specs.Lent.{lent_by_values, lent_values};
    ghost use Rattle.syn_punctuated.specs.Paired.{paired};

    type Item = &'a mut T;

    type IntoIter = IterMut<'a, T, P>;

    ghost into_iter_gives = { λ list r. (lent_values r ≡ values_of list.now)
        × (lent_by_values r ≡ paired (values_of list.now) (separators_of list.now)) };

    fn into_iter(self) -> IterMut<'a, T, P> {
        self.iter_mut()
    }
}

/// An iterator over mutable references to the values of a list.
///
/// This iterator is created by the `iter_mut` method of `Punctuated`.
#[derive(Drop, Debug)]
pub struct IterMut<'a, T, P> {
    pairs: PairsMut<'a, T, P>,
}

impl<'a, T, P> Iterator for IterMut<'a, T, P> {
    ghost use Rattle.std.specs.Iterator.{YieldsFirstMut, item_count};
    ghost use Rattle.syn_punctuated.specs.Lent.{lent_values};

    type Item = &'a mut T;

    ghost next_gives = { YieldsFirstMut lent_values };

    ghost remaining = { item_count lent_values };

    fn next(&mut self) -> Option<&'a mut T> {
        match self.pairs.next()? {
            Pair::Punctuated(value, _) | Pair::End(value) => Some(value),
        }
    }

    fn size_hint(&self) -> (usize, Option<usize>)
        ensures value { result
            ≡ (length (lent_values self.now), Some (length (lent_values self.now))) }
        ensures lower { IsWithinCount result.0 (item_count lent_values self.now) }
        ensures upper { IfSome result.1 (UpTo (item_count lent_values self.now)) }
    {
        let len = self.len();
        (len, Some(len))
    }
}

impl<'a, T, P> DoubleEndedIterator for IterMut<'a, T, P> {
    ghost use Rattle.std.specs.Iterator.{YieldsLastMut};
    ghost use Rattle.syn_punctuated.specs.Lent.{lent_values};

    ghost next_back_gives = { YieldsLastMut lent_values };

    fn next_back(&mut self) -> Option<&'a mut T> {
        match self.pairs.next_back()? {
            Pair::Punctuated(value, _) | Pair::End(value) => Some(value),
        }
    }
}

impl<'a, T, P> ExactSizeIterator for IterMut<'a, T, P> {
    fn len(&self) -> usize {
        self.pairs.len()
    }
}

impl<'a, T, P> FusedIterator for IterMut<'a, T, P> {}
