//! The iterator that moves the values out of a list. Contracts represent this iterator as the list
//! of its remaining values.
ghost use Rattle.std.specs.Prelude.{◌≡◌, length, IfSome};
ghost use Rattle.std.specs.Iterator.{at_most, UpTo};
ghost use Rattle.std.specs.Iterator.SizeHint.{IsWithinCount};
ghost use Rattle.std.specs.Map.Iter.{TakesFirst, TakesLast, GivesInOrder, GivesInReverse};
ghost use Rattle.syn_punctuated.specs.Lists.{values_of};

use crate::into_pairs::IntoPairs;
use crate::punctuated::Punctuated;
use std::iter::FusedIterator;
use std::marker::Model;

impl<T: Drop, P: Drop> IntoIterator for Punctuated<T, P> {
    type Item = T;

    type IntoIter = IntoIter<T, P>;

    ghost into_iter_gives = { λ list r. (r ≡ values_of list) × GivesInOrder T × GivesInReverse T };

    fn into_iter(self) -> IntoIter<T, P> {
        IntoIter {
            pairs: self.into_pairs(),
        }
    }
}

/// An iterator that moves the values out of a list.
///
/// This iterator is created by a `for` loop over a list.
#[derive(Drop, Debug)]
pub struct IntoIter<T, P> {
    pub(crate) pairs: IntoPairs<T, P>,
}

impl<T, P> Model for IntoIter<T, P> {
    ghost use Rattle.std.specs.Prelude.{List, map};
    ghost use Rattle.syn_punctuated.specs.Pairs.{value_of_pair};

    ghost Value = { List T };

    ghost view = { λ a. map value_of_pair a.pairs };
}

impl<T: Drop, P: Drop> Iterator for IntoIter<T, P> {
    type Item = T;

    ghost next_gives = { TakesFirst (λ x. x) };

    ghost remaining = { λ s. at_most (length s) };

    fn next(&mut self) -> Option<T> {
        Some(self.pairs.next()?.into_value())
    }

    fn size_hint(&self) -> (usize, Option<usize>)
        ensures value { result ≡ (length self.now, Some (length self.now)) }
        ensures lower { IsWithinCount result.0 (at_most (length self.now)) }
        ensures upper { IfSome result.1 (UpTo (at_most (length self.now))) }
    {
        let len = self.len();
        (len, Some(len))
    }
}

impl<T: Drop, P: Drop> DoubleEndedIterator for IntoIter<T, P> {
    ghost next_back_gives = { TakesLast (λ x. x) };

    fn next_back(&mut self) -> Option<T> {
        Some(self.pairs.next_back()?.into_value())
    }
}

impl<T: Drop, P: Drop> ExactSizeIterator for IntoIter<T, P> {
    fn len(&self) -> usize {
        self.pairs.len()
    }
}

impl<T: Drop, P: Drop> FusedIterator for IntoIter<T, P> {}
