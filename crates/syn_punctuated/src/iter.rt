//! The iterator over the values of a list. Contracts represent this iterator as the list of its
//! remaining values.
ghost use Rattle.std.specs.Prelude.{◌≡◌, length, ⊤, IfSome};
ghost use Rattle.std.specs.Iterator.{at_most, UpTo};
ghost use Rattle.std.specs.Iterator.SizeHint.{IsWithinCount};
ghost use Rattle.std.specs.Map.Iter.{TakesFirst, TakesLast, ShowsInOrder, ShowsInReverse, deref};
ghost use Rattle.syn_punctuated.specs.Lists.{values_of};

use crate::pairs::Pairs;
use crate::punctuated::Punctuated;
use std::alloc::AllocError;
use std::iter::FusedIterator;
use std::marker::Model;

impl<T, P> Punctuated<T, P> {
    /// Returns an iterator over the values of the list, in order.
    pub fn iter(&self) -> Iter<'_, T, P>
        ensures rest { result ≡ values_of self.now }
        ensures runs { ShowsInOrder (deref {X = T}) }
        ensures runs_back { ShowsInReverse (deref {X = T}) }
    {
        Iter {
            pairs: self.pairs(),
        }
    }
}

impl<'a, T, P> IntoIterator for &'a Punctuated<T, P> {
    type Item = &'a T;

    type IntoIter = Iter<'a, T, P>;

    ghost into_iter_gives = { λ list r.
        (r ≡ values_of list.now) × ShowsInOrder (deref {X = T}) × ShowsInReverse (deref {X = T}) };

    fn into_iter(self) -> Iter<'a, T, P> {
        self.iter()
    }
}

/// An iterator over the values of a list.
///
/// This iterator is created by the `iter` method of `Punctuated`.
#[derive(Drop, Debug)]
pub struct Iter<'a, T, P> {
    pairs: Pairs<'a, T, P>,
}

impl<'a, T, P> Model for Iter<'a, T, P> {
    ghost use Rattle.std.specs.Prelude.{List, map};
    ghost use Rattle.syn_punctuated.specs.Pairs.{value_of_pair};

    ghost Value = { List T };

    ghost view = { λ a. map value_of_pair a.pairs };
}

impl<'a, T, P> Iterator for Iter<'a, T, P> {
    type Item = &'a T;

    ghost next_gives = { TakesFirst deref };

    ghost remaining = { λ s. at_most (length s) };

    fn next(&mut self) -> Option<&'a T> {
        Some(self.pairs.next()?.into_value())
    }

    fn size_hint(&self) -> (usize, Option<usize>)
        ensures value { result ≡ (length self.now, Some (length self.now)) }
        ensures lower { IsWithinCount result.0 (at_most (length self.now)) }
        ensures upper { IfSome result.1 (UpTo (at_most (length self.now))) }
    {
        let len = self.len();
        (len, Some(len))
    }
}

impl<'a, T, P> DoubleEndedIterator for Iter<'a, T, P> {
    ghost next_back_gives = { TakesLast deref };

    fn next_back(&mut self) -> Option<&'a T> {
        Some(self.pairs.next_back()?.into_value())
    }
}

impl<'a, T, P> ExactSizeIterator for Iter<'a, T, P> {
    fn len(&self) -> usize {
        self.pairs.len()
    }
}

impl<'a, T, P> FusedIterator for Iter<'a, T, P> {}

impl<'a, T, P> Clone for Iter<'a, T, P> {
    ghost is_clone = { λ s r. r ≡ s };

    ghost is_infallible = { λ _. ⊤ };

    fn clone(&self) -> Result<Self, AllocError> {
        Ok(Iter {
            pairs: self.pairs.clone()?,
        })
    }
}
