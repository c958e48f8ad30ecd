//! The iterator over the pairs of a list. Contracts represent this iterator as the list of its
//! remaining pairs.
ghost use Rattle.std.specs.Prelude.{◌≡◌, length, ⊤, IfSome};
ghost use Rattle.std.specs.Iterator.{at_most, UpTo};
ghost use Rattle.std.specs.Iterator.SizeHint.{IsWithinCount};
ghost use Rattle.std.specs.Map.Iter.{TakesFirst, TakesLast, ShowsInOrder, ShowsInReverse};
ghost use Rattle.syn_punctuated.specs.Lists.{values_of, separators_of};
ghost use Rattle.syn_punctuated.specs.Paired.{paired};
ghost use Rattle.syn_punctuated.specs.Pairs.{deref_both};

use crate::pair::Pair;
use crate::punctuated::Punctuated;
use std::alloc::AllocError;
use std::iter::FusedIterator;
use std::marker::Model;
use std::slice;

impl<T, P> Punctuated<T, P> {
    /// Returns an iterator over the pairs of the list, in order.
    ///
    /// Each pair contains references to a value and to the separator after it.
    ///
    /// # Examples
    ///
    /// ```rust
    /// let list = Punctuated::<u8, token::Comma>::from_values(alloc, vec![in alloc; 1, 2]?)?;
    /// let mut bare = None;
    /// for pair in list.pairs() {
    ///     if pair.punct().is_none() {
    ///         bare = Some(**pair.value());
    ///     }
    /// }
    /// assert_eq!(rt; bare, Some(2));
    /// ```
    pub fn pairs(&self) -> Pairs<'_, T, P>
        ensures rest { result ≡ paired (values_of self.now) (separators_of self.now) }
        ensures runs { ShowsInOrder (deref_both {X = T} {Y = P}) }
        ensures runs_back { ShowsInReverse (deref_both {X = T} {Y = P}) }
    {
        Pairs {
            inner: self.inner.as_slice().iter(),
            last: self.bare_value(),
        }
    }
}

/// An iterator over the pairs of a list.
///
/// This iterator is created by the `pairs` method of `Punctuated`.
#[derive(Drop, Debug)]
pub struct Pairs<'a, T, P> {
    pub(crate) inner: slice::Iter<'a, (T, P)>,
    pub(crate) last: Option<&'a T>,
}

impl<'a, T, P> Model for Pairs<'a, T, P> {
    ghost use Rattle.std.specs.Prelude.{◌^◌, ◌<◌, List, ◌++◌, length, map};
    ghost use Rattle.std.specs.Slice.Iter.{iter_rest};
    ghost use Rattle.std.specs.Option.{option_copied, option_to_list};
    ghost use Rattle.syn_punctuated.specs.declared.pair.Pair.{Pair};
    ghost use Rattle.syn_punctuated.specs.Pairs.{pair_of, end_of};

    ghost Value = { List (Pair T P) };

    ghost view = { λ a. map pair_of (iter_rest a.inner)
        ++ map end_of (option_to_list (option_copied a.last)) };

    ghost invariant = { λ a. length (iter_rest a.inner) < 2 ^ 63 };
}

impl<'a, T, P> Iterator for Pairs<'a, T, P> {
    type Item = Pair<&'a T, &'a P>;

    ghost next_gives = { TakesFirst deref_both };

    ghost remaining = { λ s. at_most (length s) };

    fn next(&mut self) -> Option<Pair<&'a T, &'a P>> {
        match self.inner.next() {
            Some(pair) => Some(Pair::Punctuated(&pair.0, &pair.1)),
            None => match self.last.take() {
                Some(value) => Some(Pair::End(value)),
                None => None,
            },
        }
    }

    fn size_hint(&self) -> (usize, Option<usize>)
        ensures value { result ≡ (length self.now, Some (length self.now)) }
        ensures lower { IsWithinCount result.0 (at_most (length self.now)) }
        ensures upper { IfSome result.1 (UpTo (at_most (length self.now))) }
    {
        let len = self.len();
        (len, Some(len))
    }
}

impl<'a, T, P> DoubleEndedIterator for Pairs<'a, T, P> {
    ghost next_back_gives = { TakesLast deref_both };

    fn next_back(&mut self) -> Option<Pair<&'a T, &'a P>> {
        if let Some(value) = self.last.take() {
            return Some(Pair::End(value));
        }
        self.inner
            .next_back()
            .map(|pair| Pair::Punctuated(&pair.0, &pair.1))
    }
}

impl<'a, T, P> ExactSizeIterator for Pairs<'a, T, P> {
    fn len(&self) -> usize {
        self.inner.len() + if self.last.is_some() { 1 } else { 0 }
    }
}

impl<'a, T, P> FusedIterator for Pairs<'a, T, P> {}

impl<'a, T, P> Clone for Pairs<'a, T, P> {
    ghost is_clone = { λ s r. r ≡ s };

    ghost is_infallible = { λ _. ⊤ };

    fn clone(&self) -> Result<Self, AllocError> {
        Ok(Pairs {
            inner: self.inner.clone()?,
            last: self.last,
        })
    }
}
