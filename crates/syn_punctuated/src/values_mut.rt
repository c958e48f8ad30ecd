//! Methods that return mutable references to the values of a list.
ghost use Rattle.std.specs.Prelude.{◌≡◌, ◌-◌, ◌<◌, length, vec_len, slice_get, slice_index_or, Some};
ghost use Rattle.std.specs.Borrow.{sem};
ghost use Rattle.std.specs.Option.{option_copied_mut};
ghost use Rattle.syn_punctuated.specs.Lists.{values_of};
ghost use Rattle.syn_punctuated.specs.Lends.{lends_pair_value, lends_last_value, LendsValue, LendsValueAt};

use crate::punctuated::Punctuated;
use std::ops::{Index, IndexMut};

impl<T, P> Punctuated<T, P> {
    /// Returns a mutable reference to the value of the pair at `index`.
    fn pair_value_mut(&mut self, index: usize) -> &mut T
        requires { index < vec_len self.old.inner }
        ensures* writes_back { sem 𝓛 (lends_pair_value T.row P.row self.entry index result) }
        ensures value { slice_get (values_of self.old) index ≡ Some result.now }
    {
        &mut self.inner[index].0
    }

    /// Returns a mutable reference to the last value, if no separator follows it.
    fn last_value_mut(&mut self) -> Option<&mut T>
        ensures* writes_back { sem 𝓛 (lends_last_value T.row P.row self.entry result) }
        ensures value { slice_get (values_of self.old) (vec_len self.old.inner)
            ≡ option_copied_mut result }
    {
        match &mut self.last {
            Some(value) => Some(value.as_mut()),
            None => None,
        }
    }

    /// Returns a mutable reference to the value at `index`, or `None` if `index` is out of bounds.
    /// The rest of the list does not change.
    pub fn get_mut(&mut self, index: usize) -> Option<&mut T>
        ensures* writes_back { sem 𝓛 (LendsValue T.row P.row self.entry index result) }
        ensures value { option_copied_mut result ≡ slice_get (values_of self.old) index }
    {
        let count = self.inner.len();
        if index < count {
            return Some(self.pair_value_mut(index));
        }
        if index == count {
            return self.last_value_mut();
        }
        None
    }

    /// Returns a mutable reference to the first value, or `None` if the list is empty.
    pub fn first_mut(&mut self) -> Option<&mut T>
        ensures* writes_back { sem 𝓛 (LendsValue T.row P.row self.entry 0 result) }
        ensures value { option_copied_mut result ≡ slice_get (values_of self.old) 0 }
    {
        self.get_mut(0)
    }

    /// Returns a mutable reference to the last value, or `None` if the list is empty.
    pub fn last_mut(&mut self) -> Option<&mut T>
        ensures* writes_back { sem 𝓛
            (LendsValue T.row P.row self.entry (length (values_of self.old) - 1) result) }
        ensures value { option_copied_mut result
            ≡ slice_get (values_of self.old) (length (values_of self.old) - 1) }
    {
        let last = self.len().saturating_sub(1);
        self.get_mut(last)
    }
}

impl<T, P> Index<usize> for Punctuated<T, P> {
    type Output = T;

    ghost can_index = { λ list i. i < length (values_of list) };

    ghost index_gives = { λ list i x. x ≡ slice_index_or (values_of list) i x };

    fn index(&self, index: usize) -> &T {
        let count = self.inner.len();
        if index < count {
            return &self.inner[index].0;
        }
        match &self.last {
            Some(value) => value,
            None => unreachable!(),
        }
    }
}

impl<T, P> IndexMut<usize> for Punctuated<T, P> {
    fn index_mut(&mut self, index: usize) -> &mut T
        requires { index < length (values_of self.old) }
        ensures* writes_back { sem 𝓛 (LendsValueAt T.row P.row self.entry index result) }
        ensures value { result.now ≡ slice_index_or (values_of self.old) index result.now }
    {
        if index < self.inner.len() {
            return self.pair_value_mut(index);
        }
        match self.last_value_mut() {
            Some(value) => value,
            None => unreachable!(),
        }
    }
}
