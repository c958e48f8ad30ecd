//! Lists of values with separators between them.
ghost use Rattle.std.specs.Prelude.{◌≡◌, [], ◌-◌, ◌==◌, length, slice_get};
ghost use Rattle.std.specs.Option.{option_copied, option_to_list};
ghost use Rattle.syn_punctuated.specs.Private.Boxes.{boxed_values};
ghost use Rattle.syn_punctuated.specs.Lists.{values_of, separators_of, is_trailing};

use std::alloc::Global;

/// A list of values with separators between them. If no separator follows the last value, this
/// value is *bare*.
///
/// A list keeps the allocator that it was created with. Two lists are equal if they have equal
/// values and equal separators, in the same order.
///
/// # Examples
///
/// ```rust
/// let mut list: Punctuated<u8, token::Comma> = Punctuated::new(alloc);
/// list.push(1)?;
/// list.push(2)?;
/// assert_eq!(rt; list.len(), 2);
/// assert_eq!(rt; list.trailing_punct(), false);
/// assert_eq!(rt; list.last(), Some(&2));
/// ```
#[derive(Drop, PartialEq, Eq, Hash)]
pub struct Punctuated<T, P> {
    pub(crate) inner: Vec<(T, P)>,
    pub(crate) last: Option<Box<T>>,
}

impl<T, P> Punctuated<T, P> {
    /// Creates an empty list.
    ///
    /// The list does not allocate until something is added to it.
    pub fn new(alloc: Global) -> Self
        ensures values { values_of result ≡ [] }
        ensures separators { separators_of result ≡ [] }
    {
        Punctuated {
            inner: Vec::new(alloc),
            last: None,
        }
    }

    /// Returns `true` if the list has no values.
    pub fn is_empty(&self) -> bool
        ensures { result ≡ (length (values_of self.now) == 0) }
    {
        self.len() == 0
    }

    /// Returns the number of values in the list.
    pub fn len(&self) -> usize
        ensures { result ≡ length (values_of self.now) }
    {
        self.inner.len() + if self.last.is_some() { 1 } else { 0 }
    }

    /// Returns a reference to the first value, or `None` if the list is empty.
    pub fn first(&self) -> Option<&T>
        ensures { option_copied result ≡ slice_get (values_of self.now) 0 }
    {
        self.get(0)
    }

    /// Returns a reference to the last value, or `None` if the list is empty.
    pub fn last(&self) -> Option<&T>
        ensures { option_copied result
            ≡ slice_get (values_of self.now) (length (values_of self.now) - 1) }
    {
        self.get(self.len().saturating_sub(1))
    }

    /// Returns a reference to the value at `index`, or `None` if `index` is out of bounds.
    pub fn get(&self, index: usize) -> Option<&T>
        ensures { option_copied result ≡ slice_get (values_of self.now) index }
    {
        let count = self.inner.len();
        if index < count {
            Some(&self.inner[index].0)
        } else if index == count {
            self.bare_value()
        } else {
            None
        }
    }

    /// Returns `true` if the list ends in a separator.
    pub fn trailing_punct(&self) -> bool
        ensures { result ≡ is_trailing self.now }
    {
        self.empty_or_trailing() && !self.is_empty()
    }

    /// Returns `true` if the list is empty or ends in a separator.
    pub fn empty_or_trailing(&self) -> bool
        ensures { result ≡ (length (values_of self.now) == length (separators_of self.now)) }
    {
        self.last.is_none()
    }

    /// Returns the last value if no separator follows it, and `None` otherwise.
    pub(crate) fn bare_value(&self) -> Option<&T>
        ensures { option_to_list (option_copied result) ≡ boxed_values self.now.last }
    {
        self.last.as_deref()
    }
}
