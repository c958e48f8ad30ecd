//! Methods that clone lists, and methods that clone the iterators that own the values of a list.
//! Each method requires that the clone of a value or of a separator equals the original.
ghost use Rattle.std.specs.Prelude.{◌≡◌, IfOk};
ghost use Rattle.syn_punctuated.specs.Private.Boxes.{boxed_values};
ghost use Rattle.syn_punctuated.specs.Lists.{values_of, separators_of};

use crate::into_iter::IntoIter;
use crate::into_pairs::IntoPairs;
use crate::punctuated::Punctuated;
use std::alloc::{AllocError, Global};
use std::collections::VecDeque;

/// Clones the value in `last`, if there is one.
fn clone_last<T: Clone + Drop>(
    alloc: Global,
    last: &Option<Box<T>>,
) -> Result<Option<Box<T>>, AllocError>
    requires { (x : T) (y : T) → T.is_clone x y → y ≡ x }
    ensures { IfOk result (λ copy. boxed_values copy ≡ boxed_values last.now) }
{
    match last {
        Some(value) => Ok(Some(Box::new(alloc, value.as_ref().clone()?)?)),
        None => Ok(None),
    }
}

/// Clones the pairs.
fn clone_pairs<T: Clone + Drop, P: Clone + Drop>(
    pairs: &VecDeque<(T, P)>,
) -> Result<VecDeque<(T, P)>, AllocError>
    requires values { (x : T) (y : T) → T.is_clone x y → y ≡ x }
    requires separators { (x : P) (y : P) → P.is_clone x y → y ≡ x }
    ensures { IfOk result (λ copy. copy.items ≡ pairs.now.items) }
{
    let mut copy = VecDeque::with_capacity(*pairs.allocator(), pairs.len())?;
    for i in 0..pairs.len() {
        let pair = &pairs[i];
        let value = pair.0.clone()?;
        copy.push_back((value, pair.1.clone()?))?;
    }
    Ok(copy)
}

impl<T: Clone + Drop, P: Clone + Drop> Punctuated<T, P> {
    /// Clones the list, with its values and separators.
    ///
    /// Returns an error if an allocation fails.
    ///
    /// # Requires
    ///
    /// Every clone of a value or of a separator must equal the original.
    pub fn clone(&self) -> Result<Self, AllocError>
        requires values { (x : T) (y : T) → T.is_clone x y → y ≡ x }
        requires separators { (x : P) (y : P) → P.is_clone x y → y ≡ x }
        ensures values { IfOk result (λ list. values_of list ≡ values_of self.now) }
        ensures separators { IfOk result (λ list. separators_of list ≡ separators_of self.now) }
    {
        let alloc = *self.inner.allocator();
        let mut inner = Vec::with_capacity(alloc, self.inner.len())?;
        for pair in &self.inner {
            let value = pair.0.clone()?;
            inner.push((value, pair.1.clone()?))?;
        }
        let last = clone_last(alloc, &self.last)?;
        Ok(Punctuated { inner, last })
    }
}

impl<T: Clone + Drop, P: Clone + Drop> IntoIter<T, P> {
    /// Clones the iterator, with the remaining values and their separators.
    ///
    /// Returns an error if an allocation fails.
    ///
    /// # Requires
    ///
    /// Every clone of a value or of a separator must equal the original.
    pub fn clone(&self) -> Result<Self, AllocError>
        requires values { (x : T) (y : T) → T.is_clone x y → y ≡ x }
        requires separators { (x : P) (y : P) → P.is_clone x y → y ≡ x }
        ensures { IfOk result (λ copy. copy ≡ self.now) }
    {
        Ok(IntoIter {
            pairs: self.pairs.clone()?,
        })
    }
}

impl<T: Clone + Drop, P: Clone + Drop> IntoPairs<T, P> {
    /// Clones the iterator, with the remaining pairs.
    ///
    /// Returns an error if an allocation fails.
    ///
    /// # Requires
    ///
    /// Every clone of a value or of a separator must equal the original.
    pub fn clone(&self) -> Result<Self, AllocError>
        requires values { (x : T) (y : T) → T.is_clone x y → y ≡ x }
        requires separators { (x : P) (y : P) → P.is_clone x y → y ≡ x }
        ensures { IfOk result (λ copy. copy ≡ self.now) }
    {
        let inner = clone_pairs(&self.inner)?;
        let last = clone_last(*self.inner.allocator(), &self.last)?;
        Ok(IntoPairs { inner, last })
    }
}
