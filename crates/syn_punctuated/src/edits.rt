//! Methods that add values and separators to a list, and methods that remove them.
ghost use Rattle.std.specs.Prelude.{◌≡◌, ◌+◌, ◌≤◌, ◌<◌, [], ◌∷◌, ◌++◌, length, take, true, is_some, option_map};
ghost use Rattle.std.specs.Prelude.{option_and_then, option_to_list, IfOk, OnErr, OnOk, IfNone};
ghost use Rattle.std.specs.List.{insert};
ghost use Rattle.syn_punctuated.specs.Lists.{values_of, separators_of, is_trailing};
ghost use Rattle.syn_punctuated.specs.Lists.{IsUnchanged, AddsDefault, InsertsDefault};
ghost use Rattle.syn_punctuated.specs.Pairs.{value_of_pair, separator_of_pair};

use crate::pair::Pair;
use crate::punctuated::Punctuated;
use std::alloc::AllocError;

impl<T: Drop, P: Drop> Punctuated<T, P> {
    /// Appends `value` to the list, without a separator after it.
    ///
    /// Returns an error if an allocation fails. The list is then unchanged, and `value` is dropped.
    ///
    /// # Requires
    ///
    /// The list must be empty or end in a separator.
    pub fn push_value(&mut self, value: T) -> Result<(), AllocError>
        requires { length (values_of self.old) ≡ length (separators_of self.old) }
        ensures ok { OnOk result (values_of self.new ≡ values_of self.old ++ value ∷ []) }
        ensures separators { separators_of self.new ≡ separators_of self.old }
        ensures err { OnErr result (IsUnchanged self.old self.new) }
    {
        let alloc = *self.inner.allocator();
        self.last = Some(Box::new(alloc, value)?);
        Ok(())
    }

    /// Appends `separator` to the list, after the last value.
    ///
    /// Returns an error if an allocation fails. The list is then unchanged, and `separator` is
    /// dropped.
    ///
    /// # Requires
    ///
    /// The list must end in a value without a separator.
    pub fn push_punct(&mut self, separator: P) -> Result<(), AllocError>
        requires { length (values_of self.old) ≡ length (separators_of self.old) + 1 }
        ensures ok { OnOk result
            (separators_of self.new ≡ separators_of self.old ++ separator ∷ []) }
        ensures values { values_of self.new ≡ values_of self.old }
        ensures err { OnErr result (IsUnchanged self.old self.new) }
    {
        self.inner.reserve(1)?;
        match self.last.take() {
            Some(value) => self
                .inner
                .push_reserved((Box::into_inner(value), separator)),
            None => unreachable!(),
        }
        Ok(())
    }

    /// Removes the last value and returns it, or `None` if the list is empty.
    ///
    /// The call drops the separator after the value, if there is one. The separator before the
    /// value remains in the list.
    pub fn pop(&mut self) -> Option<T>
        ensures values { values_of self.old ≡ values_of self.new ++ option_to_list result }
        ensures separators { separators_of self.new
            ≡ take (length (values_of self.new)) (separators_of self.old) }
        ensures none { IfNone result (values_of self.old ≡ []) }
    {
        match self.last.take() {
            Some(value) => Some(Box::into_inner(value)),
            None => self.inner.pop().map(|(value, _)| value),
        }
    }

    /// Removes the last separator and returns it, or `None` if the list is empty or ends in a
    /// value.
    ///
    /// The call allocates memory for the value before the separator. If this allocation fails, the
    /// call returns an error and the list is unchanged.
    pub fn pop_punct(&mut self) -> Result<Option<P>, AllocError>
        ensures values { values_of self.new ≡ values_of self.old }
        ensures taken { IfOk result
            (λ taken. separators_of self.old ≡ separators_of self.new ++ option_to_list taken) }
        ensures some { IfOk result (λ taken. is_some taken ≡ is_trailing self.old) }
        ensures err { OnErr result (IsUnchanged self.old self.new) }
        ensures refused { OnErr result (is_trailing self.old ≡ true) }
    {
        if self.last.is_some() {
            return Ok(None);
        }
        let alloc = *self.inner.allocator();
        match self.inner.pop() {
            Some((value, separator)) => match Box::new(alloc, value) {
                Ok(value) => {
                    self.last = Some(value);
                    Ok(Some(separator))
                }
                Err(refused) => {
                    self.inner.push_reserved((refused.value, separator));
                    Err(AllocError)
                }
            },
            None => Ok(None),
        }
    }

    /// Removes the last value and the separator after it, if any, and returns both as a pair.
    ///
    /// Returns `None` if the list is empty.
    pub fn pop_pair(&mut self) -> Option<Pair<T, P>>
        ensures values { values_of self.old
            ≡ values_of self.new ++ option_to_list (option_map value_of_pair result) }
        ensures separators { separators_of self.old
            ≡ separators_of self.new ++ option_to_list (option_and_then separator_of_pair result) }
        ensures none { IfNone result (values_of self.old ≡ []) }
    {
        match self.last.take() {
            Some(value) => Some(Pair::End(Box::into_inner(value))),
            None => self
                .inner
                .pop()
                .map(|(value, separator)| Pair::Punctuated(value, separator)),
        }
    }

    /// Removes all values and separators from the list.
    pub fn clear(&mut self)
        ensures values { values_of self.new ≡ [] }
        ensures separators { separators_of self.new ≡ [] }
    {
        self.inner.clear();
        self.last = None;
    }
}

impl<T: Drop, P: Default + Drop> Punctuated<T, P> {
    /// Appends `value` to the list.
    ///
    /// If the list ends in a value without a separator, the call first appends a default separator.
    ///
    /// Returns an error if an allocation fails. The list is then unchanged, and `value` is dropped.
    pub fn push(&mut self, value: T) -> Result<(), AllocError>
        ensures ok { OnOk result (values_of self.new ≡ values_of self.old ++ value ∷ []) }
        ensures separators { OnOk result (AddsDefault P.is_default self.old self.new) }
        ensures err { OnErr result (IsUnchanged self.old self.new) }
    {
        match &mut self.last {
            Some(last) => {
                self.inner.reserve(1)?;
                let before = Box::replace(last, value);
                self.inner.push_reserved((before, P::default()));
                Ok(())
            }
            None => self.push_value(value),
        }
    }

    /// Inserts `value` at `index`, with a default separator after it.
    ///
    /// If `index` is the length of the list, the call appends `value` in the same way as `push`.
    ///
    /// Returns an error if an allocation fails. The list is then unchanged, and `value` is dropped.
    ///
    /// # Requires
    ///
    /// `index` must be at most the length of the list.
    pub fn insert(&mut self, index: usize, value: T) -> Result<(), AllocError>
        requires { index ≤ length (values_of self.old) }
        ensures ok { OnOk result (values_of self.new ≡ insert (values_of self.old) index value) }
        ensures at_end { OnOk result (index ≡ length (values_of self.old)
            → AddsDefault P.is_default self.old self.new) }
        ensures within { OnOk result (index < length (values_of self.old)
            → InsertsDefault P.is_default index self.old self.new) }
        ensures err { OnErr result (IsUnchanged self.old self.new) }
    {
        if index == self.len() {
            self.push(value)
        } else {
            self.inner.insert(index, (value, P::default()))?;
            Ok(())
        }
    }
}
