//! Methods that append many values or pairs to a list, and functions that create a list from them.
ghost use Rattle.std.specs.Prelude.{◌≡◌, [], ◌∷◌, ◌++◌, length, option_to_list, Some, IfOk, IfErr, OnOk, OnErr};
ghost use Rattle.std.specs.Iterator.{IsFiniteIterable};
ghost use Rattle.syn_punctuated.specs.Adds.{ExtendsWithValues, ExtendsWithPairs, ExtendsAfterDefault};
ghost use Rattle.syn_punctuated.specs.Adds.{MadeOfValues, GivesAny, MadeOfPairs, RefusesPairs};
ghost use Rattle.syn_punctuated.specs.Faults.{fault_text};
ghost use Rattle.syn_punctuated.specs.Lists.{values_of, separators_of, IsUnchanged};
ghost use Rattle.syn_punctuated.specs.Pairs.{value_of_pair, separator_of_pair};

use crate::pair::Pair;
use crate::punctuated::Punctuated;
use std::alloc::{AllocError, Global};
use std::fmt;

/// The error type of the calls that create a list from pairs, or append pairs to a list.
#[derive(Clone, Copy, Debug, PartialEq, Eq)]
pub enum PairsFault {
    /// A pair comes after a pair that has no separator (rule P1).
    AfterEnd,
    /// An allocation failed.
    Memory,
}

impl fmt::Display for PairsFault {
    ghost output = { λ fault. Some (fault_text fault) };

    fn fmt<W: fmt::Write>(&self, f: &mut fmt::Formatter<W>) -> fmt::Result {
        f.write_str(match self {
            PairsFault::AfterEnd => "a pair follows one without a separator",
            PairsFault::Memory => "out of memory",
        })
    }
}

impl std::error::Error for PairsFault {}

impl From<AllocError> for PairsFault {
    ghost use Rattle.syn_punctuated.specs.declared.extends.PairsFault.TheVariants.{Memory};

    ghost from_gives = { λ _ fault. fault ≡ Memory };

    fn from(_refused: AllocError) -> Self {
        Self::Memory
    }
}

impl<T: Drop, P: Drop> Punctuated<T, P> {
    /// Appends `pair` to the list.
    ///
    /// # Requires
    ///
    /// The list must be empty or end in a separator.
    fn push_pair(&mut self, pair: Pair<T, P>) -> Result<(), AllocError>
        requires { length (values_of self.old) ≡ length (separators_of self.old) }
        ensures values { OnOk result
            (values_of self.new ≡ values_of self.old ++ value_of_pair pair ∷ []) }
        ensures separators { OnOk result (separators_of self.new
            ≡ separators_of self.old ++ option_to_list (separator_of_pair pair)) }
        ensures err { OnErr result (IsUnchanged self.old self.new) }
    {
        match pair {
            Pair::Punctuated(value, separator) => {
                self.inner.push((value, separator))?;
                Ok(())
            }
            Pair::End(value) => self.push_value(value),
        }
    }

    /// Appends `pairs` to the list, in order.
    ///
    /// # Requires
    ///
    /// The list must be empty or end in a separator.
    fn push_pairs<I: IntoIterator<Item = Pair<T, P>>>(&mut self, pairs: I) -> Result<(), PairsFault>
        requires starts { length (values_of self.old) ≡ length (separators_of self.old) }
        requires ends { IsFiniteIterable I.into_iter_gives I.IntoIter.can_next
            I.IntoIter.remaining pairs }
        ensures { ExtendsWithPairs I.into_iter_gives I.IntoIter.next_gives pairs
            self.old self.new result }
    {
        for pair in pairs {
            if self.last.is_some() {
                return Err(PairsFault::AfterEnd);
            }
            self.push_pair(pair)?;
        }
        Ok(())
    }

    /// Creates a list from `pairs`.
    ///
    /// Returns `AfterEnd` if a pair comes after a pair that has no separator, and `Memory` if an
    /// allocation fails.
    ///
    /// # Requires
    ///
    /// `pairs` must yield a finite number of pairs.
    pub fn from_pairs<I: IntoIterator<Item = Pair<T, P>>>(
        alloc: Global,
        pairs: I,
    ) -> Result<Self, PairsFault>
        requires { IsFiniteIterable I.into_iter_gives I.IntoIter.can_next
            I.IntoIter.remaining pairs }
        ensures ok { IfOk result (MadeOfPairs I.into_iter_gives I.IntoIter.next_gives pairs) }
        ensures err { IfErr result (RefusesPairs I.into_iter_gives I.IntoIter.next_gives pairs) }
    {
        let mut list = Punctuated::new(alloc);
        list.push_pairs(pairs)?;
        Ok(list)
    }
}

impl<T: Drop, P: Default + Drop> Punctuated<T, P> {
    /// Appends the values of `items` to the list, in order.
    ///
    /// Before each value, the call appends a default separator if the list ends in a value without
    /// a separator.
    ///
    /// Returns an error if an allocation fails. After an error, the list contains the values that
    /// were already appended, and the current value is dropped.
    ///
    /// # Requires
    ///
    /// `items` must yield a finite number of values.
    pub fn extend_values<I: IntoIterator<Item = T>>(&mut self, items: I) -> Result<(), AllocError>
        requires { IsFiniteIterable I.into_iter_gives I.IntoIter.can_next
            I.IntoIter.remaining items }
        ensures { ExtendsWithValues I.into_iter_gives I.IntoIter.next_gives P.is_default
            items self.old self.new result }
    {
        for value in items {
            self.push(value)?;
        }
        Ok(())
    }

    /// Creates a list from the values of `items`, with default separators between them.
    ///
    /// Returns an error if an allocation fails.
    ///
    /// # Requires
    ///
    /// `items` must yield a finite number of values.
    pub fn from_values<I: IntoIterator<Item = T>>(
        alloc: Global,
        items: I,
    ) -> Result<Self, AllocError>
        requires { IsFiniteIterable I.into_iter_gives I.IntoIter.can_next
            I.IntoIter.remaining items }
        ensures ok { IfOk result
            (MadeOfValues I.into_iter_gives I.IntoIter.next_gives P.is_default items) }
        ensures err { OnErr result (GivesAny I.into_iter_gives I.IntoIter.next_gives items) }
    {
        let mut list = Punctuated::new(alloc);
        list.extend_values(items)?;
        Ok(list)
    }

    /// Appends `pairs` to the list, in order.
    ///
    /// If the list ends in a value without a separator, the call first appends a default separator,
    /// even if `pairs` is empty.
    ///
    /// Returns `AfterEnd` if a pair comes after a pair that has no separator, and `Memory` if an
    /// allocation fails. After an error, the list contains the pairs that were already appended,
    /// and the current pair is dropped.
    ///
    /// # Requires
    ///
    /// `pairs` must yield a finite number of pairs.
    pub fn extend_pairs<I: IntoIterator<Item = Pair<T, P>> + Drop>(
        &mut self,
        pairs: I,
    ) -> Result<(), PairsFault>
        requires { IsFiniteIterable I.into_iter_gives I.IntoIter.can_next
            I.IntoIter.remaining pairs }
        ensures { ExtendsAfterDefault I.into_iter_gives I.IntoIter.next_gives P.is_default
            pairs self.old self.new result }
    {
        if self.last.is_some() {
            self.push_punct(P::default())?;
        }
        self.push_pairs(pairs)
    }
}
