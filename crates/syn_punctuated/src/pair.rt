//! The type `Pair`, which is a value of a list together with the separator after it.
ghost use Rattle.std.specs.Prelude.{◌≡◌, Some, None, IfOk};
ghost use Rattle.std.specs.Borrow.{sem};
ghost use Rattle.std.specs.Option.{option_copied, option_copied_mut};
ghost use Rattle.syn_punctuated.specs.Pairs.{value_of_pair, separator_of_pair, deref_both};
ghost use Rattle.syn_punctuated.specs.PairLends.{LendsPairValue, LendsPairSeparator};

use std::alloc::AllocError;

/// A value of a list, together with the separator after the value if there is one.
#[derive(Clone, Copy, Debug, Drop, PartialEq, Eq, Hash)]
pub enum Pair<T, P> {
    /// A value and the separator after it.
    Punctuated(T, P),
    /// The last value of a list, without a separator after it.
    End(T),
}

impl<T, P> Pair<T, P> {
    /// Creates a pair from `value` and the separator after it, if there is a separator.
    pub fn new(value: T, separator: Option<P>) -> Self
        ensures value { value_of_pair result ≡ value }
        ensures separator { separator_of_pair result ≡ separator }
    {
        match separator {
            Some(separator) => Pair::Punctuated(value, separator),
            None => Pair::End(value),
        }
    }

    /// Returns the value of the pair, and drops the separator.
    pub fn into_value(self) -> T
    where
        P: Drop,
        ensures { result ≡ value_of_pair self }
    {
        match self {
            Pair::Punctuated(value, _separator) => value,
            Pair::End(value) => value,
        }
    }

    /// Returns a reference to the value of the pair.
    pub fn value(&self) -> &T
        ensures { result.now ≡ value_of_pair self.now }
    {
        match self {
            Pair::Punctuated(value, _) | Pair::End(value) => value,
        }
    }

    /// Returns a mutable reference to the value of the pair. The separator does not change.
    pub fn value_mut(&mut self) -> &mut T
        ensures* writes_back { sem 𝓛 (LendsPairValue T.row P.row self.entry result) }
        ensures value { result.now ≡ value_of_pair self.old }
    {
        match self {
            Pair::Punctuated(value, _) => value,
            Pair::End(value) => value,
        }
    }

    /// Returns a reference to the separator, or `None` if the pair has no separator.
    pub fn punct(&self) -> Option<&P>
        ensures { option_copied result ≡ separator_of_pair self.now }
    {
        match self {
            Pair::Punctuated(_, separator) => Some(separator),
            Pair::End(_) => None,
        }
    }

    /// Returns a mutable reference to the separator, or `None` if the pair has no separator. The
    /// value does not change.
    pub fn punct_mut(&mut self) -> Option<&mut P>
        ensures* writes_back { sem 𝓛 (LendsPairSeparator T.row P.row self.entry result) }
        ensures separator { option_copied_mut result ≡ separator_of_pair self.old }
    {
        match self {
            Pair::Punctuated(_value, separator) => Some(separator),
            Pair::End(_) => None,
        }
    }

    /// Returns the value of the pair, and the separator if there is one.
    pub fn into_tuple(self) -> (T, Option<P>)
        ensures value { result.0 ≡ value_of_pair self }
        ensures separator { result.1 ≡ separator_of_pair self }
    {
        match self {
            Pair::Punctuated(value, separator) => (value, Some(separator)),
            Pair::End(value) => (value, None),
        }
    }
}

impl<T: Clone + Drop, P: Clone> Pair<&T, &P> {
    /// Clones the value and the separator of the pair.
    ///
    /// Returns an error if an allocation fails.
    ///
    /// # Requires
    ///
    /// Every clone of a value or of a separator must equal the original.
    pub fn cloned(self) -> Result<Pair<T, P>, AllocError>
        requires values { (x : T) (y : T) → T.is_clone x y → y ≡ x }
        requires separators { (x : P) (y : P) → P.is_clone x y → y ≡ x }
        ensures { IfOk result (λ pair. pair ≡ deref_both self.entry) }
    {
        match self {
            Pair::Punctuated(value, separator) => {
                let value = value.clone()?;
                Ok(Pair::Punctuated(value, separator.clone()?))
            }
            Pair::End(value) => Ok(Pair::End(value.clone()?)),
        }
    }
}
