//! An iterator over fields. Contracts describe the iterator as the list of its remaining fields.
ghost use Rattle.std.specs.Prelude.{◌≡◌, ◌==◌, length, IfSome};
ghost use Rattle.std.specs.Iterator.{at_most, UpTo};
ghost use Rattle.std.specs.Iterator.SizeHint.{IsWithinCount};
ghost use Rattle.std.specs.Map.Iter.{TakesFirst, TakesLast, ShowsInOrder, ShowsInReverse, deref};
ghost use Rattle.syn_derive.specs.Fields.{each_field};
ghost use Rattle.syn_derive.specs.declared.data.Field.{Field};

use crate::data::{Field, Fields};
use std::iter::FusedIterator;
use std::marker::Model;
use syn_punctuated::Iter;
use tok_types::token;

impl Fields {
    /// Returns an iterator over the fields, in order.
    ///
    /// The iterator over `Fields::Unit` is empty.
    ///
    /// # Examples
    ///
    /// ```rust
    /// for field in data.fields.iter() {
    ///     if let Visibility::Public(_) = &field.vis {
    ///         count += 1;
    ///     }
    /// }
    /// ```
    pub fn iter(&self) -> FieldsIter<'_>
        ensures rest { result ≡ each_field self.now }
        ensures runs { ShowsInOrder (deref {X = Field}) }
        ensures runs_back { ShowsInReverse (deref {X = Field}) }
    {
        let rest = match self {
            Fields::Named(fields) => Some(fields.named.iter()),
            Fields::Unnamed(fields) => Some(fields.unnamed.iter()),
            Fields::Unit => None,
        };
        ListIter { rest }
    }

    /// Returns the number of fields.
    pub fn len(&self) -> usize
        ensures { result ≡ length (each_field self.now) }
    {
        self.iter().len()
    }

    /// Returns `true` if there are no fields.
    pub fn is_empty(&self) -> bool
        ensures { result ≡ (length (each_field self.now) == 0) }
    {
        self.len() == 0
    }
}

impl<'a> IntoIterator for &'a Fields {
    type Item = &'a Field;

    type IntoIter = FieldsIter<'a>;

    ghost into_iter_gives = { λ fields r.
        (r ≡ each_field fields.now) × ShowsInOrder (deref {X = Field})
        × ShowsInReverse (deref {X = Field}) };

    fn into_iter(self) -> FieldsIter<'a> {
        self.iter()
    }
}

/// An iterator over fields.
///
/// This iterator is created by the `iter` method of `Fields`.
pub type FieldsIter<'a> = ListIter<'a, Field, token::Comma>;

/// An iterator over the values of an optional list.
///
/// The iterator is empty if there is no list.
#[derive(Drop)]
pub struct ListIter<'a, T, P> {
    rest: Option<Iter<'a, T, P>>,
}

impl<'a, T, P> Model for ListIter<'a, T, P> {
    ghost use Rattle.std.specs.Prelude.{List, [], unwrap_or};

    ghost Value = { List T };

    ghost view = { λ a. unwrap_or a.rest [] };
}

impl<'a, T, P> Iterator for ListIter<'a, T, P> {
    type Item = &'a T;

    ghost next_gives = { TakesFirst deref };

    ghost remaining = { λ s. at_most (length s) };

    fn next(&mut self) -> Option<&'a T> {
        match &mut self.rest {
            Some(rest) => rest.next(),
            None => None,
        }
    }

    fn size_hint(&self) -> (usize, Option<usize>)
        ensures value { result ≡ (length self.now, Some (length self.now)) }
        ensures lower { IsWithinCount result.0 (at_most (length self.now)) }
        ensures upper { IfSome result.1 (UpTo (at_most (length self.now))) }
    {
        let len = self.len();
        (len, Some(len))
    }
}

impl<'a, T, P> DoubleEndedIterator for ListIter<'a, T, P> {
    ghost next_back_gives = { TakesLast deref };

    fn next_back(&mut self) -> Option<&'a T> {
        match &mut self.rest {
            Some(rest) => rest.next_back(),
            None => None,
        }
    }
}

impl<'a, T, P> ExactSizeIterator for ListIter<'a, T, P> {
    fn len(&self) -> usize {
        match &self.rest {
            Some(rest) => rest.len(),
            None => 0,
        }
    }
}

impl<'a, T, P> FusedIterator for ListIter<'a, T, P> {}
