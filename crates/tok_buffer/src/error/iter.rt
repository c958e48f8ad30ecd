//! Iterators over the messages of an error. Each item is an error with one message.
ghost use Rattle.std.specs.Prelude.{◌≡◌, length};
ghost use Rattle.std.specs.Iterator.{at_most};
ghost use Rattle.std.specs.Map.Iter.{TakesFirst};

use crate::error::{Error, Message};
use std::alloc::{AllocError, Global};
use std::marker::Model;
use std::{slice, vec};

/// An iterator that moves the messages out of an error.
///
/// Each item is an error with one message. The iterator does not allocate.
#[derive(Drop)]
pub struct IntoIter {
    first: Option<Box<Message>>,
    more: vec::IntoIter<Box<Message>>,
    alloc: Global,
}

/// An iterator over copies of the messages of an error.
///
/// Each item is an error with one message, or an `AllocError` if its allocation fails.
#[derive(Drop)]
pub struct Iter<'a> {
    first: Option<&'a Message>,
    more: slice::Iter<'a, Box<Message>>,
    alloc: Global,
}

impl Model for IntoIter {
    ghost use Rattle.std.specs.Prelude.{List, ◌++◌, option_to_list};
    ghost use Rattle.std.specs.Vec.Iter.{into_iter_items};
    ghost use Rattle.tok_buffer.specs.declared.error.Message.{Message};
    ghost use Rattle.tok_buffer.specs.Messages.{each_message, errors_code, unboxed};

    ghost Value = { List (List Message) };

    ghost coded = { errors_code };

    ghost view = { λ i.
        each_message (unboxed (option_to_list i.first ++ into_iter_items i.more)) };
}

impl<'a> Model for Iter<'a> {
    ghost use Rattle.std.specs.Prelude.{List, ◌++◌};
    ghost use Rattle.std.specs.Option.{option_copied, option_to_list};
    ghost use Rattle.std.specs.Slice.Iter.{iter_rest};
    ghost use Rattle.tok_buffer.specs.declared.error.Message.{Message};
    ghost use Rattle.tok_buffer.specs.Messages.{each_message, errors_code, unboxed};

    ghost Value = { List (List Message) };

    ghost coded = { errors_code };

    ghost view = { λ i.
        each_message (option_to_list (option_copied i.first) ++ unboxed (iter_rest i.more)) };
}

impl Iterator for IntoIter {
    type Item = Error;

    ghost next_gives = { TakesFirst (λ e. e) };

    ghost remaining = { λ errors. at_most (length errors) };

    fn next(&mut self) -> Option<Error> {
        let first = match self.first.take() {
            Some(message) => message,
            None => self.more.next()?,
        };
        Some(Error {
            first,
            more: Vec::new(self.alloc),
        })
    }
}

impl<'a> Iterator for Iter<'a> {
    type Item = Result<Error, AllocError>;

    ghost use Rattle.tok_buffer.specs.Messages.{GivesFirst};

    ghost next_gives = { GivesFirst };

    ghost remaining = { λ errors. at_most (length errors) };

    fn next(&mut self) -> Option<Result<Error, AllocError>> {
        let message = match self.first.take() {
            Some(message) => message,
            None => self.more.next()?.as_ref(),
        };
        match message.boxed_clone(self.alloc) {
            Ok(first) => Some(Ok(Error {
                first,
                more: Vec::new(self.alloc),
            })),
            Err(refused) => Some(Err(refused)),
        }
    }
}

impl IntoIterator for Error {
    type Item = Error;

    type IntoIter = IntoIter;

    ghost use Rattle.tok_buffer.specs.Messages.{each_message};

    ghost into_iter_gives = { λ e errors. errors ≡ each_message e };

    fn into_iter(self) -> IntoIter {
        let Error { first, more } = self;
        let alloc = *more.allocator();
        IntoIter {
            first: Some(first),
            more: more.into_iter(),
            alloc,
        }
    }
}

impl<'a> IntoIterator for &'a Error {
    type Item = Result<Error, AllocError>;

    type IntoIter = Iter<'a>;

    ghost use Rattle.tok_buffer.specs.Messages.{each_message};

    ghost into_iter_gives = { λ e errors. errors ≡ each_message e.now };

    fn into_iter(self) -> Iter<'a> {
        Iter {
            first: Some(self.first.as_ref()),
            more: self.more.as_slice().iter(),
            alloc: *self.more.allocator(),
        }
    }
}
