//! The trait of types that can be parsed, and the methods of a stream that parse and peek.
ghost use Rattle.std.specs.Prelude.{Result};
ghost use Rattle.syn_parse.specs.Reads.{BoxParses, Does, OptionParses, Peeks2, Peeks3};
ghost use Rattle.syn_parse.specs.Skips.{second_sees, third_sees};
ghost use Rattle.syn_parse.specs.State.{State};
ghost use Rattle.syn_parse.specs.Takings.{Keeps, Takings, boxed, untold};
ghost use Rattle.syn_parse.specs.Optional.{optional};
ghost use Rattle.tok_types.specs.Sees.{Sees};
ghost use Rattle.syn_parse.specs.declared.fault.Fault.{Fault};

use crate::fault::Result;
use crate::stream::{ParseBuffer, ParseStream};
use tok_types::token::Token;

/// A type whose values can be parsed from a stream.
///
/// To parse a type of your own, implement the function `parse`. You may also add a contract that
/// states what `parse` does.
///
/// # Examples
///
/// ```rust
/// impl Parse for Name {
///     fn parse(input: ParseStream<'_, '_>) -> Result<Self> {
///         Ok(Name {
///             ident: input.parse()?,
///         })
///     }
/// }
/// ```
pub trait Parse: Sized {
    // Relates the stream before a call, its result and the stream after it. Of a type that states
    // nothing, nothing is known.
    ghost parses: { State → Result Self Fault → State → Type 0 } = { λ _ _ _. Unit {0} };

    // What is taken of the visible trees ahead.
    ghost takes: { Takings Self } = { untold };

    /// Parses a value of this type, and moves the stream past the tokens of the value.
    fn parse(input: ParseStream<'_, '_>) -> Result<Self>
        ensures reads { parses input.old result input.new }
        ensures takes { Keeps takes input.old result input.new };
}

impl<'a> ParseBuffer<'a> {
    /// Parses a value of type `T`, and moves the stream past the tokens of the value.
    ///
    /// # Examples
    ///
    /// ```rust
    /// let name: Ident = input.parse()?;
    /// ```
    // Inlined: a call that only makes a call would pass each value through memory once more.
    #[inline(always)]
    #[tactic(auto, using(crate::specs::Reads::as_does))]
    pub fn parse<T: Parse>(&mut self) -> Result<T>
        ensures reads { Does T.parses self.old result self.new }
        ensures takes { Keeps T.takes self.old result self.new }
    {
        T::parse(self)
    }

    /// Returns `true` if the next token is a `T`. The stream does not move.
    ///
    /// # Examples
    ///
    /// ```rust
    /// if input.peek::<token::Comma>() {
    ///     let _: token::Comma = input.parse()?;
    /// }
    /// ```
    pub fn peek<T: Token>(&self) -> bool
        ensures peeks { T.peeks self.now.place result }
        ensures sees { Sees T.sees self.now.place result }
    {
        T::peek(self.cursor())
    }

    /// Returns `true` if the token after the next token is a `T`. The stream does not move.
    #[tactic(auto, using(crate::proofs::Skips::none_next, crate::proofs::Skips::seen_next))]
    pub fn peek2<T: Token>(&self) -> bool
        ensures peeks { Peeks2 T.peeks self.now.place result }
        ensures sees { Sees (second_sees T.sees) self.now.place result }
    {
        match self.cursor().skip() {
            Some(second) => T::peek(second),
            None => false,
        }
    }

    /// Returns `true` if the token after the next two tokens is a `T`. The stream does not move.
    #[tactic(auto, using(crate::proofs::Skips::none_next, crate::proofs::Skips::seen_next))]
    pub fn peek3<T: Token>(&self) -> bool
        ensures peeks { Peeks3 T.peeks self.now.place result }
        ensures sees { Sees (third_sees T.sees) self.now.place result }
    {
        let Some(second) = self.cursor().skip() else {
            return false;
        };
        match second.skip() {
            Some(third) => T::peek(third),
            None => false,
        }
    }
}

/// Parses a `T` if a peek finds a `T`. Otherwise, returns `None`, and the stream does not move.
impl<T: Parse + Token> Parse for Option<T> {
    ghost parses = { OptionParses T.peeks T.parses };

    ghost takes = { optional T.sees T.takes };

    #[tactic(auto, unfolding(crate::specs::Optional::take_optional))]
    fn parse(input: ParseStream<'_, '_>) -> Result<Self> {
        if T::peek(input.cursor()) {
            Ok(Some(T::parse(input)?))
        } else {
            Ok(None)
        }
    }
}

/// Parses a `T`, and moves the value into a box.
///
/// If the allocation of the box fails, returns an error, and the stream is after the value.
impl<T: Parse + Drop> Parse for Box<T> {
    ghost parses = { BoxParses T.parses };

    ghost takes = { boxed T.takes };

    fn parse(input: ParseStream<'_, '_>) -> Result<Self> {
        let alloc = input.allocator();
        let value = T::parse(input)?;
        Ok(Box::new(alloc, value)?)
    }
}
