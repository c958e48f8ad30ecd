//! Additional methods for identifiers and lifetimes, which accept reserved words.
ghost use Rattle.std.specs.Prelude.{Result, IfOk};
ghost use Rattle.syn_parse.specs.Parses.{AnyIdentParses, AnyLifetimeParses, IsUnraw};
ghost use Rattle.syn_parse.specs.Lighter.{lowers_token};
ghost use Rattle.syn_parse.specs.State.{State};
ghost use Rattle.syn_parse.specs.Takings.{Keeps, Takings, lower, told};
ghost use Rattle.syn_parse.specs.Tokens.{take_any_ident, take_any_lifetime};
ghost use Rattle.syn_parse.specs.declared.fault.Fault.{Fault};

use crate::fault::Result;
use crate::stream::ParseStream;
use std::alloc::{AllocError, Global};
use tok_buffer::Lifetime;
use tok_core::Ident;

/// Additional methods for `Ident`.
pub trait IdentExt: Sized {
    // Relates the stream before `parse_any`, its result and the stream after it.
    ghost any_parses: { State → Result Self Fault → State → Type 0 };

    // What is taken of the visible trees ahead.
    ghost any_takes: { Takings Self };

    /// Parses an identifier, which may be a reserved word.
    ///
    /// # Examples
    ///
    /// ```rust
    /// let word = Ident::parse_any(input)?;
    /// ```
    fn parse_any(input: ParseStream<'_, '_>) -> Result<Self>
        ensures reads { any_parses input.old result input.new }
        ensures takes { Keeps any_takes input.old result input.new };

    // Relates an identifier and the one without `r#`.
    ghost is_unraw: { Self → Self → Type 0 };

    /// Creates a copy of the identifier without a leading `r#`, like `Ident::unraw`.
    ///
    /// Returns an error if the allocation fails.
    fn unraw(&self, alloc: Global) -> std::result::Result<Self, AllocError>
        ensures { IfOk result (is_unraw self.now) };
}

impl IdentExt for Ident {
    ghost any_parses = { AnyIdentParses };

    ghost any_takes = { told (λ v. v) take_any_ident (lower (lowers_token _)) };

    ghost is_unraw = { IsUnraw };

    #[tactic(auto, using(crate::proofs::Told::token_told))]
    fn parse_any(input: ParseStream<'_, '_>) -> Result<Self> {
        any_ident(input)
    }

    fn unraw(&self, alloc: Global) -> std::result::Result<Self, AllocError> {
        Ident::unraw(self, alloc)
    }
}

/// An additional method for `Lifetime`.
pub trait LifetimeExt: Sized {
    // Relates the stream before `parse_any`, its result and the stream after it.
    ghost any_parses: { State → Result Self Fault → State → Type 0 };

    // What is taken of the visible trees ahead.
    ghost any_takes: { Takings Self };

    /// Parses a lifetime, whose name may be a reserved word.
    fn parse_any(input: ParseStream<'_, '_>) -> Result<Self>
        ensures reads { any_parses input.old result input.new }
        ensures takes { Keeps any_takes input.old result input.new };
}

impl LifetimeExt for Lifetime {
    ghost any_parses = { AnyLifetimeParses };

    ghost any_takes = { told (λ v. v) take_any_lifetime (lower (lowers_token _)) };

    #[tactic(auto, using(crate::proofs::Told::token_told))]
    fn parse_any(input: ParseStream<'_, '_>) -> Result<Self> {
        any_lifetime(input)
    }
}

// Does what `Ident::parse_any` does.
fn any_ident(input: ParseStream<'_, '_>) -> Result<Ident>
    ensures { AnyIdentParses input.old result input.new }
{
    let Some((ident, rest)) = input.cursor().ident() else {
        return Err(input.refuse("expected ident"));
    };
    // A short one is returned apart, and so goes through memory once less. In one arm with longer
    // ones, a call would take 111 instructions and not 96.
    if let Some(short) = ident.copied_if_short() {
        input.move_to(rest);
        return Ok(short);
    }
    let copy = ident.clone()?;
    input.move_to(rest);
    Ok(copy)
}

// Does what `Lifetime::parse_any` does.
fn any_lifetime(input: ParseStream<'_, '_>) -> Result<Lifetime>
    ensures { AnyLifetimeParses input.old result input.new }
{
    let Some((lifetime, rest)) = input.cursor().lifetime() else {
        return Err(input.refuse("expected lifetime"));
    };
    let apostrophe = lifetime.apostrophe;
    // As in `any_ident`.
    if let Some(ident) = lifetime.ident.copied_if_short() {
        input.move_to(rest);
        return Ok(Lifetime { apostrophe, ident });
    }
    let ident = lifetime.ident.clone()?;
    input.move_to(rest);
    Ok(Lifetime { apostrophe, ident })
}
