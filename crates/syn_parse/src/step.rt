//! The method `step`, with which a parser reads tokens through a cursor.
ghost use Rattle.std.specs.Prelude.{◌≡◌, Ok, IfSome};
ghost use Rattle.tok_buffer.specs.Cursors.{place_of};
ghost use Rattle.tok_buffer.specs.declared.cursor.Cursor.{Cursor};
ghost use Rattle.syn_parse.specs.Faults.{Refuses, RefusesAt};
ghost use Rattle.syn_parse.specs.State.{forked, state_span};
ghost use Rattle.syn_parse.specs.Steps.{step_state, StepsTo};
ghost use Rattle.tok_buffer.specs.Progress.{StaysIn};
ghost use Rattle.syn_parse.specs.ErrorWords.{refused_at};
ghost use Rattle.syn_parse.specs.declared.step.StepCursor.{StepCursor};

use crate::fault::{Fault, Result};
use crate::stream::ParseBuffer;
use std::alloc::Global;
use std::fmt::Display;
use tok_buffer::{Cursor, Error};
use tok_core::Span;

/// The argument of the function that a parser passes to `ParseBuffer::step`.
///
/// A `StepCursor` provides the cursor of the stream, and creates errors at this cursor.
#[derive(Clone, Copy, Debug)]
pub struct StepCursor<'a> {
    alloc: Global,
    cursor: Cursor<'a>,
    scope_span: Span,
}

impl<'a> StepCursor<'a> {
    /// Returns the cursor at the position of the stream.
    pub fn cursor(self) -> Cursor<'a>
        ensures { place_of result ≡ (step_state self.entry).place }
    {
        self.cursor
    }

    /// Creates an error with the message `message`, in the same way as `ParseBuffer::error`.
    ///
    /// The error is at the position at which the step began.
    pub fn error<T: Display + Drop>(self, message: T) -> Fault
        ensures span { RefusesAt (state_span (step_state self.entry)) result }
        ensures words { IfSome (T.output message)
            (λ words. Refuses (refused_at (step_state self.entry) words) result) }
    {
        Fault::refused(Error::new_at(self.alloc, self.scope_span, self.cursor, message))
    }
}

impl<'a> ParseBuffer<'a> {
    /// Runs `f` on the cursor of the stream, and moves the stream to the cursor that `f` returns.
    ///
    /// Returns the value of `f`. If `f` returns an error, the stream does not move.
    ///
    /// # Requires
    ///
    /// - `f` must be callable on the cursor of the stream.
    /// - The cursor that `f` returns must be empty, or in the same scope and not earlier than the
    ///   cursor of the stream.
    ///
    /// # Examples
    ///
    /// The contract of `f` states that its cursor stays in the scope. The law `reads_go_on` proves
    /// this.
    ///
    /// ```rust
    /// input.step(
    ///     |from|
    ///         ensures { IfOk result (λ r. StaysIn (step_state from.entry).place (place_of r.1)) }
    ///     {
    ///         reads_go_on();
    ///         match from.cursor().literal() {
    ///             Some((literal, rest)) => Ok((literal.clone()?, rest)),
    ///             None => Err(from.error("expected a literal")),
    ///         }
    ///     },
    /// )
    /// ```
    pub fn step<F, R>(&mut self, f: F) -> Result<R>
    where
        F: FnOnce(StepCursor<'a>) -> Result<(R, Cursor<'a>)>,
        requires callable { (from : StepCursor) → step_state from ≡ forked self.old → F.pre f from }
        requires stays { (from : StepCursor) (value : R) (rest : Cursor)
            → step_state from ≡ forked self.old
            → F.post f from (Ok (value, rest)) → StaysIn self.old.place (place_of rest) }
        ensures { (from : StepCursor) × (returned : _) × (step_state from ≡ forked self.old)
            × F.post f from returned × StepsTo self.old returned result self.new }
    {
        let from = StepCursor {
            alloc: self.allocator(),
            cursor: self.cursor(),
            scope_span: self.scope_span(),
        };
        let (value, rest) = f(from)?;
        self.move_to(rest);
        Ok(value)
    }
}
