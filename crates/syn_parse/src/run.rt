//! Methods that parse trees up to a position that a condition selects.
ghost use Rattle.std.specs.Prelude.{◌≡◌, IfOk, OnErr, OnOk, Option};
ghost use Rattle.tok_buffer.specs.Between.{between};
ghost use Rattle.tok_buffer.specs.Cursors.{place_of};
ghost use Rattle.tok_buffer.specs.View.{erased_ahead};
ghost use Rattle.tok_core.specs.Erase.{erase};
ghost use Rattle.tok_core.specs.Forest.{Forest};
ghost use Rattle.syn_parse.specs.Runs.{PassesVisible, take_run, take_run_with_state};
ghost use Rattle.syn_parse.specs.State.{moved};
ghost use Rattle.syn_parse.specs.Takes.{TakesAs};

use crate::fault::Result;
use crate::stream::ParseBuffer;
use tok_buffer::Cursor;
use tok_core::TokenStream;

/// A condition that decides where a run of visible trees ends.
///
/// A value of an implementing type is a state of the condition. The method `pass` returns the state
/// after one more tree, or ends the run.
pub trait Run: Sized + Copy {
    // The state after the first of the visible trees ahead, or nothing if the run ends before it.
    ghost passes: { Self → Forest → Option Self };

    /// Returns the state after the next visible tree, or `None` if the run ends before that tree.
    ///
    /// The call may look at all of the remaining trees, and not only at the next tree. If no
    /// visible tree is left, the run ends even if the call returns a state.
    fn pass(self, cursor: Cursor<'_>) -> Option<Self>
        ensures { result ≡ passes self (erased_ahead (place_of cursor.entry)) };
}

impl<'a> ParseBuffer<'a> {
    /// Parses visible trees until the condition `run` ends the run, and moves the stream directly
    /// after the last of these trees.
    ///
    /// A run may be empty. The result includes an invisible group if the whole group is in the run.
    /// If an allocation fails, returns an error, and the stream does not move.
    #[tactic(auto, unfolding(crate::specs::Runs::take_run))]
    pub fn parse_run<R: Run>(&mut self, run: R) -> Result<TokenStream>
        ensures takes { TakesAs erase (take_run R.passes run) self.old result self.new }
        ensures kept { IfOk result (λ tokens. tokens ≡ between self.old.place self.new.place) }
        ensures place { OnOk result (PassesVisible self.old.place self.new.place) }
        ensures moves { OnOk result (self.new ≡ moved self.new.place self.old) }
        ensures stays { OnErr result (self.new ≡ self.old) }
    {
        let (tokens, _) = self.parse_run_with_state(run)?;
        Ok(tokens)
    }

    /// Parses trees in the same way as `parse_run`, and also returns the state at the end of the
    /// run.
    ///
    /// For example, the state may say which delimiters are still open.
    pub fn parse_run_with_state<R: Run>(&mut self, run: R) -> Result<(TokenStream, R)>
        ensures takes { TakesAs (λ r. (erase r.0, r.1)) (take_run_with_state R.passes run) self.old
            result self.new }
        ensures kept { IfOk result (λ r. r.0 ≡ between self.old.place self.new.place) }
        ensures place { OnOk result (PassesVisible self.old.place self.new.place) }
        ensures moves { OnOk result (self.new ≡ moved self.new.place self.old) }
        ensures stays { OnErr result (self.new ≡ self.old) }
    {
        let start = self.cursor();
        let mut state = run;
        let mut rest = start;
        while let Some(next) = state.pass(rest) {
            let Some(after) = rest.skip_tree() else {
                break;
            };
            state = next;
            rest = after;
        }
        let tokens = start.tokens_up_to(self.allocator(), rest)?;
        self.move_to(rest);
        Ok((tokens, state))
    }
}
