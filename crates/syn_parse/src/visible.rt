//! Methods that parse the next visible tree, or all remaining trees of a scope.
ghost use Rattle.std.specs.Prelude.{◌≡◌, true, IfOk, OnErr, OnOk};
ghost use Rattle.tok_buffer.specs.Place.{is_at_end};
ghost use Rattle.tok_buffer.specs.Rest.{rest};
ghost use Rattle.tok_buffer.specs.Trees.{erased_tree};
ghost use Rattle.tok_core.specs.Erase.{erase};
ghost use Rattle.tok_core.specs.Seen.{tree_of};
ghost use Rattle.syn_parse.specs.State.{moved};
ghost use Rattle.syn_parse.specs.Takes.{TakesAs};
ghost use Rattle.syn_parse.specs.TreeTakes.{VisibleTreeParses, take_rest, take_tree};

use crate::fault::Result;
use crate::stream::ParseBuffer;
use tok_core::{TokenStream, TokenTree};

impl<'a> ParseBuffer<'a> {
    /// Parses the next visible tree, which may be of any kind.
    ///
    /// The call first enters every invisible group that is next. The result includes the invisible
    /// groups inside the tree.
    ///
    /// # Examples
    ///
    /// ```rust
    /// let value = input.visible_tree()?;
    /// ```
    #[tactic(auto, using(crate::proofs::TreeTakes::tree_told))]
    pub fn visible_tree(&mut self) -> Result<TokenTree>
        ensures reads { VisibleTreeParses self.old result self.new }
        ensures takes { TakesAs (λ t. erased_tree (tree_of t)) take_tree self.old result self.new }
    {
        self.read_visible()
    }

    // Does what `visible_tree` does.
    fn read_visible(&mut self) -> Result<TokenTree>
        ensures { VisibleTreeParses self.old result self.new }
    {
        let alloc = self.allocator();
        let Some((tree, rest)) = self.cursor().visible_tree(alloc)? else {
            return Err(self.refuse("expected token tree"));
        };
        self.move_to(rest);
        Ok(tree)
    }

    /// Parses all remaining trees of the scope, and moves the stream to the end of the scope.
    ///
    /// The result includes the remaining invisible groups. After the call, the stream is still in
    /// its scope. In contrast, `TokenStream::parse` moves the stream to the empty cursor.
    ///
    /// # Examples
    ///
    /// ```rust
    /// let arguments = input.rest()?;
    /// ```
    pub fn rest(&mut self) -> Result<TokenStream>
        ensures trees { IfOk result (λ stream. stream ≡ rest self.old.place) }
        ensures ends { OnOk result (is_at_end self.new.place ≡ true) }
        ensures moves { OnOk result (self.new ≡ moved self.new.place self.old) }
        ensures stays { OnErr result (self.new ≡ self.old) }
        ensures takes { TakesAs erase take_rest self.old result self.new }
    {
        let stream = self.cursor().token_stream(self.allocator())?;
        self.move_to(self.cursor().scope_end());
        Ok(stream)
    }
}
