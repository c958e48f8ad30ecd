//! Functions that read from one stream, and return the answer to a command.
ghost use Rattle.std.specs.Prelude.{◌≡◌, ◌∷◌, [], map, IfOk};
ghost use Rattle.tok_core.specs.Forest.{forest};
ghost use Rattle.tok_core.specs.Seen.{tree_of};
ghost use Rattle.syn_replay.specs.Commands as commands;
ghost use Rattle.syn_replay.specs.Session.Reading.{GivesAnswer, IsRead};
ghost use Rattle.syn_replay.specs.Commands.{looked};
ghost use Rattle.syn_replay.specs.Meanings.{kind_of, look_of};

use crate::command::{Kind, Look};
use crate::report::Answer;
use crate::session::tokens;
use std::alloc::{AllocError, Global};
use syn_parse::{Parse, ParseBuffer, ParseStream, Result};
use tok_core::{Group, TokenStream, TokenTree};

// Parses a token of this kind.
fn parse(input: ParseStream<'_, '_>, kind: Kind) -> Result<Answer>
    ensures { IsRead (commands.parse (kind_of kind)) input.old result input.new }
{
    Ok(Answer::Read(tokens::parse(input, kind)?))
}

/// Parses a token of this kind, if it is next.
pub fn optional(input: ParseStream<'_, '_>, kind: Kind) -> Result<Answer>
    ensures { IsRead (commands.optional (kind_of kind)) input.old result input.new }
{
    if kind.peek(input.cursor()) {
        parse(input, kind)
    } else {
        Ok(Answer::Absent)
    }
}

/// Finds the first of these looks that is true. If none is, the error names them all.
pub fn look_ahead(input: &ParseBuffer<'_>, looks: &[Look]) -> Result<Answer>
    ensures { GivesAnswer
        (looked 0 (map look_of looks.now) [] input.now.place input.now.scope_span) result }
{
    let cursor = input.cursor();
    let mut lookahead = input.lookahead1();
    for (index, look) in looks.iter().enumerate() {
        if lookahead.peek_as(look.peek(cursor), look.display())? {
            return Ok(Answer::Found(index));
        }
    }
    Err(lookahead.error())
}

/// Parses the next tree.
pub fn tree(input: ParseStream<'_, '_>) -> Result<Answer>
    ensures { IsRead commands.next_tree input.old result input.new }
{
    let alloc = input.allocator();
    let tree = TokenTree::parse(input)?;
    Ok(Answer::Trees(only(alloc, tree)?))
}

/// Parses the next tree if it is a visible group.
pub fn group(input: ParseStream<'_, '_>) -> Result<Answer>
    ensures { IsRead commands.next_group input.old result input.new }
{
    let alloc = input.allocator();
    let group = Group::parse(input)?;
    Ok(Answer::Trees(only(alloc, TokenTree::Group(group))?))
}

// Returns a stream of one tree.
fn only(alloc: Global, tree: TokenTree) -> std::result::Result<TokenStream, AllocError>
    ensures { IfOk result (λ f. f ≡ forest (tree_of tree ∷ [])) }
{
    let mut stream = TokenStream::new(alloc);
    stream.append(tree)?;
    Ok(stream)
}
