//! Callers of `syn_parse`, which parse a field, choose by lookahead, try a parser on a fork, and
//! call `step`. One of the parsers is recursive.
ghost use Rattle.std.specs.Prelude.{◌<◌, IfOk, codes};
ghost use Rattle.tok_buffer.specs.Progress.{remaining};
ghost use Rattle.tok_buffer.specs.Reads.{read_tree};
ghost use Rattle.syn_parse.specs.Parses.{IsTree, TreeParses};
ghost use Rattle.syn_parse.specs.Steps.{StepReads, step_state};
ghost use Rattle.syn_parse.specs.ErrorWords.{refused_at};
ghost use Rattle.syn_parse.specs.Takes.{Takes};
ghost use Rattle.example_callers.specs.Fields.{FieldParses, OptionalFieldParses};
ghost use Rattle.example_callers.specs.Nested.{CountsEntries, CountsEntry};
ghost use Rattle.example_callers.specs.Streams.{ChoosesKind, take_kind};

use syn_parse::laws::{forks_follow, parses_go_on};
use syn_parse::{Fault, ParseStream, Result};
use tok_buffer::laws::{entries_go_on, reads_go_on, reads_keep_scope};
use tok_core::{Delimiter, Ident, TokenTree};
use tok_types::token;

/// A field of the form `name: Kind`.
#[derive(Drop)]
pub struct Field {
    pub name: Ident,
    pub kind: Ident,
}

// Parses a field. The error is at the first of its three parts that is missing.
fn parse_field(input: ParseStream<'_, '_>) -> Result<Field>
    ensures { FieldParses input.old result input.new }
{
    let name = input.parse()?;
    let _: token::Colon = input.parse()?;
    Ok(Field {
        name,
        kind: input.parse()?,
    })
}

/// The kind of an item: a function or a structure.
#[derive(Clone, Copy, PartialEq, Eq)]
pub enum Kind {
    Function,
    Structure,
}

/// Returns the kind of the next item.
///
/// A lookahead chooses the kind by the keyword of the item. The keyword remains unread.
pub fn next_kind(input: ParseStream<'_, '_>) -> Result<Kind>
    ensures chooses { ChoosesKind input.old result input.new }
    ensures takes { Takes take_kind input.old result input.new }
{
    let mut lookahead = input.lookahead1();
    if lookahead.peek::<token::Fn>()? {
        Ok(Kind::Function)
    } else if lookahead.peek::<token::Struct>()? {
        Ok(Kind::Structure)
    } else {
        Err(lookahead.error())
    }
}

/// Parses the next token tree by calling `step` on the stream.
pub fn next_tree(input: ParseStream<'_, '_>) -> Result<TokenTree>
    ensures { TreeParses input.old result input.new }
{
    reads_go_on();
    let alloc = input.allocator();
    input.step(
        |from|
            ensures { StepReads IsTree (read_tree (step_state from.entry).place)
                (refused_at (step_state from.entry) (codes "expected token tree")) result }
        {
            match from.cursor().token_tree(alloc)? {
                Some((next, rest)) => Ok((next, rest)),
                None => Err(from.error("expected token tree")),
            }
        },
    )
}

/// Parses a field on a fork, or returns `None` if no field is next.
///
/// If no field is next, the stream does not move.
pub fn optional_field(input: ParseStream<'_, '_>) -> Result<Option<Field>>
    ensures { OptionalFieldParses input.old result input.new }
{
    reads_keep_scope();
    forks_follow();
    let mut fork = input.fork();
    match parse_field(&mut fork) {
        Ok(field) => {
            input.advance_to(fork);
            Ok(Some(field))
        }
        Err(fault) => {
            fork.discard();
            match fault {
                Fault::Refused(_) => Ok(None),
                Fault::Memory(error) => Err(Fault::Memory(error)),
            }
        }
    }
}

/// Counts the names in an entry, which is a name or a list of entries in parentheses.
///
/// For example, the entry `(a (b) ((c)))` contains 3 names. The count does not exceed `u64::MAX`.
///
/// The contract does not say where the stream is after an error.
#[cycle(nested)]
#[tactic(auto, unfolding(syn_parse::specs::Reads::Does))]
pub fn count_names(input: ParseStream<'_, '_>) -> Result<u64>
    ensures counts { CountsEntry input.old result input.new }
    ensures lowers { IfOk result (λ _. remaining input.new.place < remaining input.old.place) }
{
    entries_go_on();
    parses_go_on();
    if input.peek::<Ident>() {
        let _: Ident = input.parse()?;
        Ok(1)
    } else {
        let (_, count) = input.within(
            Delimiter::Parenthesis,
            |content|
                ensures { CountsEntries content.old result content.new }
            { count_all(content) },
        )?;
        Ok(count)
    }
}

// Counts the names of all entries that are left.
#[cycle(nested)]
fn count_all(input: ParseStream<'_, '_>) -> Result<u64>
    ensures { CountsEntries input.old result input.new }
{
    let mut count = 0u64;
    while !input.is_empty() {
        count = count.saturating_add(count_names(input)?);
    }
    Ok(count)
}
