//! A function that finds the structs, enums and unions of a source.
ghost use Rattle.std.specs.Prelude.{◌≡◌, ◌<◌, ◌≤◌, IfOk};
ghost use Rattle.tok_buffer.specs.Cursors.{place_of};
ghost use Rattle.tok_buffer.specs.Place.{empty_place};
ghost use Rattle.tok_buffer.specs.Progress.{remaining};
ghost use Rattle.syn_parse.specs.Steps.{step_state};
ghost use Rattle.outline.specs.Passing.{Stays};

use crate::scan::{Stop, scan};
use std::alloc::AllocError;
use syn_derive::DeriveInput;
use syn_parse::{Fault, ParseBuffer, ParseStream, Result};
use tok_buffer::laws::entries_go_on;
use tok_buffer::{Cursor, Error};
use tok_core::Span;

/// The span at which an item begins, and the item or the error of its parser.
#[derive(Drop)]
pub struct Found {
    pub span: Span,
    pub item: std::result::Result<DeriveInput, Error>,
}

/// Appends the remaining items of `input` to `found`, in order, including items in groups.
///
/// The next item of a scope begins after the tokens that the parser read for the previous item,
/// whether that item is valid or not. Therefore, the parser reads no token twice as part of an item
/// of the same scope.
#[cycle(find_items)]
pub fn find_items(found: &mut Vec<Found>, input: ParseStream<'_, '_>) -> Result<()> {
    // How much remains after the last item.
    let mut left = input.cursor().remaining();
    'items: loop {
        if move_on(input, left)? {
            let (item, after) = read_item(input)?;
            found.push(item)?;
            // An item has a token at least.
            let Some(fewer) = left.checked_sub(1) else {
                return Ok(());
            };
            left = after.min(fewer);
        } else if input.is_empty() {
            return Ok(());
        } else {
            find_inside(found, input)?;
        }
    }
}

// Appends the items in the next group, and passes it.
#[cycle(find_items)]
fn find_inside(found: &mut Vec<Found>, input: ParseStream<'_, '_>) -> Result<()>
    ensures { IfOk result (λ _. remaining input.new.place < remaining input.old.place) }
{
    entries_go_on();
    let (_, _, mut content) = input.parse_any_delimiter()?;
    let outcome = find_items(found, &mut content);
    content.discard();
    outcome
}

// Moves to where a scan stops, and returns `true` if an item begins there. It begins only where no
// more than `most` remains.
fn move_on(input: ParseStream<'_, '_>, most: usize) -> Result<bool>
    ensures { IfOk result (λ _. remaining input.new.place ≤ remaining input.old.place) }
{
    input.step(
        |from|
            ensures { IfOk result
                (λ r. Stays (step_state from.entry).place (place_of r.1)) }
        {
            let Stop { at, is_item } = scan(from.cursor(), most);
            Ok((is_item, at))
        },
    )
}

// Reads the next item on a fork, and returns also how much remains after it.
fn read_item(input: &ParseBuffer<'_>) -> std::result::Result<(Found, usize), AllocError> {
    let span = input.span();
    let mut fork = input.fork();
    let read = fork.parse::<DeriveInput>();
    let after = fork.cursor().remaining();
    let item = match alone(fork, read) {
        Ok(item) => Ok(item),
        Err(Fault::Refused(error)) => Err(error),
        Err(Fault::Memory(error)) => return Err(error),
    };
    Ok((Found { span, item }, after))
}

// Ends a fork on which an item was read. What the item leaves in a group is an error; what comes
// after the item is none.
fn alone(fork: ParseBuffer<'_>, read: Result<DeriveInput>) -> Result<DeriveInput> {
    let mut fork = fork;
    let item = match read {
        Ok(item) => item,
        Err(fault) => {
            fork.discard();
            return Err(fault);
        }
    };
    let past = fork.step(
        |_|
            ensures { IfOk result (λ r. place_of r.1 ≡ empty_place) }
        { Ok(((), Cursor::empty())) },
    );
    match past {
        Ok(()) => {
            fork.finish()?;
            Ok(item)
        }
        Err(fault) => {
            fork.discard();
            Err(fault)
        }
    }
}
