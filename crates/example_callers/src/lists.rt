//! Callers of the list parsers. They parse names with commas between them, and nested items.
ghost use Rattle.std.specs.Prelude.{◌≡◌, true, IfOk};
ghost use Rattle.tok_buffer.specs.Place.{is_at_end};
ghost use Rattle.example_callers.specs.Lists.{IsItem};
ghost use Rattle.syn_punctuated.specs.Trees.{PassesList, ident_sources, punctuation_sources};

use syn_parse::{ParseStream, Result};
use syn_punctuated::Punctuated;
use syn_punctuated::laws::{lists_have_their_trees, tokens_state_trees};
use tok_buffer::laws::entries_go_on;
use tok_core::{Delimiter, Ident};
use tok_types::token;

/// A list of names with commas between them.
pub type Names = Punctuated<Ident, token::Comma>;

/// Parses names with commas between them, up to the end of the stream.
///
/// The names and commas that are parsed are the remaining visible tokens of the stream, in order.
/// These tokens may be in invisible groups.
pub fn names(input: ParseStream<'_, '_>) -> Result<Names>
    ensures trees { IfOk result
        (λ list. PassesList ident_sources punctuation_sources list input.old input.new) }
    ensures end { IfOk result (λ _. is_at_end input.new.place ≡ true) }
{
    lists_have_their_trees::<Ident, token::Comma>();
    tokens_state_trees::<7, 1>();
    Punctuated::parse_terminated(input)
}

/// An item, which is either a name or a list of items in parentheses.
#[cycle(items)]
#[derive(Drop)]
pub enum Item {
    Name(Ident),
    List(token::Paren, Items),
}

/// A list of items with commas between them.
#[cycle(items)]
#[derive(Drop)]
pub struct Items {
    pub list: Punctuated<Item, token::Comma>,
}

/// Parses items up to the end of the stream.
#[cycle(parsing)]
pub fn parse_items(input: ParseStream<'_, '_>) -> Result<Items>
    ensures { IfOk result (λ _. is_at_end input.new.place ≡ true) }
{
    let list = Punctuated::parse_terminated_with(input, |stream| parse_item(stream))?;
    Ok(Items { list })
}

/// Parses one item.
///
/// The recursion ends, because fewer buffer entries remain inside a group than before the group.
#[cycle(parsing)]
pub fn parse_item(input: ParseStream<'_, '_>) -> Result<Item>
    ensures { IfOk result (λ item. IsItem input.old item input.new) }
{
    entries_go_on();
    if input.peek::<token::Paren>() {
        let (span, items) = input.within(
            Delimiter::Parenthesis,
            |content|
                ensures { IfOk result (λ _. is_at_end content.new.place ≡ true) }
            { parse_items(content) },
        )?;
        Ok(Item::List(token::Paren::new(span), items))
    } else {
        Ok(Item::Name(input.parse()?))
    }
}
