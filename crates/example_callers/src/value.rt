//! A parser of values that can contain other values.
ghost use Rattle.syn_parse.specs.Takings.{Keeps};
ghost use Rattle.example_callers.specs.Values.{lists, values};

use syn_parse::laws::parses_go_on;
use syn_parse::{Brackets, Parse, ParseStream, Result, parse_brackets};
use syn_punctuated::Punctuated;
use tok_core::{Ident, Literal};
use tok_types::token;

/// A value, which is a name, a literal, or a list of values in brackets, such as `[a, [1, b], []]`.
#[derive(Drop)]
pub enum Value {
    Name(Ident),
    Text(Literal),
    List(token::Bracket, Punctuated<Value, token::Comma>),
}

impl Parse for Value {
    ghost takes = { values };

    fn parse(input: ParseStream<'_, '_>) -> Result<Self> {
        read_value(input)
    }
}

#[cycle(values)]
#[tactic(auto, using(crate::specs::Values::value_again, crate::proofs::Values::form_list, crate::specs::declared::value::Value::the_lemmas), unfolding(syn_parse::specs::Takes::take_group))]
fn read_value(input: ParseStream<'_, '_>) -> Result<Value>
    ensures { Keeps values input.old result input.new }
{
    if input.peek::<token::Bracket>() {
        let Brackets { token, mut content } = parse_brackets(input)?;
        let list = read_values(&mut content);
        input.close(content);
        Ok(Value::List(token, list?))
    } else if input.peek::<Ident>() {
        Ok(Value::Name(input.parse()?))
    } else {
        Ok(Value::Text(input.parse()?))
    }
}

// Reads values with commas between them, to the end.
#[cycle(values)]
fn read_values(input: ParseStream<'_, '_>) -> Result<Punctuated<Value, token::Comma>>
    ensures { Keeps lists input.old result input.new }
{
    parses_go_on();
    Punctuated::parse_terminated_with(input, read_value)
}
