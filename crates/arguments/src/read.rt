//! The parser of arguments.
ghost use Rattle.std.specs.Prelude.{◌≡◌, true, IfOk};
ghost use Rattle.tok_buffer.specs.Place.{is_at_end};
ghost use Rattle.tok_buffer.specs.View.{erased_ahead};
ghost use Rattle.tok_core.specs.Erase.{erase};
ghost use Rattle.tok_core.specs.Filled.{filled};
ghost use Rattle.tok_core.specs.Forest.{no_trees};
ghost use Rattle.tok_leaves.specs.Spans.{call_site};
ghost use Rattle.tok_leaves.specs.declared.ident.Ident.{Ident};
ghost use Rattle.syn_parse.specs.Takes.{IsAll};
ghost use Rattle.syn_parse.specs.Takings.{Keeps, KeepsWhole};
ghost use Rattle.arguments.specs.Forms.{argument_form, list_form, value_form};
ghost use Rattle.arguments.specs.Grammar.{AreArguments};
ghost use Rattle.arguments.specs.Reading.{TakesIfOk, argument, arguments, value_after};
ghost use Rattle.arguments.specs.Reading.{take_argument, take_arguments, take_value};
ghost use Rattle.arguments.specs.Results.{Agree, Parses, ParsesTo, SaysWhy, with_fault};

use crate::argument::{Argument, Arguments, Value};
use std::alloc::{AllocError, Global};
use syn_parse::laws::parses_go_on;
use syn_parse::{Fault, Parens, ParseBuffer, ParseStream, Parser, Result, parse_parens};
use syn_punctuated::Punctuated;
use tok_buffer::Error;
use tok_core::TokenStream;
use tok_types::token;

/// Parses all tokens of a stream as arguments.
///
/// If the tokens are not arguments, returns the error of the first parser that fails.
///
/// An empty invisible group at the end of a list is an error. The function `visible_arguments`
/// removes such groups first.
///
/// # Examples
///
/// ```rust
/// let tokens = lex(alloc, 0, "a, b = 1, c(d)").ok()?;
/// let list = parse_arguments(alloc, tokens).ok()?;
/// assert_eq!(rt; list.len(), 3);
/// ```
pub fn parse_arguments(alloc: Global, tokens: TokenStream) -> Result<Arguments>
    ensures value { IfOk result (λ list. AreArguments (erase tokens) list) }
    ensures parses { filled tokens ≡ true → Parses (erase tokens) result }
    ensures says { filled tokens ≡ true → SaysWhy tokens result }
{
    parse_whole(alloc, tokens)
}

/// Parses arguments up to the end of the stream.
pub fn parse_to_end(input: ParseStream<'_, '_>) -> Result<Arguments>
    ensures value { TakesIfOk list_form take_arguments input.old result input.new }
    ensures keeps { Keeps arguments input.old result input.new }
{
    read_arguments(input)
}

/// Parses two streams, `left` and `right`, as arguments.
///
/// Suppose that the streams differ only in their invisible groups, and that each of these groups
/// contains a visible token. Then either both results are the same list, including its spans, or
/// both are errors with the same text.
///
/// Returns an error if an allocation fails.
pub fn arguments_both(
    alloc: Global,
    left: TokenStream,
    right: TokenStream,
) -> std::result::Result<
    (
        std::result::Result<Arguments, Error>,
        std::result::Result<Arguments, Error>,
    ),
    AllocError,
>
    ensures left_value { IfOk result
        (λ both. IfOk both.0 (λ list. AreArguments (erase left) list)) }
    ensures right_value { IfOk result
        (λ both. IfOk both.1 (λ list. AreArguments (erase right) list)) }
    ensures left { IfOk result (λ both. filled left ≡ true → ParsesTo left both.0) }
    ensures right { IfOk result (λ both. filled right ≡ true → ParsesTo right both.1) }
    ensures agree { IfOk result
        (λ both. filled left ≡ true → filled right ≡ true → erase left ≡ erase right
        → Agree both.0 both.1) }
{
    let left = without_memory(parse_whole(alloc, left))?;
    let right = without_memory(parse_whole(alloc, right))?;
    Ok((left, right))
}

// Returns the result of a parser, with an allocation failure apart.
fn without_memory(
    parsed: Result<Arguments>,
) -> std::result::Result<std::result::Result<Arguments, Error>, AllocError>
    ensures { IfOk result (λ kept. parsed ≡ with_fault kept) }
{
    match parsed {
        Ok(list) => Ok(Ok(list)),
        Err(Fault::Refused(error)) => Ok(Err(error)),
        Err(Fault::Memory(error)) => Err(error),
    }
}

// Parses all of these tokens as what the reader takes.
fn parse_whole(alloc: Global, tokens: TokenStream) -> Result<Arguments>
    ensures value { IfOk result (λ list. IsAll take_arguments tokens (list_form list)) }
    ensures keeps { KeepsWhole arguments tokens call_site result }
{
    read_arguments.parse2(alloc, tokens)
}

// Parses the arguments up to the end.
#[cycle(reading)]
fn read_arguments(input: ParseStream<'_, '_>) -> Result<Arguments>
    ensures value { TakesIfOk list_form take_arguments input.old result input.new }
    ensures keeps { Keeps arguments input.old result input.new }
{
    parses_go_on();
    let list = Punctuated::parse_terminated_with(input, read_argument);
    ends_tell(input);
    list
}

// Nothing visible is ahead at the end of a stream, whatever invisible groups there are.
pub(crate) fn ends_tell(input: &ParseBuffer<'_>)
    ensures { is_at_end input.now.place ≡ true → erased_ahead input.now.place ≡ no_trees }
{
    let _ = input.cursor();
}

// Parses the next argument.
#[cycle(reading)]
#[tactic(auto, using(crate::proofs::Formed::all))]
fn read_argument(input: ParseStream<'_, '_>) -> Result<Argument>
    ensures value { TakesIfOk argument_form take_argument input.old result input.new }
    ensures keeps { Keeps argument input.old result input.new }
{
    let name = input.parse()?;
    let value = read_value(input)?;
    Ok(Argument { name, value })
}

// Parses the value after a name.
#[cycle(reading)]
#[tactic(auto, using(crate::proofs::Formed::all), unfolding(syn_parse::specs::Takes::take_group))]
fn read_value(input: ParseStream<'_, '_>) -> Result<Value>
    ensures value { (name : Ident) → TakesIfOk (λ value. value_form value name)
        (take_value take_arguments name) input.old result input.new }
    ensures keeps { (name : Ident) → Keeps (value_after name) input.old result input.new }
{
    if input.peek::<token::Eq>() {
        let equals = input.parse()?;
        let literal = input.parse()?;
        return Ok(Value::Literal(equals, literal));
    }
    if input.peek::<token::Paren>() {
        let Parens { token, mut content } = parse_parens(input)?;
        let list = read_arguments(&mut content);
        input.close(content);
        return Ok(Value::List(token, list?));
    }
    Ok(Value::Flag)
}
