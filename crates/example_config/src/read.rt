//! The parser of settings.
ghost use Rattle.std.specs.Prelude.{ℕ, Err, List, Option, Some};
ghost use Rattle.std.specs.Str.{chars};
ghost use Rattle.syn_parse.specs.Takes.{Takes, TakesAs};
ghost use Rattle.syn_parse.specs.TreesAhead.{Ahead};
ghost use Rattle.syn_parse.specs.Takings.{Keeps};
ghost use Rattle.tok_values.specs.Values.{HasValue};
ghost use Rattle.example_config.specs.Forms.{value_form};
ghost use Rattle.example_config.specs.Nesting.{setting, value};
ghost use Rattle.example_config.specs.Reading.{Means, ReadsText, SaysOnce, in_integer, meaning, settings, take_key, take_literal_value, take_meaning, take_plain, values};

use crate::value::{Config, False, Include, Setting, True, Value};
use std::alloc::Global;
use syn_parse::laws::parses_go_on;
use syn_parse::{
    Braces, Brackets, Fault, ParseStream, Parser, Result, parse_braces, parse_brackets,
};
use syn_punctuated::Punctuated;
use tok_core::{Ident, Literal, Span};
use tok_types::{IdentAny, token};
use tok_values::{Integer, IntegerFault, LiteralExt};

/// Parses `text`, which has the source number `number`, as settings.
///
/// If the text does not consist of settings, returns the error of the first parser that fails. An
/// error at the end of the text has the empty span after the last token.
pub fn parse_config(alloc: Global, number: u32, text: &str) -> Result<Config>
    ensures { ReadsText number (chars text.now) result }
{
    read_settings.parse_text(alloc, number, text)
}

// Reads settings up to the end.
#[cycle(reading)]
fn read_settings(input: ParseStream<'_, '_>) -> Result<Config>
    ensures { Keeps settings input.old result input.new }
{
    parses_go_on();
    Punctuated::parse_terminated_with(input, read_setting)
}

// Reads values up to the end.
#[cycle(reading)]
fn read_values(input: ParseStream<'_, '_>) -> Result<Punctuated<Value, token::Comma>>
    ensures { Keeps values input.old result input.new }
{
    parses_go_on();
    Punctuated::parse_terminated_with(input, read_value)
}

// Reads a key, a colon and a value.
#[cycle(reading)]
#[tactic(auto, using(crate::specs::declared::value::Value::the_lemmas), unfolding(crate::specs::Reading::setting_step))]
fn read_setting(input: ParseStream<'_, '_>) -> Result<Setting>
    ensures { Keeps setting input.old result input.new }
{
    if input.peek::<Include>() {
        return Err(input.error("this language has no `include`"));
    }
    let key = read_key(input)?;
    let colon = input.parse()?;
    let value = read_value(input)?;
    Ok(Setting { key, colon, value })
}

// Reads a key, if a word is next.
#[tactic(auto, unfolding(crate::specs::Reading::take_key))]
pub(crate) fn read_key(input: ParseStream<'_, '_>) -> Result<Ident>
    ensures { Takes take_key input.old result input.new }
{
    if input.peek::<IdentAny>() {
        input.parse()
    } else {
        Err(input.error("expected a key, such as `name`"))
    }
}

// Reads a value.
#[cycle(reading)]
#[tactic(auto, using(crate::specs::Nesting::value_again, crate::proofs::Formed::formed), unfolding(syn_parse::specs::Takes::take_group, crate::specs::Reading::take_list_value, crate::specs::Reading::take_map_value))]
fn read_value(input: ParseStream<'_, '_>) -> Result<Value>
    ensures { Keeps value input.old result input.new }
{
    if input.peek::<token::Bracket>() {
        let Brackets { token, mut content } = parse_brackets(input)?;
        let values = read_values(&mut content);
        input.close(content);
        Ok(Value::List(token, values?))
    } else if input.peek::<token::Brace>() {
        let Braces { token, mut content } = parse_braces(input)?;
        let settings = read_settings(&mut content);
        input.close(content);
        Ok(Value::Map(token, settings?))
    } else {
        read_plain(input)
    }
}

// Reads a value that holds no others.
#[tactic(auto, using(crate::specs::declared::value::Value::the_lemmas), unfolding(crate::specs::Reading::take_plain))]
pub(crate) fn read_plain(input: ParseStream<'_, '_>) -> Result<Value>
    ensures { TakesAs value_form take_plain input.old result input.new }
{
    if input.peek::<True>() {
        let word: True = input.parse()?;
        Ok(Value::Truth(word.span, true))
    } else if input.peek::<False>() {
        let word: False = input.parse()?;
        Ok(Value::Truth(word.span, false))
    } else {
        read_literal(input)
    }
}

// Reads a literal, if one is next.
#[tactic(auto, unfolding(crate::specs::Reading::take_literal_value))]
fn read_literal(input: ParseStream<'_, '_>) -> Result<Value>
    ensures { TakesAs value_form take_literal_value input.old result input.new }
{
    if input.peek::<Literal>() {
        read_meaning(input)
    } else {
        Err(input.error("expected a string, an integer, `true`, `false`, `[` or `{`"))
    }
}

// Reads a literal, and returns the value that it means.
fn read_meaning(input: ParseStream<'_, '_>) -> Result<Value>
    ensures { TakesAs value_form take_meaning input.old result input.new }
{
    let literal = input.parse()?;
    literal_value(input.allocator(), &literal)
}

// Returns the value that a literal means.
#[tactic(auto, unfolding(crate::specs::Reading::meaning))]
fn literal_value(alloc: Global, literal: &Literal) -> Result<Value>
    ensures { Means (meaning literal.now) result }
{
    match literal.string_value(alloc)? {
        Some(text) => Ok(Value::Text(literal.span(), text)),
        None => number_value(alloc, literal.span(), literal.integer_value()),
    }
}

// Returns the value that an integer literal means.
fn number_value(
    alloc: Global,
    span: Span,
    read: std::result::Result<Integer<'_>, IntegerFault>,
) -> Result<Value>
    ensures { (wanted : Option (ℕ × List ℕ)) → HasValue wanted read.entry
        → Means (in_integer span wanted) result }
{
    match read {
        Ok(integer) => unsuffixed(alloc, span, integer.value, integer.suffix),
        Err(fault) => Err(no_number(alloc, span, fault)),
    }
}

// Returns the error of a literal that is no number.
fn no_number(alloc: Global, span: Span, fault: IntegerFault) -> Fault
    ensures { (wanted : Option (ℕ × List ℕ)) → HasValue wanted (Err fault) → (a : Ahead)
        → SaysOnce (in_integer span wanted a) result }
{
    match fault {
        IntegerFault::TooLarge => Fault::at(alloc, span, "expected an integer below 2^64"),
        IntegerFault::NotInteger => Fault::at(
            alloc,
            span,
            "expected a string without a suffix, or an integer",
        ),
    }
}

// Returns the value of an integer, if it has no suffix.
fn unsuffixed(alloc: Global, span: Span, number: u64, suffix: &str) -> Result<Value>
    ensures { Means (in_integer span (Some (number, chars suffix.now))) result }
{
    if suffix.is_empty() {
        Ok(Value::Number(span, number))
    } else {
        Err(Fault::at(alloc, span, "expected no suffix"))
    }
}
