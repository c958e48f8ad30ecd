//! Literals of one kind in sources, with their values.
use crate::visible::marked;
use std::alloc::Global;
use syn_literals::{
    LitBool, LitFloat, LitInt, LitStr, SignedFloat, SignedInt, signed_float_value, signed_int_value,
};
use syn_parse::{Fault, ParseStream, Parser, Result};
use tok_core::{Edition, Literal};
use tok_types::token::Token;

/// Parses a text by the parser of this name, if there is one here.
pub fn parsed(alloc: Global, parser: &str, text: &str) -> Option<Result<String>> {
    let edition = Edition::default();
    let returned = match parser {
        "LitStr" => string.parse_source(alloc, edition, text),
        "LitInt" => integer.parse_source(alloc, edition, text),
        "LitFloat" => float.parse_source(alloc, edition, text),
        "LitBool" => boolean.parse_source(alloc, edition, text),
        "SignedInt" => signed_integer.parse_source(alloc, edition, text),
        "SignedFloat" => signed_float.parse_source(alloc, edition, text),
        "LitFrom" => taken.parse_source(alloc, edition, text),
        "LitKind" => kind.parse_source(alloc, edition, text),
        "LitLookahead" => looked.parse_source(alloc, edition, text),
        "MarkedStr" => string.parse2(alloc, marked(alloc, text)?),
        "MarkedBool" => boolean.parse2(alloc, marked(alloc, text)?),
        _ => return None,
    };
    Some(returned)
}

// The literal and its value.
fn string(input: ParseStream<'_, '_>) -> Result<String> {
    let alloc = input.allocator();
    let literal: LitStr = input.parse()?;
    Ok(match literal.value(alloc)? {
        Some(value) => format!(in alloc; "{literal} is {}", value.as_str())?,
        None => format!(in alloc; "{literal} has no value")?,
    })
}

// The literal, its value and its suffix.
fn integer(input: ParseStream<'_, '_>) -> Result<String> {
    let alloc = input.allocator();
    let literal: LitInt = input.parse()?;
    match literal.value() {
        Ok(integer) => {
            let shown = format!(in alloc; "{literal} is {}_{}", integer.value, integer.suffix);
            Ok(shown?)
        }
        Err(fault) => Err(Fault::at(alloc, literal.span(), fault)),
    }
}

// The literal and its value.
fn float(input: ParseStream<'_, '_>) -> Result<String> {
    let alloc = input.allocator();
    let literal: LitFloat = input.parse()?;
    Ok(match literal.value(alloc)? {
        Some(value) => format!(in alloc; "{literal} is {value}")?,
        None => format!(in alloc; "{literal} has no value")?,
    })
}

// The value with its sign.
fn signed_integer(input: ParseStream<'_, '_>) -> Result<String> {
    let alloc = input.allocator();
    let number = input.parse::<SignedInt>()?;
    match signed_int_value(&number) {
        Ok(value) => Ok(format!(in alloc; "{value}")?),
        Err(fault) => Err(Fault::at(alloc, number.1.span(), fault)),
    }
}

// The value with its sign.
fn signed_float(input: ParseStream<'_, '_>) -> Result<String> {
    let alloc = input.allocator();
    let number = input.parse::<SignedFloat>()?;
    Ok(match signed_float_value(alloc, &number)? {
        Some(value) => format!(in alloc; "{value}")?,
        None => format!(in alloc; "no value")?,
    })
}

// Whether the literal is a string, an integer, and a float.
fn taken(input: ParseStream<'_, '_>) -> Result<String> {
    let alloc = input.allocator();
    let literal: Literal = input.parse()?;
    let string = LitStr::from_literal(literal.clone()?).is_some();
    let integer = LitInt::from_literal(literal.clone()?).is_some();
    let float = LitFloat::from_literal(literal).is_some();
    Ok(format!(in alloc; "{string} {integer} {float}")?)
}

fn boolean(input: ParseStream<'_, '_>) -> Result<String> {
    let literal: LitBool = input.parse()?;
    Ok(format!(in input.allocator(); "{literal} is {}", literal.value)?)
}

// The names of the kinds that a peek finds, and all that is left is skipped.
fn kind(input: ParseStream<'_, '_>) -> Result<String> {
    let mut shown = String::new(input.allocator());
    let peeks = [
        (input.peek::<LitStr>(), LitStr::display()),
        (input.peek::<LitInt>(), LitInt::display()),
        (input.peek::<LitFloat>(), LitFloat::display()),
        (input.peek::<LitBool>(), LitBool::display()),
    ];
    for (found, name) in &peeks {
        if *found {
            shown.push_str(name)?;
            shown.push_str(";")?;
        }
    }
    let _ = input.rest()?;
    Ok(shown)
}

fn looked(input: ParseStream<'_, '_>) -> Result<String> {
    let mut lookahead = input.lookahead1();
    if lookahead.peek::<LitStr>()? {
        return string(input);
    }
    if lookahead.peek::<LitInt>()? {
        return integer(input);
    }
    lookahead.peek::<LitFloat>()?;
    lookahead.peek::<LitBool>()?;
    Err(lookahead.error())
}
