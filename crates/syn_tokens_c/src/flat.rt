//! Conversion of arguments to a flat array, in which each argument precedes the arguments inside
//! it.
ghost use Rattle.std.specs.Prelude.{◌≡◌, ◌++◌, IfOk, OnOk};
ghost use Rattle.arguments.specs.Forms.{argument_form, forms, list_form};
ghost use Rattle.entry_outcomes.specs.Answers.{answered};
ghost use Rattle.syn_tokens_c.specs.Flats as spec;

use arguments::{Argument, Arguments, Value};
use entry_outcomes::{Answer, range};
use std::alloc::{AllocError, Global};
use tok_core::Span;

/// An argument as a plain struct, with the spans of its name and its value.
#[repr(C)]
#[derive(Clone, Copy)]
pub struct FlatArgument {
    /// The kind of the argument: 0 for a name alone, 1 for a name and a literal, or 2 for a name
    /// and arguments in parentheses.
    pub kind: usize,
    /// The span of the name, from `name_start` to `name_end`.
    pub name_start: usize,
    pub name_end: usize,
    /// The span of the literal, or of the parentheses with their contents, from `value_start` to
    /// `value_end`. For a name alone, both bounds are 0.
    pub value_start: usize,
    pub value_end: usize,
    /// The number of arguments inside this argument, at any depth. These arguments directly follow
    /// this argument in the array.
    pub inside: usize,
}

// Makes the argument of this kind with these spans, which so many others are inside of.
fn flat(kind: usize, name: Span, value: Span, inside: usize) -> FlatArgument
    ensures { result ≡ spec.flat_as kind name value inside }
{
    let (name_start, name_end) = range(name);
    let (value_start, value_end) = range(value);
    FlatArgument {
        kind,
        name_start,
        name_end,
        value_start,
        value_end,
        inside,
    }
}

// Appends the arguments of a list.
#[cycle(flatten)]
fn push_all(flats: &mut Vec<FlatArgument>, list: &Arguments) -> Result<(), AllocError>
    ensures { OnOk result
        (flats.new.items ≡ flats.old.items ++ spec.flats (forms (list_form list.now).0)) }
{
    for argument in list.iter() {
        push_one(flats, argument)?;
    }
    Ok(())
}

// Appends an argument, and after it those inside it.
#[cycle(flatten)]
#[tactic(auto, using(crate::proofs::Flattening::form_of_list, crate::proofs::Flattening::list_lies))]
fn push_one(flats: &mut Vec<FlatArgument>, argument: &Argument) -> Result<(), AllocError>
    ensures { OnOk result
        (flats.new.items ≡ flats.old.items ++ spec.flat (argument_form argument.now)) }
{
    let name = argument.name.span();
    match &argument.value {
        Value::Flag => flats.push(flat(0, name, Span::call_site(), 0))?,
        Value::Literal(_, literal) => flats.push(flat(1, name, literal.span(), 0))?,
        Value::List(paren, inner) => {
            let start = flats.len();
            let span = paren.span.join();
            flats.push(flat(2, name, span, 0))?;
            push_all(flats, inner)?;
            let inside = flats.len() - start - 1;
            flats[start] = flat(2, name, span, inside);
        }
    }
    Ok(())
}

/// Converts a list of arguments to an answer that contains them as a flat array.
///
/// In the array, each argument precedes the arguments inside it. Returns an error if an allocation
/// fails.
pub fn flatten(alloc: Global, list: &Arguments) -> Result<Answer<FlatArgument>, AllocError>
    ensures { IfOk result (λ a. answered a ≡ spec.given_list list.now) }
{
    let mut answer = Answer::new(alloc);
    push_all(&mut answer.values, list)?;
    Ok(answer)
}
