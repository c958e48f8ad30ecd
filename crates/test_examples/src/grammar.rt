//! The parsers of `example_grammar`.
use crate::said::all_said;
use example_grammar::ended::{read_name, read_setting};
use example_grammar::limit::Limit;
use example_grammar::named_type::NamedType;
use example_grammar::runs::{Branch, MacroCall, Pointers};
use example_grammar::shape::{Field, Shape};
use std::alloc::Global;
use syn_parse::{ParseStream, Parser, Result};
use syn_punctuated::Punctuated;
use test_outcomes::Sample;
use tok_types::token;

// The parsers of this module.
enum Read {
    WholeType,
    WholePointers,
    WholeBranch,
    WholeMacro,
    WholeShape,
    WholeEnded,
    WholeName,
    WholeLimit,
}

impl Sample for Read {
    fn run(&self, alloc: Global, text: &str) -> Result<String> {
        match self {
            Read::WholeType => whole_type.parse_str(alloc, text),
            Read::WholePointers => whole_pointers.parse_str(alloc, text),
            Read::WholeBranch => whole_branch.parse_str(alloc, text),
            Read::WholeMacro => whole_macro.parse_str(alloc, text),
            Read::WholeShape => whole_shape.parse_str(alloc, text),
            Read::WholeEnded => whole_ended.parse_str(alloc, text),
            Read::WholeName => whole_name.parse_str(alloc, text),
            Read::WholeLimit => whole_limit.parse_str(alloc, text),
        }
    }
}

// Returns a type's name, and how many arguments it has.
fn whole_type(input: ParseStream<'_, '_>) -> Result<String> {
    let read: NamedType = input.parse()?;
    let alloc = input.allocator();
    match &read {
        NamedType::Plain(name) => Ok(format!(in alloc; "{}", name.as_str())?),
        NamedType::Generic(name, _, list, _) => {
            let count = list.len();
            Ok(format!(in alloc; "{} {count}", name.as_str())?)
        }
    }
}

#[test]
fn reads_types(rt: HostRuntime) {
    all_said(
        &rt,
        &Read::WholeType,
        &[
            ("A", "A"),
            ("A<B>", "A 1"),
            ("A<B, C<D>>", "A 2"),
            ("A<B<C>, D, E<F, G<H>>>", "A 3"),
            ("A<>", "2..3 expected identifier"),
            ("A<B,>", "4..5 expected identifier"),
            ("A<B C>", "4..5 expected `>`"),
            ("A<B<C>", "call expected `>`"),
            ("A<B>>", "4..5 unexpected token"),
        ],
    );
}

// Returns how many pointers there are, and how many stars the last of them has.
fn whole_pointers(input: ParseStream<'_, '_>) -> Result<String> {
    let pointers: Pointers = input.parse()?;
    let count = pointers.list.len();
    let alloc = input.allocator();
    match pointers.list.last() {
        Some(pointer) => {
            let stars = pointer.stars.len();
            Ok(format!(in alloc; "{count} {stars} {}", pointer.name.as_str())?)
        }
        None => Ok(format!(in alloc; "{count}")?),
    }
}

#[test]
fn reads_pointers(rt: HostRuntime) {
    all_said(
        &rt,
        &Read::WholePointers,
        &[
            ("", "0"),
            ("a", "1 0 a"),
            ("a *b ***c", "3 3 c"),
            ("a 1", "2..3 expected identifier"),
            ("**", "call unexpected end of input, expected identifier"),
        ],
    );
}

// Returns the condition and the body.
fn whole_branch(input: ParseStream<'_, '_>) -> Result<String> {
    let branch: Branch = input.parse()?;
    Ok(format!(in input.allocator(); "{} | {}", branch.condition, branch.body.tokens)?)
}

// Returns the name and the tree.
fn whole_macro(input: ParseStream<'_, '_>) -> Result<String> {
    let call: MacroCall = input.parse()?;
    Ok(format!(in input.allocator(); "{} {}", call.name.as_str(), call.arguments)?)
}

#[test]
fn reads_branches_and_macros(rt: HostRuntime) {
    all_said(
        &rt,
        &Read::WholeBranch,
        &[
            ("if a == (b) { c; d }", "a == (b) | c ; d"),
            ("if {}", " | "),
            (
                "if a",
                "call unexpected end of input, expected curly braces",
            ),
            ("if a {} b", "8..9 unexpected token"),
            ("a {}", "0..1 expected `if`"),
        ],
    );
    all_said(
        &rt,
        &Read::WholeMacro,
        &[
            ("a!(b, c)", "a (b , c)"),
            ("a! 1", "a 1"),
            ("a!", "call unexpected end of input, expected token tree"),
            ("a (b)", "2..3 expected `!`"),
        ],
    );
}

// Returns whether the first of these fields has a name.
fn has_name(fields: &Punctuated<Field, token::Comma>) -> bool {
    match fields.first() {
        Some(field) => field.name.is_some(),
        None => false,
    }
}

// Returns the delimiters, how many fields there are, and whether the first of them has a name.
fn whole_shape(input: ParseStream<'_, '_>) -> Result<String> {
    let shape: Shape = input.parse()?;
    let alloc = input.allocator();
    match &shape {
        Shape::Named(fields) => {
            let count = fields.list.len();
            Ok(format!(in alloc; "braces {count} {}", has_name(&fields.list))?)
        }
        Shape::Unnamed(fields) => {
            let count = fields.list.len();
            Ok(format!(in alloc; "parentheses {count} {}", has_name(&fields.list))?)
        }
        Shape::Unit => Ok(format!(in alloc; "unit")?),
    }
}

#[test]
fn reads_shapes(rt: HostRuntime) {
    all_said(
        &rt,
        &Read::WholeShape,
        &[
            ("{ a: B<C, D>, d: E }", "braces 2 true"),
            ("(B<C>, E,)", "parentheses 2 false"),
            ("{}", "braces 0 false"),
            ("", "unit"),
            ("{ a }", "4..5 expected `:`"),
            ("(a: B)", "2..3 expected `,`"),
            ("[a]", "0..3 unexpected token"),
        ],
    );
}

// Returns a name, and the value after `=`.
fn whole_ended(input: ParseStream<'_, '_>) -> Result<String> {
    let setting = read_setting(input)?;
    let name = setting.name.as_str();
    match &setting.value {
        Some(value) => Ok(format!(in input.allocator(); "{name}={}", value.as_str())?),
        None => Ok(format!(in input.allocator(); "{name}")?),
    }
}

fn whole_name(input: ParseStream<'_, '_>) -> Result<String> {
    let name = read_name(input)?;
    Ok(format!(in input.allocator(); "{}", name.as_str())?)
}

#[test]
fn reads_ended_settings_and_names(rt: HostRuntime) {
    all_said(
        &rt,
        &Read::WholeEnded,
        &[
            ("a;", "a"),
            ("a = 1;", "a=1"),
            ("a = 1", "call expected `;`"),
            ("a 1;", "2..3 expected `;`"),
            ("a = b;", "4..5 expected literal token"),
        ],
    );
    all_said(
        &rt,
        &Read::WholeName,
        &[
            ("a", "a"),
            ("fn", "0..2 expected identifier, found keyword `fn`"),
        ],
    );
}

// Returns the two literals.
fn whole_limit(input: ParseStream<'_, '_>) -> Result<String> {
    let limit: Limit = input.parse()?;
    let name = limit.name.token().as_str();
    let most = limit.most.token().as_str();
    Ok(format!(in input.allocator(); "{name} {most}")?)
}

#[test]
fn reads_limits(rt: HostRuntime) {
    all_said(
        &rt,
        &Read::WholeLimit,
        &[
            ("limit \"cpu\" = 4", "\"cpu\" 4"),
            ("limits \"cpu\" = 4", "0..6 expected `limit`"),
            ("limit 4 = 4", "6..7 expected string literal"),
            ("limit \"cpu\" 4", "12..13 expected `=`"),
            ("limit \"cpu\" = \"4\"", "14..17 expected integer literal"),
        ],
    );
}
