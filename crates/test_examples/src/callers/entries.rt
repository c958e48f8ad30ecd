//! The parsers of `example_callers::entry`, `setting`, `records`, `route`, `rule`, `service` and
//! `value`.
use crate::said::all_said;
use example_callers::entry::{
    Call, Entry, Mark, Pair, parse_entry, parse_entry_both, parse_entry_text,
};
use example_callers::records::Record;
use example_callers::route::Route;
use example_callers::rule::Rule;
use example_callers::service::Service;
use example_callers::setting::{Field, Flag, read_label, read_setting, try_field};
use example_callers::value::Value;
use std::alloc::{AllocGlobal, Global};
use std::process::Abort;
use syn_parse::{ParseStream, Parser, Result};
use test_outcomes::{Sample, is_said};
use tok_core::lex_marked;

fn whole_pair(input: ParseStream<'_, '_>) -> Result<String> {
    let pair: Pair = input.parse()?;
    Ok(format!(in input.allocator(); "{} {}", pair.name.as_str(), pair.value.as_str())?)
}

fn whole_call(input: ParseStream<'_, '_>) -> Result<String> {
    let call: Call = input.parse()?;
    Ok(format!(in input.allocator(); "{} {}", call.name.as_str(), call.value.as_str())?)
}

fn whole_mark(input: ParseStream<'_, '_>) -> Result<String> {
    let mark: Mark = input.parse()?;
    Ok(format!(in input.allocator(); "{} {}", mark.name.as_str(), mark.value.as_str())?)
}

// The parsers of this module.
enum Read {
    WholePair,
    WholeCall,
    WholeMark,
    WholeLabel,
    WholeTried,
    WholeRecord,
    WholeRoute,
    WholeService,
    WholeRule,
    WholeValue,
    WholeSetting,
    WholeFlag,
    WholeField,
}

impl Sample for Read {
    fn run(&self, alloc: Global, text: &str) -> Result<String> {
        match self {
            Read::WholePair => whole_pair.parse_str(alloc, text),
            Read::WholeCall => whole_call.parse_str(alloc, text),
            Read::WholeMark => whole_mark.parse_str(alloc, text),
            Read::WholeLabel => whole_label.parse_str(alloc, text),
            Read::WholeTried => whole_tried.parse_str(alloc, text),
            Read::WholeRecord => whole_record.parse_str(alloc, text),
            Read::WholeRoute => whole_route.parse_str(alloc, text),
            Read::WholeService => whole_service.parse_str(alloc, text),
            Read::WholeRule => whole_rule.parse_str(alloc, text),
            Read::WholeValue => whole_value.parse_str(alloc, text),
            Read::WholeSetting => whole_setting.parse_str(alloc, text),
            Read::WholeFlag => whole_flag.parse_str(alloc, text),
            Read::WholeField => whole_field.parse_str(alloc, text),
        }
    }
}

#[test]
fn reads_pairs_and_calls(rt: HostRuntime) {
    all_said(
        &rt,
        &Read::WholePair,
        &[
            ("a, 1", "a 1"),
            ("a 1", "2..3 expected `,`"),
            ("a, b", "3..4 expected literal token"),
            ("a, 1 b", "5..6 unexpected token"),
        ],
    );
    all_said(
        &rt,
        &Read::WholeCall,
        &[
            ("f(1)", "f 1"),
            ("f[1]", "1..2 expected parentheses"),
            ("f(1 2)", "4..5 unexpected token, expected `)`"),
            (
                "f()",
                "2..3 unexpected end of input, expected literal token",
            ),
        ],
    );
}

#[test]
fn reads_marks(rt: HostRuntime) {
    all_said(
        &rt,
        &Read::WholeMark,
        &[
            ("a [1]", "a 1"),
            ("a (1)", "2..3 expected square brackets"),
            ("a [1 2]", "5..6 unexpected token, expected `]`"),
        ],
    );
}

// Returns a label or nothing, and then a field tried on a fork.
fn whole_label(input: ParseStream<'_, '_>) -> Result<String> {
    match read_label(input)? {
        Some(name) => Ok(format!(in input.allocator(); "{}", name.as_str())?),
        None => Ok(format!(in input.allocator(); "none")?),
    }
}

fn whole_tried(input: ParseStream<'_, '_>) -> Result<String> {
    let field = try_field(input)?;
    Ok(format!(in input.allocator(); "{} {}", field.name.as_str(), field.kind.as_str())?)
}

#[test]
fn reads_labels_and_tries_fields(rt: HostRuntime) {
    all_said(
        &rt,
        &Read::WholeLabel,
        &[
            ("a:", "a"),
            ("", "none"),
            ("a b", "0..1 unexpected token"),
            ("1:", "0..1 expected identifier"),
        ],
    );
    all_said(
        &rt,
        &Read::WholeTried,
        &[("a: B", "a B"), ("a B", "2..3 expected `:`")],
    );
}

// Returns the name of a record, and how many fields it has.
fn whole_record(input: ParseStream<'_, '_>) -> Result<String> {
    let record: Record = input.parse()?;
    let count = record.fields.list.len();
    Ok(format!(in input.allocator(); "{} {count}", record.name.as_str())?)
}

// Returns the parts of a route, and how many names its path and its arguments have.
fn whole_route(input: ParseStream<'_, '_>) -> Result<String> {
    let route: Route = input.parse()?;
    let method = route.method.as_str();
    let pattern = route.pattern.as_str();
    let names = route.target.path.names.len();
    let arguments = route.target.arguments.list.len();
    Ok(format!(in input.allocator(); "{method} {pattern} {names} {arguments}")?)
}

#[test]
fn reads_records_and_routes(rt: HostRuntime) {
    all_said(
        &rt,
        &Read::WholeRecord,
        &[
            ("struct A {}", "A 0"),
            ("struct A { b: C, d: E }", "A 2"),
            ("struct A { b: C, }", "A 1"),
            ("struct A { b: C d: E }", "16..17 expected `,`"),
            ("struct A { b C }", "13..14 expected `:`"),
        ],
    );
    all_said(
        &rt,
        &Read::WholeRoute,
        &[
            ("get \"/a\" -> a::b (c, d);", "get \"/a\" 2 2"),
            ("get \"/a\" -> a ();", "get \"/a\" 1 0"),
            ("get \"/a\" a ();", "9..10 expected `->`"),
            ("get \"/a\" -> a (1);", "15..16 expected identifier"),
        ],
    );
}

// Returns the names of a service.
fn whole_service(input: ParseStream<'_, '_>) -> Result<String> {
    let service: Service = input.parse()?;
    let name = service.name.as_str();
    let owner = service.owner.name.as_str();
    let alias = service.alias.as_str();
    let options = service.options.as_str();
    let target = service.target.as_str();
    Ok(format!(in input.allocator(); "{name} {owner} {alias} {options} {target}")?)
}

#[test]
fn reads_services(rt: HostRuntime) {
    all_said(
        &rt,
        &Read::WholeService,
        &[
            ("service a (b: C) as d { e } -> f;", "a b d e f"),
            ("services a", "0..8 expected `service`"),
            (
                "service a [b: C] as d { e } -> f;",
                "10..11 expected parentheses",
            ),
            ("service a (b C)", "13..14 expected `:`"),
            (
                "service a (b: C D) as d { e } -> f;",
                "16..17 unexpected token, expected `)`",
            ),
            ("service a (b: C) d", "17..18 expected `as`"),
            ("service a (b: C) as d (e)", "22..23 expected curly braces"),
            ("service a (b: C) as d { e } = f;", "28..29 expected `->`"),
            ("service a (b: C) as d { e } -> f", "call expected `;`"),
        ],
    );
}

// Returns the names of a rule, how many inputs and assignments it has, and whether it has a guard.
fn whole_rule(input: ParseStream<'_, '_>) -> Result<String> {
    let rule: Rule = input.parse()?;
    let name = rule.name.as_str();
    let inputs = rule.inputs.len();
    let assignments = rule.assignments.len();
    let lifetime = rule.lifetime.ident.as_str();
    let owner = rule.owner.as_str();
    let target = rule.target.as_str();
    let has_guard = rule.guard.is_some();
    Ok(format!(in input.allocator();
        "{name} {inputs} {assignments} {lifetime} {owner} {target} {has_guard}"
    )?)
}

#[test]
fn reads_rules(rt: HostRuntime) {
    all_said(
        &rt,
        &Read::WholeRule,
        &[
            (
                "rule a: [\"x\", 1] { b = 2; c = 3; } => 'd (e::f) where g!",
                "a 2 2 d e f true",
            ),
            ("rule a: [] {} => 'd (e::f)!", "a 0 0 d e f false"),
            ("rule a: [] { b = 2 } => 'd (e::f)!", "19..20 expected `;`"),
            ("rule a: [] { b 2; }", "15..16 expected `=`"),
            (
                "rule a: [] {} => 'd (e::f) where !",
                "33..34 expected identifier",
            ),
            ("rule a: [] {} => 'd (e::f) g!", "27..28 expected `!`"),
        ],
    );
}

// Returns a name or a literal, or how many values are in the brackets, and the last of them.
fn whole_value(input: ParseStream<'_, '_>) -> Result<String> {
    let value: Value = input.parse()?;
    match value {
        Value::Name(name) => Ok(format!(in input.allocator(); "{}", name.as_str())?),
        Value::Text(text) => Ok(format!(in input.allocator(); "{}", text.as_str())?),
        Value::List(_, values) => {
            let count = values.len();
            Ok(format!(in input.allocator(); "{count}")?)
        }
    }
}

#[test]
fn reads_values(rt: HostRuntime) {
    all_said(
        &rt,
        &Read::WholeValue,
        &[
            ("a", "a"),
            ("1", "1"),
            ("[]", "0"),
            ("[a, [1, b], []]", "3"),
            ("[a, [1 b]]", "7..8 expected `,`"),
            ("[a] b", "4..5 unexpected token"),
            ("", "call unexpected end of input, expected literal token"),
            ("[fn]", "1..3 expected literal token"),
        ],
    );
}

// Returns a name, and the value after `=`.
fn whole_setting(input: ParseStream<'_, '_>) -> Result<String> {
    let setting = read_setting(input)?;
    let name = setting.name.as_str();
    match &setting.value {
        Some(value) => Ok(format!(in input.allocator(); "{name}={}", value.as_str())?),
        None => Ok(format!(in input.allocator(); "{name}")?),
    }
}

#[test]
fn reads_settings(rt: HostRuntime) {
    all_said(
        &rt,
        &Read::WholeSetting,
        &[
            ("a", "a"),
            ("a = \"x\"", "a=\"x\""),
            (
                "a =",
                "call unexpected end of input, expected literal token",
            ),
            ("a 1", "2..3 unexpected token"),
            ("= 1", "0..1 expected identifier"),
        ],
    );
}

// Returns whether a star comes first, and a name.
fn whole_flag(input: ParseStream<'_, '_>) -> Result<String> {
    let flag: Flag = input.parse()?;
    let has_star = flag.star.is_some();
    Ok(format!(in input.allocator(); "{has_star} {}", flag.name.as_str())?)
}

fn whole_field(input: ParseStream<'_, '_>) -> Result<String> {
    let field: Field = input.parse()?;
    Ok(format!(in input.allocator(); "{} {}", field.name.as_str(), field.kind.as_str())?)
}

#[test]
fn reads_flags_and_fields(rt: HostRuntime) {
    all_said(
        &rt,
        &Read::WholeFlag,
        &[
            ("*a", "true a"),
            ("a", "false a"),
            ("* *a", "2..3 expected identifier"),
        ],
    );
    all_said(
        &rt,
        &Read::WholeField,
        &[
            ("a: B", "a B"),
            ("a B", "2..3 expected `:`"),
            ("a:", "call unexpected end of input, expected identifier"),
        ],
    );
}

// Returns an entry as text, or its error.
fn entry_text(alloc: Global, outcome: Result<Entry>) -> Result<String> {
    let entry = outcome?;
    let name = entry.name.as_str();
    let value = entry.value.as_str();
    let tail = entry.tail.as_str();
    Ok(format!(in alloc; "{name} {value} {tail}")?)
}

fn is_entry(alloc: Global, outcome: Result<Entry>, wanted: &str) -> bool {
    is_said(alloc, entry_text(alloc, outcome), wanted)
}

// Returns `true` if a text is this entry, or is rejected so.
fn is_entry_text(alloc: Global, text: &str, wanted: &str) -> bool {
    is_entry(alloc, parse_entry_text(alloc, 0, text), wanted)
}

fn is_entry_stream(alloc: Global, text: &str, wanted: &str) -> Option<bool> {
    let stream = lex_marked(alloc, 0, text).ok()?;
    Some(is_entry(alloc, parse_entry(alloc, stream), wanted))
}

fn all_entry_texts(rt: &(impl Abort + AllocGlobal), rows: &[(&str, &str)]) {
    for (text, wanted) in rows {
        assert!(rt; is_entry_text(rt.alloc(), text, wanted), "at {text}");
    }
}

fn all_entries(rt: &(impl Abort + AllocGlobal), rows: &[(&str, &str)]) {
    for (text, wanted) in rows {
        assert!(rt; is_entry_text(rt.alloc(), text, wanted), "at {text}");
        assert_eq!(rt;
            is_entry_stream(rt.alloc(), text, wanted),
            Some(true),
            "at {text}"
        );
    }
}

#[test]
fn reads_entries(rt: HostRuntime) {
    all_entries(
        &rt,
        &[
            ("a, 1, (b)", "a 1 b"),
            ("a, 1 (b)", "5..6 expected `,`"),
            ("a, 1, b", "6..7 expected parentheses"),
            ("a, 1, (b c)", "9..10 unexpected token, expected `)`"),
            ("a, 1, (b) c", "10..11 unexpected token"),
        ],
    );
}

#[test]
fn the_text_of_an_entry_ends_behind_its_last_token(rt: HostRuntime) {
    all_entry_texts(
        &rt,
        &[
            ("", "0..0 unexpected end of input, expected identifier"),
            (
                "a,  ",
                "2..2 unexpected end of input, expected literal token",
            ),
            (
                "a, 1, // (b)",
                "5..5 unexpected end of input, expected parentheses",
            ),
            ("a, 1, (b", "6..6 unclosed group"),
        ],
    );
}

// Returns `true` if two texts are these entries, or are rejected so.
fn are_entries(alloc: Global, left: &str, right: &str, wanted: (&str, &str)) -> Option<bool> {
    let left = lex_marked(alloc, 0, left).ok()?;
    let right = lex_marked(alloc, 0, right).ok()?;
    let (left, right) = parse_entry_both(alloc, left, right);
    let is_left = is_entry(alloc, left, wanted.0);
    let is_right = is_entry(alloc, right, wanted.1);
    Some(is_left && is_right)
}

fn all_both(rt: &(impl Abort + AllocGlobal), rows: &[(&str, &str, (&str, &str))]) {
    for (left, right, wanted) in rows {
        assert_eq!(rt;
            are_entries(rt.alloc(), left, right, *wanted),
            Some(true),
            "at {left}"
        );
    }
}

#[test]
fn reads_two_entries(rt: HostRuntime) {
    all_both(
        &rt,
        &[
            ("a, 1, (b)", "«a», «1, (b)»", ("a 1 b", "a 1 b")),
            ("a, 1, (b)", "c, 2, («d»)", ("a 1 b", "c 2 d")),
            (
                "a, bc",
                "a, «bc»",
                ("3..5 expected literal token", "3..4 expected literal token"),
            ),
        ],
    );
}
