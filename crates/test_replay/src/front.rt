//! The library by one crate, under `syn`'s paths: from a text to values, and over a buffer by hand.
ghost use Rattle.syn_tokens.specs.TreeLaws.{followed_by};

use std::alloc::{AllocError, AllocGlobal, Global};
use std::process::Abort;
use syn_tokens::buffer::{Cursor, TokenBuffer};
use syn_tokens::carets::LineColumn;
use syn_tokens::ext::IntegerFault;
use syn_tokens::laws::{parses_go_on, reads_go_on, reads_keep_scope, writes_follow_writes};
use syn_tokens::parse::{Parse, ParseStream, Parser};
use syn_tokens::punctuated::{PairsFault, Punctuated};
use syn_tokens::{
    Delimiter, Edition, Error, Ident, Kind, Look, Separator, Span, ToTokens, TokenStream,
    TokenTree, lex, parenthesized, parse, token,
};

/// `pub NAME(FIRST, SECOND, ..)`, as a user of the library would write it.
#[derive(Drop)]
struct Call {
    name: Ident,
    arguments: Punctuated<Ident, token::Comma>,
}

impl Parse for Call {
    fn parse(input: ParseStream<'_, '_>) -> parse::Result<Self> {
        let _: token::Pub = input.parse()?;
        let name = input.parse()?;
        let (_, arguments) = input.within(
            Delimiter::Parenthesis,
            |inside| Punctuated::parse_terminated(inside),
        )?;
        Ok(Call { name, arguments })
    }
}

// Returns the number of arguments of a call of this name, and whether a comma ends them.
fn called(alloc: Global, text: &str, name: &str) -> Option<(usize, bool)> {
    let call = Call::parse.parse_str(alloc, text).ok()?;
    if call.name.as_str() == name {
        Some((call.arguments.len(), call.arguments.trailing_punct()))
    } else {
        None
    }
}

fn all_called(rt: &(impl Abort + AllocGlobal), rows: &[(&str, &str, Option<(usize, bool)>)]) {
    for (text, name, wanted) in rows {
        assert_eq!(rt; called(rt.alloc(), text, name), *wanted, "at {text}");
    }
}

#[test]
fn reads_a_value_by_one_crate(rt: HostRuntime) {
    all_called(
        &rt,
        &[
            ("pub run(a, b,)", "run", Some((2, true))),
            ("pub run(a b)", "run", None),
        ],
    );
}

// Returns `true` if a text starts with this name and parentheses.
fn starts_call(alloc: Global, text: &str, name: &str) -> Option<bool> {
    let stream = lex(alloc, 0, text).ok()?;
    let buffer = TokenBuffer::new2(alloc, 0, stream).ok()?;
    let (ident, rest) = buffer.begin().ident()?;
    Some(ident.as_str() == name && rest.group(Delimiter::Parenthesis).is_some())
}

fn all_starts(rt: &(impl Abort + AllocGlobal), rows: &[(&str, &str, bool)]) {
    for (text, name, wanted) in rows {
        assert_eq!(rt;
            starts_call(rt.alloc(), text, name),
            Some(*wanted),
            "at {text}"
        );
    }
}

#[test]
fn walks_a_buffer_by_one_crate(rt: HostRuntime) {
    all_starts(&rt, &[("a (b)", "a", true), ("a [b]", "a", false)]);
}

// Returns the cursor after all identifiers that are next.
fn past_idents<'a>(cursor: Cursor<'a>) -> Cursor<'a> {
    reads_go_on();
    let mut after = cursor;
    while let Some((_, next)) = after.ident() {
        after = next;
    }
    after
}

// Parses all names that are left, each with a comma after it or not.
fn names(input: ParseStream<'_, '_>) -> parse::Result<Vec<Ident>> {
    parses_go_on();
    let mut names = Vec::new(input.allocator());
    while !input.is_empty() {
        names.push(input.parse()?)?;
    }
    Ok(names)
}

// Parses a name on a fork.
fn tried(input: ParseStream<'_, '_>) -> parse::Result<Option<Ident>> {
    reads_keep_scope();
    let mut fork = input.fork();
    match fork.parse::<Ident>() {
        Ok(name) => {
            input.advance_to(fork);
            Ok(Some(name))
        }
        Err(_) => {
            fork.discard();
            Ok(None)
        }
    }
}

// Parses parentheses around names.
fn inside(input: ParseStream<'_, '_>) -> parse::Result<usize> {
    let mut content;
    let _: token::Paren = parenthesized!(content in input);
    let found = names(&mut content);
    input.close(content);
    Ok(found?.len())
}

// Parses a name, if there is one, and names in parentheses. Returns whether there is a name, and
// how many are in the parentheses.
fn named(input: ParseStream<'_, '_>) -> parse::Result<(bool, usize)> {
    let name = tried(input)?;
    let count = inside(input)?;
    Ok((name.is_some(), count))
}

fn counted(alloc: Global, text: &str) -> Option<(bool, usize)> {
    named.parse_str(alloc, text).ok()
}

fn all_counted(rt: &(impl Abort + AllocGlobal), rows: &[(&str, Option<(bool, usize)>)]) {
    for (text, wanted) in rows {
        assert_eq!(rt; counted(rt.alloc(), text), *wanted, "at {text}");
    }
}

#[test]
fn uses_laws_and_macros_by_one_crate(rt: HostRuntime) {
    all_counted(
        &rt,
        &[
            ("a (b c)", Some((true, 2))),
            ("(b)", Some((false, 1))),
            ("a [b]", None),
        ],
    );
}

// A type of a user's own, by derives over the library's types.
#[derive(Clone, Drop, Debug)]
struct Field {
    name: Ident,
    comma: token::Comma,
}

// Rejects a name by an error of one's own.
fn refused(input: ParseStream<'_, '_>) -> parse::Result<Ident> {
    let name: Ident = input.parse()?;
    Err(Error::new_spanned(input.allocator(), &name, "not this")?.into())
}

// Returns what is shown of a field and its copy, of a tree, and of an error.
fn shown(alloc: Global, text: &str) -> Option<String> {
    let name: Ident = Ident::parse.parse_str(alloc, text).ok()?;
    let comma = token::Comma::from_span(Span::call_site());
    let field = Field { name, comma }.clone().ok()?;
    let Err(fault) = refused.parse_str(alloc, text) else {
        return None;
    };
    let shown = format!(in alloc; "{} {field:?} {fault}", field.name).ok()?;
    let tree = TokenTree::from(field.name);
    format!(in alloc; "{shown} {tree}").ok()
}

fn is_shown(alloc: Global, text: &str, wanted: &str) -> bool {
    match shown(alloc, text) {
        Some(text) => text.as_str() == wanted,
        None => false,
    }
}

fn all_shown(rt: &(impl Abort + AllocGlobal), rows: &[(&str, &str)]) {
    for (text, wanted) in rows {
        assert!(rt; is_shown(rt.alloc(), text, wanted), "not {wanted}");
    }
}

#[test]
fn shows_and_clones_by_one_crate(rt: HostRuntime) {
    all_shown(
        &rt,
        &[(
            "a",
            "a Field { name: Ident { text: \"a\", span: Span { origin: Source(0, 0, 1) } }, comma: Token![,] } not this a",
        )],
    );
}

// Returns where the identifiers of a text end.
fn end_of_idents(alloc: Global, text: &str) -> Option<usize> {
    let buffer = TokenBuffer::from_text(alloc, 0, 0, text).ok()?;
    past_idents(buffer.begin()).position()
}

fn all_ends(rt: &(impl Abort + AllocGlobal), rows: &[(&str, Option<usize>)]) {
    for (text, wanted) in rows {
        assert_eq!(rt; end_of_idents(rt.alloc(), text), *wanted, "at {text}");
    }
}

#[test]
fn loops_by_one_crate(rt: HostRuntime) {
    all_ends(&rt, &[("a b = c", Some(2)), ("", Some(0))]);
}

// A type of a user's own that is written as tokens.
#[derive(Drop)]
struct Item {
    name: Ident,
    semi: token::Semi,
}

impl ToTokens for Item {
    ghost printed = { λ item. followed_by (⟦<Ident as ToTokens>⟧.printed item.name)
        (⟦<token::Semi as ToTokens>⟧.printed item.semi) };

    fn to_tokens(&self, tokens: &mut TokenStream) -> Result<(), AllocError> {
        writes_follow_writes();
        self.name.to_tokens(tokens)?;
        self.semi.to_tokens(tokens)
    }
}

// Returns the text of an item of this name.
fn written(alloc: Global, text: &str) -> Option<String> {
    let name: Ident = Ident::parse.parse_str(alloc, text).ok()?;
    let semi = token::Semi::from_span(Span::call_site());
    let tokens = Item { name, semi }.to_token_stream(alloc).ok()?;
    format!(in alloc; "{tokens}").ok()
}

fn is_written(alloc: Global, text: &str, wanted: &str) -> bool {
    match written(alloc, text) {
        Some(text) => text.as_str() == wanted,
        None => false,
    }
}

fn all_written(rt: &(impl Abort + AllocGlobal), rows: &[(&str, &str)]) {
    for (text, wanted) in rows {
        assert!(rt; is_written(rt.alloc(), text, wanted), "not {wanted}");
    }
}

#[test]
fn writes_a_value_by_one_crate(rt: HostRuntime) {
    all_written(&rt, &[("a", "a ;")]);
}

// Returns `true` if two values differ.
fn differ<T: PartialEq + Drop>(left: T, right: T) -> bool {
    left != right
}

#[test]
fn tells_values_apart(rt: HostRuntime) {
    let place = LineColumn { line: 1, column: 1 };
    assert!(rt; differ(place, LineColumn { line: 2, column: 1 }));
    assert!(rt; differ(place, LineColumn { line: 1, column: 2 }));
    assert!(rt; differ(IntegerFault::NotInteger, IntegerFault::TooLarge));
    assert!(rt; differ(PairsFault::AfterEnd, PairsFault::Memory));
    assert!(rt; differ(Edition::Edition2021, Edition::Edition2024));
    assert!(rt; differ(Kind::Ident, Kind::Literal));
    assert!(rt; differ(Look::Kind(Kind::Ident), Look::Kind(Kind::Literal)));
    assert!(rt; differ(Look::Paren, Look::Brace));
    assert!(rt; differ(Separator::Comma, Separator::Semi));
}
