//! Examples of `syn_parse`.
ghost use Rattle.std.specs.Prelude.{IfOk, codes};
ghost use Rattle.syn_parse.specs.Steps.{step_state};
ghost use Rattle.tok_buffer.specs.Cursors.{place_of};
ghost use Rattle.tok_buffer.specs.Progress.{StaysIn};

use std::alloc::{AllocGlobal, Global};
use std::process::Abort;
use syn_parse::{
    Fault, IdentExt, Own, Parens, Parse, ParseStream, Parser, Result, Word, parenthesized,
    parse_parens, parse_str, parse_text, parse2, parsing,
};
use syn_punctuated::Punctuated;
use tok_buffer::laws::reads_go_on;
use tok_core::{Delimiter, Ident, Literal, Span, TokenStream, lex};
use tok_types::token;

#[derive(Drop)]
struct Name {
    ident: Ident,
}

impl Parse for Name {
    fn parse(input: ParseStream<'_, '_>) -> Result<Self> {
        Ok(Name {
            ident: input.parse()?,
        })
    }
}

fn len_of_name(input: ParseStream<'_, '_>) -> Result<usize> {
    let name: Name = input.parse()?;
    Ok(name.ident.as_str().len())
}

#[derive(Drop)]
struct Call {
    name: Ident,
    arguments: Punctuated<Ident, token::Comma>,
}

impl Parse for Call {
    fn parse(input: ParseStream<'_, '_>) -> Result<Self> {
        let _: token::Pub = input.parse()?;
        let name = input.parse()?;
        let (_, arguments) = input.within(
            Delimiter::Parenthesis,
            |inside| Punctuated::parse_terminated(inside),
        )?;
        Ok(Call { name, arguments })
    }
}

fn call_of_tokens(alloc: Global, tokens: TokenStream) -> Result<usize> {
    let call: Call = parse2(alloc, tokens)?;
    Ok(call.name.as_str().len())
}

fn call_of_text(alloc: Global) -> Result<usize> {
    let call: Call = parse_str(alloc, "pub run(a, b,)")?;
    Ok(call.arguments.len())
}

fn call_of_source(alloc: Global, text: &str) -> Result<usize> {
    let call: Call = parse_text(alloc, 0, text)?;
    Ok(call.name.as_str().len())
}

fn calls(alloc: Global) -> Option<(usize, usize, usize)> {
    let tokens = lex(alloc, 0, "pub name(a)").ok()?;
    Some((
        call_of_tokens(alloc, tokens).ok()?,
        call_of_text(alloc).ok()?,
        call_of_source(alloc, "pub f()").ok()?,
    ))
}

fn any_word(input: ParseStream<'_, '_>) -> Result<usize> {
    let word = Ident::parse_any(input)?;
    Ok(word.as_str().len())
}

fn optional_name(input: ParseStream<'_, '_>) -> Result<Option<Ident>> {
    if input.is_empty() {
        return Ok(None);
    }
    let name: Ident = input.parse()?;
    if input.peek::<token::Comma>() {
        let _: token::Comma = input.parse()?;
    }
    Ok(Some(name))
}

fn has_name(alloc: Global, text: &str) -> Option<bool> {
    Some(optional_name.parse_str(alloc, text).ok()?.is_some())
}

fn parse_path(input: ParseStream<'_, '_>) -> Result<Ident> {
    input.parse()
}

fn called(input: ParseStream<'_, '_>) -> Result<usize> {
    let path = input.call(parse_path)?;
    Ok(path.as_str().len())
}

fn one_name(alloc: Global) -> Result<usize> {
    let name = Ident::parse.parse_str(alloc, "x")?;
    Ok(name.as_str().len())
}

fn expects_a_name(input: ParseStream<'_, '_>) -> Result<usize> {
    return Err(input.error("expected a name"));
}

fn any_literal(input: ParseStream<'_, '_>) -> Result<Literal> {
    input.step(
        |from|
            ensures { IfOk result (λ r. StaysIn (step_state from.entry).place (place_of r.1)) }
        {
            reads_go_on();
            match from.cursor().literal() {
                Some((literal, rest)) => Ok((literal.clone()?, rest)),
                None => Err(from.error("expected a literal")),
            }
        },
    )
}

fn sealed(input: ParseStream<'_, '_>) -> Result<Span> {
    let span = parsing::keyword(input, "sealed")?;
    Ok(span)
}

fn word(input: ParseStream<'_, '_>) -> Result<(bool, Span)> {
    let is_target = input.peek_word("target");
    let span = input.parse_word("target")?;
    Ok((is_target, span))
}

struct ServerWord;

impl Word for ServerWord {
    ghost text = { codes "server" };

    fn display() -> &'static str {
        "`server`"
    }
}

type Server = Own<ServerWord>;

fn server(input: ParseStream<'_, '_>) -> Result<Span> {
    let server: Server = input.parse()?;
    Ok(server.span)
}

fn taken(input: ParseStream<'_, '_>) -> Result<Span> {
    let name: Ident = input.parse()?;
    let alloc = input.allocator();
    let fault = Fault::at(alloc, name.span(), "this name is taken");
    Err(fault)
}

fn combined(rt: &(impl Abort + AllocGlobal), alloc: Global) {
    let mut fault = Fault::at(alloc, Span::source(0, 2, 5), "this name is taken");
    fault.combine(Fault::at(alloc, Span::source(0, 0, 1), "it was defined here"));
    if let Fault::Refused(error) = fault {
        assert_eq!(rt; error.into_iter().count(), 2);
    }
}

fn matches(input: ParseStream<'_, '_>) -> Result<Span> {
    let spans: [Span; 2] = parsing::punct(input, "=~")?;
    Ok(spans[1])
}

fn parse_function(input: ParseStream<'_, '_>) -> Result<char> {
    let _: token::Fn = input.parse()?;
    Ok('f')
}

fn parse_struct(input: ParseStream<'_, '_>) -> Result<char> {
    let _: token::Struct = input.parse()?;
    Ok('s')
}

fn item(input: ParseStream<'_, '_>) -> Result<char> {
    let mut lookahead = input.lookahead1();
    if lookahead.peek::<token::Fn>()? {
        parse_function(input)
    } else if lookahead.peek::<token::Struct>()? {
        parse_struct(input)
    } else {
        Err(lookahead.error())
    }
}

fn within(input: ParseStream<'_, '_>) -> Result<(Span, Ident)> {
    let (span, name) = input.within(Delimiter::Parenthesis, |content| content.parse::<Ident>())?;
    Ok((span.join(), name))
}

fn parsed_within(input: ParseStream<'_, '_>) -> Result<(Span, Ident)> {
    let (span, name) = input.parse_within::<Ident>(Delimiter::Parenthesis)?;
    Ok((span.join(), name))
}

fn in_parens(input: ParseStream<'_, '_>) -> Result<(token::Paren, Ident)> {
    let Parens { token, mut content } = parse_parens(input)?;
    let name = content.parse::<Ident>();
    input.close(content);
    Ok((token, name?))
}

fn by_a_macro(input: ParseStream<'_, '_>) -> Result<(token::Paren, Ident)> {
    let mut content;
    let paren = parenthesized!(content in input);
    let name = content.parse::<Ident>();
    input.close(content);
    Ok((paren, name?))
}

#[test]
fn values(rt: HostRuntime) {
    let alloc = rt.alloc();
    assert_eq!(rt; len_of_name.parse_str(alloc, "abc").ok(), Some(3));
    assert_eq!(rt; calls(alloc), Some((4, 2, 1)));
    assert_eq!(rt; any_word.parse_str(alloc, "fn").ok(), Some(2));
    assert_eq!(rt; has_name(alloc, "a,"), Some(true));
    assert_eq!(rt; has_name(alloc, ""), Some(false));
    assert_eq!(rt; called.parse_str(alloc, "abcd").ok(), Some(4));
    assert_eq!(rt; one_name(alloc).ok(), Some(1));
    assert!(rt; expects_a_name.parse_str(alloc, "a").is_err());
    assert!(rt; any_literal.parse_str(alloc, "1").is_ok());
    assert!(rt; any_literal.parse_str(alloc, "a").is_err());
    assert_eq!(rt;
        sealed.parse_str(alloc, "sealed").ok(),
        Some(Span::source(0, 0, 6))
    );
    assert_eq!(rt;
        word.parse_str(alloc, "target").ok(),
        Some((true, Span::source(0, 0, 6)))
    );
    assert_eq!(rt;
        server.parse_str(alloc, "server").ok(),
        Some(Span::source(0, 0, 6))
    );
    assert!(rt; server.parse_str(alloc, "servers").is_err());
    assert!(rt; taken.parse_str(alloc, "a").is_err());
    combined(&rt, alloc);
    assert_eq!(rt;
        matches.parse_str(alloc, "=~").ok(),
        Some(Span::source(0, 1, 2))
    );
    assert_eq!(rt; item.parse_str(alloc, "struct").ok(), Some('s'));
    assert!(rt; item.parse_str(alloc, "enum").is_err());
}

#[test]
fn groups(rt: HostRuntime) {
    let alloc = rt.alloc();
    let whole = Some(Span::source(0, 0, 3));
    assert_eq!(rt; within.parse_str(alloc, "(a)").ok().map(|it| it.0), whole);
    assert_eq!(rt;
        parsed_within.parse_str(alloc, "(a)").ok().map(|it| it.0),
        whole
    );
    assert_eq!(rt;
        in_parens
            .parse_str(alloc, "(a)")
            .ok()
            .map(|it| it.0.span.join()),
        whole
    );
    assert_eq!(rt;
        by_a_macro
            .parse_str(alloc, "(a)")
            .ok()
            .map(|it| it.0.span.join()),
        whole
    );
}
