//! Examples of `tok_leaves` and `tok_core`.
use std::alloc::{AllocError, AllocGlobal, Global};
use std::process::Abort;
use tok_core::{
    Edition, Ident, IdentFault, IntegerType, LexFault, Lifetime, LifetimeFault, Literal,
    LiteralFault, MakeFault, Span, ToTokens, TokenStream, TokenTree, is_filled, lex, lex_marked,
    lex_source, same_visible,
};
use tok_lexical::{QuotedFault, quoted_fault};

#[test]
fn spans(rt: HostRuntime) {
    let span = Span::source(0, 2, 5);
    assert_eq!(rt; span.as_range(), Some((0, 2, 5)));
    let later = Span::source(0, 7, 9);
    assert_eq!(rt; span.join(later), Some(Span::source(0, 2, 9)));
    assert_eq!(rt; Span::call_site().as_range(), None);
}

fn ident(rt: &(impl Abort + AllocGlobal), alloc: Global) -> Result<(), MakeFault> {
    let name = Ident::new(alloc, "size", Span::call_site())?;
    assert_eq!(rt; name.as_str(), "size");
    let raw = Ident::new_raw(alloc, "fn", Span::call_site())?;
    assert_eq!(rt; raw.as_str(), "r#fn");
    Ok(())
}

fn faults(rt: &impl Abort) {
    assert_eq!(rt; IdentFault::of("size"), None);
    assert_eq!(rt; IdentFault::of("8bit"), Some(IdentFault::Number));
    let fault = IdentFault::Character {
        at: 2,
        character: '-',
    };
    assert_eq!(rt; IdentFault::of("to-do"), Some(fault));
    assert_eq!(rt; IdentFault::of_raw("self"), Some(IdentFault::NoRaw));
}

fn lifetime(rt: &(impl Abort + AllocGlobal), alloc: Global) -> Result<(), LifetimeFault> {
    let lifetime = Lifetime::new(alloc, "'a", Span::call_site())?;
    assert_eq!(rt; lifetime.ident.as_str(), "a");
    Ok(())
}

fn literal(rt: &(impl Abort + AllocGlobal), alloc: Global) -> Result<(), AllocError> {
    let literal = Literal::string(alloc, "a \"b\"")?;
    assert_eq!(rt; literal.as_str(), "\"a \\\"b\\\"\"");
    Ok(())
}

fn number(rt: &(impl Abort + AllocGlobal), alloc: Global) -> Result<(), LiteralFault> {
    let number = Literal::new(alloc, "5i32", Span::call_site())?;
    assert_eq!(rt; number.as_str(), "5i32");
    let fault = Literal::new(alloc, "-5", Span::call_site()).err();
    assert_eq!(rt; fault, Some(LiteralFault::Sign));
    Ok(())
}

fn integer(rt: &(impl Abort + AllocGlobal), alloc: Global) -> Result<(), AllocError> {
    let five = Literal::integer_suffixed(alloc, 5, IntegerType::I32)?;
    assert_eq!(rt; five.as_ref().map(Literal::as_str), Some("5i32"));
    Ok(())
}

#[test]
fn leaves(rt: HostRuntime) {
    assert!(rt; ident(&rt, rt.alloc()).is_ok());
    faults(&rt);
    assert!(rt; number(&rt, rt.alloc()).is_ok());
    assert!(rt; integer(&rt, rt.alloc()).is_ok());
    assert!(rt; lifetime(&rt, rt.alloc()).is_ok());
    assert!(rt; literal(&rt, rt.alloc()).is_ok());
}

fn stream(rt: &(impl Abort + AllocGlobal), alloc: Global) -> Result<(), MakeFault> {
    let mut stream = TokenStream::new(alloc);
    let name = Ident::new(alloc, "a", Span::call_site())?;
    stream.append(TokenTree::Ident(name))?;
    assert_eq!(rt; stream.trees().len(), 1);
    Ok(())
}

fn of_trees(rt: &(impl Abort + AllocGlobal), alloc: Global) -> Result<(), MakeFault> {
    let name = Ident::new(alloc, "a", Span::call_site())?;
    let copy = name.clone()?;
    let stream = TokenStream::from_trees(alloc, [name.into(), copy.into()])?;
    assert_eq!(rt; stream.trees().len(), 2);
    Ok(())
}

fn writes(rt: &(impl Abort + AllocGlobal), alloc: Global) -> Result<(), MakeFault> {
    let mut tokens = TokenStream::new(alloc);
    Ident::new(alloc, "a", Span::call_site())?.to_tokens(&mut tokens)?;
    Literal::string(alloc, "b")?.to_tokens(&mut tokens)?;
    assert_eq!(rt; tokens.trees().len(), 2);
    Ok(())
}

#[test]
fn streams(rt: HostRuntime) {
    assert!(rt; stream(&rt, rt.alloc()).is_ok());
    assert!(rt; of_trees(&rt, rt.alloc()).is_ok());
    assert!(rt; writes(&rt, rt.alloc()).is_ok());
}

fn plain(rt: &(impl Abort + AllocGlobal), alloc: Global) -> Result<(), LexFault> {
    let stream = lex(alloc, 0, "a += (b)")?;
    assert_eq!(rt; stream.trees().len(), 4);
    Ok(())
}

fn marked(rt: &(impl Abort + AllocGlobal), alloc: Global) -> Result<(), LexFault> {
    let stream = lex_marked(alloc, 0, "«a» + b")?;
    assert_eq!(rt; is_filled(&stream), true);
    let visible = lex(alloc, 0, "a + b")?;
    assert_eq!(rt; same_visible(alloc, &stream, &visible)?, true);
    Ok(())
}

fn source(rt: &(impl Abort + AllocGlobal), alloc: Global) -> Result<(), LexFault> {
    let stream = lex_source(alloc, Edition::default(), 0, "/// A point.\nstruct Point;")?;
    assert_eq!(rt; stream.trees().len(), 5);
    Ok(())
}

fn rejected(rt: &(impl Abort + AllocGlobal), alloc: Global) {
    assert!(rt; lex(alloc, 0, "(a").is_err());
    if let Err(LexFault::Refused(error)) = lex(alloc, 0, "(a") {
        assert_eq!(rt; (error.number(), error.at()), (2, 0));
    }
}

fn explained(rt: &(impl Abort + AllocGlobal), alloc: Global) {
    let text = "name: \"a\\q\"";
    if let Err(LexFault::Refused(error)) = lex(alloc, 0, text) {
        let (span, words) = error.explain(text);
        assert!(rt; span == Span::source(0, 8, 8));
        assert_eq!(rt; words, "unknown escape");
    }
}

fn faulty(rt: &impl Abort) {
    let fault = quoted_fault("\"a\\q\"");
    assert_eq!(rt; fault, Some((QuotedFault::UnknownEscape, 2)));
}

#[test]
fn texts(rt: HostRuntime) {
    assert!(rt; plain(&rt, rt.alloc()).is_ok());
    assert!(rt; marked(&rt, rt.alloc()).is_ok());
    assert!(rt; source(&rt, rt.alloc()).is_ok());
    rejected(&rt, rt.alloc());
    explained(&rt, rt.alloc());
    faulty(&rt);
}
