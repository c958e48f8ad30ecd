//! Examples of `tok_values` and `tok_carets`.
use std::alloc::{AllocError, AllocGlobal, Global};
use std::process::Abort;
use tok_buffer::Error;
use tok_carets::{IndexedSource, LineColumn, LineIndex, Source, line_column};
use tok_core::{LexFault, Literal, LiteralFault, Span, TokenTree, lex};
use tok_values::{IntegerFault, LiteralExt, NumberFault};

fn port_of(literal: &Literal) -> Result<u64, IntegerFault> {
    let port = literal.integer_value()?.value;
    Ok(port)
}

fn port(alloc: Global) -> Result<u64, LexFault> {
    let stream = lex(alloc, 0, "8_080")?;
    match stream.trees() {
        [TokenTree::Literal(literal)] => Ok(port_of(literal).unwrap_or(0)),
        _ => Ok(0),
    }
}

fn suffix(rt: &(impl Abort + AllocGlobal), alloc: Global) -> Result<(), LiteralFault> {
    let number = Literal::new(alloc, "1.5e3f32", Span::call_site())?;
    assert_eq!(rt; number.suffix(), "f32");
    let name = Literal::new(alloc, "\"a\"s", Span::call_site())?;
    let plain = name.without_suffix(alloc)?;
    assert_eq!(rt; plain.string_value(alloc)?.as_deref(), Some("a"));
    Ok(())
}

fn raw(rt: &(impl Abort + AllocGlobal), alloc: Global) -> Result<(), LiteralFault> {
    let name = Literal::new(alloc, "r#\"a\"#s", Span::call_site())?;
    assert_eq!(rt; name.str_value(alloc)?.as_deref(), Some("a"));
    Ok(())
}

fn number(rt: &(impl Abort + AllocGlobal), alloc: Global) -> Result<(), NumberFault> {
    let half = Literal::number(alloc, "0.5f32", Span::call_site())?;
    assert_eq!(rt; half.suffix(), "f32");
    let fault = Literal::number(alloc, "0.5f33", Span::call_site()).err();
    assert_eq!(rt; fault, Some(NumberFault::Suffix));
    Ok(())
}

#[test]
fn values(rt: HostRuntime) {
    assert!(rt; number(&rt, rt.alloc()).is_ok());
    assert!(rt; suffix(&rt, rt.alloc()).is_ok());
    assert!(rt; raw(&rt, rt.alloc()).is_ok());
    assert_eq!(rt; port(rt.alloc()).ok(), Some(8080));
}

fn carets(rt: &(impl Abort + AllocGlobal), alloc: Global) -> Result<(), AllocError> {
    let source = Source {
        name: "config",
        number: 0,
        text: "a b",
    };
    let shown = source.show(alloc, Span::source(0, 2, 3), "expected `,`")?;
    assert_eq!(rt;
        shown.as_str(),
        "error: expected `,`\n --> config:1:3\n  |\n1 | a b\n  |   ^\n"
    );
    same_again(rt, alloc, source)?;
    notes(rt, alloc, source)
}

fn same_again(
    rt: &(impl Abort + AllocGlobal),
    alloc: Global,
    source: Source<'_>,
) -> Result<(), AllocError> {
    let indexed = IndexedSource::new(alloc, source)?;
    let span = Span::source(0, 2, 3);
    let shown = indexed.show(alloc, span, "expected `,`")?;
    let alone = source.show(alloc, span, "expected `,`")?;
    assert_eq!(rt; shown.as_str(), alone.as_str());
    Ok(())
}

fn notes(
    rt: &(impl Abort + AllocGlobal),
    alloc: Global,
    source: Source<'_>,
) -> Result<(), AllocError> {
    let mut error = Error::new(alloc, Span::source(0, 2, 3), "this name is taken")?;
    error.combine(Error::new(alloc, Span::source(0, 0, 1), "it was defined here")?)?;
    let shown = source.show_error(alloc, &error)?;
    assert!(rt;
        shown
            .as_str()
            .contains("\nnote: it was defined here\n --> config:1:1\n")
    );
    Ok(())
}

fn indexed(rt: &impl Abort, alloc: Global) -> Result<(), AllocError> {
    let index = LineIndex::new(alloc, "a\nbc")?;
    assert_eq!(rt;
        index.line_column(3),
        Some(LineColumn { line: 2, column: 2 })
    );
    Ok(())
}

#[test]
fn errors(rt: HostRuntime) {
    assert!(rt; carets(&rt, rt.alloc()).is_ok());
    assert_eq!(rt; line_column("a\né"), LineColumn { line: 2, column: 2 });
    assert!(rt; indexed(&rt, rt.alloc()).is_ok());
}
