//! Examples of `syn_parse`: any visible tree, all that is left, and runs of trees.
use syn_parse::{ParseStream, Parser, Result};
use tok_core::{Span, TokenStream};

fn any_tree(input: ParseStream<'_, '_>) -> Result<Span> {
    let value = input.visible_tree()?;
    Ok(value.span())
}

fn all_left(input: ParseStream<'_, '_>) -> Result<TokenStream> {
    let arguments = input.rest()?;
    Ok(arguments)
}

#[test]
fn trees(rt: HostRuntime) {
    let alloc = rt.alloc();
    assert_eq!(rt;
        any_tree.parse_str(alloc, "(a b)").ok(),
        Some(Span::source(0, 0, 5))
    );
    assert_eq!(rt;
        all_left
            .parse_str(alloc, "a (b) c")
            .ok()
            .map(|it| it.trees().len()),
        Some(3)
    );
}
