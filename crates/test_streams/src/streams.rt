//! Parse streams, beyond what a text and a parser say: those are lines of `vectors_streams`.
mod own;
mod swaps;

use std::alloc::{AllocGlobal, Global};
use std::process::Abort;
use syn_parse::{Parse, Parser};
use test_outcomes::is_read;
use tok_core::{Ident, Span, TokenStream};
use tok_types::token::{self, Token};

#[test]
fn a_keyword_past_the_table(rt: HostRuntime) {
    assert_eq!(rt; token::Keyword::<1000>::display(), "``");
}

fn reads_scoped(alloc: Global, start: usize, end: usize, wanted: &str) -> bool {
    if start > end {
        return false;
    }
    let scope = Span::source(0, start, end);
    let outcome = Ident::parse.parse_scoped(alloc, scope, TokenStream::new(alloc));
    is_read(alloc, outcome, wanted)
}

fn all_scoped(rt: &(impl Abort + AllocGlobal), rows: &[(usize, usize, &str)]) {
    for (start, end, wanted) in rows {
        assert!(rt;
            reads_scoped(rt.alloc(), *start, *end, wanted),
            "not {wanted}"
        );
    }
}

#[test]
fn the_end_has_the_span_of_the_scope(rt: HostRuntime) {
    all_scoped(
        &rt,
        &[(7, 8, "7..8 unexpected end of input, expected identifier")],
    );
}
