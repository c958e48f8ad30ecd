//! Calls that don't allocate. With them `tests/refuse_memory` counts as many allocations as without
//! them: those that lay the tokens out.
use super::laid;
use std::alloc::Global;
use syn_parse::{Nothing, Parens, ParseBuffer, ParseStream, parse_parens, tokens_to_parse_buffer};
use test_outcomes::memory::{Outcome, Stop, expect, worst};
use tok_buffer::Cursor;
use tok_core::{Delimiter, Ident, Punct, Span};
use tok_types::token;

const TEXT: &str = "fn , _ + (+)";

/// Lays the tokens out, and makes no call on them.
pub fn laid_out(alloc: Global) -> Outcome {
    let _buffer = laid(alloc, TEXT)?;
    Ok(())
}

/// Lays the same tokens out, looks at them and reads them to the end.
pub fn calls(alloc: Global) -> Outcome {
    let buffer = laid(alloc, TEXT)?;
    let mut input = tokens_to_parse_buffer(alloc, &buffer, Span::call_site());
    let looked = worst(&[
        cursors(buffer.begin()),
        peeks(&input),
        forks(&mut input),
        reads(&mut input),
        contents(&mut input),
    ]);
    let rest = input.pause().resume();
    let finished = expect(rest.finish().is_ok(), "finish");
    worst(&[looked, finished])
}

fn cursors(begin: Cursor<'_>) -> Outcome {
    let mut spans = [Span::call_site(); 1];
    let right = [
        !begin.eof(),
        begin.position() == Some(0),
        begin.ident().is_some(),
        begin.punct().is_none(),
        begin.literal().is_none(),
        begin.lifetime().is_none(),
        begin.group(Delimiter::Parenthesis).is_none(),
        begin.any_group().is_none(),
        begin.skip().is_some(),
        begin.puncts(",", &mut spans).is_none(),
        begin.peek_keyword("fn"),
        !begin.peek_punct(","),
        begin.leftover().is_some(),
        begin.same_scope(begin),
    ];
    expect(right == [true; 14], "Cursor")
}

fn peeks(input: &ParseBuffer<'_>) -> Outcome {
    let right = [
        input.peek::<token::Fn>(),
        !input.peek::<Ident>(),
        input.peek2::<token::Comma>(),
        input.peek3::<token::Underscore>(),
        !input.is_empty(),
    ];
    expect(right == [true; 5], "peek")
}

// One fork reads, and one is discarded.
fn forks(input: ParseStream<'_, '_>) -> Outcome {
    let mut fork = input.fork();
    let is_read = fork.parse::<token::Fn>().is_ok();
    fork.discard();
    expect(is_read && input.peek::<token::Fn>(), "fork")?;
    let fork = input.fork();
    if input.cursor().same_scope(fork.cursor()) {
        input.advance_to(fork);
        Ok(())
    } else {
        fork.discard();
        Err(Stop::Wrong("fork"))
    }
}

fn reads(input: ParseStream<'_, '_>) -> Outcome {
    let read = [
        input.parse::<Nothing>().is_ok(),
        input.parse::<token::Fn>().is_ok(),
        input.parse::<token::Comma>().is_ok(),
        input.parse::<token::Underscore>().is_ok(),
        input.parse::<Punct>().is_ok(),
    ];
    expect(read == [true; 5], "parse")
}

fn contents(input: ParseStream<'_, '_>) -> Outcome {
    let Ok(
        Parens {
            token: _,
            mut content,
        },
    ) = parse_parens(input)
    else {
        return Err(Stop::Wrong("parse_parens"));
    };
    let is_read = content.parse::<token::Plus>().is_ok();
    input.close(content);
    expect(is_read && input.is_empty(), "close")
}
