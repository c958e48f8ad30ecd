//! Parses a text by one call of the library, again and again. The first line of the input is the
//! call and how often it is made; the text is the rest.
//!
//! `bench/calls` compares this with the same calls of another library.
use anyhow::{Context, Result, bail};
use std::alloc::Global;
use syn_parse::laws::forks_follow;
use syn_parse::{Fault, IdentExt, ParseStream, Parser};
use syn_punctuated::Punctuated;
use tok_buffer::laws::reads_keep_scope;
use tok_buffer::{Lifetime, TokenBuffer};
use tok_core::{Delimiter, Ident, Literal, Punct, TokenStream, TokenTree, lex};
use tok_types::token;

/// Makes the calls, and returns how many there were, or what was seen.
pub fn count(alloc: Global, input: &str) -> Result<usize> {
    let (goal, text) = input.split_once('\n').context("no line that names a call")?;
    let (call, count) = goal.split_once(' ').context("no count")?;
    let count: usize = count.parse().ok().context("no number of calls")?;
    let tokens = lex(alloc, 0, text).ok().context("lexing the text")?;
    let parsed = match call {
        "none" => Ok(laid_out(alloc, tokens)?),
        "ident" => (|s: ParseStream<'_, '_>| idents(s, count)).parse2(alloc, tokens),
        "any" => (|s: ParseStream<'_, '_>| any(s, count)).parse2(alloc, tokens),
        "keyword" => (|s: ParseStream<'_, '_>| keyword(s, count)).parse2(alloc, tokens),
        "comma" => (|s: ParseStream<'_, '_>| comma(s, count)).parse2(alloc, tokens),
        "semi" => (|s: ParseStream<'_, '_>| semi(s, count)).parse2(alloc, tokens),
        "eq" => (|s: ParseStream<'_, '_>| eq(s, count)).parse2(alloc, tokens),
        "path_sep" => (|s: ParseStream<'_, '_>| path_sep(s, count)).parse2(alloc, tokens),
        "shr_eq" => (|s: ParseStream<'_, '_>| shr_eq(s, count)).parse2(alloc, tokens),
        "punct" => (|s: ParseStream<'_, '_>| punct(s, count)).parse2(alloc, tokens),
        "literal" => (|s: ParseStream<'_, '_>| literal(s, count)).parse2(alloc, tokens),
        "lifetime" => (|s: ParseStream<'_, '_>| lifetime(s, count)).parse2(alloc, tokens),
        "tree" => (|s: ParseStream<'_, '_>| tree(s, count)).parse2(alloc, tokens),
        "peek" => (|s: ParseStream<'_, '_>| peek(s, count)).parse2(alloc, tokens),
        "peek2" => (|s: ParseStream<'_, '_>| peek2(s, count)).parse2(alloc, tokens),
        "lookahead" => (|s: ParseStream<'_, '_>| lookahead(s, count)).parse2(alloc, tokens),
        "fork" => (|s: ParseStream<'_, '_>| fork(s, count)).parse2(alloc, tokens),
        "group" => (|s: ParseStream<'_, '_>| group(s, count)).parse2(alloc, tokens),
        "terminated" => (|s: ParseStream<'_, '_>| terminated(s)).parse2(alloc, tokens),
        "separated" => (|s: ParseStream<'_, '_>| separated(s)).parse2(alloc, tokens),
        "refused" => (|s: ParseStream<'_, '_>| refused(s, count)).parse2(alloc, tokens),
        "missed" => (|s: ParseStream<'_, '_>| missed(s, count)).parse2(alloc, tokens),
        _ => bail!("no such call"),
    };
    parsed.ok().context("parsing the text")
}

// Lays the text out, and makes no call.
fn laid_out(alloc: Global, tokens: TokenStream) -> Result<usize> {
    let buffer = TokenBuffer::new2(alloc, 0, tokens)?;
    Ok(usize::from(buffer.begin().eof()))
}

fn idents(input: ParseStream<'_, '_>, count: usize) -> syn_parse::Result<usize> {
    for _i in 0..count {
        let _: Ident = input.parse()?;
    }
    Ok(count)
}

fn any(input: ParseStream<'_, '_>, count: usize) -> syn_parse::Result<usize> {
    for _i in 0..count {
        let _ = Ident::parse_any(input)?;
    }
    Ok(count)
}

fn keyword(input: ParseStream<'_, '_>, count: usize) -> syn_parse::Result<usize> {
    for _i in 0..count {
        let _: token::While = input.parse()?;
    }
    Ok(count)
}

fn comma(input: ParseStream<'_, '_>, count: usize) -> syn_parse::Result<usize> {
    for _i in 0..count {
        let _: token::Comma = input.parse()?;
    }
    Ok(count)
}

fn semi(input: ParseStream<'_, '_>, count: usize) -> syn_parse::Result<usize> {
    for _i in 0..count {
        let _: token::Semi = input.parse()?;
    }
    Ok(count)
}

fn eq(input: ParseStream<'_, '_>, count: usize) -> syn_parse::Result<usize> {
    for _i in 0..count {
        let _: token::Eq = input.parse()?;
    }
    Ok(count)
}

fn path_sep(input: ParseStream<'_, '_>, count: usize) -> syn_parse::Result<usize> {
    for _i in 0..count {
        let _: token::PathSep = input.parse()?;
    }
    Ok(count)
}

fn shr_eq(input: ParseStream<'_, '_>, count: usize) -> syn_parse::Result<usize> {
    for _i in 0..count {
        let _: token::ShrEq = input.parse()?;
    }
    Ok(count)
}

fn punct(input: ParseStream<'_, '_>, count: usize) -> syn_parse::Result<usize> {
    for _i in 0..count {
        let _: Punct = input.parse()?;
    }
    Ok(count)
}

fn literal(input: ParseStream<'_, '_>, count: usize) -> syn_parse::Result<usize> {
    for _i in 0..count {
        let _: Literal = input.parse()?;
    }
    Ok(count)
}

fn lifetime(input: ParseStream<'_, '_>, count: usize) -> syn_parse::Result<usize> {
    for _i in 0..count {
        let _: Lifetime = input.parse()?;
    }
    Ok(count)
}

fn tree(input: ParseStream<'_, '_>, count: usize) -> syn_parse::Result<usize> {
    for _i in 0..count {
        let _: TokenTree = input.parse()?;
    }
    Ok(count)
}

fn peek(input: ParseStream<'_, '_>, count: usize) -> syn_parse::Result<usize> {
    let mut seen = 0usize;
    for _i in 0..count {
        if input.peek::<token::Fn>() {
            seen = seen.saturating_add(1);
        }
        if input.peek::<token::Comma>() {
            seen = seen.saturating_add(1);
        }
        if input.peek::<Ident>() {
            seen = seen.saturating_add(1);
        }
        let _ = Ident::parse_any(input)?;
    }
    Ok(seen)
}

fn peek2(input: ParseStream<'_, '_>, count: usize) -> syn_parse::Result<usize> {
    let mut seen = 0usize;
    for _i in 0..count {
        if input.peek2::<Ident>() {
            seen = seen.saturating_add(1);
        }
        let _ = Ident::parse_any(input)?;
    }
    Ok(seen)
}

fn lookahead(input: ParseStream<'_, '_>, count: usize) -> syn_parse::Result<usize> {
    let mut seen = 0usize;
    for _i in 0..count {
        let mut lookahead = input.lookahead1();
        if lookahead.peek::<token::Fn>()? {
            seen = seen.saturating_add(1);
        } else if lookahead.peek::<token::Comma>()? {
            seen = seen.saturating_add(1);
        } else if lookahead.peek::<Ident>()? {
            let _ = Ident::parse_any(input)?;
        } else {
            return Err(lookahead.error());
        }
    }
    Ok(seen)
}

fn one_fork(input: ParseStream<'_, '_>) -> syn_parse::Result<()> {
    reads_keep_scope();
    forks_follow();
    let mut fork = input.fork();
    match Ident::parse_any(&mut fork) {
        Ok(_) => {
            input.advance_to(fork);
            Ok(())
        }
        Err(fault) => {
            fork.discard();
            Err(fault)
        }
    }
}

fn fork(input: ParseStream<'_, '_>, count: usize) -> syn_parse::Result<usize> {
    for _i in 0..count {
        one_fork(input)?;
    }
    Ok(count)
}

fn group(input: ParseStream<'_, '_>, count: usize) -> syn_parse::Result<usize> {
    for _i in 0..count {
        let _ = input.within(Delimiter::Parenthesis, |content| Ident::parse_any(content))?;
    }
    Ok(count)
}

fn terminated(input: ParseStream<'_, '_>) -> syn_parse::Result<usize> {
    Ok(Punctuated::<Ident, token::Comma>::parse_terminated(input)?.len())
}

fn separated(input: ParseStream<'_, '_>) -> syn_parse::Result<usize> {
    Ok(Punctuated::<Ident, token::Comma>::parse_separated_nonempty(input)?.len())
}

fn is_refused(input: ParseStream<'_, '_>) -> syn_parse::Result<bool> {
    match input.parse::<token::Fn>() {
        Ok(_) => Ok(false),
        Err(Fault::Refused(_)) => Ok(true),
        Err(fault) => Err(fault),
    }
}

fn refused(input: ParseStream<'_, '_>, count: usize) -> syn_parse::Result<usize> {
    let mut seen = 0usize;
    for _i in 0..count {
        if is_refused(input)? {
            seen = seen.saturating_add(1);
        }
        let _ = Ident::parse_any(input)?;
    }
    Ok(seen)
}

// Looks for three tokens that are not next, and returns whether the error rejects.
fn is_missed(input: ParseStream<'_, '_>) -> syn_parse::Result<bool> {
    let mut lookahead = input.lookahead1();
    if lookahead.peek::<token::Fn>()?
        || lookahead.peek::<token::Comma>()?
        || lookahead.peek::<Literal>()?
    {
        return Ok(false);
    }
    match lookahead.error() {
        Fault::Refused(_) => Ok(true),
        fault => Err(fault),
    }
}

fn missed(input: ParseStream<'_, '_>, count: usize) -> syn_parse::Result<usize> {
    let mut seen = 0usize;
    for _i in 0..count {
        if is_missed(input)? {
            seen = seen.saturating_add(1);
        }
        let _ = Ident::parse_any(input)?;
    }
    Ok(seen)
}
