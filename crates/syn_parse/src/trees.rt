//! Implementations of `Parse` for token trees, leaf tokens, lifetimes and token streams.
ghost use Rattle.std.specs.Prelude.{◌≡◌, is_some};
ghost use Rattle.tok_buffer.specs.Cursors.{place_of};
ghost use Rattle.syn_parse.specs.Parses as spec;
ghost use Rattle.syn_parse.specs.Parses.{GroupParses, IdentParses, LifetimeParses, LiteralParses, PunctParses, RestParses, TreeParses};
ghost use Rattle.syn_parse.specs.Takings.{lower, told};
ghost use Rattle.syn_parse.specs.Tokens.{take_ident, take_lifetime, take_literal, take_punct};
ghost use Rattle.syn_parse.specs.Lighter.{lowers_token};

use crate::fault::Result;
use crate::parse::Parse;
use crate::stream::ParseStream;
use tok_buffer::{Cursor, Lifetime};
use tok_core::{Delimiter, Group, Ident, Literal, Punct, TokenStream, TokenTree};
use tok_types::accept_as_ident;

/// Parses an identifier that is not a reserved word.
impl Parse for Ident {
    ghost parses = { IdentParses };

    ghost takes = { told (λ v. v) take_ident (lower (lowers_token _)) };

    #[tactic(auto, using(crate::proofs::Told::token_told))]
    fn parse(input: ParseStream<'_, '_>) -> Result<Self> {
        ident(input)
    }
}

// Does what `Ident::parse` does. It stands apart, as those of the other tokens do, so that what
// `parse` takes is proved of its result, and not at each way out.
fn ident(input: ParseStream<'_, '_>) -> Result<Ident>
    ensures { IdentParses input.old result input.new }
{
    let Some((ident, rest)) = input.cursor().ident() else {
        return Err(input.refuse("expected identifier"));
    };
    let name = ident.as_str();
    if !accept_as_ident(name) {
        return Err(input.error(format_args!("expected identifier, found keyword `{name}`")));
    }
    // A short one is returned apart, and so goes through memory once less. In one arm with longer
    // ones, a call would take 184 instructions and not 161.
    if let Some(short) = ident.copied_if_short() {
        input.move_to(rest);
        return Ok(short);
    }
    let copy = ident.clone()?;
    input.move_to(rest);
    Ok(copy)
}

/// Parses a lifetime. The name may be `static` or `_`, but not another reserved word.
impl Parse for Lifetime {
    ghost parses = { LifetimeParses };

    ghost takes = { told (λ v. v) take_lifetime (lower (lowers_token _)) };

    #[tactic(auto, using(crate::proofs::Told::token_told))]
    fn parse(input: ParseStream<'_, '_>) -> Result<Self> {
        lifetime(input)
    }
}

// Does what `Lifetime::parse` does.
fn lifetime(input: ParseStream<'_, '_>) -> Result<Lifetime>
    ensures { LifetimeParses input.old result input.new }
{
    let Some((lifetime, rest)) = input.cursor().lifetime() else {
        return Err(input.refuse("expected lifetime"));
    };
    let name = lifetime.ident.as_str();
    if !accept_as_lifetime(name) {
        return Err(input.error(format_args!("unexpected keyword lifetime \"'{name}\"")));
    }
    let apostrophe = lifetime.apostrophe;
    // As in `ident`.
    if let Some(ident) = lifetime.ident.copied_if_short() {
        input.move_to(rest);
        return Ok(Lifetime { apostrophe, ident });
    }
    let ident = lifetime.ident.clone()?;
    input.move_to(rest);
    Ok(Lifetime { apostrophe, ident })
}

// Returns `true` if `Lifetime::parse` accepts a lifetime with this name.
fn accept_as_lifetime(name: &str) -> bool
    ensures { result ≡ spec.accept_as_lifetime name.now }
{
    accept_as_ident(name) || name == "static" || name == "_"
}

/// Parses a literal.
impl Parse for Literal {
    ghost parses = { LiteralParses };

    ghost takes = { told (λ v. v) take_literal (lower (lowers_token _)) };

    #[tactic(auto, using(crate::proofs::Told::token_told))]
    fn parse(input: ParseStream<'_, '_>) -> Result<Self> {
        literal(input)
    }
}

// Does what `Literal::parse` does.
fn literal(input: ParseStream<'_, '_>) -> Result<Literal>
    ensures { LiteralParses input.old result input.new }
{
    let Some((literal, rest)) = input.cursor().literal() else {
        return Err(input.refuse("expected literal token"));
    };
    // As in `ident`.
    if let Some(short) = literal.copied_if_short() {
        input.move_to(rest);
        return Ok(short);
    }
    let copy = literal.clone()?;
    input.move_to(rest);
    Ok(copy)
}

/// Parses a punct other than an apostrophe.
impl Parse for Punct {
    ghost parses = { PunctParses };

    ghost takes = { told (λ v. v) take_punct (lower (lowers_token _)) };

    #[tactic(auto, using(crate::proofs::Told::token_told))]
    fn parse(input: ParseStream<'_, '_>) -> Result<Self> {
        punct(input)
    }
}

// Does what `Punct::parse` does.
fn punct(input: ParseStream<'_, '_>) -> Result<Punct>
    ensures { PunctParses input.old result input.new }
{
    let Some((punct, rest)) = input.cursor().punct() else {
        return Err(input.refuse("expected punctuation token"));
    };
    input.move_to(rest);
    Ok(punct)
}

/// Parses the next tree, which may be an invisible group.
impl Parse for TokenTree {
    ghost parses = { TreeParses };

    fn parse(input: ParseStream<'_, '_>) -> Result<Self> {
        let alloc = input.allocator();
        let Some((next, rest)) = input.cursor().token_tree(alloc)? else {
            return Err(input.refuse("expected token tree"));
        };
        input.move_to(rest);
        Ok(next)
    }
}

/// Parses the next tree, which must be a visible group.
impl Parse for Group {
    ghost parses = { GroupParses };

    #[tactic(auto, using(crate::proofs::Names::no_group, crate::proofs::Reading::reads_refused))]
    fn parse(input: ParseStream<'_, '_>) -> Result<Self> {
        let alloc = input.allocator();
        let cursor = input.cursor();
        if !is_at_visible_group(cursor) {
            return Err(input.refuse("expected group token"));
        }
        let Some((group, rest)) = cursor.any_group_token(alloc)? else {
            return Err(input.refuse("expected group token"));
        };
        input.move_to(rest);
        Ok(group)
    }
}

// Returns `true` if the next tree is a visible group.
fn is_at_visible_group(cursor: Cursor<'_>) -> bool
    ensures { result ≡ is_some (spec.read_group (place_of cursor.entry)) }
{
    match cursor.any_group() {
        Some((_, Delimiter::None, _, _)) => false,
        Some(_) => true,
        None => false,
    }
}

/// Parses all remaining trees of the scope.
///
/// After the call, the stream is at the empty cursor, which is in no scope.
impl Parse for TokenStream {
    ghost parses = { RestParses };

    fn parse(input: ParseStream<'_, '_>) -> Result<Self> {
        let alloc = input.allocator();
        let stream = input.cursor().token_stream(alloc)?;
        input.move_to(Cursor::empty());
        Ok(stream)
    }
}
