//! Functions that parse a token whose kind is known only at run time.
ghost use Rattle.std.specs.Prelude.{◌≡◌, ◌≤◌, length};
ghost use Rattle.std.specs.Str.{chars};
ghost use Rattle.tok_buffer.specs.Reads.{read_keyword, read_punctuation, sized};
ghost use Rattle.tok_types.specs.Texts.{in_backquotes};
ghost use Rattle.syn_parse.specs.ErrorWords.{expected, refused_at, punctuation_message};
ghost use Rattle.syn_replay.specs.Kinds as spec;
ghost use Rattle.syn_replay.specs.Session.Reading.{ReadsPieces};
ghost use Rattle.syn_replay.specs.Meanings.{kind_of};

use crate::command::Kind;
use crate::report::Piece;
use crate::session::pieces;
use syn_parse::{IdentExt, LifetimeExt, Parse, ParseStream, Result, parsing};
use tok_buffer::Lifetime;
use tok_core::{Ident, Literal, Punct};
use tok_types::token::{keyword_text, punctuation_text};

/// Parses a token of the given kind, and returns its pieces.
// Each kind has a function of its own, out of line. A call clears the locals of all its arms at its
// beginning, so it would clear those of nine kinds for each token.
pub fn parse(input: ParseStream<'_, '_>, kind: Kind) -> Result<Vec<Piece>>
    ensures { ReadsPieces (spec.read (kind_of kind) input.old.place)
        (spec.kind_missing (kind_of kind) input.old) input.old result input.new }
{
    match kind {
        Kind::Ident => ident(input),
        Kind::IdentAny => any_ident(input),
        Kind::Lifetime => lifetime(input),
        Kind::LifetimeAny => any_lifetime(input),
        Kind::Literal => literal(input),
        Kind::Punct => punct(input),
        Kind::Underscore => keyword(input, "_"),
        Kind::Keyword(k) => keyword(input, keyword_text(k)),
        Kind::Punctuation(k) => punctuation(input, punctuation_text(k)),
    }
}

// Parses an identifier that is no reserved word.
#[inline(never)]
fn ident(input: ParseStream<'_, '_>) -> Result<Vec<Piece>>
    ensures { ReadsPieces (spec.read spec.ident input.old.place)
        (spec.kind_missing spec.ident input.old) input.old result input.new }
{
    let alloc = input.allocator();
    let ident = Ident::parse(input)?;
    Ok(pieces::ident(alloc, &ident)?)
}

// Parses an identifier of any text.
#[inline(never)]
fn any_ident(input: ParseStream<'_, '_>) -> Result<Vec<Piece>>
    ensures { ReadsPieces (spec.read spec.ident_any input.old.place)
        (spec.kind_missing spec.ident_any input.old) input.old result input.new }
{
    let alloc = input.allocator();
    let ident = Ident::parse_any(input)?;
    Ok(pieces::ident(alloc, &ident)?)
}

// Parses a lifetime whose name is no reserved word, or is `static` or `_`.
#[inline(never)]
fn lifetime(input: ParseStream<'_, '_>) -> Result<Vec<Piece>>
    ensures { ReadsPieces (spec.read spec.lifetime input.old.place)
        (spec.kind_missing spec.lifetime input.old) input.old result input.new }
{
    let alloc = input.allocator();
    let lifetime = Lifetime::parse(input)?;
    Ok(pieces::lifetime(alloc, &lifetime)?)
}

// Parses a lifetime of any name.
#[inline(never)]
fn any_lifetime(input: ParseStream<'_, '_>) -> Result<Vec<Piece>>
    ensures { ReadsPieces (spec.read spec.lifetime_any input.old.place)
        (spec.kind_missing spec.lifetime_any input.old) input.old result input.new }
{
    let alloc = input.allocator();
    let lifetime = Lifetime::parse_any(input)?;
    Ok(pieces::lifetime(alloc, &lifetime)?)
}

// Parses a literal.
#[inline(never)]
fn literal(input: ParseStream<'_, '_>) -> Result<Vec<Piece>>
    ensures { ReadsPieces (spec.read spec.literal input.old.place)
        (spec.kind_missing spec.literal input.old) input.old result input.new }
{
    let alloc = input.allocator();
    let literal = Literal::parse(input)?;
    Ok(pieces::literal(alloc, &literal)?)
}

// Parses a punct other than an apostrophe.
#[inline(never)]
fn punct(input: ParseStream<'_, '_>) -> Result<Vec<Piece>>
    ensures { ReadsPieces (spec.read spec.punct input.old.place)
        (spec.kind_missing spec.punct input.old) input.old result input.new }
{
    let alloc = input.allocator();
    let punct = Punct::parse(input)?;
    Ok(pieces::punct(alloc, punct)?)
}

// Parses the identifier with this text.
#[inline(never)]
fn keyword(input: ParseStream<'_, '_>, text: &str) -> Result<Vec<Piece>>
    ensures { ReadsPieces (read_keyword text.now input.old.place)
        (refused_at input.old (expected (in_backquotes text.now))) input.old result input.new }
{
    let alloc = input.allocator();
    let span = parsing::keyword(input, text)?;
    Ok(pieces::word(alloc, text, span)?)
}

// Parses the puncts of this text, which is ASCII, of at most three characters.
fn punctuation(input: ParseStream<'_, '_>, text: &str) -> Result<Vec<Piece>>
    requires short { length text.now ≤ 3 }
    requires ascii { chars text.now ≡ text.now }
    ensures { ReadsPieces (read_punctuation text.now input.old.place)
        (punctuation_message text.now input.old) input.old result input.new }
{
    match text.len() {
        3 => puncts::<3>(input, text),
        2 => puncts::<2>(input, text),
        _ => puncts::<1>(input, text),
    }
}

// Parses the puncts of this text, which is ASCII, of `N` characters or empty.
#[inline(never)]
fn puncts<const N: usize>(input: ParseStream<'_, '_>, text: &str) -> Result<Vec<Piece>>
    requires few { N ≤ 3 }
    requires length { sized N text.now ≡ text.now }
    requires ascii { chars text.now ≡ text.now }
    ensures { ReadsPieces (read_punctuation text.now input.old.place)
        (punctuation_message text.now input.old) input.old result input.new }
{
    let alloc = input.allocator();
    let spans = parsing::punct::<N>(input, text)?;
    Ok(pieces::characters(alloc, text.as_bytes(), &spans)?)
}
