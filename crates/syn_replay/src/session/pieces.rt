//! Functions that convert tokens to pieces, each of which is the text and span of a leaf.
ghost use Rattle.std.specs.Prelude.{◌≡◌, ◌∷◌, [], map, IfOk, encode_utf8};
ghost use Rattle.tok_core.specs.Forest.{leaf};
ghost use Rattle.tok_leaves.specs.Leaves.{ident_of, literal_of, punct_of};
ghost use Rattle.tok_core.specs.Seen.{lifetime_trees};
ghost use Rattle.syn_replay.specs.Session.Reading.{ArePieces, punct_pieces};
ghost use Rattle.syn_replay.specs.Meanings.{piece_of};

use crate::report::Piece;
use std::alloc::{AllocError, Global};
use tok_buffer::Lifetime;
use tok_core::{Ident, Literal, Punct, Span, Text};

fn piece(alloc: Global, text: &str, span: Span) -> Result<Piece, AllocError>
    ensures { IfOk result (λ p. piece_of p ≡ record { text = text.now; span = span }) }
{
    Ok(Piece {
        text: Text::from_str(alloc, text)?,
        span,
    })
}

/// Returns a list of one piece with the given text and span.
pub fn word(alloc: Global, text: &str, span: Span) -> Result<Vec<Piece>, AllocError>
    ensures { IfOk result
        (λ ps. map piece_of ps.items ≡ record { text = text.now; span = span } ∷ []) }
{
    let mut pieces = Vec::with_capacity(alloc, 1)?;
    pieces.push(piece(alloc, text, span)?)?;
    Ok(pieces)
}

// Returns one piece with this text.
fn one(alloc: Global, text: Text, span: Span) -> Result<Vec<Piece>, AllocError>
    ensures { IfOk result
        (λ ps. map piece_of ps.items ≡ record { text = text; span = span } ∷ []) }
{
    let mut pieces = Vec::with_capacity(alloc, 1)?;
    pieces.push_reserved(Piece { text, span });
    Ok(pieces)
}

/// Returns a list of one piece with the text and span of an identifier.
pub fn ident(alloc: Global, ident: &Ident) -> Result<Vec<Piece>, AllocError>
    ensures { IfOk result (ArePieces (leaf (ident_of ident.now) ∷ [])) }
{
    one(alloc, ident.to_text()?, ident.span())
}

/// Returns a list of one piece with the text and span of a literal.
pub fn literal(alloc: Global, literal: &Literal) -> Result<Vec<Piece>, AllocError>
    ensures { IfOk result (ArePieces (leaf (literal_of literal.now) ∷ [])) }
{
    one(alloc, literal.to_text()?, literal.span())
}

// Returns the piece of one character.
fn character(alloc: Global, c: char, span: Span) -> Result<Piece, AllocError>
    ensures { IfOk result (λ p. piece_of p ≡ record { text = encode_utf8 c; span = span }) }
{
    let mut bytes = [0u8; 4];
    piece(alloc, c.encode_utf8(&mut bytes), span)
}

/// Returns a list of one piece with the character and span of a punct.
pub fn punct(alloc: Global, punct: Punct) -> Result<Vec<Piece>, AllocError>
    ensures { IfOk result (ArePieces (leaf (punct_of punct) ∷ [])) }
{
    let mut pieces = Vec::with_capacity(alloc, 1)?;
    pieces.push(character(alloc, punct.as_char(), punct.span())?)?;
    Ok(pieces)
}

/// Returns two pieces: the apostrophe of a lifetime, and its name.
pub fn lifetime(alloc: Global, lifetime: &Lifetime) -> Result<Vec<Piece>, AllocError>
    ensures { IfOk result
        (ArePieces (lifetime_trees lifetime.now.apostrophe (ident_of lifetime.now.ident))) }
{
    let mut pieces = Vec::with_capacity(alloc, 2)?;
    pieces.push(character(alloc, '\'', lifetime.apostrophe)?)?;
    pieces.push(piece(alloc, lifetime.ident.as_str(), lifetime.ident.span())?)?;
    Ok(pieces)
}

/// Returns a piece for each character of a punctuation, and stops early if there are fewer spans
/// than characters.
pub fn characters(alloc: Global, text: &[u8], spans: &[Span]) -> Result<Vec<Piece>, AllocError>
    ensures { IfOk result (λ ps. map piece_of ps.items ≡ punct_pieces text.now spans.now) }
{
    let mut pieces = Vec::with_capacity(alloc, text.len())?;
    for (&byte, &span) in text.iter().zip(spans) {
        pieces.push_reserved(character(alloc, char::from(byte), span)?);
    }
    Ok(pieces)
}
