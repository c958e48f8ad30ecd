//! Functions that parse lists of tokens of one kind.
ghost use Rattle.std.specs.Prelude.{◌≡◌, map, IfOk};
ghost use Rattle.std.specs.List.{flat_map};
ghost use Rattle.tok_types.specs.Texts.{punctuation_word};
ghost use Rattle.syn_punctuated.specs.Lists.{values_of, separators_of};
ghost use Rattle.syn_punctuated.specs.Paired.{paired};
ghost use Rattle.syn_replay.specs.Commands as commands;
ghost use Rattle.syn_replay.specs.Session.Reading.{IsRead, pair_parts, rule_of};
ghost use Rattle.syn_replay.specs.Meanings.{kind_of, pieces_in, separator_of};

use crate::command::{Kind, Separator};
use crate::report::{Answer, Piece};
use crate::session::{pieces, tokens};
use std::alloc::{AllocError, Global};
use syn_parse::{ParseStream, Result};
use syn_punctuated::Punctuated;
use tok_types::token::{self, Punctuation};

/// The rule that decides where a list ends.
#[derive(Clone, Copy)]
pub enum Form {
    /// The list ends at the end of the stream. The last separator may be missing.
    Terminated,
    /// The list ends after the first value that no separator follows.
    Separated,
}

/// Parses a list of tokens of the given kind, with the given separator between the tokens.
pub fn read(
    input: ParseStream<'_, '_>,
    form: Form,
    kind: Kind,
    separator: Separator,
) -> Result<Answer>
    ensures { IsRead (commands.list (rule_of form) (kind_of kind) (separator_of separator))
        input.old result input.new }
{
    match separator {
        Separator::Comma => list_by(input, form, kind, ",", token::Comma::default()),
        Separator::Semi => list_by(input, form, kind, ";", token::Semi::default()),
        Separator::Plus => list_by(input, form, kind, "+", token::Plus::default()),
        Separator::PathSep => list_by(input, form, kind, "::", token::PathSep::default()),
    }
}

// Parses a list whose separator has the type of the last argument. Its text is `text`.
fn list_by<const K: usize, const N: usize>(
    input: ParseStream<'_, '_>,
    form: Form,
    kind: Kind,
    text: &str,
    _: Punctuation<K, N>,
) -> Result<Answer>
    requires { text.now ≡ punctuation_word K N }
    ensures { IsRead (commands.list (rule_of form) (kind_of kind) text.now)
        input.old result input.new }
{
    let alloc = input.allocator();
    let token = |stream: ParseStream<'_, '_>| tokens::parse(stream, kind);
    let list: Punctuated<Vec<Piece>, Punctuation<K, N>> = match form {
        Form::Terminated => Punctuated::parse_terminated_with(input, token)?,
        Form::Separated => Punctuated::parse_separated_nonempty_with(input, token)?,
    };
    Ok(Answer::List(parts(alloc, text, list)?))
}

// Returns the values and the separators in turn.
fn parts<const K: usize, const N: usize>(
    alloc: Global,
    text: &str,
    list: Punctuated<Vec<Piece>, Punctuation<K, N>>,
) -> std::result::Result<Vec<Vec<Piece>>, AllocError>
    ensures { IfOk result (λ ps. map pieces_in ps.items
        ≡ flat_map (pair_parts text.now)
        (paired (values_of list.entry) (separators_of list.entry))) }
{
    let mut parts = Vec::new(alloc);
    let mut pairs = list.into_pairs();
    while let Some(pair) = pairs.next() {
        let (value, separator) = pair.into_tuple();
        parts.push(value)?;
        if let Some(separator) = separator {
            parts.push(pieces::characters(alloc, text.as_bytes(), &separator.spans)?)?;
        }
    }
    Ok(parts)
}
