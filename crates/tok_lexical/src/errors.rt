//! Decides which parts of a text the grammar rejects, and why.
ghost use Rattle.std.specs.Prelude.{◌≡◌, if◌then◌else◌, Some, None, true};
ghost use Rattle.std.specs.Str.{chars};
ghost use Rattle.tok_lexical.specs.Contents.{has_return};
ghost use Rattle.tok_lexical.specs.Errors.{error_kind, is_reserved, is_guard, lifetime_error};

use crate::comments::{has_broken_line, is_block_doc, is_line_doc};
use crate::contents::{has_bare_return, is_unfit, is_wrong};
use crate::edition::Edition;
use crate::lex_error_kind::LexErrorKind;
use crate::numbers::{is_exponent, is_float, is_malformed};
use crate::rule::{Mode, Rule};
use crate::text::{begins_with, past_first};
use crate::words::{is_missing, is_plain, is_raw_prefix};

fn refused_if(is_refused: bool, kind: LexErrorKind) -> Option<LexErrorKind>
    ensures { result ≡ (if is_refused then Some kind else None) }
{
    if is_refused { Some(kind) } else { None }
}

/// Returns `true` if the text `after` makes the identifier `name` a reserved prefix.
// Inlined: each identifier of a source asks this, and a call would take more than the answer.
#[inline(always)]
fn is_reserved(edition: Edition, name: &str, after: &str) -> bool
    ensures { result ≡ is_reserved edition (chars name.now) (chars after.now) }
{
    if edition.reserves_prefixes() {
        begins_with(after, '"') || begins_with(after, '\'') || begins_with(after, '#')
    } else {
        begins_with(after, '#') && is_raw_prefix(name)
    }
}

/// Returns `true` if the text `after` makes the punct `piece` a reserved guard.
// Inlined: each punct of a source asks this.
#[inline(always)]
fn is_guard(edition: Edition, piece: &str, after: &str) -> bool
    ensures { result ≡ is_guard edition (chars piece.now) (chars after.now) }
{
    edition.reserves_guards()
        && begins_with(piece, '#')
        && (begins_with(after, '"') || begins_with(after, '#'))
}

/// Returns the kind of the error if the grammar rejects a lifetime, and `None` otherwise.
///
/// The grammar rejects a raw name that does not exist. In a source, it also rejects a lifetime
/// directly before an apostrophe. From the 2021 edition, a lifetime that is not raw must not be
/// directly before a `#`.
// Inlined: each lifetime of a source asks this.
#[inline(always)]
fn lifetime_error(mode: Mode, name: &str, after: &str) -> Option<LexErrorKind>
    ensures { result ≡ lifetime_error mode (chars name.now) (chars after.now) }
{
    if is_missing(name) {
        return Some(LexErrorKind::MissingRawIdentifier);
    }
    match mode {
        Mode::Source(_) if begins_with(after, '\'') => Some(LexErrorKind::MalformedQuoted),
        Mode::Source(edition) => refused_if(
            edition.reserves_prefixes() && begins_with(after, '#') && is_plain(name),
            LexErrorKind::ReservedPrefix,
        ),
        Mode::Plain | Mode::Marked => None,
    }
}

/// Returns the kind of the error if the grammar rejects `piece`, and `None` otherwise.
///
/// `piece` is the part of a text that `rule` recognized, such as a token or a comment. `at` is the
/// byte at which `piece` begins, and `after` is the text directly after `piece`. `mode` selects the
/// grammar.
///
/// If `returns` is `false`, the call assumes that `piece` contains no carriage return, and does not
/// search for one.
// Inlined: the loop over pieces exists twice, for trees and for entries, and a call in each would
// cost every piece.
#[inline(always)]
pub fn error_kind(
    rule: Rule,
    mode: Mode,
    at: usize,
    piece: &str,
    after: &str,
    returns: bool,
) -> Option<LexErrorKind>
    ensures { (has_return (chars piece.now) ≡ true → returns ≡ true)
        → result ≡ error_kind rule mode at (chars piece.now) (chars after.now) }
{
    match rule {
        Rule::ByteOrderMark => refused_if(at != 0, LexErrorKind::UnknownCharacter),
        Rule::LineComment => match mode {
            Mode::Source(_) => refused_if(
                is_line_doc(piece) && has_broken_line(piece, after, returns),
                LexErrorKind::BareReturn,
            ),
            Mode::Plain | Mode::Marked => refused_if(is_line_doc(piece), LexErrorKind::DocComment),
        },
        Rule::BlockComment => match mode {
            Mode::Source(_) => refused_if(
                is_block_doc(piece) && has_bare_return(piece, returns),
                LexErrorKind::BareReturn,
            ),
            Mode::Plain | Mode::Marked => refused_if(is_block_doc(piece), LexErrorKind::DocComment),
        },
        Rule::OpenComment => Some(LexErrorKind::UnclosedComment),
        Rule::QuotedString(contents) => match mode {
            Mode::Source(_) => refused_if(
                is_wrong(contents, piece, returns),
                LexErrorKind::MalformedQuoted,
            ),
            Mode::Plain | Mode::Marked => None,
        },
        Rule::BadString => Some(LexErrorKind::MalformedQuoted),
        Rule::BadByteChar => Some(LexErrorKind::MalformedQuoted),
        Rule::StringPrefix => Some(LexErrorKind::PrefixedString),
        Rule::RawString(contents) => refused_if(
            is_unfit(contents, piece, returns),
            LexErrorKind::MalformedQuoted,
        ),
        Rule::BadPrefixed(_) => Some(LexErrorKind::MalformedQuoted),
        Rule::BadEscapedChar => Some(LexErrorKind::MalformedQuoted),
        Rule::Lifetime => lifetime_error(mode, past_first(piece), after),
        Rule::PlainLifetime => lifetime_error(mode, past_first(piece), after),
        Rule::Apostrophe => match mode {
            Mode::Marked => None,
            Mode::Plain | Mode::Source(_) => Some(LexErrorKind::LoneApostrophe),
        },
        Rule::Based(base) => refused_if(
            is_malformed(base, piece, after),
            LexErrorKind::MalformedNumber,
        ),
        Rule::BadBased(_) => Some(LexErrorKind::MalformedNumber),
        Rule::Float => refused_if(is_exponent(after), LexErrorKind::MalformedNumber),
        Rule::Decimal => match mode {
            Mode::Source(_) => refused_if(is_exponent(after), LexErrorKind::MalformedNumber),
            Mode::Plain | Mode::Marked => {
                refused_if(is_float(piece, after), LexErrorKind::FloatLiteral)
            }
        },
        Rule::RawIdentifier => refused_if(is_missing(piece), LexErrorKind::MissingRawIdentifier),
        Rule::Identifier => match mode {
            Mode::Source(edition) => refused_if(
                is_reserved(edition, piece, after),
                LexErrorKind::ReservedPrefix,
            ),
            Mode::Plain | Mode::Marked => None,
        },
        Rule::Punct => match mode {
            Mode::Source(edition) => {
                refused_if(is_guard(edition, piece, after), LexErrorKind::ReservedGuard)
            }
            Mode::Plain | Mode::Marked => None,
        },
        Rule::Other => Some(LexErrorKind::UnknownCharacter),
        _ => None,
    }
}
