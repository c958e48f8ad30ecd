//! The lexer, which reads a text into token trees, or into any other value that a builder creates.
ghost use Rattle.std.specs.Prelude.{◌≡◌, [], true, IfOk, IfErr, ◌+◌, ◌<◌, ◌^◌, length};
ghost use Rattle.std.specs.Str.{chars};
ghost use Rattle.tok_lexical.specs.Contents.{has_return};
ghost use Rattle.tok_core.specs.Building.{nothing};
ghost use Rattle.tok_core.specs.Lexical.Errors.{OnRefused};
ghost use Rattle.tok_core.specs.Lexical.Outcome.{FollowsGrammar, FollowsSource};
ghost use Rattle.tok_core.specs.Lexical.Reading.{ReadsFrom, IsRefusedFrom};
ghost use Rattle.tok_lexical.specs.declared.rule.Mode.TheVariants.{Plain, Marked};

mod attribute;
mod blanks;
mod build;
mod error;
mod nest;

use crate::stream::TokenStream;
use blanks::past_blanks;
pub use build::Build;
use build::TreeBuilder;
pub use error::{LexError, LexFault};
pub use nest::MOST_LEVELS;
use nest::Nest;
use std::alloc::Global;
use tok_lexical::source::past_start;
use tok_lexical::{Edition, LexErrorKind, Mode, has_return};

// Returns `false` only if the text has no U+000D. It is searched if the mode asks pieces for one.
//
// A string of a source may have none that no line feed follows, and few sources have any: one search
// of the whole text spares a search of each string.
fn may_have_return(mode: Mode, text: &str) -> bool
    ensures { has_return (chars text.now) ≡ true → result ≡ true }
{
    match mode {
        Mode::Source(_) => has_return(text),
        _ => true,
    }
}

/// Lexes a text, and passes its tokens to a builder. To lex a text into token trees, call `lex`.
///
/// `text` begins at byte `start` of source number `source`, and `mode` selects its grammar. Returns
/// `Refused` if the grammar rejects `text`, and `Memory` if an allocation fails. If there is an
/// error, the call drops `builder`.
///
/// # Requires
///
/// - `start + text.len()` must be less than 2^64.
/// - `builder` must be empty.
//
// The time is linear in the text: pieces are taken off its front in turn, and each is looked at a
// fixed number of times. A rule that looks far and then doesn't fit leads to an error, as for an
// unclosed comment or string; or it has looked at a run that no later piece passes again, as the
// `#` after an `r`, or the marks after a punct.
pub fn read<B: Build + Drop>(
    builder: B,
    alloc: Global,
    source: u32,
    mode: Mode,
    start: usize,
    text: &str,
) -> Result<B, LexFault>
    requires fits { start + length text.now < 2 ^ 64 }
    requires empty { B.levels builder ≡ nothing }
    ensures reads { IfOk result
        (λ built. ReadsFrom start mode source (chars text.now)
        (B.levels built).inner) }
    ensures closed { IfOk result (λ built. (B.levels built).outer ≡ []) }
    ensures refuses { IfErr result
        (λ fault. OnRefused fault
        (IsRefusedFrom start mode source (chars text.now))) }
{
    let returns = may_have_return(mode, text);
    let mut nest = Nest::new(alloc, source, builder);
    let mut rest = text;
    let mut at = start;
    while !rest.is_empty() {
        let (end, after) = match nest.take_first(mode, at, rest, returns) {
            Ok(taken) => taken,
            Err(halt) => return Err(halt.fault(source, at)),
        };
        rest = past_blanks(after);
        at = end + (after.len() - rest.len());
    }
    let Nest {
        mut open,
        built,
        ..
    } = nest;
    match open.pop() {
        Some((_, begin)) => {
            let error = LexError::new(LexErrorKind::UnclosedGroup, source, begin);
            Err(LexFault::Refused(error))
        }
        None => Ok(built),
    }
}

// Reads a text that begins at byte `start` of its source into trees.
fn read_trees(
    alloc: Global,
    source: u32,
    mode: Mode,
    start: usize,
    text: &str,
) -> Result<TokenStream, LexFault>
    requires fits { start + length text.now < 2 ^ 64 }
    ensures reads { IfOk result
        (λ stream. ReadsFrom start mode source (chars text.now) stream) }
    ensures refuses { IfErr result
        (λ fault. OnRefused fault
        (IsRefusedFrom start mode source (chars text.now))) }
{
    let builder = TreeBuilder::with_room(alloc, text.len())?;
    match read(builder, alloc, source, mode, start, text) {
        Ok(built) => Ok(built.into_stream()?),
        Err(fault) => Err(fault),
    }
}

/// Lexes `text` into a token stream.
///
/// `text` must not contain doc comments. To lex a text with doc comments, call `lex_source`. The
/// spans of the result refer to source number `source`.
///
/// A string in `text` may contain a carriage return that is not directly before a line feed. The
/// method `string_value` returns the value of such a string only if a `\` before a line ending
/// skips the carriage return.
///
/// Returns `Refused` with a rule number and a byte position if the grammar rejects `text`. Returns
/// `Memory` if an allocation fails.
///
/// # Examples
///
/// ```rust
/// let stream = lex(alloc, 0, "a += (b)")?;
/// assert_eq!(rt; stream.trees().len(), 4);
/// ```
pub fn lex(alloc: Global, source: u32, text: &str) -> Result<TokenStream, LexFault>
    ensures { FollowsGrammar Plain source (chars text.now) result }
{
    read_trees(alloc, source, Mode::Plain, 0, text)
}

/// Lexes a text in which `«` and `»` are the delimiters of invisible groups.
///
/// The spans of the result do not count the bytes of `«` and `»`. A string may contain a carriage
/// return that is not directly before a line feed, as for `lex`. Returns `Refused` with a rule
/// number and a byte position if the grammar rejects `text`. Returns `Memory` if an allocation
/// fails.
///
/// # Examples
///
/// ```rust
/// let stream = lex_marked(alloc, 0, "«a» + b")?;
/// assert_eq!(rt; is_filled(&stream), true);
/// let visible = lex(alloc, 0, "a + b")?;
/// assert_eq!(rt; same_visible(alloc, &stream, &visible)?, true);
/// ```
pub fn lex_marked(alloc: Global, source: u32, text: &str) -> Result<TokenStream, LexFault>
    ensures { FollowsGrammar Marked source (chars text.now) result }
{
    read_trees(alloc, source, Mode::Marked, 0, text)
}

/// Lexes a whole Rust source of the edition `edition`.
///
/// Each doc comment becomes an attribute. The call skips a byte order mark and a shebang line at
/// the start, but spans count their bytes. Returns `Refused` with a rule number and a byte position
/// if the grammar of the edition rejects `text`. Returns `Memory` if an allocation fails.
///
/// # Examples
///
/// ```rust
/// let stream = lex_source(alloc, Edition::default(), 0, "/// A point.\nstruct Point;")?;
/// assert_eq!(rt; stream.trees().len(), 5);
/// ```
pub fn lex_source(
    alloc: Global,
    edition: Edition,
    source: u32,
    text: &str,
) -> Result<TokenStream, LexFault>
    ensures { FollowsSource edition source (chars text.now) result }
{
    let rest = past_start(text);
    let start = text.len() - rest.len();
    read_trees(alloc, source, Mode::Source(edition), start, rest)
}
