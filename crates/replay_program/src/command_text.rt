//! A parser for a text with one command on each line.
ghost use Rattle.std.specs.Prelude.{◌≡◌, ◌<◌, ◌==◌, ◌∷◌, [], length, IfOk, IfSome, MatchOption, MatchResult, ℕ, None, Some, false, map};
ghost use Rattle.std.specs.Option.{ForSome, option_map};
ghost use Rattle.std.specs.Str.{IsUtf8};
ghost use Rattle.std.specs.List.{slice_split};
ghost use Rattle.memchr.specs.Find.{IsFirstByte, is_byte};
ghost use Rattle.tok_lexical.specs.Ascii.{space};
ghost use Rattle.syn_replay.specs.Commands as commands;
ghost use Rattle.replay_program.specs.CommandText as spec;
ghost use Rattle.replay_program.specs.Faults.{IsUnreadableLine, OnUnreadable};
ghost use Rattle.replay_program.specs.Input.{lines_left};
ghost use Rattle.syn_replay.specs.Commands.{command_of};
ghost use Rattle.syn_replay.specs.Meanings.{kind_of, look_of, separator_of};
ghost use Rattle.replay_program.specs.declared.fault.Unreadable.TheVariants as unreadable;

use crate::fault::{Fault, Unreadable};
use crate::input::first_line;
use std::alloc::{AllocError, Global};
use syn_replay::{Command, Kind, Look, Separator};
use tok_core::Delimiter;
use tok_types::token::{keyword_number, punctuation_number};

// Why a line is no command.
#[derive(Drop)]
enum LineFault {
    Unreadable,
    Memory,
}

impl From<AllocError> for LineFault {
    ghost use Rattle.std.specs.Prelude.{◌≡◌};
    ghost use Rattle.replay_program.specs.declared.command_text.LineFault.TheVariants.{Memory};

    ghost from_gives = { λ _ fault. fault ≡ Memory };

    fn from(_: AllocError) -> Self {
        LineFault::Memory
    }
}

/// Reads one command from each line of `lines`, and skips lines without words.
///
/// Returns an error at the first line that is not a command, or if an allocation fails. If `lines`
/// is `None`, returns an empty list.
pub fn read_commands(alloc: Global, lines: Option<&str>) -> Result<Vec<Command>, Fault>
    requires { ForSome lines (λ text. IsUtf8 text.now) }
    ensures { MatchResult result
        (λ v. (spec.unreadable_line (lines_left lines.entry) ≡ None)
        × (map command_of v.items ≡ spec.commands_in (lines_left lines.entry)))
        (λ fault. OnUnreadable fault (λ why. (n : ℕ) × (why ≡ unreadable.Command n)
        × (spec.unreadable_line (lines_left lines.entry) ≡ Some n))) }
{
    let mut commands = Vec::new(alloc);
    let mut number = 0usize;
    let mut left = lines;
    while let Some(rest) = left {
        let (line, after) = first_line(rest);
        number += 1;
        match read_line(alloc, line) {
            Ok(None) => {}
            Ok(Some(command)) => commands.push(command)?,
            Err(LineFault::Unreadable) => {
                return Err(Fault::Unreadable(Unreadable::Command(number)));
            }
            Err(LineFault::Memory) => return Err(Fault::Memory),
        }
        left = after;
    }
    Ok(commands)
}

// Reads the command of a line, or `None` of a line without words.
fn read_line(alloc: Global, line: &str) -> Result<Option<Command>, LineFault>
    ensures { MatchResult result
        (λ c. (spec.is_unreadable line.now ≡ false)
        × (spec.command (spec.words line.now) ≡ option_map command_of c))
        (λ fault. IsUnreadableLine fault line.now) }
{
    let Some((name, rest)) = first_word(line) else {
        return Ok(None);
    };
    match read_command(alloc, name, rest)? {
        None => Err(LineFault::Unreadable),
        Some(command) => Ok(Some(command)),
    }
}

fn read_command(alloc: Global, name: &str, rest: &str) -> Result<Option<Command>, AllocError>
    ensures { IfOk result
        (λ c. option_map command_of c ≡ spec.command (name.now ∷ spec.words rest.now)) }
{
    let Some((stream, rest)) = first_word(rest) else {
        return Ok(None);
    };
    let Some(n) = number(stream) else {
        return Ok(None);
    };
    if name == "lookahead" {
        lookahead(alloc, n, rest)
    } else {
        Ok(command_named(name, n, rest))
    }
}

fn lookahead(alloc: Global, n: usize, rest: &str) -> Result<Option<Command>, AllocError>
    ensures { IfOk result
        (λ c. option_map command_of c
        ≡ option_map (λ ls. spec.reads n (commands.lookahead ls))
        (spec.all_looks (spec.words rest.now))) }
{
    match looks(alloc, rest)? {
        None => Ok(None),
        Some(looks) => Ok(Some(Command::Lookahead(n, looks))),
    }
}

// Reads a line of looks, or returns `None` if a word is no look.
fn looks(alloc: Global, line: &str) -> Result<Option<Vec<Look>>, AllocError>
    ensures { IfOk result
        (λ o. option_map (λ v. map look_of v.items) o ≡ spec.all_looks (spec.words line.now)) }
{
    let mut looks = Vec::with_capacity(alloc, count_words(line))?;
    let mut rest = line;
    while let Some((word, after)) = first_word(rest) {
        let Some(look) = look(word) else {
            return Ok(None);
        };
        looks.push(look)?;
        rest = after;
    }
    Ok(Some(looks))
}

// Counts the words of a line. A command keeps the vector of its looks, which so gets room for just
// them, and in one allocation.
#[tactic(auto, using(crate::proofs::WordCuts::words_few))]
fn count_words(line: &str) -> usize
    ensures { result ≡ length (spec.words line.now) }
{
    let mut words = 0usize;
    let mut rest = line;
    while let Some((_, after)) = first_word(rest) {
        words += 1;
        rest = after;
    }
    words
}

fn command_named(name: &str, n: usize, rest: &str) -> Option<Command>
    ensures { option_map command_of result ≡ spec.command_named name.now n (spec.words rest.now) }
{
    match name {
        "peek" => Some(Command::Peek(n, look(only_word(rest)?)?)),
        "peek2" => Some(Command::Peek2(n, look(only_word(rest)?)?)),
        "peek3" => Some(Command::Peek3(n, look(only_word(rest)?)?)),
        "parse" => Some(Command::Parse(n, kind(only_word(rest)?)?)),
        "optional" => Some(Command::Optional(n, kind(only_word(rest)?)?)),
        "empty" => alone(Command::Empty(n), rest),
        "enter" => Some(Command::Enter(n, delimiter(only_word(rest)?)?)),
        "any" => alone(Command::EnterAny(n), rest),
        "terminated" => {
            let (kind, separator) = list(rest)?;
            Some(Command::Terminated(n, kind, separator))
        }
        "separated" => {
            let (kind, separator) = list(rest)?;
            Some(Command::Separated(n, kind, separator))
        }
        "fork" => alone(Command::Fork(n), rest),
        "advance" => Some(Command::Advance(n, number(only_word(rest)?)?)),
        "discard" => alone(Command::Discard(n), rest),
        "close" => alone(Command::Close(n), rest),
        "span" => alone(Command::StreamSpan(n), rest),
        "cursor" => alone(Command::CursorSpan(n), rest),
        "previous" => alone(Command::PreviousSpan(n), rest),
        "tree" => alone(Command::Tree(n), rest),
        "rest" => alone(Command::Rest(n), rest),
        "group" => alone(Command::GroupTree(n), rest),
        _ => None,
    }
}

// A token is sought first: no keyword or punctuation has the name of a look or of a kind.
fn look(word: &str) -> Option<Look>
    ensures { option_map look_of result ≡ spec.look word.now }
{
    if let Some(kind) = token(word) {
        return Some(Look::Kind(kind));
    }
    match word {
        "Paren" => Some(Look::Paren),
        "Brace" => Some(Look::Brace),
        "Bracket" => Some(Look::Bracket),
        "End" => Some(Look::End),
        "Group" => Some(Look::Group),
        "GroupTree" => Some(Look::GroupTree),
        "Tree" => Some(Look::Tree),
        _ => Some(Look::Kind(kind_named(word)?)),
    }
}

fn kind(word: &str) -> Option<Kind>
    ensures { option_map kind_of result ≡ spec.kind word.now }
{
    match token(word) {
        Some(kind) => Some(kind),
        None => kind_named(word),
    }
}

// Returns the kind of this name that is no keyword or punctuation.
fn kind_named(word: &str) -> Option<Kind>
    ensures { option_map kind_of result ≡ spec.by_name spec.kind_names None word.now }
{
    match word {
        "Ident" => Some(Kind::Ident),
        "IdentAny" => Some(Kind::IdentAny),
        "Lifetime" => Some(Kind::Lifetime),
        "LifetimeAny" => Some(Kind::LifetimeAny),
        "Literal" => Some(Kind::Literal),
        "Punct" => Some(Kind::Punct),
        "_" => Some(Kind::Underscore),
        _ => None,
    }
}

// Reads a kind of value and a separator.
fn list(rest: &str) -> Option<(Kind, Separator)>
    ensures { option_map (λ p. (kind_of p.0, separator_of p.1)) result
        ≡ spec.list (spec.words rest.now) }
{
    let (value, rest) = first_word(rest)?;
    let word = only_word(rest)?;
    Some((kind(value)?, separator(word)?))
}

fn separator(word: &str) -> Option<Separator>
    ensures { option_map separator_of result ≡ spec.separator word.now }
{
    match word {
        "," => Some(Separator::Comma),
        ";" => Some(Separator::Semi),
        "+" => Some(Separator::Plus),
        "::" => Some(Separator::PathSep),
        _ => None,
    }
}

// Returns the keyword or the punctuation with this text.
fn token(word: &str) -> Option<Kind>
    ensures { option_map kind_of result ≡ spec.token word.now }
{
    match keyword_number(word) {
        Some(k) => Some(Kind::Keyword(k)),
        None => Some(Kind::Punctuation(punctuation_number(word)?)),
    }
}

fn delimiter(word: &str) -> Option<Delimiter>
    ensures { result ≡ spec.delimiter word.now }
{
    match word {
        "(" => Some(Delimiter::Parenthesis),
        "{" => Some(Delimiter::Brace),
        "[" => Some(Delimiter::Bracket),
        "«" => Some(Delimiter::None),
        _ => None,
    }
}

// Reads a number of one to nine digits.
fn number(word: &str) -> Option<usize>
    ensures { result ≡ spec.number word.now }
{
    if word.is_empty() || word.len() > 9 {
        return None;
    }
    let mut value = 0usize;
    for &byte in word.as_bytes() {
        if !byte.is_ascii_digit() {
            return None;
        }
        value = value * 10 + usize::from(byte - b'0');
    }
    Some(value)
}

// Returns the command if no words follow it.
fn alone(command: Command, rest: &str) -> Option<Command>
    ensures { option_map command_of result ≡ spec.alone (command_of command) (spec.words rest.now) }
{
    match first_word(rest) {
        None => Some(command),
        Some(_) => None,
    }
}

// Returns the only word of a line.
fn only_word(rest: &str) -> Option<&str>
    ensures word { option_map (λ w. w.now) result ≡ spec.only_word (spec.words rest.now) }
    ensures utf8 { IfSome result (λ word. IsUtf8 word.now) }
{
    let (word, rest) = first_word(rest)?;
    match first_word(rest) {
        None => Some(word),
        Some(_) => None,
    }
}

// Splits a line into its first word and the rest. Inlined: a word is as short as a call.
#[inline(always)]
fn first_word(line: &str) -> Option<(&str, &str)>
    ensures words { MatchOption result
        (spec.words line.now ≡ [])
        (λ p. spec.words line.now ≡ p.0.now ∷ spec.words p.1.now) }
    ensures utf8 { IfSome result (λ p. IsUtf8 p.0.now × IsUtf8 p.1.now) }
{
    let mut rest = line;
    while !rest.is_empty() {
        let Some((word, after)) = split_at_space(rest) else {
            return Some((rest, ""));
        };
        if !word.is_empty() {
            return Some((word, after));
        }
        rest = after;
    }
    None
}

// Splits a text at its first space.
#[inline(always)]
fn split_at_space(text: &str) -> Option<(&str, &str)>
    ensures parts { MatchOption result
        (slice_split (λ b. b == space) text.now ≡ text.now ∷ [])
        (λ p. slice_split (λ b. b == space) text.now
        ≡ p.0.now ∷ slice_split (λ b. b == space) p.1.now) }
    ensures less { IfSome result (λ p. length p.1.now < length text.now) }
    ensures utf8 { IfSome result (λ p. IsUtf8 p.0.now × IsUtf8 p.1.now) }
{
    match first_space(text.as_bytes()) {
        Some(end) => Some((&text[..end], &text[end + 1..])),
        None => None,
    }
}

// Returns the index of the first space. Most words are too short for a search by vectors.
#[inline(always)]
fn first_space(bytes: &[u8]) -> Option<usize>
    ensures { IsFirstByte (is_byte space) bytes.now result }
{
    for i in 0..bytes.len() {
        if bytes[i] == b' ' {
            return Some(i);
        }
    }
    None
}
