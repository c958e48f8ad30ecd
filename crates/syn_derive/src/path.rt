//! Types for paths without arguments.
ghost use Rattle.std.specs.Option.{option_copied};
ghost use Rattle.std.specs.Prelude.{◌≡◌, IfOk, not};
ghost use Rattle.tok_core.specs.Filled.{has_trees};
ghost use Rattle.tok_buffer.specs.Cursors.{place_of};
ghost use Rattle.tok_buffer.specs.View.{erased_ahead};
ghost use Rattle.syn_parse.specs.Takes.{Takes, TakesAs};
ghost use Rattle.syn_parse.specs.Takings.{lighter, lower, told};
ghost use Rattle.syn_parse.specs.TreesAhead.{ahead};
ghost use Rattle.syn_punctuated.specs.TakeLists.{list_form};
ghost use Rattle.syn_derive.specs.Paths.{is_only, lightens_path, lowers_segment, only_ident, only_segment, path_form, path_trees, segment_trees, sees_path_word, take_any_segment, take_any_segments, take_nested_path, take_nested_segments, take_path, take_segment};

use std::alloc::{AllocError, Global};
use syn_parse::laws::parses_go_on;
use syn_parse::{IdentExt, Parse, ParseBuffer, ParseStream, Result};
use syn_punctuated::Punctuated;
use tok_buffer::Cursor;
use tok_buffer::laws::ahead_tells;
use tok_core::laws::writes_follow_writes;
use tok_core::{Ident, Literal, ToTokens, TokenStream};
use tok_types::{IdentAny, token};

/// A path without arguments, such as `a::b`.
///
/// A path consists of segments with `::` between them, and optionally begins with `::`. The parser
/// of `Path` reads the same paths as `Path::parse_mod_style` in `syn`.
#[derive(Drop)]
pub struct Path {
    pub leading_colon: Option<token::PathSep>,
    pub segments: Punctuated<PathSegment, token::PathSep>,
}

/// A segment of a path.
///
/// A segment is an identifier that is not a reserved word, or `crate`, `self`, `super` or `Self`.
#[derive(Drop)]
pub struct PathSegment {
    pub ident: Ident,
}

impl Path {
    // Creates a path of one segment.
    pub(crate) fn of_ident(alloc: Global, ident: Ident) -> std::result::Result<Path, AllocError>
        ensures { IfOk result (λ p. path_form p ≡ only_segment ident) }
    {
        let mut segments = Punctuated::new(alloc);
        segments.push_value(PathSegment { ident })?;
        Ok(Path {
            leading_colon: None,
            segments,
        })
    }

    /// Returns the identifier if the path consists of a single segment, and `None` otherwise.
    pub fn get_ident(&self) -> Option<&Ident>
        ensures { option_copied result ≡ only_ident (path_form self.now) }
    {
        if self.leading_colon.is_some()
            || self.segments.len() != 1
            || self.segments.trailing_punct()
        {
            return None;
        }
        Some(&self.segments.first()?.ident)
    }

    /// Returns `true` if the path consists of a single segment, and `text` is the text of this
    /// segment.
    pub fn is_ident(&self, text: &str) -> bool
        ensures { result ≡ is_only text.now (path_form self.now) }
    {
        match self.get_ident() {
            Some(ident) => ident.as_str() == text,
            None => false,
        }
    }
}

// Returns `true` if a reserved word is next that may be a segment.
fn is_path_word(input: &ParseBuffer<'_>) -> bool
    ensures { result ≡ sees_path_word (ahead input.now) }
{
    input.peek::<token::Crate>()
        || input.peek::<token::SelfValue>()
        || input.peek::<token::Super>()
        || input.peek::<token::SelfType>()
}

impl Parse for PathSegment {
    ghost takes = { told (λ v. v) take_segment (lower lowers_segment) };

    #[tactic(auto, unfolding(crate::specs::Paths::take_segment))]
    fn parse(input: ParseStream<'_, '_>) -> Result<Self> {
        let ident = if is_path_word(input) {
            input.call(Ident::parse_any)?
        } else {
            input.parse()?
        };
        Ok(PathSegment { ident })
    }
}

// Returns `true` if no visible tree is left.
pub(crate) fn is_end(inside: Cursor<'_>) -> bool
    ensures { result ≡ not (has_trees (erased_ahead (place_of inside.entry))) }
{
    ahead_tells();
    inside.leftover().is_none()
}

// Parses a segment of any text.
#[tactic(auto, unfolding(crate::specs::Paths::take_any_segment))]
fn parse_any_segment(input: ParseStream<'_, '_>) -> Result<PathSegment>
    ensures { Takes take_any_segment input.old result input.new }
{
    let ident = input.call(Ident::parse_any)?;
    Ok(PathSegment { ident })
}

fn parse_any_segments(input: ParseStream<'_, '_>) -> Result<Punctuated<PathSegment, token::PathSep>>
    ensures { TakesAs (list_form (λ v. v) (λ p. p)) take_any_segments input.old result input.new }
{
    parses_go_on();
    Punctuated::parse_separated_nonempty_with(input, parse_any_segment)
}

#[tactic(auto, unfolding(crate::specs::Paths::take_nested_segments))]
fn parse_nested_segments(
    input: ParseStream<'_, '_>,
) -> Result<Punctuated<PathSegment, token::PathSep>>
    ensures { TakesAs (list_form (λ v. v) (λ p. p)) take_nested_segments input.old result
        input.new }
{
    if input.peek::<IdentAny>() {
        parse_any_segments(input)
    } else if is_end(input.cursor()) {
        Err(input.error("expected nested attribute"))
    } else if input.peek::<Literal>() {
        Err(input.error("unexpected literal in nested attribute, expected ident"))
    } else {
        Err(input.error("unexpected token in nested attribute, expected ident"))
    }
}

impl Path {
    // Parses a path of any words.
    #[tactic(auto, unfolding(crate::specs::Paths::take_nested_path))]
    pub(crate) fn parse_nested(input: ParseStream<'_, '_>) -> Result<Path>
        ensures { TakesAs path_form take_nested_path input.old result input.new }
    {
        let leading_colon: Option<token::PathSep> = input.parse()?;
        let segments = parse_nested_segments(input)?;
        Ok(Path {
            leading_colon,
            segments,
        })
    }
}

impl Parse for Path {
    ghost takes = { told path_form take_path (lighter lightens_path) };

    #[tactic(auto, unfolding(crate::specs::Paths::take_path))]
    fn parse(input: ParseStream<'_, '_>) -> Result<Self> {
        parses_go_on();
        let leading_colon = input.parse()?;
        let segments = Punctuated::parse_separated_nonempty(input)?;
        Ok(Path {
            leading_colon,
            segments,
        })
    }
}

impl ToTokens for PathSegment {
    ghost printed = { segment_trees };

    fn to_tokens(&self, tokens: &mut TokenStream) -> std::result::Result<(), AllocError> {
        self.ident.to_tokens(tokens)
    }
}

impl ToTokens for Path {
    ghost printed = { path_trees };

    fn to_tokens(&self, tokens: &mut TokenStream) -> std::result::Result<(), AllocError> {
        writes_follow_writes();
        self.leading_colon.to_tokens(tokens)?;
        self.segments.to_tokens(tokens)
    }
}
