//! Methods that parse the arguments of attributes.
ghost use Rattle.std.specs.Prelude.{◌≡◌, [], ◌∷◌, ◌++◌, IfOk, MatchResult, OnOk, string_bytes};
ghost use Rattle.syn_parse.specs.Parsers.{ParsesWhole, whole_stream};
ghost use Rattle.syn_parse.specs.Takings.{Keeps, KeepsWhole};
ghost use Rattle.syn_derive.specs.Arguments.{HasArguments, IsOf, Lacks, delimiter_span, end_of, lacks_arguments, lacks_list, lacks_path, lacks_value, names_path, nested_list, path_text, segment_text};
ghost use Rattle.syn_derive.specs.declared.meta.Meta.TheVariants as meta;

use crate::attribute::Attribute;
use crate::meta::{MacroDelimiter, Meta, MetaList, MetaNameValue};
use crate::path::{Path, PathSegment};
use std::alloc::{AllocError, Global};
use syn_parse::laws::parses_go_on;
use syn_parse::{Fault, Parse, ParseStream, Parser, Result};
use syn_punctuated::Punctuated;
use tok_buffer::Error;
use tok_core::DelimSpan;
use tok_types::token;

impl MacroDelimiter {
    /// Returns the spans of the opening and the closing delimiter.
    pub fn span(&self) -> DelimSpan
        ensures { result ≡ delimiter_span self.now }
    {
        match self {
            MacroDelimiter::Paren(paren) => paren.span,
            MacroDelimiter::Brace(brace) => brace.span,
            MacroDelimiter::Bracket(bracket) => bracket.span,
        }
    }
}

// Appends a segment, and `::` before it if it comes after one.
fn push_segment(
    text: &mut String,
    after: bool,
    segment: &PathSegment,
) -> std::result::Result<(), AllocError>
    ensures { OnOk result
        (string_bytes text.new ≡ string_bytes text.old ++ segment_text after segment.now) }
{
    if after {
        text.push_str("::")?;
        text.push_str(segment.ident.as_str())
    } else {
        text.push_str(segment.ident.as_str())
    }
}

impl Path {
    // Returns the text of the path, without blanks.
    fn text(&self, alloc: Global) -> std::result::Result<String, AllocError>
        ensures { IfOk result (λ t. string_bytes t ≡ path_text self.now) }
    {
        let mut text = String::new(alloc);
        let mut after = self.leading_colon.is_some();
        for segment in self.segments.iter() {
            push_segment(&mut text, after, segment)?;
            after = true;
        }
        Ok(text)
    }

    // Creates an error at the segments, whose text names the path after `before`.
    fn error(
        &self,
        alloc: Global,
        before: &'static str,
        after: &'static str,
    ) -> std::result::Result<Error, AllocError>
        ensures { IfOk result (λ e. e
            ≡ names_path self.now before.now after.now ∷ []) }
    {
        let text = self.text(alloc)?;
        Error::new_spanned(alloc, &self.segments, format_args!("{before}{text}{after}"))
    }
}

impl Meta {
    /// Returns the path if the meta consists only of a path.
    ///
    /// Otherwise, returns an error at the first token after the path.
    pub fn require_path_only(&self, alloc: Global) -> Result<&Path>
        ensures { MatchResult result (λ p. self.now ≡ meta.Path p.now)
            (Lacks (lacks_path self.now)) }
    {
        let span = match self {
            Meta::Path(path) => return Ok(path),
            Meta::List(list) => list.delimiter.span().open(),
            Meta::NameValue(pair) => pair.eq_token.span(),
        };
        Err(Fault::at(alloc, span, "unexpected token in attribute"))
    }

    /// Returns the `MetaList` if the meta is a path with tokens in delimiters.
    ///
    /// Otherwise, returns an error. The error is at the `=`, or at the path if the meta consists
    /// only of a path.
    pub fn require_list(&self, alloc: Global) -> Result<&MetaList>
        ensures { MatchResult result (λ l. self.now ≡ meta.List l.now)
            (Lacks (lacks_list self.now)) }
    {
        match self {
            Meta::List(list) => Ok(list),
            Meta::Path(path) => Err(Fault::Refused(path.error(
                alloc,
                "expected attribute arguments in parentheses: `",
                "(...)`",
            )?)),
            Meta::NameValue(pair) => Err(Fault::at(alloc, pair.eq_token.span(), "expected `(`")),
        }
    }

    /// Returns the `MetaNameValue` if the meta is a path with an expression after `=`.
    ///
    /// Otherwise, returns an error. The error is at the opening delimiter, or at the path if the
    /// meta consists only of a path.
    pub fn require_name_value(&self, alloc: Global) -> Result<&MetaNameValue>
        ensures { MatchResult result (λ v. self.now ≡ meta.NameValue v.now)
            (Lacks (lacks_value self.now)) }
    {
        match self {
            Meta::NameValue(pair) => Ok(pair),
            Meta::Path(path) => Err(Fault::Refused(path.error(
                alloc,
                "expected a value for this attribute: `",
                " = ...`",
            )?)),
            Meta::List(list) => {
                Err(Fault::at(alloc, list.delimiter.span().open(), "expected `=`"))
            }
        }
    }
}

// Parses metas of any path and the commas between them, up to the end.
fn parse_nested_list(input: ParseStream<'_, '_>) -> Result<Punctuated<Meta, token::Comma>>
    ensures { Keeps nested_list input.old result input.new }
{
    parses_go_on();
    Punctuated::parse_terminated_with(input, Meta::parse_nested)
}

impl MetaList {
    /// Parses all tokens in the delimiters as a `T`.
    ///
    /// An error at the end of the tokens has the span of the closing delimiter. If the parser
    /// returns a value but leaves a token unread, the call returns an error.
    pub fn parse_args<T: Parse + Drop>(&self, alloc: Global) -> Result<T>
        ensures { KeepsWhole T.takes self.now.tokens (end_of self.now) result }
    {
        self.parse_args_with(
            alloc,
            |input: ParseStream<'_, '_>|
                ensures { Keeps T.takes input.old result input.new }
            { T::parse(input) },
        )
    }

    /// Parses all tokens in the delimiters with `parser`.
    ///
    /// Errors have the same positions as errors of `parse_args`.
    ///
    /// # Requires
    ///
    /// `parser` must be callable on the stream of the tokens in the delimiters.
    pub fn parse_args_with<F: Parser + Drop>(&self, alloc: Global, parser: F) -> Result<F::Output>
        requires { F.callable parser (whole_stream self.now.tokens (end_of self.now)) }
        ensures { ParsesWhole (F.parses parser) (whole_stream self.now.tokens (end_of self.now))
            result }
    {
        let tokens = self.tokens.clone()?;
        parser.parse_scoped(alloc, self.delimiter.span().close(), tokens)
    }

    /// Parses all tokens in the delimiters as a list of metas with commas between them.
    ///
    /// Any word may be a segment of a meta's path, such as `type` in `serde(default, type = "u8")`.
    /// Errors have the same positions as errors of `parse_args`.
    pub fn parse_nested_meta(&self, alloc: Global) -> Result<Punctuated<Meta, token::Comma>>
        ensures { KeepsWhole nested_list self.now.tokens (end_of self.now) result }
    {
        self.parse_args_with(alloc, parse_nested_list)
    }
}

impl Attribute {
    // Returns the list, or an error if the attribute is none.
    pub(crate) fn arguments(&self, alloc: Global) -> Result<&MetaList>
        ensures { MatchResult result (λ l. self.now.meta ≡ meta.List l.now)
            (Lacks (lacks_arguments self.now.meta)) }
    {
        match &self.meta {
            Meta::List(list) => Ok(list),
            Meta::Path(path) => Err(Fault::Refused(path.error(
                alloc,
                "expected attribute arguments in parentheses: #[",
                "(...)]",
            )?)),
            Meta::NameValue(pair) => {
                let text = pair.path.text(alloc)?;
                let span = pair.eq_token.span();
                Err(Fault::at(
                    alloc,
                    span,
                    format_args!("expected parentheses: #[{text}(...)]"),
                ))
            }
        }
    }

    /// Parses all arguments of the attribute as a `T`.
    ///
    /// The arguments are the tokens in the delimiters after the path. An error at the end of these
    /// tokens has the span of the closing delimiter. If the parser returns a value but leaves a
    /// token unread, the call returns an error.
    ///
    /// If the attribute has no arguments, returns an error at the `=` or at the path.
    ///
    /// # Examples
    ///
    /// ```rust
    /// let name: Ident = attribute.parse_args(alloc)?;
    /// ```
    pub fn parse_args<T: Parse + Drop>(&self, alloc: Global) -> Result<T>
        ensures { IsOf (λ l. KeepsWhole T.takes l.tokens (end_of l)) self.now.meta result }
    {
        self.arguments(alloc)?.parse_args(alloc)
    }

    /// Parses all arguments of the attribute with `parser`.
    ///
    /// Errors have the same positions as errors of `parse_args`.
    ///
    /// # Requires
    ///
    /// `parser` must be callable on the stream of the arguments, if there are any.
    ///
    /// # Examples
    ///
    /// ```rust
    /// let names: Punctuated<Ident, token::Comma> = attribute.parse_args_with(
    ///     alloc,
    ///     Punctuated::parse_terminated,
    /// )?;
    /// ```
    pub fn parse_args_with<F: Parser + Drop>(&self, alloc: Global, parser: F) -> Result<F::Output>
        requires { HasArguments
            (λ l. F.callable parser (whole_stream l.tokens (end_of l))) self.now.meta }
        ensures { IsOf (λ l. ParsesWhole (F.parses parser) (whole_stream l.tokens (end_of l)))
            self.now.meta result }
    {
        self.arguments(alloc)?.parse_args_with(alloc, parser)
    }

    /// Parses all arguments of the attribute as a list of metas with commas between them.
    ///
    /// Any word may be a segment of a meta's path, such as `type` in
    /// `#[serde(default, type = "u8")]`. Errors have the same positions as errors of `parse_args`.
    ///
    /// # Examples
    ///
    /// ```rust
    /// let metas = attribute.parse_nested_meta(alloc)?;
    /// let is_default = metas
    ///     .first()
    ///     .is_some_and(|meta| meta.path().is_ident("default"));
    /// ```
    pub fn parse_nested_meta(&self, alloc: Global) -> Result<Punctuated<Meta, token::Comma>>
        ensures { IsOf (λ l. KeepsWhole nested_list l.tokens (end_of l)) self.now.meta result }
    {
        self.arguments(alloc)?.parse_nested_meta(alloc)
    }
}
