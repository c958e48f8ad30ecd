//! Converts doc comments into attributes.
ghost use Rattle.std.specs.Prelude.{◌≡◌, OnOk};
ghost use Rattle.std.specs.Str.{chars};
ghost use Rattle.tok_core.specs.Building.{add_forest};
ghost use Rattle.tok_core.specs.Forest.{tree, no_trees};
ghost use Rattle.tok_core.specs.Private.Attribute.{doc_group, bang, doc_forest};

use crate::lexer::build::Build;
use std::alloc::{AllocError, Global};
use tok_leaves::{Literal, Spacing, Span, Text, known};
use tok_lexical::Delimiter;

/// Appends the group `[doc = ".."]`, whose trees all have the span `span`.
fn append_group<B: Build>(
    built: &mut B,
    alloc: Global,
    span: Span,
    text: &str,
) -> Result<(), AllocError>
    ensures { OnOk result
        (B.levels built.new
        ≡ add_forest (tree (doc_group span (chars text.now)) no_trees) (B.levels built.old)) }
{
    let mut literal = Literal::doc_comment(alloc, text)?;
    literal.set_span(span);
    let word = Text::from_str(alloc, "doc")?;
    built.open()?;
    built.ident(known::unchecked_ident(word, span))?;
    built.punct(known::unchecked_punct('=', Spacing::Alone, span))?;
    built.literal(literal)?;
    built.close(Delimiter::Bracket, span)
}

/// Appends the `!` of an inner attribute, if `is_inner` is `true`.
fn append_bang<B: Build>(built: &mut B, span: Span, is_inner: bool) -> Result<(), AllocError>
    ensures { OnOk result
        (B.levels built.new ≡ add_forest (bang span is_inner) (B.levels built.old)) }
{
    if is_inner {
        built.punct(known::unchecked_punct('!', Spacing::Alone, span))?;
    }
    Ok(())
}

/// Converts a doc comment into an attribute, and appends the attribute to a builder.
///
/// `text` is the text inside the comment. If `is_inner` is `true`, the attribute has a `!`. Returns
/// an error if an allocation fails.
pub fn append_doc<B: Build>(
    built: &mut B,
    alloc: Global,
    span: Span,
    is_inner: bool,
    text: &str,
) -> Result<(), AllocError>
    ensures { OnOk result
        (B.levels built.new
        ≡ add_forest (doc_forest span is_inner (chars text.now)) (B.levels built.old)) }
{
    built.punct(known::unchecked_punct('#', Spacing::Alone, span))?;
    append_bang(built, span, is_inner)?;
    append_group(built, alloc, span, text)?;
    Ok(())
}
