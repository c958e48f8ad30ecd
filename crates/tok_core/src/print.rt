//! Writes token streams as text.
ghost use Rattle.std.specs.Prelude.{◌≡◌, ◌++◌, codes, encode_utf8, Some};
ghost use Rattle.std.specs.Fmt.{WritesOnOk};
ghost use Rattle.tok_core.specs.Seen.{group_of, tree_of};
ghost use Rattle.tok_core.specs.Text as spec;

use crate::group::Group;
use crate::stream::{TokenStream, TokenTree};
use std::fmt;
use std::fmt::{Debug, Formatter, Write};
use tok_leaves::Spacing;

impl fmt::Display for TokenStream {
    ghost output = { λ s. Some (spec.text s) };

    fn fmt<W: Write>(&self, f: &mut Formatter<W>) -> fmt::Result {
        write_stream(f, self)
    }
}

impl fmt::Display for TokenTree {
    ghost output = { λ t. Some (spec.tree_text (tree_of t)) };

    fn fmt<W: Write>(&self, f: &mut Formatter<W>) -> fmt::Result {
        write_tree(f, self)
    }
}

impl fmt::Display for Group {
    ghost output = { λ g. Some (spec.tree_text (group_of g)) };

    fn fmt<W: Write>(&self, f: &mut Formatter<W>) -> fmt::Result {
        f.write_str(self.delimiter().opening())?;
        write_stream(f, self.stream())?;
        f.write_str(self.delimiter().closing())
    }
}

/// Writes the text of the stream in parentheses, as in `TokenStream(a b)`.
impl Debug for TokenStream {
    ghost debug_output = { λ s. Some (codes "TokenStream(" ++ spec.text s ++ codes ")") };

    fn fmt<W: Write>(&self, f: &mut Formatter<W>) -> fmt::Result {
        write!(f, "TokenStream({self})")
    }
}

/// Writes the text and the span of the group, as in `Group((a b), Span { .. })`.
impl Debug for Group {
    fn fmt<W: Write>(&self, f: &mut Formatter<W>) -> fmt::Result {
        write!(f, "Group({self}, {:?})", self.span())
    }
}

#[cycle(write)]
fn write_stream<W: Write>(f: &mut Formatter<W>, stream: &TokenStream) -> fmt::Result
    ensures { WritesOnOk W.write_str_gives f.old result (spec.text stream.now) f.new }
{
    let mut is_glued = true;
    for next in stream.trees() {
        write_space(f, is_glued)?;
        write_tree(f, next)?;
        is_glued = is_joint(next);
    }
    Ok(())
}

#[cycle(write)]
fn write_tree<W: Write>(f: &mut Formatter<W>, next: &TokenTree) -> fmt::Result
    ensures { WritesOnOk W.write_str_gives f.old result (spec.tree_text (tree_of next.now)) f.new }
{
    match next {
        TokenTree::Group(group) => {
            f.write_str(group.delimiter().opening())?;
            write_stream(f, group.stream())?;
            f.write_str(group.delimiter().closing())
        }
        TokenTree::Ident(ident) => f.write_str(ident.as_str()),
        TokenTree::Punct(punct) => write_mark(f, punct.as_char()),
        TokenTree::Literal(literal) => f.write_str(literal.as_str()),
    }
}

#[inline(always)]
fn write_space<W: Write>(f: &mut Formatter<W>, is_glued: bool) -> fmt::Result
    ensures { WritesOnOk W.write_str_gives f.old result (spec.space is_glued) f.new }
{
    if is_glued { Ok(()) } else { f.write_str(" ") }
}

// Writes a character as a text: `write_char` would test its bytes again.
#[inline(always)]
fn write_mark<W: Write>(f: &mut Formatter<W>, mark: char) -> fmt::Result
    ensures { WritesOnOk W.write_str_gives f.old result (encode_utf8 mark) f.new }
{
    let mut bytes = [0u8; 4];
    f.write_str(mark.encode_utf8(&mut bytes))
}

fn is_joint(next: &TokenTree) -> bool
    ensures { result ≡ spec.is_joint_tree (tree_of next.now) }
{
    match next {
        TokenTree::Punct(punct) => match punct.spacing() {
            Spacing::Joint => true,
            Spacing::Alone => false,
        },
        _ => false,
    }
}
