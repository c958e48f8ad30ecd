//! Methods that convert an error into tokens for the compiler.
ghost use Rattle.std.specs.Prelude.{◌≡◌, IfOk, OnOk};
ghost use Rattle.std.specs.Str.{chars};
ghost use Rattle.tok_lexical.specs.Words.{IsIdentifier};
ghost use Rattle.tok_leaves.specs.Leaves.{punct};
ghost use Rattle.tok_core.specs.Forest.{concat};
ghost use Rattle.tok_buffer.specs.CompileErrors.{invocation, segment, compile_errors, compile_error};

use crate::error::{Error, Message};
use std::alloc::{AllocError, Global};
use tok_core::known::{identifier, punct};
use tok_core::{Delimiter, Group, Literal, Spacing, Span, TokenStream, TokenTree};

impl Error {
    /// Returns tokens that make the compiler report the messages of the error.
    ///
    /// The tokens of each message are `::core::compile_error!{"text"}`. The path and the `!` have
    /// the first span of the message, and the braces and the text have its last span. Returns an
    /// error if an allocation fails.
    pub fn to_compile_error(&self, alloc: Global) -> Result<TokenStream, AllocError>
        ensures { IfOk result (λ s. s ≡ compile_errors self.now) }
    {
        let mut tokens = TokenStream::new(alloc);
        self.first.write(alloc, &mut tokens)?;
        for message in &self.more {
            message.write(alloc, &mut tokens)?;
        }
        Ok(tokens)
    }

    /// Returns the same tokens as `to_compile_error`, and drops the error.
    ///
    /// Returns an error if an allocation fails.
    pub fn into_compile_error(self, alloc: Global) -> Result<TokenStream, AllocError>
        ensures { IfOk result (λ s. s ≡ compile_errors self) }
    {
        self.to_compile_error(alloc)
    }
}

impl Message {
    // Appends the tokens of this message.
    fn write(&self, alloc: Global, tokens: &mut TokenStream) -> Result<(), AllocError>
        ensures { OnOk result (tokens.new ≡ concat tokens.old (compile_error self.now)) }
    {
        write_segment(alloc, "core", self.start, tokens)?;
        write_segment(alloc, "compile_error", self.start, tokens)?;
        write_invocation(alloc, self.text.as_str(), self.start, self.end, tokens)?;
        Ok(())
    }
}

// Appends `::` and a name.
fn write_segment(
    alloc: Global,
    name: &str,
    span: Span,
    tokens: &mut TokenStream,
) -> Result<(), AllocError>
    requires { IsIdentifier (chars name.now) }
    ensures { OnOk result (tokens.new ≡ concat tokens.old (segment name.now span)) }
{
    tokens.append(TokenTree::Punct(punct(':', Spacing::Joint, span)))?;
    tokens.append(TokenTree::Punct(punct(':', Spacing::Alone, span)))?;
    tokens.append(TokenTree::Ident(identifier(alloc, name, span)?))?;
    Ok(())
}

// Appends `!` and, in braces, a text as a string literal.
fn write_invocation(
    alloc: Global,
    text: &str,
    start: Span,
    end: Span,
    tokens: &mut TokenStream,
) -> Result<(), AllocError>
    ensures { OnOk result (tokens.new ≡ concat tokens.old (invocation start end text.now)) }
{
    let mut literal = Literal::string(alloc, text)?;
    literal.set_span(end);
    let mut inside = TokenStream::new(alloc);
    inside.append(TokenTree::Literal(literal))?;
    tokens.append(TokenTree::Punct(punct('!', Spacing::Alone, start)))?;
    let group = Group::new(Delimiter::Brace, inside, end);
    tokens.append(TokenTree::Group(group))?;
    Ok(())
}
