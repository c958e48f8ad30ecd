//! Functions, methods and macros that enter groups.
ghost use Rattle.std.specs.Prelude.{◌≡◌, Some, IfOk, codes};
ghost use Rattle.std.specs.Fn.{FnOnceReturnsAtMut, FnOnceTakesAtMut};
ghost use Rattle.tok_lexical.specs.declared.delimiter.Delimiter.TheVariants as delimiter;
ghost use Rattle.tok_buffer.specs.Entry.{Entered, enter, enter_any};
ghost use Rattle.tok_types.specs.Delimiters.{delimiter_at};
ghost use Rattle.syn_parse.specs.Groups.{AreParts, Enters, IsAfter, RunsWithin};
ghost use Rattle.syn_parse.specs.State.{content_of};
ghost use Rattle.syn_parse.specs.ErrorWords.{delimiter_words, refused_at};
ghost use Rattle.syn_parse.specs.Reads.{Does};
ghost use Rattle.syn_parse.specs.Grouped.{grouped};
ghost use Rattle.syn_parse.specs.Takes.{EntersAhead, RunsAhead};
ghost use Rattle.syn_parse.specs.Takings.{Keeps};
ghost use Rattle.tok_buffer.specs.View.{IsVisibleDelimiter};

use crate::fault::{Result, words_of};
use crate::parse::Parse;
use crate::stream::{ParseBuffer, ParseStream};
use tok_core::{DelimSpan, Delimiter};
use tok_types::token;

/// The delimiters of a group that a parser has entered, and the stream of the group's contents.
#[derive(Debug)]
pub struct Delimited<'a, T> {
    pub token: T,
    pub content: ParseBuffer<'a>,
}

/// The result of `parse_parens`: the parentheses, and the stream of their contents.
pub type Parens<'a> = Delimited<'a, token::Paren>;

/// The result of `parse_braces`: the braces, and the stream of their contents.
pub type Braces<'a> = Delimited<'a, token::Brace>;

/// The result of `parse_brackets`: the brackets, and the stream of their contents.
pub type Brackets<'a> = Delimited<'a, token::Bracket>;

/// The result of `parse_group`: the delimiters of the invisible group, and the stream of its
/// contents.
pub type Group<'a> = Delimited<'a, token::Group>;

impl<'a, const D: usize> Delimited<'a, token::Visible<D>> {
    // Enters the group with these delimiters.
    fn enter(input: ParseStream<'_, 'a>) -> Result<Self>
        ensures { Enters (λ p. AreParts p.token.span p.content)
            (enter (delimiter_at D) input.old.place)
            (refused_at input.old (delimiter_words (delimiter_at D))) input.old result input.new }
    {
        let (span, content) = input.enter(token::Visible::<D>::delimiter())?;
        Ok(Delimited {
            token: token::Visible::new(span),
            content,
        })
    }
}

/// Enters the next group, which must be in parentheses, and moves `input` past the group.
///
/// The field `content` of the result is the stream of the group's contents. Pass this stream to the
/// method `close` of `input` after you have parsed the contents.
///
/// If no group in parentheses is next, returns an error, and `input` does not move.
///
/// # Examples
///
/// ```rust
/// let Parens { token, mut content } = parse_parens(input)?;
/// let name = content.parse::<Ident>();
/// input.close(content);
/// Ok((token, name?))
/// ```
#[tactic(auto, using(crate::proofs::GroupTakes::enters_ahead))]
pub fn parse_parens<'a>(input: ParseStream<'_, 'a>) -> Result<Parens<'a>>
    ensures enters { Enters (λ p. AreParts p.token.span p.content)
        (enter delimiter.Parenthesis input.old.place)
        (refused_at input.old (delimiter_words delimiter.Parenthesis)) input.old result input.new }
    ensures takes { EntersAhead (λ p. p.token.span) (λ p. p.content) delimiter.Parenthesis
        input.old result input.new }
{
    Parens::enter(input)
}

/// Enters the next group, which must be in braces, and moves `input` past the group.
///
/// Apart from the delimiter, the call works like `parse_parens`.
#[tactic(auto, using(crate::proofs::GroupTakes::enters_ahead))]
pub fn parse_braces<'a>(input: ParseStream<'_, 'a>) -> Result<Braces<'a>>
    ensures enters { Enters (λ p. AreParts p.token.span p.content)
        (enter delimiter.Brace input.old.place)
        (refused_at input.old (delimiter_words delimiter.Brace)) input.old result input.new }
    ensures takes { EntersAhead (λ p. p.token.span) (λ p. p.content) delimiter.Brace
        input.old result input.new }
{
    Braces::enter(input)
}

/// Enters the next group, which must be in brackets, and moves `input` past the group.
///
/// Apart from the delimiter, the call works like `parse_parens`.
#[tactic(auto, using(crate::proofs::GroupTakes::enters_ahead))]
pub fn parse_brackets<'a>(input: ParseStream<'_, 'a>) -> Result<Brackets<'a>>
    ensures enters { Enters (λ p. AreParts p.token.span p.content)
        (enter delimiter.Bracket input.old.place)
        (refused_at input.old (delimiter_words delimiter.Bracket)) input.old result input.new }
    ensures takes { EntersAhead (λ p. p.token.span) (λ p. p.content) delimiter.Bracket
        input.old result input.new }
{
    Brackets::enter(input)
}

/// Enters the next tree, which must be an invisible group, and moves `input` past the group.
///
/// Apart from the delimiter, the call works like `parse_parens`.
pub fn parse_group<'a>(input: ParseStream<'_, 'a>) -> Result<Group<'a>>
    ensures { Enters (λ p e. (p.token.span ≡ e.span) × (p.content ≡ content_of e))
        (enter delimiter.None input.old.place)
        (refused_at input.old (delimiter_words delimiter.None)) input.old result input.new }
{
    let (span, content) = input.enter(Delimiter::None)?;
    Ok(Delimited {
        token: token::Group::new(span.join()),
        content,
    })
}

impl<'a> ParseBuffer<'a> {
    // Enters the group with this delimiter. Returns its span, and the stream of its contents.
    // Inlined: the result is large, and mostly taken apart at once.
    #[inline(always)]
    fn enter(&mut self, delimiter: Delimiter) -> Result<(DelimSpan, Self)>
        ensures { Enters (λ p. AreParts p.0 p.1) (enter delimiter self.old.place)
            (refused_at self.old (delimiter_words delimiter)) self.old result self.new }
    {
        match self.cursor().group(delimiter) {
            Some((content, span, rest)) => {
                self.move_to(rest);
                Ok((
                    span,
                    ParseBuffer::made(self.allocator(), content, span.close(), None),
                ))
            }
            None => {
                let (expected, _) = words_of(delimiter);
                Err(self.refuse(expected))
            }
        }
    }

    /// Enters the next tree, which must be a visible or invisible group, and moves the stream past
    /// the group.
    ///
    /// Returns the delimiter and the span of the group, and the stream of its contents. After you
    /// have parsed the contents, pass their stream to the method `close` of this stream.
    ///
    /// If the next tree is not a group, returns an error, and the stream does not move.
    pub fn parse_any_delimiter(&mut self) -> Result<(Delimiter, DelimSpan, Self)>
        ensures { Enters (λ p e. (p.0 ≡ e.delimiter) × AreParts p.1 p.2 e)
            (enter_any self.old.place)
            (refused_at self.old (codes "expected any delimiter")) self.old result self.new }
    {
        match self.cursor().any_group() {
            Some((content, delimiter, span, rest)) => {
                self.move_to(rest);
                let content = ParseBuffer::made(self.allocator(), content, span.close(), None);
                Ok((delimiter, span, content))
            }
            None => Err(self.refuse("expected any delimiter")),
        }
    }

    /// Enters a group with the delimiter `delimiter`, runs `f` on its contents, and closes the
    /// group.
    ///
    /// Returns the span of the group and the value of `f`. If no such group is next, returns an
    /// error, and the stream does not move. If `f` returns an error, the call returns this error,
    /// and the stream is after the group.
    ///
    /// # Requires
    ///
    /// `f` must be callable on the stream of the contents.
    ///
    /// # Examples
    ///
    /// ```rust
    /// let (span, name) = input.within(Delimiter::Parenthesis, |content| content.parse::<Ident>())?;
    /// ```
    pub fn within<F, R>(&mut self, delimiter: Delimiter, f: F) -> Result<(DelimSpan, R)>
    where
        F: FnOnce(ParseStream<'_, 'a>) -> Result<R>,
        requires { (e : Entered) → enter delimiter self.old.place ≡ Some e
            → FnOnceTakesAtMut F.FnOnce f (content_of e) }
        ensures runs { Does (λ s. RunsWithin (FnOnceReturnsAtMut F.FnOnce f)
            (enter delimiter s.place) (refused_at s (delimiter_words delimiter)) s) self.old result
            self.new }
        ensures takes { RunsAhead (FnOnceReturnsAtMut F.FnOnce f) delimiter self.old result
            self.new }
        ensures after { IfOk result (λ _. IsAfter (enter delimiter self.old.place) self.new.place) }
    {
        self.run_within(delimiter, f)
    }

    /// Parses a value of type `T` in a group with the delimiter `delimiter`.
    ///
    /// Returns the span of the group and the value. The call has the same effect as `within` with
    /// the function `T::parse`.
    ///
    /// # Requires
    ///
    /// `delimiter` must be visible.
    ///
    /// # Examples
    ///
    /// ```rust
    /// let (span, name) = input.parse_within::<Ident>(Delimiter::Parenthesis)?;
    /// ```
    pub fn parse_within<T: Parse>(&mut self, delimiter: Delimiter) -> Result<(DelimSpan, T)>
        requires { IsVisibleDelimiter delimiter }
        ensures runs { Does (λ s. RunsWithin T.parses (enter delimiter s.place)
            (refused_at s (delimiter_words delimiter)) s) self.old result self.new }
        ensures takes { Keeps (grouped delimiter T.takes) self.old result self.new }
        ensures after { IfOk result (λ _. IsAfter (enter delimiter self.old.place) self.new.place) }
    {
        self.run_within(
            delimiter,
            |content|
                ensures reads { T.parses content.old result content.new }
                ensures takes { Keeps T.takes content.old result content.new }
            { T::parse(content) },
        )
    }

    // Does what `within` does.
    #[tactic(auto, using(crate::proofs::GroupTakes::group_entered))]
    fn run_within<F, R>(&mut self, delimiter: Delimiter, f: F) -> Result<(DelimSpan, R)>
    where
        F: FnOnce(ParseStream<'_, 'a>) -> Result<R>,
        requires { (e : Entered) → enter delimiter self.old.place ≡ Some e
            → FnOnceTakesAtMut F.FnOnce f (content_of e) }
        ensures runs { RunsWithin (FnOnceReturnsAtMut F.FnOnce f) (enter delimiter self.old.place)
            (refused_at self.old (delimiter_words delimiter)) self.old result self.new }
        ensures after { IfOk result (λ _. IsAfter (enter delimiter self.old.place) self.new.place) }
    {
        let (span, mut content) = self.enter(delimiter)?;
        let value = content.call(f);
        self.take_back(content);
        Ok((span, value?))
    }
}

/// Enters the next group of a stream, which must be in parentheses.
///
/// Returns the token of the parentheses, and stores the stream of the contents in a variable that
/// the caller has declared. The enclosing function must return a `Result`, because the macro uses
/// `?`.
///
/// # Examples
///
/// ```rust
/// let mut content;
/// let paren = parenthesized!(content in input);
/// let name = content.parse::<Ident>();
/// input.close(content);
/// ```
#[macro_export]
macro_rules! parenthesized {
    ($content:ident in $input:expr) => {{
        let parens = $crate::parse_parens($input)?;
        let $crate::Parens { token, content: inner } = parens;
        $content = inner;
        token
    }};
}

/// Enters the next group of a stream, which must be in braces.
///
/// Apart from the delimiter, the macro works like `parenthesized!`.
#[macro_export]
macro_rules! braced {
    ($content:ident in $input:expr) => {{
        let braces = $crate::parse_braces($input)?;
        let $crate::Braces { token, content: inner } = braces;
        $content = inner;
        token
    }};
}

/// Enters the next group of a stream, which must be in brackets.
///
/// Apart from the delimiter, the macro works like `parenthesized!`.
#[macro_export]
macro_rules! bracketed {
    ($content:ident in $input:expr) => {{
        let brackets = $crate::parse_brackets($input)?;
        let $crate::Brackets { token, content: inner } = brackets;
        $content = inner;
        token
    }};
}
