//! Laws that proofs can use. Each law is the contract of a function that does nothing, or that
//! makes a single call. A proof uses a law by calling its function.
//!
//! The last laws call items that this crate re-exports. They ensure that each of these items has
//! the right name.
ghost use Rattle.std.specs.Prelude.{◌≡◌, ℕ, Bool, List, IfOk, Some, codes, map};
ghost use Rattle.std.specs.Str.{chars};
ghost use Rattle.tok_lexical.specs.declared.delimiter.Delimiter.TheVariants.{Brace, Bracket, Parenthesis};
ghost use Rattle.tok_lexical.specs.declared.rule.Mode.TheVariants.{Marked, Plain};
ghost use Rattle.tok_leaves.specs.Spans.{call_site};
ghost use Rattle.tok_core.specs.Clear.{clear};
ghost use Rattle.tok_core.specs.Filled.{filled};
ghost use Rattle.tok_core.specs.Lexical.Outcome.{FollowsGrammar};
ghost use Rattle.tok_pruned.specs.Pruned.{pruned};
ghost use Rattle.tok_buffer.specs.Place.{Place, is_at_end};
ghost use Rattle.tok_types.specs.Sees.{any_ident_first};
ghost use Rattle.syn_parse.specs.Parsers.{ParsesWhole, whole_stream};
ghost use Rattle.syn_parse.specs.Takes.{EntersAhead};
ghost use Rattle.syn_parse.specs.Takings.{Keeps};
ghost use Rattle.syn_parse.specs.Skips.{second_sees};
ghost use Rattle.syn_choices.specs.Peeks.{both_see, either_sees, not_sees};
ghost use Rattle.syn_replay.specs.Commands.{command_of};
ghost use Rattle.syn_replay.specs.Meanings.{report_of};
ghost use Rattle.syn_replay.specs.Session.Walk.{walk};

use crate::LitBool;
use crate::LitFloat;
use crate::LitInt;
use crate::LitStr;
use crate::SignedFloat;
use crate::SignedInt;
use crate::ext::IdentAny;
use crate::parse::End;
use crate::parse::NotNext;
use crate::parse::OneOf;
use crate::parse::Then;
use std::alloc::AllocError;
use std::alloc::Global;
pub use syn_literals::laws::clones_keep_booleans;
use syn_parse::Parse;
use syn_parse::ParseBuffer;
use syn_parse::ParseStream;
use syn_parse::Result;
pub use syn_parse::laws::clones_keep_own_keywords;
pub use syn_parse::laws::clones_keep_streams;
pub use syn_parse::laws::errors_have_one_span;
pub use syn_parse::laws::forks_follow;
pub use syn_parse::laws::nothings_are_equal;
pub use syn_parse::laws::own_keywords_are_equal;
pub use syn_parse::laws::parses_go_on;
pub use syn_parse::laws::peeks_past_ignore_invisible;
pub use syn_parse::laws::peeks_tell_groups;
pub use syn_parse::laws::peeks_tell_parses;
pub use syn_parse::laws::peeks_tell_tokens;
pub use syn_parse::laws::scopes_tell;
pub use syn_parse::laws::views_decide_words;
pub use syn_punctuated::laws::clones_keep_pairs;
pub use syn_punctuated::laws::equality_is_pointwise;
pub use syn_punctuated::laws::indexing_writes_one_value;
pub use syn_punctuated::laws::lists_are_read_back;
pub use syn_punctuated::laws::lists_hash_all;
pub use syn_punctuated::laws::lists_have_their_trees;
pub use syn_punctuated::laws::names_and_punctuations_are_read_back;
pub use syn_punctuated::laws::pair_faults_are_compared_whole;
pub use syn_punctuated::laws::pairs_are_compared_by_parts;
pub use syn_punctuated::laws::read_again;
pub use syn_punctuated::laws::retain_keeps_trailing;
pub use syn_punctuated::laws::separators_follow_values;
pub use syn_punctuated::laws::tokens_state_trees;
use syn_replay::Command;
use syn_replay::Report;
pub use syn_replay::laws::clones_keep_commands;
pub use syn_replay::laws::forks_follow_commands;
pub use syn_replay::laws::inner_streams_end_too;
pub use syn_replay::laws::invisible_groups_do_not_matter;
pub use syn_replay::laws::looks_are_compared_whole;
pub use syn_replay::laws::more_turns_change_nothing;
pub use syn_replay::laws::positions_are_compared_whole;
pub use tok_buffer::laws::ahead_tells;
pub use tok_buffer::laws::calls_lead_on;
pub use tok_buffer::laws::clones_keep_errors;
pub use tok_buffer::laws::descents_enter;
pub use tok_buffer::laws::entries_go_on;
pub use tok_buffer::laws::equal_in_order;
pub use tok_buffer::laws::lifetimes_by_name;
pub use tok_buffer::laws::lifetimes_in_order;
pub use tok_buffer::laws::marked_as_stream;
pub use tok_buffer::laws::moves_stay;
pub use tok_buffer::laws::passed_trees_join;
pub use tok_buffer::laws::reads_follow;
pub use tok_buffer::laws::reads_go_later;
pub use tok_buffer::laws::reads_go_on;
pub use tok_buffer::laws::reads_keep_scope;
pub use tok_buffer::laws::remaining_reaches_scope;
pub use tok_buffer::laws::same_stream;
pub use tok_buffer::laws::skips_go_on;
pub use tok_buffer::laws::source_as_stream;
pub use tok_buffer::laws::staying_adds_nothing;
pub use tok_buffer::laws::stays_along;
pub use tok_buffer::laws::text_as_stream;
pub use tok_buffer::laws::views_decide;
pub use tok_carets::laws::clones_keep_places;
pub use tok_carets::laws::places_are_compared_whole;
use tok_core::Ident;
use tok_core::LexFault;
use tok_core::TokenStream;
pub use tok_core::laws::begins_once;
pub use tok_core::laws::clones_keep_all;
pub use tok_core::laws::clones_keep_rules;
pub use tok_core::laws::clones_keep_trees;
pub use tok_core::laws::editions_by_year;
pub use tok_core::laws::errors_are_compared_whole;
pub use tok_core::laws::errors_explained_once;
pub use tok_core::laws::forest_once;
pub use tok_core::laws::ident_faults_tell;
pub use tok_core::laws::idents_by_text;
pub use tok_core::laws::kinds_are_compared_whole;
pub use tok_core::laws::never_both;
pub use tok_core::laws::read_visibly;
pub use tok_core::laws::refused_once;
pub use tok_core::laws::spans_are_compared_whole;
pub use tok_core::laws::streams_without_spans;
pub use tok_core::laws::trees_without_spans;
pub use tok_core::laws::writes_follow_writes;
pub use tok_entries::laws::blamed_once;
pub use tok_entries::laws::clones_keep_entries;
pub use tok_entries::laws::denoted_once;
pub use tok_entries::laws::entries_are_compared_whole;
pub use tok_lexical::laws::quoted_faults_tell;
pub use tok_pruned::laws::filled_forests_stay;
pub use tok_pruned::laws::pruning_again_changes_nothing;
pub use tok_pruned::laws::pruning_fills;
pub use tok_pruned::laws::pruning_goes_by_parts;
pub use tok_types::laws::clones_keep_tokens;
pub use tok_types::laws::delimiters_are_equal;
pub use tok_types::laws::delimiters_have_their_names;
pub use tok_types::laws::delimiters_ignore_invisible;
pub use tok_types::laws::ends_are_equal;
pub use tok_types::laws::groups_are_equal;
pub use tok_types::laws::keyword_past_the_table;
pub use tok_types::laws::keywords_are_equal;
pub use tok_types::laws::keywords_have_their_texts;
pub use tok_types::laws::peeks_ignore_invisible;
pub use tok_types::laws::punctuation_past_the_table;
pub use tok_types::laws::punctuations_are_equal;
pub use tok_types::laws::punctuations_have_their_texts;
pub use tok_types::laws::tokens_ignore_invisible;
pub use tok_types::laws::underscores_are_equal;
use tok_types::token;
use tok_types::token::Token;
pub use tok_values::laws::byte_characters_are_read;
pub use tok_values::laws::byte_strings_are_read;
pub use tok_values::laws::c_strings_are_read;
pub use tok_values::laws::c_strings_have_values;
pub use tok_values::laws::c_strings_mean_their_strings;
pub use tok_values::laws::characters_are_read;
pub use tok_values::laws::characters_have_values;
pub use tok_values::laws::clones_keep_integers;
pub use tok_values::laws::doc_comments_are_read;
pub use tok_values::laws::floats_have_their_value;
pub use tok_values::laws::integers_are_read;
pub use tok_values::laws::literals_have_one_value;
pub use tok_values::laws::numbers_alone_have_floats;
pub use tok_values::laws::strings_are_read;
pub use tok_values::laws::strings_have_values;
pub use tok_values::laws::strings_keep_text;
pub use tok_values::laws::suffixes_follow_the_grammar;
pub use tok_values::laws::value_faults_are_compared_whole;
pub use tok_values::laws::values_agree_without_a_suffix;
pub use tok_values::laws::values_are_functions;
pub use visible_replay::laws::visible_tokens_decide;

/// `lex` reads a text by the grammar in which `«` and `»` do not stand for invisible groups.
pub fn lex_reads_texts(
    alloc: Global,
    source: u32,
    text: &str,
) -> std::result::Result<TokenStream, LexFault>
    ensures { FollowsGrammar Plain source (chars text.now) result }
{
    crate::lex(alloc, source, text)
}

/// `lex_marked` reads a text by the grammar in which `«` opens an invisible group and `»` closes
/// it.
pub fn lex_marked_reads_marks(
    alloc: Global,
    source: u32,
    text: &str,
) -> std::result::Result<TokenStream, LexFault>
    ensures { FollowsGrammar Marked source (chars text.now) result }
{
    crate::lex_marked(alloc, source, text)
}

/// `is_filled` returns `true` if and only if each invisible group of the stream contains a visible
/// token.
pub fn is_filled_tells_groups(stream: &TokenStream) -> bool
    ensures { result ≡ filled stream.now }
{
    crate::is_filled(stream)
}

/// `is_clear` returns `true` if and only if no joint apostrophe of the stream is directly before a
/// delimiter of an invisible group.
pub fn is_clear_tells_apostrophes(stream: &TokenStream) -> bool
    ensures { result ≡ clear stream.now }
{
    crate::is_clear(stream)
}

/// `parse2` parses a token stream without removing any invisible group.
pub fn parse2_keeps_all_groups<T: Parse + Drop>(alloc: Global, tokens: TokenStream) -> Result<T>
    ensures { ParsesWhole T.parses (whole_stream tokens call_site) result }
{
    crate::parse2(alloc, tokens)
}

/// `parse_visible` removes the invisible groups that contain no visible token from a token stream,
/// and parses the remaining stream.
pub fn parse_visible_prunes<T: Parse + Drop>(alloc: Global, tokens: TokenStream) -> Result<T>
    ensures { ParsesWhole T.parses (whole_stream (pruned tokens) call_site) result }
{
    crate::parse_visible(alloc, tokens)
}

/// `parse_both` parses two token streams without removing any invisible group, and returns the
/// results in the same order.
pub fn parse_both_keeps_all_groups(
    alloc: Global,
    left: TokenStream,
    right: TokenStream,
) -> (Result<Ident>, Result<Ident>)
    ensures left { ParsesWhole ⟦<Ident as Parse>⟧.parses (whole_stream left call_site) result.0 }
    ensures right { ParsesWhole ⟦<Ident as Parse>⟧.parses (whole_stream right call_site) result.1 }
{
    crate::parse_both(alloc, left, right)
}

/// `parse_visible_both` removes the invisible groups that contain no visible token from two token
/// streams, and parses the remaining streams. It returns the results in the same order.
pub fn parse_visible_both_prunes(
    alloc: Global,
    left: TokenStream,
    right: TokenStream,
) -> (Result<Ident>, Result<Ident>)
    ensures left { ParsesWhole ⟦<Ident as Parse>⟧.parses
        (whole_stream (pruned left) call_site) result.0 }
    ensures right { ParsesWhole ⟦<Ident as Parse>⟧.parses
        (whole_stream (pruned right) call_site) result.1 }
{
    crate::parse_visible_both(alloc, left, right)
}

/// `replay` runs commands over a token stream without removing any invisible group.
pub fn replay_keeps_all_groups(
    alloc: Global,
    stream: TokenStream,
    commands: &[Command],
) -> std::result::Result<Report, AllocError>
    ensures { IfOk result (λ r. report_of r ≡ walk stream (map command_of commands.now)) }
{
    crate::replay(alloc, stream, commands)
}

/// `visible_replay` removes the invisible groups that contain no visible token from a token stream,
/// and runs commands over the remaining stream.
pub fn visible_replay_prunes(
    alloc: Global,
    stream: TokenStream,
    commands: &[Command],
) -> std::result::Result<Report, AllocError>
    ensures { IfOk result
        (λ r. report_of r ≡ walk (pruned stream) (map command_of commands.now)) }
{
    crate::visible_replay(alloc, stream, commands)
}

/// `replay_both` runs commands over two token streams without removing any invisible group, and
/// returns the reports in the same order.
pub fn replay_both_keeps_all_groups(
    alloc: Global,
    left: TokenStream,
    right: TokenStream,
    commands: &[Command],
) -> std::result::Result<(Report, Report), AllocError>
    ensures left { IfOk result (λ r. report_of r.0 ≡ walk left (map command_of commands.now)) }
    ensures right { IfOk result (λ r. report_of r.1 ≡ walk right (map command_of commands.now)) }
{
    crate::replay_both(alloc, left, right, commands)
}

/// `visible_replay_both` removes the invisible groups that contain no visible token from two token
/// streams, and runs commands over the remaining streams. It returns the reports in the same order.
pub fn visible_replay_both_prunes(
    alloc: Global,
    left: TokenStream,
    right: TokenStream,
    commands: &[Command],
) -> std::result::Result<(Report, Report), AllocError>
    ensures left { IfOk result
        (λ r. report_of r.0 ≡ walk (pruned left) (map command_of commands.now)) }
    ensures right { IfOk result
        (λ r. report_of r.1 ≡ walk (pruned right) (map command_of commands.now)) }
{
    crate::visible_replay_both(alloc, left, right, commands)
}

/// `parenthesized!` enters the next group if its delimiters are parentheses.
pub fn parenthesized_enters_parentheses<'a>(
    input: ParseStream<'_, 'a>,
) -> Result<(token::Paren, ParseBuffer<'a>)>
    ensures { EntersAhead (λ p. p.0.span) (λ p. p.1) Parenthesis input.old result input.new }
{
    let mut content;
    let token = crate::parenthesized!(content in input);
    Ok((token, content))
}

/// `braced!` enters the next group if its delimiters are braces.
pub fn braced_enters_braces<'a>(
    input: ParseStream<'_, 'a>,
) -> Result<(token::Brace, ParseBuffer<'a>)>
    ensures { EntersAhead (λ p. p.0.span) (λ p. p.1) Brace input.old result input.new }
{
    let mut content;
    let token = crate::braced!(content in input);
    Ok((token, content))
}

/// `bracketed!` enters the next group if its delimiters are brackets.
pub fn bracketed_enters_brackets<'a>(
    input: ParseStream<'_, 'a>,
) -> Result<(token::Bracket, ParseBuffer<'a>)>
    ensures { EntersAhead (λ p. p.0.span) (λ p. p.1) Bracket input.old result input.new }
{
    let mut content;
    let token = crate::bracketed!(content in input);
    Ok((token, content))
}

/// In error messages, a `LitStr` is called `string literal`, a `LitInt` is called `integer
/// literal`, and a `LitFloat` is called `floating point literal`. A `LitBool` is called `boolean
/// literal`.
pub fn literals_have_their_kinds()
    ensures strings { (name : List ℕ) → ⟦<LitStr as Token>⟧.shown name
        → name ≡ codes "string literal" }
    ensures integers { (name : List ℕ) → ⟦<LitInt as Token>⟧.shown name
        → name ≡ codes "integer literal" }
    ensures floats { (name : List ℕ) → ⟦<LitFloat as Token>⟧.shown name
        → name ≡ codes "floating point literal" }
    ensures booleans { (name : List ℕ) → ⟦<LitBool as Token>⟧.shown name
        → name ≡ codes "boolean literal" }
{}

/// The parser of `SignedInt` reads an optional minus sign and an integer literal.
pub fn signed_ints_take_integers(input: ParseStream<'_, '_>) -> Result<SignedInt>
    ensures { Keeps ⟦<(Option<token::Minus>, syn_literals::LitInt) as Parse>⟧.takes
        input.old result input.new }
{
    input.parse()
}

/// The parser of `SignedFloat` reads an optional minus sign and a floating-point literal.
pub fn signed_floats_take_floats(input: ParseStream<'_, '_>) -> Result<SignedFloat>
    ensures { Keeps ⟦<(Option<token::Minus>, syn_literals::LitFloat) as Parse>⟧.takes
        input.old result input.new }
{
    input.parse()
}

/// A peek for `Then<A, B>` returns `true` if `A` is next and `B` comes after the next token. A peek
/// for `OneOf<A, B>` returns `true` if `A` or `B` is next. A peek for `NotNext<A>` returns `true`
/// if `A` is not next.
pub fn peeks_have_their_meanings<A: Token, B: Token>()
    ensures in_turn { ⟦<Then<A, B> as Token>⟧.sees ≡ both_see A.sees (second_sees B.sees) }
    ensures either { ⟦<OneOf<A, B> as Token>⟧.sees ≡ either_sees A.sees B.sees }
    ensures another { ⟦<NotNext<A> as Token>⟧.sees ≡ not_sees A.sees }
{}

/// A peek for `IdentAny` returns `true` if and only if an identifier is next. A peek for `End`
/// returns `true` only at the end of the stream.
pub fn peeks_tell_identifiers_and_ends()
    ensures identifiers { ⟦<IdentAny as Token>⟧.sees ≡ Some any_ident_first }
    ensures ends { (p : Place) (found : Bool) → ⟦<End as Token>⟧.peeks p found
        → found ≡ is_at_end p }
{}
