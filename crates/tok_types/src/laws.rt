//! Laws about token types. Each law is the contract of a function that does nothing.
ghost use Rattle.std.specs.Prelude.{◌≡◌, ◌≤◌, codes, length};
ghost use Rattle.tok_buffer.specs.Entry.{enter};
ghost use Rattle.tok_lexical.specs.declared.delimiter.Delimiter.TheVariants.{Brace, Bracket, Parenthesis};
ghost use Rattle.tok_lexical.specs.Laws.{ClonesKeep};
ghost use Rattle.tok_types.specs.declared.tree_tokens.End.{End};
ghost use Rattle.tok_types.specs.Laws.{AreEqual, HasText, IsFound, IsNeverFound, WriteNothing};
ghost use Rattle.tok_types.specs.Texts.{keywords, punctuation_text};
ghost use Rattle.tok_types.specs.Views.{IgnoresInvisible};

use crate::delimiter::{Group, Visible};
use crate::keyword::Keyword;
use crate::look::Token;
use crate::punctuation::Punctuation;
use crate::token;
use crate::tree_tokens::{End, IdentAny};
use crate::underscore::Underscore;
use std::hash::Hash;
use tok_buffer::Lifetime;
use tok_core::{Ident, Literal, Punct};

/// A peek never finds a keyword whose number is past the end of the table of keywords.
pub fn keyword_past_the_table<const K: usize>()
    ensures { length keywords ≤ K → IsNeverFound ⟦<Keyword<K> as Token>⟧.peeks }
{}

/// A peek never finds a `Punctuation<K, N>` if the text with the number `K` does not have `N`
/// characters, or if there is no such text.
pub fn punctuation_past_the_table<const K: usize, const N: usize>()
    ensures { (length (punctuation_text K) ≡ N → N ≡ 0)
        → IsNeverFound ⟦<Punctuation<K, N> as Token>⟧.peeks }
{}

/// All keywords with the same number are equal, and hashing such a keyword writes nothing to the
/// hasher.
pub fn keywords_are_equal<const K: usize>()
    ensures equal { AreEqual ⟦<Keyword<K> as PartialEq>⟧.eq }
    ensures hash { WriteNothing ⟦<Keyword<K> as Hash>⟧.hash_input }
{}

/// All punctuation tokens with the same number and length are equal, and hashing such a token
/// writes nothing to the hasher.
pub fn punctuations_are_equal<const K: usize, const N: usize>()
    ensures equal { AreEqual ⟦<Punctuation<K, N> as PartialEq>⟧.eq }
    ensures hash { WriteNothing ⟦<Punctuation<K, N> as Hash>⟧.hash_input }
{}

/// All values of `Underscore` are equal, and hashing such a value writes nothing to the hasher.
pub fn underscores_are_equal()
    ensures equal { AreEqual ⟦<Underscore as PartialEq>⟧.eq }
    ensures hash { WriteNothing ⟦<Underscore as Hash>⟧.hash_input }
{}

/// All values of `Visible<D>` are equal, and hashing such a value writes nothing to the hasher.
pub fn delimiters_are_equal<const D: usize>()
    ensures equal { AreEqual ⟦<Visible<D> as PartialEq>⟧.eq }
    ensures hash { WriteNothing ⟦<Visible<D> as Hash>⟧.hash_input }
{}

/// All values of `Group` are equal, and hashing such a value writes nothing to the hasher.
pub fn groups_are_equal()
    ensures equal { AreEqual ⟦<Group as PartialEq>⟧.eq }
    ensures hash { WriteNothing ⟦<Group as Hash>⟧.hash_input }
{}

/// All values of `End`, including `End::default()`, are equal, and hashing such a value writes
/// nothing to the hasher.
pub fn ends_are_equal()
    ensures equal { AreEqual ⟦<End as PartialEq>⟧.eq }
    ensures default { (end other : End) → ⟦<End as Default>⟧.is_default end → end ≡ other }
    ensures hash { WriteNothing ⟦<End as Hash>⟧.hash_input }
{}

/// A clone of a keyword, a punctuation token, an underscore or a delimiter has the same spans as
/// the original.
pub fn clones_keep_tokens<const K: usize, const N: usize, const D: usize>()
    ensures keywords { ClonesKeep ⟦<Keyword<K> as Clone>⟧.is_clone }
    ensures punctuations { ClonesKeep ⟦<Punctuation<K, N> as Clone>⟧.is_clone }
    ensures underscores { ClonesKeep ⟦<Underscore as Clone>⟧.is_clone }
    ensures delimiters { ClonesKeep ⟦<Visible<D> as Clone>⟧.is_clone }
    ensures groups { ClonesKeep ⟦<Group as Clone>⟧.is_clone }
    ensures ends { ClonesKeep ⟦<End as Clone>⟧.is_clone }
{}

/// The result of a peek of an identifier, a literal, a punct, a lifetime, `_` or the end does not
/// depend on invisible groups.
///
/// The law applies to two cursors that differ only in invisible groups, and thus have equal views.
/// It requires that every invisible group in their buffers contains a visible tree.
pub fn peeks_ignore_invisible()
    ensures idents { IgnoresInvisible ⟦<Ident as Token>⟧.peeks }
    ensures any_idents { IgnoresInvisible ⟦<IdentAny as Token>⟧.peeks }
    ensures lifetimes { IgnoresInvisible ⟦<Lifetime as Token>⟧.peeks }
    ensures literals { IgnoresInvisible ⟦<Literal as Token>⟧.peeks }
    ensures puncts { IgnoresInvisible ⟦<Punct as Token>⟧.peeks }
    ensures underscores { IgnoresInvisible ⟦<Underscore as Token>⟧.peeks }
    ensures ends { IgnoresInvisible ⟦<End as Token>⟧.peeks }
{}

/// The result of a peek of a keyword or a punctuation token does not depend on invisible groups.
///
/// The law applies to two cursors that differ only in invisible groups, and thus have equal views.
/// It requires that every invisible group in their buffers contains a visible tree.
pub fn tokens_ignore_invisible<const K: usize, const N: usize>()
    ensures keywords { IgnoresInvisible ⟦<Keyword<K> as Token>⟧.peeks }
    ensures punctuations { IgnoresInvisible ⟦<Punctuation<K, N> as Token>⟧.peeks }
{}

/// The result of a peek of parentheses, braces or brackets does not depend on invisible groups.
///
/// The law applies to two cursors that differ only in invisible groups, and thus have equal views.
/// It requires that every invisible group in their buffers contains a visible tree.
pub fn delimiters_ignore_invisible<const D: usize>()
    ensures { IgnoresInvisible ⟦<Visible<D> as Token>⟧.peeks }
{}

/// Errors name each keyword in `token` with the text that the name of its type stands for.
///
/// For example, errors name `token::Fn` with the text `fn`, and `token::For` with the text `for`.
pub fn keywords_have_their_texts()
    ensures abstract_text { HasText (codes "abstract") ⟦<token::Abstract as Token>⟧.shown }
    ensures as_text { HasText (codes "as") ⟦<token::As as Token>⟧.shown }
    ensures async_text { HasText (codes "async") ⟦<token::Async as Token>⟧.shown }
    ensures auto_text { HasText (codes "auto") ⟦<token::Auto as Token>⟧.shown }
    ensures await_text { HasText (codes "await") ⟦<token::Await as Token>⟧.shown }
    ensures become_text { HasText (codes "become") ⟦<token::Become as Token>⟧.shown }
    ensures box_text { HasText (codes "box") ⟦<token::Box as Token>⟧.shown }
    ensures break_text { HasText (codes "break") ⟦<token::Break as Token>⟧.shown }
    ensures const_text { HasText (codes "const") ⟦<token::Const as Token>⟧.shown }
    ensures continue_text { HasText (codes "continue") ⟦<token::Continue as Token>⟧.shown }
    ensures crate_text { HasText (codes "crate") ⟦<token::Crate as Token>⟧.shown }
    ensures default_text { HasText (codes "default") ⟦<token::Default as Token>⟧.shown }
    ensures do_text { HasText (codes "do") ⟦<token::Do as Token>⟧.shown }
    ensures dyn_text { HasText (codes "dyn") ⟦<token::Dyn as Token>⟧.shown }
    ensures else_text { HasText (codes "else") ⟦<token::Else as Token>⟧.shown }
    ensures enum_text { HasText (codes "enum") ⟦<token::Enum as Token>⟧.shown }
    ensures extern_text { HasText (codes "extern") ⟦<token::Extern as Token>⟧.shown }
    ensures final_text { HasText (codes "final") ⟦<token::Final as Token>⟧.shown }
    ensures fn_text { HasText (codes "fn") ⟦<token::Fn as Token>⟧.shown }
    ensures for_text { HasText (codes "for") ⟦<token::For as Token>⟧.shown }
    ensures if_text { HasText (codes "if") ⟦<token::If as Token>⟧.shown }
    ensures impl_text { HasText (codes "impl") ⟦<token::Impl as Token>⟧.shown }
    ensures in_text { HasText (codes "in") ⟦<token::In as Token>⟧.shown }
    ensures let_text { HasText (codes "let") ⟦<token::Let as Token>⟧.shown }
    ensures loop_text { HasText (codes "loop") ⟦<token::Loop as Token>⟧.shown }
    ensures macro_text { HasText (codes "macro") ⟦<token::Macro as Token>⟧.shown }
    ensures match_text { HasText (codes "match") ⟦<token::Match as Token>⟧.shown }
    ensures mod_text { HasText (codes "mod") ⟦<token::Mod as Token>⟧.shown }
    ensures move_text { HasText (codes "move") ⟦<token::Move as Token>⟧.shown }
    ensures mut_text { HasText (codes "mut") ⟦<token::Mut as Token>⟧.shown }
    ensures override_text { HasText (codes "override") ⟦<token::Override as Token>⟧.shown }
    ensures priv_text { HasText (codes "priv") ⟦<token::Priv as Token>⟧.shown }
    ensures pub_text { HasText (codes "pub") ⟦<token::Pub as Token>⟧.shown }
    ensures raw_text { HasText (codes "raw") ⟦<token::Raw as Token>⟧.shown }
    ensures ref_text { HasText (codes "ref") ⟦<token::Ref as Token>⟧.shown }
    ensures return_text { HasText (codes "return") ⟦<token::Return as Token>⟧.shown }
    ensures safe_text { HasText (codes "safe") ⟦<token::Safe as Token>⟧.shown }
    ensures self_type_text { HasText (codes "Self") ⟦<token::SelfType as Token>⟧.shown }
    ensures self_value_text { HasText (codes "self") ⟦<token::SelfValue as Token>⟧.shown }
    ensures static_text { HasText (codes "static") ⟦<token::Static as Token>⟧.shown }
    ensures struct_text { HasText (codes "struct") ⟦<token::Struct as Token>⟧.shown }
    ensures super_text { HasText (codes "super") ⟦<token::Super as Token>⟧.shown }
    ensures trait_text { HasText (codes "trait") ⟦<token::Trait as Token>⟧.shown }
    ensures try_text { HasText (codes "try") ⟦<token::Try as Token>⟧.shown }
    ensures type_text { HasText (codes "type") ⟦<token::Type as Token>⟧.shown }
    ensures typeof_text { HasText (codes "typeof") ⟦<token::Typeof as Token>⟧.shown }
    ensures union_text { HasText (codes "union") ⟦<token::Union as Token>⟧.shown }
    ensures unsafe_text { HasText (codes "unsafe") ⟦<token::Unsafe as Token>⟧.shown }
    ensures unsized_text { HasText (codes "unsized") ⟦<token::Unsized as Token>⟧.shown }
    ensures use_text { HasText (codes "use") ⟦<token::Use as Token>⟧.shown }
    ensures virtual_text { HasText (codes "virtual") ⟦<token::Virtual as Token>⟧.shown }
    ensures where_text { HasText (codes "where") ⟦<token::Where as Token>⟧.shown }
    ensures while_text { HasText (codes "while") ⟦<token::While as Token>⟧.shown }
    ensures yield_text { HasText (codes "yield") ⟦<token::Yield as Token>⟧.shown }
{}

/// Errors name each punctuation token in `token` with the text that the name of its type stands
/// for.
///
/// For example, errors name `token::Plus` with the text `+`, and `token::Minus` with the text `-`.
pub fn punctuations_have_their_texts()
    ensures and_text { HasText (codes "&") ⟦<token::And as Token>⟧.shown }
    ensures and_and_text { HasText (codes "&&") ⟦<token::AndAnd as Token>⟧.shown }
    ensures and_eq_text { HasText (codes "&=") ⟦<token::AndEq as Token>⟧.shown }
    ensures at_text { HasText (codes "@") ⟦<token::At as Token>⟧.shown }
    ensures caret_text { HasText (codes "^") ⟦<token::Caret as Token>⟧.shown }
    ensures caret_eq_text { HasText (codes "^=") ⟦<token::CaretEq as Token>⟧.shown }
    ensures colon_text { HasText (codes ":") ⟦<token::Colon as Token>⟧.shown }
    ensures comma_text { HasText (codes ",") ⟦<token::Comma as Token>⟧.shown }
    ensures dollar_text { HasText (codes "$") ⟦<token::Dollar as Token>⟧.shown }
    ensures dot_text { HasText (codes ".") ⟦<token::Dot as Token>⟧.shown }
    ensures dot_dot_text { HasText (codes "..") ⟦<token::DotDot as Token>⟧.shown }
    ensures dot_dot_dot_text { HasText (codes "...") ⟦<token::DotDotDot as Token>⟧.shown }
    ensures dot_dot_eq_text { HasText (codes "..=") ⟦<token::DotDotEq as Token>⟧.shown }
    ensures eq_text { HasText (codes "=") ⟦<token::Eq as Token>⟧.shown }
    ensures eq_eq_text { HasText (codes "==") ⟦<token::EqEq as Token>⟧.shown }
    ensures fat_arrow_text { HasText (codes "=>") ⟦<token::FatArrow as Token>⟧.shown }
    ensures ge_text { HasText (codes ">=") ⟦<token::Ge as Token>⟧.shown }
    ensures gt_text { HasText (codes ">") ⟦<token::Gt as Token>⟧.shown }
    ensures larrow_text { HasText (codes "<-") ⟦<token::LArrow as Token>⟧.shown }
    ensures le_text { HasText (codes "<=") ⟦<token::Le as Token>⟧.shown }
    ensures lt_text { HasText (codes "<") ⟦<token::Lt as Token>⟧.shown }
    ensures minus_text { HasText (codes "-") ⟦<token::Minus as Token>⟧.shown }
    ensures minus_eq_text { HasText (codes "-=") ⟦<token::MinusEq as Token>⟧.shown }
    ensures ne_text { HasText (codes "!=") ⟦<token::Ne as Token>⟧.shown }
    ensures not_text { HasText (codes "!") ⟦<token::Not as Token>⟧.shown }
    ensures or_text { HasText (codes "|") ⟦<token::Or as Token>⟧.shown }
    ensures or_eq_text { HasText (codes "|=") ⟦<token::OrEq as Token>⟧.shown }
    ensures or_or_text { HasText (codes "||") ⟦<token::OrOr as Token>⟧.shown }
    ensures path_sep_text { HasText (codes "::") ⟦<token::PathSep as Token>⟧.shown }
    ensures percent_text { HasText (codes "%") ⟦<token::Percent as Token>⟧.shown }
    ensures percent_eq_text { HasText (codes "%=") ⟦<token::PercentEq as Token>⟧.shown }
    ensures plus_text { HasText (codes "+") ⟦<token::Plus as Token>⟧.shown }
    ensures plus_eq_text { HasText (codes "+=") ⟦<token::PlusEq as Token>⟧.shown }
    ensures pound_text { HasText (codes "#") ⟦<token::Pound as Token>⟧.shown }
    ensures question_text { HasText (codes "?") ⟦<token::Question as Token>⟧.shown }
    ensures rarrow_text { HasText (codes "->") ⟦<token::RArrow as Token>⟧.shown }
    ensures semi_text { HasText (codes ";") ⟦<token::Semi as Token>⟧.shown }
    ensures shl_text { HasText (codes "<<") ⟦<token::Shl as Token>⟧.shown }
    ensures shl_eq_text { HasText (codes "<<=") ⟦<token::ShlEq as Token>⟧.shown }
    ensures shr_text { HasText (codes ">>") ⟦<token::Shr as Token>⟧.shown }
    ensures shr_eq_text { HasText (codes ">>=") ⟦<token::ShrEq as Token>⟧.shown }
    ensures slash_text { HasText (codes "/") ⟦<token::Slash as Token>⟧.shown }
    ensures slash_eq_text { HasText (codes "/=") ⟦<token::SlashEq as Token>⟧.shown }
    ensures star_text { HasText (codes "*") ⟦<token::Star as Token>⟧.shown }
    ensures star_eq_text { HasText (codes "*=") ⟦<token::StarEq as Token>⟧.shown }
    ensures tilde_text { HasText (codes "~") ⟦<token::Tilde as Token>⟧.shown }
{}

/// A peek of `token::Paren` finds parentheses, a peek of `token::Brace` finds braces, and a peek of
/// `token::Bracket` finds brackets.
pub fn delimiters_have_their_names()
    ensures paren { IsFound (enter Parenthesis) ⟦<token::Paren as Token>⟧.peeks }
    ensures brace { IsFound (enter Brace) ⟦<token::Brace as Token>⟧.peeks }
    ensures bracket { IsFound (enter Bracket) ⟦<token::Bracket as Token>⟧.peeks }
{}
