//! Laws about the values and suffixes of literals. Each law is the contract of a function that does
//! nothing.
ghost use Rattle.tok_lexical.specs.Laws.{ClonesKeep, EqualAsValues};
ghost use Rattle.tok_values.specs.Laws.{ByteCharactersAreRead, ByteStringsAgree, ByteStringsAreRead, ByteStringsHaveValues, BytesAgree, BytesHaveValues, CStringsAgree, CStringsAreRead, CStringsHaveValues, CharactersAgree, CharactersAreRead, CharactersHaveValues, DecimalsHaveTheirValue, DocCommentsAreRead, FloatsHaveTheirValue, IntegersAreRead, NumbersAloneHaveFloats, PlainStringsHaveValues, RawCStringsHaveValues, StringsAgree, StringsAreRead, StringsHaveValues, StringsKeepText};
ghost use Rattle.tok_values.specs.Suffixed.{IsByteCharacterValue, IsByteStrValue, IsCStrValue, IsCharacterValue, IsStrValue};
ghost use Rattle.tok_values.specs.Suffixes.{FloatsHaveTheirSuffix, IntegersHaveTheirSuffix, PointedHaveNoSuffix, QuotedHaveTheirSuffix};
ghost use Rattle.tok_values.specs.Values.{HasOneValue, IntegersHaveOneValue, StringsHaveOneValue};

use crate::integers::{Integer, IntegerFault};
use crate::numbers::NumberFault;

/// If `Literal::string` creates a literal from `text`, the string value of this literal is `text`.
pub fn strings_keep_text()
    ensures { StringsKeepText }
{}

/// If `Literal::string` creates a literal, the lexer reads this literal as a single string literal,
/// in every `Mode`.
pub fn strings_are_read()
    ensures { StringsAreRead }
{}

/// If `Literal::character` creates a literal from `c`, the lexer reads this literal as a single
/// character literal with the value `c`, in every `Mode`.
pub fn characters_are_read()
    ensures { CharactersAreRead }
{}

/// If `Literal::byte_string` creates a literal from `bytes`, the lexer reads this literal as a
/// single byte string literal with the value `bytes`.
///
/// The law applies to sources of any edition.
pub fn byte_strings_are_read()
    ensures { ByteStringsAreRead }
{}

/// If `Literal::byte_character` creates a literal from `byte`, the lexer reads this literal as a
/// single byte literal with the value `byte`, in every `Mode`.
pub fn byte_characters_are_read()
    ensures { ByteCharactersAreRead }
{}

/// If `Literal::c_string` creates a literal from `text`, the lexer reads this literal as a single C
/// string literal, whose value is the bytes of `text`.
///
/// The law applies to sources of an edition that has C strings.
pub fn c_strings_are_read()
    ensures { CStringsAreRead }
{}

/// If `Literal::doc_comment` creates a literal from `text`, the lexer reads this literal as a
/// single string literal with the value `text`, in every `Mode`.
pub fn doc_comments_are_read()
    ensures { DocCommentsAreRead }
{}

/// `str_value` returns a value for each raw string, and for each other string without a forbidden
/// character. `byte_str_value` returns a value for each raw byte string, and for each other byte
/// string without a forbidden character.
///
/// If a string without a forbidden character is not raw and has no suffix, `string_value` also
/// returns a value.
///
/// A carriage return is forbidden unless a line feed is directly after it. In a byte string, a
/// character beyond ASCII is also forbidden. `lex_source` rejects a literal with a forbidden
/// character. `lex` accepts a string with such a carriage return, but this law does not say whether
/// the string has a value.
pub fn strings_have_values()
    ensures strings { StringsHaveValues }
    ensures plain { PlainStringsHaveValues }
    ensures bytes { ByteStringsHaveValues }
{}

/// `cstr_value` returns a value for a C string if and only if the C string contains neither U+0000
/// nor an escape for U+0000. For a raw C string, `cstr_value` returns a value if and only if the
/// raw C string contains no U+0000.
///
/// If a C string is not raw, the law applies only if each carriage return is directly before a line
/// feed. `lex_source` rejects any other carriage return in a C string.
pub fn c_strings_have_values()
    ensures quoted { CStringsHaveValues }
    ensures raw { RawCStringsHaveValues }
{}

/// `character_value` returns a value for each character literal of the grammar, and
/// `byte_character_value` returns a value for each byte literal of the grammar.
pub fn characters_have_values()
    ensures characters { CharactersHaveValues }
    ensures bytes { BytesHaveValues }
{}

/// For a literal without a suffix, the methods that accept any suffix return the same values as the
/// methods that accept no suffix.
///
/// - `str_value` returns the value of `string_value` or `raw_string_value`.
/// - `byte_str_value` returns the value of `bytes_value` or `raw_bytes_value`.
/// - `character_value` returns the value of `char_value`.
/// - `byte_character_value` returns the value of `byte_value`.
pub fn values_agree_without_a_suffix()
    ensures strings { StringsAgree }
    ensures byte_strings { ByteStringsAgree }
    ensures characters { CharactersAgree }
    ensures bytes { BytesAgree }
{}

/// If the value of a string contains no U+0000, then `cstr_value` returns the bytes of this value for
/// the string with a `c` before it.
///
/// The string may be raw, and may have any suffix.
pub fn c_strings_mean_their_strings()
    ensures { CStringsAgree }
{}

/// The value of a string literal or an integer literal is a function of the literal's text. The
/// contract of a parser can therefore name the value.
pub fn values_are_functions()
    ensures strings { StringsHaveOneValue }
    ensures integers { IntegersHaveOneValue }
{}

/// A literal has at most one value as a string, as a byte string, as a C string, as a character and
/// as a byte, whatever its suffix.
pub fn literals_have_one_value()
    ensures strings { HasOneValue IsStrValue }
    ensures byte_strings { HasOneValue IsByteStrValue }
    ensures c_strings { HasOneValue IsCStrValue }
    ensures characters { HasOneValue IsCharacterValue }
    ensures bytes { HasOneValue IsByteCharacterValue }
{}

/// If `Literal::integer_unsuffixed` or `Literal::integer_suffixed` creates a literal from `number`,
/// the lexer reads this literal as a single integer literal, in every `Mode`.
///
/// The value that the grammar assigns to the literal is `number`. `integer_value` returns this
/// value and the suffix if `number` is at most `u64::MAX`.
pub fn integers_are_read()
    ensures { IntegersAreRead }
{}

/// `float_value` returns a value for each float, for decimal digits that end with a dot, and for
/// each decimal integer. The literal must have no suffix, or the suffix `f32` or `f64`.
///
/// The value is the `f64` nearest to the number that the digits of the literal represent.
pub fn floats_have_their_value()
    ensures floats { FloatsHaveTheirValue }
    ensures decimals { DecimalsHaveTheirValue }
{}

/// `float_value` returns a value only for a float, for decimal digits that end with a dot, and for
/// a decimal integer.
///
/// A literal with a value has no suffix, or the suffix `f32` or `f64`. A hexadecimal, octal or
/// binary integer has no value.
pub fn numbers_alone_have_floats()
    ensures { NumbersAloneHaveFloats }
{}

/// For an integer or a float, `suffix` returns the suffix that the grammar assigns to the literal.
/// For decimal digits that end with a dot, `suffix` returns an empty text.
///
/// A minus sign before the number does not change the result. For any other literal, `suffix`
/// returns the text after the last quote, apostrophe or number sign.
pub fn suffixes_follow_the_grammar()
    ensures quoted { QuotedHaveTheirSuffix }
    ensures integers { IntegersHaveTheirSuffix }
    ensures floats { FloatsHaveTheirSuffix }
    ensures pointed { PointedHaveNoSuffix }
{}

/// Two values `a` and `b` of type `IntegerFault` or `NumberFault` are the same value if and only if
/// `a == b`.
pub fn value_faults_are_compared_whole()
    ensures integers { EqualAsValues ⟦<IntegerFault as PartialEq>⟧.eq }
    ensures numbers { EqualAsValues ⟦<NumberFault as PartialEq>⟧.eq }
{}

/// A clone of an `Integer` has the same value and the same suffix as the original. A clone of an
/// `IntegerFault` or a `NumberFault` equals the original.
pub fn clones_keep_integers<'a>()
    ensures integers { ClonesKeep ⟦<Integer<'a> as Clone>⟧.is_clone }
    ensures faults { ClonesKeep ⟦<IntegerFault as Clone>⟧.is_clone }
    ensures numbers { ClonesKeep ⟦<NumberFault as Clone>⟧.is_clone }
{}
