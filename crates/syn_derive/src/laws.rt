//! Laws about derive inputs. Each law is the contract of a function that does nothing.
ghost use Rattle.std.specs.Prelude.{◌≡◌, MatchResult, Result, true};
ghost use Rattle.tok_lexical.specs.Laws.{ClonesKeep};
ghost use Rattle.tok_leaves.specs.declared.span.Span.{Span};
ghost use Rattle.tok_core.specs.Erase.{erase};
ghost use Rattle.tok_core.specs.Filled.{filled};
ghost use Rattle.tok_core.specs.Forest.{Forest, no_trees};
ghost use Rattle.syn_parse.specs.Faults.{IsMemory};
ghost use Rattle.syn_parse.specs.Takings.{KeepsWhole};
ghost use Rattle.syn_parse.specs.TokenNames.{Comma, Token};
ghost use Rattle.syn_parse.specs.declared.fault.Fault.{Fault};
ghost use Rattle.syn_punctuated.specs.Parts.{HasGrammar};
ghost use Rattle.syn_punctuated.specs.declared.punctuated.Punctuated.{Punctuated};
ghost use Rattle.syn_derive.specs.Again.{ParsedAgain, ParsedAnywhere, again_form};
ghost use Rattle.syn_derive.specs.Arguments.{take_nested_list};
ghost use Rattle.syn_derive.specs.Attributes.{attribute_form, attribute_trees, take_attribute, take_attributes};
ghost use Rattle.syn_derive.specs.Fields.{field_form, fields_form, take_fields, take_named_field, take_unnamed_field, take_variant, variant_form};
ghost use Rattle.syn_derive.specs.Generics.{take_params, take_where_clause};
ghost use Rattle.syn_derive.specs.Grammar.{AreAttributes, AreGenericParams, AreNestedMetas, IsAttr};
ghost use Rattle.syn_derive.specs.Grammar.{IsDeriveInput, IsEnumVariant, IsPath, IsStructField};
ghost use Rattle.syn_derive.specs.Grammar.{IsTupleField, IsVisibility, IsWhereClause, ParsesInput};
ghost use Rattle.syn_derive.specs.Grammar.{AreVariantFields, IsAttrList, IsAttrValue, IsAttribute};
ghost use Rattle.syn_derive.specs.Grammar.{IsMetaItemInner};
ghost use Rattle.syn_derive.specs.Grammar.{IsMetaSeq, IsNestedMeta, IsRun, ParsesMetaSeq};
ghost use Rattle.syn_derive.specs.Inputs.{InputForm, input_form, take_input};
ghost use Rattle.syn_derive.specs.Metas.{meta_form, meta_list_form, meta_list_trees, meta_trees};
ghost use Rattle.syn_derive.specs.Metas.{name_value_form, name_value_trees, take_meta};
ghost use Rattle.syn_derive.specs.Metas.{take_meta_list, take_name_value, take_nested_meta};
ghost use Rattle.syn_derive.specs.NestedMetas.{meta_seq, nested_form, nested_trees};
ghost use Rattle.syn_derive.specs.NestedMetas.{take_meta_seq, take_nested_form};
ghost use Rattle.syn_derive.specs.Paths.{path_form, path_trees, take_path};
ghost use Rattle.syn_derive.specs.Visibilities.{take_visibility, visibility_form, visibility_trees};
ghost use Rattle.syn_derive.specs.RunGrammar.{AreParams, ArePredicates, AreTaken, IsExpr, IsType};
ghost use Rattle.syn_derive.specs.Runs.{take_expr, take_type, take_until};
ghost use Rattle.syn_derive.specs.Written.{field_trees, fields_trees, input_trees, variant_trees};
ghost use Rattle.syn_derive.specs.declared.derive.DeriveInput.{DeriveInput};
ghost use Rattle.syn_derive.specs.declared.nested.NestedMeta.{NestedMeta};
ghost use Rattle.syn_derive.specs.declared.run.Until.TheVariants.{Params, Predicates};

use crate::derive::DeriveInput;
use crate::meta::MacroDelimiter;
use syn_parse::Parse;

/// The parsers of types, expressions, parameters and predicates accept exactly the tokens of a
/// grammar in which every opening `<` has a matching `>`.
pub fn tokens_are_balanced()
    ensures types { AreTaken IsType take_type }
    ensures expressions { AreTaken IsExpr take_expr }
    ensures parameters { AreTaken AreParams (take_until Params) }
    ensures predicates { AreTaken ArePredicates (take_until Predicates) }
{}

/// The parsers of paths, visibilities, metas, attributes, fields, variants, generic parameters,
/// `where` clauses and derive inputs follow the grammar.
///
/// Such a parser reads a value from the next visible token trees if and only if the grammar assigns
/// this value to these trees. It leaves the trees after the value unread.
///
/// The file `specs/Grammar.antt` contains the productions of the Rust Reference. Its comments say
/// where a production accepts more than the Reference, as `syn` does. In this grammar, types,
/// expressions, parameters and predicates are tokens, as in the law `tokens_are_balanced`.
pub fn grammar_is_parsed()
    ensures paths { HasGrammar take_path IsPath }
    ensures visibilities { HasGrammar take_visibility IsVisibility }
    ensures metas { HasGrammar take_meta IsAttr }
    ensures meta_lists { HasGrammar take_meta_list IsAttrList }
    ensures name_values { HasGrammar take_name_value IsAttrValue }
    ensures nested_metas { HasGrammar take_nested_list AreNestedMetas }
    ensures nested_meta { HasGrammar take_nested_meta IsNestedMeta }
    ensures meta_items { HasGrammar take_nested_form IsMetaItemInner }
    ensures meta_seqs { HasGrammar take_meta_seq IsMetaSeq }
    ensures attribute { HasGrammar take_attribute IsAttribute }
    ensures attributes { HasGrammar take_attributes AreAttributes }
    ensures named_fields { HasGrammar take_named_field IsStructField }
    ensures unnamed_fields { HasGrammar take_unnamed_field IsTupleField }
    ensures fields { HasGrammar take_fields AreVariantFields }
    ensures variants { HasGrammar take_variant IsEnumVariant }
    ensures generics { HasGrammar take_params AreGenericParams }
    ensures where_clauses { HasGrammar take_where_clause IsWhereClause }
    ensures inputs { HasGrammar take_input IsDeriveInput }
{}

/// If each invisible group of a stream contains a visible token, then `parse2` and similar calls
/// parse the stream as a `DeriveInput` according to the grammar.
///
/// A returned value is the derive input that the grammar assigns to the visible token trees. If the
/// call returns an error other than an allocation failure, then the grammar assigns no derive input
/// to these trees.
pub fn inputs_follow_grammar()
    ensures { (tokens : Forest) (scope : Span) (result : Result DeriveInput Fault)
        → filled tokens ≡ true → KeepsWhole ⟦<DeriveInput as Parse>⟧.takes tokens scope result
        → ParsesInput tokens result }
{}

/// If each invisible group of a stream contains a visible token, then `NestedMeta::parse_meta_list`
/// and similar calls parse the stream as literals and metas according to the grammar.
///
/// A returned value is the list of literals and metas that the grammar assigns to the visible token
/// trees. If the call returns an error other than an allocation failure, then the grammar assigns
/// no such list to these trees.
pub fn arguments_follow_grammar()
    ensures { (tokens : Forest) (scope : Span)
        (result : Result (Punctuated NestedMeta (Token Comma)) Fault)
        → filled tokens ≡ true → KeepsWhole meta_seq tokens scope result
        → ParsesMetaSeq tokens result }
{}

/// The grammar is unambiguous: it assigns at most one derive input, including its spans, to a
/// sequence of token trees.
pub fn inputs_once()
    ensures { (trees : Forest) (left right : InputForm) → IsDeriveInput trees left no_trees
        → IsDeriveInput trees right no_trees → left ≡ right }
{}

/// A value that follows the grammar can be written as tokens and read again. The value that is read
/// equals the original, including its spans, apart from an empty `<>` or `where` clause.
///
/// The token trees that came after the value must also come after the written tokens, where they
/// remain unread. After an attribute or a derive input, any other token trees may come instead. An
/// empty `<>` and an empty `where` clause of a derive input are not written.
///
/// The law has no clause for parameters or a `where` clause alone. Both may be empty, and no
/// contract says which token trees may come after an empty one.
pub fn printed_values_are_parsed()
    ensures types { ParsedAgain (IsRun IsType) erase (λ f. f) }
    ensures expressions { ParsedAgain (IsRun IsExpr) erase (λ f. f) }
    ensures paths { ParsedAgain IsPath path_form path_trees }
    ensures visibilities { ParsedAgain IsVisibility visibility_form visibility_trees }
    ensures metas { ParsedAgain IsAttr meta_form meta_trees }
    ensures meta_lists { ParsedAgain IsAttrList meta_list_form meta_list_trees }
    ensures name_values { ParsedAgain IsAttrValue name_value_form name_value_trees }
    ensures nested_metas { ParsedAgain IsNestedMeta meta_form meta_trees }
    ensures meta_items { ParsedAgain IsMetaItemInner nested_form nested_trees }
    ensures attributes { ParsedAnywhere IsAttribute attribute_form attribute_form attribute_trees }
    ensures named_fields { ParsedAgain IsStructField field_form field_trees }
    ensures unnamed_fields { ParsedAgain IsTupleField field_form field_trees }
    ensures fields { ParsedAgain AreVariantFields fields_form fields_trees }
    ensures variants { ParsedAgain IsEnumVariant variant_form variant_trees }
    ensures inputs { ParsedAnywhere IsDeriveInput input_form again_form input_trees }
{}

/// A derive input that follows the grammar can be written as tokens and parsed again, for example
/// with `parse2`. The result equals the original, apart from an empty `<>` or `where` clause. The
/// only possible error is an allocation failure.
///
/// Each invisible group of the written tokens must contain a visible token. To remove the other
/// invisible groups first, call `prune`.
pub fn printed_inputs_are_parsed()
    ensures { (f g trees : Forest) (input : DeriveInput) (scope : Span)
        (result : Result DeriveInput Fault) → IsDeriveInput f (input_form input) g
        → erase trees ≡ erase (input_trees input) → filled trees ≡ true
        → KeepsWhole ⟦<DeriveInput as Parse>⟧.takes trees scope result
        → MatchResult result (λ second. input_form second ≡ again_form input) IsMemory }
{}

/// A clone of a `MacroDelimiter` equals the original, including its spans.
pub fn clones_keep_delimiters()
    ensures { ClonesKeep ⟦<MacroDelimiter as Clone>⟧.is_clone }
{}
