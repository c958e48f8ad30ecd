//! Types for structs, enums and unions, as a derive macro receives them, with the names of `syn`.
//!
//! Attributes, paths, visibilities, fields and variants have types of their own. Types,
//! expressions, parameters and predicates are represented as tokens.
#![tactic(auto)]

mod arguments;
mod attribute;
mod data;
mod derive;
mod fields;
mod generics;
pub mod laws;
mod meta;
mod nested;
mod path;
mod print;
mod run;
mod ty;
mod visibility;

pub use attribute::Attribute;
pub use data::{Field, Fields, FieldsNamed, FieldsUnnamed, Variant};
pub use derive::{Data, DataEnum, DataStruct, DataUnion, DeriveInput};
pub use fields::FieldsIter;
pub use generics::{Generics, WhereClause};
pub use meta::{MacroDelimiter, Meta, MetaList, MetaNameValue};
pub use nested::NestedMeta;
pub use path::{Path, PathSegment};
pub use ty::{Expr, Type};
pub use visibility::{VisRestricted, Visibility};
