//! A function that lists the structs, enums and unions of a file.
use crate::items::{Found, find_items};
use crate::position::{Place, Position};
use crate::show::{push_path, push_tokens};
use crate::source::{File, Listing, SOURCE, shown, start};
use std::alloc::{AllocError, Global};
use syn_derive::{
    Attribute, Data, DeriveInput, Field, Fields, Generics, MacroDelimiter, Meta, Variant,
    Visibility,
};
use syn_parse::{Fault, tokens_to_parse_buffer};
use syn_punctuated::Punctuated;
use tok_buffer::{Cursor, Error, TokenBuffer};
use tok_core::{Span, ToTokens, TokenStream};
use tok_types::token;

/// Returns the listing of the structs, enums and unions in `buffer`, which contains the tokens of
/// `file`.
pub fn list_items(
    alloc: Global,
    file: File<'_>,
    buffer: &TokenBuffer,
) -> Result<Listing, AllocError> {
    let mut found = Vec::new(alloc);
    let mut input = tokens_to_parse_buffer(alloc, buffer, end_of(buffer.begin()));
    let scanned = find_items(&mut found, &mut input);
    input.discard();
    match scanned {
        Ok(()) => list_found(alloc, file, found.as_slice()),
        Err(Fault::Refused(error)) => Ok(Listing {
            lines: String::new(alloc),
            errors: error_shown(alloc, file, Place::new(file.text), &error)?,
            is_found: false,
        }),
        Err(Fault::Memory(error)) => Err(error),
    }
}

// Returns the empty span behind the last token of a buffer, or else the start of the source.
fn end_of(cursor: Cursor<'_>) -> Span {
    match cursor.scope_end().prev_span().as_range() {
        Some((source, _, end)) => Span::source(source, end, end),
        None => Span::source(SOURCE, 0, 0),
    }
}

// Lists the items that were found, in order.
fn list_found(alloc: Global, file: File<'_>, found: &[Found]) -> Result<Listing, AllocError> {
    let mut pen = Pen {
        alloc,
        file: file.name,
        place: Place::new(file.text),
        lines: String::new(alloc),
    };
    let mut errors = String::new(alloc);
    let mut is_found = false;
    for it in found {
        let place = pen.place.moved_to(start(it.span));
        pen.place = place;
        match &it.item {
            Ok(item) => {
                pen.item(item)?;
                is_found = true;
            }
            Err(error) => {
                let error = error_shown(alloc, file, place, error)?;
                errors.push_str(error.as_str())?;
            }
        }
        // The next item may be in this one.
        pen.place = place;
    }
    Ok(Listing {
        lines: pen.into_lines(),
        errors,
        is_found,
    })
}

// Returns an error that is at this place or after it.
fn error_shown(
    alloc: Global,
    file: File<'_>,
    place: Place<'_>,
    error: &Error,
) -> Result<String, AllocError> {
    let position = place.moved_to(start(error.span())).position;
    shown(alloc, file, position, error.span(), error.as_str())
}

// What writes the lines, and how far in the text it is.
#[derive(Drop)]
struct Pen<'a> {
    alloc: Global,
    file: &'a str,
    place: Place<'a>,
    lines: String,
}

impl<'a> Pen<'a> {
    fn into_lines(self) -> String {
        let Pen {
            alloc: _,
            file: _,
            place: _,
            lines,
        } = self;
        lines
    }

    // Writes the lines of an item.
    fn item(&mut self, item: &DeriveInput) -> Result<(), AllocError> {
        let name = item.ident.as_str();
        match &item.data {
            Data::Struct(data) => {
                self.begin(data.struct_token.span, "struct", name)?;
                self.head(item, delimiters(&data.fields))?;
                self.fields(name, &data.fields)
            }
            Data::Enum(data) => {
                self.begin(data.enum_token.span, "enum", name)?;
                self.head(item, " {}")?;
                for variant in data.variants.iter() {
                    self.variant(name, variant)?;
                }
                Ok(())
            }
            Data::Union(data) => {
                self.begin(data.union_token.span, "union", name)?;
                self.head(item, " {}")?;
                self.list(name, &data.fields.named)
            }
        }
    }

    // Begins a line at the start of a span.
    fn begin(&mut self, span: Span, kind: &str, name: &str) -> Result<(), AllocError> {
        self.place = self.place.moved_to(start(span));
        let Position { line, column } = self.place.position;
        let file = self.file;
        write!(self.lines, "{file}:{line}:{column}: {kind} {name}")
    }

    // Writes the rest of an item's line.
    fn head(&mut self, item: &DeriveInput, delimiters: &str) -> Result<(), AllocError> {
        self.visibility(&item.vis)?;
        self.generics(&item.generics)?;
        self.lines.push_str(delimiters)?;
        if let Some(clause) = &item.generics.where_clause {
            self.lines.push_str(" where")?;
            self.part(" ", &clause.predicates)?;
        }
        self.end(item.attrs.as_slice())
    }

    // Writes the lines of a variant.
    fn variant(&mut self, owner: &str, variant: &Variant) -> Result<(), AllocError> {
        let name = format!(in self.alloc; "{owner}::{}", variant.ident)?;
        self.begin(variant.ident.span(), "variant", name.as_str())?;
        self.lines.push_str(delimiters(&variant.fields))?;
        if let Some((_, value)) = &variant.discriminant {
            self.part(" = ", &value.tokens)?;
        }
        self.end(variant.attrs.as_slice())?;
        self.fields(name.as_str(), &variant.fields)
    }

    // Writes the lines of the fields of a struct or a variant.
    fn fields(&mut self, owner: &str, fields: &Fields) -> Result<(), AllocError> {
        match fields {
            Fields::Named(fields) => self.list(owner, &fields.named),
            Fields::Unnamed(fields) => self.list(owner, &fields.unnamed),
            Fields::Unit => Ok(()),
        }
    }

    // Writes the lines of fields.
    fn list(
        &mut self,
        owner: &str,
        fields: &Punctuated<Field, token::Comma>,
    ) -> Result<(), AllocError> {
        for (number, field) in fields.iter().enumerate() {
            self.field(owner, number, field)?;
        }
        Ok(())
    }

    // Writes the line of a field.
    fn field(&mut self, owner: &str, number: usize, field: &Field) -> Result<(), AllocError> {
        let name = match &field.ident {
            Some(ident) => format!(in self.alloc; "{owner}.{ident}")?,
            None => format!(in self.alloc; "{owner}.{number}")?,
        };
        self.begin(field_span(field), "field", name.as_str())?;
        self.visibility(&field.vis)?;
        self.part(" : ", &field.ty.tokens)?;
        self.end(field.attrs.as_slice())
    }

    // Writes parameters, if there are any.
    fn generics(&mut self, generics: &Generics) -> Result<(), AllocError> {
        if generics.lt_token.is_some() {
            self.part(" <", &generics.params)?;
            self.lines.push('>')?;
        }
        Ok(())
    }

    // Writes a visibility, if there is one.
    fn visibility(&mut self, visibility: &Visibility) -> Result<(), AllocError> {
        match visibility {
            Visibility::Public(_) => self.lines.push_str(" pub"),
            Visibility::Restricted(restricted) => {
                self.lines.push_str(" pub(")?;
                if restricted.in_token.is_some() {
                    self.lines.push_str("in ")?;
                }
                push_path(&mut self.lines, &restricted.path)?;
                self.lines.push(')')
            }
            Visibility::Inherited => Ok(()),
        }
    }

    // Writes attributes, and ends the line.
    fn end(&mut self, attrs: &[Attribute]) -> Result<(), AllocError> {
        for attr in attrs {
            self.lines.push_str(" #[")?;
            self.meta(&attr.meta)?;
            self.lines.push(']')?;
        }
        self.lines.push('\n')
    }

    // Writes what an attribute holds.
    fn meta(&mut self, meta: &Meta) -> Result<(), AllocError> {
        push_path(&mut self.lines, meta.path())?;
        match meta {
            Meta::Path(_) => Ok(()),
            Meta::List(list) => {
                let (open, close) = match list.delimiter {
                    MacroDelimiter::Paren(_) => ("(", ')'),
                    MacroDelimiter::Brace(_) => ("{", '}'),
                    MacroDelimiter::Bracket(_) => ("[", ']'),
                };
                self.part(open, &list.tokens)?;
                self.lines.push(close)
            }
            Meta::NameValue(pair) => {
                let tokens = pair.value.to_token_stream(self.alloc)?;
                self.part(" = ", &tokens)
            }
        }
    }

    // Writes tokens after a text.
    fn part(&mut self, before: &str, tokens: &TokenStream) -> Result<(), AllocError> {
        self.lines.push_str(before)?;
        push_tokens(&mut self.lines, tokens)
    }
}

// Returns the delimiters of fields, after a space.
fn delimiters(fields: &Fields) -> &'static str {
    match fields {
        Fields::Named(_) => " {}",
        Fields::Unnamed(_) => " ()",
        Fields::Unit => "",
    }
}

// Returns the span of a field's name, or else of its type.
fn field_span(field: &Field) -> Span {
    match &field.ident {
        Some(ident) => ident.span(),
        None => match field.ty.tokens.trees().first() {
            Some(tree) => tree.span(),
            None => Span::call_site(),
        },
    }
}
