//! A function that writes the puncts of a punctuation token.
ghost use Rattle.std.specs.Prelude.{◌≡◌, true, OnOk, OnErr};
ghost use Rattle.std.specs.List.{list_all};
ghost use Rattle.tok_core.specs.Forest.{AppendsFront, concat};
ghost use Rattle.tok_leaves.specs.Leaves.{punct, punct_of};
ghost use Rattle.tok_lexical.specs.Characters.{is_punct_or_apostrophe};
ghost use Rattle.tok_types.specs.Printed.{puncts, spacing};

use std::alloc::AllocError;
use tok_core::{Punct, Spacing, Span, TokenStream, TokenTree, known};

/// Appends a punct for each character of `text` to `tokens`.
///
/// The span of each punct is the element of `spans` with the same index. Each punct except the last
/// is joint.
///
/// If `spans` does not have as many elements as `text` has bytes, or if a character cannot be a
/// punct, the call appends nothing. Returns an error if an allocation fails. The puncts that were
/// already appended then remain in `tokens`.
pub fn punct(text: &str, spans: &[Span], tokens: &mut TokenStream) -> Result<(), AllocError>
    ensures ok { OnOk result (tokens.new ≡ concat tokens.old (puncts text.now spans.now)) }
    ensures err { OnErr result (AppendsFront tokens.old (puncts text.now spans.now) tokens.new) }
{
    if text.len() != spans.len() || !are_puncts(text) {
        return Ok(());
    }
    let bytes = text.as_bytes();
    for (index, span) in spans.iter().enumerate() {
        let is_last = index + 1 == spans.len();
        tokens.append(TokenTree::Punct(one_of(bytes[index], is_last, *span)))?;
    }
    Ok(())
}

// Creates one punct of several.
fn one_of(byte: u8, is_last: bool, span: Span) -> Punct
    requires { is_punct_or_apostrophe byte ≡ true }
    ensures { punct_of result ≡ punct byte (spacing is_last) span }
{
    let spacing = if is_last {
        Spacing::Alone
    } else {
        Spacing::Joint
    };
    known::punct(char::from(byte), spacing, span)
}

// Returns `true` if each character can be a punct.
fn are_puncts(text: &str) -> bool
    ensures { result ≡ list_all is_punct_or_apostrophe text.now }
{
    text.bytes().all(|byte| Punct::new(char::from(byte), Spacing::Alone).is_some())
}
