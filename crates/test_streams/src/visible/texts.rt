//! Compares what a call returns, as text, with a row.

/// Returns `true` if there is a text, and it is the wanted one.
pub fn is_text(text: Option<String>, wanted: &str) -> bool {
    match text {
        Some(text) => text.as_str() == wanted,
        None => false,
    }
}

/// Returns the text of both, if it is the same.
pub fn both(left: Option<String>, right: Option<String>) -> Option<String> {
    let left = left?;
    if left == right? { Some(left) } else { None }
}
