//! Parts of texts.

/// The first word of a text, and what stands behind the space after it.
pub(crate) fn cut(text: &str) -> (&str, &str) {
    match text.find(' ') {
        Some(place) => (
            text.get(..place).unwrap_or(""),
            text.get(place.wrapping_add(1)..).unwrap_or(""),
        ),
        None => (text, ""),
    }
}
