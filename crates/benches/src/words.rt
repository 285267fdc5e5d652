//! Words of the command line.

use std::alloc::{AllocError, Global};

/// Words as texts.
pub(crate) fn texts_of(alloc: Global, words: &[String]) -> Result<Vec<&str>, AllocError> {
    let mut texts = Vec::new(alloc);
    for word in words {
        texts.push(word.as_str())?;
    }
    Ok(texts)
}

/// The number that a word is.
pub(crate) fn number(word: &str) -> Option<u32> {
    word.parse().ok()
}
