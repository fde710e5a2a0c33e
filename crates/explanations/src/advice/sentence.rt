//! A sentence that says what is wrong, as the parts of a line are asked for it.

use crate::advice::quoted::quoted;
use std::alloc::{AllocError, Global};

/// Returns a sentence. Fails where memory was refused for it.
pub fn some_sentence(sentence: Result<String, AllocError>) -> Result<Option<String>, AllocError> {
    Ok(Some(sentence?))
}

/// Returns a sentence that is always the same.
pub fn fixed_sentence(alloc: Global, sentence: &str) -> Result<Option<String>, AllocError> {
    some_sentence(String::from_str(alloc, sentence))
}

/// Returns a sentence that quotes a word of the trace.
pub fn quoting_sentence(
    alloc: Global,
    before: &str,
    word: &[u8],
    after: &str,
) -> Result<Option<String>, AllocError> {
    let word = quoted(alloc, word)?;
    some_sentence(format!(in alloc; "{before}{word}{after}"))
}
