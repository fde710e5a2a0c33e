//! Words of a trace as they are quoted.

use std::alloc::{AllocError, Global};

/// How many bytes of a word are quoted.
const QUOTED: usize = 24;

/// Appends a byte, in hex where it is not printable ASCII.
fn push_byte(text: &mut String, byte: u8) -> Result<(), AllocError> {
    if byte == b' ' || byte.is_ascii_graphic() {
        text.push(char::from(byte))
    } else {
        write!(text, "\\x{byte:02x}")
    }
}

/// Appends a word and the quote after it.
fn push_word(text: &mut String, word: &[u8]) -> Result<(), AllocError> {
    for byte in word.iter().take(QUOTED) {
        push_byte(text, *byte)?;
    }
    text.push_str(if word.len() > QUOTED { "..\"" } else { "\"" })
}

/// Returns a word between quotes, or the beginning of a long one; each byte that is not printable ASCII is in hex.
pub fn quoted(alloc: Global, word: &[u8]) -> Result<String, AllocError> {
    let mut text = String::from_str(alloc, "\"")?;
    push_word(&mut text, word)?;
    Ok(text)
}
