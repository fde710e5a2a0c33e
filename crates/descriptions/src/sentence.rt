//! Words of a string of an object.

use crate::json::hex_digit;
use crate::prose::Prose;
use arrayvec::ArrayVec;
use itoa::Buffer;

/// A sentence, up to 1,024 bytes. Words that find no room in it are dropped.
#[derive(Drop)]
pub struct Sentence {
    words: ArrayVec<u8, 1024>,
}

impl Sentence {
    /// Returns an empty sentence.
    pub fn new() -> Self {
        Sentence {
            words: ArrayVec::new(),
        }
    }

    /// Returns its bytes.
    pub fn as_bytes(&self) -> &[u8] {
        self.words.as_slice()
    }

    /// Appends bytes.
    pub fn append(&mut self, bytes: &[u8]) {
        match self.words.try_extend_from_slice(bytes) {
            Ok(()) => {}
            Err(_) => {}
        }
    }
}

impl Prose for Sentence {
    fn say(&mut self, words: &str) {
        self.append(words.as_bytes());
    }

    fn number(&mut self, number: u64) {
        let mut buffer = Buffer::new();
        self.append(buffer.format(number).as_bytes());
    }

    fn octets(&mut self, octets: &[u8]) {
        for octet in octets {
            self.append(&[hex_digit(*octet / 16), hex_digit(*octet % 16)]);
        }
    }
}
