//! What a member or a column says.

ghost use Rattle.std.specs.Prelude.{◌≡◌};
ghost use Rattle.descriptions.specs.CallTable.{address_text, cell_text, maybe_number, maybe_seconds, maybe_word};
ghost use Rattle.descriptions.specs.declared.call_columns.TableForm.{TableForm as AnyForm};

use crate::times::Time;

/// What a member says of a row or a call, or a column of a call.
#[derive(Clone, Copy)]
pub enum Value<'a> {
    /// Nothing is known.
    Null,
    /// A number.
    Number(u64),
    /// A time in seconds.
    Seconds(Time),
    /// A word of letters or digits, or the address of a host.
    Word(&'a [u8]),
    /// Any text.
    Text(&'a [u8]),
}

impl<'a> Value<'a> {
    /// Returns a number, null where there is none.
    pub fn number(number: Option<u64>) -> Self
        ensures { (form : AnyForm) → cell_text form result ≡ maybe_number form number }
    {
        match number {
            Some(number) => Value::Number(number),
            None => Value::Null,
        }
    }

    /// Returns the number of a packet, null where there is none.
    pub fn packet(packet: Option<u32>) -> Self
        ensures { (form : AnyForm) → cell_text form result ≡ maybe_number form packet }
    {
        match packet {
            Some(packet) => Value::Number(u64::from(packet)),
            None => Value::Null,
        }
    }

    /// Returns a time, null where there is none.
    pub fn seconds(time: Option<Time>) -> Self
        ensures { (form : AnyForm) → cell_text form result ≡ maybe_seconds form time }
    {
        match time {
            Some(time) => Value::Seconds(time),
            None => Value::Null,
        }
    }

    /// Returns a word, null where there is none.
    pub fn word(word: Option<&'a [u8]>) -> Self
        ensures { (form : AnyForm) → cell_text form result ≡ maybe_word form word.entry }
    {
        match word {
            Some(word) => Value::Word(word),
            None => Value::Null,
        }
    }

    /// Returns the digits of an address, null where it has none.
    pub fn address(digits: &'a [u8]) -> Self
        ensures { (form : AnyForm) → cell_text form result ≡ address_text form digits.now }
    {
        match digits {
            [] => Value::Null,
            digits => Value::Word(digits),
        }
    }
}
