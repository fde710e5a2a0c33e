//! Members of an object, one after the other.
#![tactic(auto, using(crate::proofs::MemberLemmas::further_then, crate::proofs::MemberLemmas::member_put, crate::proofs::MemberLemmas::first_put, crate::proofs::MemberLemmas::object_then, crate::proofs::MemberLemmas::object_more, crate::proofs::MemberLemmas::object_end, crate::proofs::MemberLemmas::text_then, crate::proofs::MemberLemmas::text_put, crate::proofs::ValueLemmas::these_then))]

ghost use Rattle.std.specs.Prelude.{◌≡◌, ℕ, ◌<◌, List, [], ◌++◌, IsTrue, decimal, flat_map, not, true};
ghost use Rattle.std.specs.Bool.{OnTrue};
ghost use Rattle.descriptions.specs.CallTable.{cell_text, character, point_part, quoted};
ghost use Rattle.descriptions.specs.Members.{IsFurther, IsText, IsValue, is_plain, promised};
ghost use Rattle.descriptions.specs.Writing.{Adds, IsBeginning, IsFirst, IsOpenArray, IsOpenObject, These, comma_after, is_beginning, is_first};
ghost use Rattle.descriptions.specs.declared.call_columns.TableForm.TheVariants.{Objects};

use crate::call_columns::Named;
use crate::row_head::flag_word;
use crate::times::{after_first, point_before, trimmed};
use crate::value::Value;
use itoa::Buffer;
use std::alloc::{AllocError, Allocator};

/// The hex digits of a half of an octet.
const DIGITS: &[u8; 16] = b"0123456789ABCDEF";

/// Where JSON is written to. Its calls never fail.
pub trait Out {
    /// This text was written.
    ghost has: { Self → List ℕ → Type 0 };

    /// Writes bytes.
    fn put(&mut self, bytes: &[u8])
        ensures { (text : List ℕ) → has self.old text → has self.new (text ++ bytes.now) };
}

/// An element of an array.
pub trait Element {
    /// Writes it as a value.
    fn write<O: Out>(&self, json: &mut Json<O>)
        ensures { Adds O.has IsValue json.old.out json.new.out };
}

/// Bytes that grow as long as there is memory for them. Where it is refused nothing is written from then on.
#[derive(Drop)]
pub struct Growing<A: Allocator> {
    bytes: Vec<u8, A>,
    answer: Result<(), AllocError>,
}

impl<A: Allocator> Growing<A> {
    ghost use Rattle.std.specs.Prelude.{IfOk};

    /// Starts with no bytes. Allocates no memory.
    pub fn new(alloc: A) -> Self {
        Growing {
            bytes: Vec::new(alloc),
            answer: Ok(()),
        }
    }

    /// Empties it.
    pub fn clear(&mut self)
        ensures { ⟦<Growing<A> as Out>⟧.has self.new [] }
    {
        self.bytes.clear();
        self.answer = Ok(());
    }

    /// Returns the bytes. Fails where memory was refused for some of what was written.
    pub fn written(&self) -> Result<&[u8], AllocError>
        ensures { (text : List ℕ) → ⟦<Growing<A> as Out>⟧.has self.now text
            → IfOk result (λ bytes. bytes.now ≡ text) }
    {
        match self.answer {
            Ok(()) => Ok(self.bytes.as_slice()),
            Err(error) => Err(error),
        }
    }
}

impl<A: Allocator> Out for Growing<A> {
    ghost use Rattle.std.specs.Prelude.{OnOk};

    ghost has = { λ g text. OnOk g.answer (g.bytes.items ≡ text) };

    fn put(&mut self, bytes: &[u8]) {
        if self.answer.is_ok() {
            self.answer = self.bytes.extend_from_slice(bytes);
        }
    }
}

/// The members of an object of JSON.
#[derive(Drop)]
pub struct Json<O> {
    /// What they are written to.
    pub out: O,
}

impl<O: Out> Json<O> {
    /// Writes bytes as they are.
    pub fn raw(&mut self, bytes: &[u8])
        ensures { Adds O.has (These bytes.now) self.old.out self.new.out }
    {
        self.out.put(bytes);
    }

    /// Writes the beginning of a member, as `,"epoch":`.
    pub fn begin(&mut self, beginning: &str)
        requires { IsTrue (is_beginning promised beginning.now) }
        ensures { Adds O.has (IsBeginning promised) self.old.out self.new.out }
    {
        self.raw(beginning.as_bytes());
    }

    /// Begins an object by the beginning of its first member, as `{"value":`.
    pub fn first(&mut self, beginning: &str)
        requires { IsTrue (is_first beginning.now) }
        ensures { Adds O.has IsFirst self.old.out self.new.out }
    {
        self.raw(beginning.as_bytes());
    }

    /// Writes what comes before the next element of an array.
    pub fn separate(&mut self, empty: bool)
        ensures { Adds O.has (These (comma_after empty)) self.old.out self.new.out }
    {
        self.raw(if empty { b"" } else { b"," });
    }

    /// Writes a value.
    pub fn value(&mut self, value: Value<'_>)
        ensures written { Adds O.has (These (cell_text Objects value.entry)) self.old.out self.new.out }
        ensures value { Adds O.has IsValue self.old.out self.new.out }
    {
        match value {
            Value::Null => self.raw(b"null"),
            Value::Number(number) => self.number(number),
            Value::Seconds(time) => self.seconds(time.seconds, time.billionths),
            Value::Word(word) => self.quoted(word),
            Value::Text(text) => self.quoted(text),
        }
    }

    /// Writes the digits of a number.
    pub fn number(&mut self, number: u64)
        ensures { Adds O.has (These (decimal number)) self.old.out self.new.out }
    {
        let mut buffer = Buffer::new();
        self.raw(buffer.format(number).as_bytes());
    }

    /// Writes a number of seconds, with digits after the point where it is not whole.
    pub fn seconds(&mut self, seconds: u64, billionths: u32)
        ensures written { Adds O.has (These (decimal seconds ++ point_part billionths)) self.old.out self.new.out }
        ensures value { Adds O.has IsValue self.old.out self.new.out }
    {
        let mut buffer = Buffer::new();
        let digits = buffer
            .format(1_000_000_000 + u64::from(billionths))
            .as_bytes();
        let part = trimmed(after_first(digits));
        self.number(seconds);
        self.raw(point_before(part.is_empty()));
        self.raw(part);
    }

    /// Writes bytes as a string.
    fn quoted(&mut self, bytes: &[u8])
        ensures { Adds O.has (These (quoted Objects bytes.now)) self.old.out self.new.out }
    {
        self.raw(b"\"");
        self.words(bytes);
        self.raw(b"\"");
    }

    /// Writes octets in hex, as a string.
    pub fn hex(&mut self, octets: &[u8])
        ensures { Adds O.has IsValue self.old.out self.new.out }
    {
        self.raw(b"\"");
        for octet in octets {
            self.raw(&[hex_digit(*octet / 16), hex_digit(*octet % 16)]);
        }
        self.raw(b"\"");
    }

    /// Writes an object of a code and its name, null where there is none.
    pub fn named(&mut self, named: Option<Named<'_>>)
        ensures { Adds O.has IsValue self.old.out self.new.out }
    {
        let Some(named) = named else {
            return self.value(Value::Null);
        };
        self.first("{\"value\":");
        self.value(Value::Number(u64::from(named.value)));
        self.member(",\"name\":", Value::Text(named.name));
        self.raw(b"}");
    }

    /// Writes a member.
    pub fn member(&mut self, beginning: &str, value: Value<'_>)
        requires { IsTrue (is_beginning promised beginning.now) }
        ensures { Adds O.has IsFurther self.old.out self.new.out }
    {
        self.begin(beginning);
        self.value(value);
    }

    /// Writes a member, unless it is null.
    pub fn known_member(&mut self, beginning: &str, value: Value<'_>)
        requires { IsTrue (is_beginning promised beginning.now) }
        ensures { Adds O.has IsFurther self.old.out self.new.out }
    {
        match value {
            Value::Null => {}
            value => self.member(beginning, value),
        }
    }

    /// Writes a member that is true or false.
    pub fn flag_member(&mut self, beginning: &str, is_set: bool)
        requires { IsTrue (is_beginning promised beginning.now) }
        ensures { Adds O.has IsFurther self.old.out self.new.out }
    {
        self.begin(beginning);
        self.raw(flag_word(is_set));
    }

    /// Writes an array.
    pub fn array<E: Element>(&mut self, elements: &[E])
        ensures { Adds O.has IsValue self.old.out self.new.out }
    {
        self.raw(b"[");
        let mut is_first = true;
        for element in elements {
            self.separate(is_first);
            is_first = false;
            element.write(self);
        }
        self.raw(b"]");
    }

    /// Writes bytes in a string, with escapes where they need them.
    fn words(&mut self, bytes: &[u8])
        ensures { Adds O.has (These (flat_map (character Objects) bytes.now)) self.old.out self.new.out }
    {
        if is_plain(bytes) {
            self.raw(bytes);
            return;
        }
        for byte in bytes {
            self.byte(*byte);
        }
    }

    /// Writes a byte in a string. A control character becomes a space.
    fn byte(&mut self, byte: u8)
        ensures { Adds O.has (These (character Objects byte)) self.old.out self.new.out }
    {
        if !needs_escape(byte) {
            self.raw(&[byte]);
        } else if byte == b'"' || byte == b'\\' {
            self.raw(&[b'\\', byte]);
        } else {
            self.raw(b" ");
        }
    }
}

/// Returns the hex digit of a half of an octet.
pub fn hex_digit(half: u8) -> u8
    requires { half < 16 }
    ensures { is_plain result ≡ true }
{
    DIGITS[usize::from(half)]
}

/// Whether no byte of a string needs an escape.
fn is_plain(bytes: &[u8]) -> bool
    ensures { OnTrue result (flat_map (character Objects) bytes.now ≡ bytes.now) }
{
    for byte in bytes {
        if needs_escape(*byte) {
            return false;
        }
    }
    true
}

/// Whether a byte of a string needs an escape.
fn needs_escape(byte: u8) -> bool
    ensures { result ≡ not (is_plain byte) }
{
    byte < b' ' || byte == b'"' || byte == b'\\'
}
