//! The octets of one direction of a connection, and the packets in them.

ghost use Rattle.std.specs.Prelude.{◌≡◌, ◌++◌, ◌≤◌, ◌⊎◌, ℕ, List, [], IfOk, OnErr, OnOk, false, length, max, true, vec_len};
ghost use Rattle.xot_circuits.specs.Joining.{joining};
ghost use Rattle.xot_circuits.specs.Streams.{IsNext};

use crate::header::{Header, read_header};
use crate::joining::{Beginning, Expected};
use std::alloc::{AllocError, Global};
use std::marker::Model;

/// What the octets of a stream begin with.
#[derive(Clone, Copy)]
pub enum Found<'a> {
    /// A whole packet, in the piece that was given.
    Lent(&'a [u8]),
    /// A whole packet, which came in several pieces: `Stream::packet` returns it.
    Kept,
    /// Less than a whole packet: the piece was consumed.
    Partial,
    /// The header of another version than 0: the octets are passed over, and a packet is sought from the next segment on.
    OtherVersion {
        /// The version.
        version: u16,
        /// How many octets are passed over.
        passed: usize,
    },
}

/// What the octets of a stream begin with, and those of a piece that come after it.
#[derive(Clone, Copy)]
pub struct Next<'a> {
    /// What it is.
    pub found: Found<'a>,
    /// The octets after it.
    pub rest: &'a [u8],
}

/// One direction of a connection: the octets that came of its next packet.
///
/// ```text
///  given out          rest      the piece
///  ...|####|####|  |###      |##|####|###
///                   `- Kept ---' `Lent'`- Partial
/// ```
#[derive(Drop)]
pub struct Stream {
    rest: Vec<u8>,
    packet: Vec<u8>,
    is_sought: bool,
}

impl Model for Stream {
    ghost use Rattle.xot_circuits.specs.Streams.{IsKept, StreamView};

    ghost Value = { StreamView };

    ghost view = { λ s. record { rest = s.rest.items; packet = s.packet.items; is_sought = s.is_sought } };

    ghost invariant = { λ s. IsKept s.is_sought s.rest.items };
}

/// Moves octets to the end of others, until these have a length or none are left. Returns those that are left.
fn fill<'a>(rest: &mut Vec<u8>, octets: &'a [u8], length: usize) -> Result<&'a [u8], AllocError>
    ensures moved { IfOk result (λ left. rest.new.items ++ left.now ≡ rest.old.items ++ octets.entry.now) }
    ensures front { OnOk result ((more : List ℕ) × (rest.new.items ≡ rest.old.items ++ more)) }
    ensures filled { IfOk result (λ left. (length ≤ vec_len rest.new) ⊎ (left.now ≡ [])) }
    ensures most { OnOk result (vec_len rest.new ≤ max length (vec_len rest.old)) }
    ensures err { OnErr result (rest.new.items ≡ rest.old.items) }
{
    let missing = length.saturating_sub(rest.len());
    let (taken, left) = octets.split_at(missing.min(octets.len()));
    rest.extend_from_slice(taken)?;
    Ok(left)
}

impl Stream {
    /// Returns a stream before its first octet. `is_sought`: the recording began inside of the connection.
    pub fn new(alloc: Global, is_sought: bool) -> Stream
        ensures rest { result.rest ≡ [] }
        ensures sought { result.is_sought ≡ is_sought }
    {
        Stream {
            rest: Vec::new(alloc),
            packet: Vec::new(alloc),
            is_sought,
        }
    }

    /// Returns whether a packet is sought: octets go to `join` first.
    pub fn is_sought(&self) -> bool
        ensures { result ≡ self.now.is_sought }
    {
        self.is_sought
    }

    /// Returns the last packet that came in several pieces.
    pub fn packet(&self) -> &[u8]
        ensures { result.now ≡ self.now.packet }
    {
        &self.packet
    }

    /// Reads what the octets so far and a piece begin with: a packet, where it is whole. Fails only when memory is refused;
    /// drop the stream then.
    pub fn next<'a>(&mut self, octets: &'a [u8]) -> Result<Next<'a>, AllocError>
        requires { self.old.is_sought ≡ false }
        ensures { IfOk result (λ next. IsNext (self.old.rest ++ octets.entry.now) next.found next.rest.now self.new) }
    {
        if self.rest.is_empty() {
            self.next_lent(octets)
        } else {
            self.next_kept(octets)
        }
    }

    /// Reads what a piece begins with, where no octets came before it.
    fn next_lent<'a>(&mut self, octets: &'a [u8]) -> Result<Next<'a>, AllocError>
        requires sought { self.old.is_sought ≡ false }
        requires none { self.old.rest ≡ [] }
        ensures { IfOk result (λ next. IsNext octets.entry.now next.found next.rest.now self.new) }
    {
        match read_header(octets) {
            Header::OtherVersion(version) => {
                self.is_sought = true;
                return Ok(other_version(version, octets.len()));
            }
            Header::Length(length) => {
                let size = 4 + usize::from(length);
                if size <= octets.len() {
                    let (packet, rest) = octets.split_at(size);
                    return Ok(Next {
                        found: Found::Lent(&packet[4..]),
                        rest,
                    });
                }
            }
            Header::Cut => {}
        }
        self.rest.extend_from_slice(octets)?;
        Ok(partial())
    }

    /// Reads what the octets so far and a piece begin with.
    fn next_kept<'a>(&mut self, octets: &'a [u8]) -> Result<Next<'a>, AllocError>
        requires { self.old.is_sought ≡ false }
        ensures { IfOk result (λ next. IsNext (self.old.rest ++ octets.entry.now) next.found next.rest.now self.new) }
    {
        let left = fill(&mut self.rest, octets, 4)?;
        match read_header(&self.rest) {
            Header::Cut => Ok(partial()),
            Header::OtherVersion(version) => {
                let passed = self.rest.len() + left.len();
                self.rest.clear();
                self.is_sought = true;
                Ok(other_version(version, passed))
            }
            Header::Length(length) => {
                let size = 4 + usize::from(length);
                let rest = fill(&mut self.rest, left, size)?;
                if self.rest.len() < size {
                    return Ok(partial());
                }
                self.packet.clear();
                let (_, packet) = self.rest.split_at(4);
                self.packet.extend_from_slice(packet)?;
                self.rest.clear();
                Ok(Next {
                    found: Found::Kept,
                    rest,
                })
            }
        }
    }

    /// Reads a segment while a packet is sought: the packet begins with the octets that were too few to decide, or with
    /// the segment, or with neither. Returns how many octets were passed over. `next` reads the segment where nothing is
    /// sought after it. Fails only when memory is refused; drop the stream then.
    pub fn join(&mut self, segment: &[u8], expected: &Expected) -> Result<usize, AllocError>
        requires { self.old.is_sought ≡ true }
        ensures rest { OnOk result (self.new.rest ≡ (joining expected.now self.old.rest segment.now).rest) }
        ensures sought { OnOk result (self.new.is_sought ≡ (joining expected.now self.old.rest segment.now).is_sought) }
        ensures passed { IfOk result (λ passed. passed ≡ (joining expected.now self.old.rest segment.now).passed) }
    {
        let before = self.rest.len();
        self.rest.extend_from_slice(segment)?;
        match expected.beginning(&self.rest) {
            Beginning::Begins => {
                self.rest.truncate(before);
                self.is_sought = false;
                return Ok(0);
            }
            Beginning::TooFew => return Ok(0),
            Beginning::Other => self.rest.clear(),
        }
        match expected.beginning(segment) {
            Beginning::Begins => {
                self.is_sought = false;
                Ok(before)
            }
            Beginning::TooFew => {
                self.rest.extend_from_slice(segment)?;
                Ok(before)
            }
            Beginning::Other => Ok(before + segment.len()),
        }
    }

    /// Reads a gap: what came of the next packet is passed over, and a packet is sought. Returns how many octets that were.
    pub fn lose(&mut self) -> usize
        ensures passed { result ≡ length self.old.rest }
        ensures rest { self.new.rest ≡ [] }
        ensures sought { self.new.is_sought ≡ true }
    {
        let passed = self.rest.len();
        self.rest.clear();
        self.is_sought = true;
        passed
    }
}

/// Less than a whole packet, and nothing after it.
fn partial<'a>() -> Next<'a>
    ensures found { result.found ≡ Found.Partial }
    ensures rest { result.rest.now ≡ [] }
{
    Next {
        found: Found::Partial,
        rest: &[],
    }
}

/// A header of another version, and nothing after it.
fn other_version<'a>(version: u16, passed: usize) -> Next<'a>
    ensures found { result.found ≡ Found.OtherVersion version passed }
    ensures rest { result.rest.now ≡ [] }
{
    Next {
        found: Found::OtherVersion { version, passed },
        rest: &[],
    }
}
