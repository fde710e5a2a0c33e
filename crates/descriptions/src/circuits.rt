//! Circuits of XOT, which comments of a trace name.

ghost use Rattle.std.specs.Prelude.{◌≡◌, ◌++◌, ◌∷◌, [], IfSome, None, OnOk, Some, option_map};
ghost use Rattle.std.specs.List.{list_all};
ghost use Rattle.line_model.specs.text.Text.{Line};
ghost use Rattle.descriptions.specs.Circuits.{AddsHosts, KeepsHosts, channel_in, circuit_after, circuit_in, circuit_of, end_of, host_in, host_where, is_address, is_of_address, kept_host, number_within};

use crate::times::whole_number;
use line_model::state::Side;
use std::alloc::{AllocError, Allocator};
use std::collections::BTreeMap;
use std::marker::Model;
use trace_text::words::Words;

/// The most octets of an address, of IPv6 with the digits of IPv4 at its end.
const LONGEST_ADDRESS: usize = 45;

/// An end of a circuit.
#[derive(Drop)]
pub struct Host<'a> {
    address: &'a [u8],
    port: u64,
}

impl<'a> Model for Host<'a> {
    ghost use Rattle.descriptions.specs.Circuits as circuits;

    ghost Value = { circuits.Host };

    ghost view = { λ h. record { address = h.address.now; port = h.port } };
}

impl<'a> Host<'a> {
    /// Returns the address, as it is written.
    pub fn address(&self) -> &'a [u8]
        ensures { result.now ≡ self.now.address }
    {
        self.address
    }

    /// Returns the TCP port.
    pub fn port(&self) -> u64
        ensures { result ≡ self.now.port }
    {
        self.port
    }
}

/// A circuit, as a comment names it.
#[derive(Drop)]
pub struct NamedCircuit<'a> {
    number: u64,
    channel: Option<u64>,
    dte: Host<'a>,
    dce: Host<'a>,
}

impl<'a> Model for NamedCircuit<'a> {
    ghost use Rattle.descriptions.specs.Circuits as circuits;

    ghost Value = { circuits.Circuit };

    ghost view = { λ c. record { number = c.number; channel = c.channel; dte = c.dte; dce = c.dce } };
}

impl<'a> NamedCircuit<'a> {
    /// Returns the number of its connection, from 1.
    pub fn number(&self) -> u64
        ensures { result ≡ self.now.number }
    {
        self.number
    }

    /// Returns its logical channel in the trace, if it has one.
    pub fn channel(&self) -> Option<u64>
        ensures { result ≡ self.now.channel }
    {
        self.channel
    }

    /// Returns the end of a side.
    pub fn end(&self, side: Side) -> &Host<'a>
        ensures { result.now ≡ end_of side self.now }
    {
        match side {
            Side::T => &self.dte,
            Side::N => &self.dce,
        }
    }
}

/// Reads a number that is not below `low` and not above `high`.
fn number_within(low: u64, high: u64, word: &[u8]) -> Option<u64>
    ensures { result ≡ number_within low high word.now }
{
    match whole_number(word) {
        Some(number) if low <= number && number <= high => Some(number),
        _ => None,
    }
}

/// Reads a logical channel, or `-` for none.
fn channel_of_word(word: &[u8]) -> Option<Option<u64>>
    ensures { result ≡ channel_in word.now }
{
    if word == b"-".as_slice() {
        return Some(None);
    }
    match number_within(1, 4095, word) {
        Some(channel) => Some(Some(channel)),
        None => None,
    }
}

/// Whether a byte may stand in an address of IPv4 or IPv6.
fn is_of_address(byte: u8) -> bool
    ensures { result ≡ is_of_address byte }
{
    byte.is_ascii_hexdigit() || byte == b'.' || byte == b':'
}

/// Whether all bytes of a word may stand in an address.
fn all_of_address(word: &[u8]) -> bool
    ensures { result ≡ list_all is_of_address word.now }
{
    word.iter().all(|byte| is_of_address(*byte))
}

/// Whether a word may be an address.
fn is_address(word: &[u8]) -> bool
    ensures { result ≡ is_address word.now }
{
    !word.is_empty() && word.len() <= LONGEST_ADDRESS && all_of_address(word)
}

/// Reads an end of a circuit.
fn host_of_words<'a>(address: &'a [u8], port: &[u8]) -> Option<Host<'a>>
    ensures { result ≡ host_in address.now port.now }
{
    if !is_address(address) {
        return None;
    }
    match number_within(0, 65535, port) {
        Some(port) => Some(Host { address, port }),
        None => None,
    }
}

/// Reads the six words of a circuit, which are the last ones.
fn circuit_of_words<'a>(words: &mut Words<'a>) -> Option<NamedCircuit<'a>>
    ensures { result ≡ circuit_in words.old }
{
    let number = words.next()?;
    let channel = words.next()?;
    let dte = words.next()?;
    let dte_port = words.next()?;
    let dce = words.next()?;
    let dce_port = words.next()?;
    if words.next().is_some() {
        return None;
    }
    let number = number_within(1, 999_999_999_999, number)?;
    let channel = channel_of_word(channel)?;
    let dte = host_of_words(dte, dte_port)?;
    let dce = host_of_words(dce, dce_port)?;
    Some(NamedCircuit {
        number,
        channel,
        dte,
        dce,
    })
}

/// Reads the words of a comment.
fn circuit_of_comment_words<'a>(words: &mut Words<'a>) -> Option<NamedCircuit<'a>>
    ensures { result ≡ circuit_after words.old }
{
    let mark = words.next()?;
    let name = words.next()?;
    if mark == b"#@".as_slice() && name == b"circuit".as_slice() {
        circuit_of_words(words)
    } else {
        None
    }
}

/// Returns the circuit that a line names, which is without its LF.
fn circuit_of<'a>(line: &'a [u8]) -> Option<NamedCircuit<'a>>
    ensures { result ≡ circuit_of line.now }
{
    match line {
        [b'#', ..] => circuit_of_comment_words(&mut Words::new(line)),
        _ => None,
    }
}

/// Returns a line without the LF that ends it.
pub fn without_lf(line: &[u8]) -> &[u8]
    ensures { (l : Line) → line.now ≡ l ++ 10 ∷ [] → result.now ≡ l }
{
    match line {
        [words @ .., b'\n'] => words,
        _ => line,
    }
}

/// Returns the circuit that a line names, if it is a comment that names one.
pub fn circuit_of_comment(line: &[u8]) -> Option<NamedCircuit<'_>>
    ensures { (l : Line) → line.now ≡ l ++ 10 ∷ [] → result ≡ circuit_of l }
{
    circuit_of(without_lf(line))
}

/// The addresses of a circuit.
#[derive(Drop)]
struct Hosts<A: Allocator> {
    /// That of the DTE.
    dte: Vec<u8, A>,
    /// That of the DCE.
    dce: Vec<u8, A>,
}

/// The addresses of the circuits that comments named, by their numbers. Of two with one number the first counts.
#[derive(Drop)]
pub struct Circuits<A: Allocator> {
    alloc: A,
    hosts: BTreeMap<u64, Hosts<A>, A>,
}

impl<A: Allocator + Copy> Circuits<A> {
    /// Returns no circuits. Allocates no memory.
    pub fn new(alloc: A) -> Self
        ensures { KeepsHosts [] result }
    {
        Circuits {
            alloc,
            hosts: BTreeMap::new(alloc),
        }
    }

    /// Adds a circuit, unless there is one of its number. Fails only when memory is refused.
    pub fn add(&mut self, circuit: &NamedCircuit<'_>) -> Result<(), AllocError>
        ensures { OnOk result (AddsHosts (Some circuit.now) self.old self.new) }
    {
        if self.hosts.contains_key(&circuit.number) {
            return Ok(());
        }
        let mut dte = Vec::new(self.alloc);
        dte.extend_from_slice(circuit.dte.address)?;
        let mut dce = Vec::new(self.alloc);
        dce.extend_from_slice(circuit.dce.address)?;
        self.hosts.insert(circuit.number, Hosts { dte, dce })?;
        Ok(())
    }

    /// Returns the address of a side of a circuit; none where no circuit is given, or where none of its number was
    /// added.
    pub fn host_of(&self, circuit: Option<u64>, side: Side) -> Option<&[u8]>
        ensures { option_map (λ h. h.now) result ≡ host_where (kept_host self.now) circuit side }
    {
        let hosts = self.hosts.get(&circuit?)?;
        match side {
            Side::T => Some(hosts.dte.as_slice()),
            Side::N => Some(hosts.dce.as_slice()),
        }
    }
}
