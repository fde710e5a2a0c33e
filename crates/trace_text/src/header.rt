//! The header line: `X25 1 MOD m WIN w SIZE s PVC p SVC q`, or `X25 2 .. IN i TWO t OUT o` with ` JOIN` after it or not; with 3
//! in place of 2 gaps are rows.

ghost use Rattle.std.specs.Prelude.{◌≡◌, ◌==◌, None, Some, MatchResult, MatchOption};
ghost use Rattle.line_model.specs.text.Header.{HeaderNumbers, named, defaults_in, join_in, first_form, second_form, header_numbers, interface_of, interface_with};
ghost use Rattle.line_model.specs.text.Text.{header_kind};
ghost use Rattle.line_model.specs.basics.Limits.{is_channels, is_numbering, packet_sizes};
ghost use Rattle.std.specs.List.{list_any};

use crate::number::read_number;
use crate::words::Words;
use line_model::fault::Kind;
use line_model::interface::Interface;
use std::marker::Model;

/// The numbers and flags of a header.
#[derive(Drop)]
struct Numbers {
    modulus: u32,
    window: u32,
    size: u32,
    pvc: u32,
    incoming: u32,
    two_way: u32,
    svc: u32,
    join: bool,
    gaps: bool,
}

impl Model for Numbers {
    ghost use Rattle.line_model.specs.text.Header.{HeaderNumbers};

    ghost Value = { HeaderNumbers };

    ghost view = { λ n. record { modulus = n.modulus; window = n.window; size = n.size; pvc = n.pvc; incoming = n.incoming; two_way = n.two_way; svc = n.svc; join = n.join; gaps = n.gaps } };
}

/// The numbers that all forms of a header begin with.
#[derive(Drop)]
struct Defaults {
    modulus: u32,
    window: u32,
    size: u32,
    pvc: u32,
}

impl Model for Defaults {
    ghost use Rattle.line_model.specs.text.Header as header;

    ghost Value = { header.Defaults };

    ghost view = { λ d. record { modulus = d.modulus; window = d.window; size = d.size; pvc = d.pvc } };
}

/// Removes the next word, which must be this name, and returns the number after it.
fn next_number(words: &mut Words<'_>, name: &[u8]) -> Option<u32>
    ensures { MatchOption result (named name.now words.old ≡ None) (λ n. named name.now words.old
        ≡ Some (n, words.new)) }
{
    let word = words.next()?;
    let number = words.next()?;
    if word != name {
        return None;
    }
    read_number(number)
}

/// Removes and returns the numbers that all forms begin with.
fn next_defaults(words: &mut Words<'_>) -> Option<Defaults>
    ensures { MatchOption result (defaults_in words.old ≡ None) (λ d. defaults_in words.old
        ≡ Some (d, words.new)) }
{
    let modulus = next_number(words, b"MOD")?;
    let window = next_number(words, b"WIN")?;
    let size = next_number(words, b"SIZE")?;
    let pvc = next_number(words, b"PVC")?;
    Some(Defaults {
        modulus,
        window,
        size,
        pvc,
    })
}

/// Returns whether JOIN alone is left, or nothing; `None` where something else is.
fn read_join(words: &mut Words<'_>) -> Option<bool>
    ensures { result ≡ join_in words.old }
{
    match words.next() {
        None => Some(false),
        Some(word) => match words.next() {
            None if word == b"JOIN".as_slice() => Some(true),
            _ => None,
        },
    }
}

/// Reads the first form of a header, after its version.
fn read_first(words: &mut Words<'_>) -> Option<Numbers>
    ensures { result ≡ first_form words.old }
{
    let Defaults {
        modulus,
        window,
        size,
        pvc,
    } = next_defaults(words)?;
    let svc = next_number(words, b"SVC")?;
    match words.next() {
        None => Some(Numbers {
            modulus,
            window,
            size,
            pvc,
            incoming: pvc,
            two_way: svc,
            svc,
            join: false,
            gaps: false,
        }),
        Some(_) => None,
    }
}

/// Reads the second form of a header, or the third where gaps are rows, after the version.
fn read_second(words: &mut Words<'_>, gaps: bool) -> Option<Numbers>
    ensures { result ≡ second_form gaps words.old }
{
    let Defaults {
        modulus,
        window,
        size,
        pvc,
    } = next_defaults(words)?;
    let incoming = next_number(words, b"IN")?;
    let two_way = next_number(words, b"TWO")?;
    let svc = next_number(words, b"OUT")?;
    let join = read_join(words)?;
    Some(Numbers {
        modulus,
        window,
        size,
        pvc,
        incoming,
        two_way,
        svc,
        join,
        gaps,
    })
}

#[tactic(auto, unfolding(line_model::specs::text::Header::header_numbers))]
fn read_numbers(line: &[u8]) -> Option<Numbers>
    ensures { result ≡ header_numbers line.now }
{
    let mut words = Words::new(line);
    let magic = words.next()?;
    let version = words.next()?;
    if magic != b"X25".as_slice() {
        None
    } else if version == b"1".as_slice() {
        read_first(&mut words)
    } else if version == b"2".as_slice() {
        read_second(&mut words, false)
    } else if version == b"3".as_slice() {
        read_second(&mut words, true)
    } else {
        None
    }
}

fn is_numbered(modulus: u32, window: u32) -> bool
    ensures { result ≡ is_numbering modulus window }
{
    (modulus == 8 || modulus == 128) && 1 <= window && window < modulus
}

fn is_packet_size(size: u32) -> bool
    ensures { result ≡ list_any (λ n. size == n) packet_sizes }
{
    matches!(size, 16 | 32 | 64 | 128 | 256 | 512 | 1024 | 2048 | 4096)
}

fn has_channels(pvc: u32, incoming: u32, two_way: u32, svc: u32) -> bool
    ensures { result ≡ is_channels pvc incoming two_way svc }
{
    1 <= svc && svc <= 4095 && pvc <= incoming && incoming <= two_way && two_way <= svc
}

/// Returns the interface of these numbers, if they keep the rules.
fn interface_with_numbers(numbers: Numbers) -> Option<Interface>
    ensures { result ≡ interface_with numbers }
{
    let Numbers {
        modulus,
        window,
        size,
        pvc,
        incoming,
        two_way,
        svc,
        join,
        gaps,
    } = numbers;
    if !is_numbered(modulus, window)
        || !is_packet_size(size)
        || !has_channels(pvc, incoming, two_way, svc)
    {
        return None;
    }
    Some(Interface {
        modulus: modulus as u8,
        window: window as u8,
        size: size as u16,
        pvc: pvc as u16,
        incoming: incoming as u16,
        two_way: two_way as u16,
        svc: svc as u16,
        join,
        gaps,
    })
}

/// Returns the interface of a header line, or the rule that it breaks (profile).
#[tactic(auto, unfolding(line_model::specs::text::Text::header_kind, line_model::specs::text::Header::interface_of))]
pub fn read_header(line: &[u8]) -> Result<Interface, Kind>
    ensures { MatchResult result (λ interface. (header_kind line.now ≡ None)
        × (interface_of line.now ≡ Some interface)) (λ kind. header_kind line.now ≡ Some kind) }
{
    match read_numbers(line) {
        Some(numbers) => match interface_with_numbers(numbers) {
            Some(interface) => Ok(interface),
            None => Err(Kind::HeaderRange),
        },
        None => Err(Kind::HeaderForm),
    }
}
