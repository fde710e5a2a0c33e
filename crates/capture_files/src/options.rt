//! The options of blocks.

ghost use Rattle.std.specs.Prelude.{◌≡◌, ◌+◌, ◌-◌, ◌<◌, ◌≤◌, IfNone, IfSome, drop, false, length, take, true};
ghost use Rattle.capture_files.specs.Options.{count_of, direction_by, drop_count, drops_if, first_option, flags_if, flags_in, has_option, last_value, option_size, options_in};

use crate::numbers::{read_four, read_two};
use capture_model::frame::Direction;

/// Where an option of a block is.
#[derive(Clone, Copy)]
struct Place {
    /// Its code.
    code: u16,
    /// Where its value begins, and where it ends; the block may be cut before that.
    from: usize,
    to: usize,
    /// Where the next option begins.
    next: usize,
}

/// Returns the option at a place in a block; `None` where the options end.
fn option_at(is_big: bool, block: &[u8], at: usize) -> Option<Place>
    ensures within { IfSome result (λ o. (o.from ≤ o.to) × (o.to ≤ length block.now)) }
    ensures later { IfSome result (λ o. (at < o.next) × (at < length block.now)) }
    ensures none { IfNone result (has_option is_big (drop at block.now) ≡ false) }
    ensures some { IfSome result (λ o. has_option is_big (drop at block.now) ≡ true) }
    ensures code { IfSome result (λ o. o.code ≡ (first_option is_big (drop at block.now)).code) }
    ensures value { IfSome result (λ o. take (o.to - o.from) (drop o.from block.now) ≡ (first_option is_big (drop at block.now)).value) }
    ensures next { IfSome result (λ o. o.next ≡ at + option_size is_big (drop at block.now)) }
{
    if block.len() < 4 || block.len() - 4 < at {
        return None;
    }
    let code = read_two(is_big, block, at);
    if code == 0 {
        return None;
    }
    let size = usize::from(read_two(is_big, block, at + 2));
    let from = at + 4;
    Some(Place {
        code,
        from,
        to: (from + size).min(block.len()),
        next: from + (size + 3) / 4 * 4,
    })
}

/// Returns the value of the last option of a code that has one, among those from a place on; empty where none has.
pub(crate) fn last_option(is_big: bool, block: &[u8], from: usize, code: u16) -> &[u8]
    ensures { result.now ≡ last_value code (options_in is_big (drop from block.now)) }
{
    let mut found: &[u8] = &[];
    let mut at = from;
    while let Some(place) = option_at(is_big, block, at) {
        if place.code == code && place.from < place.to {
            found = &block[place.from..place.to];
        }
        at = place.next;
    }
    found
}

/// Returns the number in a value of eight octets, else 0.
pub(crate) fn count_of(is_big: bool, value: &[u8]) -> u64
    ensures { result ≡ count_of is_big value.now }
{
    if value.len() != 8 {
        return 0;
    }
    let first = u64::from(read_four(is_big, value, 0));
    let second = u64::from(read_four(is_big, value, 4));
    if is_big {
        first * 0x1_0000_0000 + second
    } else {
        second * 0x1_0000_0000 + first
    }
}

/// What the options of a block say of its frame.
#[derive(Clone, Copy)]
pub(crate) struct FrameOptions {
    /// Its direction, by the first flags.
    pub direction: Direction,
    /// How many frames were dropped before it.
    pub dropped: u64,
}

/// Returns the flags in an option of a frame.
fn flags_of(is_big: bool, code: u16, value: &[u8]) -> Option<u32>
    ensures { result ≡ flags_if is_big (record { code = code; value = value.now }) }
{
    if code == 2 && value.len() == 4 {
        return Some(read_four(is_big, value, 0));
    }
    None
}

/// Returns how many frames an option of a frame says were dropped before it.
fn drops_of(is_big: bool, code: u16, value: &[u8]) -> u64
    ensures { result ≡ drops_if is_big (record { code = code; value = value.now }) }
{
    if code == 4 {
        return count_of(is_big, value);
    }
    0
}

/// Returns what the options from a place on say of a frame.
pub(crate) fn frame_options(is_big: bool, block: &[u8], from: usize) -> FrameOptions
    ensures direction { result.direction ≡ direction_by (flags_in is_big (options_in is_big (drop from block.now))) }
    ensures dropped { result.dropped ≡ drop_count is_big (options_in is_big (drop from block.now)) }
{
    let mut flags = None;
    let mut dropped: u64 = 0;
    let mut at = from;
    while let Some(place) = option_at(is_big, block, at) {
        let value = &block[place.from..place.to];
        flags = flags.or(flags_of(is_big, place.code, value));
        dropped = dropped.saturating_add(drops_of(is_big, place.code, value));
        at = place.next;
    }
    FrameOptions {
        direction: direction_of(flags),
        dropped,
    }
}

/// Returns the direction by the flags of a frame.
fn direction_of(flags: Option<u32>) -> Direction
    ensures { result ≡ direction_by flags }
{
    match flags.map(|flags| flags % 4) {
        Some(1) => Direction::Received,
        Some(2) => Direction::Sent,
        _ => Direction::Unknown,
    }
}
