//! The blocks of a pcapng file.

ghost use Rattle.std.specs.Prelude.{◌≡◌, ◌<◌, IfSome, length};
ghost use Rattle.capture_files.specs.Blocks.{IsBlockStart, is_numbered, order_at};

use crate::numbers::read_four;

/// The type of a block that begins a section.
pub(crate) const SECTION: u32 = 0x0A0D_0D0A;
/// The type of a block that describes an interface.
pub(crate) const INTERFACE: u32 = 1;
/// The type of an obsolete block with a frame.
pub(crate) const PACKET: u32 = 2;
/// The type of a block with a frame and nothing more.
pub(crate) const SIMPLE: u32 = 3;
/// The type of a block with the statistics of an interface.
pub(crate) const STATISTICS: u32 = 5;
/// The type of an enhanced block with a frame.
pub(crate) const ENHANCED: u32 = 6;
/// The other types that a search knows: names and secrets.
const NAMES: u32 = 4;

const SECRETS: u32 = 10;

/// How many octets of a block come before its body, with the byte order of a section.
pub(crate) const HEAD: usize = 12;
/// How many octets a block has at most (profile).
const LARGEST: u32 = 1 << 24;

/// What begins at the front of a file.
#[derive(Clone, Copy)]
pub(crate) enum BlockStart {
    /// Nothing: the file ends.
    End,
    /// The head of a block, cut by the end of the file.
    HeadCut(u32),
    /// A block that cannot have this length.
    Unusable(u32),
    /// A block of this size, which may be cut by the end of the file.
    Block(u32),
}

/// Returns the byte order from a block on, of which these are the first octets: that of the section that it begins, else
/// the one before.
pub(crate) fn order_at(octets: &[u8], before: bool) -> bool
    ensures { result ≡ order_at before octets.now }
{
    if octets.len() < HEAD || read_four(true, octets, 0) != SECTION {
        return before;
    }
    match read_four(true, octets, 8) {
        0x1A2B_3C4D => true,
        0x4D3C_2B1A => false,
        _ => before,
    }
}

/// Returns what begins at the front of a file, of which these are the first octets: twelve at least, or all. The byte
/// order is the one from there on.
pub(crate) fn block_start(is_big: bool, octets: &[u8]) -> BlockStart
    ensures { IsBlockStart is_big octets.now result }
{
    let there = octets.len();
    if there == 0 {
        return BlockStart::End;
    }
    if there < HEAD {
        return BlockStart::HeadCut(there as u32);
    }
    let length = read_four(is_big, octets, 4);
    if 12 <= length && length % 4 == 0 && length <= LARGEST {
        return BlockStart::Block(length);
    }
    BlockStart::Unusable(length)
}

/// Returns whether Wireshark numbers blocks of this type as if they were frames: journal entries and custom blocks.
pub(crate) fn is_numbered(kind: u32) -> bool
    ensures { result ≡ is_numbered kind }
{
    matches!(kind, 9 | 0xBAD | 0x4000_0BAD)
}

/// Returns whether a search for the next block knows this type.
fn is_known(kind: u32) -> bool {
    matches!(
        kind,
        SECTION | INTERFACE | PACKET | SIMPLE | NAMES | STATISTICS | ENHANCED | SECRETS
    ) || is_numbered(kind)
}

/// Returns whether a whole block of a known type is at a place, with two equal lengths.
fn is_block(before: bool, octets: &[u8], at: usize) -> bool {
    let rest = &octets[at.min(octets.len())..];
    if rest.len() < HEAD {
        return false;
    }
    let is_big = order_at(rest, before);
    let BlockStart::Block(length) = block_start(is_big, rest) else {
        return false;
    };
    let size = length as usize;
    is_known(read_four(is_big, rest, 0))
        && size <= rest.len()
        && read_four(is_big, rest, size - 4) == length
}

/// Returns the first place from `from` on, in whole words, where a block is; the byte order is the one before it.
pub(crate) fn next_block(before: bool, octets: &[u8], from: usize) -> Option<usize>
    ensures within { IfSome result (λ at. at < length octets.now) }
{
    let mut at = from;
    while at < octets.len() {
        if is_block(before, octets, at) {
            return Some(at);
        }
        at += 4;
    }
    None
}
