//! Data packets, and the sequences that they complete.

ghost use Rattle.std.specs.Prelude.{◌≡◌, ◌==◌, ◌&&◌, not};

use line_model::state::Side;
use std::alloc::{Allocator, Global};

/// How many octets of a sequence are kept: one more than a PAD message may have.
pub const KEPT: usize = 1025;

/// A data packet without its sequence numbers: the Q, M and D bits and the user data (X.25 clause 5.3.1).
#[derive(Clone, Copy)]
pub struct DataField<'a> {
    /// The Q bit.
    pub qualified: bool,
    /// The M bit.
    pub more: bool,
    /// The D bit.
    pub delivery: bool,
    /// The user data.
    pub octets: &'a [u8],
}

/// Returns whether more of the sequence follows: M 1, D 0 and the full size in force, category A (X.25 clause 4.3.4).
#[inline(always)]
pub(crate) fn is_category_a(size: u16, more: bool, delivery: bool, length: usize) -> bool
    ensures { result ≡ (more && not delivery && (length == size)) }
{
    more && !delivery && length == usize::from(size)
}

/// The octets of a sequence, its first 1,025.
#[derive(Drop)]
pub enum UserData<'a, A: Allocator = Global> {
    /// Those of the only packet.
    OfOne(&'a [u8]),
    /// Those of several packets, joined.
    OfSeveral(Vec<u8, A>),
}

impl<A: Allocator> UserData<'_, A> {
    ghost use Rattle.data_transfer.specs.UserOctets.{octets_in};

    /// Returns the octets.
    pub fn as_slice(&self) -> &[u8]
        ensures { result.now ≡ octets_in self.now }
    {
        match self {
            UserData::OfOne(octets) => octets,
            UserData::OfSeveral(octets) => octets,
        }
    }
}

/// A complete sequence of a side (X.25 clause 4.3.5).
#[derive(Drop)]
pub struct Sequence<'a, A: Allocator = Global> {
    /// The side that sent it.
    pub side: Side,
    /// The Q bit of all its packets.
    pub qualified: bool,
    /// Its user data, the first 1,025 octets, without those of packets that came by `put_unqualified`.
    pub octets: UserData<'a, A>,
}

/// What a data packet does to the sequence of its side.
#[derive(Drop)]
pub enum Put<'a, A: Allocator = Global> {
    /// More of the sequence follows.
    Going,
    /// The packet completes the sequence.
    Complete(Sequence<'a, A>),
    /// The packet has another Q bit than those begun (`INCONSISTENT_Q_BIT_SETTING`).
    Mixed,
}
