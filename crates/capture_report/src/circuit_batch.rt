//! What a frame completes in the connections of XOT.

ghost use Rattle.std.specs.Prelude.{◌≡◌, ◌<◌, ◌≤◌, ◌+◌, ◌++◌, [], ◌∷◌, List, ℕ, drop, length};
ghost use Rattle.xot_circuits.specs.Items.{item_view, sent_view};
ghost use Rattle.capture_report.specs.CircuitBatches.{IsPacketWithin, IsWithin, item_octets, kept_view, packet_view};

use line_model::state::Side;
use std::alloc::{AllocError, Global};
use std::marker::Model;
use xot_circuits::circuit::What;
use xot_circuits::item::{CircuitGap, EndedCircuit, Item, Items, Origin, Sent};

/// A packet, whose octets are those of the batch from one place to another.
#[derive(Clone, Copy)]
struct KeptPacket {
    origin: Origin,
    side: Side,
    what: What,
    from: usize,
    to: usize,
}

/// An item, whose octets are in the batch.
#[derive(Clone, Copy)]
enum Kept {
    /// A packet of the circuit.
    Packet(KeptPacket),
    /// A gap of the circuit.
    Gap(CircuitGap),
    /// A packet that is left out.
    LeftOut(KeptPacket),
    /// The end of a connection.
    Ended(EndedCircuit),
}

/// Returns the octets of an item.
fn octets_of<'a>(item: &Item<'a>) -> &'a [u8]
    ensures { result.now ≡ item_octets (item_view item.now) }
{
    match item {
        Item::Packet(sent) => sent.octets,
        Item::LeftOut(sent) => sent.octets,
        Item::Gap(_) | Item::Ended(_) => &[],
    }
}

impl KeptPacket {
    /// Returns a packet whose octets are those from one place to another.
    fn new(sent: &Sent<'_>, from: usize, to: usize) -> KeptPacket
        ensures { result ≡ record { origin = sent.now.origin; side = sent.now.side; what = sent.now.what; from = from; to = to } }
    {
        KeptPacket {
            origin: sent.origin,
            side: sent.side,
            what: sent.what,
            from,
            to,
        }
    }

    /// Returns the packet. Its octets are among these.
    fn sent<'a>(&self, octets: &'a [u8]) -> Sent<'a>
        requires { IsPacketWithin (length octets.now) self.now }
        ensures { sent_view result ≡ packet_view octets.now self.now }
    {
        Sent {
            origin: self.origin,
            side: self.side,
            what: self.what,
            octets: &octets[self.from..self.to],
        }
    }
}

impl Kept {
    /// Returns an item whose octets are those from one place to another.
    fn new(item: &Item<'_>, from: usize, to: usize) -> Kept
        ensures item { (octets : List ℕ) → from ≡ length octets → to ≡ from + length (item_octets (item_view item.now))
            → kept_view (octets ++ item_octets (item_view item.now)) result ≡ item_view item.now }
        ensures within { from ≤ to → IsWithin to result }
    {
        match item {
            Item::Packet(sent) => Kept::Packet(KeptPacket::new(sent, from, to)),
            Item::Gap(gap) => Kept::Gap(*gap),
            Item::LeftOut(sent) => Kept::LeftOut(KeptPacket::new(sent, from, to)),
            Item::Ended(ended) => Kept::Ended(*ended),
        }
    }

    /// Returns the item. Its octets are among these.
    fn item<'a>(&self, octets: &'a [u8]) -> Item<'a>
        requires { IsWithin (length octets.now) self.now }
        ensures { item_view result ≡ kept_view octets.now self.now }
    {
        match self {
            Kept::Packet(kept) => Item::Packet(kept.sent(octets)),
            Kept::Gap(gap) => Item::Gap(*gap),
            Kept::LeftOut(kept) => Item::LeftOut(kept.sent(octets)),
            Kept::Ended(ended) => Item::Ended(*ended),
        }
    }
}

/// Items, one after the other. It has a copy of their octets.
#[derive(Drop)]
pub(crate) struct Batch {
    octets: Vec<u8>,
    kept: Vec<Kept>,
}

impl Model for Batch {
    ghost use Rattle.std.specs.Prelude.{List, length};
    ghost use Rattle.xot_circuits.specs.Items as items;
    ghost use Rattle.capture_report.specs.CircuitBatches.{AreWithin, items_kept};

    ghost Value = { List items.Item };

    ghost view = { λ b. items_kept b.octets.items b.kept.items };

    ghost invariant = { λ b. AreWithin (length b.octets.items) b.kept.items };
}

impl Batch {
    /// Returns none.
    pub(crate) fn new(alloc: Global) -> Batch
        ensures { result ≡ [] }
    {
        Batch {
            octets: Vec::new(alloc),
            kept: Vec::new(alloc),
        }
    }

    /// Removes all.
    pub(crate) fn clear(&mut self)
        ensures { self.new ≡ [] }
    {
        self.kept.clear();
        self.octets.clear();
    }

    /// Returns how many there are.
    pub(crate) fn len(&self) -> usize
        ensures { result ≡ length self.now }
    {
        self.kept.len()
    }

    /// Returns the one with this index.
    pub(crate) fn item(&self, index: usize) -> Item<'_>
        requires { index < length self.now }
        ensures { drop index self.now ≡ item_view result ∷ drop (index + 1) self.now }
    {
        self.kept[index].item(&self.octets)
    }
}

impl Items for Batch {
    ghost taken = { λ b. b };

    fn take(&mut self, item: &Item<'_>) -> Result<(), AllocError> {
        let from = self.octets.len();
        self.octets.extend_from_slice(octets_of(item))?;
        self.kept.push(Kept::new(item, from, self.octets.len()))?;
        Ok(())
    }
}
