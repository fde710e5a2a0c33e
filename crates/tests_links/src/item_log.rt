//! The items of a recording, kept one after the other.

ghost use Rattle.std.specs.Prelude.{◌≡◌, IfOk};
ghost use Rattle.tests_links.specs.ItemLogs.{kept_view};
ghost use Rattle.xot_circuits.specs.Items.{item_view};

use line_model::state::Side;
use std::alloc::{AllocError, Global};
use xot_circuits::circuit::What;
use xot_circuits::item::{CircuitGap, EndedCircuit, Item, Items, Origin};

/// An item, with a copy of its octets.
#[derive(Drop)]
pub enum Kept {
    /// A packet.
    Packet(Origin, Side, What, Vec<u8>),
    /// A gap.
    Gap(CircuitGap),
    /// A packet that is left out.
    LeftOut(Origin, Side, What, Vec<u8>),
    /// The end of a connection.
    Ended(EndedCircuit),
}

/// The items so far.
#[derive(Drop)]
pub struct ItemLog {
    /// Each of them.
    pub items: Vec<Kept>,
    alloc: Global,
}

/// Returns a copy of octets.
fn copied(alloc: Global, octets: &[u8]) -> Result<Vec<u8>, AllocError>
    ensures { IfOk result (λ copy. copy.items ≡ octets.now) }
{
    let mut copy = Vec::new(alloc);
    copy.extend_from_slice(octets)?;
    Ok(copy)
}

/// Returns a copy of an item.
fn copied_item(alloc: Global, item: &Item<'_>) -> Result<Kept, AllocError>
    ensures { IfOk result (λ kept. kept_view kept ≡ item_view item.now) }
{
    Ok(match item {
        Item::Packet(it) => Kept::Packet(it.origin, it.side, it.what, copied(alloc, it.octets)?),
        Item::Gap(gap) => Kept::Gap(*gap),
        Item::LeftOut(it) => Kept::LeftOut(it.origin, it.side, it.what, copied(alloc, it.octets)?),
        Item::Ended(ended) => Kept::Ended(*ended),
    })
}

impl ItemLog {
    /// Returns a log of no items.
    pub fn new(alloc: Global) -> ItemLog {
        ItemLog {
            items: Vec::new(alloc),
            alloc,
        }
    }
}

impl Items for ItemLog {
    ghost use Rattle.std.specs.Prelude.{map};

    ghost taken = { λ log. map kept_view log.items.items };

    fn take(&mut self, item: &Item<'_>) -> Result<(), AllocError> {
        self.items.push(copied_item(self.alloc, item)?)?;
        Ok(())
    }
}
