//! Rows by logical channel.

ghost use Rattle.std.specs.Prelude.{◌≡◌};
ghost use Rattle.line_model.specs.channels.GapRestart.{is_of_all};
ghost use Rattle.line_model.specs.channels.RestartMachine.{is_confirm};
ghost use Rattle.line_model.specs.packets.Says.{gap_of};
ghost use Rattle.line_model.specs.pieces.Plans.{end_at};
ghost use Rattle.restart_epochs.specs.BlockCuts.{gap_joined};
ghost use Rattle.restart_epochs.specs.OpenRows.{begins_with_row, gap_after};

use line_model::gap::EpochStart;
use line_model::items::ItemRef;
use line_model::items::shared::SharedItems;
use line_model::packet::{Class, Packet};
use line_model::piece::PieceEnd;
use std::alloc::{Allocator, Global};
use std::marker::Model;

/// Rows of a logical channel, in order.
#[derive(Drop)]
pub struct Part<A: Allocator = Global> {
    pub(crate) channel: u16,
    pub(crate) items: SharedItems<A>,
    /// The number of the last row, or 0.
    pub(crate) last: u32,
}

impl<A: Allocator> Model for Part<A> {
    ghost use Rattle.std.specs.Prelude.{◌≡◌};
    ghost use Rattle.restart_epochs.specs.BlockCuts.{ChannelRows};
    ghost use Rattle.restart_epochs.specs.OpenRows.{last_number};

    ghost Value = { ChannelRows };

    ghost view = { λ p. record { channel = p.channel; items = p.items } };

    ghost invariant = { λ p. p.last ≡ last_number p.items };
}

impl<A: Allocator> Part<A> {
    /// Returns whether it begins with a row other than a gap of all channels.
    pub(crate) fn begins_with_row(&self) -> bool
        ensures { result ≡ begins_with_row self.now.items }
    {
        match self.items.iter().next() {
            Some(item) => !is_gap_of_all(&item.packet),
            None => false,
        }
    }
}

/// The rows of an epoch that ended in a block, from the beginning of the block or of the epoch.
#[derive(Drop)]
pub struct EndedRows<A: Allocator = Global> {
    pub(crate) parts: Vec<Part<A>, A>,
    /// The number of the last gap of all channels, or 0.
    pub(crate) gap: u32,
    /// How many epochs of the block began before.
    pub(crate) epoch: u32,
    /// How it began, if it began in the block.
    pub(crate) start: EpochStart,
    pub(crate) end: PieceEnd,
}

impl<A: Allocator> Model for EndedRows<A> {
    ghost use Rattle.restart_epochs.specs.BlockCuts.{EpochRows};

    ghost Value = { EpochRows };

    ghost view = { λ e. record { parts = e.parts.items; gap = e.gap; epoch = e.epoch; start = e.start; end = e.end } };
}

/// Whether a gap is of all channels.
fn is_gap_of_all(packet: &Packet) -> bool
    ensures { result ≡ is_of_all (gap_of packet.now) }
{
    matches!(packet, Packet::GapOfAll)
}

/// Returns the last gap of all channels, by its number or 0, where it came after a row of this number.
pub fn gap_after(gap: u32, number: u32) -> Option<u32>
    ensures { result ≡ gap_after gap number }
{
    if number < gap { Some(gap) } else { None }
}

/// Returns the last gap of all channels, by its number or 0, in some rows and in later ones.
pub fn gap_joined(gap: u32, later: u32) -> u32
    ensures { result ≡ gap_joined gap later }
{
    if later == 0 { gap } else { later }
}

/// Whether a packet confirms a restart.
fn is_confirm(class: Class) -> bool
    ensures { result ≡ is_confirm class }
{
    matches!(class, Class::RestartConfirm)
}

/// Returns the end of the epoch that a row ends.
pub fn end_at(item: &ItemRef<'_>) -> PieceEnd
    ensures { result ≡ end_at item.now }
{
    PieceEnd {
        row: item.number,
        missed: is_confirm(item.packet.class()),
    }
}
