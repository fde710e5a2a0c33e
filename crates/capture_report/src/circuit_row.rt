//! The rows of circuits of XOT.

ghost use Rattle.std.specs.Prelude.{◌≡◌, ◌<◌, ◌^◌, nat_lt, true, Some, IfOk, OnOk, option_map};
ghost use Rattle.xot_circuits.specs.Items.{item_view, sent_view};
ghost use Rattle.capture_report.specs.CircuitRows.{circuit_content_view, circuit_row_of, circuit_row_view, is_typed_content, is_typed_place, is_typed_row, on_channel, place_of, row_of_gap, row_of_packet, sent_or_missing, with_channel};
ghost use Rattle.capture_report.specs.Contents.{row_view};

use crate::row::{Content, Row};
use capture_rows::given::LONGEST;
use lapb_link::frames::Place;
use line_model::state::Side;
use std::alloc::AllocError;
use tcp_streams::piece::Recorded;
use xot_circuits::circuit::write_channel;
use xot_circuits::item::{CircuitGap, Item, Sent};

/// How items are rows.
#[derive(Clone, Copy)]
pub(crate) struct CircuitRule {
    /// Whether what circuits had before the recording began is a gap. It is none where options say how the recording
    /// begins.
    pub has_beginnings: bool,
}

/// What a row of a circuit says.
#[derive(Clone, Copy)]
pub(crate) enum CircuitContent<'a> {
    /// A packet of a side.
    Packet(Side, &'a [u8]),
    /// Packets may be missing.
    Gap,
}

/// A row of a circuit, without its logical channel.
#[derive(Clone, Copy)]
pub(crate) struct CircuitRow<'a> {
    /// The number of its connection.
    pub connection: u64,
    /// The place of its frame.
    pub place: Place,
    /// What it says.
    pub content: CircuitContent<'a>,
}

/// Returns the place of a frame.
fn place_of(recorded: Recorded) -> Place
    ensures place { result ≡ place_of recorded }
    ensures typed { is_typed_place (place_of recorded) ≡ true }
{
    Place {
        frame: recorded.frame,
        time: recorded.time,
    }
}

/// Returns what the row of a packet says: a gap where no row has room for its octets.
fn content_of(side: Side, octets: &[u8]) -> CircuitContent<'_>
    ensures content { circuit_content_view result ≡ sent_or_missing side octets.now }
    ensures typed { is_typed_content (sent_or_missing side octets.now) ≡ true }
{
    if octets.len() <= LONGEST {
        CircuitContent::Packet(side, octets)
    } else {
        CircuitContent::Gap
    }
}

/// Returns the number of a connection.
fn number_of(connection: u64) -> u64
    ensures same { result ≡ connection }
    ensures typed { nat_lt connection (2 ^ 64) ≡ true }
{
    connection
}

/// Returns the row of a gap.
fn row_of_gap<'a>(gap: &CircuitGap) -> CircuitRow<'a>
    ensures row { circuit_row_view result ≡ row_of_gap gap.now }
    ensures typed { is_typed_row (Some (row_of_gap gap.now)) ≡ true }
{
    CircuitRow {
        connection: number_of(gap.connection),
        place: place_of(gap.recorded),
        content: CircuitContent::Gap,
    }
}

/// Returns the row of a packet.
fn row_of_packet<'a>(sent: &Sent<'a>) -> CircuitRow<'a>
    ensures row { circuit_row_view result ≡ row_of_packet (sent_view sent.now) }
    ensures typed { is_typed_row (Some (row_of_packet (sent_view sent.now))) ≡ true }
{
    CircuitRow {
        connection: sent.origin.connection,
        place: place_of(sent.origin.recorded),
        content: content_of(sent.side, sent.octets),
    }
}

impl CircuitRule {
    /// Returns the row of an item; `None` where it has none.
    pub(crate) fn row_of<'a>(&self, item: &Item<'a>) -> Option<CircuitRow<'a>>
        ensures row { option_map circuit_row_view result ≡ circuit_row_of self.now (item_view item.now) }
        ensures typed { is_typed_row (circuit_row_of self.now (item_view item.now)) ≡ true }
    {
        match item {
            Item::Packet(sent) => Some(row_of_packet(sent)),
            Item::Gap(gap) if self.has_beginnings || !gap.is_beginning => Some(row_of_gap(gap)),
            Item::Gap(_) | Item::LeftOut(_) | Item::Ended(_) => None,
        }
    }
}

/// Sets octets to those of a packet, with another logical channel. Fails only when memory is refused.
fn set_packet(packet: &[u8], channel: u16, octets: &mut Vec<u8>) -> Result<(), AllocError>
    requires { channel < 4096 }
    ensures { OnOk result (octets.new.items ≡ with_channel channel packet.now) }
{
    octets.clear();
    octets.extend_from_slice(packet)?;
    write_channel(octets.as_mut_slice(), channel);
    Ok(())
}

impl CircuitRow<'_> {
    /// Returns the row on a logical channel. `octets` becomes its packet. Fails only when memory is refused.
    pub(crate) fn on_channel<'b>(
        &self,
        channel: u16,
        octets: &'b mut Vec<u8>,
    ) -> Result<Row<'b>, AllocError>
        requires { channel < 4096 }
        ensures { IfOk result (λ row. row_view row ≡ on_channel channel (circuit_row_view self.now)) }
    {
        let content = match self.content {
            CircuitContent::Packet(side, packet) => {
                set_packet(packet, channel, octets)?;
                Content::Packet(side, octets.as_slice())
            }
            CircuitContent::Gap => Content::Gap(Some(channel)),
        };
        Ok(Row {
            place: self.place,
            circuit: Some(self.connection),
            content,
        })
    }
}
