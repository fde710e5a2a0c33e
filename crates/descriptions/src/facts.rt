//! What a row is and did, as the observer judged it.

ghost use Rattle.std.specs.Prelude.{◌≡◌, [], IfSome, MatchOption, None, true};
ghost use Rattle.channel_run.specs.StatusWord.{view_in};
ghost use Rattle.line_model.specs.observer.Calls.{all_lengths};
ghost use Rattle.line_model.specs.channels.GapRestart.{is_of_all};
ghost use Rattle.line_model.specs.packets.Says.{gap_of};
ghost use Rattle.live_report.specs.Uncounted.{counts_data};
ghost use Rattle.descriptions.specs.Facts.{IsFateOf, reason_in};

use crate::open_calls::CallMove;
use crate::origins::Earlier;
use call_accounts::so_far::segments_in;
use channel_run::run::View;
use channel_run::status_word::{bit, view_in};
use data_transfer::packed::FlowWord;
use line_model::event::{Event, What};
use line_model::interface::Interface;
use line_model::packet::{Class, Packet, PacketKind};
use live_report::judged_row::{Judge, JudgedRow};
use live_report::uncounted::Reason;
use packet_decode::decode::{class_of, header_length};
use packet_decode::fields::{CallFields, call_fields};

/// Returns whether a packet represents a gap of all logical channels.
pub fn is_gap_of_all(packet: &Packet) -> bool
    ensures { result ≡ is_of_all (gap_of packet.now) }
{
    match gap_of(packet) {
        None => false,
        Some(channel) => match channel {
            None => true,
            Some(_) => false,
        },
    }
}

/// What became of the data of a row.
#[derive(Clone, Copy)]
pub enum Fate {
    /// It has no data.
    NoData,
    /// This many octets were counted, in this many segments of 64 octets.
    Counted { octets: u32, segments: u64 },
    /// They were not counted.
    NotCounted(Reason),
}

/// What a row is and did.
#[derive(Clone, Copy)]
pub struct RowFacts<'a> {
    /// The interface.
    pub interface: &'a Interface,
    /// How many octets it has.
    pub length: usize,
    /// The octets that are kept of it: of data with Q 0 the header, otherwise all.
    pub octets: &'a [u8],
    /// The row as the observer judged it.
    pub last: &'a JudgedRow,
    /// Its epoch, and the finding that its own may follow from.
    pub earlier: Earlier,
    /// The events of the logical channel that it went to.
    pub events: &'a [Event],
    /// The calls of that channel.
    pub calls: CallMove,
    /// What became of its data.
    pub fate: Fate,
    /// The octets of the PAD message that it completes, the first 1,025.
    pub message: Option<&'a [u8]>,
    /// Whether it ended an epoch and began the next one at once.
    pub renews: bool,
    /// Whether the channel that it went to had a gap in its call.
    pub had_gap: bool,
}

/// The bit of a channel's word that is set where it is adrift.
const ADRIFT: u32 = 18;

/// Whether a channel is adrift, by its word.
#[inline(always)]
pub fn is_adrift(word: &FlowWord) -> bool
    ensures { result ≡ (view_in word.now).adrift }
{
    bit(word.owner_bits(), ADRIFT)
}

/// Returns the gap that a packet represents: of a logical channel, or of all, where it names none.
pub fn gap_of(packet: &Packet) -> Option<Option<u16>>
    ensures { result ≡ gap_of packet.now }
{
    match packet {
        Packet::Channel {
            channel,
            kind: PacketKind::Gap,
        } => Some(Some(*channel)),
        Packet::GapOfAll => Some(None),
        _ => None,
    }
}

impl<'a> RowFacts<'a> {
    /// Returns what was known before it of the logical channel that it went to.
    pub fn view_before(&self) -> Option<View> {
        match &self.last.judge {
            Judge::Channel { before, .. } => Some(view_in(before)),
            Judge::Restart { .. } => None,
        }
    }

    /// Returns what a call packet says, or the code of its first fault; none where it is not a call packet.
    pub fn call_fields(&self) -> Option<Result<CallFields<'a>, u8>> {
        match class_of(self.interface, self.octets) {
            Class::Call => Some(call_fields(self.interface, self.octets, false)),
            Class::Accepted => {
                let was_fast = match self.view_before() {
                    Some(view) => view.fast,
                    None => false,
                };
                Some(call_fields(self.interface, self.octets, was_fast))
            }
            _ => None,
        }
    }
}

/// Returns the user data of a data packet.
pub fn user_data<'a>(interface: &Interface, octets: &'a [u8]) -> &'a [u8] {
    match octets.split_at_checked(header_length(interface)) {
        Some((_, data)) => data,
        None => &[],
    }
}

/// Returns how many octets of user data a data packet of `length` octets has.
pub fn user_octets(interface: &Interface, length: usize) -> u64 {
    length.saturating_sub(header_length(interface)) as u64
}

/// Returns what became of the data of a packet with these events, where it was counted.
pub fn counted_in(events: &[Event]) -> Option<Fate>
    ensures fate { MatchOption result (all_lengths events.now ≡ [])
        (λ fate. IsFateOf (all_lengths events.now) fate) }
    ensures counted { IfSome result (λ fate. (reason_in fate ≡ None)
        × (counts_data events.now ≡ true)) }
{
    for event in events {
        if let What::Data { octets, .. } = event.what {
            return Some(Fate::Counted {
                octets,
                segments: segments_in(event),
            });
        }
    }
    None
}
