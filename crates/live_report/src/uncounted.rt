//! The data packets that were not counted, and why.

ghost use Rattle.std.specs.Prelude.{◌≡◌, ℕ, ◌++◌, ◌∷◌, [], List};
ghost use Rattle.line_model.specs.basics.Records.{Item};
ghost use Rattle.line_model.specs.channels.Gaps.{GapChannel};
ghost use Rattle.line_model.specs.declared.interface.Interface.{Interface as AnyInterface};
ghost use Rattle.restart_epochs.specs.Cutting.{observer};
ghost use Rattle.channel_run.specs.StatusWord.{view_in};
ghost use Rattle.channel_run.specs.Views.{IsViewOf};
ghost use Rattle.live_report.specs.JudgedRows.{IsJudgedRow, judged_row};
ghost use Rattle.live_report.specs.Effects.{with_data};
ghost use Rattle.live_report.specs.Uncounted.{AreFew, amount_for, counts_data, grown, has_finding, is_data, none_left_out, reason_at, reason_of_state, reason_on, uncounted_of, user_octets, with_one};

use crate::judged_row::{Judge, JudgedRow, RowOutcome};
use channel_run::status_word::view_in;
use data_transfer::packed::FlowWord;
use line_model::event::{Event, What};
use line_model::interface::Interface;
use line_model::items::ItemRef;
use line_model::packet::{Packet, PacketKind};
use line_model::state::ChannelState;
use packet_decode::decode::header_length;

/// Why the data of a row was not counted.
#[derive(Clone, Copy, PartialEq, Eq, Debug)]
pub enum Reason {
    /// The row has a finding.
    Finding,
    /// The DCE owes its indication.
    Owed,
    /// The logical channel is not in data transfer.
    NotInTransfer,
    /// A reset goes on, and the state discards data.
    Discarded,
    /// The recording began in the middle or has a gap, and nothing is known of the channel.
    Unknown,
    /// A restart goes on.
    Restart,
}

/// The reasons, in the order in which they are printed.
pub const REASONS: [Reason; 6] = [
    Reason::Finding,
    Reason::Owed,
    Reason::NotInTransfer,
    Reason::Discarded,
    Reason::Unknown,
    Reason::Restart,
];

impl Reason {
    /// Why a channel in a state did not count data without a fault.
    fn of_state(state: ChannelState, adrift: bool, owed: bool) -> Reason
        ensures { result ≡ reason_of_state state adrift owed }
    {
        match state {
            ChannelState::Unknown => Reason::Unknown,
            ChannelState::Setup(_) => if adrift {
                Reason::Unknown
            } else if owed {
                Reason::Owed
            } else {
                Reason::NotInTransfer
            },
            ChannelState::Transfer(_) => if owed {
                Reason::Owed
            } else {
                Reason::Discarded
            },
        }
    }
}

/// Returns whether a packet is a data packet.
pub fn is_data(packet: &Packet) -> bool
    ensures { result ≡ is_data packet.now }
{
    match packet {
        Packet::Channel { kind, .. } => matches!(kind, PacketKind::Data(_)),
        _ => false,
    }
}

/// Returns whether data was counted.
pub fn counts_data(events: &[Event]) -> bool
    ensures { result ≡ counts_data events.now }
{
    for event in events {
        if let What::Data { .. } = event.what {
            return true;
        }
    }
    false
}

/// Returns whether something was found.
pub fn has_finding(events: &[Event]) -> bool
    ensures { result ≡ has_finding events.now }
{
    for event in events {
        if let What::Found { .. } = event.what {
            return true;
        }
    }
    false
}

/// Why a channel did not count the data of a row with these events, by what was known of it before; none where it did.
fn reason_on(word: &FlowWord, events: &[Event]) -> Option<Reason>
    ensures { (i : AnyInterface) (g : GapChannel) → IsViewOf i g (view_in word.now)
        → result ≡ reason_on g events.now }
{
    if counts_data(events) {
        return None;
    }
    if has_finding(events) {
        return Some(Reason::Finding);
    }
    let view = view_in(word);
    Some(Reason::of_state(view.state, view.adrift, view.owed))
}

/// Returns why the data of a row was not counted; none where the row has no data, or it was counted.
#[inline(always)]
pub fn reason_of(row: &JudgedRow, events: &[Event]) -> Option<Reason>
    ensures { (i : AnyInterface) (earlier : List Item) (r : Item)
        → IsJudgedRow i earlier r row.now events.now
        → result ≡ reason_at i (observer i earlier) r }
{
    if !is_data(&row.packet) {
        return None;
    }
    match &row.judge {
        Judge::Restart { .. } => Some(Reason::Restart),
        Judge::Channel { before, .. } => reason_on(before, events),
    }
}

/// How many octets of user data a data packet has.
fn user_octets(interface: &Interface, length: usize) -> u64
    ensures { result ≡ user_octets interface.now length }
{
    length.saturating_sub(header_length(interface)) as u64
}

/// Some data packets.
#[derive(Clone, Copy, PartialEq, Eq, Debug)]
pub struct Amount {
    /// How many packets.
    pub packets: u64,
    /// Their octets of user data.
    pub octets: u64,
}

/// No packets.
const NONE: Amount = Amount {
    packets: 0,
    octets: 0,
};

impl Amount {
    /// Adds a packet. A sum that does not fit stays at the greatest number.
    fn add(&mut self, octets: u64)
        ensures { self.new ≡ grown octets self.old }
    {
        self.packets = self.packets.saturating_add(1);
        self.octets = self.octets.saturating_add(octets);
    }
}

/// The data packets that were not counted, by the reason.
#[derive(Clone, Copy, PartialEq, Eq, Debug)]
pub struct Uncounted {
    /// The row has a finding.
    pub finding: Amount,
    /// The DCE owes its indication.
    pub owed: Amount,
    /// The logical channel is not in data transfer.
    pub not_in_transfer: Amount,
    /// A reset goes on, and the state discards data.
    pub discarded: Amount,
    /// The recording began in the middle or has a gap, and nothing is known of the channel.
    pub unknown: Amount,
    /// A restart goes on.
    pub restart: Amount,
}

impl Uncounted {
    /// Returns a value in which all data was counted.
    pub fn none() -> Self
        ensures { result ≡ none_left_out }
    {
        Uncounted {
            finding: NONE,
            owed: NONE,
            not_in_transfer: NONE,
            discarded: NONE,
            unknown: NONE,
            restart: NONE,
        }
    }

    /// Returns what was not counted for a reason.
    pub fn amount(&self, reason: Reason) -> Amount
        ensures { result ≡ amount_for reason self.now }
    {
        match reason {
            Reason::Finding => self.finding,
            Reason::Owed => self.owed,
            Reason::NotInTransfer => self.not_in_transfer,
            Reason::Discarded => self.discarded,
            Reason::Unknown => self.unknown,
            Reason::Restart => self.restart,
        }
    }

    /// Adds a packet which was not counted for a reason.
    fn add(&mut self, reason: Reason, octets: u64)
        ensures { self.new ≡ with_one reason octets self.old }
    {
        match reason {
            Reason::Finding => self.finding.add(octets),
            Reason::Owed => self.owed.add(octets),
            Reason::NotInTransfer => self.not_in_transfer.add(octets),
            Reason::Discarded => self.discarded.add(octets),
            Reason::Unknown => self.unknown.add(octets),
            Reason::Restart => self.restart.add(octets),
        }
    }

    /// Adds the octets of a row by what came of it and its events, except that of accepted data with Q 0.
    #[inline(always)]
    pub(crate) fn take(
        &mut self,
        interface: &Interface,
        item: &ItemRef<'_>,
        outcome: &RowOutcome,
        events: &[Event],
    )
        ensures { (i : AnyInterface) (epoch : ℕ) (earlier : List Item)
            → IsJudgedRow i earlier item.now (judged_row item.now outcome.now)
            (with_data epoch outcome.now.judge item.now events.now)
            → interface.now ≡ i → AreFew (earlier ++ item.now ∷ [])
            → self.old ≡ uncounted_of i earlier
            → self.new ≡ uncounted_of i (earlier ++ item.now ∷ []) }
    {
        if outcome.judge.is_accepted() {
            return;
        }
        if let Some(reason) = reason_of(&outcome.row(item), events) {
            self.add(reason, user_octets(interface, item.length));
        }
    }
}
