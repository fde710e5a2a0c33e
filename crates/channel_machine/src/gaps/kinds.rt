//! What gaps leave open about a channel, as far as a word has it.

ghost use Rattle.std.specs.Prelude.{◌≡◌, is_none, option_map};
ghost use Rattle.line_model.specs.channels.Gaps.{indication_of, is_nothing_owed};
ghost use Rattle.line_model.specs.channels.GapStep.{adrift_entry, of_call, owed_after};
ghost use Rattle.line_model.specs.packets.Says.{gap_of};

use line_model::gap::{AdriftEntry, Owed};
use line_model::packet::{Class, Packet, PacketKind};
use line_model::state::{ChannelState, DState, PState, Side};

/// Returns whether a gap is one of all channels; none where a packet is not a gap.
#[inline(always)]
pub(crate) fn gap_in(packet: &Packet) -> Option<bool>
    ensures { result ≡ option_map (λ c. is_none c) (gap_of packet.now) }
{
    match packet {
        Packet::GapOfAll => Some(true),
        Packet::Channel {
            kind: PacketKind::Gap,
            ..
        } => Some(false),
        _ => None,
    }
}

/// Returns what a packet of a class does on a channel adrift, which is a permanent circuit or not.
pub(crate) fn adrift_entry(permanent: bool, class: Class) -> AdriftEntry
    ensures { result ≡ adrift_entry permanent class }
{
    match class {
        Class::Call => of_call(permanent, AdriftEntry::OpensCall),
        Class::Accepted => of_call(permanent, AdriftEntry::Accepts),
        Class::Clear => of_call(permanent, AdriftEntry::Clears),
        Class::ClearConfirm => of_call(permanent, AdriftEntry::ConfirmsClear),
        Class::Reset => AdriftEntry::Resets,
        Class::ResetConfirm => AdriftEntry::ConfirmsReset,
        Class::Interrupt | Class::InterruptConfirm | Class::Data | Class::Rr | Class::Rnr =>
            AdriftEntry::Carries,
        _ => AdriftEntry::DoesNothing,
    }
}

/// What a packet of call set-up or clearing does: nothing on a permanent circuit.
fn of_call(permanent: bool, entry: AdriftEntry) -> AdriftEntry
    ensures { result ≡ of_call permanent entry }
{
    if permanent {
        AdriftEntry::DoesNothing
    } else {
        entry
    }
}

/// Returns the indication that a state owes.
pub(crate) fn indication_of(state: ChannelState) -> Owed
    ensures { result ≡ indication_of state }
{
    match state {
        ChannelState::Setup(PState::P7) => Owed::ClearIndication,
        ChannelState::Transfer(DState::D3) => Owed::ResetIndication,
        _ => Owed::NoIndication,
    }
}

/// Returns whether no indication was owed.
pub(crate) fn is_nothing_owed(owed: Owed) -> bool
    ensures { result ≡ is_nothing_owed owed }
{
    matches!(owed, Owed::NoIndication)
}

/// Returns what is still owed after a packet of a side.
pub(crate) fn owed_after(side: Side, entry: AdriftEntry, owed: Owed) -> Owed
    ensures { result ≡ owed_after side entry owed }
{
    match owed {
        Owed::RestartIndication => Owed::RestartIndication,
        _ => match entry {
            AdriftEntry::Clears => Owed::NoIndication,
            AdriftEntry::ConfirmsClear => match side {
                Side::T => Owed::NoIndication,
                Side::N => owed,
            },
            AdriftEntry::Resets => owed_after_reset(owed),
            AdriftEntry::ConfirmsReset => match side {
                Side::T => owed_after_reset(owed),
                Side::N => owed,
            },
            _ => owed,
        },
    }
}

/// What is still owed after a reset that was recorded.
fn owed_after_reset(owed: Owed) -> Owed
    ensures { result ≡ owed_after Side.T AdriftEntry.Resets owed }
{
    match owed {
        Owed::ResetIndication => Owed::NoIndication,
        _ => owed,
    }
}
