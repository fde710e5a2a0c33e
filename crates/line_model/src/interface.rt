//! The parameters of an interface.

ghost use Rattle.std.specs.Prelude.{◌≡◌};
ghost use Rattle.line_model.specs.basics.Limits.{IsInterface};

use crate::state::{ChannelState, DState, PState, Side};

/// One DTE/DCE interface: its numbering, its default window and packet size, and its channels.
#[derive(Clone, Copy, Debug, PartialEq, Eq)]
pub struct Interface {
    /// Sequence numbers are counted modulo 8 or 128.
    pub modulus: u8,
    /// The default window.
    pub window: u8,
    /// The default packet size.
    pub size: u16,
    /// Channels 1 to `pvc` are permanent virtual circuits.
    pub pvc: u16,
    /// Channels `pvc` + 1 to `incoming` are for incoming calls only.
    pub incoming: u16,
    /// Channels `incoming` + 1 to `two_way` are for calls of either side.
    pub two_way: u16,
    /// Channels `two_way` + 1 to `svc` are for outgoing calls only.
    pub svc: u16,
    /// The trace begins in the middle: nothing is known of the channels in epoch 1, or with gaps all are adrift.
    pub join: bool,
    /// Gaps of the recording are rows.
    pub gaps: bool,
    pub ghost lawful: { IsInterface modulus window size pvc incoming two_way svc },
}

impl Interface {
    ghost use Rattle.line_model.specs.channels.Channels.{is_permanent, is_against, is_joined, fresh_state};

    /// Returns whether a logical channel is a permanent virtual circuit.
    pub fn is_permanent(&self, channel: u16) -> bool
        ensures { result ≡ is_permanent self.now channel }
    {
        1 <= channel && channel <= self.pvc
    }

    /// Returns whether a call of a side goes against the direction of a one-way channel (X.25 Annex A).
    pub fn is_against(&self, side: Side, channel: u16) -> bool
        ensures { result ≡ is_against self.now side channel }
    {
        match side {
            Side::T => self.pvc < channel && channel <= self.incoming,
            Side::N => self.two_way < channel && channel <= self.svc,
        }
    }

    /// Returns the state of a fresh channel: p1, d1, or unknown where the trace joins in its epoch (profile).
    pub fn fresh_state(&self, epoch: u32, channel: u16) -> ChannelState
        ensures { result ≡ fresh_state (is_joined self.now epoch) (is_permanent self.now channel) }
    {
        if self.join && !self.gaps && epoch == 1 {
            ChannelState::Unknown
        } else if self.is_permanent(channel) {
            ChannelState::Transfer(DState::D1)
        } else {
            ChannelState::Setup(PState::P1)
        }
    }
}
