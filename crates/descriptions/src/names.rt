//! The names of sides and states, in the words of the Recommendation.

use line_model::state::{ChannelState, DState, PState, RState, Side};

/// Returns the name of a side of the interface.
pub fn side(side: Side) -> &'static str {
    match side {
        Side::T => "DTE",
        Side::N => "DCE",
    }
}

/// Returns the name of a state of the restart machine (X.25 Annex B).
pub fn restart_state(state: RState) -> &'static str {
    match state {
        RState::R1 => "r1",
        RState::R2 => "r2",
        RState::R3 => "r3",
    }
}

/// Returns the name of a state of a channel (X.25 Annex B).
pub fn channel_state(state: ChannelState) -> &'static str {
    match state {
        ChannelState::Setup(PState::P1) => "p1",
        ChannelState::Setup(PState::P2) => "p2",
        ChannelState::Setup(PState::P3) => "p3",
        ChannelState::Setup(PState::P4) => "p4",
        ChannelState::Setup(PState::P5) => "p5",
        ChannelState::Setup(PState::P6) => "p6",
        ChannelState::Setup(PState::P7) => "p7",
        ChannelState::Transfer(DState::D1) => "d1",
        ChannelState::Transfer(DState::D2) => "d2",
        ChannelState::Transfer(DState::D3) => "d3",
        ChannelState::Unknown => "unknown",
    }
}
