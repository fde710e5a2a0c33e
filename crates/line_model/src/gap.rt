//! What a gap of a recording leaves open of a channel and of an interface (profile).

/// The indication of the DCE that was owed as a gap came.
#[derive(Clone, Copy, Debug, PartialEq, Eq)]
pub enum Owed {
    /// None was owed.
    NoIndication,
    /// That of a clearing: the channel was in p7.
    ClearIndication,
    /// That of a reset: the channel was in d3.
    ResetIndication,
    /// That of a restart: the interface was in r3.
    RestartIndication,
}

/// The last data packet of a side on a channel adrift.
#[derive(Clone, Copy, Debug, PartialEq, Eq)]
pub struct LastData {
    /// The number after its P(S).
    pub next: u8,
    /// The last P(R) of its side, in this packet or after it.
    pub receive: u8,
}

/// How an epoch begins.
#[derive(Clone, Copy, Debug, PartialEq, Eq)]
pub enum EpochStart {
    /// In r1, with all channels fresh.
    Restarted,
    /// After a gap of all channels, where the indication of a restart was owed or not: all channels are adrift.
    Drifting(bool),
}

/// What a packet without a fault of format does on a channel adrift.
#[derive(Clone, Copy, Debug, PartialEq, Eq)]
pub enum AdriftEntry {
    /// A call request or incoming call opens a call.
    OpensCall,
    /// Call accepted or connected brings a call up.
    Accepts,
    /// A clear request or indication ends the call.
    Clears,
    /// A clear confirmation shows that the call has ended.
    ConfirmsClear,
    /// A reset request or indication.
    Resets,
    /// A reset confirmation.
    ConfirmsReset,
    /// Data, RR, RNR, an interrupt or its confirmation.
    Carries,
    /// Every other packet does nothing.
    DoesNothing,
}
