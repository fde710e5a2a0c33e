//! Sides and states.

ghost use Rattle.std.specs.Prelude.{◌≡◌};

/// A side of the interface: T is the DTE, N the DCE.
#[derive(Clone, Copy, PartialEq, Eq, Debug)]
pub enum Side {
    /// The DTE.
    T,
    /// The DCE, the network.
    N,
}

impl Side {
    ghost use Rattle.line_model.specs.channels.Channels.{other};

    /// Returns the side at the other end of the interface.
    pub fn other(self) -> Side
        ensures { result ≡ other self }
    {
        match self {
            Side::T => Side::N,
            Side::N => Side::T,
        }
    }
}

/// A state of the restart machine.
#[derive(Clone, Copy, PartialEq, Eq, Debug)]
pub enum RState {
    /// Packet level ready.
    R1,
    /// DTE restart request.
    R2,
    /// DCE restart indication.
    R3,
}

/// A state of call set-up and clearing.
#[derive(Clone, Copy, PartialEq, Eq, Debug)]
pub enum PState {
    /// Ready.
    P1,
    /// DTE waiting.
    P2,
    /// DCE waiting.
    P3,
    /// Data transfer.
    P4,
    /// Call collision.
    P5,
    /// DTE clear request.
    P6,
    /// DCE clear indication.
    P7,
}

/// A state of data transfer.
#[derive(Clone, Copy, PartialEq, Eq, Debug)]
pub enum DState {
    /// Flow control ready.
    D1,
    /// DTE reset request.
    D2,
    /// DCE reset indication.
    D3,
}

/// The state of a channel: `Transfer` in p4 and on permanent circuits.
#[derive(Clone, Copy, PartialEq, Eq, Debug)]
pub enum ChannelState {
    /// Call set-up or clearing.
    Setup(PState),
    /// Data transfer.
    Transfer(DState),
    /// The trace began in the middle, and the state of the channel is not known yet.
    Unknown,
}

/// The name of a state, as a finding prints it.
#[derive(Clone, Copy, PartialEq, Eq, Debug)]
pub enum StateName {
    /// Judged outside the state machines.
    Dash,
    R1,
    R2,
    R3,
    P1,
    P2,
    P3,
    P4,
    P5,
    P6,
    P7,
    D1,
    D2,
    D3,
}

impl RState {
    ghost use Rattle.line_model.specs.channels.RestartMachine.{restart_name};

    /// Returns the name of the state.
    pub fn name(self) -> StateName
        ensures { result ≡ restart_name self }
    {
        match self {
            RState::R1 => StateName::R1,
            RState::R2 => StateName::R2,
            RState::R3 => StateName::R3,
        }
    }
}

impl PState {
    ghost use Rattle.line_model.specs.channels.ChannelStep.{setup_name};

    /// Returns the name of the state.
    pub fn name(self) -> StateName
        ensures { result ≡ setup_name self }
    {
        match self {
            PState::P1 => StateName::P1,
            PState::P2 => StateName::P2,
            PState::P3 => StateName::P3,
            PState::P4 => StateName::P4,
            PState::P5 => StateName::P5,
            PState::P6 => StateName::P6,
            PState::P7 => StateName::P7,
        }
    }
}

impl DState {
    ghost use Rattle.line_model.specs.channels.ChannelStep.{transfer_name};

    /// Returns the name of the state.
    pub fn name(self) -> StateName
        ensures { result ≡ transfer_name self }
    {
        match self {
            DState::D1 => StateName::D1,
            DState::D2 => StateName::D2,
            DState::D3 => StateName::D3,
        }
    }
}

impl StateName {
    ghost use Rattle.line_model.specs.channels.ChannelStep.{state_named};

    /// Returns the state of a channel that enters this one; entering p4 enters d1.
    pub fn entered(self) -> ChannelState
        ensures { result ≡ state_named self }
    {
        match self {
            StateName::P2 => ChannelState::Setup(PState::P2),
            StateName::P3 => ChannelState::Setup(PState::P3),
            StateName::P5 => ChannelState::Setup(PState::P5),
            StateName::P6 => ChannelState::Setup(PState::P6),
            StateName::P7 => ChannelState::Setup(PState::P7),
            StateName::P4 | StateName::D1 => ChannelState::Transfer(DState::D1),
            StateName::D2 => ChannelState::Transfer(DState::D2),
            StateName::D3 => ChannelState::Transfer(DState::D3),
            _ => ChannelState::Setup(PState::P1),
        }
    }
}
