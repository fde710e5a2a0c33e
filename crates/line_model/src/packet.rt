//! Packets as they are decoded (X.25 clause 5).

ghost use Rattle.std.specs.Prelude.{◌≡◌};

/// The class of a packet, as the state tables have it (X.25 Table 5-2; the classes of faulty packets are profile).
#[derive(Clone, Copy, PartialEq, Eq, Debug)]
pub enum Class {
    /// Under two octets.
    Short,
    /// The general format identifier does not fit the interface's modulus.
    WrongFormat,
    /// An unassigned logical channel, or a packet that channel 0 does not have.
    Unassigned,
    /// Restart request or indication.
    Restart,
    /// Restart confirmation.
    RestartConfirm,
    /// Diagnostic.
    Diagnostic,
    /// Registration request or confirmation.
    Registration,
    /// A channel's packet without a type.
    TwoOctets,
    /// A restart packet on another channel than 0.
    RestartHere,
    /// Call request or incoming call.
    Call,
    /// Call accepted or connected.
    Accepted,
    /// Clear request or indication.
    Clear,
    /// Clear confirmation.
    ClearConfirm,
    /// Interrupt.
    Interrupt,
    /// Interrupt confirmation.
    InterruptConfirm,
    /// Reset request or indication.
    Reset,
    /// Reset confirmation.
    ResetConfirm,
    /// Data.
    Data,
    /// Receive ready.
    Rr,
    /// Receive not ready.
    Rnr,
    /// Reject.
    Rej,
    /// A type that no packet has.
    Undefined,
}

/// The header of a data packet (X.25 clause 5.3.1).
#[derive(Clone, Copy, PartialEq, Eq, Debug)]
pub struct DataHeader {
    /// P(S), below the modulus.
    pub send: u8,
    /// P(R), below the modulus.
    pub receive: u8,
    /// The M bit: more data follows.
    pub more: bool,
    /// The D bit: delivery is to be confirmed.
    pub delivery: bool,
    /// The Q bit: the data is qualified, as PAD messages are.
    pub qualified: bool,
}

/// A packet on an assigned channel: data with its header, RR and RNR with P(R). A header that is cut short is `None`.
#[derive(Clone, Copy, PartialEq, Eq, Debug)]
pub enum PacketKind {
    /// A packet without a type.
    TwoOctets,
    /// A restart packet on another channel than 0.
    RestartHere,
    /// Call request or incoming call.
    Call,
    /// Call accepted or connected.
    Accepted,
    /// Clear request or indication.
    Clear,
    /// Clear confirmation.
    ClearConfirm,
    /// Interrupt.
    Interrupt,
    /// Interrupt confirmation.
    InterruptConfirm,
    /// Reset request or indication.
    Reset,
    /// Reset confirmation.
    ResetConfirm,
    /// Data, with its header.
    Data(Option<DataHeader>),
    /// Receive ready, with P(R).
    Rr(Option<u8>),
    /// Receive not ready, with P(R).
    Rnr(Option<u8>),
    /// Reject.
    Rej,
    /// A type that no packet has.
    Undefined,
    /// Not a packet: packets on the channel may not have been recorded (profile).
    Gap,
}

/// A packet, decoded.
#[derive(Clone, Copy, PartialEq, Eq, Debug)]
pub enum Packet {
    /// Under two octets.
    Short,
    /// The general format identifier does not fit the interface's modulus.
    WrongFormat,
    /// An unassigned logical channel, or a packet that channel 0 does not have.
    Unassigned,
    /// Diagnostic, on channel 0.
    Diagnostic,
    /// Registration, on channel 0.
    Registration,
    /// Restart request or indication, on channel 0.
    Restart,
    /// Restart confirmation, on channel 0.
    RestartConfirm,
    /// A packet on an assigned logical channel.
    Channel { channel: u16, kind: PacketKind },
    /// Not a packet: packets on any channel may not have been recorded (profile).
    GapOfAll,
}

impl Class {
    ghost use Rattle.line_model.specs.channels.RestartMachine.{is_outside};

    /// Returns whether a packet of the class is judged outside the machines.
    pub fn is_outside(self) -> bool
        ensures { result ≡ is_outside self }
    {
        matches!(
            self,
            Class::Short
                | Class::WrongFormat
                | Class::Unassigned
                | Class::Diagnostic
                | Class::Registration
        )
    }
}

impl Packet {
    ghost use Rattle.line_model.specs.packets.Classes.{packet_class};
    ghost use Rattle.line_model.specs.packets.Says.{header_in};

    /// Returns the class of a packet.
    pub fn class(&self) -> Class
        ensures { result ≡ packet_class self.now }
    {
        match self {
            Packet::Short => Class::Short,
            Packet::WrongFormat => Class::WrongFormat,
            Packet::Unassigned => Class::Unassigned,
            Packet::Diagnostic => Class::Diagnostic,
            Packet::Registration => Class::Registration,
            Packet::Restart => Class::Restart,
            Packet::RestartConfirm => Class::RestartConfirm,
            Packet::Channel { kind, .. } => kind.class(),
            Packet::GapOfAll => Class::Unassigned,
        }
    }

    /// Returns the header of a data packet, `None` where it is cut and for every other packet.
    pub fn data_header(&self) -> Option<DataHeader>
        ensures { result ≡ header_in self.now }
    {
        match self {
            Packet::Channel {
                kind: PacketKind::Data(header),
                ..
            } => *header,
            _ => None,
        }
    }
}

impl PacketKind {
    ghost use Rattle.line_model.specs.packets.Classes.{kind_class};

    /// Returns the class of a packet on a channel.
    fn class(&self) -> Class
        ensures { result ≡ kind_class self.now }
    {
        match self {
            PacketKind::TwoOctets => Class::TwoOctets,
            PacketKind::RestartHere => Class::RestartHere,
            PacketKind::Call => Class::Call,
            PacketKind::Accepted => Class::Accepted,
            PacketKind::Clear => Class::Clear,
            PacketKind::ClearConfirm => Class::ClearConfirm,
            PacketKind::Interrupt => Class::Interrupt,
            PacketKind::InterruptConfirm => Class::InterruptConfirm,
            PacketKind::Reset => Class::Reset,
            PacketKind::ResetConfirm => Class::ResetConfirm,
            PacketKind::Data(_) => Class::Data,
            PacketKind::Rr(_) => Class::Rr,
            PacketKind::Rnr(_) => Class::Rnr,
            PacketKind::Rej => Class::Rej,
            PacketKind::Undefined | PacketKind::Gap => Class::Undefined,
        }
    }
}
