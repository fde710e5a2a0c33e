//! What is read of the connections of a recording.

ghost use Rattle.std.specs.Prelude.{◌≡◌, ◌++◌, [], ◌∷◌, List, OnOk};
ghost use Rattle.xot_circuits.specs.Items as items;
ghost use Rattle.xot_circuits.specs.Items.{item_view};

use crate::circuit::{Circuit, What};
use line_model::state::Side;
use std::alloc::AllocError;
use tcp_streams::connection::End;
use tcp_streams::ends::Ends;
use tcp_streams::piece::Recorded;

/// Octets of a connection: who sent them, and the frame that has the last one.
#[derive(Clone, Copy)]
pub struct Origin {
    /// The number of the connection.
    pub connection: u64,
    /// The end that sent them.
    pub from: End,
    /// The frame.
    pub recorded: Recorded,
}

/// A packet in a connection.
#[derive(Clone, Copy)]
pub struct Sent<'a> {
    /// Where it comes from.
    pub origin: Origin,
    /// The side that sent it.
    pub side: Side,
    /// What it is.
    pub what: What,
    /// Its octets.
    pub octets: &'a [u8],
}

/// Packets of a circuit may be missing.
#[derive(Clone, Copy)]
pub struct CircuitGap {
    /// The number of its connection.
    pub connection: u64,
    /// The frame that shows it.
    pub recorded: Recorded,
    /// Whether the recording began inside of the connection, and nothing else is missing.
    pub is_beginning: bool,
}

/// A circuit at the end of its connection.
#[derive(Clone, Copy)]
pub struct EndedCircuit {
    /// The number of its connection.
    pub connection: u64,
    /// The ends of its connection, the opener first.
    pub ends: Ends,
    /// The side of the opener.
    pub opener: Side,
    /// The frame that ended the connection; `None` at the end of the recording.
    pub recorded: Option<Recorded>,
    /// What its packets said.
    pub circuit: Circuit,
    /// The side that alone was recorded: the other one has no packet, and octets of it are missing, or all its segments.
    pub alone: Option<Side>,
}

/// What comes next in a recording. Packets and gaps are rows of the trace.
#[derive(Clone, Copy)]
pub enum Item<'a> {
    /// A packet of the circuit, of any length.
    Packet(Sent<'a>),
    /// A gap of the circuit.
    Gap(CircuitGap),
    /// A packet that is left out: it is not of the circuit.
    LeftOut(Sent<'a>),
    /// The end of a connection.
    Ended(EndedCircuit),
}

/// Where the items of a recording go.
pub trait Items {
    /// Those that it took.
    ghost taken: { Self → List items.Item };

    /// Takes the next one. Fails only when memory is refused.
    fn take(&mut self, item: &Item<'_>) -> Result<(), AllocError>
        ensures { OnOk result (taken self.new ≡ taken self.old ++ item_view item.now ∷ []) };
}
