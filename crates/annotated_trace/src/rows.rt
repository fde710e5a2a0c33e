//! Which rows of a trace are described.

ghost use Rattle.std.specs.Prelude.{◌≡◌};
ghost use Rattle.annotated_trace.specs.Rows.{asked_call, chooses, names_asked};

use line_model::packet::Packet;

/// Which rows are described.
#[derive(Clone, Copy)]
pub enum Rows {
    /// All.
    All,
    /// Those of a logical channel, where one is named, and of a call, where one is named by its number in the report.
    Chosen {
        channel: Option<u16>,
        call: Option<u32>,
    },
}

impl Rows {
    /// Returns the number of the call that is named, 0 where none is.
    pub fn asked_call(self) -> u32
        ensures { result ≡ asked_call self }
    {
        match self {
            Rows::Chosen {
                call: Some(number),
                ..
            } => number,
            _ => 0,
        }
    }

    /// Returns whether a row is described, by its packet and by whether it is one of the rows of the call that is
    /// named.
    pub fn chooses(self, packet: &Packet, of_call: bool) -> bool
        ensures { result ≡ chooses self packet.now of_call }
    {
        match self {
            Rows::All => true,
            Rows::Chosen {
                channel,
                call: None,
            } => names_asked(channel, packet),
            Rows::Chosen {
                channel,
                call: Some(_),
            } => names_asked(channel, packet) && of_call,
        }
    }
}

/// Whether a packet names the logical channel that is asked for, where one is. A gap of all channels names each.
fn names_asked(asked: Option<u16>, packet: &Packet) -> bool
    ensures { result ≡ names_asked asked packet.now }
{
    match (asked, packet) {
        (None, _) => true,
        (Some(asked), Packet::Channel { channel, .. }) => *channel == asked,
        (Some(_), Packet::GapOfAll) => true,
        (Some(_), _) => false,
    }
}
