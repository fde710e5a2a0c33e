//! A circuit: what the packets of both directions of a connection say.

ghost use Rattle.std.specs.Prelude.{◌≡◌, ◌<◌, ◌≤◌, ◌/◌, drop, false, length, slice_index, true};
ghost use Rattle.line_model.specs.basics.Octets.{channel_of};
ghost use Rattle.xot_circuits.specs.Circuits.{is_flow, is_last, is_of_interface, seen_after, what_of};

use crate::call::{Call, Head, read_head};
use crate::channels::Purpose;
use crate::joining::{Expected, SeenChannels};
use line_model::state::Side;

/// The third octet of a set-up of a permanent circuit (RFC 1613).
const PERMANENT_SET_UP: u8 = 0xF5;

/// What a packet in a connection is.
#[derive(Clone, Copy)]
pub enum What {
    /// A packet of the circuit.
    Packet,
    /// A packet of the circuit. The one before it in its direction had this other logical channel.
    OtherChannel(u16),
    /// A set-up of a permanent circuit, which is no packet of X.25 (RFC 1613). It is left out.
    SetUp,
    /// A packet with this third octet on logical channel 0, which concerns a whole interface. It is left out.
    OfInterface(u8),
}

/// The circuit of a connection, as far as its packets were read.
#[derive(Clone, Copy)]
pub struct Circuit {
    /// The modulus of the sequence numbers, 8 or 128, by the general format identifier.
    pub modulus: Option<u8>,
    /// The logical channels of the packets of the DTE.
    pub of_t: Option<SeenChannels>,
    /// The logical channels of the packets of the DCE.
    pub of_n: Option<SeenChannels>,
    /// Its call.
    pub call: Call,
    /// Whether octets before the next packet may not have been recorded, ever since the connection began.
    pub has_gap: bool,
    /// Whether the connection is left out from here on, since it does not carry XOT.
    pub is_left: bool,
}

/// Returns whether a third octet is that of data or RR.
fn is_flow(kind: u8) -> bool
    ensures { result ≡ is_flow kind }
{
    kind % 2 == 0 || kind % 32 == 1
}

/// Returns whether a third octet is that of a restart, its confirmation, a diagnostic or a registration packet.
fn is_of_interface(kind: u8) -> bool
    ensures { result ≡ is_of_interface kind }
{
    matches!(kind, 0xF1 | 0xF3 | 0xF7 | 0xFB | 0xFF)
}

/// Returns the logical channels of a direction after a packet.
fn seen_after(seen: Option<SeenChannels>, channel: u16) -> SeenChannels
    ensures { result ≡ seen_after seen channel }
{
    match seen {
        None => SeenChannels {
            first: channel,
            last: channel,
        },
        Some(seen) => SeenChannels {
            first: seen.first,
            last: channel,
        },
    }
}

/// Returns whether the last packet of a direction had a logical channel.
fn is_last(seen: Option<SeenChannels>, channel: u16) -> bool
    ensures { result ≡ is_last seen channel }
{
    match seen {
        None => false,
        Some(seen) => seen.last == channel,
    }
}

/// Returns what a packet of the circuit is, after others of its direction.
fn what_of(seen: Option<SeenChannels>, channel: u16) -> What
    ensures { result ≡ what_of seen channel }
{
    match seen {
        None => What::Packet,
        Some(seen) => {
            if seen.last == channel {
                What::Packet
            } else {
                What::OtherChannel(seen.last)
            }
        }
    }
}

impl Circuit {
    ghost use Rattle.xot_circuits.specs.Circuits.{after_loss, after_other_version, expected, followed, is_known, new_circuit, purpose, seen_of, taken};

    /// Returns a circuit of which no packet was read. `is_joined`: the recording began inside of the connection.
    pub fn new(is_joined: bool) -> Circuit
        ensures { result ≡ new_circuit is_joined }
    {
        Circuit {
            modulus: None,
            of_t: None,
            of_n: None,
            call: Call::new(is_joined),
            has_gap: is_joined,
            is_left: false,
        }
    }

    /// Returns the logical channels of the packets of a side.
    pub fn seen(&self, side: Side) -> Option<SeenChannels>
        ensures { result ≡ seen_of side self.now }
    {
        match side {
            Side::T => self.of_t,
            Side::N => self.of_n,
        }
    }

    /// Returns for what it needs a logical channel of the trace. Where nothing shows who called, it was the DTE.
    pub fn purpose(&self) -> Purpose
        ensures { result ≡ purpose self.now }
    {
        if self.call.is_permanent {
            Purpose::Permanent
        } else {
            Purpose::Calls(self.call.caller.unwrap_or(Side::T))
        }
    }

    /// Returns what the next packet of a side has, as far as it is known.
    pub fn expected(&self, side: Side) -> Expected
        ensures { result ≡ expected side self.now }
    {
        Expected {
            modulus: self.modulus,
            channels: self.seen(side),
        }
    }

    /// Returns whether a packet of a side says nothing new: data or RR on the logical channel of the one before it.
    fn is_known(&self, side: Side, head: &Head) -> bool
        ensures { result ≡ is_known side head.now self.now }
    {
        is_flow(head.kind) && is_last(self.seen(side), head.channel) && !self.call.is_confirmed()
    }

    /// Reads the next packet of a side, and returns what it is.
    pub fn follow(&mut self, side: Side, octets: &[u8]) -> What
        ensures what { result ≡ (followed side octets.now self.old).what }
        ensures after { self.new ≡ (followed side octets.now self.old).after }
    {
        let Some(head) = read_head(octets) else {
            return What::Packet;
        };
        if self.is_known(side, &head) {
            return What::Packet;
        }
        if head.kind == PERMANENT_SET_UP && !self.call.is_called {
            self.call.is_permanent = true;
            return What::SetUp;
        }
        if head.channel == 0 && is_of_interface(head.kind) {
            return What::OfInterface(head.kind);
        }
        self.take(side, &head)
    }

    /// Reads a packet of the circuit.
    fn take(&mut self, side: Side, head: &Head) -> What
        ensures what { result ≡ (taken side head.now self.old).what }
        ensures after { self.new ≡ (taken side head.now self.old).after }
    {
        let seen = self.seen(side);
        let after = Some(seen_after(seen, head.channel));
        self.call.take(side, head);
        self.modulus = self.modulus.or(head.modulus);
        match side {
            Side::T => self.of_t = after,
            Side::N => self.of_n = after,
        }
        what_of(seen, head.channel)
    }

    /// Reads a gap.
    pub fn lose(&mut self)
        ensures { self.new ≡ after_loss self.old }
    {
        self.call.lose();
        self.has_gap = true;
    }

    /// Reads the header of another version. Without a gap before it the connection does not carry XOT, and is left out from
    /// here on. Otherwise the place is wrong, and a packet is sought again.
    pub fn refuse(&mut self)
        ensures { self.new ≡ after_other_version self.old }
    {
        if self.has_gap {
            self.call.lose();
        } else {
            self.is_left = true;
        }
    }
}

/// Writes a logical channel into the first two octets of a packet. A packet of fewer octets has none.
pub fn write_channel(octets: &mut [u8], channel: u16)
    requires { channel < 4096 }
    ensures channel { 2 ≤ length octets.old → channel_of octets.new ≡ channel }
    ensures format { slice_index octets.new 0 / 16 ≡ slice_index octets.old 0 / 16 }
    ensures others { drop 2 octets.new ≡ drop 2 octets.old }
    ensures few { length octets.old < 2 → octets.new ≡ octets.old }
{
    if octets.len() < 2 {
        return;
    }
    octets[0] = octets[0] / 16 * 16 + (channel / 256) as u8;
    octets[1] = (channel % 256) as u8;
}
