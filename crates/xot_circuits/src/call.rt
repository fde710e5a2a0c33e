//! The call of a circuit: whether its channel is surely in p1 again.

ghost use Rattle.std.specs.Prelude.{◌≡◌, false, true};
ghost use Rattle.xot_circuits.specs.Calls.{answered, clearing_after, head_of, is_confirmed, is_t, spoils};

use crate::joining::modulus_of;
use line_model::state::Side;

/// The third octets of a call request, a clear request and a clear confirmation (X.25 table 5-2).
const CALL: u8 = 0x0B;

const CLEAR: u8 = 0x13;

const CONFIRMATION: u8 = 0x17;

/// What the header of a packet says.
#[derive(Clone, Copy)]
pub struct Head {
    /// The modulus by the general format identifier, 8 or 128.
    pub modulus: Option<u8>,
    /// The logical channel.
    pub channel: u16,
    /// The third octet.
    pub kind: u8,
    /// Whether an octet comes after it.
    pub is_long: bool,
}

/// Reads the header of a packet; `None` where the packet has fewer than three octets.
pub fn read_head(octets: &[u8]) -> Option<Head>
    ensures { result ≡ head_of octets.now }
{
    match octets {
        [first, second, kind, rest @ ..] => Some(Head {
            modulus: modulus_of(*first),
            channel: u16::from(*first % 16) * 256 + u16::from(*second),
            kind: *kind,
            is_long: !rest.is_empty(),
        }),
        _ => None,
    }
}

/// How far a call is cleared.
#[derive(Clone, Copy)]
pub enum Clearing {
    /// No side cleared it.
    Open,
    /// This side cleared it.
    By(Side),
    /// One side cleared it, and the other one confirmed that, or cleared it too.
    Confirmed,
}

/// The call of a circuit, as far as its packets were read.
#[derive(Clone, Copy)]
pub struct Call {
    /// Whether a set-up made the circuit a permanent one.
    pub is_permanent: bool,
    /// Whether it was requested, or may have been before the recording began.
    pub is_called: bool,
    /// The side that requested it first.
    pub caller: Option<Side>,
    /// How far it is cleared.
    pub clearing: Clearing,
    /// Whether the channel may have left p1 after the call was cleared.
    pub is_spoiled: bool,
}

/// Returns whether a side is the DTE.
fn is_t(side: Side) -> bool
    ensures { result ≡ is_t side }
{
    matches!(side, Side::T)
}

/// Returns how far a call is cleared that one side cleared, after the clear or the confirmation of a side.
fn answered(side: Side, by: Side) -> Clearing
    ensures { result ≡ answered side by }
{
    if is_t(side) == is_t(by) {
        Clearing::By(by)
    } else {
        Clearing::Confirmed
    }
}

/// Returns how far a call is cleared after a packet of a side.
fn clearing_after(side: Side, kind: u8, clearing: Clearing) -> Clearing
    ensures { result ≡ clearing_after side kind clearing }
{
    if kind == CALL {
        return Clearing::Open;
    }
    match clearing {
        Clearing::Open if kind == CLEAR => Clearing::By(side),
        Clearing::By(by) if kind == CLEAR || kind == CONFIRMATION => answered(side, by),
        _ => clearing,
    }
}

/// Returns whether a call was cleared, and that was confirmed.
fn is_confirmed(clearing: Clearing) -> bool
    ensures { result ≡ is_confirmed clearing }
{
    matches!(clearing, Clearing::Confirmed)
}

/// Returns whether a packet may keep the channel from p1: one of the DTE after a confirmed clear, except a call request,
/// and a clear without a cause.
fn spoils(side: Side, head: &Head, clearing: Clearing) -> bool
    ensures { result ≡ spoils side head.now clearing }
{
    if head.kind == CLEAR && !head.is_long {
        return true;
    }
    is_confirmed(clearing) && is_t(side) && head.kind != CALL
}

impl Call {
    ghost use Rattle.xot_circuits.specs.Calls.{after_gap, after_packet, is_clear, new_call};

    /// Returns a call of which no packet was read. `is_called`: the recording began inside of the connection.
    pub fn new(is_called: bool) -> Call
        ensures { result ≡ new_call is_called }
    {
        Call {
            is_permanent: false,
            is_called,
            caller: None,
            clearing: Clearing::Open,
            is_spoiled: false,
        }
    }

    /// Reads a packet of a side.
    pub fn take(&mut self, side: Side, head: &Head)
        ensures { self.new ≡ after_packet side head.now self.old }
    {
        self.is_spoiled = self.is_spoiled || spoils(side, head, self.clearing);
        self.clearing = clearing_after(side, head.kind, self.clearing);
        if head.kind == CALL {
            self.is_called = true;
            self.caller = Some(self.caller.unwrap_or(side));
        }
    }

    /// Reads a gap: a packet that is missing may have left p1.
    pub fn lose(&mut self)
        ensures { self.new ≡ after_gap self.old }
    {
        self.is_spoiled = self.is_spoiled || is_confirmed(self.clearing);
    }

    /// Returns whether the call was cleared, and that was confirmed.
    pub fn is_confirmed(&self) -> bool
        ensures { result ≡ is_confirmed self.now.clearing }
    {
        is_confirmed(self.clearing)
    }

    /// Returns whether the channel is surely in p1: the call was cleared, that was confirmed, and nothing of the DTE came
    /// after it.
    pub fn is_clear(&self) -> bool
        ensures { result ≡ is_clear self.now }
    {
        is_confirmed(self.clearing) && !self.is_spoiled && !self.is_permanent
    }
}
