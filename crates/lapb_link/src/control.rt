//! The address and the control field of a frame.

ghost use Rattle.std.specs.Prelude.{◌≡◌, ◌<◌, IfSome};
ghost use Rattle.std.specs.Option.{option_map};
ghost use Rattle.lapb_link.specs.Controls.{basic_control, command_side, control_of, extended_control, send_of, supervisory_of, unnumbered_of};

use crate::modulus::Modulus;
use line_model::state::Side;

/// A supervisory frame (X.25 clause 2.3.4).
#[derive(Clone, Copy, PartialEq, Eq, Debug)]
pub enum Supervisory {
    /// Receive ready.
    Rr,
    /// Receive not ready.
    Rnr,
    /// Reject.
    Rej,
    /// Selective reject.
    Srej,
}

/// The control field of a supervisory frame.
#[derive(Clone, Copy, PartialEq, Eq, Debug)]
pub struct SupervisoryField {
    /// Which frame it is.
    pub kind: Supervisory,
    /// N(R).
    pub receive: u8,
    /// Whether the P/F bit is 1.
    pub last: bool,
}

/// An unnumbered frame (X.25 clause 2.3.4).
#[derive(Clone, Copy, PartialEq, Eq, Debug)]
pub enum Unnumbered {
    /// Set asynchronous balanced mode.
    Sabm,
    /// Set asynchronous balanced mode extended.
    Sabme,
    /// Disconnect.
    Disc,
    /// Unnumbered acknowledgement.
    Ua,
    /// Disconnected mode.
    Dm,
    /// Frame reject.
    Frmr,
}

impl Unnumbered {
    ghost use Rattle.lapb_link.specs.Controls.{is_command, is_set_up, modulus_after};

    /// Returns whether it is a command.
    pub fn is_command(self) -> bool
        ensures { result ≡ is_command self }
    {
        matches!(
            self,
            Unnumbered::Sabm | Unnumbered::Sabme | Unnumbered::Disc
        )
    }

    /// Returns whether the numbers begin anew with it (X.25 clause 2.4.4.1).
    pub fn is_set_up(self) -> bool
        ensures { result ≡ is_set_up self }
    {
        matches!(self, Unnumbered::Sabm | Unnumbered::Sabme | Unnumbered::Ua)
    }

    /// Returns the modulus of a link after it.
    pub fn modulus_after(self, modulus: Modulus) -> Modulus
        ensures { result ≡ modulus_after self modulus }
    {
        match self {
            Unnumbered::Sabm => Modulus::Basic,
            Unnumbered::Sabme => Modulus::Extended,
            _ => modulus,
        }
    }
}

/// A control field (X.25 clause 2.3.2).
#[derive(Clone, Copy, PartialEq, Eq, Debug)]
pub enum Control {
    /// N(S) and N(R) of an I frame.
    Information(u8, u8),
    /// A supervisory frame.
    Supervisory(SupervisoryField),
    /// An unnumbered frame, where it is one of X.25.
    Unnumbered(Option<Unnumbered>),
}

/// Returns the side whose commands have an address (X.25 clause 2.4.2).
pub fn command_side(address: u8) -> Option<Side>
    ensures { result ≡ command_side address }
{
    match address {
        1 => Some(Side::T),
        3 => Some(Side::N),
        _ => None,
    }
}

/// Returns which supervisory frame has a control field.
fn supervisory_of(control: u8) -> Supervisory
    ensures { result ≡ supervisory_of control }
{
    match control / 4 % 4 {
        0 => Supervisory::Rr,
        1 => Supervisory::Rnr,
        2 => Supervisory::Rej,
        _ => Supervisory::Srej,
    }
}

/// Returns which unnumbered frame has a control field.
pub fn unnumbered_of(control: u8) -> Option<Unnumbered>
    ensures { result ≡ unnumbered_of control }
{
    match control % 16 + control / 32 * 32 {
        0x2F => Some(Unnumbered::Sabm),
        0x6F => Some(Unnumbered::Sabme),
        0x43 => Some(Unnumbered::Disc),
        0x63 => Some(Unnumbered::Ua),
        0x0F => Some(Unnumbered::Dm),
        0x87 => Some(Unnumbered::Frmr),
        _ => None,
    }
}

/// Reads a control field of one octet.
fn basic_control(control: u8) -> Control
    ensures control { result ≡ basic_control control }
    ensures below { send_of result < 128 }
{
    if control % 2 == 0 {
        return Control::Information(control / 2 % 8, control / 32);
    }
    if control % 4 == 1 {
        return Control::Supervisory(SupervisoryField {
            kind: supervisory_of(control),
            receive: control / 32,
            last: control / 16 % 2 == 1,
        });
    }
    Control::Unnumbered(unnumbered_of(control))
}

/// Reads a control field of two octets, modulo 128.
fn extended_control(first: u8, second: u8) -> Control
    ensures control { result ≡ extended_control first second }
    ensures below { send_of result < 128 }
{
    if first % 2 == 0 {
        return Control::Information(first / 2, second / 2);
    }
    Control::Supervisory(SupervisoryField {
        kind: supervisory_of(first),
        receive: second / 2,
        last: second % 2 == 1,
    })
}

/// Reads the control field of a frame, and returns the octets after it; `None` where the frame ends before.
pub fn read_control(modulus: Modulus, octets: &[u8]) -> Option<(Control, &[u8])>
    ensures control { option_map (λ r. (r.0, r.1.now)) result ≡ control_of modulus octets.now }
    ensures below { IfSome result (λ r. send_of r.0 < 128) }
{
    match (modulus, octets) {
        (Modulus::Basic, [_, control, rest @ ..]) => Some((basic_control(*control), rest)),
        (Modulus::Extended, [_, control, rest @ ..]) if control % 4 == 3 => {
            Some((Control::Unnumbered(unnumbered_of(*control)), rest))
        }
        (Modulus::Extended, [_, first, second, rest @ ..]) => {
            Some((extended_control(*first, *second), rest))
        }
        _ => None,
    }
}
