//! A finding as numbers.

ghost use Rattle.std.specs.Prelude.{◌≡◌};
ghost use Rattle.x25scan_c.specs.Found.{code_number, numbers_of, state_letter, state_number};

use line_model::finding::{Code, Finding, Xcode};
use line_model::state::{Side, StateName};

/// A finding, as C reads it.
#[repr(C)]
#[derive(Drop)]
pub struct FindingNumbers {
    /// The number of the packet.
    pub packet: u32,
    /// The diagnostic code, or 257 to 260 for X1 to X4 and 261 for XL.
    pub code: u32,
    /// `T` or `N`.
    pub side: u8,
    /// `r`, `p` or `d`, or `-`.
    pub state: u8,
    /// The number of the state, or 0.
    pub number: u8,
}

/// The letter and the number of a state.
fn state_numbers(state: StateName) -> (u8, u8)
    ensures { result ≡ (state_letter state, state_number state) }
{
    match state {
        StateName::Dash => (b'-', 0),
        StateName::R1 => (b'r', 1),
        StateName::R2 => (b'r', 2),
        StateName::R3 => (b'r', 3),
        StateName::P1 => (b'p', 1),
        StateName::P2 => (b'p', 2),
        StateName::P3 => (b'p', 3),
        StateName::P4 => (b'p', 4),
        StateName::P5 => (b'p', 5),
        StateName::P6 => (b'p', 6),
        StateName::P7 => (b'p', 7),
        StateName::D1 => (b'd', 1),
        StateName::D2 => (b'd', 2),
        StateName::D3 => (b'd', 3),
    }
}

/// The number of a code.
fn code_number(code: Code) -> u32
    ensures { result ≡ code_number code }
{
    match code {
        Code::Number(number) => u32::from(number),
        Code::Pad(Xcode::X1) => 257,
        Code::Pad(Xcode::X2) => 258,
        Code::Pad(Xcode::X3) => 259,
        Code::Pad(Xcode::X4) => 260,
        Code::Pad(Xcode::XL) => 261,
    }
}

impl FindingNumbers {
    /// Returns the numbers of a finding.
    pub(crate) fn of(finding: &Finding) -> FindingNumbers
        ensures { result ≡ numbers_of finding.now }
    {
        let (state, number) = state_numbers(finding.state);
        FindingNumbers {
            packet: finding.packet,
            code: code_number(finding.code),
            side: match finding.side {
                Side::T => b'T',
                Side::N => b'N',
            },
            state,
            number,
        }
    }
}
