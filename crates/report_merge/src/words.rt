//! The words of a report.

ghost use Rattle.std.specs.Prelude.{◌≡◌};
ghost use Rattle.line_model.specs.observer.Report.{side_word, state_word, pad_word, direction_word, how_word};

use line_model::event::How;
use line_model::finding::Xcode;
use line_model::state::{Side, StateName};

/// Returns the word of a side.
pub fn side_word(side: Side) -> &'static [u8]
    ensures { result.now ≡ side_word side }
{
    match side {
        Side::T => b"T",
        Side::N => b"N",
    }
}

/// Returns the word of a state.
pub fn state_word(state: StateName) -> &'static [u8]
    ensures { result.now ≡ state_word state }
{
    match state {
        StateName::Dash => b"-",
        StateName::R1 => b"r1",
        StateName::R2 => b"r2",
        StateName::R3 => b"r3",
        StateName::P1 => b"p1",
        StateName::P2 => b"p2",
        StateName::P3 => b"p3",
        StateName::P4 => b"p4",
        StateName::P5 => b"p5",
        StateName::P6 => b"p6",
        StateName::P7 => b"p7",
        StateName::D1 => b"d1",
        StateName::D2 => b"d2",
        StateName::D3 => b"d3",
    }
}

/// Returns the word of a code of a PAD message.
pub fn pad_word(code: Xcode) -> &'static [u8]
    ensures { result.now ≡ pad_word code }
{
    match code {
        Xcode::X1 => b"X1",
        Xcode::X2 => b"X2",
        Xcode::X3 => b"X3",
        Xcode::X4 => b"X4",
        Xcode::XL => b"XL",
    }
}

/// Returns the word of a call's direction.
pub fn direction_word(out: bool) -> &'static [u8]
    ensures { result.now ≡ direction_word out }
{
    if out { b"out" } else { b"in" }
}

/// Returns the word of how a call ended.
pub fn how_word(how: Option<How>) -> &'static [u8]
    ensures { result.now ≡ how_word how }
{
    match how {
        None => b"open",
        Some(How::T) => b"T",
        Some(How::N) => b"N",
        Some(How::Collision) => b"collision",
        Some(How::Restart) => b"restart",
        Some(How::Gap) => b"gap",
    }
}
