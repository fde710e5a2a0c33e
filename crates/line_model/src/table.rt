//! The state tables (X.25 Annexes B and C; the codes and the judgement of the DCE are profile). The codes are numbers
//! here, as in the tables of the definitions; `crate::diagnostic` has their names.

ghost use Rattle.std.specs.Prelude.{◌≡◌, if◌then◌else◌};
ghost use Rattle.line_model.specs.channels.Tables.{action_t, action_n, code_of};

use crate::packet::Class;
use crate::state::StateName;

/// An entry of a state table: what a packet does in a state.
#[derive(Clone, Copy, PartialEq, Eq, Debug)]
pub enum Action {
    /// The state is entered, where the packet's format has no fault.
    Move(StateName),
    /// A packet of data transfer in d1, to be judged by its format, the windows and the sequences.
    Normal,
    /// A finding with this diagnostic code; one of side T has the DCE restart, clear or reset.
    Error(u8),
    /// The packet of a DTE that is ignored: no finding, no change.
    Discard,
    /// No finding, no change.
    Pass,
    /// The indication that was owed has come.
    Ends,
    /// The table of data transfer has the entry.
    Below,
    /// The packet goes to its channel.
    ToChannel,
}

/// Returns what a packet of the DTE does in a state (X.25 Tables C-2 to C-4); a pair that no table has passes.
pub fn table_t(state: StateName, class: Class) -> Action
    ensures { result ≡ action_t state class }
{
    use Action::{Below, Discard, Error, Move, Normal, Pass, ToChannel};
    use StateName::{D1, D2, D3, Dash, P1, P2, P3, P4, P5, P6, P7, R1, R2, R3};
    match class {
        Class::Short => Error(38),
        Class::WrongFormat => Error(40),
        Class::Unassigned | Class::Diagnostic => Error(36),
        Class::Registration => Pass,
        Class::Restart => match state {
            R1 => Move(R2),
            R2 => Discard,
            R3 => Move(R1),
            _ => Pass,
        },
        Class::RestartConfirm => match state {
            R1 => Error(17),
            R2 => Error(18),
            R3 => Move(R1),
            _ => Pass,
        },
        Class::Call => match state {
            R1 => ToChannel,
            R2 => Error(18),
            R3 | P7 | D3 => Discard,
            P1 => Move(P2),
            P2 => Error(21),
            P3 => Move(P5),
            P4 => Error(23),
            P5 => Error(24),
            P6 => Error(25),
            D1 | D2 => Error(35),
            Dash => Pass,
        },
        Class::Accepted => match state {
            R1 => ToChannel,
            R2 => Error(18),
            R3 | P7 | D3 => Discard,
            P1 => Error(20),
            P2 => Error(21),
            P3 => Move(P4),
            P4 => Error(23),
            P5 => Error(24),
            P6 => Error(25),
            D1 | D2 => Error(35),
            Dash => Pass,
        },
        Class::Clear => match state {
            R1 => ToChannel,
            R2 => Error(18),
            R3 | P6 | D3 => Discard,
            P1 | P2 | P3 | P4 | P5 => Move(P6),
            P7 => Move(P1),
            D1 | D2 => Error(35),
            Dash => Pass,
        },
        Class::ClearConfirm => match state {
            R1 => ToChannel,
            R2 => Error(18),
            R3 | D3 => Discard,
            P1 => Error(20),
            P2 => Error(21),
            P3 => Error(22),
            P4 => Error(23),
            P5 => Error(24),
            P6 => Error(25),
            P7 => Move(P1),
            D1 | D2 => Error(35),
            Dash => Pass,
        },
        Class::Data
        | Class::Interrupt
        | Class::InterruptConfirm
        | Class::Rr
        | Class::Rnr
        | Class::Rej
        | Class::Reset
        | Class::ResetConfirm => match state {
            R1 => ToChannel,
            R2 => Error(18),
            R3 | P7 => Discard,
            P1 => Error(20),
            P2 => Error(21),
            P3 => Error(22),
            P4 => Below,
            P5 => Error(24),
            P6 => Error(25),
            D1 => match class {
                Class::Reset => Move(D2),
                Class::ResetConfirm => Error(27),
                Class::Rej => Error(37),
                _ => Normal,
            },
            D2 => match class {
                Class::Reset => Discard,
                _ => Error(28),
            },
            D3 => match class {
                Class::Reset | Class::ResetConfirm => Move(D1),
                _ => Discard,
            },
            Dash => Pass,
        },
        Class::TwoOctets | Class::Undefined | Class::RestartHere => match state {
            R1 => ToChannel,
            R3 | P7 | D3 => Discard,
            R2 | P1 | P2 | P3 | P5 | P6 | D1 | D2 => Error(own_code(class)),
            P4 => Below,
            Dash => Pass,
        },
    }
}

/// Returns the code that a class alone gives, 0 where it has none.
fn own_code(class: Class) -> u8
    ensures { result ≡ code_of class }
{
    match class {
        Class::Short | Class::TwoOctets => 38,
        Class::WrongFormat => 40,
        Class::Unassigned => 36,
        Class::Undefined => 33,
        Class::RestartHere => 41,
        _ => 0,
    }
}

/// Returns what a packet of the DCE does in a state.
pub fn table_n(state: StateName, owed: bool, class: Class) -> Action
    ensures { result ≡ action_n state owed class }
{
    use Action::{Below, Ends, Error, Move, Normal, Pass, ToChannel};
    use StateName::{D1, D2, D3, Dash, P1, P2, P3, P4, P5, P6, P7, R1, R2, R3};
    match class {
        Class::Short => Error(38),
        Class::WrongFormat => Error(40),
        Class::Unassigned => Error(36),
        Class::Diagnostic | Class::Registration => Pass,
        Class::Restart => match state {
            R1 => Move(R3),
            R2 => Move(R1),
            R3 => Ends,
            _ => Pass,
        },
        Class::RestartConfirm => match state {
            R1 => Error(17),
            R2 => Move(R1),
            R3 => owed_or(owed, 19),
            _ => Pass,
        },
        Class::Call => match state {
            R1 => ToChannel,
            P1 => Move(P3),
            P2 => Move(P5),
            P3 => Error(22),
            P4 => Error(23),
            P5 => Error(24),
            D1 => Error(35),
            R2 | P6 | D2 | Dash => Pass,
            R3 => owed_or(owed, 19),
            P7 => owed_or(owed, 26),
            D3 => owed_or(owed, 29),
        },
        Class::Accepted => match state {
            R1 => ToChannel,
            P1 => Error(20),
            P2 | P5 => Move(P4),
            P3 => Error(22),
            P4 => Error(23),
            D1 => Error(35),
            R2 | P6 | D2 | Dash => Pass,
            R3 => owed_or(owed, 19),
            P7 => owed_or(owed, 26),
            D3 => owed_or(owed, 29),
        },
        Class::Clear => match state {
            R1 => ToChannel,
            P1 | P2 | P3 | P4 | P5 => Move(P7),
            P6 => Move(P1),
            P7 => Ends,
            D1 => Error(35),
            R2 | D2 | Dash => Pass,
            R3 => owed_or(owed, 19),
            D3 => owed_or(owed, 29),
        },
        Class::ClearConfirm => match state {
            R1 => ToChannel,
            P1 => Error(20),
            P2 => Error(21),
            P3 => Error(22),
            P4 => Error(23),
            P5 => Error(24),
            P6 => Move(P1),
            D1 => Error(35),
            R2 | D2 | Dash => Pass,
            R3 => owed_or(owed, 19),
            P7 => owed_or(owed, 26),
            D3 => owed_or(owed, 29),
        },
        Class::Data
        | Class::Interrupt
        | Class::InterruptConfirm
        | Class::Rr
        | Class::Rnr
        | Class::Rej
        | Class::Reset
        | Class::ResetConfirm => match state {
            R1 => ToChannel,
            P1 => Error(20),
            P2 => Error(21),
            P3 => Error(22),
            P4 => Below,
            P5 => Error(24),
            D1 => match class {
                Class::Reset => Move(D3),
                Class::ResetConfirm => Error(27),
                Class::Rej => Error(37),
                _ => Normal,
            },
            D2 => match class {
                Class::Reset | Class::ResetConfirm => Move(D1),
                _ => Pass,
            },
            D3 => match class {
                Class::Reset => Ends,
                _ => owed_or(owed, 29),
            },
            R2 | P6 | Dash => Pass,
            R3 => owed_or(owed, 19),
            P7 => owed_or(owed, 26),
        },
        Class::TwoOctets | Class::Undefined | Class::RestartHere => match state {
            R1 => ToChannel,
            P1 | P2 | P3 | P5 | D1 => Error(own_code(class)),
            P4 => Below,
            R2 | P6 | D2 | Dash => Pass,
            R3 => owed_or(owed, 19),
            P7 => owed_or(owed, 26),
            D3 => owed_or(owed, 29),
        },
    }
}

/// Returns an error, or that the packet passes while the indication is owed.
fn owed_or(owed: bool, code: u8) -> Action
    ensures { result ≡ (if owed then Action.Pass else Action.Error code) }
{
    if owed {
        Action::Pass
    } else {
        Action::Error(code)
    }
}
