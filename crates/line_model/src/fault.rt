//! Why a call failed, and which rule a line of the trace breaks.

use std::alloc::{AllocError, AllocFailed};
use thiserror::Error;

/// Which rule a line of the trace breaks (profile).
#[derive(Clone, Copy, Debug, PartialEq, Eq)]
pub enum Kind {
    /// The text has no line that is not a comment.
    HeaderMissing = 21,
    /// The header has none of the forms.
    HeaderForm = 22,
    /// A number of the header is out of its range.
    HeaderRange = 23,
    /// Not three non-empty words with single spaces between them.
    LineForm = 24,
    /// The row's number: its form, or not above that of the row before.
    Number = 25,
    /// The row's side is neither `T` nor `N`, nor that of a gap, `?`, where gaps are rows.
    Side = 26,
    /// The row's octets: no even number of hex digits, or more than 4,200 octets; or a gap's channel.
    Hex = 27,
    /// More than 8,500 bytes without the LF.
    LineLong = 28,
    /// The line holds a byte past the first 2^30 of the text.
    TextLarge = 29,
}

impl Kind {
    ghost use Rattle.std.specs.Prelude.{◌≡◌};
    ghost use Rattle.line_model.specs.basics.Faults.{kind_number};

    /// Returns the number of the rule, 21 to 29.
    pub fn number(self) -> u8
        ensures { result ≡ kind_number self }
    {
        self as u8
    }
}

/// Why a call failed. Faults are numbered 1 to 8 in this order.
#[derive(Clone, Copy, Debug, PartialEq, Eq, Error)]
pub enum Fault {
    /// A growth of memory was refused.
    #[error("out of memory")]
    Memory,
    /// The trace is refused at this line, counted from 1, by this rule.
    #[error("line {0}: kind {kind}", kind = .1.number())]
    Trace(u32, Kind),
    /// The source failed.
    #[error("read failed")]
    Read,
    /// The sink failed.
    #[error("write failed")]
    Write,
    /// A thread could not be started.
    #[error("thread refused")]
    Start,
    /// A report with this id was posted before.
    #[error("piece {0} posted twice")]
    Double(u32),
    /// No piece has this id.
    #[error("piece {0} unknown")]
    UnknownPiece(u32),
    /// No report has this id.
    #[error("piece {0} missing")]
    Missing(u32),
}

impl Fault {
    ghost use Rattle.std.specs.Prelude.{◌≡◌};
    ghost use Rattle.line_model.specs.basics.Faults.{fault_number};

    /// Returns the number of the fault, 1 to 8.
    pub fn number(&self) -> u8
        ensures { result ≡ fault_number self.now }
    {
        match self {
            Fault::Memory => 1,
            Fault::Trace(_, _) => 2,
            Fault::Read => 3,
            Fault::Write => 4,
            Fault::Start => 5,
            Fault::Double(_) => 6,
            Fault::UnknownPiece(_) => 7,
            Fault::Missing(_) => 8,
        }
    }
}

impl From<AllocError> for Fault {
    ghost use Rattle.std.specs.Prelude.{◌≡◌};
    ghost use Rattle.line_model.specs.declared.fault.Fault.TheVariants.{Memory};

    ghost from_gives = { λ _ f. f ≡ Memory };

    fn from(_error: AllocError) -> Fault {
        Fault::Memory
    }
}

impl<T: Drop> From<AllocFailed<T>> for Fault {
    ghost use Rattle.std.specs.Prelude.{◌≡◌};
    ghost use Rattle.line_model.specs.declared.fault.Fault.TheVariants.{Memory};

    ghost from_gives = { λ _ f. f ≡ Memory };

    fn from(_error: AllocFailed<T>) -> Fault {
        Fault::Memory
    }
}
