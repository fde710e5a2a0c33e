//! What one line says.

use line_model::fault::Kind;
use line_model::interface::Interface;
use std::alloc::{AllocError, AllocFailed};

/// What a line without a fault says.
#[derive(Clone, Copy)]
pub enum Content {
    /// A comment.
    Comment,
    /// The header line.
    Header(Interface),
    /// A row, which was put into the caller's.
    Packet,
}

/// Why a line was not read.
#[derive(Clone, Copy)]
pub enum LineFault {
    /// Memory was refused.
    Memory,
    /// The line is faulty.
    Broken(Kind),
}

impl From<AllocError> for LineFault {
    ghost use Rattle.std.specs.Prelude.{◌≡◌};
    ghost use Rattle.trace_text.specs.declared.content.LineFault.TheVariants.{Memory};

    ghost from_gives = { λ _ f. f ≡ Memory };

    fn from(_error: AllocError) -> LineFault {
        LineFault::Memory
    }
}

impl<T: Drop> From<AllocFailed<T>> for LineFault {
    ghost use Rattle.std.specs.Prelude.{◌≡◌};
    ghost use Rattle.trace_text.specs.declared.content.LineFault.TheVariants.{Memory};

    ghost from_gives = { λ _ f. f ≡ Memory };

    fn from(_error: AllocFailed<T>) -> LineFault {
        LineFault::Memory
    }
}
