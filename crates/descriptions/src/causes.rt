//! The causes of packets that clear, reset or restart, and their names (X.25 clauses 5.2.3, 5.4.3 and 5.5.1).

use crate::call_columns::Named;
use crate::diagnostics::diagnostic;
use explanations::lookup::{clearing_cause_row, resetting_cause_row, restarting_cause_row};

/// The cause and the diagnostic code of a packet, each where it has one.
#[derive(Clone, Copy)]
pub struct Causes {
    /// The cause.
    pub cause: Option<u8>,
    /// The diagnostic code.
    pub diagnostic: Option<u8>,
}

impl Causes {
    /// Returns a value without cause and code.
    pub fn none() -> Self {
        Causes {
            cause: None,
            diagnostic: None,
        }
    }

    /// Returns those in the octets of a clear, reset or restart packet.
    pub fn of(octets: &[u8]) -> Self {
        Causes {
            cause: octets.get(3).copied(),
            diagnostic: octets.get(4).copied(),
        }
    }

    /// Returns the cause with its name.
    pub fn named_cause(&self, table: CauseTable) -> Option<Named<'static>> {
        let value = self.cause?;
        let name = table.name(value).as_bytes();
        Some(Named { value, name })
    }
}

/// Returns a diagnostic code with its name.
pub fn named_diagnostic(code: Option<u8>) -> Option<Named<'static>> {
    let value = code?;
    let name = diagnostic(value).as_bytes();
    Some(Named { value, name })
}

/// The table that names the causes of a packet.
#[derive(Clone, Copy)]
pub enum CauseTable {
    /// Of clear requests and indications (X.25 Table 5-7).
    Clearing,
    /// Of reset requests and indications (X.25 Table 5-8).
    Resetting,
    /// Of restart requests and indications (X.25 Table 5-9).
    Restarting,
}

impl CauseTable {
    /// Returns the name of a cause; those from 128 on have none.
    pub fn name(self, cause: u8) -> &'static str {
        let row = match self {
            CauseTable::Clearing => clearing_cause_row(cause),
            CauseTable::Resetting => resetting_cause_row(cause),
            CauseTable::Restarting => restarting_cause_row(cause),
        };
        match row {
            Some(row) => row.name,
            None if cause >= 128 => "DTE originated",
            None => "no cause of the Recommendation",
        }
    }
}
