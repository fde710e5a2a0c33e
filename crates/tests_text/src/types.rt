//! What no contract covers: the texts of faults, and values from outside.

use crate::checks::holds_at;
use line_model::fault::{Fault, Kind};
use std::alloc::Global;

mod items;

/// Faults, their numbers and their texts.
const FAULTS: [(Fault, u8, &str); 10] = [
    (Fault::Memory, 1, "out of memory"),
    (Fault::Trace(3, Kind::Number), 2, "line 3: kind 25"),
    (Fault::Trace(1, Kind::HeaderMissing), 2, "line 1: kind 21"),
    (Fault::Trace(9, Kind::TextLarge), 2, "line 9: kind 29"),
    (Fault::Read, 3, "read failed"),
    (Fault::Write, 4, "write failed"),
    (Fault::Start, 5, "thread refused"),
    (Fault::Double(0), 6, "piece 0 posted twice"),
    (Fault::UnknownPiece(12), 7, "piece 12 unknown"),
    (Fault::Missing(3), 8, "piece 3 missing"),
];

/// Whether a fault is written so.
fn says(alloc: Global, fault: &Fault, text: &str) -> bool {
    match format!(in alloc; "{fault}") {
        Ok(said) => said.as_str() == text,
        Err(_) => false,
    }
}

#[test]
fn faults_have_their_texts_and_numbers(rt: HostRuntime) {
    for (fault, number, text) in &FAULTS {
        let right = says(rt.alloc(), fault, text) && fault.number() == *number;
        holds_at(&rt, right, u64::from(*number));
    }
}
