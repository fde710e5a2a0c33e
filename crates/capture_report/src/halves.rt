//! What was recorded of one side alone.

ghost use Rattle.std.specs.Prelude.{◌≡◌, IfOk};
ghost use Rattle.capture_report.specs.Halves.{alone_number, alone_on, halves_of, is_of};

use crate::circuits::SeenCircuit;
use crate::header::is_same;
use crate::line_sides::LineHalf;
use line_model::state::Side;
use std::alloc::{AllocError, Global};
use std::marker::Model;

/// Connections of which one side alone was recorded, in the order of their first packets.
#[derive(Drop)]
pub(crate) struct HalfConnections {
    /// The numbers of those of the DTE.
    pub dte: Vec<u64>,
    /// The numbers of those of the DCE.
    pub dce: Vec<u64>,
}

impl Model for HalfConnections {
    ghost use Rattle.capture_report.specs.HalfNumbers.{HalfNumbers};

    ghost Value = { HalfNumbers };

    ghost view = { λ h. record { dte = h.dte.items; dce = h.dce.items } };
}

/// What was recorded of one side alone.
#[derive(Drop)]
pub(crate) enum Halves {
    /// Of a line: all of it, or nothing.
    Line(Option<LineHalf>),
    /// Of the connections of XOT.
    Connections(HalfConnections),
}

impl Halves {
    /// Returns whether there is anything.
    pub(crate) fn are_some(&self) -> bool {
        match self {
            Halves::Line(half) => half.is_some(),
            Halves::Connections(halves) => !halves.dte.is_empty() || !halves.dce.is_empty(),
        }
    }
}

/// Returns whether a side is the one that alone was recorded.
fn is_of(side: Side, alone: Option<Side>) -> bool
    ensures { result ≡ is_of side alone }
{
    match alone {
        Some(alone) => is_same(side, alone),
        None => false,
    }
}

/// Returns the number of a connection of which a side alone was recorded.
fn alone_number(side: Side, circuit: &SeenCircuit) -> Option<u64>
    ensures { result ≡ alone_number side circuit.now }
{
    if is_of(side, circuit.alone) {
        Some(circuit.connection)
    } else {
        None
    }
}

/// Returns the numbers of connections of which a side alone was recorded.
fn alone_on(alloc: Global, side: Side, circuits: &[SeenCircuit]) -> Result<Vec<u64>, AllocError>
    ensures { IfOk result (λ numbers. numbers.items ≡ alone_on side circuits.now) }
{
    let mut numbers = Vec::new(alloc);
    for circuit in circuits {
        if let Some(number) = alone_number(side, circuit) {
            numbers.push(number)?;
        }
    }
    Ok(numbers)
}

impl HalfConnections {
    /// Returns those of circuits. Fails only when memory is refused.
    pub(crate) fn of(alloc: Global, circuits: &[SeenCircuit]) -> Result<HalfConnections, AllocError>
        ensures { IfOk result (λ halves. halves ≡ halves_of circuits.now) }
    {
        Ok(HalfConnections {
            dte: alone_on(alloc, Side::T, circuits)?,
            dce: alone_on(alloc, Side::N, circuits)?,
        })
    }
}
