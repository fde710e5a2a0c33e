//! A whole trace that is cut into pieces.

ghost use Rattle.std.specs.Prelude.{◌≡◌, ◌≤◌, ◌-◌, ◌∷◌, ◌^◌, All, IfErr, IfOk, length, map, sum_by};
ghost use Rattle.std.specs.List.Sorted.{IsStrictlyIncreasing};
ghost use Rattle.line_model.specs.basics.Bounds.{AreRows};
ghost use Rattle.line_model.specs.observer.Report.{gaps_among, gaps_of};
ghost use Rattle.line_model.specs.packets.Says.{items_of};
ghost use Rattle.line_model.specs.pieces.Plans.{plan, level_findings};
ghost use Rattle.line_model.specs.declared.fault.Fault.TheVariants.{Memory};

use crate::cutter::{Cut, Cutter};
use line_model::fault::Fault;
use line_model::interface::Interface;
use line_model::row::Row;
use packet_decode::rows::decode_all;
use std::alloc::Allocator;
use std::thread::Threads;

/// Cuts the rows of a trace into pieces by epoch and logical channel (profile). The pieces have what the rows say. The
/// threads of all processors decode the rows where there are 2,048 or more. Fails only when memory is refused.
pub fn cut<A: Allocator + Copy + Send + Sync>(
    rt: &(impl Threads + Sync),
    interface: &Interface,
    rows: Vec<Row<A>, A>,
) -> Result<Cut<A>, Fault>
    requires lawful { AreRows interface.now rows.items }
    requires rising { IsStrictlyIncreasing (0 ∷ map (λ r. r.number) rows.items) }
    requires numbers { All (λ r. r.number ≤ 999999999) rows.items }
    requires octets { sum_by (λ r. length r.octets) rows.items ≤ 2 ^ 31 }
    ensures pieces { IfOk result (λ cut. cut.pieces.items
        ≡ plan interface.now (items_of interface.now rows.items)) }
    ensures interface_findings { IfOk result (λ cut. cut.interface_findings.items
        ≡ level_findings interface.now (items_of interface.now rows.items)) }
    ensures packets { IfOk result (λ cut. cut.packets
        ≡ length rows.items - gaps_of (items_of interface.now rows.items)) }
    ensures gaps { IfOk result (λ cut. cut.gaps
        ≡ gaps_among interface.now.gaps (items_of interface.now rows.items)) }
    ensures few { IfOk result (λ cut. length cut.pieces.items ≤ 999999999) }
    ensures of_rows { IfOk result (λ cut. length cut.pieces.items ≤ length rows.items) }
    ensures refused { IfErr result (λ fault. fault ≡ Memory) }
{
    let alloc = *rows.allocator();
    let packets = decode_all(rt, alloc, interface, rows.as_slice())?;
    let mut cutter = Cutter::new(alloc, interface);
    let mut pieces = Vec::new(alloc);
    for (row, packet) in rows.into_iter().zip(packets) {
        cutter.push(&row.item(packet), &mut pieces)?;
    }
    let Cut {
        pieces: mut open,
        interface_findings,
        packets,
        gaps,
    } = cutter.end()?;
    pieces.append(&mut open)?;
    Ok(Cut {
        pieces,
        interface_findings,
        packets,
        gaps,
    })
}
