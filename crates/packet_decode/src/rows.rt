//! The packets of many rows.

ghost use Rattle.std.specs.Prelude.{◌≡◌, IfOk, map};
ghost use Rattle.line_model.specs.packets.Classes.{packet_of};

use crate::decode::decode;
use line_model::interface::Interface;
use line_model::packet::Packet;
use line_model::row::Row;
use rayon::prelude::*;
use std::alloc::{AllocError, Allocator};
use std::thread::Threads;

/// Returns the packets of rows, in order. The threads of all processors share 2,048 rows or more; fewer are decoded by
/// the caller's thread. Fails only when memory is refused.
pub fn decode_all<A: Allocator + Copy + Send + Sync>(
    rt: &(impl Threads + Sync),
    alloc: A,
    interface: &Interface,
    rows: &[Row<A>],
) -> Result<Vec<Packet, A>, AllocError>
    ensures packets { IfOk result (λ packets. packets.items
        ≡ map (λ r. packet_of interface.now r.octets) rows.now) }
{
    rows.par_iter()
        .map(
            |row: &Row<A>| -> Packet
                ensures { result ≡ packet_of interface.entry.now row.now.octets }
            { decode(interface, row.octets.as_slice()) },
        )
        .collect(rt, alloc)
}
