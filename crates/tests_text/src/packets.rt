//! The packets of many rows.

use crate::checks::holds_at;
use line_model::row::Row;
use line_model::state::Side;
use packet_decode::decode::decode;
use packet_decode::rows::decode_all;
use std::alloc::Global;
use std::process::Abort;
use std::test::Fail;
use std::thread::Threads;
use tests_devices::interfaces::PLAIN;

/// `count` rows, on each of six logical channels in turn, with each type octet in turn.
fn rows_of(alloc: Global, count: u32) -> Result<Vec<Row>, Fail> {
    let mut rows = Vec::new(alloc);
    for at in 0..count {
        let octets = [0x10, (at % 6) as u8, (at % 256) as u8, 0xaa];
        rows.push(Row {
            number: at + 1,
            side: Side::T,
            octets: octets.to_vec(alloc)?,
            gap: None,
        })?;
    }
    Ok(rows)
}

/// Each row has the packet that it has alone.
fn check_rows(rt: &(impl Abort + Threads + Sync), alloc: Global, count: u32) -> Result<(), Fail> {
    let rows = rows_of(alloc, count)?;
    let packets = decode_all(rt, alloc, &PLAIN, rows.as_slice())?;
    let mut same = packets.len() == rows.len();
    for (row, packet) in rows.iter().zip(&packets) {
        same = same && *packet == decode(&PLAIN, row.octets.as_slice());
    }
    holds_at(rt, same, u64::from(count));
    Ok(())
}

/// Of the last number of rows several threads have a part.
#[test]
fn many_rows_have_the_packets_of_each_of_them(rt: HostRuntime) -> Result<(), Fail> {
    for count in [0, 1, 7, 1000, 5000] {
        check_rows(&rt, rt.alloc(), count)?;
    }
    Ok(())
}
