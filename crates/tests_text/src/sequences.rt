//! Packet sequences of one side, with Q 0 and with Q 1.

use data_transfer::assembler::Assembler;
use data_transfer::sequence::{DataField, Put};
use line_model::state::Side;
use std::test::Fail;

/// A data packet with D 0 to a side of packet size 4.
fn field(qualified: bool, more: bool, octets: &[u8]) -> DataField<'_> {
    DataField {
        qualified,
        more,
        delivery: false,
        octets,
    }
}

#[test]
fn packets_are_joined_by_their_octets(rt: HostRuntime) -> Result<(), Fail> {
    for qualified in [false, true] {
        let mut assembler = Assembler::new(rt.alloc(), 4, 16);
        let first = assembler.put(Side::T, &field(qualified, true, b"abcd"))?;
        assert!(rt; matches!(&first, Put::Going));
        let last = assembler.put(Side::T, &field(qualified, false, b"e"))?;
        assert!(rt;
            matches!(&last, Put::Complete(all) if all.octets.as_slice() == b"abcde".as_slice())
        );
    }
    Ok(())
}

/// A packet of the full size with M 1 begins a sequence. Then a packet with Q 1 is of another one.
#[test]
fn packets_are_joined_by_their_length(rt: HostRuntime) -> Result<(), Fail> {
    for (more, length, begins) in [(true, 4, true), (true, 3, false), (false, 4, false)] {
        let mut assembler = Assembler::new(rt.alloc(), 4, 16);
        assert!(rt; assembler.is_alike(Side::T, false));
        assembler.put_unqualified(Side::T, more, false, length);
        let put = assembler.put(Side::T, &field(true, false, b"e"))?;
        assert!(rt; matches!(&put, Put::Mixed) == begins);
    }
    Ok(())
}
