//! Judges a list of packets.

ghost use Rattle.live_report.specs.Lives.{IsFed};

use channel_run::run::Channel;
use line_model::device::VecSink;
use line_model::fault::Fault;
use line_model::state::Side;
use live_report::live::Live;
use live_report::row_text::put_row;
use live_report::uncounted::Uncounted;
use std::alloc::Allocator;

/// A packet: the side that sent it, and its octets.
#[derive(Clone, Copy)]
pub struct SentPacket<'a> {
    pub side: Side,
    pub octets: &'a [u8],
}

/// Feeds a packet to an observer as the row of this number. `line` is scratch room. Fails with the first faulty line,
/// or when memory is refused.
pub fn take_packet<A: Allocator + Copy, C: Channel<A>>(
    live: &mut Live<A, C>,
    number: u32,
    packet: SentPacket<'_>,
    line: &mut Vec<u8, A>,
) -> Result<(), Fault>
    requires { IsFed C.interface_of C.number_of C.represents live.old }
    ensures { IsFed C.interface_of C.number_of C.represents live.new }
{
    if live.packet(number, packet.side, packet.octets)? {
        return Ok(());
    }
    put_row(line, number, packet.side, packet.octets)?;
    live.feed(line.as_slice())
}

/// Returns the report of packets on an interface. `header` is the header line of a trace with its line feed, and the
/// packets are numbered from 1. Fails with the first faulty line, or when memory is refused.
pub fn judge<A: Allocator + Copy, C: Channel<A>>(
    alloc: A,
    header: &[u8],
    packets: &[SentPacket<'_>],
) -> Result<VecSink<A>, Fault> {
    let mut live = Live::<A, C>::new(alloc);
    let mut line = Vec::new(alloc);
    let mut number: u32 = 0;
    live.feed(header)?;
    for packet in packets {
        number = number.saturating_add(1);
        take_packet(&mut live, number, *packet, &mut line)?;
    }
    let mut report = VecSink::new(Vec::new(alloc));
    live.end(&mut report, &mut Uncounted::none())?;
    Ok(report)
}
