//! Steps of a channel, and runs of a piece, whose growths are refused.

ghost use Rattle.std.specs.Prelude.{◌≡◌, OnOk};
ghost use Rattle.line_model.specs.basics.Bounds.{IsItem};
ghost use Rattle.line_model.specs.channels.Gaps as gaps;

use channel_machine::channel::{PackedChannel, PlainChannel};
use channel_run::run::{Channel, run_piece};
use line_model::event::Event;
use line_model::fault::Fault;
use line_model::gap::EpochStart;
use line_model::items::ItemRef;
use line_model::piece::Piece;
use line_model::row::Row;
use line_model::state::{ChannelState, DState, Side};
use packet_decode::decode::decode;
use restart_epochs::cutter::Cutter;
use std::alloc::{Allocator, Global};
use std::process::Abort;
use std::test::Fail;
use tests_devices::interfaces::PLAIN;
use tests_devices::scarce::{Scarce, refuse_each};

type Heap<'a> = &'a Scarce<Global>;

/// A PAD call, messages with cut pairs, and a restart.
const ROWS: [(Side, &[u8]); 8] = [
    (Side::T, b"\x10\x01\x0b\0\0\x01\0\0\0"),
    (Side::N, b"\x10\x01\x0f"),
    (Side::N, b"\x90\x01\0\x02\x02"),
    (Side::N, b"\x90\x01\x02\x03\x08\x02"),
    (Side::T, b"\x10\x01\x41"),
    (Side::N, b"\x90\x01\x04\x03"),
    (Side::N, b"\x90\x01\x06\x02\x02\x01\0\0\x0b\x05"),
    (Side::T, b"\x10\0\xfb\0\0"),
];

/// Pushes the next row.
fn push<A: Allocator + Copy>(
    cutter: &mut Cutter<A>,
    side: Side,
    octets: &[u8],
    out: &mut Vec<Piece<A>, A>,
) -> Result<(), Fail> {
    let last = cutter.last();
    if last >= 1000 || cutter.octets() >= 1000 || octets.len() >= 1000 {
        return Err("more rows than a test has")?;
    }
    let row = Row {
        number: last + 1,
        side,
        octets: octets.to_vec(*out.allocator())?,
        gap: None,
    };
    let packet = decode(&cutter.interface(), row.octets.as_slice());
    Ok(cutter.push(&row.item(packet), out)?)
}

/// The piece of the call, which the restart ends.
fn pad_call<A: Allocator + Copy>(alloc: A) -> Result<Piece<A>, Fail> {
    let mut cutter = Cutter::new(alloc, &PLAIN);
    let mut pieces = Vec::new(alloc);
    for (side, octets) in &ROWS {
        push(&mut cutter, *side, octets, &mut pieces)?;
    }
    Ok(pieces.pop().ok_or("no piece")?)
}

/// What is seen of a channel: its state, whether a call is open, and how many events it reported.
type Seen = (ChannelState, bool, usize);

fn seen_of<'a, C: Channel<Heap<'a>>>(channel: &C, events: &Vec<Event, Heap<'a>>) -> Seen {
    (channel.state(), channel.is_open(), events.len())
}

/// Steps a channel. Where memory is refused it is as it was, and the same step succeeds.
fn step<'a, C: Channel<Heap<'a>>>(
    rt: &impl Abort,
    channel: &mut C,
    item: &ItemRef<'_>,
    events: &mut Vec<Event, Heap<'a>>,
) -> Result<(), Fail>
    requires item { IsItem (C.interface_of channel.old) (C.number_of channel.old) item.now }
    ensures interface { (g : gaps.GapChannel) → C.represents channel.old g → OnOk result (C.interface_of channel.new ≡ C.interface_of channel.old) }
    ensures number { (g : gaps.GapChannel) → C.represents channel.old g → OnOk result (C.number_of channel.new ≡ C.number_of channel.old) }
    ensures represented { (g : gaps.GapChannel) → C.represents channel.old g → OnOk result ((h : gaps.GapChannel) × C.represents channel.new h) }
{
    let before = seen_of(channel, events);
    if let Err(fault) = channel.advance(1, item, events) {
        assert!(rt; fault == Fault::Memory && seen_of(channel, events) == before);
        channel.advance(1, item, events)?;
    }
    Ok(())
}

/// Steps a fresh channel through the rows of a piece. Returns what is seen at the end.
fn step_through<'a, C: Channel<Heap<'a>>>(
    rt: &impl Abort,
    heap: Heap<'a>,
    piece: &Piece<Heap<'a>>,
) -> Result<Seen, Fail> {
    let start = EpochStart::Restarted;
    let mut channel = C::fresh(heap, &piece.interface, piece.channel, 1, start);
    let mut events = Vec::new(heap);
    for item in piece.rows() {
        step(rt, &mut channel, &item, &mut events)?;
    }
    Ok(seen_of(&channel, &events))
}

/// Refuses one growth of the steps of a call: it comes up, four data packets are accepted, of which two are faulty
/// messages and one sets a parameter. Returns whether there was such a growth.
fn check_steps<'a, C: Channel<Heap<'a>>>(
    rt: &impl Abort,
    heap: Heap<'a>,
    good: u64,
) -> Result<bool, Fail> {
    let piece = pad_call(heap)?;
    heap.refuse_one(good);
    let seen = step_through::<C>(rt, heap, &piece);
    let refused = heap.was_refused();
    assert!(rt;
        seen? == (ChannelState::Transfer(DState::D1), true, 9),
        "growth {good}"
    );
    Ok(refused)
}

#[test]
fn a_step_out_of_memory_leaves_the_channel_as_it_was(rt: HostRuntime) -> Result<(), Fail> {
    let heap = Scarce::new(rt.alloc());
    refuse_each(
        &heap,
        |good| check_steps::<PlainChannel<Heap<'_>>>(&rt, &heap, good),
    )?;
    refuse_each(
        &heap,
        |good| check_steps::<PackedChannel<Heap<'_>>>(&rt, &heap, good),
    )
}

/// Refuses one growth of a run. Returns whether there was such a growth.
fn check_run<'a>(rt: &impl Abort, heap: Heap<'a>, good: u64) -> Result<bool, Fail> {
    let piece = pad_call(heap)?;
    heap.refuse_one(good);
    let report = run_piece::<Heap<'a>, PlainChannel<Heap<'a>>>(heap, &piece);
    let refused = heap.was_refused();
    let wanted = if refused { Err(Fault::Memory) } else { Ok(2) };
    assert!(rt;
        report.map(|report| report.findings.len()) == wanted,
        "growth {good}"
    );
    Ok(refused)
}

#[test]
fn each_growth_of_a_run_may_be_refused(rt: HostRuntime) -> Result<(), Fail> {
    let heap = Scarce::new(rt.alloc());
    refuse_each(&heap, |good| check_run(&rt, &heap, good))
}
