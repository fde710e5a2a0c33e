//! Calls and their counts, by their events.

ghost use Rattle.std.specs.Prelude.{◌≡◌, [], false};

use call_accounts::call::calls_of;
use call_accounts::so_far::{CallsSoFar, segments_in};
use line_model::address::Address;
use line_model::call::{CallRecord, SettingRecord};
use line_model::event::{Entry, Event, How, What};
use line_model::state::Side;
use std::alloc::Global;
use std::test::Fail;

/// An event on a channel.
fn event(epoch: u32, channel: u16, packet: u32, what: What) -> Event
    ensures { result ≡ record { epoch = epoch; channel = channel; packet = packet; what = what } }
{
    Event {
        epoch,
        channel,
        packet,
        what,
    }
}

/// A call request without addresses and facilities.
fn open(out: bool) -> What
    ensures { result ≡ What.Open out [] [] false }
{
    What::Open {
        out,
        called: Address::absent(),
        calling: Address::absent(),
        reverse: false,
    }
}

/// The course of a call: its epoch, its channel, whether it goes out, when it was opened, when it came up and ended, and
/// how.
type Course = (u32, u16, bool, u32, Option<u32>, Option<u32>, Option<How>);

/// What its data count: the packets and octets of the DCE, and the segments.
type Counts = (u64, u64, u64);

/// The calls have these courses and counts, in this order.
fn calls_are(calls: &[CallRecord], wanted: &[(Course, Counts)]) -> bool {
    let mut same = calls.len() == wanted.len();
    for (call, (course, counts)) in calls.iter().zip(wanted) {
        let (epoch, channel, out, opened, up, ended, how) = *course;
        same = same
            && (call.epoch, call.channel, call.out, call.opened) == (epoch, channel, out, opened)
            && (call.up, call.ended, call.how) == (up, ended, how)
            && (call.data_n, call.oct_n, call.segments) == *counts
            && (call.data_t, call.oct_t) == (0, 0);
    }
    same
}

/// A call of the first channel, one of the second, and one of the first after a restart.
const BY_TURNS: [(Course, Counts); 3] = [
    ((1, 1, true, 1, None, Some(3), Some(How::T)), (0, 0, 0)),
    (
        (1, 2, false, 2, Some(4), Some(5), Some(How::Restart)),
        (0, 0, 0),
    ),
    ((2, 1, true, 6, None, None, None), (0, 0, 0)),
];

/// Two channels whose events alternate, and the first one again after a restart.
#[test]
fn calls_of_many_channels_stand_by_their_openings(rt: HostRuntime) -> Result<(), Fail> {
    let events = [
        event(1, 1, 1, open(true)),
        event(1, 2, 2, open(false)),
        event(1, 1, 3, What::End(How::T)),
        event(1, 2, 4, What::Up),
        event(1, 2, 5, What::End(How::Restart)),
        event(2, 1, 6, open(true)),
    ];
    assert!(rt; calls_are(&calls_of(rt.alloc(), &events)?, &BY_TURNS));
    Ok(())
}

/// Adds events in their order.
fn add_all(calls: &mut CallsSoFar<Global>, events: &[Event]) -> Result<(), Fail> {
    for event in events {
        calls.add_event(event, segments_in(event))?;
    }
    Ok(())
}

/// Adds an outgoing call with a set of the DCE.
fn add_opening(calls: &mut CallsSoFar<Global>) -> Result<(), Fail> {
    let (side, octets) = (Side::N, 65);
    let events = [
        event(1, 1, 1, open(true)),
        event(1, 1, 2, What::Up),
        event(1, 1, 3, What::Data { side, octets }),
        event(
            1,
            1,
            3,
            What::Setting {
                pad: Side::T,
                parameter: 2,
                entry: Entry::Asked(1),
            },
        ),
    ];
    add_all(calls, &events)
}

/// Adds the clear request of the call, data after it, and an incoming call.
fn add_end(calls: &mut CallsSoFar<Global>) -> Result<(), Fail> {
    let (side, octets) = (Side::N, 7);
    let events = [
        event(1, 1, 4, What::End(How::T)),
        event(1, 1, 5, What::Data { side, octets }),
        event(1, 1, 6, open(false)),
    ];
    add_all(calls, &events)
}

/// The call before its end, and at last, and the incoming one.
const SO_FAR: [(Course, Counts); 1] = [((1, 1, true, 1, Some(2), None, None), (1, 65, 2))];

const AT_LAST: [(Course, Counts); 2] = [
    ((1, 1, true, 1, Some(2), Some(4), Some(How::T)), (1, 65, 2)),
    ((1, 1, false, 6, None, None, None), (0, 0, 0)),
];

/// A value that the remote DTE asked for.
const ASKED: [SettingRecord; 1] = [SettingRecord {
    pad: Side::T,
    parameter: 2,
    entry: Entry::Asked(1),
}];

#[test]
fn calls_are_counted_as_their_events_come(rt: HostRuntime) -> Result<(), Fail> {
    let mut calls = CallsSoFar::new(rt.alloc());
    add_opening(&mut calls)?;
    assert!(rt; calls_are(&calls.calls(rt.alloc())?, &SO_FAR));
    add_end(&mut calls)?;
    let calls = calls.finish()?;
    assert!(rt; calls_are(&calls, &AT_LAST));
    assert!(rt;
        matches!(calls.as_slice(), [first, _] if first.settings.as_slice() == ASKED.as_slice())
    );
    Ok(())
}
