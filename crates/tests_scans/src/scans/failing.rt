//! Scans whose source or sink fails: they are refused by the first faulty line of what was given, or by the device.

use crate::host::Host;
use crate::scans::checks::{Stop, check, check_stops, check_writes};
use crate::scans::runs::Way;
use crate::scans::worked::{FAULTY, MIXED, NO_ROWS, NOTHING, THREE_EPOCHS, Wanted, worked};
use line_model::fault::{Fault, Kind};
use std::test::Fail;
use tests_devices::Cuts;

/// By two workers.
const CREW: Way = Way::Crew(2, 64);

/// The failure of a source, before anything was written.
const UNREAD: Wanted<'static> = (Some(Fault::Read), b"");

/// A refusal by a header, and one by a number.
const FORM: Wanted<'static> = (Some(Fault::Trace(1, Kind::HeaderForm)), b"");

const NUMBER: Wanted<'static> = (Some(Fault::Trace(3, Kind::Number)), b"");

/// A trace text whose header is faulty, and where its source fails.
const FAULTY_HEADER: &[u8] = b"X25 2 MOD 8 WIN 2 SIZE 128 PVC 0 SVC 4\n1 T -\n";

const IN_ITS_HEADER: [Stop<'static>; 4] = [(0, UNREAD), (38, UNREAD), (39, FORM), (40, FORM)];

#[test]
fn a_failing_source_hides_no_faulty_line(rt: HostRuntime) {
    check_stops(&rt, Way::Alone, FAULTY_HEADER, &IN_ITS_HEADER)
}

/// A trace text whose second row has the number of the first, and where its source fails.
const NUMBER_TWICE: &[u8] = b"X25 1 MOD 8 WIN 2 SIZE 128 PVC 0 SVC 4\n5 T -\n5 T -\n6 T -\n";

const IN_ITS_ROWS: [Stop<'static>; 5] = [
    (0, UNREAD),
    (39, UNREAD),
    (50, UNREAD),
    (51, NUMBER),
    (52, NUMBER),
];

#[test]
fn a_failing_source_hides_no_faulty_line_from_workers(rt: HostRuntime) {
    check_stops(&rt, CREW, NUMBER_TWICE, &IN_ITS_ROWS)
}

/// Two rows of six bytes after a header of 39, and where their source fails.
const TWO_ROWS: &[u8] = b"X25 1 MOD 8 WIN 2 SIZE 128 PVC 0 SVC 4\n1 T -\n2 T -\n";

const IN_TWO_ROWS: [Stop<'static>; 4] = [
    (44, UNREAD),
    (45, (Some(Fault::Read), b"F 1 T - 38\n")),
    (50, (Some(Fault::Read), b"F 1 T - 38\n")),
    (51, (Some(Fault::Read), b"F 1 T - 38\nF 2 T - 38\n")),
];

#[test]
fn a_failing_source_leaves_the_findings(rt: HostRuntime) {
    check_stops(&rt, Way::Following, TWO_ROWS, &IN_TWO_ROWS)
}

#[test]
fn a_failing_sink_took_the_first_bytes(rt: HostRuntime) {
    check_writes(&rt, Way::Alone, NO_ROWS, NOTHING, 1)
}

/// Two rows, of which no line feed ends the last.
const OPEN_ROWS: &[u8] = b"X25 1 MOD 8 WIN 2 SIZE 128 PVC 0 SVC 4\n1 T -\n2 T -";

const OF_TWO_ROWS: &[u8] = b"F 1 T - 38\nF 2 T - 38\nP 0 -\nZ 2 2 0 0 0\n";

#[test]
fn a_failing_sink_has_the_first_bytes_of_what_is_followed(rt: HostRuntime) {
    check_writes(&rt, Way::Following, OPEN_ROWS, (None, OF_TWO_ROWS), 1)
}

#[test]
fn a_failing_sink_took_the_first_bytes_of_workers(rt: HostRuntime) -> Result<(), Fail> {
    let (text, wanted) = worked(rt.alloc(), THREE_EPOCHS)?;
    check_writes(&rt, CREW, &text, wanted, 16);
    Ok(())
}

/// A finding before a faulty line, into a sink that accepts nothing.
const UNWRITTEN: &[u8] = b"X25 1 MOD 8 WIN 2 SIZE 128 PVC 0 SVC 4\n1 T -\n2 X -\n";

#[test]
fn a_faulty_line_is_returned_where_the_sink_fails_too(rt: HostRuntime) {
    let wanted: Wanted<'_> = (Some(Fault::Trace(3, Kind::Side)), b"");
    check(
        &rt,
        Way::Following,
        UNWRITTEN,
        wanted,
        Cuts::none().with_writes(0),
    )
}

/// The bytes that a source gives before it fails, and how many at a call.
const CALLS: [(usize, usize); 10] = [
    (0, 1),
    (1, 1),
    (5, 1),
    (12, 1),
    (15, 1),
    (0, 16),
    (16, 16),
    (80, 16),
    (192, 16),
    (240, 16),
];

#[test]
fn a_failing_source_is_reported_with_workers(rt: HostRuntime) -> Result<(), Fail> {
    let (text, _) = worked(rt.alloc(), THREE_EPOCHS)?;
    for (good, step) in CALLS {
        let cuts = Cuts::of_steps(step, step).with_bytes(good);
        check(&rt, CREW, &text, UNREAD, cuts);
    }
    Ok(())
}

/// In one thread, by two workers, and in blocks.
const WAYS: [Way; 3] = [Way::Alone, CREW, Way::InBlocks(2, 64, 1)];

/// The bytes that a source gives at each call.
const STEP: usize = 7;

/// What a scan comes to of whose text these bytes were given: the line that refuses it, if that has ended in them,
/// otherwise the failure of the source.
fn given(wanted: Wanted<'_>, bytes: &[u8]) -> Wanted<'static> {
    let lines = bytes.iter().filter(|byte| **byte == b'\n').count();
    match wanted.0 {
        Some(Fault::Trace(line, _)) if line as usize <= lines => (wanted.0, b""),
        _ => UNREAD,
    }
}

/// Has the source fail at each of its calls in turn, the one that would return the end too.
fn check_source(rt: &impl Host, text: &[u8], wanted: Wanted<'_>) {
    for calls in 0..=text.len() / STEP {
        let good = calls.saturating_mul(STEP);
        let refused = given(wanted, &text[..good.min(text.len())]);
        for way in WAYS {
            check(
                rt,
                way,
                text,
                refused,
                Cuts::of_steps(STEP, STEP).with_bytes(good),
            );
        }
    }
}

#[test]
fn devices_of_worked_traces_fail_at_any_call(rt: HostRuntime) -> Result<(), Fail> {
    for trace in MIXED {
        let (text, wanted) = worked(rt.alloc(), trace)?;
        check_source(&rt, &text, wanted);
        for way in WAYS {
            check_writes(&rt, way, &text, wanted, usize::MAX);
        }
    }
    Ok(())
}

#[test]
fn sources_of_faulty_texts_fail_at_any_call(rt: HostRuntime) -> Result<(), Fail> {
    for trace in FAULTY {
        let (text, wanted) = worked(rt.alloc(), trace)?;
        check_source(&rt, &text, wanted);
    }
    Ok(())
}
