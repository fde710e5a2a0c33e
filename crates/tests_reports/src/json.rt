//! Lines of reports as JSON lines that were written by hand, over sinks that cut and fail.

ghost use Rattle.std.specs.Prelude.{◌≡◌};

use json_lines::sink::JsonSink;
use line_model::device::Sink;
use line_model::fault::Fault;
use line_model::lending::{Borrowed, Origin, take_back};
use std::alloc::Global;
use std::marker::Brand;
use std::process::Abort;
use tests_devices::{CutSink, Cuts};

/// Gives a sink all of a text in parts of some size, until it refuses one.
fn write_parts<K: Sink>(sink: &mut K, text: &[u8], size: usize) -> Result<(), Fault> {
    for part in text.chunks(size.max(1)) {
        if sink.write(part).is_err() {
            return Err(Fault::Write);
        }
    }
    Ok(())
}

/// Has a lent sink accept the objects of a text that comes in parts.
fn convert<'a, K: Sink, B: Origin>(
    text: &[u8],
    size: usize,
    sink: &'a mut K,
) -> (&'a mut K, Result<(), Fault>)
    requires name { sink.ghost_name ≡ B.name }
    requires before { (K.taken sink.now, K.failures sink.now) ≡ B.before }
{
    let mut json = JsonSink::new(Borrowed::<K, B>::new(sink));
    let written = write_parts(&mut json, text, size);
    let (lent, answer) = json.finish();
    (lent.give_back(), written.and(answer))
}

/// Converts a text that comes in parts of some size. Returns the sink.
fn converted(alloc: Global, text: &[u8], size: usize, cuts: Cuts) -> (Result<(), Fault>, CutSink) {
    let mut sink = CutSink::new(alloc, cuts);
    let (lent, answer) = convert::<CutSink, Brand>(text, size, &mut sink);
    take_back(lent);
    (answer, sink)
}

const REPORT: &[u8] = b"F 5 T d1 1\n\
F 7 N - X2\n\
C 1 1 1 out 12 345 1 2 - open 3 129 0 0 3\n\
C 2 1 1 in - 0345 1 - 2 collision 0 0 0 0 0\n\
S 1 T 2 said 1\n\
S 1 N 21 refused 5\n\
A - 1 2\n\
A 012 1 3\n\
P 2 4\n\
P 0 -\n\
Z 5 1 1 2 2\n";

const OBJECTS: &[u8] =
    b"{\"line\":\"finding\",\"packet\":5,\"side\":\"T\",\"state\":\"d1\",\"code\":\"1\"}\n\
{\"line\":\"finding\",\"packet\":7,\"side\":\"N\",\"state\":null,\"code\":\"X2\"}\n\
{\"line\":\"call\",\"call\":1,\"epoch\":1,\"channel\":1,\"direction\":\"out\",\"called\":\"12\",\"calling\":\"345\",\"opened\":1,\"up\":2,\"ended\":null,\"how\":\"open\",\"data_t\":3,\"octets_t\":129,\"data_n\":0,\"octets_n\":0,\"segments\":3}\n\
{\"line\":\"call\",\"call\":2,\"epoch\":1,\"channel\":1,\"direction\":\"in\",\"called\":null,\"calling\":\"0345\",\"opened\":1,\"up\":null,\"ended\":2,\"how\":\"collision\",\"data_t\":0,\"octets_t\":0,\"data_n\":0,\"octets_n\":0,\"segments\":0}\n\
{\"line\":\"setting\",\"call\":1,\"side\":\"T\",\"parameter\":2,\"word\":\"said\",\"value\":1}\n\
{\"line\":\"setting\",\"call\":1,\"side\":\"N\",\"parameter\":21,\"word\":\"refused\",\"value\":5}\n\
{\"line\":\"account\",\"address\":null,\"calls\":1,\"segments\":2}\n\
{\"line\":\"account\",\"address\":\"012\",\"calls\":1,\"segments\":3}\n\
{\"line\":\"peak\",\"count\":2,\"packet\":4}\n\
{\"line\":\"peak\",\"count\":0,\"packet\":null}\n\
{\"line\":\"sums\",\"packets\":5,\"findings\":1,\"calls\":1,\"octets\":2,\"segments\":2}\n";

#[test]
fn a_sink_that_takes_one_byte_a_call_takes_the_same(rt: HostRuntime) {
    let (answer, sink) = converted(rt.alloc(), REPORT, 7, Cuts::of_steps(1, 1));
    assert!(rt; answer.is_ok());
    assert!(rt; sink.taken.as_slice() == OBJECTS);
    assert!(rt; sink.asked == OBJECTS.len());
}

#[test]
fn each_part_is_one_write(rt: HostRuntime) {
    for (size, calls) in [(1, 11), (65_536, 1)] {
        let (_, sink) = converted(rt.alloc(), REPORT, size, Cuts::none());
        assert!(rt; sink.asked == calls);
    }
}

/// Writes the report in parts of some size to a sink that fails after `good` good calls.
fn check_failure(rt: &impl Abort, alloc: Global, size: usize, good: usize) {
    let cuts = Cuts::of_steps(1, 90).with_writes(good);
    let (answer, sink) = converted(alloc, REPORT, size, cuts);
    assert!(rt; answer == Err(Fault::Write));
    assert!(rt; sink.asked == good.saturating_add(1));
    assert!(rt; OBJECTS.starts_with(sink.taken.as_slice()));
}

#[test]
fn a_sink_that_fails_has_a_first_part_and_is_reported(rt: HostRuntime) {
    for good in 0..11 {
        check_failure(&rt, rt.alloc(), 1, good);
        check_failure(&rt, rt.alloc(), 65_536, good);
    }
}
