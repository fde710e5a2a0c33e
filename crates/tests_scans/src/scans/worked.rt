//! Traces whose texts the tests cut, hold and refuse. tests/traces/worked has the others.

use line_model::fault::{Fault, Kind};
use std::alloc::{AllocError, Global};
use std::test::Fail;

/// What a scan comes to: the fault by which it is refused, if it is, and what its sink accepts.
pub type Wanted<'a> = (Option<Fault>, &'a [u8]);

/// A trace that was worked out by hand: bytes, more of them many times over, a line feed, and what its scan comes to.
type Worked = (&'static [u8], &'static [u8], usize, Wanted<'static>);

/// A trace without rows.
pub const NO_ROWS: &[u8] = b"X25 1 MOD 8 WIN 2 SIZE 128 PVC 0 SVC 4\n";

/// The report of that trace.
pub const NOTHING: Wanted<'static> = (None, b"P 0 -\nZ 0 0 0 0 0\n");

/// A piece of one row.
pub const ONE_PIECE: usize = 0;
/// Twelve pieces of one row, four in each epoch.
pub const THREE_EPOCHS: usize = 1;
/// A call with messages that set a parameter.
pub const PAD_CALL: usize = 4;
/// Those, formats and faults of calls, an account, and a message that a reset drops.
pub const MIXED: [usize; 5] = [THREE_EPOCHS, 2, 3, PAD_CALL, 5];
/// A message of 1,025 octets.
pub const LONG_MESSAGE: usize = 6;
/// How many traces there are.
pub const TRACES: usize = 15;

/// The traces; after those above a recording that begins in the middle, gaps, faulty lines, and lines and rows that are
/// as long as they may be, and longer by one.
const WORKED: [Worked; TRACES] = [
    (
        b"X25 1 MOD 8 WIN 2 SIZE 128 PVC 0 SVC 4\n1 T 100100AA",
        b"",
        0,
        (None, b"F 1 T p1 20\nP 0 -\nZ 1 1 0 0 0\n"),
    ),
    (
        b"X25 1 MOD 8 WIN 2 SIZE 128 PVC 0 SVC 4\n1 T 100100AA\n2 T 100200AA\n3 T 100300AA\n4 T 100400AA\n5 T 1000FB0000\n6 N 1000FF\n7 T 100100AA\n8 T 100200AA\n9 T 100300AA\n10 T 100400AA\n11 T 1000FB0000\n12 N 1000FF\n13 T 100100AA\n14 T 100200AA\n15 T 100300AA\n16 T 100400AA",
        b"",
        0,
        (
            None,
            b"F 1 T p1 20\nF 2 T p1 20\nF 3 T p1 20\nF 4 T p1 20\nF 7 T p1 20\nF 8 T p1 20\nF 9 T p1 20\nF 10 T p1 20\nF 13 T p1 20\nF 14 T p1 20\nF 15 T p1 20\nF 16 T p1 20\nP 0 -\nZ 16 12 0 0 0\n",
        ),
    ),
    (
        b"X25 1 MOD 8 WIN 2 SIZE 128 PVC 0 SVC 6\n1 T 10010B\n2 T 10020B01A000\n3 T 10030B10A000\n4 T 10040B000342\n5 T 10050B0003430802\n6 N 10060B00000000000000000000000000000000000000\n7 N 10060B0000\n8 T 10060F20\n9 N 1006130000\n10 T 100617",
        b"",
        0,
        (
            None,
            b"F 1 T p1 38\nF 2 T p1 67\nF 3 T p1 68\nF 4 T p1 69\nF 5 T p1 66\nF 6 N p1 39\nF 8 T p3 38\nC 1 1 6 in - - 7 - 8 N 0 0 0 0 0\nA - 1 0\nP 0 -\nZ 10 7 1 0 0\n",
        ),
    ),
    (
        b"X25 1 MOD 8 WIN 3 SIZE 128 PVC 0 SVC 4\n1 T 10010B32123450020101\n2 N 10010F\n3 T 100100\n4 T 10010200000000000000000000000000000000000000000000000000000000000000000000000000000000000000000000000000000000000000000000000000000000\n5 T 1001040000000000000000000000000000000000000000000000000000000000000000000000000000000000000000000000000000000000000000000000000000000000",
        b"",
        0,
        (
            None,
            b"C 1 1 1 out 12 345 1 2 - open 3 129 0 0 3\nA 12 1 3\nP 1 2\nZ 5 0 1 129 3\n",
        ),
    ),
    (
        b"X25 1 MOD 8 WIN 2 SIZE 128 PVC 0 SVC 4\n1 T 10010B000001000000\n2 N 10010F\n3 N 900100020201\n4 T 900120000201",
        b"",
        0,
        (
            None,
            b"C 1 1 1 out - - 1 2 - open 1 3 1 3 2\nS 1 T 2 said 1\nA - 1 2\nP 1 2\nZ 4 0 1 6 2\n",
        ),
    ),
    (
        b"X25 1 MOD 8 WIN 2 SIZE 16 PVC 0 SVC 4\n1 T 10010B000001000000\n2 N 10010F\n3 N 90011002020103000400050006000700080009\n4 T 10011B0000\n5 N 10011F\n6 N 9001000A",
        b"",
        0,
        (
            None,
            b"F 6 N d1 X1\nC 1 1 1 out - - 1 2 - open 0 0 2 17 2\nA - 1 2\nP 1 2\nZ 6 1 1 17 2\n",
        ),
    ),
    (
        b"X25 1 MOD 8 WIN 2 SIZE 2048 PVC 0 SVC 4\n1 T 10010B000001000000\n2 N 10010F\n3 N 900100",
        b"02",
        1025,
        (
            None,
            b"F 3 N d1 XL\nC 1 1 1 out - - 1 2 - open 0 0 1 1025 17\nA - 1 17\nP 1 2\nZ 3 1 1 1025 17\n",
        ),
    ),
    (
        b"X25 2 MOD 8 WIN 2 SIZE 128 PVC 1 IN 1 TWO 4 OUT 4 JOIN\n1 T 1000FF\n2 T 100144AA\n3 T 10020F\n4 N 1002130000\n5 T 100217\n6 T 100217\n7 T 10011B0000\n8 N 10011F\n9 T 100144AA\n10 T 1000FB0000\n11 N 1000FF\n12 T 10030F\n13 N 1000FF",
        b"",
        0,
        (
            None,
            b"F 6 T p1 20\nF 9 T d1 1\nF 12 T p1 20\nF 13 N r1 17\nP 0 -\nZ 13 4 0 0 0\n",
        ),
    ),
    (
        b"X25 3 MOD 8 WIN 2 SIZE 128 PVC 0 IN 0 TWO 4 OUT 4\n1 T 10010B0000\n2 N 10010F\n3 T 1000FB0000\n4 ? *\n5 T 100100AA\n6 T 10010B0000\n7 N 10010F\n8 T 100100AA\n9 N 100121\n10 T 100106AA",
        b"",
        0,
        (
            None,
            b"F 10 T d1 1\nC 1 1 1 out - - 1 2 3 restart 0 0 0 0 0\nC 2 2 1 out - - 6 7 - open 1 1 0 0 1\nA - 2 1\nP 1 2\nG 1\nZ 9 1 2 1 1\n",
        ),
    ),
    (
        b"X25 1 MOD 9 WIN 2 SIZE 128 PVC 0 SVC 4",
        b"",
        0,
        (Some(Fault::Trace(1, Kind::HeaderRange)), b""),
    ),
    (
        b"X25 1 MOD 8 WIN 2 SIZE 128 PVC 0 SVC 4\n5 T -\n5 T -",
        b"",
        0,
        (Some(Fault::Trace(3, Kind::Number)), b""),
    ),
    (
        b"X25 1 MOD 8 WIN 2 SIZE 128 PVC 0 SVC 4\n1 T ",
        b"00",
        4200,
        (None, b"F 1 T - 40\nP 0 -\nZ 1 1 0 0 0\n"),
    ),
    (
        b"X25 1 MOD 8 WIN 2 SIZE 128 PVC 0 SVC 4\n1 T ",
        b"00",
        4201,
        (Some(Fault::Trace(2, Kind::Hex)), b""),
    ),
    (
        b"X25 1 MOD 8 WIN 2 SIZE 128 PVC 0 SVC 4\n#",
        b" ",
        8499,
        NOTHING,
    ),
    (
        b"X25 1 MOD 8 WIN 2 SIZE 128 PVC 0 SVC 4\n#",
        b" ",
        8500,
        (Some(Fault::Trace(2, Kind::LineLong)), b""),
    ),
];

/// The traces whose lines are faulty.
pub const FAULTY: [usize; 2] = [9, 10];

/// Bytes, more of them many times over, and a line feed.
fn repeated(alloc: Global, front: &[u8], more: &[u8], times: usize) -> Result<Vec<u8>, AllocError> {
    let mut text = front.to_vec(alloc)?;
    for _ in 0..times {
        text.extend_from_slice(more)?;
    }
    text.push(b'\n')?;
    Ok(text)
}

/// The text of a trace, and what its scan comes to.
pub fn worked(alloc: Global, trace: usize) -> Result<(Vec<u8>, Wanted<'static>), Fail> {
    let Some((front, more, times, wanted)) = WORKED.get(trace) else {
        return Err("there is no such trace")?;
    };
    Ok((repeated(alloc, front, more, *times)?, *wanted))
}
