//! Texts read in chunks of several sizes.

mod blocks;
mod refused;
mod rows;

use crate::checks::holds_at;
use line_model::fault::{Fault, Kind};
use line_model::interface::Interface;
use line_model::row::{ReadRow, Row};
use line_model::state::Side;
use std::alloc::Global;
use std::process::Abort;
use std::test::Fail;
use trace_text::lines::Lines;

const HEADER: &[u8] = b"X25 1 MOD 8 WIN 2 SIZE 128 PVC 0 SVC 4\n";

/// Reads a trace text that comes in chunks of `size` bytes.
fn read(
    alloc: Global,
    text: &[u8],
    size: usize,
    rows: &mut Vec<Row<Global>>,
) -> Result<Interface, Fault> {
    let mut lines = Lines::new(alloc);
    for chunk in text.chunks(size.max(1)) {
        lines.feed(chunk, rows)?;
    }
    lines.end(rows)
}

/// The result of a trace text that comes in chunks of `size` bytes, and how many rows it has.
fn read_counted(alloc: Global, text: &[u8], size: usize) -> (Result<Interface, Fault>, usize) {
    let mut rows = Vec::new(alloc);
    let answer = read(alloc, text, size, &mut rows);
    (answer, rows.len())
}

/// Rows after a header of one line, the line of the first that is faulty, its fault, and how many rows come before it.
const FAULTY_ROWS: [(&[u8], u32, Kind, usize); 13] = [
    (b"5 T -\n5 T -\n", 3, Kind::Number, 1),
    (b"\n", 2, Kind::LineForm, 0),
    (b"1 T\n", 2, Kind::LineForm, 0),
    (b"1  T -\n", 2, Kind::LineForm, 0),
    (b"1 T - \n", 2, Kind::LineForm, 0),
    (b"01 T -", 2, Kind::Number, 0),
    (b"0 T -", 2, Kind::Number, 0),
    (b"1000000000 T -", 2, Kind::Number, 0),
    (b"1 T -\n# a comment\n2 X 100\n3 T 1", 4, Kind::Side, 1),
    (b"1 ? *\n", 2, Kind::Side, 0),
    (b"1 T 100\n", 2, Kind::Hex, 0),
    (b"1 T 1g\n", 2, Kind::Hex, 0),
    (b"1 T 10\r\n", 2, Kind::Hex, 0),
];

/// A trace text of a header and these rows.
fn with_header(alloc: Global, header: &[u8], rows: &[u8]) -> Result<Vec<u8>, Fail> {
    let mut text = header.to_vec(alloc)?;
    text.extend_from_slice(rows)?;
    Ok(text)
}

#[test]
fn the_first_faulty_line_is_returned(rt: HostRuntime) -> Result<(), Fail> {
    for (faulty, line, kind, rows) in &FAULTY_ROWS {
        let text = with_header(rt.alloc(), HEADER, faulty)?;
        for size in [1, 7, 64, 1 << 16] {
            let (answer, shown) = read_counted(rt.alloc(), &text, size);
            let right = answer == Err(Fault::Trace(*line, *kind)) && shown == *rows;
            holds_at(&rt, right, u64::from(*line));
        }
    }
    Ok(())
}

/// Appends a row of a number below 256: the number, the side, how many octets it has, and those that were read. Of a gap
/// its channel, or 0 for all, has the place of the side.
fn tell(row: &ReadRow<Global>, shown: &mut Vec<u8>) -> Result<(), Fault> {
    let side = match row.gap {
        Some(gap) => (gap.unwrap_or(0) % 256) as u8,
        None if row.side == Side::T => b'T',
        None => b'N',
    };
    shown.extend_from_slice(&[(row.number % 256) as u8, side, (row.length % 256) as u8])?;
    shown.extend_from_slice(row.octets.as_slice())?;
    Ok(())
}

/// Shows the rows that end in these bytes, which are read one by one into one row.
fn take_ended(
    lines: &mut Lines<Global>,
    row: &mut ReadRow<Global>,
    bytes: &[u8],
    shown: &mut Vec<u8>,
) -> Result<(), Fault> {
    let mut rest = bytes;
    for _ in 0..bytes.len() {
        match lines.next_row(rest, row)? {
            Some(after) => {
                tell(row, shown)?;
                rest = after;
            }
            None => return Ok(()),
        }
    }
    Ok(())
}

/// A row with these octets, for those that are read.
fn row_with(octets: Vec<u8>) -> ReadRow<Global> {
    ReadRow {
        number: 0,
        side: Side::N,
        length: 0,
        octets,
        gap: None,
    }
}

/// Shows the rows of a trace text, which are read one by one into one row that is used again: those of its head, and
/// those of the rest, which comes in chunks of `size` bytes.
fn take_rows(
    alloc: Global,
    head: &[u8],
    rest: &[u8],
    size: usize,
    shown: &mut Vec<u8>,
) -> Result<(), Fault> {
    let mut lines = Lines::new(alloc);
    let mut row = row_with(Vec::new(alloc));
    take_ended(&mut lines, &mut row, head, shown)?;
    for chunk in rest.chunks(size.max(1)) {
        take_ended(&mut lines, &mut row, chunk, shown)?;
    }
    if lines.end_row(&mut row)?.has_row {
        tell(&row, shown)?;
    }
    Ok(())
}

/// The line that refuses a trace text, if one does, and why.
type FaultyLine = Option<(u32, Kind)>;

/// Texts, their rows as they are read, and their faulty lines. The second has rows that end with a chunk of 64 bytes.
/// The third has data with Q 0 and with Q 1, and packets of each length around four octets.
const ONE_BY_ONE: [(&[u8], &[u8], FaultyLine); 12] = [
    (
        b"# first\nX25 1 MOD 8 WIN 2 SIZE 128 PVC 0 SVC 4\n1 T 10010b0000\n2 N 10010F\n# between\n3 T 100100deadBEEF\n7 N -\n# last\n12 N 10",
        b"\x01T\x05\x10\x01\x0b\x00\x00\x02N\x03\x10\x01\x0f\x03T\x07\x10\x01\x00\xde\x07N\x00\x0cN\x01\x10",
        None,
    ),
    (
        b"X25 1 MOD 8 WIN 2 SIZE 128 PVC 0 SVC 4\n1 T 0123456789abcdefABCD\n12 N 23456789abcdefABCDEF9876543210fedcbaFEDCBA0123456789abcdef\n13 T 0123456789abcdefABCDEF9876543210fedcbaFEDCBA0123456789abcdefABCD\n14 N 0123456789abcdefABCDEF98765432\n15 T 0123456789abcdefABCDEF9876543210\n16 N 0123456789abcdefABCDEF9876543210fe\n17 T 01\n18 N 0123456789abcdefABCDEF9876543210fedcbaFEDCBA0123456789abcdefABCDEF\n",
        b"\x01T\n\x01#Eg\x89\xab\xcd\xef\xab\xcd\x0cN\x1d#Eg\x89\xab\xcd\xef\xab\xcd\xef\x98vT2\x10\xfe\xdc\xba\xfe\xdc\xba\x01#Eg\x89\xab\xcd\xef\x0dT \x01#Eg\x89\xab\xcd\xef\xab\xcd\xef\x98vT2\x10\xfe\xdc\xba\xfe\xdc\xba\x01#Eg\x89\xab\xcd\xef\xab\xcd\x0eN\x0f\x01#Eg\x89\xab\xcd\xef\xab\xcd\xef\x98vT2\x0fT\x10\x01#Eg\x89\xab\xcd\xef\xab\xcd\xef\x98vT2\x10\x10N\x11\x01#Eg\x89\xab\xcd\xef\xab\xcd\xef\x98vT2\x10\xfe\x11T\x01\x01\x12N!\x01#Eg\x89\xab\xcd\xef\xab\xcd\xef\x98vT2\x10\xfe\xdc\xba\xfe\xdc\xba\x01#Eg\x89\xab\xcd\xef\xab\xcd\xef",
        None,
    ),
    (
        b"X25 1 MOD 8 WIN 2 SIZE 128 PVC 0 SVC 4\n1 T 100102AB\n2 N 100104\n3 T 1001\n4 N 900100aBcDeF01\n5 T 10010601020304050607080910111213\n6 N 100108000102030405060708090a0b0c0d0e0f101112131415161718191a1b1c\n7 T 90010aFFFEFDFCFBFAF9F8F7F6F5F4F3F2F1F0EFEEEDECEBEAE9E8E7E6E5E4E3\n8 N 10010EEFEEEDECEBEAE9E8E7E6E5E4E3E2E1E0DFDEDDDCDBDAD9D8D7D6D5D4D3D2\n9 T 90010Cafaeadacabaaa9a8a7a6a5a4a3a2a1a09f9e9d9c9b9a9998979695949392\n10 N 10010b4567\n11 T 10\n12 N -\n13 T 7F0300deadbeef\n14 N 800300dead\n15 T 10010Ade\n",
        b"\x01T\x04\x10\x01\x02\xab\x02N\x03\x10\x01\x04\x03T\x02\x10\x01\x04N\x07\x90\x01\x00\xab\xcd\xef\x01\x05T\x10\x10\x01\x06\x01\x06N \x10\x01\x08\x00\x07T \x90\x01\n\xff\xfe\xfd\xfc\xfb\xfa\xf9\xf8\xf7\xf6\xf5\xf4\xf3\xf2\xf1\xf0\xef\xee\xed\xec\xeb\xea\xe9\xe8\xe7\xe6\xe5\xe4\xe3\x08N!\x10\x01\x0e\xef\x09T!\x90\x01\x0c\xaf\xae\xad\xac\xab\xaa\xa9\xa8\xa7\xa6\xa5\xa4\xa3\xa2\xa1\xa0\x9f\x9e\x9d\x9c\x9b\x9a\x99\x98\x97\x96\x95\x94\x93\x92\nN\x05\x10\x01\x0bEg\x0bT\x01\x10\x0cN\x00\x0dT\x07\x7f\x03\x00\xde\x0eN\x05\x80\x03\x00\xde\xad\x0fT\x04\x10\x01\n\xde",
        None,
    ),
    (
        b"X25 1 MOD 8 WIN 2 SIZE 128 PVC 0 SVC 4\n1 T 1001000102030405060708090a0b0c0d0e0f\n2 N 100102101112131415161718191a1b1c1d1e1f2021222324252627g8\n3 T 1001000102030405060708090a0b0c0d0e0f\n",
        b"\x01T\x12\x10\x01\x00\x01",
        Some((3, Kind::Hex)),
    ),
    (
        b"X25 1 MOD 8 WIN 2 SIZE 128 PVC 0 SVC 4\n1 T 10010b0000\n2 N 10010F\n3 T 100\n4 T -\n",
        b"\x01T\x05\x10\x01\x0b\x00\x00\x02N\x03\x10\x01\x0f",
        Some((4, Kind::Hex)),
    ),
    (HEADER, b"", None),
    (
        b"X25 1 MOD 8 WIN 2 SIZE 128 PVC 0 SVC 4\n1 T 10010b0000\n2 n -",
        b"\x01T\x05\x10\x01\x0b\x00\x00",
        Some((3, Kind::Side)),
    ),
    (
        b"X25 2 MOD 8 WIN 2 SIZE 128 PVC 0 IN 0 TWO 4 OUT 4\n1 ? 1\n",
        b"",
        Some((2, Kind::Side)),
    ),
    (
        b"X25 3 MOD 8 WIN 2 SIZE 128 PVC 0 IN 0 TWO 4 OUT 4 JOIN\n1 ? 5\n",
        b"",
        Some((2, Kind::Hex)),
    ),
    (b"#\n# no header\n", b"", Some((3, Kind::HeaderMissing))),
    (
        b"X25 3 MOD 8 WIN 2 SIZE 128 PVC 0 SVC 4\n",
        b"",
        Some((1, Kind::HeaderForm)),
    ),
    (
        b"X25 4 MOD 8 WIN 2 SIZE 128 PVC 0 IN 0 TWO 4 OUT 4\n",
        b"",
        Some((1, Kind::HeaderForm)),
    ),
];

/// The header of a recording that may have gaps.
const WITH_GAPS: &[u8] = b"X25 3 MOD 8 WIN 2 SIZE 128 PVC 0 IN 0 TWO 4 OUT 4\n";

/// Lines after that header, the rows and gaps as they are read, and the faulty lines.
const GAPS: [(&[u8], &[u8], FaultyLine); 6] = [
    (
        b"1 T 10010B0000\n2 ? 4\n3 N 10010F\n4 ? *\n5 T -\n6 ? 1",
        b"\x01T\x05\x10\x01\x0b\x00\x00\x02\x04\x00\x03N\x03\x10\x01\x0f\x04\x00\x00\x05T\x00\x06\x01\x00",
        None,
    ),
    (b"2 ? 1\n1 ? 1\n", b"\x02\x01\x00", Some((3, Kind::Number))),
    (b"9 T -\n9 ? *\n", b"\x09T\x00", Some((3, Kind::Number))),
    (b"1 ? 0\n", b"", Some((2, Kind::Hex))),
    (b"1 ? 01\n", b"", Some((2, Kind::Hex))),
    (b"1 ? -\n", b"", Some((2, Kind::Hex))),
];

/// The rows of a trace text and its faulty line are these, in chunks of each of some sizes.
fn check_taken(rt: &impl Abort, alloc: Global, text: &[u8], wanted: &[u8], end: FaultyLine) {
    let fault = end.map(|(line, kind)| Fault::Trace(line, kind));
    for size in [1, 7, 64, text.len()] {
        let mut shown = Vec::new(alloc);
        let answer = take_rows(alloc, b"", text, size, &mut shown);
        let right = answer.err() == fault && shown.as_slice() == wanted;
        holds_at(rt, right, size as u64);
    }
}

#[test]
fn rows_are_taken_one_by_one(rt: HostRuntime) {
    for (text, wanted, end) in &ONE_BY_ONE {
        check_taken(&rt, rt.alloc(), text, wanted, *end);
    }
}

#[test]
fn gaps_are_taken_one_by_one(rt: HostRuntime) -> Result<(), Fail> {
    for (lines, wanted, end) in &GAPS {
        let text = with_header(rt.alloc(), WITH_GAPS, lines)?;
        check_taken(&rt, rt.alloc(), &text, wanted, *end);
    }
    Ok(())
}

#[test]
fn room_of_the_octets_is_used_again(rt: HostRuntime) -> Result<(), Fail> {
    let mut lines = Lines::new(rt.alloc());
    let mut row = row_with(Vec::with_capacity(rt.alloc(), 16)?);
    let mut shown = Vec::new(rt.alloc());
    take_ended(&mut lines, &mut row, HEADER, &mut shown)?;
    take_ended(&mut lines, &mut row, b"1 T 01020304\n2 N 05\n", &mut shown)?;
    assert!(rt; shown.as_slice() == b"\x01T\x04\x01\x02\x03\x04\x02N\x01\x05".as_slice());
    assert!(rt; row.octets.capacity() == 16);
    Ok(())
}
