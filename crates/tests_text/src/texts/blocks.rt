//! Texts of which blocks are read apart, and passed.

use crate::checks::{holds_at, holds_for};
use crate::texts::{FAULTY_ROWS, HEADER, ONE_BY_ONE, read_counted, with_header};
use line_model::fault::{Fault, Kind};
use line_model::interface::Interface;
use line_model::row::Row;
use std::alloc::Global;
use std::process::Abort;
use std::test::Fail;
use trace_text::lines::Lines;
use trace_text::lines::block::BlockSpan;

/// How many bytes a block has at most, where its first line is no longer.
const SIZES: [usize; 4] = [1, 7, 64, 1 << 18];

/// Appends the rows of some bytes that are read apart. `None`: they are not a block.
fn read_apart(
    alloc: Global,
    interface: &Interface,
    bytes: &[u8],
    rows: &mut Vec<Row<Global>>,
) -> Option<BlockSpan> {
    let mut lines = Lines::at_rows(alloc, interface);
    let Ok(()) = lines.feed(bytes, rows) else {
        return None;
    };
    let first = match rows.as_slice() {
        [row, ..] => row.number,
        [] => 0,
    };
    lines.end_block(first)
}

/// Appends the rows of the next bytes of a trace text, which are read apart and passed. `false`: they are to be fed.
fn pass(
    alloc: Global,
    lines: &mut Lines<Global>,
    bytes: &[u8],
    rows: &mut Vec<Row<Global>>,
) -> Result<bool, Fault> {
    let Some(interface) = lines.interface() else {
        return Ok(false);
    };
    let mut block = Vec::new(alloc);
    match read_apart(alloc, &interface, bytes, &mut block) {
        Some(span) if lines.pass_block(&span) => rows.append(&mut block)?,
        _ => return Ok(false),
    }
    Ok(true)
}

/// How many of the first bytes of a trace text are its first line and those after it that end within `size` bytes.
fn block_size(text: &[u8], size: usize) -> usize {
    let mut whole = 0;
    for (at, byte) in text.iter().enumerate() {
        if *byte == b'\n' && (whole == 0 || at < size) {
            whole = at + 1;
        }
    }
    if whole == 0 { text.len() } else { whole }
}

/// Reads a trace text of which blocks of `size` bytes are read apart. The first part of it has `begun` bytes, and is fed.
fn read_blocks(
    alloc: Global,
    text: &[u8],
    begun: usize,
    size: usize,
    rows: &mut Vec<Row<Global>>,
) -> Result<Interface, Fault> {
    let mut lines = Lines::new(alloc);
    let (first, mut rest) = text.split_at(begun.min(text.len()));
    lines.feed(first, rows)?;
    for _ in 0..text.len() {
        let (block, more) = rest.split_at(block_size(rest, size).min(rest.len()));
        if !pass(alloc, &mut lines, block, rows)? {
            lines.feed(block, rows)?;
        }
        rest = more;
    }
    lines.end(rows)
}

/// A trace text that is read in blocks after any first part has the result of one that is fed.
fn check_blocks(rt: &impl Abort, alloc: Global, text: &[u8]) {
    let wanted = read_counted(alloc, text, text.len());
    for size in SIZES {
        for begun in 0..text.len() {
            let mut rows = Vec::new(alloc);
            let answer = read_blocks(alloc, text, begun, size, &mut rows);
            holds_at(rt, (answer, rows.len()) == wanted, begun as u64);
        }
    }
}

#[test]
fn blocks_of_a_faulty_text_answer_as_the_text(rt: HostRuntime) -> Result<(), Fail> {
    for (faulty, _, _, _) in &FAULTY_ROWS {
        let text = with_header(rt.alloc(), HEADER, faulty)?;
        check_blocks(&rt, rt.alloc(), &text);
    }
    Ok(())
}

#[test]
fn blocks_of_a_text_answer_as_the_text(rt: HostRuntime) {
    for (text, _, _) in &ONE_BY_ONE {
        check_blocks(&rt, rt.alloc(), text);
    }
}

/// The rows of a trace text, bytes after them, and whether these are passed.
const SEAMS: [(&[u8], &[u8], bool); 14] = [
    (b"", b"1 T -\n2 N -\n", true),
    (b"1 T -\n", b"2 T -\n", true),
    (b"1 T -\n", b"# a comment\n", true),
    (b"7 T -\n", b"", true),
    (
        b"1 T -\n# a comment\n",
        b"# another\n2 T -\n# a third\n",
        true,
    ),
    (b"2 T -\n", b"2 T -\n", false),
    (b"2 T -\n", b"1 T -\n3 T -\n", false),
    (b"2 T -\n", b"# a comment\n2 T -\n", false),
    (b"1 T -\n2", b" T -\n", false),
    (b"1 T -\n#", b"2 T -\n", false),
    (b"1 T -\n", b"2 T -", false),
    (b"1 T -\n", b"2 T 1\n3 T -\n4 T -\n", false),
    (b"1 T -\n", b"2 T -\n3 T 1\n4 T -\n", false),
    (b"1 T -\n", b"2 T -\n3 T -\n4 T 1\n", false),
];

/// Passes a block after a trace text.
fn check_seam(
    rt: &impl Abort,
    alloc: Global,
    rows: &[u8],
    block: &[u8],
    passes: bool,
) -> Result<(), Fail> {
    let text = with_header(alloc, HEADER, rows)?;
    let mut lines = Lines::new(alloc);
    let mut shown = Vec::new(alloc);
    lines.feed(&text, &mut shown)?;
    let ended = lines.ended_lines();
    let passed = pass(alloc, &mut lines, block, &mut shown)?;
    holds_for(
        rt,
        passed == passes && (passed || lines.ended_lines() == ended),
        block,
    );
    Ok(())
}

#[test]
fn a_block_is_passed_where_it_may_go_on(rt: HostRuntime) -> Result<(), Fail> {
    for (rows, block, passes) in &SEAMS {
        check_seam(&rt, rt.alloc(), rows, block, *passes)?;
    }
    Ok(())
}

/// A block of `lines` lines and `bytes` bytes, with a row of this number, or without rows where it is 0.
fn span(number: u32, lines: u32, bytes: u32) -> BlockSpan {
    BlockSpan {
        first: number,
        last: number,
        lines,
        bytes,
    }
}

#[test]
fn a_text_may_have_2_to_the_30_bytes_in_blocks(rt: HostRuntime) -> Result<(), Fail> {
    let mut rows = Vec::new(rt.alloc());
    let mut lines = Lines::new(rt.alloc());
    lines.feed(HEADER, &mut rows)?;
    let left = (1 << 30) - HEADER.len() as u32;
    assert!(rt; !lines.pass_block(&span(0, 200_000, left + 1)));
    assert!(rt; lines.pass_block(&span(0, 200_000, left - 6)));
    assert!(rt; !lines.pass_block(&span(0, 1, 7)));
    assert!(rt; lines.pass_block(&span(9, 1, 6)));
    assert!(rt; lines.feed(b"x", &mut rows) == Err(Fault::Trace(200_003, Kind::TextLarge)));
    Ok(())
}
