//! TCP connections: what comes of their segments.

use capture_model::carried::Payload;
use ip_segments::segment::Segment;
use std::alloc::{AllocError, Global};
use std::process::Abort;
use std::test::Fail;
use tcp_streams::connection::{Connection, End, Event};
use tcp_streams::connections::{Connections, Placed};
use tcp_streams::ends::{Endpoint, Ends};
use tcp_streams::piece::Recorded;

/// What a segment is besides its octets.
#[derive(Clone, Copy)]
pub(crate) enum Form {
    Plain,
    Syn,
    Fin,
    /// The recorder cut this many octets off.
    Cut(u8),
}

/// A segment: its sender, its form, its number, the one that it acknowledges (0 for none), its octets. Last, what comes of it.
///
/// Each piece and each gap begins with its direction (`>`, `<`). In it are octets, those that were cut off (`_`), those that are
/// missing (`?`) and a FIN (`.`). Before all that, `=` says that the segment was lent, and `!` that it has another octet than
/// one that waits.
type Step = (End, Form, u32, u32, &'static [u8], &'static [u8]);

/// Returns a segment.
pub(crate) fn segment(form: Form, sequence: u32, acknowledged: u32, octets: &[u8]) -> Segment<'_> {
    let cut = match form {
        Form::Cut(cut) => u32::from(cut),
        _ => 0,
    };
    Segment {
        source: 1025,
        target: 1998,
        sequence,
        acknowledged: if acknowledged == 0 {
            None
        } else {
            Some(acknowledged)
        },
        is_syn: matches!(form, Form::Syn),
        is_fin: matches!(form, Form::Fin),
        is_reset: false,
        payload: Payload {
            octets,
            length: (octets.len() % 256) as u32 + cut,
        },
    }
}

/// Returns the sign of a direction.
fn sign(end: End) -> u8 {
    match end {
        End::Opener => b'>',
        End::Answerer => b'<',
    }
}

/// Adds octets that are not there.
fn add_absent(out: &mut Vec<u8>, octet: u8, count: u64) -> Result<(), AllocError> {
    for _ in 0..count.min(9) {
        out.push(octet)?;
    }
    Ok(())
}

/// Adds a gap.
fn add_gap(out: &mut Vec<u8>, end: End, octets: u64) -> Result<(), AllocError> {
    out.push(sign(end))?;
    add_absent(out, b'?', octets)
}

/// Adds what comes next.
fn add(out: &mut Vec<u8>, event: &Event) -> Result<(), AllocError> {
    let (end, piece) = match event {
        Event::Gap(gap) => return add_gap(out, gap.end, gap.octets),
        Event::Piece(end, piece) => (*end, piece),
    };
    out.push(sign(end))?;
    let octets = piece.octets.as_slice();
    out.extend_from_slice(octets)?;
    let (places, fin) = (
        piece.until.saturating_sub(piece.at),
        if piece.is_end { 1 } else { 0 },
    );
    add_absent(out, b'_', places.saturating_sub(octets.len() as u64 + fin))?;
    if piece.is_end {
        out.push(b'.')?;
    }
    Ok(())
}

/// Reads a segment, and adds what comes of it.
fn read(
    connection: &mut Connection,
    from: End,
    segment: &Segment<'_>,
    frame: u64,
    out: &mut Vec<u8>,
) -> Result<(), AllocError> {
    if connection.lend(from, segment) {
        out.push(b'=')?;
        out.push(sign(from))?;
        return out.extend_from_slice(segment.payload.octets);
    }
    let fed = connection.feed(from, segment, Recorded { frame, time: None })?;
    if fed.differs {
        out.push(b'!')?;
    }
    if let Some(octets) = fed.unsaid {
        add_gap(out, from.other(), octets)?;
    }
    if let Some(octets) = fed.opening {
        add_gap(out, from, octets)?;
    }
    for _ in 0..20 {
        match connection.next(false) {
            Some(event) => add(out, &event)?,
            None => return Ok(()),
        }
    }
    Ok(())
}

/// Checks what comes of each segment.
fn check(
    rt: &impl Abort,
    alloc: Global,
    connection: &mut Connection,
    steps: &[Step],
) -> Result<(), AllocError> {
    let mut frame = 0u64;
    for (from, form, sequence, acknowledged, octets, expected) in steps {
        frame = frame.saturating_add(1);
        let mut found = Vec::new(alloc);
        let segment = segment(*form, *sequence, *acknowledged, octets);
        read(connection, *from, &segment, frame, &mut found)?;
        assert!(rt; found.as_slice() == *expected);
    }
    Ok(())
}

/// Returns a connection whose SYNs were read. The number of the first octet of the end that answers is 5000.
fn opened(rt: &impl Abort, alloc: Global, number: u32) -> Result<Connection, AllocError> {
    let mut connection = Connection::new(alloc);
    let syns: [Step; 2] = [
        (End::Opener, Form::Syn, number, 0, b"", b""),
        (
            End::Answerer,
            Form::Syn,
            4999,
            number.wrapping_add(1),
            b"",
            b"",
        ),
    ];
    check(rt, alloc, &mut connection, &syns)?;
    Ok(connection)
}

/// Segments in order, late, and repeated; an answer that was recorded before its question.
const IN_ANY_ORDER: [Step; 7] = [
    (End::Opener, Form::Plain, 1000, 5000, b"ab", b"=>ab"),
    (End::Opener, Form::Plain, 1004, 5000, b"ef", b""),
    (End::Opener, Form::Plain, 1002, 5000, b"cd", b">cd>ef"),
    (End::Opener, Form::Plain, 1000, 5000, b"abcd", b""),
    (End::Answerer, Form::Plain, 5002, 1006, b"zw", b""),
    (End::Opener, Form::Plain, 1006, 5004, b"gh", b""),
    (End::Answerer, Form::Plain, 5000, 1006, b"xy", b"<xy<zw>gh"),
];

/// The first octet has the number 2^32 - 1, and the next one 0.
const OVER_THE_LAST_NUMBER: [Step; 4] = [
    (End::Opener, Form::Plain, 0xFFFF_FFFF, 5000, b"ab", b"=>ab"),
    (End::Opener, Form::Plain, 3, 5000, b"ef", b""),
    (End::Answerer, Form::Plain, 5000, 5, b"xy", b""),
    (End::Opener, Form::Plain, 1, 5000, b"cd", b">cd>ef<xy"),
];

/// A segment with another octet than one that waits; one that was cut, and a whole copy of it.
const COPIES: [Step; 6] = [
    (End::Opener, Form::Plain, 1002, 5000, b"cd", b""),
    (End::Opener, Form::Plain, 1000, 5000, b"abXde", b"!>ab>cd>e"),
    (End::Opener, Form::Cut(2), 1006, 5000, b"g", b""),
    (End::Opener, Form::Plain, 1006, 5000, b"ghi", b""),
    (End::Opener, Form::Plain, 1005, 5000, b"f", b">f>g__"),
    (End::Opener, Form::Plain, 1009, 5000, b"j", b"=>j"),
];

#[test]
fn segments_are_put_in_order_and_first_copies_count(rt: HostRuntime) -> Result<(), Fail> {
    let alloc = rt.alloc();
    check(&rt, alloc, &mut opened(&rt, alloc, 999)?, &IN_ANY_ORDER)?;
    let mut connection = opened(&rt, alloc, 0xFFFF_FFFE)?;
    check(&rt, alloc, &mut connection, &OVER_THE_LAST_NUMBER)?;
    check(&rt, alloc, &mut opened(&rt, alloc, 999)?, &COPIES)?;
    Ok(())
}

/// Three octets were acknowledged and not recorded; eight pieces wait for them, and a ninth.
const LOST: [Step; 10] = [
    (End::Answerer, Form::Plain, 5000, 1012, b"", b""),
    (End::Opener, Form::Plain, 1003, 5000, b"d", b""),
    (End::Opener, Form::Plain, 1004, 5000, b"e", b""),
    (End::Opener, Form::Plain, 1005, 5000, b"f", b""),
    (End::Opener, Form::Plain, 1006, 5000, b"g", b""),
    (End::Opener, Form::Plain, 1007, 5000, b"h", b""),
    (End::Opener, Form::Plain, 1008, 5000, b"i", b""),
    (End::Opener, Form::Plain, 1009, 5000, b"j", b""),
    (End::Opener, Form::Plain, 1010, 5000, b"k", b""),
    (
        End::Opener,
        Form::Plain,
        1011,
        5000,
        b"l",
        b">???>d>e>f>g>h>i>j>k>l",
    ),
];

#[test]
fn octets_that_nine_pieces_wait_for_are_given_up(rt: HostRuntime) -> Result<(), Fail> {
    let alloc = rt.alloc();
    check(&rt, alloc, &mut opened(&rt, alloc, 999)?, &LOST)?;
    Ok(())
}

/// Nothing was recorded of its opening. Of the end that answers, what is acknowledged was not recorded, nor three octets after
/// that.
const FROM_THE_MIDDLE: [Step; 3] = [
    (End::Opener, Form::Plain, 1000, 5000, b"ab", b">ab"),
    (End::Opener, Form::Plain, 1002, 5004, b"cd", b"<????>cd"),
    (End::Answerer, Form::Plain, 5007, 1004, b"xy", b"<???<xy"),
];

#[test]
fn connection_may_begin_in_the_middle(rt: HostRuntime) -> Result<(), Fail> {
    let alloc = rt.alloc();
    let mut connection = Connection::new(alloc);
    check(&rt, alloc, &mut connection, &FROM_THE_MIDDLE)?;
    Ok(())
}

/// Both ends send a FIN; octets come again.
const ENDING: [Step; 3] = [
    (End::Opener, Form::Fin, 1000, 5000, b"ab", b">ab."),
    (End::Answerer, Form::Fin, 5000, 1003, b"", b"<."),
    (End::Opener, Form::Plain, 1000, 5001, b"ab", b""),
];

/// Both ends acknowledge all octets, of which two were not recorded.
const ENDING_WITH_A_LOSS: [Step; 3] = [
    (End::Opener, Form::Plain, 1002, 5000, b"cd", b""),
    (End::Opener, Form::Fin, 1004, 5000, b"", b""),
    (End::Answerer, Form::Fin, 5000, 1005, b"", b">??>cd>.<."),
];

#[test]
fn connection_is_over_after_both_fins(rt: HostRuntime) -> Result<(), Fail> {
    let alloc = rt.alloc();
    let mut connection = opened(&rt, alloc, 999)?;
    assert!(rt; !connection.is_over());
    check(&rt, alloc, &mut connection, &ENDING)?;
    assert!(rt; connection.is_over());
    let mut connection = opened(&rt, alloc, 999)?;
    check(&rt, alloc, &mut connection, &ENDING_WITH_A_LOSS)?;
    assert!(rt; connection.is_over() && connection.cost() == 0);
    Ok(())
}

/// Returns an end of a connection.
pub(crate) fn endpoint(port: u16) -> Endpoint {
    Endpoint {
        is_version_6: false,
        address: 0xC000_0201,
        port,
    }
}

/// Checks that another SYN begins another connection, and what the one before it still has.
fn check_another(
    rt: &impl Abort,
    alloc: Global,
    table: &mut Connections,
    ends: Ends,
) -> Result<(), Fail> {
    let other = segment(Form::Syn, 70_000, 0, b"");
    let Placed::Begins(place, Some(before)) = table.place(ends, &other, false)? else {
        return Err(Fail::from("no other connection begins"));
    };
    assert!(rt; (place.number, before.number) == (2, 1));
    let (mut connection, mut found) = (before.connection, Vec::new(alloc));
    for _ in 0..3 {
        if let Some(event) = connection.finish() {
            add(&mut found, &event)?;
        }
    }
    assert!(rt; found.as_slice() == b">??>cd".as_slice());
    let there = table.find(ends.turned());
    assert!(rt; there.is_some_and(|there| (there.number, there.from) == (2, End::Answerer)));
    assert!(rt; !table.lend(&place, &other));
    table.give_up(&place);
    assert!(rt; table.finish(&place).is_none());
    table.end(&place)?;
    Ok(())
}

#[test]
fn another_syn_opens_another_connection(rt: HostRuntime) -> Result<(), Fail> {
    let mut table = Connections::new(rt.alloc());
    let ends = Ends {
        first: endpoint(1025),
        second: endpoint(1998),
    };
    let recorded = Recorded {
        frame: 1,
        time: None,
    };
    let acknowledgement = segment(Form::Plain, 1000, 5000, b"");
    assert!(rt; matches!(table.place(ends, &acknowledgement, false)?, Placed::Nowhere));
    let syn = segment(Form::Syn, 999, 0, b"");
    let Placed::Begins(place, None) = table.place(ends, &syn, false)? else {
        return Err(Fail::from("no connection begins"));
    };
    table.feed(&place, &syn, recorded)?;
    let answer = segment(Form::Syn, 4999, 1000, b"");
    let Placed::GoesOn(back) = table.place(ends.turned(), &answer, true)? else {
        return Err(Fail::from("the answer belongs to no connection"));
    };
    assert!(rt; (back.number, back.from) == (1, End::Answerer));
    table.feed(&back, &answer, recorded)?;
    assert!(rt; matches!(table.place(ends, &syn, false)?, Placed::GoesOn(_)));
    table.feed(&place, &segment(Form::Plain, 1002, 5000, b"cd"), recorded)?;
    assert!(rt; table.next(&place).is_none() && !table.is_over(&place));
    check_another(&rt, rt.alloc(), &mut table, ends)
}
