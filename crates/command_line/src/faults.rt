//! The line of a fault, printed to the errors. It needs no memory, so a fault is printed even where memory ran out.

ghost use Rattle.std.specs.Prelude.{◌≡◌, ◌<◌, ◌≤◌, ◌++◌, OnErr, OnOk, codes, decimal};
ghost use Rattle.line_model.specs.basics.Written.{PutsTo, TakesAll, TakesFront};
ghost use Rattle.command_line.specs.Faults.{capture_words, fault_line, fault_words, is_by_further, is_by_options, is_by_size, open_line, open_words, refused_words};

use itoa::Buffer;
use line_model::device::Sink;
use line_model::fault::Fault;
use line_model::write_buffer::WriteBuffer;
use std::io;
use std::io::ErrorKind;
use streams::input::{CaptureFault, OpenFault, OpenRefusal};

/// Puts a number.
fn put_number<E: Sink>(out: &mut WriteBuffer, errors: &mut E, number: u32)
    ensures { PutsTo E.Sink errors.old errors.new out.old out.new (decimal number) }
{
    let mut buffer = Buffer::new();
    out.put(errors, buffer.format(number).as_bytes());
}

/// Puts the words of a fault of the report of a piece.
fn put_piece<E: Sink>(out: &mut WriteBuffer, errors: &mut E, piece: u32, words: &[u8])
    ensures { PutsTo E.Sink errors.old errors.new out.old out.new
        (codes "piece " ++ decimal piece ++ words.now) }
{
    out.put(errors, b"piece ");
    put_number(out, errors, piece);
    out.put(errors, words);
}

/// Puts the words of a faulty line.
fn put_line<E: Sink>(out: &mut WriteBuffer, errors: &mut E, line: u32, kind: u32)
    ensures { PutsTo E.Sink errors.old errors.new out.old out.new
        (codes "line " ++ decimal line ++ codes ": kind " ++ decimal kind) }
{
    out.put(errors, b"line ");
    put_number(out, errors, line);
    out.put(errors, b": kind ");
    put_number(out, errors, kind);
}

/// Puts the words of a fault.
fn put_words<E: Sink>(out: &mut WriteBuffer, errors: &mut E, fault: Fault)
    ensures { PutsTo E.Sink errors.old errors.new out.old out.new (fault_words fault) }
{
    match fault {
        Fault::Memory => out.put(errors, b"out of memory"),
        Fault::Trace(line, kind) => put_line(out, errors, line, u32::from(kind.number())),
        Fault::Read => out.put(errors, b"read failed"),
        Fault::Write => out.put(errors, b"write failed"),
        Fault::Start => out.put(errors, b"thread refused"),
        Fault::Double(piece) => put_piece(out, errors, piece, b" posted twice"),
        Fault::UnknownPiece(piece) => put_piece(out, errors, piece, b" unknown"),
        Fault::Missing(piece) => put_piece(out, errors, piece, b" missing"),
    }
}

/// Puts the name of a trace.
fn put_name<E: Sink>(out: &mut WriteBuffer, errors: &mut E, name: &str)
    ensures { PutsTo E.Sink errors.old errors.new out.old out.new name.now }
{
    out.put(errors, name.as_bytes());
}

/// Puts the words of why a capture has no trace.
fn put_capture_words<E: Sink>(out: &mut WriteBuffer, errors: &mut E, fault: CaptureFault)
    ensures { PutsTo E.Sink errors.old errors.new out.old out.new (capture_words fault) }
{
    match fault {
        CaptureFault::Damaged => out.put(errors, b"the capture is damaged before its first frame"),
        CaptureFault::NoPacket => out.put(errors, b"the capture has no packet of X.25"),
        CaptureFault::Internet => out.put(
            errors,
            b"the capture has IP alone, and no packet of XOT on its port: --port N reads another one",
        ),
        CaptureFault::UnknownLink => out.put(
            errors,
            b"the link type of the capture is unknown: --as KIND says what its frames hold",
        ),
        CaptureFault::TwoCarriers => out.put(
            errors,
            b"the capture has packets of several kinds: --only lapb, --only x25 or --only xot reads one of them",
        ),
        CaptureFault::SeveralInterfaces => out.put(
            errors,
            b"the capture has packets of several interfaces: --interface N reads one of them",
        ),
        CaptureFault::Piped => out.put(
            errors,
            b"frames of a network have XOT, which --only xot reads once the pipe has ended; --only lapb or --only x25 reads a line in them",
        ),
    }
}

/// Whether a file is refused because the options of captures don't fit it. No error of the system is of this kind.
pub(crate) fn is_by_options(reason: Option<io::Error>) -> bool
    ensures { result ≡ is_by_options reason }
{
    match reason {
        Some(reason) => reason.kind() == ErrorKind::Other,
        None => false,
    }
}

/// Whether a file is refused because another one does not follow it. No error of the system is of this kind.
fn is_by_further(reason: Option<io::Error>) -> bool
    ensures { result ≡ is_by_further reason }
{
    match reason {
        Some(reason) => reason.kind() == ErrorKind::InvalidData,
        None => false,
    }
}

/// Whether a file is refused because it is too large.
fn is_by_size(reason: Option<io::Error>) -> bool
    ensures { result ≡ is_by_size reason }
{
    match reason {
        Some(reason) => reason.kind() == ErrorKind::FileTooLarge,
        None => false,
    }
}

/// Puts the words of why a file is refused.
fn put_refused_words<E: Sink>(out: &mut WriteBuffer, errors: &mut E, reason: Option<io::Error>)
    ensures { PutsTo E.Sink errors.old errors.new out.old out.new (refused_words reason) }
{
    if is_by_options(reason) {
        out.put(errors, b"the options don't fit it");
    } else if is_by_further(reason) {
        out.put(errors, b"the files after it don't continue it");
    } else if is_by_size(reason) {
        out.put(errors, b"it is too large");
    } else {
        out.put(errors, b"the system refuses it");
    }
}

/// Puts the words of why a trace could not be opened.
fn put_open_words<E: Sink>(
    out: &mut WriteBuffer,
    errors: &mut E,
    fault: OpenFault,
    reason: Option<io::Error>,
)
    ensures { PutsTo E.Sink errors.old errors.new out.old out.new (open_words fault reason) }
{
    match fault {
        OpenFault::Missing => out.put(errors, b"no such file"),
        OpenFault::Denied => out.put(errors, b"permission denied"),
        OpenFault::Directory => out.put(errors, b"it is a directory"),
        OpenFault::Refused => put_refused_words(out, errors, reason),
        OpenFault::Capture(fault) => put_capture_words(out, errors, fault),
    }
}

/// Prints the line of a trace that could not be opened. Fails where the errors fail, which accepted a first part of it.
pub(crate) fn print_unopened<E: Sink>(
    errors: &mut E,
    name: &str,
    refusal: OpenRefusal,
) -> Result<(), Fault>
    ensures ok { OnOk result (TakesAll E.Sink errors.old errors.new (open_line name.now refusal)) }
    ensures part { OnErr result (TakesFront E.Sink errors.old errors.new (open_line name.now refusal)) }
    ensures rising { E.failures errors.old ≤ E.failures errors.new }
    ensures cause { OnErr result (E.failures errors.old < E.failures errors.new) }
{
    let mut out = WriteBuffer::new();
    out.put(errors, b"x25scan: cannot open ");
    put_name(&mut out, errors, name);
    out.put(errors, b": ");
    put_open_words(&mut out, errors, refusal.fault, refusal.reason);
    out.put(errors, b"\n");
    out.end(errors)
}

/// Prints the line of a fault. Fails where the errors fail, which accepted a first part of it.
pub(crate) fn print_fault<E: Sink>(errors: &mut E, fault: Fault) -> Result<(), Fault>
    ensures ok { OnOk result (TakesAll E.Sink errors.old errors.new (fault_line fault)) }
    ensures part { OnErr result (TakesFront E.Sink errors.old errors.new (fault_line fault)) }
    ensures rising { E.failures errors.old ≤ E.failures errors.new }
    ensures cause { OnErr result (E.failures errors.old < E.failures errors.new) }
{
    let mut out = WriteBuffer::new();
    out.put(errors, b"x25scan: ");
    put_words(&mut out, errors, fault);
    out.put(errors, b"\n");
    out.end(errors)
}
