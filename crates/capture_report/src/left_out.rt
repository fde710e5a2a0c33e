//! What the program says of a capture: what is left out of its rows, what is missing, and whether packets are.

ghost use Rattle.std.specs.Prelude.{◌≡◌};

use crate::file_frames::FileFlaws;
use crate::reasons::{Counts, FrameCounts};

/// A line of these.
#[derive(Clone, Copy)]
pub(crate) struct LeftOut {
    /// Whether it is left out, missing, or in the trace, in words.
    pub place: &'static str,
    /// Whether packets are missing where there is any.
    pub lacks_packets: bool,
    /// What it is about.
    pub words: &'static str,
    /// How many there are; of none there is no line.
    pub count: u64,
}

/// Returns the line of what is left out, and is no packet.
fn out(words: &'static str, count: u64) -> LeftOut
    ensures { result.count ≡ count }
{
    LeftOut {
        place: "left out",
        lacks_packets: false,
        words,
        count,
    }
}

/// Returns the line of what is left out, and may have been packets.
fn damaged(words: &'static str, count: u64) -> LeftOut
    ensures { result.count ≡ count }
{
    LeftOut {
        lacks_packets: true,
        ..out(words, count)
    }
}

/// Returns the line of what is missing.
fn missing(words: &'static str, count: u64) -> LeftOut
    ensures { result.count ≡ count }
{
    LeftOut {
        place: "missing",
        ..damaged(words, count)
    }
}

/// Returns the line of what is missing, by its gap rows.
fn in_gaps(words: &'static str, count: u64) -> LeftOut
    ensures { result.count ≡ count }
{
    LeftOut {
        place: "in the trace",
        ..damaged(words, count)
    }
}

/// Returns the lines of frames in their order.
pub(crate) fn frames_left_out(frames: &FrameCounts) -> [LeftOut; 13] {
    [
        out(
            "frames of interfaces that --interface does not name",
            frames.other_interface,
        ),
        out("frames of other protocols", frames.other_protocol),
        out("TCP segments of other ports", frames.other_port),
        out(
            "TCP segments of connections without the host of --dte",
            frames.other_host,
        ),
        out("packets that --only does not name", frames.other_carrier),
        out("TCP segments without octets", frames.no_octets),
        out("LAPB frames that carry no packet", frames.link_frame),
        out("LAPB I frames that repeat one", frames.repeated),
        out("LAPB I frames out of sequence", frames.held),
        out("words of a Linux X.25 device", frames.device_word),
        damaged("frames of an unknown link type", frames.unknown_link),
        damaged(
            "frames whose headers are cut or contradict themselves",
            frames.bad_header,
        ),
        damaged(
            "frames whose frame check sequence is wrong",
            frames.bad_check,
        ),
    ]
}

/// Returns the other lines in their order.
pub(crate) fn others_left_out(counts: &Counts, flaws: FileFlaws) -> [LeftOut; 11] {
    [
        out("blocks of the file that hold no frame", flaws.other_blocks),
        damaged("damages of the file", flaws.damages),
        missing(
            "frames that were dropped, as the capture says",
            counts.dropped,
        ),
        missing("LAPB I frames that were not recorded", counts.lost_frames),
        damaged(
            "packets that were cut off, of unknown side, or too long",
            counts.frames.in_gap.saturating_add(counts.long_packets),
        ),
        damaged(
            "IP fragments without the rest of their datagram",
            counts.lost_fragments,
        ),
        damaged("TCP connections that do not speak XOT", counts.not_xot),
        damaged(
            "XOT packets that speak of a whole interface",
            counts.of_interface,
        ),
        out("XOT set-ups of permanent circuits", counts.set_ups),
        damaged(
            "circuits for which no channel was left",
            counts.without_channel,
        ),
        in_gaps(
            "gap rows, where octets of TCP connections are missing",
            counts.circuit_gaps,
        ),
    ]
}

/// Returns whether packets are missing by one of these lines.
fn is_short(lines: &[LeftOut]) -> bool {
    lines
        .iter()
        .any(|line| line.lacks_packets && line.count > 0)
}

/// Returns whether packets of a capture may be missing, as `x25trace` says it by its status.
pub(crate) fn lacks_packets(counts: &Counts, flaws: FileFlaws) -> bool {
    is_short(&frames_left_out(&counts.frames)) || is_short(&others_left_out(counts, flaws))
}
