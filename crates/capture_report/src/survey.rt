//! What the frames of a capture carry, and what its rows show of its header.

ghost use Rattle.std.specs.Prelude.{◌≡◌, None, OnOk};
ghost use Rattle.std.specs.List.{flat_map};
ghost use Rattle.std.specs.Option.{option_map, option_or, option_to_list};
ghost use Rattle.capture_model.specs.Frames.{frame_view};
ghost use Rattle.capture_model.specs.Kinds.{kind_of_link};
ghost use Rattle.capture_rows.specs.Givens.{given_view};
ghost use Rattle.capture_rows.specs.Lines.{read_view};
ghost use Rattle.capture_report.specs.Contents.{row_view};
ghost use Rattle.capture_report.specs.Headers.{nothing_seen};
ghost use Rattle.capture_report.specs.LineSides.{half_of};
ghost use Rattle.capture_report.specs.Records.{record_view};
ghost use Rattle.capture_report.specs.Rows.{noticed_rows, rows_behind, shown_rows};
ghost use Rattle.capture_report.specs.Sights.{has_datagram, is_private, kind_in_form, look_of};

use crate::frames::Record;
use crate::header::Seen;
use crate::line_sides::{LineHalf, LineSides};
use crate::reader::{own_row, shown_row};
use crate::reasons::Counts;
use crate::row::Row;
use capture_files::entry::Dropped;
use capture_model::carried::{Carried, Payload};
use capture_model::frame::Frame;
use capture_model::header::read_header;
use capture_model::kind::{LinkKind, kind_of_link};
use capture_rows::given::Given;
use capture_rows::line::{FrameRead, Line};
use ip_segments::carriers::in_frame;
use lapb_link::frames::Place;
use lapb_link::looks::{Form, form_of};
use lapb_link::receiver::Shown;
use std::alloc::{AllocError, Global};
use streams::input::CaptureFault;

/// What was seen of a capture as a whole.
#[derive(Drop)]
pub struct Survey {
    /// The link header of frames whose link type is unknown.
    unknown: Option<LinkKind>,
    /// The link header that the first frame of an unknown link type looks like, where that is one for private use;
    /// `None` where no link type was unknown.
    guess: Option<Option<LinkKind>>,
    seen: Seen,
    /// The number of the last frame.
    last: u64,
    /// The first interface with a packet, and whether another one has some.
    interface: Option<u32>,
    has_several: bool,
    /// Whether LAPB frames carried packets, frames were packets, frames had a datagram of IP.
    has_lapb: bool,
    has_packets: bool,
    has_internet: bool,
    /// How many frames were read, and how many left out for each reason.
    counts: Counts,
    /// Which sides were recorded.
    sides: LineSides,
}

impl Survey {
    ghost use Rattle.capture_report.specs.Sights.{dropped_sight, first_sight, frame_sight, given_sight, likely, rows_sight, sight_of};

    /// Returns the survey of a capture of which nothing was seen. `unknown` is the link header of unknown link types.
    pub fn new(alloc: Global, unknown: Option<LinkKind>) -> Survey
        ensures { sight_of result ≡ first_sight unknown }
    {
        Survey {
            unknown,
            guess: None,
            seen: Seen::new(alloc),
            last: 0,
            interface: None,
            has_several: false,
            has_lapb: false,
            has_packets: false,
            has_internet: false,
            counts: Counts::none(),
            sides: LineSides::none(),
        }
    }

    /// Sees the gap of frames that were dropped. Fails only when memory is refused.
    pub(crate) fn see_dropped(
        &mut self,
        line: &Line,
        dropped: Option<Dropped>,
    ) -> Result<(), AllocError>
        ensures { OnOk result (sight_of self.new ≡ dropped_sight dropped line.now (sight_of self.old)) }
    {
        match dropped {
            Some(dropped) if dropped.count > 0 && line.is_on(dropped.interface) => {
                self.counts.add_dropped(dropped.count);
                self.seen.see(&Row::gap_of_all(Place {
                    frame: dropped.number,
                    time: dropped.time,
                }))
            }
            _ => Ok(()),
        }
    }

    /// Sees what comes next in a capture, what it shows of frames before it, and what its frame gives. Fails only when
    /// memory is refused.
    pub(crate) fn see(
        &mut self,
        record: &Record<'_>,
        shown: &[Shown],
        read: Option<FrameRead<'_>>,
    ) -> Result<(), AllocError>
        ensures { OnOk result (sight_of self.new
            ≡ given_sight (record_view record.now).frame shown.now (option_map read_view read.entry) (sight_of self.old)) }
    {
        let Some(frame) = record.frame else {
            return Ok(());
        };
        self.see_frame(&frame);
        let Some(read) = read else {
            return Ok(());
        };
        self.see_carried(&frame, is_packet(&read.given));
        self.counts.add_given(shown, &read.given);
        self.sides.add(shown, &read);
        let place = Place {
            frame: frame.number,
            time: frame.time,
        };
        self.see_rows(place, shown, &read)
    }

    /// Sees the number of a frame, whether its link type is unknown, and whether it has a datagram.
    fn see_frame(&mut self, frame: &Frame<'_>)
        ensures { sight_of self.new ≡ frame_sight (Some (frame_view frame.now)) (sight_of self.old) }
    {
        self.last = frame.number;
        if self.guess.is_none() && kind_of_link(frame.link).is_none() {
            self.guess = Some(look_of(frame));
        }
        if has_datagram(self.unknown, frame) {
            self.has_internet = true;
        }
    }

    /// Sees the rows of a frame, and those that it shows of frames before it.
    fn see_rows(
        &mut self,
        place: Place,
        shown: &[Shown],
        read: &FrameRead<'_>,
    ) -> Result<(), AllocError>
        ensures { OnOk result (sight_of self.new ≡ rows_sight (noticed_rows place shown.now (read_view read.now)) (sight_of self.old)) }
    {
        self.see_shown(shown)?;
        self.see_behind(read.gap_before, place, &read.given)
    }

    /// Sees the rows of what a frame shows of frames before it.
    #[tactic(auto, using(crate::proofs::ReadingLemmas::sight_append))]
    fn see_shown(&mut self, shown: &[Shown]) -> Result<(), AllocError>
        ensures { OnOk result (sight_of self.new ≡ rows_sight (flat_map shown_rows shown.now) (sight_of self.old)) }
    {
        for one in shown {
            self.see_row(shown_row(one))?;
        }
        Ok(())
    }

    /// Sees the row of what a frame gives, behind a gap where packets may be missing.
    fn see_behind(
        &mut self,
        is_behind_gap: bool,
        place: Place,
        given: &Given<'_>,
    ) -> Result<(), AllocError>
        ensures { OnOk result (sight_of self.new ≡ rows_sight (rows_behind is_behind_gap place (given_view given.now)) (sight_of self.old)) }
    {
        if is_behind_gap {
            self.see_row(Some(Row::gap_of_all(place)))?;
        }
        self.see_row(own_row(place, given))
    }

    /// Sees a row, where there is one.
    fn see_row(&mut self, row: Option<Row<'_>>) -> Result<(), AllocError>
        ensures { OnOk result (sight_of self.new ≡ rows_sight (option_to_list (option_map row_view row.entry)) (sight_of self.old)) }
    {
        match row {
            Some(row) => self.seen.see(&row),
            None => Ok(()),
        }
    }

    /// Sees what a frame carries, and whether it gives a packet.
    fn see_carried(&mut self, frame: &Frame<'_>, is_packet: bool)
        ensures { sight_of self.new ≡ sight_of self.old }
    {
        let Some(kind) = kind_of_link(frame.link).or(self.unknown) else {
            return;
        };
        let header = read_header(kind, frame);
        if is_packet {
            self.see_interface(header.index.unwrap_or(frame.interface));
        }
        match header.carried {
            Carried::Lapb(_) | Carried::CheckedLapb(_) => self.has_lapb |= is_packet,
            Carried::Packet(_) | Carried::Device(_) => self.has_packets |= is_packet,
            Carried::Internet(_) | Carried::Other | Carried::Cut | Carried::Unknown => {}
        }
    }

    /// Sees the interface of a packet.
    fn see_interface(&mut self, interface: u32)
        ensures { sight_of self.new ≡ sight_of self.old }
    {
        match self.interface {
            Some(first) => self.has_several |= interface != first,
            None => self.interface = Some(interface),
        }
    }

    /// Returns the link header that unknown link types likely have, where the capture has no packet without it.
    pub(crate) fn likely(&self) -> Option<LinkKind>
        ensures { result ≡ likely (sight_of self.now) }
    {
        if self.seen.has_packets() {
            None
        } else {
            self.guess?
        }
    }

    /// Returns whether a frame has a datagram of IP.
    pub(crate) fn has_internet(&self) -> bool
        ensures { result ≡ self.now.has_internet }
    {
        self.has_internet
    }

    /// Returns the number of the last frame.
    pub(crate) fn last(&self) -> u64
        ensures { result ≡ self.now.last }
    {
        self.last
    }

    /// Returns how many frames were read, and how many left out for each reason.
    pub(crate) fn counts(&self) -> Counts
        ensures { result ≡ (sight_of self.now).counts }
    {
        self.counts
    }

    /// Returns the side of the trace that alone was recorded, where one is. `is_swapped`: its sides are exchanged.
    pub(crate) fn half(&self, is_swapped: bool) -> Option<LineHalf>
        ensures { result ≡ half_of is_swapped (sight_of self.now).sides }
    {
        self.sides.half(is_swapped)
    }

    /// Returns what the packets show of the header.
    pub(crate) fn seen(&self) -> &Seen
        ensures { result.now ≡ self.now.seen }
    {
        &self.seen
    }

    /// Returns what the packets show of the header, once nothing more is seen.
    pub(crate) fn into_seen(self) -> Seen
        ensures { result ≡ self.seen }
    {
        self.seen
    }

    /// Returns why the capture has no trace; `None` where it has one.
    pub(crate) fn fault(&self) -> Option<CaptureFault> {
        if self.has_several {
            return Some(CaptureFault::SeveralInterfaces);
        }
        if self.has_lapb && self.has_packets {
            return Some(CaptureFault::TwoCarriers);
        }
        if self.seen.has_packets() {
            return None;
        }
        if self.has_internet {
            return Some(CaptureFault::Internet);
        }
        if self.unknown.is_none() && self.guess.is_some() {
            return Some(CaptureFault::UnknownLink);
        }
        Some(CaptureFault::NoPacket)
    }
}

/// Returns whether a frame gives a packet, or may give one once it is accepted.
fn is_packet(given: &Given<'_>) -> bool {
    matches!(given, Given::Packet(..) | Given::Held { .. })
}

/// Returns whether a frame has a datagram of IP, perhaps in carriers of its link.
fn has_datagram(unknown: Option<LinkKind>, frame: &Frame<'_>) -> bool
    ensures { result ≡ has_datagram (option_or (kind_of_link frame.now.link) unknown) (frame_view frame.now) }
{
    let payload = Payload {
        octets: frame.octets,
        length: frame.length,
    };
    match kind_of_link(frame.link).or(unknown) {
        Some(kind) => in_frame(kind, payload).is_ok(),
        None => false,
    }
}

/// Returns the link header that a frame looks like. Link types 147 to 162 are for private use: LAPB may have one.
pub(crate) fn look_of(frame: &Frame<'_>) -> Option<LinkKind>
    ensures { result ≡ look_of (frame_view frame.now) }
{
    if !matches!(frame.link, 147..=162) {
        return None;
    }
    match form_of(frame.octets)? {
        Form::Plain => Some(LinkKind::Lapb),
        Form::Checked => Some(LinkKind::CheckedLapb),
    }
}
