//! A line: the frames of one link, and what each gives.

ghost use Rattle.std.specs.Prelude.{◌≡◌, ◌++◌, [], IfOk, OnOk, false, true};
ghost use Rattle.capture_model.specs.HeaderViews.{header_view};
ghost use Rattle.capture_model.specs.Views.{payload_view};
ghost use Rattle.capture_model.specs.Frames.{frame_view};
ghost use Rattle.lapb_link.specs.Links.{link_frame_view, new_link, what_view};
ghost use Rattle.lapb_link.specs.Receiving.{held_shown};
ghost use Rattle.std.specs.Option.{option_map};
ghost use Rattle.capture_rows.specs.Choosing.{is_on};
ghost use Rattle.capture_rows.specs.Givens as given;
ghost use Rattle.capture_rows.specs.Givens.{given_view};
ghost use Rattle.capture_rows.specs.Lines.{alone, as_given, carried_read, frame_read, lapb_read, link_frame, packet_read, read_view, shortened, side_of, unframed_whole};

use crate::choices::{Carrier, Choices};
use crate::given::{Given, LONGEST, lost, packet_or_gap};
use crate::station::station_of;
use capture_model::carried::{Carried, Payload};
use capture_model::device::device_packet;
use capture_model::frame::{Direction, Frame};
use capture_model::header::{LinkHeader, read_header};
use capture_model::reason::Reason;
use lapb_link::check::unframe;
use lapb_link::ends::{Ends, Sender};
use lapb_link::frames::Place;
use lapb_link::link::{Link, LinkFrame, What};
use lapb_link::modulus::Modulus;
use lapb_link::receiver::Shown;
use line_model::state::Side;
use std::alloc::{AllocError, Global};

/// The frames of a line that were read.
#[derive(Drop)]
pub struct Line {
    choices: Choices,
    link: Link,
    /// Whether frames may be missing before the next packet that has no link header. LAPB numbers its frames.
    may_miss: bool,
}

/// What a frame gives.
#[derive(Clone, Copy)]
pub struct FrameRead<'a> {
    /// Who sent it, of a LAPB frame whose sender is known.
    pub sender: Option<Sender>,
    /// Whether packets of any channel may be missing before it.
    pub gap_before: bool,
    /// What it gives.
    pub given: Given<'a>,
}

impl Line {
    /// Returns a line of which nothing was read. `modulus` is that of its link; `None` where SABM and SABME show it.
    pub fn new(
        alloc: Global,
        choices: Choices,
        modulus: Option<Modulus>,
        ends: Ends,
    ) -> Result<Line, AllocError>
        ensures { IfOk result (λ l. l ≡ record { choices = choices; link = new_link modulus ends; may_miss = false }) }
    {
        Ok(Line {
            choices,
            link: Link::new(alloc, modulus, ends)?,
            may_miss: false,
        })
    }

    /// Returns whether frames of an interface are read.
    pub fn is_on(&self, interface: u32) -> bool
        ensures { result ≡ is_on self.now.choices interface }
    {
        self.choices.is_on(interface)
    }

    /// Notes that frames may be missing before the next one, as the file shows.
    pub fn miss(&mut self)
        ensures { self.new ≡ record self.old { may_miss = true } }
    {
        self.may_miss = true;
    }

    /// Reads the next frame, and returns what it gives. What a LAPB frame shows of the frames before it is appended to
    /// `out`; its own packet comes after that. Fails only when memory is refused; drop the line then.
    pub fn read<'a>(
        &mut self,
        alloc: Global,
        frame: &Frame<'a>,
        out: &mut Vec<Shown>,
    ) -> Result<FrameRead<'a>, AllocError>
        ensures read { IfOk result (λ read. read_view read ≡ (frame_read (frame_view frame.now) self.old).read) }
        ensures after { OnOk result (self.new ≡ (frame_read (frame_view frame.now) self.old).after) }
        ensures shown { OnOk result (out.new.items ≡ out.old.items ++ (frame_read (frame_view frame.now) self.old).shown) }
    {
        let Some(kind) = self.choices.kind(frame.link) else {
            return Ok(left_out(Reason::UnknownLink(frame.link)));
        };
        let header = read_header(kind, frame);
        let interface = header.index.unwrap_or(frame.interface);
        if !self.choices.is_on(interface) {
            return Ok(left_out(Reason::OtherInterface(interface)));
        }
        let place = Place {
            frame: frame.number,
            time: frame.time,
        };
        self.read_carried(alloc, place, &header, out)
    }

    /// Reads the end of the recording: frames that are held were not accepted.
    pub fn finish(&mut self, out: &mut Vec<Shown>) -> Result<(), AllocError>
        ensures { OnOk result (out.new.items ≡ out.old.items ++ (held_shown self.old.link.of_t ++ held_shown self.old.link.of_n)) }
    {
        self.link.finish(out)
    }

    /// Reads what comes after the link header of a frame.
    #[tactic(auto, unfolding(crate::specs::Lines::carried_read))]
    fn read_carried<'a>(
        &mut self,
        alloc: Global,
        place: Place,
        header: &LinkHeader<'a>,
        out: &mut Vec<Shown>,
    ) -> Result<FrameRead<'a>, AllocError>
        ensures read { IfOk result (λ read. read_view read ≡ (carried_read place (header_view header.now) self.old).read) }
        ensures after { OnOk result (self.new ≡ (carried_read place (header_view header.now) self.old).after) }
        ensures shown { OnOk result (out.new.items ≡ out.old.items ++ (carried_read place (header_view header.now) self.old).shown) }
    {
        match header.carried {
            Carried::Lapb(payload) => {
                let frame = self.link_frame(place, header, payload.octets, payload.is_cut());
                self.read_lapb(alloc, &frame, out)
            }
            Carried::CheckedLapb(payload) => match unframe_whole(payload) {
                Some(octets) => {
                    let frame = self.link_frame(place, header, octets, false);
                    self.read_lapb(alloc, &frame, out)
                }
                None => Ok(left_out(Reason::BadCheckSequence)),
            },
            Carried::Packet(payload) => Ok(self.read_packet(header.direction, payload)),
            Carried::Device(payload) => match device_packet(payload) {
                Ok(payload) => Ok(self.read_packet(header.direction, payload)),
                Err(reason) => Ok(left_out(reason)),
            },
            Carried::Internet(_) | Carried::Other | Carried::Unknown => {
                Ok(left_out(Reason::OtherProtocol))
            }
            Carried::Cut => {
                self.may_miss = true;
                Ok(left_out(Reason::BadHeader))
            }
        }
    }

    /// Returns a LAPB frame for its link. Of a long one the octets are left out that no row has.
    fn link_frame<'a>(
        &self,
        place: Place,
        header: &LinkHeader<'_>,
        octets: &'a [u8],
        is_cut: bool,
    ) -> LinkFrame<'a>
        ensures { link_frame_view result ≡ link_frame self.now place (header_view header.now) octets.now is_cut }
    {
        LinkFrame {
            place,
            source: station_of(self.choices.station_by, header),
            octets: shortened(LONGEST_FRAME, octets),
            is_cut,
        }
    }

    /// Reads a LAPB frame.
    fn read_lapb<'a>(
        &mut self,
        alloc: Global,
        frame: &LinkFrame<'a>,
        out: &mut Vec<Shown>,
    ) -> Result<FrameRead<'a>, AllocError>
        ensures read { IfOk result (λ read. read_view read ≡ (lapb_read (link_frame_view frame.now) self.old).read) }
        ensures after { OnOk result (self.new ≡ (lapb_read (link_frame_view frame.now) self.old).after) }
        ensures shown { OnOk result (out.new.items ≡ out.old.items ++ (lapb_read (link_frame_view frame.now) self.old).shown) }
    {
        if !self.choices.is_chosen(Carrier::Lapb) {
            return Ok(left_out(Reason::OtherCarrier));
        }
        let taken = self.link.read(alloc, frame, out)?;
        Ok(FrameRead {
            sender: taken.sender,
            gap_before: false,
            given: as_given(taken.sender, frame.is_cut, taken.what),
        })
    }

    /// Reads a packet without a link header. It has no number, so where frames may be missing before it a gap comes first.
    fn read_packet<'a>(&mut self, direction: Direction, payload: Payload<'a>) -> FrameRead<'a>
        ensures read { read_view result ≡ (packet_read direction (payload_view payload.entry) self.old).read }
        ensures after { self.new ≡ (packet_read direction (payload_view payload.entry) self.old).after }
        ensures shown { (packet_read direction (payload_view payload.entry) self.old).shown ≡ [] }
    {
        if !self.choices.is_chosen(Carrier::Packet) {
            return left_out(Reason::OtherCarrier);
        }
        let gap_before = self.may_miss;
        self.may_miss = false;
        let given = match side_of(self.choices.host, direction) {
            Some(side) => packet_or_gap(side, payload.octets, payload.is_cut()),
            None => lost(payload.octets, Reason::NoSide),
        };
        FrameRead {
            sender: None,
            gap_before,
            given,
        }
    }
}

/// The most octets of a LAPB frame that are read: no row has room for more.
const LONGEST_FRAME: usize = LONGEST + 4;

/// Returns the first octets, so many at the most.
fn shortened<'a>(most: usize, octets: &'a [u8]) -> &'a [u8]
    ensures { result.now ≡ shortened most octets.entry.now }
{
    if octets.len() > most {
        &octets[..most]
    } else {
        octets
    }
}

/// Returns what a frame gives that is left out.
fn left_out<'a>(reason: Reason) -> FrameRead<'a>
    ensures { read_view result ≡ alone (given.LeftOut reason) }
{
    FrameRead {
        sender: None,
        gap_before: false,
        given: Given::LeftOut(reason),
    }
}

/// Returns the octets of a frame with its check sequence, where it was recorded whole and the check sequence is right.
fn unframe_whole<'a>(payload: Payload<'a>) -> Option<&'a [u8]>
    ensures { option_map (λ o. o.now) result ≡ unframed_whole (payload_view payload.entry) }
{
    if payload.is_cut() {
        None
    } else {
        unframe(payload.octets)
    }
}

/// Returns what a LAPB frame gives.
fn as_given<'a>(sender: Option<Sender>, is_cut: bool, what: What<'a>) -> Given<'a>
    ensures { given_view result ≡ as_given sender is_cut (what_view what.entry) }
{
    match what {
        What::Packet(octets) => match sender {
            Some(sender) => packet_or_gap(sender.side, octets, is_cut),
            None => lost(octets, Reason::NoSide),
        },
        What::Held(octets) => match sender {
            Some(sender) => Given::Held {
                side: sender.side,
                octets,
                is_cut,
            },
            None => lost(octets, Reason::NoSide),
        },
        What::Unnumbered(kind) => Given::Unnumbered(kind),
        What::LeftOut(reason) => Given::LeftOut(reason),
    }
}

/// Returns the side of the host that sent a packet.
fn side_of(host: Side, direction: Direction) -> Option<Side>
    ensures { result ≡ side_of host direction }
{
    match direction {
        Direction::Unknown => None,
        Direction::Sent => Some(host),
        Direction::Received => Some(host.other()),
    }
}
