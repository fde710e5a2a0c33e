//! What becomes of the frames of a capture, and of how many. Each frame is read, or is left out for one reason.

ghost use Rattle.std.specs.Prelude.{◌≡◌};
ghost use Rattle.capture_rows.specs.Givens.{given_view};
ghost use Rattle.ip_segments.specs.Views.{segment_view};
ghost use Rattle.xot_circuits.specs.Items.{item_view};
ghost use Rattle.capture_report.specs.Circuits.{next_number};
ghost use Rattle.capture_report.specs.FrameUses.{use_of_carrier, use_of_fragment, use_of_given, use_of_reason, use_of_segment};
ghost use Rattle.capture_report.specs.Reasons.{no_counts, no_frames, sum_up_to, with_held, with_use};

use crate::circuit_batch::Batch;
use crate::port_sight::PortSight;
use capture_model::reason::Reason;
use capture_rows::given::{Given, LONGEST, of_held};
use ip_segments::carriers::CarrierFault;
use ip_segments::fragments::FragmentFault;
use ip_segments::segment::Segment;
use lapb_link::receiver::Shown;
use xot_circuits::circuit::What;
use xot_circuits::item::Item;

/// What becomes of a frame: it is read, or the reason why it is left out.
#[derive(Clone, Copy)]
pub(crate) enum FrameUse {
    /// It has a packet that is a row, or octets of a connection of XOT.
    Read,
    /// Its link type is not known.
    UnknownLink,
    /// It is of another interface than the chosen one.
    OtherInterface,
    /// It is of another protocol.
    OtherProtocol,
    /// Its packet came by another carrier than the chosen one.
    OtherCarrier,
    /// Its headers are cut or contradict themselves.
    BadHeader,
    /// Its frame check sequence is wrong.
    BadCheck,
    /// It is a LAPB frame that carries no packet.
    LinkFrame,
    /// It is a word of a Linux X.25 device.
    DeviceWord,
    /// It is a LAPB I frame that repeats one.
    Repeated,
    /// It is a LAPB I frame out of sequence.
    Held,
    /// Its packet was cut, is of no known side, or is too long: a gap is in its place.
    InGap,
    /// It is a fragment of a datagram that waits for the rest.
    Fragment,
    /// It is a fragment, and so many of its datagram, or of another one, are given up.
    GivenUp(u64),
    /// It is a TCP segment of other ports, and what it shows of them.
    OtherPort(PortSight),
    /// It is a TCP segment of a connection without the host of the DTE.
    OtherHost,
    /// It is a TCP segment without octets.
    NoOctets,
}

/// How many frames were read, and how many left out for each reason.
#[derive(Clone, Copy)]
pub(crate) struct FrameCounts {
    pub read: u64,
    pub unknown_link: u64,
    pub other_interface: u64,
    pub other_protocol: u64,
    pub other_carrier: u64,
    pub bad_header: u64,
    pub bad_check: u64,
    pub link_frame: u64,
    pub device_word: u64,
    pub repeated: u64,
    pub held: u64,
    pub in_gap: u64,
    pub fragments: u64,
    pub other_port: u64,
    pub other_host: u64,
    pub no_octets: u64,
}

/// What was counted of a capture.
#[derive(Clone, Copy)]
pub(crate) struct Counts {
    /// Its frames.
    pub frames: FrameCounts,
    /// Frames that were dropped, as the capture says.
    pub dropped: u64,
    /// LAPB I frames that were not recorded.
    pub lost_frames: u64,
    /// IP fragments without the rest of their datagram.
    pub lost_fragments: u64,
    /// XOT set-ups of permanent circuits.
    pub set_ups: u64,
    /// XOT packets that concern a whole interface.
    pub of_interface: u64,
    /// XOT packets for which no row has room.
    pub long_packets: u64,
    /// TCP connections that do not carry XOT.
    pub not_xot: u64,
    /// Circuits for which no logical channel was left.
    pub without_channel: u64,
    /// Gaps of circuits, without those at the beginning of a recording.
    pub circuit_gaps: u64,
}

/// Returns what becomes of a frame of a line that is left out.
fn use_of_reason(reason: Reason) -> FrameUse
    ensures { result ≡ use_of_reason reason }
{
    match reason {
        Reason::UnknownLink(_) => FrameUse::UnknownLink,
        Reason::OtherInterface(_) => FrameUse::OtherInterface,
        Reason::OtherProtocol => FrameUse::OtherProtocol,
        Reason::OtherCarrier => FrameUse::OtherCarrier,
        Reason::BadHeader | Reason::OtherAddress(_) => FrameUse::BadHeader,
        Reason::BadCheckSequence => FrameUse::BadCheck,
        Reason::LinkFrame => FrameUse::LinkFrame,
        Reason::DeviceWord(_) => FrameUse::DeviceWord,
        Reason::RepeatedFrame => FrameUse::Repeated,
        Reason::UntakenFrame => FrameUse::Held,
        Reason::CutPacket
        | Reason::NoSide
        | Reason::LongPacket
        | Reason::OtherBlock(_)
        | Reason::BadFile(_)
        | Reason::Dropped(_)
        | Reason::LostFrames(_) => FrameUse::InGap,
    }
}

/// Returns what becomes of a frame of a line, by what it gives.
fn use_of_given(given: &Given<'_>) -> FrameUse
    ensures { result ≡ use_of_given (given_view given.now) }
{
    match given {
        Given::Packet(..) => FrameUse::Read,
        Given::Gap(..) => FrameUse::InGap,
        Given::Held { .. } => FrameUse::Held,
        Given::Unnumbered(_) => FrameUse::LinkFrame,
        Given::LeftOut(reason) => use_of_reason(*reason),
    }
}

/// Returns what becomes of a frame without a datagram.
pub(crate) fn use_of_carrier(fault: CarrierFault) -> FrameUse
    ensures { result ≡ use_of_carrier fault }
{
    match fault {
        CarrierFault::Cut => FrameUse::BadHeader,
        CarrierFault::OtherProtocol | CarrierFault::TooDeep => FrameUse::OtherProtocol,
    }
}

/// Returns what becomes of a frame whose fragment is left out.
pub(crate) fn use_of_fragment(fault: FragmentFault) -> FrameUse
    ensures { result ≡ use_of_fragment fault }
{
    match fault {
        FragmentFault::OtherProtocol => FrameUse::OtherProtocol,
        FragmentFault::Cut | FragmentFault::Long => FrameUse::GivenUp(1),
    }
}

/// Returns what becomes of a frame with a segment of XOT. One with a FIN is read, since that has a number too.
pub(crate) fn use_of_segment(segment: &Segment<'_>) -> FrameUse
    ensures { result ≡ use_of_segment (segment_view segment.now) }
{
    if segment.payload.length == 0 && !segment.is_fin {
        FrameUse::NoOctets
    } else {
        FrameUse::Read
    }
}

/// Returns the number after another one, where there is one.
fn next(count: u64) -> u64
    ensures { result ≡ next_number count }
{
    count.saturating_add(1)
}

/// Returns the sum of two counts, where there is one.
fn sum(count: u64, more: u64) -> u64
    ensures { result ≡ sum_up_to count more }
{
    count.saturating_add(more)
}

impl FrameCounts {
    /// Returns none.
    fn none() -> FrameCounts
        ensures { result ≡ no_frames }
    {
        FrameCounts {
            read: 0,
            unknown_link: 0,
            other_interface: 0,
            other_protocol: 0,
            other_carrier: 0,
            bad_header: 0,
            bad_check: 0,
            link_frame: 0,
            device_word: 0,
            repeated: 0,
            held: 0,
            in_gap: 0,
            fragments: 0,
            other_port: 0,
            other_host: 0,
            no_octets: 0,
        }
    }

    /// Counts a frame.
    fn add(&mut self, frame: FrameUse)
        ensures { self.new ≡ with_use frame self.old }
    {
        match frame {
            FrameUse::Read => self.read = next(self.read),
            FrameUse::UnknownLink => self.unknown_link = next(self.unknown_link),
            FrameUse::OtherInterface => self.other_interface = next(self.other_interface),
            FrameUse::OtherProtocol => self.other_protocol = next(self.other_protocol),
            FrameUse::OtherCarrier => self.other_carrier = next(self.other_carrier),
            FrameUse::BadHeader => self.bad_header = next(self.bad_header),
            FrameUse::BadCheck => self.bad_check = next(self.bad_check),
            FrameUse::LinkFrame => self.link_frame = next(self.link_frame),
            FrameUse::DeviceWord => self.device_word = next(self.device_word),
            FrameUse::Repeated => self.repeated = next(self.repeated),
            FrameUse::Held => self.held = next(self.held),
            FrameUse::InGap => self.in_gap = next(self.in_gap),
            FrameUse::Fragment | FrameUse::GivenUp(_) => self.fragments = next(self.fragments),
            FrameUse::OtherPort(_) => self.other_port = next(self.other_port),
            FrameUse::OtherHost => self.other_host = next(self.other_host),
            FrameUse::NoOctets => self.no_octets = next(self.no_octets),
        }
    }

    /// Counts a held frame as one that was accepted, where there is one.
    fn accept(&mut self, frame: FrameUse)
        ensures { self.new ≡ with_held frame self.old }
    {
        if self.held > 0 {
            self.held -= 1;
            self.add(frame);
        }
    }
}

impl Counts {
    ghost use Rattle.capture_report.specs.Reasons.{all_shown_counted, item_counted, items_counted, shown_counted, use_counted, what_counted};

    /// Returns none.
    pub(crate) fn none() -> Counts
        ensures { result ≡ no_counts }
    {
        Counts {
            frames: FrameCounts::none(),
            dropped: 0,
            lost_frames: 0,
            lost_fragments: 0,
            set_ups: 0,
            of_interface: 0,
            long_packets: 0,
            not_xot: 0,
            without_channel: 0,
            circuit_gaps: 0,
        }
    }

    /// Counts frames that were dropped.
    pub(crate) fn add_dropped(&mut self, count: u64)
        ensures { self.new ≡ record self.old { dropped = sum_up_to self.old.dropped count } }
    {
        self.dropped = sum(self.dropped, count);
    }

    /// Counts fragments that are given up.
    pub(crate) fn add_fragments(&mut self, count: u64)
        ensures { self.new ≡ record self.old { lost_fragments = sum_up_to self.old.lost_fragments count } }
    {
        self.lost_fragments = sum(self.lost_fragments, count);
    }

    /// Counts circuits without a logical channel.
    pub(crate) fn with_channels(self, without: u64) -> Counts
        ensures { result ≡ record self { without_channel = without } }
    {
        Counts {
            without_channel: without,
            ..self
        }
    }

    /// Counts a frame.
    pub(crate) fn add(&mut self, frame: FrameUse)
        ensures { self.new ≡ use_counted frame self.old }
    {
        self.frames.add(frame);
        if let FrameUse::GivenUp(count) = frame {
            self.add_fragments(count);
        }
    }

    /// Counts a frame of a line, after what it shows of frames before it.
    pub(crate) fn add_given(&mut self, shown: &[Shown], given: &Given<'_>)
        ensures { self.new ≡ use_counted (use_of_given (given_view given.now)) (all_shown_counted shown.now self.old) }
    {
        self.add_all_shown(shown);
        self.add(use_of_given(given));
    }

    /// Counts what a frame of a line shows of frames before it.
    fn add_all_shown(&mut self, shown: &[Shown])
        ensures { self.new ≡ all_shown_counted shown.now self.old }
    {
        for one in shown {
            self.add_shown(one);
        }
    }

    /// Counts one of these: a held frame that was accepted, or frames that were not recorded.
    fn add_shown(&mut self, shown: &Shown)
        ensures { self.new ≡ shown_counted shown.now self.old }
    {
        match shown {
            Shown::Accepted(held) => self.frames.accept(use_of_given(&of_held(held))),
            Shown::Lost(_, count, _) => self.lost_frames = sum(self.lost_frames, *count as u64),
            Shown::Gap(_) | Shown::Refused(_) => {}
        }
    }

    /// Counts what the connections of XOT have that is left out.
    pub(crate) fn add_items(&mut self, items: &Batch)
        ensures { self.new ≡ items_counted items.now self.old }
    {
        for index in 0..items.len() {
            self.add_item(&items.item(index));
        }
    }

    /// Counts an item: a packet that is left out or too long, a gap, or the end of a connection that does not carry XOT.
    fn add_item(&mut self, item: &Item<'_>)
        ensures { self.new ≡ item_counted (item_view item.now) self.old }
    {
        match item {
            Item::LeftOut(sent) => self.add_left_out(sent.what),
            Item::Ended(ended) if ended.circuit.is_left => self.not_xot = next(self.not_xot),
            Item::Packet(sent) if sent.octets.len() > LONGEST => {
                self.long_packets = next(self.long_packets);
            }
            Item::Gap(gap) if !gap.is_beginning => self.circuit_gaps = next(self.circuit_gaps),
            Item::Ended(_) | Item::Packet(_) | Item::Gap(_) => {}
        }
    }

    /// Counts a packet that is left out.
    fn add_left_out(&mut self, what: What)
        ensures { self.new ≡ what_counted what self.old }
    {
        match what {
            What::SetUp => self.set_ups = next(self.set_ups),
            What::OfInterface(_) => self.of_interface = next(self.of_interface),
            What::Packet | What::OtherChannel(_) => {}
        }
    }
}
