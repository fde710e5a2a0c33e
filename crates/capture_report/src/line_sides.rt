//! Which sides of a line were recorded.

ghost use Rattle.std.specs.Prelude.{◌≡◌};
ghost use Rattle.std.specs.Option.{option_map};
ghost use Rattle.capture_rows.specs.Givens.{given_view};
ghost use Rattle.capture_rows.specs.Lines.{read_view};
ghost use Rattle.capture_report.specs.LineSides.{is_alone, no_side, no_sides, side_named};

use capture_rows::given::{Given, of_held};
use capture_rows::line::FrameRead;
use lapb_link::ends::Sender;
use lapb_link::receiver::Shown;
use line_model::state::Side;

/// What was recorded of a side.
#[derive(Clone, Copy)]
pub(crate) struct SideRecorded {
    /// Whether it has a packet.
    pub has_packet: bool,
    /// Whether a LAPB frame of it was recorded.
    pub has_frame: bool,
    /// Whether I frames of it were not recorded.
    pub is_missing: bool,
}

/// What was recorded of both sides of a line.
#[derive(Clone, Copy)]
pub(crate) struct LineSides {
    /// Of the DTE.
    pub of_t: SideRecorded,
    /// Of the DCE.
    pub of_n: SideRecorded,
}

/// A line of which one side alone was recorded.
#[derive(Clone, Copy)]
pub(crate) struct LineHalf {
    /// The side.
    pub side: Side,
    /// Whether the line is a LAPB link.
    pub is_link: bool,
}

/// Returns a side of which nothing was recorded.
fn no_side() -> SideRecorded
    ensures { result ≡ no_side }
{
    SideRecorded {
        has_packet: false,
        has_frame: false,
        is_missing: false,
    }
}

/// Returns whether a side alone was recorded: the other one has no packet, and no frame, or some of its I frames are missing.
fn is_alone(own: SideRecorded, other: SideRecorded) -> bool
    ensures { result ≡ is_alone own other }
{
    own.has_packet && !other.has_packet && (!other.has_frame || other.is_missing)
}

/// Returns the side of the trace that a side of the capture is.
fn side_named(is_swapped: bool, side: Side) -> Side
    ensures { result ≡ side_named is_swapped side }
{
    if is_swapped { side.other() } else { side }
}

impl LineSides {
    ghost use Rattle.capture_report.specs.LineSides.{all_shown_recorded, given_recorded, half_of, lost_of, packet_of, read_recorded, sent_by, shown_recorded, side_of, with_side};

    /// Returns the sides of a line of which nothing was recorded.
    pub(crate) fn none() -> LineSides
        ensures { result ≡ no_sides }
    {
        LineSides {
            of_t: no_side(),
            of_n: no_side(),
        }
    }

    /// Returns what was recorded of a side.
    fn of(&self, side: Side) -> SideRecorded
        ensures { result ≡ side_of side self.now }
    {
        match side {
            Side::T => self.of_t,
            Side::N => self.of_n,
        }
    }

    /// Sets what was recorded of a side.
    fn set(&mut self, side: Side, recorded: SideRecorded)
        ensures { self.new ≡ with_side side recorded self.old }
    {
        match side {
            Side::T => self.of_t = recorded,
            Side::N => self.of_n = recorded,
        }
    }

    /// Adds a packet of a side.
    fn add_packet(&mut self, side: Side)
        ensures { self.new ≡ packet_of side self.old }
    {
        let recorded = SideRecorded {
            has_packet: true,
            ..self.of(side)
        };
        self.set(side, recorded);
    }

    /// Adds I frames of a side that were not recorded.
    fn add_lost(&mut self, side: Side)
        ensures { self.new ≡ lost_of side self.old }
    {
        let recorded = SideRecorded {
            is_missing: true,
            ..self.of(side)
        };
        self.set(side, recorded);
    }

    /// Adds a LAPB frame of a sender. Where it shows that both ends have one address, the frames before it that seemed to
    /// lack others may have been of the other side.
    fn add_sender(&mut self, sender: Option<Sender>)
        ensures { self.new ≡ sent_by sender self.old }
    {
        let Some(sender) = sender else {
            return;
        };
        let before = self.of(sender.side);
        let recorded = SideRecorded {
            has_frame: true,
            is_missing: before.is_missing && !sender.is_news,
            ..before
        };
        self.set(sender.side, recorded);
    }

    /// Adds what a frame gives.
    fn add_given(&mut self, given: &Given<'_>)
        ensures { self.new ≡ given_recorded (given_view given.now) self.old }
    {
        match given {
            Given::Packet(side, _) => self.add_packet(*side),
            Given::Gap(..) | Given::Held { .. } | Given::Unnumbered(_) | Given::LeftOut(_) => {}
        }
    }

    /// Adds what a frame shows of a frame before it: a held one that was accepted, or I frames that were not recorded.
    fn add_shown(&mut self, shown: &Shown)
        ensures { self.new ≡ shown_recorded shown.now self.old }
    {
        match shown {
            Shown::Accepted(held) => self.add_given(&of_held(held)),
            Shown::Lost(side, ..) => self.add_lost(*side),
            Shown::Gap(_) | Shown::Refused(_) => {}
        }
    }

    /// Adds all of these.
    fn add_all_shown(&mut self, shown: &[Shown])
        ensures { self.new ≡ all_shown_recorded shown.now self.old }
    {
        for one in shown {
            self.add_shown(one);
        }
    }

    /// Adds a frame: who sent it, what it shows of frames before it, and what it gives.
    pub(crate) fn add(&mut self, shown: &[Shown], read: &FrameRead<'_>)
        ensures { self.new ≡ read_recorded shown.now (read_view read.now) self.old }
    {
        self.add_sender(read.sender);
        self.add_all_shown(shown);
        self.add_given(&read.given);
    }

    /// Returns the side of the trace that alone was recorded, where one is. `is_swapped`: its sides are exchanged.
    pub(crate) fn half(&self, is_swapped: bool) -> Option<LineHalf>
        ensures { result ≡ half_of is_swapped self.now }
    {
        if is_alone(self.of_t, self.of_n) {
            Some(LineHalf {
                side: side_named(is_swapped, Side::T),
                is_link: self.of_t.has_frame,
            })
        } else if is_alone(self.of_n, self.of_t) {
            Some(LineHalf {
                side: side_named(is_swapped, Side::N),
                is_link: self.of_n.has_frame,
            })
        } else {
            None
        }
    }
}
