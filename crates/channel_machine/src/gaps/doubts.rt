//! What is in doubt of a settled channel.

ghost use Rattle.std.specs.Prelude.{◌≡◌, ◌&&◌, false, not, true};
ghost use Rattle.line_model.specs.channels.Channels.{of_side, with_side};
ghost use Rattle.line_model.specs.channels.Gaps as gaps;
ghost use Rattle.line_model.specs.channels.GapStep.{doubts_after_data};

use line_model::state::Side;
use std::marker::Model;

/// What is in doubt of a side of a settled channel.
#[derive(Clone, Copy)]
pub(crate) struct SideDoubts {
    /// Its next P(S).
    pub(crate) number: bool,
    /// Whether an interrupt of it is unconfirmed.
    pub(crate) interrupt: bool,
    /// The packet sequence that it has begun.
    pub(crate) sequence: bool,
}

impl SideDoubts {
    /// Records an accepted data packet: the next P(S) is certain, and so is the sequence where the packet ends one.
    fn settle_data(&mut self, is_category_a: bool)
        ensures { self.new ≡ record self.old {
          number = false;
          sequence = self.old.sequence && is_category_a;
        } }
    {
        self.number = false;
        if !is_category_a {
            self.sequence = false;
        }
    }
}

/// What is in doubt of a settled channel.
#[derive(Clone, Copy)]
pub struct Doubts {
    hidden: bool,
    of_t: SideDoubts,
    of_n: SideDoubts,
}

impl Model for Doubts {
    ghost use Rattle.line_model.specs.channels.Gaps as gaps;
    ghost use Rattle.channel_machine.specs.GapView.{doubts_in, doubts_of};

    ghost Value = { gaps.Doubts };

    ghost view = { doubts_of };

    ghost inverse = { doubts_in };
}

/// Nothing of a side is in doubt.
const NO_DOUBTS: SideDoubts = SideDoubts {
    number: false,
    interrupt: false,
    sequence: false,
};

impl Doubts {
    /// Returns what is in doubt where a packet of a side settles a channel: all but the numbers, and the next P(S) of
    /// its side where it is not data.
    pub(crate) fn settled(hidden: bool, side: Side, is_data: bool) -> Doubts
        ensures { result ≡ record {
          hidden = hidden;
          numbers = with_side side (not is_data) (gaps.of_both false);
          interrupts = gaps.of_both true;
          sequences = gaps.of_both true;
        } }
    {
        let settling = SideDoubts {
            number: !is_data,
            interrupt: true,
            sequence: true,
        };
        let settled = SideDoubts {
            number: false,
            ..settling
        };
        match side {
            Side::T => Doubts {
                hidden,
                of_t: settling,
                of_n: settled,
            },
            Side::N => Doubts {
                hidden,
                of_t: settled,
                of_n: settling,
            },
        }
    }

    /// Returns whether another call may be hidden after the open one.
    pub(crate) fn is_hidden(&self) -> bool
        ensures { result ≡ self.now.hidden }
    {
        self.hidden
    }

    /// Returns what is in doubt of a side.
    pub(crate) fn of(&self, side: Side) -> SideDoubts
        ensures { result ≡ record {
          number = of_side side self.now.numbers;
          interrupt = of_side side self.now.interrupts;
          sequence = of_side side self.now.sequences;
        } }
    {
        match side {
            Side::T => self.of_t,
            Side::N => self.of_n,
        }
    }

    /// Records that it is certain whether an interrupt of a side is unconfirmed.
    pub(crate) fn settle_interrupt(&mut self, side: Side)
        ensures { self.new ≡ record self.old {
          interrupts = with_side side false self.old.interrupts;
        } }
    {
        match side {
            Side::T => self.of_t.interrupt = false,
            Side::N => self.of_n.interrupt = false,
        }
    }

    /// Records an accepted data packet of a side: its next P(S) is certain, and so is its sequence where the packet
    /// ends one.
    pub(crate) fn settle_data(&mut self, side: Side, is_category_a: bool)
        ensures { self.new ≡ doubts_after_data side is_category_a self.old }
    {
        match side {
            Side::T => self.of_t.settle_data(is_category_a),
            Side::N => self.of_n.settle_data(is_category_a),
        }
    }

    /// Returns what is in doubt outside d1: only whether another call may be hidden.
    pub(crate) fn outside_d1(self) -> Doubts
        ensures { result ≡ gaps.no_doubts self.hidden }
    {
        Doubts {
            hidden: self.hidden,
            of_t: NO_DOUBTS,
            of_n: NO_DOUBTS,
        }
    }
}
