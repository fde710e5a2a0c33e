//! Events of one row on a channel.

ghost use Rattle.std.specs.Prelude.{◌≡◌};

use line_model::event::{Event, What};
use line_model::state::{Side, StateName};

/// Where the events of a row on a channel come from: what all of them share.
#[derive(Clone, Copy)]
pub(crate) struct EventOrigin {
    pub(crate) epoch: u32,
    pub(crate) channel: u16,
    pub(crate) packet: u32,
}

/// How a packet was judged: its row, its side, and the state in whose column its entry is.
#[derive(Clone, Copy)]
pub(crate) struct Judgement {
    pub(crate) origin: EventOrigin,
    pub(crate) side: Side,
    pub(crate) state: StateName,
}

impl EventOrigin {
    ghost use Rattle.channel_machine.specs.Events.{event_at};

    /// Returns an event of the row.
    pub(crate) fn event(self, what: What) -> Event
        ensures { result ≡ event_at self what }
    {
        Event {
            epoch: self.epoch,
            channel: self.channel,
            packet: self.packet,
            what,
        }
    }
}
