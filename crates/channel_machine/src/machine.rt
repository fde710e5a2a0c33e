//! A channel as a machine of a logical channel.

ghost use Rattle.channel_machine.specs.GapChannels.{Represents, interface_of, number_of};

use crate::gaps::channel::{Certainty, GapChannel};
use crate::gaps::kinds::gap_in;
use crate::status::StatusStore;
use channel_run::run::Channel;
use channel_run::status_word::set_adrift;
use data_transfer::packed::FlowWord;
use line_model::event::Event;
use line_model::fault::Fault;
use line_model::gap::EpochStart;
use line_model::interface::Interface;
use line_model::items::ItemRef;
use line_model::state::ChannelState;
use std::alloc::Allocator;

impl<A: Allocator + Clone, S: StatusStore + Drop> Channel<A> for GapChannel<A, S> {
    ghost interface_of = { interface_of };

    ghost number_of = { number_of };

    ghost represents = { Represents };

    fn fresh(alloc: A, interface: &Interface, channel: u16, epoch: u32, start: EpochStart) -> Self {
        GapChannel::begun(alloc, interface, channel, epoch, start)
    }

    fn state(&self) -> ChannelState {
        self.channel.status.state()
    }

    fn word(&self) -> FlowWord {
        let mut word = self.channel.status.word();
        set_adrift(&mut word, self.is_adrift());
        word
    }

    fn is_open(&self) -> bool {
        self.channel.status.call().is_some()
    }

    fn is_restarting(&self) -> bool {
        self.restarting
    }

    #[inline(always)]
    fn advance(
        &mut self,
        epoch: u32,
        item: &ItemRef<'_>,
        events: &mut Vec<Event, A>,
    ) -> Result<Option<u32>, Fault> {
        match &self.certainty {
            Certainty::Certain => match gap_in(&item.packet) {
                None => self.channel.handle(epoch, item, events),
                Some(_) => self.handle_rarely(epoch, item, events),
            },
            _ => self.handle_rarely(epoch, item, events),
        }
    }
}
