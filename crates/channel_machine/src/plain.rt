//! The status of a channel, each part in a field.

ghost use Rattle.channel_machine.specs.Agreed.{agreed_of};

use crate::packed::{owner_bits_of, state_bits};
use crate::status::StatusStore;
use crate::terms::{Opened, Terms};
use data_transfer::flow::Flow;
use data_transfer::packed::FlowWord;
use line_model::interface::Interface;
use line_model::state::{ChannelState, Side};

/// The parts of a status, as they are.
#[derive(Clone, Copy)]
pub struct PlainStatus {
    state: ChannelState,
    owed: bool,
    terms: Terms,
    flow: Flow,
}

impl StatusStore for PlainStatus {
    ghost status = { λ s. record { state = s.state; owed = s.owed; terms = agreed_of s.terms; flow = s.flow } };

    fn entered(_channel: u16, state: ChannelState, owed: bool, terms: &Terms) -> Self {
        PlainStatus {
            state,
            owed,
            terms: *terms,
            flow: Flow::new(
                terms.interface.modulus,
                terms.values.window_t,
                terms.values.window_n,
            ),
        }
    }

    fn interface(&self) -> Interface {
        self.terms.interface
    }

    fn state(&self) -> ChannelState {
        self.state
    }

    fn is_owed(&self) -> bool {
        self.owed
    }

    fn settle(&mut self) {
        self.owed = false;
    }

    fn terms(&self) -> Terms {
        self.terms
    }

    fn call(&self) -> Option<Opened> {
        self.terms.call
    }

    fn word(&self) -> FlowWord {
        let state = state_bits(false, self.state);
        FlowWord::new(&self.flow, owner_bits_of(state, self.owed, &self.terms))
    }

    fn size(&self, side: Side) -> u16 {
        match side {
            Side::T => self.terms.values.size_t,
            Side::N => self.terms.values.size_n,
        }
    }

    fn data(&mut self, side: Side, send: u8, receive: u8) -> Result<(), u8> {
        self.flow.data(side, send, receive)
    }

    fn ack(&mut self, side: Side, receive: u8) -> Result<(), u8> {
        self.flow.ack(side, receive)
    }

    fn interrupt(&mut self, side: Side) -> Result<(), u8> {
        self.flow.interrupt(side)
    }

    fn confirm(&mut self, side: Side) -> Result<(), u8> {
        self.flow.confirm(side)
    }
}
