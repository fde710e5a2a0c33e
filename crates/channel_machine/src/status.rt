//! What is known of a channel apart from its sequences and its settings, and how it may be kept.

ghost use Rattle.std.specs.Prelude.{◌≡◌, OnErr, false};
ghost use Rattle.line_model.specs.channels.Channels.{of_side};
ghost use Rattle.line_model.specs.channels.FlowControl.{Counts, count_interrupt, count_receive, count_confirm, count_data};
ghost use Rattle.data_transfer.specs.FlowResidues as windows;
ghost use Rattle.channel_run.specs.StatusWord.{view_in};
ghost use Rattle.channel_machine.specs.Status.{Status, IsEntered, CountsAlone, view_of};
ghost use Rattle.channel_machine.specs.Agreed.{agreed_of};
ghost use Rattle.channel_machine.specs.TermsRepresent.{size_of};

use crate::terms::{Opened, Terms};
use data_transfer::packed::FlowWord;
use line_model::interface::Interface;
use line_model::state::{ChannelState, Side};

/// A way to keep the status of a channel: its state, whether an indication of the DCE is owed, what was agreed for its
/// call, and its windows and interrupts.
pub trait StatusStore: Copy {
    /// The status that is kept.
    ghost status: { Self → Status };

    /// Returns the status of a channel that enters a state under some terms.
    fn entered(channel: u16, state: ChannelState, owed: bool, terms: &Terms) -> Self
        ensures { IsEntered (status result) state owed (agreed_of terms.now) };

    /// Returns the interface of the channel.
    fn interface(&self) -> Interface
        ensures { result ≡ (status self.now).terms.interface };

    /// Returns the state of the channel.
    fn state(&self) -> ChannelState
        ensures { result ≡ (status self.now).state };

    /// Returns whether an indication of the DCE is owed.
    fn is_owed(&self) -> bool
        ensures { result ≡ (status self.now).owed };

    /// Records that the indication that was owed has come.
    fn settle(&mut self)
        ensures { status self.new ≡ record (status self.old) { owed = false } };

    /// Returns what was agreed.
    fn terms(&self) -> Terms
        ensures { agreed_of result ≡ (status self.now).terms };

    /// Returns the call that is open.
    fn call(&self) -> Option<Opened>
        ensures { result ≡ (status self.now).terms.call };

    /// Returns what is known of the channel, in one word, except whether it is adrift.
    fn word(&self) -> FlowWord
        ensures { record (view_in result) { adrift = false } ≡ view_of (status self.now) };

    /// Returns the packet size in force for data from a side, in octets.
    fn size(&self, side: Side) -> u16
        ensures { result ≡ size_of (status self.now).terms.values side };

    /// Judges a data packet of a side by its P(S) and P(R), as `Flow::data`.
    fn data(&mut self, side: Side, send: u8, receive: u8) -> Result<(), u8>
        ensures rest { CountsAlone (status self.old) (status self.new) }
        ensures unchanged { OnErr result (status self.new ≡ status self.old) }
        ensures counts { (c : Counts) → windows.ResiduesRepresent (status self.old).flow c
            → windows.Answers result (status self.old).flow (status self.new).flow
            (count_data (status self.old).flow.modulus
            (of_side side (status self.old).flow.windows) c side send receive) };

    /// Judges the P(R) of a side, as `Flow::ack`.
    fn ack(&mut self, side: Side, receive: u8) -> Result<(), u8>
        ensures rest { CountsAlone (status self.old) (status self.new) }
        ensures unchanged { OnErr result (status self.new ≡ status self.old) }
        ensures counts { (c : Counts) → windows.ResiduesRepresent (status self.old).flow c
            → windows.Answers result (status self.old).flow (status self.new).flow
            (count_receive (status self.old).flow.modulus c side receive) };

    /// Judges an interrupt of a side, as `Flow::interrupt`.
    fn interrupt(&mut self, side: Side) -> Result<(), u8>
        ensures rest { CountsAlone (status self.old) (status self.new) }
        ensures unchanged { OnErr result (status self.new ≡ status self.old) }
        ensures counts { (c : Counts) → windows.ResiduesRepresent (status self.old).flow c
            → windows.Answers result (status self.old).flow (status self.new).flow
            (count_interrupt c side) };

    /// Judges an interrupt confirmation of a side, as `Flow::confirm`.
    fn confirm(&mut self, side: Side) -> Result<(), u8>
        ensures rest { CountsAlone (status self.old) (status self.new) }
        ensures unchanged { OnErr result (status self.new ≡ status self.old) }
        ensures counts { (c : Counts) → windows.ResiduesRepresent (status self.old).flow c
            → windows.Answers result (status self.old).flow (status self.new).flow
            (count_confirm c side) };
}
