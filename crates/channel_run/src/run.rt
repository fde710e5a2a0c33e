//! The run of a piece: any machine of one logical channel, over the rows of the piece.

ghost use Rattle.std.specs.Prelude.{◌≡◌, ◌++◌, ℕ, IfOk, IfErr, OnErr, OnSome};
ghost use Rattle.line_model.specs.declared.fault.Fault.TheVariants.{Memory};
ghost use Rattle.line_model.specs.channels.Channels.{is_open};
ghost use Rattle.line_model.specs.channels.Gaps.{GapChannel, fresh_at};
ghost use Rattle.line_model.specs.observer.Observer.{row_step};
ghost use Rattle.line_model.specs.basics.Bounds.{IsItem};
ghost use Rattle.line_model.specs.pieces.Plans as plans;
ghost use Rattle.channel_run.specs.Run.{data_events, row_events};
ghost use Rattle.channel_run.specs.StatusWord.{view_in};
ghost use Rattle.channel_run.specs.Views.{IsViewOf};

use crate::live::LiveChannel;
use data_transfer::flow::Flow;
use data_transfer::packed::FlowWord;
use line_model::event::Event;
use line_model::fault::Fault;
use line_model::gap::EpochStart;
use line_model::interface::Interface;
use line_model::items::ItemRef;
use line_model::piece::{Piece, PieceReport};
use line_model::state::ChannelState;
use std::alloc::Allocator;

/// What is known of a logical channel at one moment.
#[derive(Clone, Copy)]
pub struct View {
    /// The state. Where the channel is adrift, it says only whether a call is open, whether the call came up, and which
    /// side resets.
    pub state: ChannelState,
    /// Whether a gap left open in which state it is (profile).
    pub adrift: bool,
    /// Whether an indication of the DCE is owed (profile).
    pub owed: bool,
    /// Whether a PAD call is open (X.29; profile).
    pub pad_call: bool,
    /// Whether a call is open that asked fast select (X.25 clause 6.16).
    pub fast: bool,
    /// The packet size in force for data from T, in octets.
    pub size_t: u16,
    /// The packet size in force for data from N, in octets.
    pub size_n: u16,
    /// Its windows and interrupts. They do not hold where an acknowledgement settled the channel after a gap.
    pub flow: Flow,
}

/// One logical channel of an interface: from its packets to events (X.25 Annexes B and C, clauses 4 to 6). Contracts
/// see the channel of the definitions that it represents, and not what it keeps.
pub trait Channel<A: Allocator>: Drop {
    ghost use Rattle.line_model.specs.declared.interface.Interface.{Interface};

    /// The interface of the channel.
    ghost interface_of: { Self → Interface };

    /// The number of the channel.
    ghost number_of: { Self → ℕ };

    /// What the machine keeps represents this channel.
    ghost represents: { Self → GapChannel → Type 0 };

    /// Returns a channel as its epoch begins: in p1, or in d1 where it is a permanent virtual circuit. It is unknown in
    /// epoch 1 where the trace begins in the middle, and adrift where the epoch begins adrift. Allocates nothing.
    fn fresh(alloc: A, interface: &Interface, channel: u16, epoch: u32, start: EpochStart) -> Self
        ensures interface { interface_of result ≡ interface.now }
        ensures number { number_of result ≡ channel }
        ensures represented { represents result (fresh_at interface.now start epoch channel) };

    /// Returns the state of the channel.
    fn state(&self) -> ChannelState
        ensures { (g : GapChannel) → represents self.now g → result ≡ g.channel.state };

    /// Returns what is known of the channel, in one word, which `status_word::view_in` reads.
    fn word(&self) -> FlowWord
        ensures { (g : GapChannel) → represents self.now g
            → IsViewOf (interface_of self.now) g (view_in result) };

    /// Returns whether a call is open.
    fn is_open(&self) -> bool
        ensures { (g : GapChannel) → represents self.now g → result ≡ is_open g.channel };

    /// Returns whether the interface of the channel may be restarting, after a gap of all channels in the epoch.
    fn is_restarting(&self) -> bool
        ensures { (g : GapChannel) → represents self.now g → result ≡ g.restarting };

    /// Steps the channel by what a row says, and appends the events of the row in an epoch, except that of an accepted
    /// data packet with Q 0: it returns that packet's octets of user data instead, and leaves the list as it was. Fails
    /// only when memory is refused, and nothing has changed then.
    fn advance(
        &mut self,
        epoch: u32,
        item: &ItemRef<'_>,
        events: &mut Vec<Event, A>,
    ) -> Result<Option<u32>, Fault>
        requires item { IsItem (interface_of self.old) (number_of self.old) item.now }
        ensures interface { (g : GapChannel) → represents self.old g
            → IfOk result (λ _. interface_of self.new ≡ interface_of self.old) }
        ensures number { (g : GapChannel) → represents self.old g
            → IfOk result (λ _. number_of self.new ≡ number_of self.old) }
        ensures represented { (g : GapChannel) → represents self.old g
            → IfOk result (λ _. represents self.new
            (row_step (interface_of self.old) (number_of self.old) g item.now).after) }
        ensures events { (g : GapChannel) → represents self.old g
            → IfOk result (λ accepted. events.new.items ++ data_events epoch (number_of self.old) item.now accepted
            ≡ events.old.items ++ row_events (interface_of self.old) epoch (number_of self.old) g item.now) }
        ensures apart { IfOk result (λ accepted. OnSome accepted (events.new ≡ events.old)) }
        ensures unchanged { OnErr result ((self.new ≡ self.old)
            × (events.new.items ≡ events.old.items)) }
        ensures memory { IfErr result (λ fault. fault ≡ Memory) };
}

/// Returns the result of a piece: the findings and calls of its rows on its channel as the epoch begins, and the octets and
/// segments of its data packets. A call that is open where a row ends the epoch ends with it. Fails only when memory is
/// refused.
pub fn run_piece<A: Allocator + Clone, C: Channel<A>>(
    alloc: A,
    piece: &Piece<A>,
) -> Result<PieceReport<A>, Fault>
    ensures value { IfOk result (λ report. report ≡ plans.result_of piece.now) }
    ensures memory { IfErr result (λ fault. fault ≡ Memory) }
{
    let mut live = LiveChannel::<A, C>::fresh(
        alloc.clone()?,
        &piece.interface,
        piece.channel,
        piece.epoch,
        piece.start,
    )?;
    let mut events = Vec::new(alloc);
    for item in piece.rows() {
        live.take(&item, &mut events)?;
    }
    let report = live.end(piece.id, piece.end)?;
    Ok(report)
}
