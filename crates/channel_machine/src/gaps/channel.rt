//! A logical channel, and what is certain of it.

ghost use Rattle.std.specs.Prelude.{◌≡◌, ◌||◌, false};
ghost use Rattle.line_model.specs.channels.Gaps as gaps;
ghost use Rattle.line_model.specs.channels.Channels.{fresh_state};
ghost use Rattle.line_model.specs.channels.Gaps.{fresh_at, gap_step, restart_indication};
ghost use Rattle.channel_run.specs.Views.{is_adrift};
ghost use Rattle.channel_machine.specs.GapChannels.{Represents, certainty_of, interface_of, number_of};

use crate::channel::StatusChannel;
use crate::gaps::carried::WhileAdrift;
use crate::gaps::settled::SettledNumbers;
use crate::status::StatusStore;
use line_model::gap::{EpochStart, Owed};
use line_model::interface::Interface;
use line_model::state::{ChannelState, DState, PState};
use std::alloc::Allocator;
use std::boxed::Box;
use std::marker::Model;

/// What is certain of a channel.
#[derive(Drop)]
pub(crate) enum Certainty<A: Allocator> {
    /// All of it.
    Certain,
    /// After a gap the call that is open, if one is, and whether it came up.
    Adrift(WhileAdrift),
    /// After an acknowledgement all but a few things. The numbers of the channel are kept here.
    Settled(Box<SettledNumbers<A>, A>),
}

/// A logical channel (profile). A gap allocates nothing; where nothing is in doubt the channel steps as if there were
/// no gaps.
#[derive(Drop)]
pub struct GapChannel<A: Allocator, S: StatusStore> {
    pub(crate) channel: StatusChannel<A, S>,
    pub(crate) restarting: bool,
    pub(crate) certainty: Certainty<A>,
}

impl<A: Allocator, S: StatusStore> Model for GapChannel<A, S> {
    ghost use Rattle.channel_machine.specs.GapChannels.{GapKnown};
    ghost use Rattle.channel_machine.specs.Certainties.{certainty_kept};

    ghost Value = { GapKnown };

    ghost view = { λ g. record { channel = g.channel; restarting = g.restarting; certainty = certainty_kept g.certainty } };
}

impl<A: Allocator + Clone, S: StatusStore> GapChannel<A, S> {
    /// Returns a channel of an epoch as it begins. Allocates nothing.
    pub(crate) fn begun(
        alloc: A,
        interface: &Interface,
        channel: u16,
        epoch: u32,
        start: EpochStart,
    ) -> Self
        ensures interface { interface_of result ≡ interface.now }
        ensures number { number_of result ≡ channel }
        ensures represents { Represents result (fresh_at interface.now start epoch channel) }
    {
        match start {
            EpochStart::Restarted => GapChannel {
                channel: StatusChannel::in_state(
                    alloc,
                    interface,
                    channel,
                    interface.fresh_state(epoch, channel),
                ),
                restarting: false,
                certainty: Certainty::Certain,
            },
            EpochStart::Drifting(owed) => GapChannel {
                channel: StatusChannel::in_state(
                    alloc,
                    interface,
                    channel,
                    known_state(interface.is_permanent(channel)),
                ),
                restarting: true,
                certainty: Certainty::Adrift(WhileAdrift::new(restart_indication(owed), false)),
            },
        }
    }

    /// Returns whether a gap left open in which state the channel is.
    pub(crate) fn is_adrift(&self) -> bool
        ensures { result ≡ is_adrift (certainty_of self.now.certainty) }
    {
        match &self.certainty {
            Certainty::Adrift(_) => true,
            Certainty::Certain => false,
            Certainty::Settled(_) => false,
        }
    }

    /// Keeps of the channel what a gap leaves: a gap of this channel, or of all channels of the interface. Allocates
    /// nothing.
    pub fn gap(&mut self, all_channels: bool)
        ensures interface { interface_of self.new ≡ interface_of self.old }
        ensures number { number_of self.new ≡ number_of self.old }
        ensures represents { (g : gaps.GapChannel) → Represents self.old g
            → Represents self.new
            (gap_step (interface_of self.old) (number_of self.old) all_channels g) }
    {
        let adrift = WhileAdrift::new(self.owed_at_gap(), self.channel.is_hidden_by_gap());
        self.channel.drift();
        self.restarting = may_restart(self.restarting, all_channels);
        self.certainty = Certainty::Adrift(adrift);
    }

    /// Returns the indication that is owed as a gap comes, or was owed at the gap before.
    fn owed_at_gap(&self) -> Owed
        ensures { (g : gaps.GapChannel) → Represents self.now g
            → result ≡ gaps.owed_at_gap g.certainty g.channel }
    {
        match &self.certainty {
            Certainty::Adrift(adrift) => adrift.owed(),
            Certainty::Certain => self.channel.owed(),
            Certainty::Settled(_) => self.channel.owed(),
        }
    }
}

/// The state of a channel without a call.
fn known_state(permanent: bool) -> ChannelState
    ensures { result ≡ fresh_state false permanent }
{
    if permanent {
        ChannelState::Transfer(DState::D1)
    } else {
        ChannelState::Setup(PState::P1)
    }
}

/// The restart indication, where it is owed.
fn restart_indication(owed: bool) -> Owed
    ensures { result ≡ restart_indication owed }
{
    if owed {
        Owed::RestartIndication
    } else {
        Owed::NoIndication
    }
}

/// Whether the interface of a channel may be restarting after a gap.
fn may_restart(before: bool, all_channels: bool) -> bool
    ensures { result ≡ (before || all_channels) }
{
    before || all_channels
}
