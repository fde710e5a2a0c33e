//! How the DCE reacts under one header: whether it answers the errors of the DTE.

ghost use Rattle.std.specs.Prelude.{◌≡◌, ◌+◌, ◌<◌, ◌^◌, IfErr, OnOk};
ghost use Rattle.line_model.specs.basics.Octets.{octet};
ghost use Rattle.line_model.specs.declared.fault.Fault.TheVariants.{Memory};
ghost use Rattle.line_model.specs.packets.Classes.{packet_class};
ghost use Rattle.line_model.specs.packets.Says.{gap_of};
ghost use Rattle.header_trials.specs.Reactions.{all_hidden, answered, awaits, begun, blames, closed, epoch_ended, given_up, is_from_dce, is_r3, names_local_error, no_reactions, noted, nothing_watched, passed, reaction_by, reaction_by_r3, reaction_in_r3, reactions_in, restart_reaction, seen_on_channel, seen_on_interface, settled, unless_adrift, wait_in, watched_after, with_wait};
ghost use Rattle.header_trials.specs.Watched.{IsRoomy};

use channel_run::run::View;
use line_model::fault::Fault;
use line_model::gap::EpochStart;
use line_model::items::ItemRef;
use line_model::packet::{Class, Packet, PacketKind};
use line_model::state::{ChannelState, RState, Side};
use restart_epochs::restart::Restart;
use restart_epochs::walk::ChannelEffect;
use std::alloc::Allocator;
use std::marker::Model;

/// The packets of the DCE that may pass before the indication that it owes: 8.
const PASSING: u8 = 8;

/// Counts of the DCE's reactions under a header.
#[derive(Clone, Copy)]
pub struct Reactions {
    /// The errors of the DTE that the DCE answers: the indication that it owes comes.
    pub answered: u32,
    /// Those that it does not: what it owes ends in another way, or 8 of its packets pass before.
    pub unanswered: u32,
    /// The indications of a local procedure error that it does not owe.
    pub unexplained: u32,
}

/// What a row does to the indication that the DCE may owe on its logical channel, or as a restart.
#[derive(Clone, Copy)]
pub enum Reaction {
    /// The DTE made an error, so the DCE owes an indication.
    Owes,
    /// The indication that is owed.
    Answers,
    /// Another packet after which nothing is owed.
    Ends,
    /// A packet of the DCE while the indication is owed.
    Passes,
    /// An indication of a local procedure error where none is owed.
    Unexplained,
    /// A gap in which the owed indication may have come.
    Hides,
    /// None of these.
    Nothing,
}

/// Whether a packet is the indication that is owed on a logical channel in a state.
fn awaits(state: ChannelState, class: Class) -> bool
    ensures { result ≡ awaits state class }
{
    match state {
        ChannelState::Transfer(_) => matches!(class, Class::Reset),
        ChannelState::Setup(_) => matches!(class, Class::Clear),
        ChannelState::Unknown => false,
    }
}

/// Whether a packet of a class names a local procedure error by its cause.
fn names_local_error(class: Class, cause: u8) -> bool
    ensures { result ≡ names_local_error class cause }
{
    match class {
        Class::Restart => cause == 1,
        Class::Reset => cause == 5,
        Class::Clear => cause == 19,
        _ => false,
    }
}

/// The fourth octet of some octets, 0 where there are fewer.
fn cause_in(octets: &[u8]) -> u8
    ensures { result ≡ octet 4 octets.now }
{
    match octets {
        [_, _, _, cause, ..] => *cause,
        _ => 0,
    }
}

/// Whether a packet comes from the DCE.
fn is_from_dce(side: Side) -> bool
    ensures { result ≡ is_from_dce side }
{
    side == Side::N
}

/// Whether a row is an indication of the DCE that names a local procedure error.
fn blames(item: &ItemRef<'_>) -> bool
    ensures { result ≡ blames item.now }
{
    is_from_dce(item.side) && names_local_error(item.packet.class(), cause_in(item.octets))
}

/// What a row does to the indication, by whether it was owed before and is owed after, and whether the row is that
/// indication.
fn reaction_by(before: bool, after: bool, is_awaited: bool, item: &ItemRef<'_>) -> Reaction
    ensures { result ≡ reaction_by before after is_awaited item.now }
{
    match (before, after) {
        (false, true) => Reaction::Owes,
        (true, false) => if is_awaited && is_from_dce(item.side) {
            Reaction::Answers
        } else {
            Reaction::Ends
        },
        (true, true) => if is_from_dce(item.side) {
            Reaction::Passes
        } else {
            Reaction::Nothing
        },
        (false, false) => if blames(item) {
            Reaction::Unexplained
        } else {
            Reaction::Nothing
        },
    }
}

/// What a row shows of a header: nothing, where a missing packet could explain it.
fn unless_adrift(is_adrift: bool, reaction: Reaction) -> Reaction
    ensures { result ≡ unless_adrift is_adrift reaction }
{
    if is_adrift {
        Reaction::Nothing
    } else {
        reaction
    }
}

/// Returns what a row does to the indication of its logical channel, by what was known of the channel before, and
/// whether an indication is owed after.
pub(crate) fn channel_reaction(before: &View, owed: bool, item: &ItemRef<'_>) -> Reaction
    ensures { result ≡ seen_on_channel (gap_of item.now.packet) before.now.adrift
        (reaction_by before.now.owed owed
        (awaits before.now.state (packet_class item.now.packet)) item.now) }
{
    match &item.packet {
        Packet::GapOfAll
        | Packet::Channel {
            kind: PacketKind::Gap,
            ..
        } => Reaction::Hides,
        _ => {
            let is_awaited = awaits(before.state, item.packet.class());
            unless_adrift(
                before.adrift,
                reaction_by(before.owed, owed, is_awaited, item),
            )
        }
    }
}

/// Whether the restart machine waits for the DTE after an indication, or owes it after an error of the DTE.
fn is_r3(state: RState) -> bool
    ensures { result ≡ is_r3 state }
{
    matches!(state, RState::R3)
}

/// What a row of the DCE that leaves the restart machine in r3 does there.
fn reaction_in_r3(item: &ItemRef<'_>) -> Reaction
    ensures { result ≡ reaction_in_r3 item.now }
{
    if matches!(item.packet, Packet::Restart) {
        Reaction::Answers
    } else {
        Reaction::Passes
    }
}

/// What a row does in the states of the restart machine before and after it.
fn reaction_by_r3(before: RState, after: RState, item: &ItemRef<'_>) -> Reaction
    ensures { result ≡ reaction_by_r3 (is_r3 before) (is_r3 after)
        (is_from_dce item.now.side) item.now }
{
    match (is_r3(before), is_r3(after), is_from_dce(item.side)) {
        (true, false, _) => Reaction::Ends,
        (true, true, true) => reaction_in_r3(item),
        (false, true, false) => Reaction::Owes,
        (false, _, true) => if blames(item) {
            Reaction::Unexplained
        } else {
            Reaction::Nothing
        },
        _ => Reaction::Nothing,
    }
}

/// Whether a gap of all channels left open whether the interface restarts.
fn is_adrift(machine: &Restart) -> bool
    ensures { result ≡ machine.now.adrift }
{
    matches!(machine.start(), EpochStart::Drifting(_))
}

/// Returns what a row does that goes to no single logical channel, by the restart machine before and after it.
pub(crate) fn restart_reaction(before: &Restart, after: &Restart, item: &ItemRef<'_>) -> Reaction
    ensures { result ≡ restart_reaction before.now after.now item.now }
{
    match &item.packet {
        Packet::GapOfAll => Reaction::Hides,
        Packet::Channel {
            kind: PacketKind::Gap,
            ..
        } => Reaction::Nothing,
        _ => {
            let reaction = reaction_by_r3(before.state(), after.state(), item);
            unless_adrift(is_adrift(before), reaction)
        }
    }
}

impl Reactions {
    /// Returns counts that are all 0.
    fn none() -> Self
        ensures { result ≡ no_reactions }
    {
        Reactions {
            answered: 0,
            unanswered: 0,
            unexplained: 0,
        }
    }
}

/// The errors of the DTE that the DCE has not answered yet, and its reactions to those before.
#[derive(Drop)]
pub struct Watch<A: Allocator> {
    reactions: Reactions,
    /// How many errors of the DTE are open: neither answered nor given up.
    pending: u32,
    /// By logical channel, and 0 for the restart machine: 0 where no error is open, otherwise 1 plus the number of packets
    /// of the DCE since.
    waits: Vec<u8, A>,
}

impl<A: Allocator> Model for Watch<A> {
    ghost use Rattle.header_trials.specs.Watched.{Watched};

    ghost Value = { Watched };

    ghost view = { λ w. record {
      answered = w.reactions.answered;
      unanswered = w.reactions.unanswered;
      unexplained = w.reactions.unexplained;
      pending = w.pending;
      waits = w.waits.items;
    } };
}

impl<A: Allocator + Copy> Watch<A> {
    /// Returns the value before the first row. Allocates no memory.
    pub(crate) fn new(alloc: A) -> Self
        ensures { result ≡ nothing_watched }
    {
        Watch {
            reactions: Reactions::none(),
            pending: 0,
            waits: Vec::new(alloc),
        }
    }

    /// Returns the reactions so far.
    pub fn reactions(&self) -> Reactions
        ensures { result ≡ reactions_in self.now }
    {
        self.reactions
    }

    /// Returns the count of a slot in `waits`.
    fn wait(&self, slot: u16) -> u8
        ensures { result ≡ wait_in slot self.now }
    {
        let slot = slot as usize;
        if slot < self.waits.len() {
            self.waits[slot]
        } else {
            0
        }
    }

    /// Sets the count of a slot in `waits`.
    fn set_wait(&mut self, slot: u16, wait: u8) -> Result<(), Fault>
        ensures set { OnOk result (self.new ≡ with_wait slot wait self.old) }
        ensures memory { IfErr result (λ fault. fault ≡ Memory) }
    {
        let slot = slot as usize;
        if self.waits.len() <= slot {
            self.waits.resize(slot + 1, 0)?;
        }
        self.waits[slot] = wait;
        Ok(())
    }

    /// Opens an error: the DCE owes an indication.
    fn begin(&mut self, slot: u16) -> Result<(), Fault>
        requires { self.old.pending + 1 < 2 ^ 32 }
        ensures begun { OnOk result (self.new ≡ begun slot self.old) }
        ensures memory { IfErr result (λ fault. fault ≡ Memory) }
    {
        self.set_wait(slot, 1)?;
        self.pending += 1;
        Ok(())
    }

    /// Closes the error of a slot.
    fn close(&mut self, slot: u16) -> Result<(), Fault>
        ensures closed { OnOk result (self.new ≡ closed slot self.old) }
        ensures memory { IfErr result (λ fault. fault ≡ Memory) }
    {
        self.set_wait(slot, 0)?;
        self.pending = self.pending.saturating_sub(1);
        Ok(())
    }

    /// Closes an error whose indication came.
    fn answer(&mut self, slot: u16) -> Result<(), Fault>
        requires { self.old.answered + 1 < 2 ^ 32 }
        ensures answered { OnOk result (self.new ≡ answered slot self.old) }
        ensures memory { IfErr result (λ fault. fault ≡ Memory) }
    {
        self.close(slot)?;
        self.reactions.answered += 1;
        Ok(())
    }

    /// Closes an error whose indication does not come.
    fn give_up(&mut self, slot: u16) -> Result<(), Fault>
        requires { self.old.unanswered + 1 < 2 ^ 32 }
        ensures given_up { OnOk result (self.new ≡ given_up slot self.old) }
        ensures memory { IfErr result (λ fault. fault ≡ Memory) }
    {
        self.close(slot)?;
        self.reactions.unanswered += 1;
        Ok(())
    }

    /// Counts a packet of the DCE that passes while the indication is awaited.
    fn pass(&mut self, slot: u16, wait: u8) -> Result<(), Fault>
        requires { self.old.unanswered + 1 < 2 ^ 32 }
        ensures passed { OnOk result (self.new ≡ passed slot wait self.old) }
        ensures memory { IfErr result (λ fault. fault ≡ Memory) }
    {
        if wait < PASSING {
            self.set_wait(slot, wait + 1)
        } else {
            self.give_up(slot)
        }
    }

    /// Records what a row does to an indication that is awaited.
    fn settle(&mut self, slot: u16, wait: u8, reaction: Reaction) -> Result<(), Fault>
        requires answered { self.old.answered + 1 < 2 ^ 32 }
        requires unanswered { self.old.unanswered + 1 < 2 ^ 32 }
        ensures settled { OnOk result (self.new ≡ settled reaction slot wait self.old) }
        ensures memory { IfErr result (λ fault. fault ≡ Memory) }
    {
        match reaction {
            Reaction::Answers => self.answer(slot),
            Reaction::Ends => self.give_up(slot),
            Reaction::Passes => self.pass(slot, wait),
            Reaction::Hides => self.close(slot),
            _ => Ok(()),
        }
    }

    /// Records what a row does in a slot.
    fn note(&mut self, slot: u16, reaction: Reaction) -> Result<(), Fault>
        requires { IsRoomy self.old }
        ensures noted { OnOk result (self.new ≡ noted slot reaction self.old) }
        ensures memory { IfErr result (λ fault. fault ≡ Memory) }
    {
        match reaction {
            Reaction::Owes => self.begin(slot),
            Reaction::Unexplained => {
                self.reactions.unexplained += 1;
                Ok(())
            }
            Reaction::Nothing => Ok(()),
            _ => {
                let wait = self.wait(slot);
                if wait == 0 {
                    return Ok(());
                }
                self.settle(slot, wait, reaction)
            }
        }
    }

    /// Closes all errors, as a restart ends the epoch.
    fn end_epoch(&mut self)
        requires { IsRoomy self.old }
        ensures { self.new ≡ epoch_ended self.old }
    {
        self.reactions.unanswered += self.pending;
        self.pending = 0;
        self.waits.clear();
    }

    /// Closes all errors without a count: in a gap of all channels their indications may have come.
    fn hide_all(&mut self)
        ensures { self.new ≡ all_hidden self.old }
    {
        self.pending = 0;
        self.waits.clear();
    }

    /// Records what the next row does. Fails only when memory is refused.
    pub(crate) fn take(&mut self, effect: ChannelEffect, reaction: Reaction) -> Result<(), Fault>
        requires { IsRoomy self.old }
        ensures taken { OnOk result (self.new ≡ watched_after effect reaction self.old) }
        ensures memory { IfErr result (λ fault. fault ≡ Memory) }
    {
        match effect {
            ChannelEffect::ToChannel(channel) => self.note(channel, reaction),
            ChannelEffect::Ends => {
                self.end_epoch();
                self.note(0, reaction)
            }
            ChannelEffect::ToAll => {
                self.hide_all();
                Ok(())
            }
            ChannelEffect::Stays => self.note(0, reaction),
        }
    }
}
