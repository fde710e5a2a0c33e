//! A channel that reads its rows as they come, and returns at any time the result of its piece so far.

ghost use Rattle.std.specs.Prelude.{◌≡◌, ◌&&◌, ℕ, List, [], ◌∷◌, ◌++◌, None, option_to_list, IfOk, IfErr, OnOk, OnSome};
ghost use Rattle.line_model.specs.declared.fault.Fault.TheVariants.{Memory};
ghost use Rattle.line_model.specs.basics.Records.{Piece};
ghost use Rattle.line_model.specs.basics.Bounds.{IsPiece};
ghost use Rattle.line_model.specs.pieces.Plans.{piece_events, result_of};
ghost use Rattle.line_model.specs.observer.Report.{findings_of};
ghost use Rattle.channel_run.specs.Tally.{Counts};
ghost use Rattle.channel_run.specs.Live.{Represents, channel_so_far, so_far, with_item};
ghost use Rattle.line_model.specs.observer.Observer.{end_of_epoch};
ghost use Rattle.channel_run.specs.Run.{data_events, row_events};
ghost use Rattle.channel_run.specs.StatusWord.{view_in};
ghost use Rattle.channel_run.specs.Views.{IsViewOf};

use crate::run::Channel;
use crate::tally::PieceTally;
use data_transfer::packed::FlowWord;
use line_model::event::{Event, How, What};
use line_model::fault::Fault;
use line_model::finding::Finding;
use line_model::gap::EpochStart;
use line_model::interface::Interface;
use line_model::items::ItemRef;
use line_model::piece::{PieceEnd, PieceReport};
use std::alloc::Allocator;

/// What a row did to its channel.
#[derive(Clone, Copy)]
pub struct ChannelOutcome {
    /// The octets of user data of an accepted data packet with Q 0, whose event is the row's only one and is not
    /// listed. `None` where the events of the row are listed.
    pub accepted: Option<u32>,
    /// What the row found.
    pub finding: Option<Finding>,
}

/// One logical channel in one epoch: its machine, and what is counted of its rows so far. It keeps no row.
#[derive(Drop)]
pub struct LiveChannel<A: Allocator, C: Channel<A>> {
    channel: u16,
    epoch: u32,
    machine: C,
    tally: PieceTally<A>,
}

impl<A: Allocator + Clone, C: Channel<A>> LiveChannel<A, C> {
    /// Returns a channel of an epoch as it begins, of which no row was read. Allocates nothing, except for clones of
    /// the allocator.
    pub fn fresh(
        alloc: A,
        interface: &Interface,
        channel: u16,
        epoch: u32,
        start: EpochStart,
    ) -> Result<Self, Fault>
        ensures represented { IfOk result (λ live. (p : Piece) → p.interface ≡ interface.now
            → p.channel ≡ channel → p.epoch ≡ epoch → p.start ≡ start → p.items ≡ []
            → Represents C.interface_of C.number_of C.represents live p) }
        ensures memory { IfErr result (λ fault. fault ≡ Memory) }
    {
        Ok(LiveChannel {
            channel,
            epoch,
            machine: C::fresh(alloc.clone()?, interface, channel, epoch, start),
            tally: PieceTally::new(alloc)?,
        })
    }

    /// Reads the next row by what it says. The caller lends the list `events`: afterwards it holds the events of the
    /// row and nothing else, and it is empty where accepted data with Q 0 is the row's one event. Fails only when
    /// memory is refused; drop the channel then.
    #[inline(always)]
    pub fn take(
        &mut self,
        item: &ItemRef<'_>,
        events: &mut Vec<Event, A>,
    ) -> Result<ChannelOutcome, Fault>
        requires room { (p : Piece) × Represents C.interface_of C.number_of C.represents self.old p
            × IsPiece p.interface p.channel (p.items ++ item.now ∷ []) }
        ensures represented { (p : Piece) → Represents C.interface_of C.number_of C.represents self.old p
            → IsPiece p.interface p.channel (p.items ++ item.now ∷ [])
            → OnOk result (Represents C.interface_of C.number_of C.represents self.new
            (with_item p item.now)) }
        ensures events { (p : Piece) → Represents C.interface_of C.number_of C.represents self.old p
            → IfOk result (λ taken. events.new.items ++ data_events p.epoch p.channel item.now taken.accepted
            ≡ row_events p.interface p.epoch p.channel (channel_so_far p) item.now) }
        ensures apart { IfOk result (λ taken. OnSome taken.accepted (events.new.items ≡ [])) }
        ensures finding { (p : Piece) → Represents C.interface_of C.number_of C.represents self.old p
            → IfOk result (λ taken. option_to_list taken.finding
            ≡ findings_of (row_events p.interface p.epoch p.channel (channel_so_far p) item.now)) }
        ensures memory { IfErr result (λ fault. fault ≡ Memory) }
    {
        events.clear();
        match self.machine.advance(self.epoch, item, events)? {
            Some(octets) => {
                self.tally.add_data(item.side, octets);
                Ok(ChannelOutcome {
                    accepted: Some(octets),
                    finding: None,
                })
            }
            None => {
                let finding = self.tally.record_all(events.as_slice())?;
                Ok(ChannelOutcome {
                    accepted: None,
                    finding,
                })
            }
        }
    }

    /// Returns what is known of the channel after the rows so far, in one word, which `status_word::view_in` reads.
    pub fn word(&self) -> FlowWord
        ensures { (p : Piece) → Represents C.interface_of C.number_of C.represents self.now p
            → IsViewOf p.interface (channel_so_far p) (view_in result) }
    {
        self.machine.word()
    }

    /// Returns the findings so far.
    pub fn findings(&self) -> &[Finding]
        ensures { (p : Piece) → Represents C.interface_of C.number_of C.represents self.now p
            → result.now ≡ (result_of (so_far p)).findings }
    {
        self.tally.findings()
    }

    /// Returns the result of the piece so far, by a copy: the channel goes on. Fails only when memory is refused.
    pub fn report(&self, alloc: A, id: u32) -> Result<PieceReport<A>, Fault>
        requires represented { (p : Piece) × Represents C.interface_of C.number_of
            C.represents self.now p }
        ensures value { IfOk result (λ report. (p : Piece)
            → Represents C.interface_of C.number_of C.represents self.now p
            → report ≡ result_of (record p { id = id; end = None })) }
        ensures memory { IfErr result (λ fault. fault ≡ Memory) }
    {
        self.tally.report(alloc, id, self.epoch, self.channel)
    }

    /// Returns the result of the piece. An open call ends with the row that ended the epoch, if one did. Fails only
    /// when memory is refused.
    pub fn end(mut self, id: u32, end: Option<PieceEnd>) -> Result<PieceReport<A>, Fault>
        requires represented { (p : Piece) × Represents C.interface_of C.number_of C.represents self p }
        ensures value { IfOk result (λ report. (p : Piece)
            → Represents C.interface_of C.number_of C.represents self p
            → report ≡ result_of (record p { id = id; end = end })) }
        ensures memory { IfErr result (λ fault. fault ≡ Memory) }
    {
        self.close(end)?;
        self.tally.finish(id, self.epoch, self.channel)
    }

    /// Ends the call that is open with the row that ended the epoch, if one did.
    fn close(&mut self, end: Option<PieceEnd>) -> Result<(), Fault>
        ensures place { OnOk result ((self.new.epoch ≡ self.old.epoch)
            × (self.new.channel ≡ self.old.channel)) }
        ensures counted { (p : Piece) → Represents C.interface_of C.number_of C.represents self.old p
            → OnOk result (Counts self.new.tally p.epoch p.channel
            (piece_events (record p { end = end }))) }
        ensures memory { IfErr result (λ fault. fault ≡ Memory) }
    {
        let Some(end) = end else {
            return Ok(());
        };
        if !self.machine.is_open() {
            return Ok(());
        }
        self.tally.record(&Event {
            epoch: self.epoch,
            channel: self.channel,
            packet: end.row,
            what: What::End(end_of_epoch(self.machine.is_restarting(), end.missed)),
        })?;
        Ok(())
    }
}

/// How a call ends with its epoch: a restart that was missed ends it in a gap.
fn end_of_epoch(restarting: bool, missed: bool) -> How
    ensures { result ≡ end_of_epoch (restarting && missed) }
{
    if restarting && missed {
        How::Gap
    } else {
        How::Restart
    }
}
