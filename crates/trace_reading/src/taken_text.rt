//! The text up to where the reading thread has consumed it, part by part and in order.

ghost use Rattle.std.specs.Prelude.{◌≡◌, ◌+◌, ◌-◌, ◌≤◌, ◌^◌, IfErr, IfSome, OnOk, length};
ghost use Rattle.std.specs.Option.{option_map};
ghost use Rattle.trace_text.specs.Progress.{bytes_fed};
ghost use Rattle.trace_reading.specs.Readings.{HasFedOn, IsFaultWithin, IsFedSoFar};
ghost use Rattle.trace_reading.specs.TextBlocks.{IsBlockAt, IsPartAt};
ghost use Rattle.line_model.specs.traces.Traces.{trace_plan};

use crate::block_queues::MOST_BLOCKS;
use crate::blocks_in_flight::BlocksInFlight;
use crate::text_block::{Block, ReadBlock, TraceText};
use crate::text_cutter::TextCutter;
use line_model::fault::Fault;
use line_model::piece::Plan;
use shared_work::queue::{FeederPass, Work};
use std::alloc::Allocator;
use std::marker::PhantomData;
use std::sync::Wait;
use std::time::Clock;
use workers::feed_pieces;

/// The part of a trace text that was consumed, and its blocks in flight. The pieces that are complete go to a queue.
///
/// ```text
///  1 T 10..\n2 N 10..\n3 T 10..\n4 N 10..\n
///  `-consumed--'`- out as blocks -'
///  `------------- sent ----------'
/// ```
#[derive(Drop)]
pub struct TakenText<'a, P: Plan + TraceText, A: Allocator, R> {
    pub rt: &'a R,
    pub work: &'a Work<P, A>,
    pub text: TextCutter<A>,
    pub blocks: BlocksInFlight<'a, P, A>,
    /// How many bytes were consumed or handed out.
    pub sent: u32,
}

impl<'a, P: Plan + TraceText, A: Allocator + Copy, R: Wait + Clock> TakenText<'a, P, A, R> {
    /// Consumes a block that was read, and comes after the bytes that were consumed.
    fn take_block(&mut self, block: ReadBlock<P, A>, pass: &mut FeederPass<A>) -> Result<(), Fault>
        requires plan { P.pieces ≡ option_map trace_plan P.text }
        requires ready { IsFedSoFar P.text self.old.work.now.queue pass.old self.old.sent self.old.text }
        requires place { IsBlockAt P.text (bytes_fed self.old.text.lines)
            (self.old.sent - bytes_fed self.old.text.lines) block }
        ensures fed { HasFedOn pass.old pass.new }
        ensures taken { OnOk result (IsFedSoFar P.text self.new.work.now.queue pass.new self.old.sent self.new.text) }
        ensures sent { self.new.sent ≡ self.old.sent }
        ensures refused { IfErr result (IsFaultWithin P.text self.old.sent) }
    {
        let (pieces, used) = self.text.take_block(block)?;
        feed_pieces(self.rt, self.work, pieces, pass);
        self.blocks.keep(used);
        Ok(())
    }

    /// Returns how many bytes are in blocks in flight.
    fn out(&self) -> usize
        ensures { result ≡ self.now.sent - bytes_fed self.now.text.lines }
    {
        self.sent.saturating_sub(self.text.lines.bytes()) as usize
    }

    /// Waits for the next block in flight, and consumes it.
    fn take_next(&mut self, pass: &mut FeederPass<A>) -> Result<(), Fault>
        requires plan { P.pieces ≡ option_map trace_plan P.text }
        requires ready { IsFedSoFar P.text self.old.work.now.queue pass.old self.old.sent self.old.text }
        ensures fed { HasFedOn pass.old pass.new }
        ensures taken { OnOk result (IsFedSoFar P.text self.new.work.now.queue pass.new self.old.sent self.new.text) }
        ensures sent { self.new.sent ≡ self.old.sent }
        ensures refused { IfErr result (IsFaultWithin P.text self.old.sent) }
    {
        let most = self.out();
        let read = self.blocks.take(self.rt, self.text.lines.bytes(), most)?;
        self.take_block(read, pass)
    }

    /// Waits for the next block in flight, and consumes it, where no more may be in flight.
    fn free_place(&mut self, pass: &mut FeederPass<A>) -> Result<(), Fault>
        requires plan { P.pieces ≡ option_map trace_plan P.text }
        requires ready { IsFedSoFar P.text self.old.work.now.queue pass.old self.old.sent self.old.text }
        ensures fed { HasFedOn pass.old pass.new }
        ensures taken { OnOk result (IsFedSoFar P.text self.new.work.now.queue pass.new self.old.sent self.new.text) }
        ensures sent { self.new.sent ≡ self.old.sent }
        ensures refused { IfErr result (IsFaultWithin P.text self.old.sent) }
    {
        if !self.blocks.is_full() {
            return Ok(());
        }
        self.take_next(pass)
    }

    /// Consumes the blocks that were read, up to one that was not.
    fn take_ready(&mut self, pass: &mut FeederPass<A>) -> Result<(), Fault>
        requires plan { P.pieces ≡ option_map trace_plan P.text }
        requires ready { IsFedSoFar P.text self.old.work.now.queue pass.old self.old.sent self.old.text }
        ensures fed { HasFedOn pass.old pass.new }
        ensures taken { OnOk result (IsFedSoFar P.text self.new.work.now.queue pass.new self.old.sent self.new.text) }
        ensures sent { self.new.sent ≡ self.old.sent }
        ensures refused { IfErr result (IsFaultWithin P.text self.old.sent) }
    {
        for _ in 0..MOST_BLOCKS {
            let place = self.text.lines.bytes();
            let most = self.out();
            let Some(read) = self.blocks.take_ready(self.rt, place, most)? else {
                return Ok(());
            };
            self.take_block(read, pass)?;
        }
        Ok(())
    }

    /// Waits for blocks in flight, and consumes each, until at most `most` bytes are in flight. Fails with the fault of
    /// the text, or when memory is refused.
    pub fn take_until(&mut self, most: usize, pass: &mut FeederPass<A>) -> Result<(), Fault>
        requires plan { P.pieces ≡ option_map trace_plan P.text }
        requires ready { IsFedSoFar P.text self.old.work.now.queue pass.old self.old.sent self.old.text }
        ensures fed { HasFedOn pass.old pass.new }
        ensures taken { OnOk result (IsFedSoFar P.text self.new.work.now.queue pass.new self.old.sent self.new.text) }
        ensures near { OnOk result (self.new.sent ≤ bytes_fed self.new.text.lines + most) }
        ensures sent { self.new.sent ≡ self.old.sent }
        ensures refused { IfErr result (IsFaultWithin P.text self.old.sent) }
    {
        for _ in self.rt.forever() {
            if self.out() <= most {
                return Ok(());
            }
            self.take_next(pass)?;
        }
        unreachable!()
    }

    /// Consumes the blocks in flight, and then the next bytes of the text. Fails as `take_until` does.
    pub fn take(&mut self, bytes: &[u8], pass: &mut FeederPass<A>) -> Result<(), Fault>
        requires plan { P.pieces ≡ option_map trace_plan P.text }
        requires ready { IsFedSoFar P.text self.old.work.now.queue pass.old self.old.sent self.old.text }
        requires place { IfSome P.text (λ whole. IsPartAt whole self.old.sent bytes.now) }
        ensures fed { HasFedOn pass.old pass.new }
        ensures taken { OnOk result (IsFedSoFar P.text self.new.work.now.queue pass.new self.new.sent self.new.text) }
        ensures sent { OnOk result (self.new.sent ≡ self.old.sent + length bytes.now) }
        ensures all { OnOk result (bytes_fed self.new.text.lines ≡ self.new.sent) }
        ensures limit { OnOk result (self.new.sent ≤ 2 ^ 30) }
        ensures refused { IfErr result (IsFaultWithin P.text (self.old.sent + length bytes.now)) }
    {
        self.take_until(0, pass)?;
        let pieces = self.text.feed(bytes)?;
        feed_pieces(self.rt, self.work, pieces, pass);
        self.sent = self.text.lines.bytes();
        Ok(())
    }

    /// Consumes the blocks in flight, and then the next lines of the text, whose memory is used again. Fails as
    /// `take_until` does.
    pub fn take_lines(&mut self, lines: Vec<u8, A>, pass: &mut FeederPass<A>) -> Result<(), Fault>
        requires plan { P.pieces ≡ option_map trace_plan P.text }
        requires ready { IsFedSoFar P.text self.old.work.now.queue pass.old self.old.sent self.old.text }
        requires place { IfSome P.text (λ whole. IsPartAt whole self.old.sent lines.items) }
        ensures fed { HasFedOn pass.old pass.new }
        ensures taken { OnOk result (IsFedSoFar P.text self.new.work.now.queue pass.new self.new.sent self.new.text) }
        ensures sent { OnOk result (self.new.sent ≡ self.old.sent + length lines.items) }
        ensures refused { IfErr result (IsFaultWithin P.text (self.old.sent + length lines.items)) }
    {
        let taken = self.take(lines.as_slice(), pass);
        self.blocks.keep_room(lines);
        taken
    }

    /// Hands the next lines of the text out as a block, and consumes the blocks that were read. While too many are in
    /// flight it waits for the next one. Consumes the lines at once where no row was read yet, or memory is refused.
    /// Fails as `take_until` does.
    pub fn hand_out(&mut self, lines: Vec<u8, A>, pass: &mut FeederPass<A>) -> Result<(), Fault>
        requires plan { P.pieces ≡ option_map trace_plan P.text }
        requires ready { IsFedSoFar P.text self.old.work.now.queue pass.old self.old.sent self.old.text }
        requires place { IfSome P.text (λ whole. IsPartAt whole self.old.sent lines.items) }
        requires few { self.old.sent + length lines.items ≤ 2 ^ 30 }
        ensures fed { HasFedOn pass.old pass.new }
        ensures taken { OnOk result (IsFedSoFar P.text self.new.work.now.queue pass.new self.new.sent self.new.text) }
        ensures sent { OnOk result (self.new.sent ≡ self.old.sent + length lines.items) }
        ensures refused { IfErr result (IsFaultWithin P.text (self.old.sent + length lines.items)) }
    {
        self.free_place(pass)?;
        let Some(start) = self.text.start() else {
            return self.take_lines(lines, pass);
        };
        let len = lines.len() as u32;
        let block = Block {
            place: self.sent,
            start,
            bytes: lines,
            lists: self.blocks.lists(),
            text: PhantomData,
        };
        match self.blocks.hand_out(self.rt, block) {
            Ok(()) => {
                self.sent += len;
                self.take_ready(pass)
            }
            Err(back) => self.take_lines(back.bytes, pass),
        }
    }
}
