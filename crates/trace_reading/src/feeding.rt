//! A source that is read to its end while the pieces of its trace are fed.

ghost use Rattle.std.specs.Prelude.{◌≡◌, ◌≢◌, ℕ, ◌+◌, ◌<◌, ◌≤◌, ◌^◌, ◌++◌, [], List, Err, IfErr, IfOk, IfSome, MatchOption, OnOk, false, is_some, true, length};
ghost use Rattle.std.specs.Option.{option_map};
ghost use Rattle.line_model.specs.text.Text.{fault};
ghost use Rattle.line_model.specs.declared.fault.Fault.TheVariants.{Memory};
ghost use Rattle.line_model.specs.pieces.Plans.{plan};
ghost use Rattle.line_model.specs.basics.Records as records;
ghost use Rattle.line_model.specs.traces.Traces.{trace_plan};
ghost use Rattle.restart_epochs.specs.Cutting.{given_of};
ghost use Rattle.trace_text.specs.Progress.{bytes_fed};
ghost use Rattle.trace_text.specs.Sources.{IsFedAll, IsFedUpTo, MayBeFed};
ghost use Rattle.trace_text.specs.Represents.{IsFaultOf, IsTextFault};
ghost use Rattle.shared_work.specs.queue.Passes.{PassView};
ghost use Rattle.workers.specs.Workers.{HasFed};
ghost use Rattle.trace_reading.specs.TextCuts.{HasCut, HasTaken, IsFedTo};
ghost use Rattle.trace_reading.specs.Readings.{HasFedOn, HasRead, HasSentNone, Holds, HoldsAllOf, IsCutOf, IsFaultWithin, IsOutcome, IsPlanBegunSo, IsReadEnd, IsReadOf, IsRefusedText, bytes_read, in_flight, lag_of};

use crate::block_queues::{BlockQueues, IN_FLIGHT};
use crate::blocks_in_flight::BlocksInFlight;
use crate::room::Room;
use crate::taken_text::TakenText;
use crate::text_block::TraceText;
use crate::text_cutter::{RowCutter, TextCutter};
use line_model::fault::Fault;
use line_model::finding::Finding;
use line_model::interface::Interface;
use line_model::piece::Plan;
use memchr::memrchr;
use report_merge::row_counts::RowCounts;
use restart_epochs::cutter::Cut;
use shared_work::queue::{FeederPass, Work};
use std::alloc::{Allocator, Global};
use std::sync::Wait;
use std::time::Clock;
use streams::room_source::RoomSource;
use trace_text::lines::{LINE_LIMIT, TEXT_LIMIT};
use workers::{Feed, feed_pieces};

/// What was read: the header of the trace, the findings of the restart machine, and how many packets, gaps and pieces there
/// are.
#[derive(Drop)]
pub struct Read<A: Allocator = Global> {
    pub interface: Interface,
    pub interface_findings: Vec<Finding, A>,
    pub counts: RowCounts,
    pub pieces: u32,
}

/// The trace has ended: the pieces of the epoch that is open are fed.
fn feed_open_epoch<P: Plan, A: Allocator + Copy, R: Wait + Clock>(
    rt: &R,
    row_cutter: RowCutter<A>,
    work: &Work<P, A>,
    pass: &mut FeederPass<A>,
) -> Result<Read<A>, Fault>
    requires queue { pass.old.queue ≡ work.now.queue }
    requires open { pass.old.record_of.ends ≡ 0 }
    requires ready { (items : List records.Item) × HasCut items row_cutter
        × (pass.old.record_of.fed ≡ length (given_of row_cutter.interface items))
        × (pass.old.pieces ≡ given_of row_cutter.interface items)
        × IfSome P.pieces (λ ps. ps ≡ plan row_cutter.interface items) }
    ensures queue { pass.new.queue ≡ pass.old.queue }
    ensures kept { HasFed pass.old.record_of pass.new.record_of }
    ensures cut { (items : List records.Item) → HasCut items row_cutter
        → pass.old.pieces ≡ given_of row_cutter.interface items
        → IfOk result (IsCutOf row_cutter.interface items pass.new.pieces) }
    ensures memory { IfErr result (λ fault. fault ≡ Memory) }
{
    let RowCutter { interface, cutter } = row_cutter;
    let given = cutter.given();
    let Cut {
        pieces,
        interface_findings,
        packets,
        gaps,
    } = cutter.end()?;
    let all = given + pieces.len();
    feed_pieces(rt, work, pieces, pass);
    Ok(Read {
        interface,
        interface_findings,
        counts: RowCounts { packets, gaps },
        pieces: all as u32,
    })
}

/// The text has ended: the row of its last line, and the pieces that were not fed yet.
fn finish<P: Plan, A: Allocator + Copy, R: Wait + Clock>(
    rt: &R,
    alloc: A,
    text: TextCutter<A>,
    work: &Work<P, A>,
    pass: &mut FeederPass<A>,
) -> Result<Read<A>, Fault>
    requires queue { pass.old.queue ≡ work.now.queue }
    requires open { pass.old.record_of.ends ≡ 0 }
    requires ready { (given : List ℕ) × IsFedTo given pass.old text
        × IfSome P.pieces (λ ps. ps ≡ trace_plan given) }
    ensures queue { pass.new.queue ≡ pass.old.queue }
    ensures kept { HasFed pass.old.record_of pass.new.record_of }
    ensures read { (given : List ℕ) → IsFedTo given pass.old text
        → IfOk result (IsReadOf given pass.new.pieces) }
    ensures refused { (given : List ℕ) → IsFedTo given pass.old text
        → IfErr result (IsFaultOf (fault given)) }
    ensures kinds { IfErr result IsTextFault }
{
    let mut pieces = Vec::new(alloc);
    let row_cutter = text.end(&mut pieces)?;
    feed_pieces(rt, work, pieces, pass);
    feed_open_epoch(rt, row_cutter, work, pass)
}

/// How many bytes whole lines have: all up to the last LF.
fn whole_lines(bytes: &[u8]) -> usize
    ensures { result ≤ length bytes.now }
{
    match memrchr(b'\n', bytes) {
        Some(at) => at + 1,
        None => 0,
    }
}

/// A trace text that is read into the room of its next block. No line is validated before its block is consumed.
///
/// ```text
///  1 T 10..\n2 N 10..\n3 T 10..\n4 N 10..\n5 T 10..\n6 N 1|
///  `-consumed--'`- out as blocks -'`------- room --------'
///  `------------- sent ----------'
/// ```
#[derive(Drop)]
struct FedText<'a, P: Plan + TraceText, A: Allocator, R> {
    taken: TakenText<'a, P, A, R>,
    /// What comes after the bytes that were sent on.
    room: Room<A>,
}

impl<'a, P: Plan + TraceText, A: Allocator + Copy, R: Wait + Clock> FedText<'a, P, A, R> {
    /// Whether the trace text has more bytes than one may have.
    fn passes_limit(&self) -> bool
        ensures { result ≡ false → bytes_read self.now ≤ 2 ^ 30 }
    {
        self.room.len().saturating_add(self.taken.sent as usize) > TEXT_LIMIT as usize
    }

    /// The first bytes of the room, whose rest begins the next one. `None`: memory is refused, and nothing has changed.
    fn split_room(&mut self, count: usize) -> Option<Vec<u8, A>>
        requires { count ≤ length self.old.room.items }
        ensures same { (self.new.taken.sent ≡ self.old.taken.sent)
            × (self.new.taken.text ≡ self.old.taken.text)
            × (self.new.taken.work.now ≡ self.old.taken.work.now) }
        ensures parts { MatchOption result (self.new.room.items ≡ self.old.room.items)
            (λ lines. self.old.room.items ≡ lines.items ++ self.new.room.items) }
    {
        let memory = self.taken.blocks.memory();
        self.room.split(count, memory)
    }

    /// Consumes the blocks in flight, and then all of the room.
    fn take_room(&mut self, pass: &mut FeederPass<A>) -> Result<(), Fault>
        requires plan { P.pieces ≡ option_map trace_plan P.text }
        requires held { Holds P.text pass.old self.old }
        ensures fed { HasFedOn pass.old pass.new }
        ensures held { OnOk result (Holds P.text pass.new self.new) }
        ensures all { OnOk result (bytes_fed self.new.taken.text.lines ≡ self.new.taken.sent) }
        ensures sent { OnOk result (self.new.taken.sent ≡ bytes_read self.old) }
        ensures none { self.new.room.items ≡ [] }
        ensures wide { 2 ^ 16 ≤ self.new.room.spare }
        ensures size { OnOk result (bytes_read self.new ≡ bytes_read self.old) }
        ensures limit { OnOk result (bytes_read self.new ≤ 2 ^ 30) }
        ensures refused { IfErr result (IsFaultWithin P.text (bytes_read self.old)) }
    {
        let taken = self.taken.take(self.room.as_slice(), pass);
        self.room.clear();
        taken
    }

    /// Consumes the blocks in flight, and then the first bytes of the room.
    fn take_front(&mut self, count: usize, pass: &mut FeederPass<A>) -> Result<(), Fault>
        requires plan { P.pieces ≡ option_map trace_plan P.text }
        requires held { Holds P.text pass.old self.old }
        requires count { count ≤ length self.old.room.items }
        ensures fed { HasFedOn pass.old pass.new }
        ensures held { OnOk result (Holds P.text pass.new self.new) }
        ensures size { OnOk result (bytes_read self.new ≡ bytes_read self.old) }
        ensures refused { IfErr result (IsFaultWithin P.text (bytes_read self.old)) }
    {
        let taken = self.taken.take(&self.room.as_slice()[..count], pass);
        self.room.drop_front(count);
        taken
    }

    /// Consumes the whole lines of the room, or hands them out as a block. Consumes all of it where it ends in a line
    /// that is too long, or memory is refused.
    fn send_lines(&mut self, at_once: bool, pass: &mut FeederPass<A>) -> Result<(), Fault>
        requires plan { P.pieces ≡ option_map trace_plan P.text }
        requires held { Holds P.text pass.old self.old }
        requires few { bytes_read self.old ≤ 2 ^ 30 }
        ensures fed { HasFedOn pass.old pass.new }
        ensures held { OnOk result (Holds P.text pass.new self.new) }
        ensures size { OnOk result (bytes_read self.new ≡ bytes_read self.old) }
        ensures refused { IfErr result (IsFaultWithin P.text (bytes_read self.old)) }
    {
        let count = whole_lines(self.room.as_slice());
        if self.room.len().saturating_sub(count) > LINE_LIMIT {
            return self.take_room(pass);
        }
        if count == 0 {
            return Ok(());
        }
        if at_once {
            return self.take_front(count, pass);
        }
        let Some(lines) = self.split_room(count) else {
            return self.take_room(pass);
        };
        self.taken.hand_out(lines, pass)
    }

    /// Hands the whole lines of the room out where they are enough for a block. Consumes them at once where the last
    /// read had few bytes, or no row was read yet.
    fn send_ready(&mut self, last_read: usize, pass: &mut FeederPass<A>) -> Result<(), Fault>
        requires plan { P.pieces ≡ option_map trace_plan P.text }
        requires held { Holds P.text pass.old self.old }
        requires few { bytes_read self.old ≤ 2 ^ 30 }
        ensures fed { HasFedOn pass.old pass.new }
        ensures held { OnOk result (Holds P.text pass.new self.new) }
        ensures size { OnOk result (bytes_read self.new ≡ bytes_read self.old) }
        ensures refused { IfErr result (IsFaultWithin P.text (bytes_read self.old)) }
    {
        let sizes = self.taken.blocks.sizes();
        let at_once = last_read < sizes.least_read || self.taken.text.start().is_none();
        if !at_once && self.room.len() < sizes.enough {
            return Ok(());
        }
        self.send_lines(at_once, pass)
    }

    /// Makes room for a read. Consumes all of the room where memory is refused.
    fn widen(&mut self, pass: &mut FeederPass<A>) -> Result<(), Fault>
        requires plan { P.pieces ≡ option_map trace_plan P.text }
        requires held { Holds P.text pass.old self.old }
        ensures fed { HasFedOn pass.old pass.new }
        ensures held { OnOk result (Holds P.text pass.new self.new) }
        ensures size { OnOk result (bytes_read self.new ≡ bytes_read self.old) }
        ensures refused { IfErr result (IsFaultWithin P.text (bytes_read self.old)) }
        ensures wide { OnOk result (2 ^ 16 ≤ self.new.room.spare) }
    {
        if self.room.widen() {
            return Ok(());
        }
        self.take_room(pass)
    }

    /// Consumes blocks until no more bytes are in flight than may be.
    fn keep_up(&mut self, pass: &mut FeederPass<A>) -> Result<(), Fault>
        requires plan { P.pieces ≡ option_map trace_plan P.text }
        requires held { Holds P.text pass.old self.old }
        ensures fed { HasFedOn pass.old pass.new }
        ensures held { OnOk result (Holds P.text pass.new self.new) }
        ensures size { OnOk result (bytes_read self.new ≡ bytes_read self.old) }
        ensures near { OnOk result (bytes_read self.new ≤ bytes_fed self.new.taken.text.lines + in_flight) }
        ensures wide { 2 ^ 16 ≤ self.old.room.spare → 2 ^ 16 ≤ self.new.room.spare }
        ensures refused { IfErr result (IsFaultWithin P.text (bytes_read self.old)) }
    {
        match IN_FLIGHT.checked_sub(self.room.len()) {
            Some(most) => self.taken.take_until(most, pass),
            None => self.take_room(pass),
        }
    }

    /// Goes on with a text whose last read had `last_read` bytes, which are at the end of the room.
    fn take_read(&mut self, last_read: usize, pass: &mut FeederPass<A>) -> Result<(), Fault>
        requires plan { P.pieces ≡ option_map trace_plan P.text }
        requires held { Holds P.text pass.old self.old }
        ensures fed { HasFedOn pass.old pass.new }
        ensures held { OnOk result (Holds P.text pass.new self.new) }
        ensures size { OnOk result (bytes_read self.new ≡ bytes_read self.old) }
        ensures refused { IfErr result (IsFaultWithin P.text (bytes_read self.old)) }
        ensures limit { OnOk result (bytes_read self.new ≤ 2 ^ 30) }
        ensures near { OnOk result (bytes_read self.new ≤ bytes_fed self.new.taken.text.lines + in_flight) }
        ensures wide { OnOk result (2 ^ 16 ≤ self.new.room.spare) }
    {
        if self.passes_limit() {
            return self.take_room(pass);
        }
        self.send_ready(last_read, pass)?;
        self.widen(pass)?;
        self.keep_up(pass)
    }
}

/// Reads a source to its end, each read after the bytes of the room. It stops at the first refusal, and with
/// `Fault::Read` where the source fails.
fn read_text<P: Plan + TraceText, A: Allocator + Copy, S: RoomSource, R: Wait + Clock>(
    source: &mut S,
    fed: &mut FedText<'_, P, A, R>,
    pass: &mut FeederPass<A>,
) -> Result<(), Fault>
    requires nothing { HoldsAllOf P.text pass.old pass.old [] fed.old }
    requires wide { 2 ^ 16 ≤ fed.old.room.spare }
    requires expected { MayBeFed (S.left source.old) (IsPlanBegunSo P.pieces P.text) }
    requires plan { P.pieces ≡ option_map trace_plan P.text }
    ensures whole { OnOk result (IsFedAll (lag_of P.text) (S.left source.old) (S.left source.new)
        (S.before source.new) (λ text. HoldsAllOf P.text pass.old pass.new text fed.new)) }
    // At a refusal all was fed that the source gave before its last call.
    ensures stopped { IfErr result (IsFedUpTo (lag_of P.text) (S.left source.old) (S.left source.new)
        (S.before source.new) (λ text. HoldsAllOf P.text pass.old pass.new text fed.new)
        (λ text last. IsRefusedText P.text pass.old pass.new (length (text ++ last)))) }
    ensures read_failed { result ≡ Err Fault.Read → S.failures source.old < S.failures source.new }
    // The source is asked at least once.
    ensures called { S.calls source.old < S.calls source.new }
    ensures asked { S.calls source.new ≤ S.calls source.old + (2 ^ 30 + 1) }
{
    loop {
        let Ok(last_read) = fed.room.read(source) else {
            return Err(Fault::Read);
        };
        if last_read == 0 {
            return Ok(());
        }
        fed.take_read(last_read, pass)?;
    }
}

/// The source has failed: consumes what was read, and returns its fault, or otherwise that of the source.
fn take_failed<P: Plan + TraceText, A: Allocator + Copy, R: Wait + Clock>(
    fed: &mut FedText<'_, P, A, R>,
    pass: &mut FeederPass<A>,
) -> Fault
    requires plan { P.pieces ≡ option_map trace_plan P.text }
    requires held { Holds P.text pass.old fed.old }
    ensures fed { HasFedOn pass.old pass.new }
    ensures read { IsReadEnd P.text (bytes_read fed.old) result }
{
    match fed.take_room(pass) {
        Ok(()) => Fault::Read,
        Err(earlier) => earlier,
    }
}

/// The fault by which a text is refused once reading has stopped by this one. Where the source has failed, the text was
/// not refused yet, and what was read of it may show a fault.
fn last_fault<P: Plan + TraceText, A: Allocator + Copy, R: Wait + Clock>(
    fed: &mut FedText<'_, P, A, R>,
    fault: Fault,
    pass: &mut FeederPass<A>,
) -> Fault
    requires plan { P.pieces ≡ option_map trace_plan P.text }
    requires held { fault ≡ Fault.Read → Holds P.text pass.old fed.old }
    ensures fed { (start : PassView) → HasFedOn start pass.old → HasFedOn start pass.new }
    ensures other { fault ≢ Fault.Read → result ≡ fault }
    ensures read { fault ≡ Fault.Read → IsReadEnd P.text (bytes_read fed.old) result }
{
    match fault {
        Fault::Read => take_failed(fed, pass),
        _ => fault,
    }
}

/// Reads a source to its end, and feeds the pieces of its trace. Where it succeeds, the text has no fault, and exactly
/// its pieces were fed. A failure of the source hides no faulty line: what was read before is consumed first. The source is
/// given the last line.
fn read_all<P: Plan + TraceText, A: Allocator + Copy, S: RoomSource, R: Wait + Clock>(
    source: &mut S,
    fed: FedText<'_, P, A, R>,
    pass: &mut FeederPass<A>,
) -> Result<Read<A>, Fault>
    requires queue { pass.old.queue ≡ fed.taken.work.now.queue }
    requires first { (pass.old.record_of.fed ≡ 0) × (pass.old.record_of.ends ≡ 0) }
    requires none { pass.old.pieces ≡ [] }
    requires wide { 2 ^ 16 ≤ fed.room.spare }
    requires begun { HasSentNone fed.taken.sent fed.room.items × HasTaken [] fed.taken.text }
    requires text { P.text ≡ S.left source.old }
    requires plan { P.pieces ≡ option_map trace_plan P.text }
    ensures queue { pass.new.queue ≡ pass.old.queue }
    ensures kept { HasFed pass.old.record_of pass.new.record_of }
    ensures read { HasRead (S.left source.old) (S.left source.new) (S.before source.new)
        (S.failures source.old < S.failures source.new) pass.new.pieces result }
    ensures called { S.calls source.old < S.calls source.new }
    ensures asked { S.calls source.new ≤ S.calls source.old + (2 ^ 30 + 1) }
{
    let mut fed = fed;
    match read_text(source, &mut fed, pass) {
        Ok(()) => {
            if let Err(fault) = fed.take_room(pass) {
                source.keep_line(fed.taken.text.lines.last_line());
                return Err(fault);
            }
            source.keep_line(fed.taken.text.lines.last_line());
            let FedText { taken, room } = fed;
            let TakenText { rt, work, text, .. } = taken;
            finish(rt, *room.allocator(), text, work, pass)
        }
        Err(fault) => {
            let last = last_fault(&mut fed, fault, pass);
            source.keep_line(fed.taken.text.lines.last_line());
            Err(last)
        }
    }
}

/// The reading thread's part of a scan with workers: a source, the queues of blocks, and what became of reading it:
/// nothing before.
#[derive(Drop)]
pub struct ReadingTask<'a, P: Plan + TraceText, A: Allocator, S> {
    pub source: &'a mut S,
    pub queues: &'a BlockQueues<P, A>,
    /// The room of the first block; none after it was read.
    pub room: Option<Room<A>>,
    pub outcome: Option<Result<Read<A>, Fault>>,
}

impl<'a, P: Plan + TraceText, A: Allocator + Copy, S: RoomSource> Feed<P, A>
    for ReadingTask<'a, P, A, S> {
    // The plan is that of the bytes that the source shows.
    ghost can_feed = { λ task. (P.text ≡ S.left task.source.now) × (P.pieces ≡ option_map trace_plan P.text) × (is_some task.room ≡ true) };

    ghost feed_gives = { λ task fed after. (after.source.ghost_name ≡ task.source.ghost_name) × IsOutcome (S.left task.source.now) (S.left after.source.now) (S.before after.source.now) (S.failures task.source.now < S.failures after.source.now) fed after.outcome × (S.calls task.source.now < S.calls after.source.now) × (S.calls after.source.now ≤ S.calls task.source.now + (2 ^ 30 + 1)) };

    ghost unfed = { λ task after. (after.source.ghost_name ≡ task.source.ghost_name) × (after.source.now ≡ task.source.now) };

    fn back(self) -> Self {
        self
    }

    fn feed<R: Wait + Clock>(self, rt: &R, work: &Work<P, A>, pass: &mut FeederPass<A>) -> Self {
        let ReadingTask {
            source,
            queues,
            room,
            ..
        } = self;
        let Some(mut room) = room else {
            unreachable!();
        };
        room.clear();
        let alloc = *room.allocator();
        let fed = FedText {
            taken: TakenText {
                rt,
                work,
                text: TextCutter::new(alloc),
                blocks: BlocksInFlight::new(alloc, queues),
                sent: 0,
            },
            room,
        };
        let outcome = read_all(source, fed, pass);
        ReadingTask {
            source,
            queues,
            room: None,
            outcome: Some(outcome),
        }
    }
}
