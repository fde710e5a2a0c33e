//! The blocks in flight: those that the reading thread handed out.

ghost use Rattle.std.specs.Prelude.{◌≡◌, IfErr, IfOk, IfSome};
ghost use Rattle.std.specs.Bool.{OnTrue};
ghost use Rattle.trace_reading.specs.TextBlocks.{IsBlockAt};

use crate::block_queues::{BlockQueues, BlockSizes, MOST_BLOCKS};
use crate::text_block::{Block, ReadBlock, TraceText};
use restart_epochs::rows_by_channel::RowsByChannel;
use std::alloc::{AllocError, Allocator, Global};
use std::sync::Wait;
use std::time::Clock;
use workers::Backoff;

/// Whether a block is at this place of the text, and has at most `most` bytes. The contract does not know from its
/// place alone that it ends before the bytes that were not handed out.
fn is_at<P: TraceText, A: Allocator>(read: &ReadBlock<P, A>, place: u32, most: usize) -> bool
    ensures { OnTrue result (IsBlockAt P.text place most read.now) }
{
    read.block.place == place && read.block.bytes.len() <= most
}

/// The memory of a block that was consumed, for the next ones.
#[derive(Drop)]
pub struct UsedBlock<A: Allocator = Global> {
    pub bytes: Vec<u8, A>,
    pub lists: RowsByChannel<A>,
}

/// The blocks that were handed out and not consumed yet, as the reading thread knows of them.
#[derive(Drop)]
pub struct BlocksInFlight<'a, P: TraceText, A: Allocator = Global> {
    queues: &'a BlockQueues<P, A>,
    /// Blocks that came back before an earlier one.
    early: Vec<ReadBlock<P, A>, A>,
    /// How many blocks are in flight.
    count: usize,
    /// The memory of bytes that were consumed, for the next ones.
    rooms: Vec<Vec<u8, A>, A>,
    /// The lists of blocks that were consumed, for the next ones.
    lists: Vec<RowsByChannel<A>, A>,
}

impl<'a, P: TraceText, A: Allocator + Copy> BlocksInFlight<'a, P, A> {
    /// Returns a value with no block in flight. Allocates no memory.
    pub fn new(alloc: A, queues: &'a BlockQueues<P, A>) -> Self {
        BlocksInFlight {
            queues,
            early: Vec::new(alloc),
            count: 0,
            rooms: Vec::new(alloc),
            lists: Vec::new(alloc),
        }
    }

    /// Returns the memory of bytes that were consumed, if there is some; otherwise an empty list.
    pub fn memory(&mut self) -> Vec<u8, A> {
        match self.rooms.pop() {
            Some(bytes) => bytes,
            None => Vec::new(*self.rooms.allocator()),
        }
    }

    /// Keeps the memory of bytes that were consumed, or frees it where memory for that is refused.
    pub fn keep_room(&mut self, bytes: Vec<u8, A>) {
        drop(self.rooms.push(bytes));
    }

    /// Returns lists for the rows of a block by channel: those of a block that was consumed, if there are some.
    pub fn lists(&mut self) -> RowsByChannel<A> {
        match self.lists.pop() {
            Some(lists) => lists,
            None => RowsByChannel::new(*self.lists.allocator()),
        }
    }

    /// Keeps the memory of a block that was consumed, or frees it where memory for that is refused.
    pub fn keep(&mut self, used: UsedBlock<A>) {
        self.keep_room(used.bytes);
        drop(self.lists.push(used.lists));
    }

    /// Returns how the text is cut into blocks.
    pub fn sizes(&self) -> BlockSizes {
        self.queues.sizes
    }

    /// Returns whether no more blocks may be in flight.
    pub fn is_full(&self) -> bool {
        self.count >= MOST_BLOCKS
    }

    /// Hands a block out. Returns it where too many are in flight, or where memory to receive blocks back is refused.
    pub fn hand_out<R: Wait>(&mut self, rt: &R, block: Block<P, A>) -> Result<(), Block<P, A>>
        ensures back { IfErr result (λ back. back ≡ block) }
    {
        if self.is_full() || self.early.reserve(MOST_BLOCKS).is_err() {
            return Err(block);
        }
        self.queues.hand_out(rt, block)?;
        self.count = self.count.saturating_add(1);
        Ok(())
    }

    /// Removes and returns the block of this place, of at most `most` bytes, if it came back before an earlier one.
    fn take_early(&mut self, place: u32, most: usize) -> Option<ReadBlock<P, A>>
        ensures place { IfSome result (IsBlockAt P.text place most) }
    {
        for index in 0..self.early.len() {
            if is_at(&self.early[index], place, most) {
                return Some(self.early.swap_remove(index));
            }
        }
        None
    }

    /// Removes and returns the block of this place, of at most `most` bytes, if it came back.
    fn find<R: Wait>(
        &mut self,
        rt: &R,
        place: u32,
        most: usize,
    ) -> Result<Option<ReadBlock<P, A>>, AllocError>
        ensures place { IfOk result (λ found. IfSome found (IsBlockAt P.text place most)) }
    {
        if let Some(block) = self.take_early(place, most) {
            return Ok(Some(block));
        }
        for _ in 0..MOST_BLOCKS {
            let Some(block) = self.queues.take_read(rt) else {
                return Ok(None);
            };
            if is_at(&block, place, most) {
                return Ok(Some(block));
            }
            self.early.push(block)?;
        }
        Ok(None)
    }

    /// Removes and returns the block of this place, of at most `most` bytes, if it was read.
    pub fn take_ready<R: Wait>(
        &mut self,
        rt: &R,
        place: u32,
        most: usize,
    ) -> Result<Option<ReadBlock<P, A>>, AllocError>
        ensures place { IfOk result (λ found. IfSome found (IsBlockAt P.text place most)) }
    {
        let found = self.find(rt, place, most)?;
        if found.is_some() {
            self.count = self.count.saturating_sub(1);
        }
        Ok(found)
    }

    /// Removes and returns the block of this place, of at most `most` bytes. Until it is there, reads blocks that wait,
    /// or waits itself. Fails only when memory is refused.
    pub fn take<R: Wait + Clock>(
        &mut self,
        rt: &R,
        place: u32,
        most: usize,
    ) -> Result<ReadBlock<P, A>, AllocError>
        ensures place { IfOk result (IsBlockAt P.text place most) }
    {
        let mut backoff = Backoff::new();
        for _ in rt.forever() {
            if let Some(block) = self.take_ready(rt, place, most)? {
                return Ok(block);
            }
            match self.queues.take_unread(rt) {
                Some(block) => self.early.push(block.read())?,
                None => backoff.wait(rt),
            }
        }
        unreachable!()
    }
}
