//! The queues by which the reading thread and the workers hand each other blocks.

ghost use Rattle.std.specs.Prelude.{◌≡◌, IfErr};
ghost use Rattle.line_model.specs.declared.fault.Fault.TheVariants.{Memory};

use crate::text_block::{Block, ReadBlock, TraceText};
use crossbeam_queue::ArrayQueue;
use line_model::fault::Fault;
use std::alloc::{Allocator, Global};
use std::sync::Wait;
use std::thread;

/// The most blocks in flight: 16.
pub const MOST_BLOCKS: usize = 16;

/// The bytes of a block: 256 KiB.
pub const BLOCK_BYTES: usize = 1 << 18;

/// The most bytes that are read and not consumed before the next read: those of the blocks in flight, and of the next
/// one.
pub const IN_FLIGHT: usize = MOST_BLOCKS * BLOCK_BYTES;

/// How a trace text is cut into blocks.
#[derive(Clone, Copy)]
pub struct BlockSizes {
    /// A read with fewer bytes is consumed at once, with all before it.
    pub least_read: usize,
    /// The lines are a block once they have this many bytes.
    pub enough: usize,
}

/// Blocks that are to be read, and blocks that were read, in any order.
#[derive(Drop)]
pub struct BlockQueues<P: TraceText, A: Allocator = Global> {
    pub sizes: BlockSizes,
    unread: ArrayQueue<Block<P, A>, A>,
    read: ArrayQueue<ReadBlock<P, A>, A>,
}

impl<P: TraceText, A: Allocator + Copy> BlockQueues<P, A> {
    /// Returns two empty queues. Fails only when memory is refused.
    pub fn new(alloc: A, sizes: BlockSizes) -> Result<Self, Fault>
        ensures refused { IfErr result (λ fault. fault ≡ Memory) }
    {
        let unread = ArrayQueue::new(alloc, MOST_BLOCKS)?;
        let read = ArrayQueue::new(alloc, MOST_BLOCKS)?;
        Ok(BlockQueues {
            sizes,
            unread,
            read,
        })
    }

    /// Queues a block until a thread reads it. Returns it where the queue is full.
    pub fn hand_out<R: Wait>(&self, rt: &R, block: Block<P, A>) -> Result<(), Block<P, A>>
        ensures back { IfErr result (λ back. back ≡ block) }
    {
        self.unread.push(rt, block)
    }

    /// Hands back a block that was read.
    fn hand_back<R: Wait>(&self, rt: &R, block: ReadBlock<P, A>) {
        let mut left = block;
        for _ in rt.forever() {
            match self.read.push(rt, left) {
                Ok(()) => return,
                Err(back) => left = back,
            }
            thread::yield_now();
        }
        unreachable!()
    }

    /// Reads a block that waits, if one does, and hands it back. Returns whether one did.
    pub fn read_one<R: Wait>(&self, rt: &R) -> bool {
        match self.unread.pop(rt) {
            Some(block) => {
                self.hand_back(rt, block.read());
                true
            }
            None => false,
        }
    }

    /// Removes and returns a block that waits to be read, if one does.
    pub fn take_unread<R: Wait>(&self, rt: &R) -> Option<Block<P, A>> {
        self.unread.pop(rt)
    }

    /// Removes and returns a block that was read, if one was handed back.
    pub fn take_read<R: Wait>(&self, rt: &R) -> Option<ReadBlock<P, A>> {
        self.read.pop(rt)
    }
}
