//! An allocator for tests, which refuses growths and counts the blocks that were not given back.

use std::alloc::{AllocError, Allocator};
use std::sync::atomic::{AtomicU64, Ordering};
use std::test::Fail;

/// Which growths are refused, and how many blocks are held. Threads may share it.
#[derive(Drop)]
struct Supply {
    /// The number of the first growth that is refused; the first growth is 0.
    first: AtomicU64,
    /// The number of the growth after the last one that is refused.
    last: AtomicU64,
    /// The growths that were asked for.
    asked: AtomicU64,
    /// The blocks that were not given back.
    held: AtomicU64,
}

/// Whether the next growth is refused; otherwise its block is counted.
fn refuses(supply: &Supply) -> bool {
    let number = supply.asked.fetch_add(1, Ordering::SeqCst);
    let first = supply.first.load(Ordering::SeqCst);
    let last = supply.last.load(Ordering::SeqCst);
    let refused = first <= number && number < last;
    if !refused {
        supply.held.fetch_add(1, Ordering::SeqCst);
    }
    refused
}

/// Counts a block that was given back.
fn count_back(supply: &Supply) {
    supply.held.fetch_sub(1, Ordering::SeqCst);
}

/// Passes on to another allocator what it grants. A reference to it is an allocator that is `Copy` and that threads can
/// share.
#[derive(Drop)]
pub struct Scarce<B: Allocator> {
    inner: B,
    supply: Supply,
}

impl<B: Allocator> Scarce<B> {
    /// Returns an allocator that grants all.
    pub fn new(inner: B) -> Self {
        Scarce {
            inner,
            supply: Supply {
                first: AtomicU64::new(0),
                last: AtomicU64::new(0),
                asked: AtomicU64::new(0),
                held: AtomicU64::new(0),
            },
        }
    }

    fn refuse(&self, first: u64, last: u64) {
        self.supply.first.store(first, Ordering::SeqCst);
        self.supply.last.store(last, Ordering::SeqCst);
        self.supply.asked.store(0, Ordering::SeqCst);
    }

    /// Refuses nothing from now on.
    pub fn grant_all(&self) {
        self.refuse(0, 0);
    }

    /// Grants the next `good` growths, refuses one, and grants the others.
    pub fn refuse_one(&self, good: u64) {
        self.refuse(good, good.saturating_add(1));
    }

    /// Grants the next `good` growths, and refuses all others.
    pub fn refuse_from(&self, good: u64) {
        self.refuse(good, u64::MAX);
    }

    /// Returns whether a growth was refused, and refuses nothing from now on.
    pub fn was_refused(&self) -> bool {
        let refused = self.supply.first.load(Ordering::SeqCst) < self.asked();
        self.grant_all();
        refused
    }

    /// Returns how many growths were asked for since the last call that set which ones are refused.
    pub fn asked(&self) -> u64 {
        self.supply.asked.load(Ordering::SeqCst)
    }

    /// Returns how many blocks were not given back.
    pub fn held(&self) -> u64 {
        self.supply.held.load(Ordering::SeqCst)
    }
}

unsafe impl<B: Allocator> Allocator for Scarce<B> {
    ghost dealloc_token = { λ heap ty ptr. B.dealloc_token heap.inner ty ptr };

    fn allocate(&self, size: usize, align: usize) -> Result<*mut u8, AllocError> {
        if refuses(&self.supply) {
            return Err(AllocError);
        }
        self.inner.allocate(size, align)
    }

    unsafe fn deallocate(&self, ptr: *mut u8, size: usize, align: usize) {
        count_back(&self.supply);
        self.inner.deallocate(ptr, size, align);
    }
}

/// The most growths that a test looks for.
const GROWTHS: u64 = 10_000;

/// Calls a test with 0, 1, 2 and so on, until it returns false. The test refuses the growth after that many others,
/// and returns whether there was one. Fails with the test, where a block is kept after it, and where there is no
/// growth or no end of them.
pub fn refuse_each<B: Allocator, F: Fn(u64) -> Result<bool, Fail>>(
    heap: &Scarce<B>,
    test: F,
) -> Result<(), Fail>
    requires { F.IsAlwaysCallable test }
{
    let held = heap.held();
    for good in 0..GROWTHS {
        let refused = test(good)?;
        if heap.held() != held {
            return Err("a block is kept")?;
        }
        if !refused && good == 0 {
            return Err("there is no growth")?;
        }
        if !refused {
            return Ok(());
        }
    }
    Err("there is no end of growths")?
}
