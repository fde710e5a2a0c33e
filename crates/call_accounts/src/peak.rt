//! The greatest number of calls that were up at once.

ghost use Rattle.std.specs.Prelude.{◌≡◌, ℕ, ◌<◌, ◌≤◌, ◌+◌, IfOk, IfErr, OnOk, cond, length, slice_index};
ghost use Rattle.std.specs.List.Sorted.{IsNonDecreasing};
ghost use Rattle.line_model.specs.observer.Calls.{up_at};
ghost use Rattle.line_model.specs.observer.Peak.{IsPeakOfTimes};
ghost use Rattle.call_accounts.specs.Sweep.{up_to, is_call_up, IsHighest};

use line_model::call::CallRecord;
use line_model::fault::Fault;
use line_model::report::Peak;
use std::alloc::{AllocError, Allocator};

/// Returns the greatest number of calls up at once, and the least row number after which it was reached, none for 0.
/// A call is up from the row that brought it up to the one before its end (profile). Fails only when memory is refused.
pub fn peak_of<A: Allocator + Clone>(alloc: A, calls: &[CallRecord<A>]) -> Result<Peak, Fault>
    ensures peak { IfOk result (λ p. IsPeakOfTimes (up_at calls.now) p.count p.packet) }
    ensures memory { IfErr result (λ f. f ≡ Fault.Memory) }
{
    let mut times = times(alloc, calls)?;
    times.ups.sort_unstable();
    times.ends.sort_unstable();
    Ok(highest(times.ups.as_slice(), times.ends.as_slice()))
}

/// When calls came up, and when those that came up ended.
#[derive(Drop)]
struct UpTimes<A: Allocator> {
    ups: Vec<u32, A>,
    ends: Vec<u32, A>,
}

impl<A: Allocator> UpTimes<A> {
    /// Adds the times of a call, if it was up.
    fn add<B: Allocator>(&mut self, call: &CallRecord<B>) -> Result<(), AllocError>
        ensures { (n : ℕ) → OnOk result (up_to n self.new.ups.items + up_to n self.old.ends.items
            ≡ up_to n self.old.ups.items + up_to n self.new.ends.items
            + cond (is_call_up n call.now) 1 0) }
    {
        match (call.up, call.ended) {
            (None, _) => Ok(()),
            (Some(up), None) => {
                self.ups.push(up)?;
                Ok(())
            }
            (Some(up), Some(ended)) => {
                self.ups.push(up)?;
                self.ends.push(ended.max(up))?;
                Ok(())
            }
        }
    }
}

/// The times of the calls that were up at some time.
fn times<A: Allocator + Clone>(alloc: A, calls: &[CallRecord<A>]) -> Result<UpTimes<A>, AllocError>
    ensures { IfOk result (λ t. (n : ℕ) →
        up_at calls.now n + up_to n t.ends.items ≡ up_to n t.ups.items) }
{
    let mut times = UpTimes {
        ups: Vec::new(alloc.clone()?),
        ends: Vec::new(alloc),
    };
    for call in calls {
        times.add(call)?;
    }
    Ok(times)
}

/// Returns how many ends are at or before a time, given that the first `from` are.
fn ended_by(ends: &[u32], from: usize, time: u32) -> usize
    requires within { from ≤ length ends.now }
    requires sorted { IsNonDecreasing ends.now }
    requires known { (k : ℕ) → k < from → slice_index ends.now k ≤ time }
    ensures count { result ≡ up_to time ends.now }
    ensures within { result ≤ length ends.now }
    ensures known { (k : ℕ) → k < result → slice_index ends.now k ≤ time }
{
    let mut ended = from;
    while ended < ends.len() && ends[ended] <= time {
        ended += 1;
    }
    ended
}

/// Returns the greatest number of calls that were up after one of `ups`: those that came up by then, less those that
/// ended by then.
fn highest(ups: &[u32], ends: &[u32]) -> Peak
    requires ups_sorted { IsNonDecreasing ups.now }
    requires ends_sorted { IsNonDecreasing ends.now }
    ensures { IsHighest ups.now ends.now (length ups.now) result.count result.packet }
{
    let mut count = 0;
    let mut packet = None;
    let mut ended = 0;
    for (index, up) in ups.iter().enumerate() {
        ended = ended_by(ends, ended, *up);
        let up_now = (index as u64 + 1).saturating_sub(ended as u64);
        if count < up_now {
            count = up_now;
            packet = Some(*up);
        }
    }
    Peak { count, packet }
}
