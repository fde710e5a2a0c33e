//! What the rows of each call add up to: their findings, and the segments of the DTE's data.

ghost use Rattle.std.specs.Prelude.{◌≡◌, ◌+◌, ◌<◌, ◌≤◌, ◌^◌, ℕ, List, OnOk, length, option_to_list};
ghost use Rattle.line_model.specs.basics.Records.{Item};
ghost use Rattle.line_model.specs.declared.interface.Interface.{Interface};
ghost use Rattle.descriptions.specs.CallSums.{HasAdded, IsAddend, segments_from, sum_at};
ghost use Rattle.descriptions.specs.Facts.{AreFactsOf, IsFateOf};

use crate::facts::{Fate, RowFacts};
use line_model::state::Side;
use live_report::judged_row::JudgedRow;
use std::alloc::{AllocError, Allocator};

/// What a row adds to the sums of its call.
#[derive(Clone, Copy)]
pub struct Addend {
    /// The call, or 0.
    pub call: u32,
    /// Its findings.
    pub findings: u64,
    /// The segments of its data, where the DTE sent it.
    pub segments_t: u64,
}

impl Addend {
    /// Returns what adds nothing.
    pub(crate) fn none() -> Self {
        Addend {
            call: 0,
            findings: 0,
            segments_t: 0,
        }
    }

    /// Returns what a row adds.
    pub(crate) fn of(facts: &RowFacts<'_>) -> Self
        ensures { (i : Interface) (earlier : List Item) (r : Item) → AreFactsOf i earlier r facts.now
            → IsAddend i earlier r result }
    {
        Addend {
            call: facts.calls.of_row(),
            findings: finding_count(facts.last),
            segments_t: segments_from(facts.last.side, facts.fate),
        }
    }
}

/// Returns how many findings a row has: one or none.
fn finding_count(last: &JudgedRow) -> u64
    ensures { result ≡ length (option_to_list last.now.finding) }
{
    match last.finding {
        Some(_) => 1,
        None => 0,
    }
}

/// Returns the segments that were counted of a row's data, where the DTE sent it.
fn segments_from(side: Side, fate: Fate) -> u64
    ensures segments { (lengths : List ℕ) → IsFateOf lengths fate → result ≡ segments_from side lengths }
    ensures small { (lengths : List ℕ) → IsFateOf lengths fate → result ≤ 2 ^ 26 }
{
    match side {
        Side::T => match fate {
            Fate::Counted { segments, .. } => segments,
            Fate::NoData => 0,
            Fate::NotCounted(_) => 0,
        },
        Side::N => 0,
    }
}

/// A sum for each call, by its number in the report; at 0 that of the rows of no call.
#[derive(Drop)]
pub(crate) struct CallSums<A: Allocator> {
    sums: Vec<u64, A>,
}

impl<A: Allocator + Copy> CallSums<A> {
    /// Returns no sums. Allocates no memory.
    pub(crate) fn new(alloc: A) -> Self
        ensures { (call : ℕ) → sum_at result call ≡ 0 }
    {
        CallSums {
            sums: Vec::new(alloc),
        }
    }

    /// Returns the sum of a call.
    pub(crate) fn of_call(&self, call: usize) -> u64
        ensures { result ≡ sum_at self.now call }
    {
        if call < self.sums.len() {
            self.sums[call]
        } else {
            0
        }
    }

    /// Makes a sum for each call up to this one. Fails only when memory is refused.
    fn widen(&mut self, call: usize) -> Result<(), AllocError>
        requires { call < 2 ^ 32 }
        ensures wide { OnOk result (call < length self.new.sums.items) }
        ensures same { OnOk result ((n : ℕ) → sum_at self.new n ≡ sum_at self.old n) }
    {
        if self.sums.len() <= call {
            self.sums.resize(call + 1, 0)?;
        }
        Ok(())
    }

    /// Adds an amount to the sum of a call. Fails only when memory is refused.
    pub(crate) fn add(&mut self, call: u32, amount: u64) -> Result<(), AllocError>
        ensures { sum_at self.old call + amount < 2 ^ 64
            → OnOk result (HasAdded self.old self.new call amount) }
    {
        let call = call as usize;
        let sum = self.of_call(call).saturating_add(amount);
        self.widen(call)?;
        self.sums[call] = sum;
        Ok(())
    }
}
