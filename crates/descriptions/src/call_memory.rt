//! What is kept of each call for the objects after the report.

use crate::causes::Causes;
use crate::facts::{RowFacts, gap_of};
use crate::open_calls::EndedCall;
use crate::times::Recorded;
use line_model::event::{Event, What};
use line_model::finding::Code;
use std::alloc::{AllocError, Allocator};

/// How often the rows of a call have a code.
#[derive(Clone, Copy)]
pub struct CodeCount {
    /// The code.
    pub code: Code,
    /// On how many rows.
    pub count: u64,
}

/// What is kept of a call.
#[derive(Drop)]
pub struct CallMemory<A: Allocator> {
    /// Those of the packet that cleared it.
    pub causes: Causes,
    /// The codes of its rows' findings, in the order of their first ones.
    pub codes: Vec<CodeCount, A>,
    /// The gap rows in it, except those of all channels while it is open.
    gaps: u32,
    /// While it is open, the gap rows of all channels before it.
    gaps_before: Option<u32>,
    /// When and where it was opened.
    pub start: Recorded,
    /// When and where it ended.
    pub end: Recorded,
}

impl<A: Allocator> CallMemory<A> {
    /// Ends the call, after `gaps_of_all` gap rows of all channels.
    fn end(&mut self, recorded: Recorded, gaps_of_all: u32) {
        self.end = recorded;
        self.gaps = self.gaps_with(gaps_of_all);
        self.gaps_before = None;
    }

    /// Returns the gap rows in it, where there were `gaps_of_all` of all channels.
    fn gaps_with(&self, gaps_of_all: u32) -> u32 {
        match self.gaps_before {
            Some(before) => self.gaps.saturating_add(gaps_of_all.saturating_sub(before)),
            None => self.gaps,
        }
    }

    /// Counts a code.
    fn count(&mut self, code: Code) -> Result<(), AllocError> {
        for known in self.codes.as_mut_slice() {
            if known.code == code {
                known.count = known.count.saturating_add(1);
                return Ok(());
            }
        }
        self.codes.push(CodeCount { code, count: 1 })?;
        Ok(())
    }
}

/// What is kept of the calls, in the order of their numbers.
#[derive(Drop)]
pub struct Calls<A: Allocator> {
    alloc: A,
    /// The gap rows of all channels.
    gaps_of_all: u32,
    calls: Vec<CallMemory<A>, A>,
}

impl<A: Allocator + Copy> Calls<A> {
    /// Returns a value without calls. Allocates no memory.
    pub fn new(alloc: A) -> Self {
        Calls {
            alloc,
            gaps_of_all: 0,
            calls: Vec::new(alloc),
        }
    }

    /// Returns the call of a number, if there is one.
    pub fn get(&self, number: u32) -> Option<&CallMemory<A>> {
        self.calls.get((number as usize).checked_sub(1)?)
    }

    /// Returns the call of a number, to change it.
    fn get_mut(&mut self, number: u32) -> Option<&mut CallMemory<A>> {
        self.calls.get_mut((number as usize).checked_sub(1)?)
    }

    /// Returns the gap rows in a call.
    pub fn gaps_of(&self, call: &CallMemory<A>) -> u32 {
        call.gaps_with(self.gaps_of_all)
    }

    /// Counts a gap row, of the channel of a call or of all channels.
    fn take_gap(&mut self, facts: &RowFacts<'_>) {
        match gap_of(&facts.last.packet) {
            Some(None) => self.gaps_of_all = self.gaps_of_all.saturating_add(1),
            Some(Some(_)) => {
                if let Some(call) = self.get_mut(facts.calls.before) {
                    call.gaps = call.gaps.saturating_add(1);
                }
            }
            None => {}
        }
    }

    /// Adds the calls that a row opened. Fails only when memory is refused.
    fn open(&mut self, events: &[Event], recorded: Recorded) -> Result<(), AllocError> {
        for event in events {
            if let What::Open { .. } = event.what {
                let call = CallMemory {
                    causes: Causes::none(),
                    codes: Vec::new(self.alloc),
                    gaps: 0,
                    gaps_before: Some(self.gaps_of_all),
                    start: recorded,
                    end: Recorded::UNKNOWN,
                };
                self.calls.push(call)?;
            }
        }
        Ok(())
    }

    /// Ends the calls that a row ended.
    fn end(&mut self, ended: &[EndedCall], recorded: Recorded) {
        let gaps_of_all = self.gaps_of_all;
        for ended in ended {
            if let Some(call) = self.get_mut(ended.call) {
                call.end(recorded, gaps_of_all);
            }
        }
    }

    /// Records a row with the calls that it ended, and when and where it was recorded. Fails only when memory is refused.
    pub fn take(
        &mut self,
        facts: &RowFacts<'_>,
        ended: &[EndedCall],
        recorded: Recorded,
    ) -> Result<(), AllocError> {
        self.take_gap(facts);
        self.open(facts.events, recorded)?;
        if let Some(finding) = facts.last.finding {
            if let Some(call) = self.get_mut(facts.calls.of_row()) {
                call.count(finding.code)?;
            }
        }
        self.end(ended, recorded);
        if let Some(call) = self.get_mut(facts.calls.cleared) {
            call.causes = Causes::of(facts.octets);
        }
        Ok(())
    }
}
