//! The report of a trace: its lists, its peak and its sums.

use crate::call::{Account, CallRecord};
use crate::finding::Finding;
use crate::totals::Summary;
use std::alloc::{Allocator, Global};
use std::marker::Model;

/// The greatest number of virtual calls that were up at once, and the first row after which they were; none for 0.
#[derive(Clone, Copy, Debug, PartialEq, Eq)]
pub struct Peak {
    /// How many were up.
    pub count: u64,
    /// The number of that row.
    pub packet: Option<u32>,
}

/// The report of a trace. Each list is in the order in which its lines are written.
#[derive(Drop)]
pub struct Report<A: Allocator = Global> {
    /// By packet.
    pub findings: Vec<Finding, A>,
    /// By the packet that opened them.
    pub calls: Vec<CallRecord<A>, A>,
    /// By address, the absent one first.
    pub accounts: Vec<Account, A>,
    /// The peak of virtual calls.
    pub peak: Peak,
    /// How many gaps there are, where gaps are rows (profile).
    pub gaps: Option<u32>,
    /// The sums. A gap is not a packet.
    pub summary: Summary,
}

impl<A: Allocator> Model for Report<A> {
    ghost use Rattle.line_model.specs.basics.Records as records;

    ghost Value = { records.Report };

    ghost view = { λ r. record {
      findings = r.findings.items;
      calls = r.calls.items;
      accounts = r.accounts.items;
      peak = r.peak;
      gaps = r.gaps;
      summary = r.summary;
    } };
}
