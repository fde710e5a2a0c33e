//! How often each host broke the protocol.

use crate::sentence::Sentence;
use std::alloc::{AllocError, Allocator};
use std::collections::BTreeMap;
use std::mem::swap;

/// The most bytes of an address, of IPv6 with the digits of IPv4 at its end.
const LONGEST: usize = 45;

/// The most hosts that are named.
pub const NAMED: usize = 10;

/// An address, as it is written.
#[derive(Clone, Copy, PartialEq, Eq, PartialOrd, Ord)]
struct HostName {
    /// Its bytes, and zeros after them.
    bytes: [u8; LONGEST],
}

impl HostName {
    /// Returns an address; of a longer one the first bytes.
    fn of(address: &[u8]) -> Self {
        let mut bytes = [0; LONGEST];
        for (to, from) in bytes.iter_mut().zip(address) {
            *to = *from;
        }
        HostName { bytes }
    }

    /// Appends it to words.
    fn say(&self, out: &mut Sentence) {
        for byte in &self.bytes {
            if *byte != 0 {
                out.append(&[*byte]);
            }
        }
    }
}

/// A host, and how often it broke the protocol.
#[derive(Clone, Copy)]
pub struct HostCount {
    name: HostName,
    /// How often.
    pub count: u64,
}

impl HostCount {
    /// Appends the address of the host to words.
    pub fn say(&self, out: &mut Sentence) {
        self.name.say(out);
    }
}

/// The hosts with the most findings, those with more before the others.
#[derive(Clone, Copy)]
pub struct MostFindings {
    /// They.
    pub hosts: [Option<HostCount>; NAMED],
    /// How many others there are.
    pub others: u64,
}

/// Whether a host comes before another.
fn is_before(host: &Option<HostCount>, other: &Option<HostCount>) -> bool {
    match (host, other) {
        (Some(host), Some(other)) => host.count > other.count,
        (Some(_), None) => true,
        (None, _) => false,
    }
}

impl MostFindings {
    /// Puts a further host in its place among them.
    fn rank(&mut self, host: HostCount) {
        let mut next = Some(host);
        for place in &mut self.hosts {
            if is_before(&next, place) {
                swap(&mut next, place);
            }
        }
        if next.is_some() {
            self.others = self.others.saturating_add(1);
        }
    }
}

/// How often each host broke the protocol.
#[derive(Drop)]
pub struct HostCounts<A: Allocator> {
    counts: BTreeMap<HostName, u64, A>,
}

impl<A: Allocator + Copy> HostCounts<A> {
    /// Returns no hosts. Allocates no memory.
    pub fn new(alloc: A) -> Self {
        HostCounts {
            counts: BTreeMap::new(alloc),
        }
    }

    /// Counts a finding of a host. Fails only when memory is refused.
    pub fn take(&mut self, address: &[u8]) -> Result<(), AllocError> {
        let name = HostName::of(address);
        if let Some(count) = self.counts.get_mut(&name) {
            *count = count.saturating_add(1);
            return Ok(());
        }
        self.counts.insert(name, 1)?;
        Ok(())
    }

    /// Returns the hosts with the most findings.
    pub fn most(&self) -> MostFindings {
        let mut most = MostFindings {
            hosts: [None; NAMED],
            others: 0,
        };
        for (name, count) in &self.counts {
            most.rank(HostCount {
                name: *name,
                count: *count,
            });
        }
        most
    }
}
