//! The TCP ports, other than that of XOT, that look like it: the segments between them are whole packets of XOT.

ghost use Rattle.std.specs.Prelude.{◌≡◌, ◌≤◌, ◌<◌, ℕ, length, slice_index_or, IfOk, OnOk};
ghost use Rattle.capture_report.specs.OtherPorts.{both_counted, end_counted, none_counted, rank_of, segment_counted};

use crate::port_sight::{PortPair, PortSight};
use crate::reasons::FrameUse;
use std::alloc::{AllocError, Global};
use std::collections::{BTreeMap, BTreeSet};
use std::marker::Model;

/// How many pairs of ports are kept.
const MOST_PAIRS: usize = 10_000;
/// How many ports there are.
const PORTS: usize = 65_536;
/// The least weight of a port that is named. Many protocols begin with a length of four octets.
const ENOUGH: u64 = 3;

/// What was counted of segments that look like XOT.
#[derive(Clone, Copy)]
pub(crate) struct PortCount {
    /// The sum of their weights.
    pub weight: u64,
    /// How many there are.
    pub segments: u64,
}

/// A port that looks like XOT.
#[derive(Clone, Copy)]
pub(crate) struct NamedPort {
    pub port: u16,
    /// In how many segments it does.
    pub segments: u64,
}

/// What segments of other ports show of them.
#[derive(Drop)]
pub(crate) struct OtherPorts {
    pairs: BTreeMap<PortPair, PortCount>,
    /// The ports to which connections were opened.
    servers: BTreeSet<u16>,
}

impl Model for OtherPorts {
    ghost use Rattle.capture_report.specs.OtherPorts.{PortsSeen};

    ghost Value = { PortsSeen };

    ghost view = { λ s. record { pairs = s.pairs.entries; servers = s.servers.keys } };
}

impl PortCount {
    /// Returns no segments.
    fn none() -> PortCount
        ensures { result ≡ none_counted }
    {
        PortCount {
            weight: 0,
            segments: 0,
        }
    }

    /// Counts a segment of this weight.
    fn add_segment(&mut self, weight: u8)
        ensures { self.new ≡ segment_counted weight self.old }
    {
        self.weight = self.weight.saturating_add(u64::from(weight));
        self.segments = self.segments.saturating_add(1);
    }

    /// Adds what was counted of other segments.
    fn add(&mut self, other: &PortCount)
        ensures { self.new ≡ both_counted self.old other.now }
    {
        self.weight = self.weight.saturating_add(other.weight);
        self.segments = self.segments.saturating_add(other.segments);
    }
}

/// Returns by what number ports are compared: the greatest one comes first.
fn rank_of(is_server: bool, port: u16, count: &PortCount) -> u128
    ensures { result ≡ rank_of is_server port count.now }
{
    let server = if is_server { 65_536 } else { 0 };
    u128::from(count.weight) * 131_072 + (server + u128::from(u16::MAX - port))
}

/// Returns no segments of so many ports each. Fails only when memory is refused.
fn none_of(alloc: Global, ports: usize) -> Result<Vec<PortCount>, AllocError>
    ensures all { IfOk result (λ counts. length counts.items ≡ ports) }
    ensures each { IfOk result (λ counts. (port : ℕ) → port < ports → slice_index_or counts.items port none_counted ≡ none_counted) }
{
    vec![in alloc; PortCount::none(); ports]
}

/// Adds what was counted of segments at an end to that of its port.
fn add_at(counts: &mut [PortCount], end: u16, count: &PortCount)
    requires { length counts.old ≡ 65536 }
    ensures all { length counts.new ≡ 65536 }
    ensures each { (port : ℕ) → slice_index_or counts.new port none_counted ≡ end_counted port end count.now (slice_index_or counts.old port none_counted) }
{
    counts[usize::from(end)].add(count);
}

impl OtherPorts {
    ghost use Rattle.capture_report.specs.OtherPorts.{AreCounts, AreNamed, IsFirstOf, is_server, no_ports, rank, sighted, use_sighted, without};

    /// Returns the ports of which nothing was seen. Allocates nothing.
    pub(crate) fn new(alloc: Global) -> OtherPorts
        ensures { result ≡ no_ports }
    {
        OtherPorts {
            pairs: BTreeMap::new(alloc),
            servers: BTreeSet::new(alloc),
        }
    }

    /// Sees what becomes of a frame, which may be a segment of other ports. Fails only when memory is refused.
    pub(crate) fn see(&mut self, frame: FrameUse) -> Result<(), AllocError>
        ensures { OnOk result (self.new ≡ use_sighted frame self.old) }
    {
        match frame {
            FrameUse::OtherPort(sight) => self.see_segment(sight),
            _ => Ok(()),
        }
    }

    /// Sees what a segment shows.
    fn see_segment(&mut self, sight: PortSight) -> Result<(), AllocError>
        ensures { OnOk result (self.new ≡ sighted sight self.old) }
    {
        match sight {
            PortSight::Nothing => Ok(()),
            PortSight::Server(port) => {
                self.servers.insert(port)?;
                Ok(())
            }
            PortSight::Xot(pair, weight) => self.count(pair, weight),
        }
    }

    /// Counts a segment of this weight between two ports.
    fn count(&mut self, pair: PortPair, weight: u8) -> Result<(), AllocError>
        ensures { OnOk result (self.new ≡ sighted (PortSight.Xot pair weight) self.old) }
    {
        if let Some(count) = self.pairs.get_mut(&pair) {
            count.add_segment(weight);
            return Ok(());
        }
        if self.pairs.len() < MOST_PAIRS {
            let mut count = PortCount::none();
            count.add_segment(weight);
            self.pairs.insert(pair, count)?;
        }
        Ok(())
    }

    /// Returns whether a connection was opened to a port.
    fn is_server(&self, port: u16) -> bool
        ensures { result ≡ is_server self.now port }
    {
        self.servers.contains(&port)
    }

    /// Returns what was counted of each port, in their order. Fails only when memory is refused.
    fn port_counts(&self, alloc: Global) -> Result<Vec<PortCount>, AllocError>
        ensures { IfOk result (λ counts. AreCounts self.now.pairs counts.items) }
    {
        let mut counts = none_of(alloc, PORTS)?;
        for (pair, count) in &self.pairs {
            add_at(&mut counts, pair.low, count);
            add_at(&mut counts, pair.high, count);
        }
        Ok(counts)
    }

    /// Returns the port that comes first, by what was counted of each one.
    fn first_of(&self, counts: &[PortCount]) -> u16
        requires { AreCounts self.now.pairs counts.now }
        ensures { (port : ℕ) → port < 65536 → rank self.now port ≤ rank self.now result }
    {
        let mut first = 0;
        let mut greatest = 0;
        for port in 0..=u16::MAX {
            let rank = rank_of(self.is_server(port), port, &counts[usize::from(port)]);
            if rank > greatest {
                greatest = rank;
                first = port;
            }
        }
        first
    }

    /// Returns the port that comes first, if its weight is enough. Fails only when memory is refused.
    #[tactic(auto, using(crate::proofs::OtherPortLemmas::nothing_seen))]
    fn first(&self, alloc: Global) -> Result<Option<NamedPort>, AllocError>
        ensures { IfOk result (IsFirstOf self.now) }
    {
        if self.pairs.is_empty() {
            return Ok(None);
        }
        let counts = self.port_counts(alloc)?;
        let port = self.first_of(&counts);
        let count = counts[usize::from(port)];
        if count.weight < ENOUGH {
            return Ok(None);
        }
        Ok(Some(NamedPort {
            port,
            segments: count.segments,
        }))
    }

    /// Leaves out what was counted of a port.
    fn leave_out(&mut self, port: u16)
        ensures { self.new ≡ without port self.old }
    {
        self.pairs.retain(|pair, _| !pair.has(port));
    }

    /// Returns the ports that look like XOT, at most so many. Fails only when memory is refused.
    pub(crate) fn named(mut self, alloc: Global, most: usize) -> Result<Vec<NamedPort>, AllocError>
        ensures { IfOk result (λ ports. AreNamed most self ports.items) }
    {
        let mut ports = Vec::new(alloc);
        for _ in 0..most {
            let Some(first) = self.first(alloc)? else {
                return Ok(ports);
            };
            self.leave_out(first.port);
            ports.push(first)?;
        }
        Ok(ports)
    }
}
