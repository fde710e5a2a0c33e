//! Fragments of datagrams, put together.

ghost use Rattle.std.specs.Prelude.{◌≡◌, ◌≤◌, ◌+◌, [], IfNone, IfOk, OnErr, length, slice_get};
ghost use Rattle.std.specs.List.{position_or_len};
ghost use Rattle.ip_segments.specs.Fragments.{fault_of, is_joined};
ghost use Rattle.ip_segments.specs.Gathering.{is_of};
ghost use Rattle.ip_segments.specs.Views.{datagram_view};

use crate::datagram::{Datagram, Fragment};
use crate::gathered::{Gathered, GivenUp};
use crate::octets::Octets;
use std::alloc::{AllocError, Global};
use std::marker::Model;

/// How many datagrams wait for fragments (profile).
const MOST_DATAGRAMS: usize = 64;
/// How many fragments of a datagram wait (profile).
const MOST_FRAGMENTS: usize = 512;
/// How many octets a datagram has at the most.
const LONGEST: usize = 0xFFFF;

/// Why a fragment is left out.
#[derive(Clone, Copy, PartialEq, Eq, Debug)]
pub enum FragmentFault {
    /// Fragments of its protocol are not put together.
    OtherProtocol,
    /// The recorder kept only its first octets.
    Cut,
    /// It ends after place 65,535.
    Long,
}

/// What becomes of a fragment.
#[derive(Drop)]
pub enum Added {
    /// It is left out.
    LeftOut(FragmentFault),
    /// It makes its datagram whole, with these octets. The datagram has the number and the time of this frame.
    Whole(Octets),
    /// It waits for others.
    Waits,
    /// A datagram is given up: its own, which has more than 512 fragments, or the first of more than 64.
    GaveUp(GivenUp),
}

/// The datagrams of which not all fragments came, in the order in which they began: at most 64, with at most 65,535 octets
/// each.
#[derive(Drop)]
pub struct Fragments {
    waiting: Vec<Gathered>,
}

impl Model for Fragments {
    ghost use Rattle.std.specs.Prelude.{List};
    ghost use Rattle.ip_segments.specs.declared.gathered.Gathered.{Gathered};

    ghost Value = { List Gathered };

    ghost view = { λ f. f.waiting.items };
}

/// Returns whether fragments of a protocol are put together: TCP, IPv4 and IPv6 in IP, GRE.
fn is_joined(protocol: u8) -> bool
    ensures { result ≡ is_joined protocol }
{
    matches!(protocol, 4 | 6 | 41 | 47)
}

/// Returns why a fragment is left out.
fn fault_of(fragment: &Fragment, datagram: &Datagram<'_>) -> Option<FragmentFault>
    ensures fault { result ≡ fault_of fragment.now (datagram_view datagram.now) }
    ensures fits { IfNone result (fragment.now.place + length datagram.now.payload.octets.now ≤ 0xFFFF) }
{
    if !is_joined(datagram.protocol) {
        return Some(FragmentFault::OtherProtocol);
    }
    if datagram.payload.is_cut() {
        return Some(FragmentFault::Cut);
    }
    if LONGEST < usize::from(fragment.place) + datagram.payload.octets.len() {
        return Some(FragmentFault::Long);
    }
    None
}

impl Fragments {
    ghost use Rattle.std.specs.Option.{option_map};
    ghost use Rattle.ip_segments.specs.Fragments.{added, first_given_up, place_of, settled, without};
    ghost use Rattle.ip_segments.specs.Gathering.{given_up};

    /// Returns none.
    pub fn new(alloc: Global) -> Self
        ensures { result ≡ [] }
    {
        Fragments {
            waiting: Vec::new(alloc),
        }
    }

    /// Returns how many datagrams wait.
    pub fn len(&self) -> usize
        ensures { result ≡ length self.now }
    {
        self.waiting.len()
    }

    /// Returns the index of the datagram that a fragment belongs to; where none waits, how many wait.
    fn find(&self, identification: u32, datagram: &Datagram<'_>) -> usize
        ensures place { result ≡ position_or_len (is_of identification (datagram_view datagram.now)) self.now }
        ensures within { result ≤ length self.now }
    {
        let mut index = 0;
        while index < self.waiting.len() && !self.waiting[index].is_of(identification, datagram) {
            index += 1;
        }
        index
    }

    /// Removes the datagram at an index, and returns it.
    fn take(&mut self, index: usize) -> Option<Gathered>
        ensures taken { result ≡ slice_get self.old index }
        ensures rest { self.new ≡ without index self.old }
    {
        if index < self.waiting.len() {
            Some(self.waiting.remove(index))
        } else {
            None
        }
    }

    /// Gives up the datagram that began first.
    fn give_up(&mut self) -> Added
        ensures { record { added = result; waiting = self.new } ≡ first_given_up self.old }
    {
        match self.take(0) {
            Some(gathered) => Added::GaveUp(gathered.given_up()),
            None => Added::Waits,
        }
    }

    /// Puts a datagram at an index, unless it is whole or has too many fragments.
    fn settle(&mut self, index: usize, gathered: Gathered) -> Result<Added, AllocError>
        requires { index ≤ length self.old }
        ensures added { IfOk result (λ a. record { added = a; waiting = self.new } ≡ settled index gathered self.old) }
        ensures refused { OnErr result (self.new ≡ self.old) }
    {
        if let Some(octets) = gathered.whole()? {
            return Ok(Added::Whole(octets));
        }
        if MOST_FRAGMENTS < gathered.places.len() {
            return Ok(Added::GaveUp(gathered.given_up()));
        }
        self.waiting.insert(index, gathered)?;
        if self.waiting.len() <= MOST_DATAGRAMS {
            return Ok(Added::Waits);
        }
        Ok(self.give_up())
    }

    /// Adds a fragment, which a frame has, and returns what becomes of it. Fails only when memory is refused; then its
    /// datagram is given up, and the others wait as before.
    pub fn add(
        &mut self,
        frame: u64,
        fragment: Fragment,
        datagram: &Datagram<'_>,
    ) -> Result<Added, AllocError>
        ensures added { IfOk result (λ a. record { added = a; waiting = self.new } ≡ added frame fragment (datagram_view datagram.now) self.old) }
        ensures refused { OnErr result (self.new ≡ without (place_of fragment.identification (datagram_view datagram.now) self.old) self.old) }
    {
        if let Some(fault) = fault_of(&fragment, datagram) {
            return Ok(Added::LeftOut(fault));
        }
        let index = self.find(fragment.identification, datagram);
        let gathered = match self.take(index) {
            Some(gathered) => gathered,
            None => Gathered::new(
                *self.waiting.allocator(),
                frame,
                fragment.identification,
                datagram,
            )?,
        };
        let gathered = gathered.with(fragment, datagram.payload.octets)?;
        self.settle(index, gathered)
    }

    /// Removes the datagram that began first, after the last frame; `None` where none waits.
    pub fn finish(&mut self) -> Option<GivenUp>
        ensures given_up { result ≡ option_map given_up (slice_get self.old 0) }
        ensures rest { self.new ≡ without 0 self.old }
    {
        let gathered = self.take(0)?;
        Some(gathered.given_up())
    }
}
