//! The fragments of a datagram.

ghost use Rattle.std.specs.Prelude.{◌≡◌, ◌≤◌, ◌<◌, ◌+◌, ◌==◌, ◌++◌, [], ◌∷◌, IfOk, OnOk, length};
ghost use Rattle.std.specs.List.{list_any};
ghost use Rattle.ip_segments.specs.Gathering.{begun, last_by, part_of};
ghost use Rattle.ip_segments.specs.Pieces.{part_view};
ghost use Rattle.ip_segments.specs.Views.{datagram_view};

use crate::datagram::{Datagram, Fragment};
use crate::octets::Octets;
use crate::pieces::{Part, Pieces};
use std::alloc::{AllocError, Global};
use std::marker::Model;

/// The last fragment of a datagram.
#[derive(Clone, Copy)]
pub struct Last {
    /// The place of its first octet.
    pub(crate) at: u32,
    /// The place after its last one.
    pub(crate) until: u32,
}

/// The places of fragments, in the order in which they came.
#[derive(Drop)]
pub struct Places {
    items: Vec<u16>,
}

impl Model for Places {
    ghost use Rattle.std.specs.Prelude.{ℕ, List};

    ghost Value = { List ℕ };

    ghost view = { λ p. p.items.items };
}

impl Places {
    /// Returns none.
    fn new(alloc: Global) -> Self
        ensures { result ≡ [] }
    {
        Places {
            items: Vec::new(alloc),
        }
    }

    /// Returns how many they are.
    pub(crate) fn len(&self) -> usize
        ensures count { result ≡ length self.now }
        ensures few { result < 0x8000000000000000 }
    {
        self.items.len()
    }

    /// Returns whether a place is one of them.
    fn contains(&self, place: u16) -> bool
        ensures { result ≡ list_any (λ n. n == place) self.now }
    {
        self.items.contains(&place)
    }

    /// Adds a place.
    fn push(&mut self, place: u16) -> Result<(), AllocError>
        ensures { OnOk result (self.new ≡ self.old ++ place ∷ []) }
    {
        self.items.push(place)?;
        Ok(())
    }
}

/// The fragments of a datagram that came.
#[derive(Drop)]
pub struct Gathered {
    /// Its protocol.
    pub(crate) protocol: u8,
    /// The address of its sender.
    pub(crate) source: Octets,
    /// The address of its receiver.
    pub(crate) target: Octets,
    /// The identification of its fragments.
    pub(crate) identification: u32,
    /// The frame of the fragment that came first.
    pub(crate) frame: u64,
    /// Where its fragments begin.
    pub(crate) places: Places,
    /// What they have.
    pub(crate) pieces: Pieces,
    /// The last fragment, where it came.
    pub(crate) last: Option<Last>,
}

/// A datagram that was given up, since not all of its fragments came.
#[derive(Clone, Copy, PartialEq, Eq, Debug)]
pub struct GivenUp {
    /// The frame of the fragment that came first.
    pub frame: u64,
    /// How many of its fragments came.
    pub fragments: u64,
}

/// Returns what a fragment with these octets has.
fn part_of(place: u16, octets: &[u8]) -> Part<'_>
    requires { place + length octets.now ≤ 0xFFFF }
    ensures { part_view result ≡ part_of place octets.now }
{
    let at = u32::from(place);
    Part {
        at,
        until: at + octets.len() as u32,
        octets,
    }
}

/// Returns the last fragment of a datagram, with one more fragment: of several the one with the lowest place.
fn last_by(is_last: bool, part: &Part<'_>, known: Option<Last>) -> Option<Last>
    ensures { result ≡ last_by is_last (part_view part.now) known }
{
    let is_first = match known {
        Some(last) => part.at < last.at,
        None => true,
    };
    if is_last && is_first {
        Some(Last {
            at: part.at,
            until: part.until,
        })
    } else {
        known
    }
}

impl Gathered {
    ghost use Rattle.ip_segments.specs.Gathering.{given_up, is_of, whole, with_fragment};

    /// Returns no fragment of the datagram that a fragment belongs to.
    pub(crate) fn new(
        alloc: Global,
        frame: u64,
        identification: u32,
        datagram: &Datagram<'_>,
    ) -> Result<Self, AllocError>
        ensures { IfOk result (λ g. g ≡ begun frame identification (datagram_view datagram.now)) }
    {
        Ok(Gathered {
            protocol: datagram.protocol,
            source: Octets::copied(alloc, datagram.source)?,
            target: Octets::copied(alloc, datagram.target)?,
            identification,
            frame,
            places: Places::new(alloc),
            pieces: Pieces::new(alloc),
            last: None,
        })
    }

    /// Returns whether a fragment with this identification belongs to the datagram.
    pub(crate) fn is_of(&self, identification: u32, datagram: &Datagram<'_>) -> bool
        ensures { result ≡ is_of identification (datagram_view datagram.now) self.now }
    {
        self.protocol == datagram.protocol
            && self.identification == identification
            && self.source.as_slice() == datagram.source
            && self.target.as_slice() == datagram.target
    }

    /// Returns it with one more fragment, which is left out where another one has its place.
    pub(crate) fn with(self, fragment: Fragment, octets: &[u8]) -> Result<Self, AllocError>
        requires { fragment.place + length octets.now ≤ 0xFFFF }
        ensures { IfOk result (λ g. g ≡ with_fragment fragment octets.now self) }
    {
        if self.places.contains(fragment.place) {
            return Ok(self);
        }
        let mut gathered = self;
        let part = part_of(fragment.place, octets);
        gathered.places.push(fragment.place)?;
        gathered.pieces.insert(&part)?;
        gathered.last = last_by(fragment.is_last, &part, gathered.last);
        Ok(gathered)
    }

    /// Returns the octets of the datagram, where all of them came.
    pub(crate) fn whole(&self) -> Result<Option<Octets>, AllocError>
        ensures { IfOk result (λ o. o ≡ whole self.now) }
    {
        let Some(last) = self.last else {
            return Ok(None);
        };
        if self.pieces.reach() < last.until {
            return Ok(None);
        }
        let mut octets = self.pieces.octets()?;
        octets.truncate(last.until as usize);
        Ok(Some(octets))
    }

    /// Returns what is said of it when it is given up.
    pub(crate) fn given_up(&self) -> GivenUp
        ensures { result ≡ given_up self.now }
    {
        GivenUp {
            frame: self.frame,
            fragments: self.places.len() as u64,
        }
    }
}
