//! The parts of the four ledgers that belong to no share.
ghost use Rattle.std.specs.Prelude.{◌≡◌, ◌+◌, ◌<◌};
ghost use Rattle.shared_work.specs.findings.Sums.{plus};

use crate::findings::ledgers::{Ledgers, OfFindings, OfOctets, OfPosts, OfSegments};
use crate::findings::share::Share;
use crate::findings::tally::Spare;
use std::marker::Model;
use std::sync::ledger;

/// The parts that were not given. Contracts see for how many shares they are.
#[derive(Drop)]
pub struct Spares<L: Ledgers> {
    pub(crate) posts: Spare<OfPosts<L>>,
    pub(crate) findings: Spare<OfFindings<L>>,
    pub(crate) octets: Spare<OfOctets<L>>,
    pub(crate) segments: Spare<OfSegments<L>>,
}

impl<L: Ledgers> Model for Spares<L> {
    ghost use Rattle.std.specs.Prelude.{◌≡◌, ℕ};

    ghost Value = { ℕ };

    ghost view = { λ s. s.posts };

    ghost invariant = { λ s. (s.findings ≡ s.posts) × (s.octets ≡ s.posts) × (s.segments ≡ s.posts) };
}

/// The parts that were not given, with those of the shares that came back. Contracts see of how many shares they are,
/// and what was added to these.
#[derive(Drop)]
pub struct Returned<L: Ledgers> {
    pub(crate) posts: ledger::Share<OfPosts<L>>,
    pub(crate) findings: ledger::Share<OfFindings<L>>,
    pub(crate) octets: ledger::Share<OfOctets<L>>,
    pub(crate) segments: ledger::Share<OfSegments<L>>,
}

impl<L: Ledgers> Model for Returned<L> {
    ghost use Rattle.std.specs.Prelude.{◌≡◌};
    ghost use Rattle.shared_work.specs.findings.Sums as specs;

    ghost Value = { specs.Returned };

    ghost view = { λ s. record { parts = s.posts.parts; sums = record { posts = s.posts.amount; findings = s.findings.amount; octets = s.octets.amount; segments = s.segments.amount } } };

    ghost invariant = { λ s. (s.findings.parts ≡ s.posts.parts) × (s.octets.parts ≡ s.posts.parts) × (s.segments.parts ≡ s.posts.parts) };
}

impl<L: Ledgers> Spares<L> {
    /// Returns a share whose totals are 0.
    pub fn share(&mut self) -> Share<L>
        requires some { 0 < self.old }
        ensures left { self.new + 1 ≡ self.old }
        ensures nothing { result ≡ record { posts = 0; findings = 0; octets = 0; segments = 0 } }
    {
        Share {
            posts: self.posts.part(),
            findings: self.findings.part(),
            octets: self.octets.part(),
            segments: self.segments.part(),
        }
    }

    /// Returns these parts, before any share came back.
    pub fn into_returned(self) -> Returned<L>
        ensures parts { result.parts ≡ self }
        ensures nothing { result.sums ≡ record {
          posts = 0;
          findings = 0;
          octets = 0;
          segments = 0;
        } }
    {
        let Spares {
            posts,
            findings,
            octets,
            segments,
        } = self;
        Returned {
            posts: posts.into_share(),
            findings: findings.into_share(),
            octets: octets.into_share(),
            segments: segments.into_share(),
        }
    }
}

impl<L: Ledgers> Returned<L> {
    /// Adds a share that came back.
    pub fn add(&mut self, share: Share<L>)
        ensures parts { self.new.parts ≡ self.old.parts + 1 }
        ensures sums { self.new.sums ≡ plus self.old.sums share }
    {
        let Share {
            posts,
            findings,
            octets,
            segments,
        } = share;
        posts.give_back(&mut self.posts);
        findings.give_back(&mut self.findings);
        octets.give_back(&mut self.octets);
        segments.give_back(&mut self.segments);
    }
}
