//! The four sums of a book.
ghost use Rattle.std.specs.Prelude.{◌≡◌, ◌+◌, ◌<◌, ◌^◌};
ghost use Rattle.line_model.specs.work.Book.{IsWithin};
ghost use Rattle.shared_work.specs.findings.Sums.{plus};

use crate::findings::ledgers::{Blanks, Ledgers, OfFindings, OfOctets, OfPosts, OfSegments};
use crate::findings::share::Share;
use crate::findings::spares::{Returned, Spares};
use crate::findings::tally::Tally;
use line_model::totals::Totals;
use std::marker::Model;

/// What all shares have added. Contracts see the four numbers.
#[derive(Drop)]
pub struct Sums<L: Ledgers> {
    posts: Tally<OfPosts<L>>,
    findings: Tally<OfFindings<L>>,
    octets: Tally<OfOctets<L>>,
    segments: Tally<OfSegments<L>>,
}

impl<L: Ledgers> Model for Sums<L> {
    ghost use Rattle.line_model.specs.declared.totals.Totals.{Totals};

    ghost Value = { Totals };

    ghost view = { λ s. record { posts = s.posts; findings = s.findings; octets = s.octets; segments = s.segments } };
}

impl<L: Ledgers> Sums<L> {
    /// Returns sums that are all 0, and the parts of all shares.
    pub fn open(blanks: Blanks) -> (Sums<L>, Spares<L>)
        requires names { blanks ≡ L.names }
        ensures zero { result.0 ≡ record { posts = 0; findings = 0; octets = 0; segments = 0 } }
        ensures spares { result.1 ≡ 4096 }
    {
        let (posts, spare_posts) = Tally::<OfPosts<L>>::open(blanks.posts);
        let (findings, spare_findings) = Tally::<OfFindings<L>>::open(blanks.findings);
        let (octets, spare_octets) = Tally::<OfOctets<L>>::open(blanks.octets);
        let (segments, spare_segments) = Tally::<OfSegments<L>>::open(blanks.segments);
        let sums = Sums {
            posts,
            findings,
            octets,
            segments,
        };
        let spares = Spares {
            posts: spare_posts,
            findings: spare_findings,
            octets: spare_octets,
            segments: spare_segments,
        };
        (sums, spares)
    }

    /// Returns the four numbers.
    pub fn totals(&self) -> Totals
        ensures { result ≡ self.now }
    {
        Totals {
            posts: self.posts.value(),
            findings: self.findings.value(),
            octets: self.octets.value(),
            segments: self.segments.value(),
        }
    }

    /// Adds to the sums, and to a share.
    pub fn add(&mut self, share: &mut Share<L>, more: Totals)
        requires posts { self.old.posts + more.posts < 2 ^ 64 }
        requires findings { self.old.findings + more.findings < 2 ^ 64 }
        requires octets { self.old.octets + more.octets < 2 ^ 64 }
        requires segments { self.old.segments + more.segments < 2 ^ 64 }
        ensures sums { self.new ≡ plus self.old more }
        ensures share { share.new ≡ plus share.old more }
    {
        self.posts.add(&mut share.posts, more.posts);
        self.findings.add(&mut share.findings, more.findings);
        self.octets.add(&mut share.octets, more.octets);
        self.segments.add(&mut share.segments, more.segments);
    }

    /// Ensures that no number of the share is above that of the sums.
    pub fn audit(&mut self, share: &mut Share<L>)
        ensures same { (self.new ≡ self.old) × (share.new ≡ share.old) }
        ensures within { IsWithin share.old self.old }
    {
        self.posts.audit(&mut share.posts);
        self.findings.audit(&mut share.findings);
        self.octets.audit(&mut share.octets);
        self.segments.audit(&mut share.segments);
    }

    /// Ensures that the sums are those of all shares.
    pub fn settle(&mut self, all: Returned<L>)
        requires all { all.parts ≡ 4096 }
        ensures same { self.new ≡ self.old }
        ensures sums { self.old ≡ all.sums }
    {
        let Returned {
            mut posts,
            mut findings,
            mut octets,
            mut segments,
        } = all;
        self.posts.settle(&mut posts);
        self.findings.settle(&mut findings);
        self.octets.settle(&mut octets);
        self.segments.settle(&mut segments);
    }
}
