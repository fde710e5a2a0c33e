//! What one worker has posted.
ghost use Rattle.std.specs.Prelude.{◌≡◌};

use crate::findings::ledgers::{Ledgers, OfFindings, OfOctets, OfPosts, OfSegments};
use crate::findings::tally::TallyPart;
use line_model::totals::Totals;
use std::marker::Model;

/// What one worker has posted: its parts of the ledgers of posts, findings, octets and segments. Contracts see the four
/// numbers.
#[derive(Drop)]
pub struct Share<L: Ledgers> {
    pub(crate) posts: TallyPart<OfPosts<L>>,
    pub(crate) findings: TallyPart<OfFindings<L>>,
    pub(crate) octets: TallyPart<OfOctets<L>>,
    pub(crate) segments: TallyPart<OfSegments<L>>,
}

impl<L: Ledgers> Model for Share<L> {
    ghost use Rattle.line_model.specs.declared.totals.Totals.{Totals};

    ghost Value = { Totals };

    ghost view = { λ s. record { posts = s.posts; findings = s.findings; octets = s.octets; segments = s.segments } };
}

impl<L: Ledgers> Share<L> {
    /// Returns the four numbers.
    pub fn totals(&self) -> Totals
        ensures { result ≡ self.now }
    {
        Totals {
            posts: self.posts.value(),
            findings: self.findings.value(),
            octets: self.octets.value(),
            segments: self.segments.value(),
        }
    }
}
