//! The four ledgers of a book.
use crate::findings::book::MOST_SHARES;
use std::marker::{Brand, Model, PhantomData};
use std::sync::ledger::{Blank, Ledger};

/// The names of a book's four ledgers, which only contracts see.
pub trait Ledgers {
    ghost use Rattle.shared_work.specs.findings.Names.{LedgerNames};

    ghost names: { LedgerNames };
}

impl Ledgers for Brand {
    ghost use Rattle.shared_work.specs.findings.Names.{no_names};

    ghost names = { no_names };
}

/// Four new ledgers of 4,096 parts each, which no type names yet. Contracts see their names.
#[derive(Drop)]
pub struct Blanks {
    pub(crate) posts: Blank,
    pub(crate) findings: Blank,
    pub(crate) octets: Blank,
    pub(crate) segments: Blank,
}

impl Model for Blanks {
    ghost use Rattle.std.specs.Prelude.{◌≡◌};
    ghost use Rattle.shared_work.specs.findings.Names.{LedgerNames};

    ghost Value = { LedgerNames };

    ghost view = { λ b. record { posts = b.posts.name; findings = b.findings.name; octets = b.octets.name; segments = b.segments.name } };

    ghost invariant = { λ b. (b.posts.parts ≡ 4096) × (b.findings.parts ≡ 4096) × (b.octets.parts ≡ 4096) × (b.segments.parts ≡ 4096) };
}

impl Blanks {
    /// Returns four new ledgers.
    pub fn new() -> Blanks {
        Blanks {
            posts: Blank::new(MOST_SHARES),
            findings: Blank::new(MOST_SHARES),
            octets: Blank::new(MOST_SHARES),
            segments: Blank::new(MOST_SHARES),
        }
    }
}

/// The ledger of posts, with a part for each share.
pub struct OfPosts<L> {
    ledgers: PhantomData<L>,
}

impl<L: Ledgers> Ledger for OfPosts<L> {
    ghost name = { L.names.posts };

    ghost parts = { 4096 };
}

/// The ledger of findings, with a part for each share.
pub struct OfFindings<L> {
    ledgers: PhantomData<L>,
}

impl<L: Ledgers> Ledger for OfFindings<L> {
    ghost name = { L.names.findings };

    ghost parts = { 4096 };
}

/// The ledger of octets, with a part for each share.
pub struct OfOctets<L> {
    ledgers: PhantomData<L>,
}

impl<L: Ledgers> Ledger for OfOctets<L> {
    ghost name = { L.names.octets };

    ghost parts = { 4096 };
}

/// The ledger of segments, with a part for each share.
pub struct OfSegments<L> {
    ledgers: PhantomData<L>,
}

impl<L: Ledgers> Ledger for OfSegments<L> {
    ghost name = { L.names.segments };

    ghost parts = { 4096 };
}
