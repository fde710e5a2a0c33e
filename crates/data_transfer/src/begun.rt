//! The sequence that one side has begun.

ghost use Rattle.std.specs.Prelude.{◌≡◌, ◌≤◌, [], IfOk, IfErr, OnOk, OnErr, true, false, Some, vec_len};
ghost use Rattle.line_model.specs.declared.fault.Fault.TheVariants.{Memory};
ghost use Rattle.line_model.specs.declared.state.Side.{Side as AnySide};

use crate::sequence::{DataField, KEPT, Put, Sequence, UserData, is_category_a};
use line_model::fault::Fault;
use line_model::state::Side;
use std::alloc::Allocator;
use std::marker::Model;

/// The packets of a sequence that is not complete.
#[derive(Drop)]
struct Joined<A: Allocator> {
    /// The Q bit of all of them.
    qualified: bool,
    /// The octets of the packets that came with octets; none where there are no such packets.
    kept: Option<KeptOctets<A>>,
}

/// The first 1,025 octets of packets.
#[derive(Drop)]
struct KeptOctets<A: Allocator> {
    octets: Vec<u8, A>,
    ghost few: { vec_len octets ≤ 1025 },
}

/// The sequence that a side has begun, if any, and the packet size in force for it.
#[derive(Drop)]
pub(crate) struct Begun<A: Allocator> {
    size: u16,
    joined: Option<Joined<A>>,
}

impl<A: Allocator> Model for Begun<A> {
    ghost use Rattle.data_transfer.specs.Sequences.{SequenceView};
    ghost use Rattle.data_transfer.specs.Joined.{joined_qualified, joined_octets};

    ghost Value = { SequenceView };

    ghost view = { λ b. record { size = b.size; qualified = joined_qualified b.joined; octets = joined_octets b.joined } };
}

impl<A: Allocator> KeptOctets<A> {
    ghost use Rattle.data_transfer.specs.Assembly.{with_more};

    /// Keeps octets, as far as there is room.
    fn keep(&mut self, octets: &[u8]) -> Result<(), Fault>
        ensures kept { OnOk result (self.new.octets.items
            ≡ with_more self.old.octets.items octets.now) }
        ensures unchanged { OnErr result (self.new.octets.items ≡ self.old.octets.items) }
        ensures memory { IfErr result (λ fault. fault ≡ Memory) }
    {
        let count = (KEPT - self.octets.len()).min(octets.len());
        self.octets.extend_from_slice(&octets[..count])?;
        Ok(())
    }
}

impl<A: Allocator + Clone> Begun<A> {
    ghost use Rattle.data_transfer.specs.Assembly.{Holds, IsPutOn, IsUnqualifiedOn, OnMixed, accepted, is_like, unqualified, with_more};
    ghost use Rattle.data_transfer.specs.UserOctets.{octets_in};

    /// Returns a side that has begun nothing.
    pub(crate) fn new(size: u16) -> Self
        ensures size { result.size ≡ size }
        ensures holds { Holds result [] }
    {
        Begun { size, joined: None }
    }

    /// Forgets what was begun.
    #[inline(always)]
    pub(crate) fn reset(&mut self)
        ensures size { self.new.size ≡ self.old.size }
        ensures holds { Holds self.new [] }
    {
        if self.joined.is_some() {
            self.joined = None;
        }
    }

    /// Adds the next packet of the side.
    pub(crate) fn put<'a>(
        &mut self,
        alloc: &A,
        side: Side,
        field: &DataField<'a>,
    ) -> Result<Put<'a, A>, Fault>
        ensures put { IfOk result
            (λ p. IsPutOn p self.old self.new side (accepted side field.now)) }
        ensures size { self.new.size ≡ self.old.size }
        ensures mixed { IfOk result (λ p. OnMixed p (self.new ≡ self.old)) }
        ensures unchanged { OnErr result (self.new ≡ self.old) }
        ensures memory { IfErr result (λ fault. fault ≡ Memory) }
    {
        if !self.is_alike(field.qualified) {
            return Ok(Put::Mixed);
        }
        if is_category_a(self.size, field.more, field.delivery, field.octets.len()) {
            self.join(alloc, field)?;
            return Ok(Put::Going);
        }
        let octets = self.finish(field.octets)?;
        Ok(Put::Complete(Sequence {
            side,
            qualified: field.qualified,
            octets,
        }))
    }

    /// Accepts the next packet of the side, which has Q 0, by its length. Returns whether more of its sequence follows.
    #[inline(always)]
    pub(crate) fn put_unqualified(&mut self, more: bool, delivery: bool, length: usize) -> bool
        requires alike { is_like self.old.qualified false ≡ true }
        ensures put { (side : AnySide)
            → IsUnqualifiedOn result self.old self.new (unqualified side more delivery length) }
        ensures size { self.new.size ≡ self.old.size }
    {
        if is_category_a(self.size, more, delivery, length) {
            self.join_unqualified();
            return true;
        }
        self.reset();
        false
    }

    /// Returns whether a Q bit is that of the packets begun.
    #[inline(always)]
    pub(crate) fn is_alike(&self, qualified: bool) -> bool
        ensures { result ≡ is_like self.now.qualified qualified }
    {
        match &self.joined {
            Some(joined) => joined.qualified == qualified,
            None => true,
        }
    }

    /// Counts a packet with Q 0 among those begun, which have no octets.
    fn join_unqualified(&mut self)
        requires { is_like self.old.qualified false ≡ true }
        ensures size { self.new.size ≡ self.old.size }
        ensures qualified { self.new.qualified ≡ Some false }
        ensures octets { self.new.octets ≡ self.old.octets }
    {
        if self.joined.is_none() {
            self.joined = Some(Joined {
                qualified: false,
                kept: None,
            });
        }
    }

    /// Keeps a packet with those begun.
    pub(crate) fn join(&mut self, alloc: &A, field: &DataField<'_>) -> Result<(), Fault>
        requires { is_like self.old.qualified field.now.qualified ≡ true }
        ensures size { self.new.size ≡ self.old.size }
        ensures qualified { OnOk result (self.new.qualified ≡ Some field.now.qualified) }
        ensures kept { OnOk result (self.new.octets
            ≡ with_more self.old.octets field.now.octets.now) }
        ensures unchanged { OnErr result (self.new ≡ self.old) }
        ensures memory { IfErr result (λ fault. fault ≡ Memory) }
    {
        if let Some(
            Joined {
                kept: Some(kept),
                ..
            },
        ) = &mut self.joined
        {
            return kept.keep(field.octets);
        }
        let mut kept = KeptOctets {
            octets: Vec::new(alloc.clone()?),
        };
        kept.keep(field.octets)?;
        self.joined = Some(Joined {
            qualified: field.qualified,
            kept: Some(kept),
        });
        Ok(())
    }

    /// Moves out what was begun, with the octets of the last packet; nothing is begun then.
    pub(crate) fn finish<'a>(&mut self, octets: &'a [u8]) -> Result<UserData<'a, A>, Fault>
        ensures size { self.new.size ≡ self.old.size }
        ensures holds { OnOk result (Holds self.new []) }
        ensures octets { IfOk result (λ u. octets_in u ≡ with_more self.old.octets octets.now) }
        ensures unchanged { OnErr result (self.new ≡ self.old) }
        ensures memory { IfErr result (λ fault. fault ≡ Memory) }
    {
        let Some(
            Joined {
                qualified,
                kept: Some(mut kept),
            },
        ) = self.joined.take()
        else {
            return Ok(UserData::OfOne(&octets[..octets.len().min(KEPT)]));
        };
        if let Err(fault) = kept.keep(octets) {
            self.joined = Some(Joined {
                qualified,
                kept: Some(kept),
            });
            return Err(fault);
        }
        let KeptOctets { octets, .. } = kept;
        Ok(UserData::OfSeveral(octets))
    }
}
