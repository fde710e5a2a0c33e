//! The row that was read last, and room for the next one.

ghost use Rattle.std.specs.Prelude.{◌≡◌, None, true, OnOk};
ghost use Rattle.line_model.specs.packets.Says.{read_octets, read_row};

use line_model::row::{ReadRow, is_unqualified};
use line_model::state::Side;
use std::alloc::{AllocError, Allocator};
use std::mem::swap;

/// The octets of a row that are read.
fn read_octets(octets: &[u8]) -> &[u8]
    ensures { result.now ≡ read_octets octets.now }
{
    if octets.len() > 4 && is_unqualified(octets) {
        return &octets[..4];
    }
    octets
}

/// Two rows that are swapped where rows are kept, so that the last one stays while the next one is read.
#[derive(Drop)]
pub(crate) struct ReadRows<A: Allocator> {
    /// The row that was read last, where rows are kept.
    pub(crate) last: ReadRow<A>,
    /// What the next row is read into.
    pub(crate) next: ReadRow<A>,
}

impl<A: Allocator + Copy> ReadRows<A> {
    /// Returns a value in which no row was read. Allocates nothing.
    pub(crate) fn new(alloc: A) -> Self {
        ReadRows {
            last: ReadRow::blank(alloc),
            next: ReadRow::blank(alloc),
        }
    }
}

impl<A: Allocator> ReadRows<A> {
    /// Where rows are kept, puts the row of a packet in the place of the last one. Fails only when memory is refused.
    #[inline(always)]
    pub(crate) fn keep_row(
        &mut self,
        keeps_rows: bool,
        number: u32,
        side: Side,
        octets: &[u8],
    ) -> Result<(), AllocError>
        ensures { keeps_rows ≡ true → OnOk result (self.new.last
            ≡ read_row (record { number = number; side = side; octets = octets.now; gap = None })) }
    {
        if !keeps_rows {
            return Ok(());
        }
        self.last.number = number;
        self.last.side = side;
        self.last.length = octets.len();
        self.last.gap = None;
        self.last.octets.clear();
        self.last.octets.extend_from_slice(read_octets(octets))
    }

    /// Makes the next row, which was read whole, the last one, where rows are kept.
    #[inline(always)]
    pub(crate) fn keep_next(&mut self, keeps_rows: bool)
        ensures { keeps_rows ≡ true → self.new.last ≡ self.old.next }
    {
        if keeps_rows {
            swap(&mut self.last, &mut self.next);
        }
    }
}
