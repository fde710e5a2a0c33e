//! The line of a row whose octets are known, and which is not read.

ghost use Rattle.std.specs.Prelude.{◌≡◌, [], None, true, false, length};
ghost use Rattle.hex.specs.Hex.{IsBytes};
ghost use Rattle.line_model.specs.basics.Records as records;
ghost use Rattle.trace_text.specs.RowTexts.{row_text};
ghost use Rattle.trace_text.specs.Represents.{TakesRow};

use crate::lines::{Lines, size_fault};
use crate::number::{LARGEST_NUMBER, digit_count};
use crate::row_line::OCTET_LIMIT;
use std::alloc::Allocator;

impl<A: Allocator> Lines<A> {
    /// Fast path: passes the line of a row of `octets` octets, 1 to 4,200, as if it was read. Returns `false` where it
    /// does not; nothing has changed then, and the line is to be fed.
    #[inline(always)]
    pub fn pass_row(&mut self, number: u32, octets: usize) -> bool
        ensures passed { (row : records.Row) → row.gap ≡ None → row.number ≡ number
            → length row.octets ≡ octets → IsBytes row.octets → result ≡ true
            → TakesRow self.old self.new (row_text row) [] row }
        ensures same { result ≡ false → self.new ≡ self.old }
        ensures interface { self.new.interface ≡ self.old.interface }
    {
        if self.interface.is_none() || !self.begun.is_empty() || self.refused.is_some() {
            return false;
        }
        if number <= self.last || number > LARGEST_NUMBER || octets == 0 || octets > OCTET_LIMIT {
            return false;
        }
        let len = digit_count(number) + 3 + 2 * octets;
        if size_fault(self.start, 1, len).is_some() {
            return false;
        }
        self.last = number;
        self.next_line(len);
        true
    }
}
