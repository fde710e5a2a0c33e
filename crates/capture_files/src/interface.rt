//! The interfaces of a pcapng file.

ghost use Rattle.std.specs.Prelude.{◌≡◌, ◌≤◌, length};
ghost use Rattle.capture_files.specs.BlockFrames.{time_of};
ghost use Rattle.capture_files.specs.Interfaces.{interface_in, units_of};

use crate::numbers::{read_four, read_two};
use crate::options::{count_of, last_option};
use capture_model::time::Nanos;

/// The options of a description.
const RESOLUTION: u16 = 9;

const CHECK_LENGTH: u16 = 13;

const OFFSET: u16 = 14;

/// What the description of an interface says of its frames.
#[derive(Clone, Copy)]
pub struct Interface {
    /// The link type.
    pub link: u16,
    /// How many octets of a frame are kept at most; 0 for all.
    pub snap: u32,
    /// How many octets of check sequence are at the end of each frame.
    pub check: u32,
    /// How many units of its timestamps are a second.
    pub units: u128,
    /// The seconds to add to its timestamps.
    pub offset: i64,
}

/// Returns how many units are a second, by the value of the option: a power of ten, or of two.
fn units_of(value: &[u8]) -> u128
    ensures { result ≡ units_of value.now }
{
    let [first, ..] = value else {
        return 1_000_000;
    };
    let base: u128 = if *first < 128 { 10 } else { 2 };
    base.checked_pow(u32::from(*first % 128))
        .unwrap_or(u128::MAX)
}

impl Interface {
    /// Returns the interface that a block describes.
    pub(crate) fn described(is_big: bool, block: &[u8]) -> Interface
        requires { 16 ≤ length block.now }
        ensures { result ≡ interface_in is_big block.now }
    {
        let check = last_option(is_big, block, 16, CHECK_LENGTH);
        let offset = last_option(is_big, block, 16, OFFSET);
        Interface {
            link: read_two(is_big, block, 8),
            snap: read_four(is_big, block, 12),
            check: check.first().map_or(0, |bits| u32::from(*bits / 8)),
            units: units_of(last_option(is_big, block, 16, RESOLUTION)),
            offset: count_of(is_big, offset).cast_signed(),
        }
    }

    /// Returns the time that a timestamp says.
    pub(crate) fn time(&self, stamp: u64) -> Nanos
        ensures { result ≡ time_of self.now stamp }
    {
        let ticks = u128::from(stamp) * 1_000_000_000 / self.units.max(1);
        Nanos {
            count: i128::from(self.offset) * 1_000_000_000 + ticks as i128,
        }
    }
}
