//! The header before each packet of a stream (RFC 1613): a version and a length, two octets each.

ghost use Rattle.std.specs.Prelude.{◌≡◌, ◌+◌, ◌*◌, ◌<◌, slice_index};
ghost use Rattle.xot_circuits.specs.Packets.{header};

/// What stands where a header is due.
#[derive(Clone, Copy)]
pub enum Header {
    /// Fewer than four octets.
    Cut,
    /// The header of another version than 0.
    OtherVersion(u16),
    /// The header of a packet of this many octets.
    Length(u16),
}

/// Returns the number of two octets, the high one first.
fn two_octets(high: u8, low: u8) -> u16
    ensures { result ≡ high * 256 + low }
{
    u16::from(high) * 256 + u16::from(low)
}

/// Reads the header at the front of octets.
pub fn read_header(octets: &[u8]) -> Header
    ensures header { result ≡ header octets.now }
    ensures low { slice_index octets.now 3 < 256 }
{
    match octets {
        [first, second, high, low, ..] => match two_octets(*first, *second) {
            0 => Header::Length(two_octets(*high, *low)),
            version => Header::OtherVersion(version),
        },
        _ => Header::Cut,
    }
}
