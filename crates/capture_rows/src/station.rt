//! The station that sent a frame, as a number.

ghost use Rattle.std.specs.Prelude.{◌≡◌};
ghost use Rattle.capture_model.specs.HeaderViews.{header_view};
ghost use Rattle.capture_rows.specs.Stations.{of_address, of_direction, station_of};

use capture_model::frame::Direction;
use capture_model::header::LinkHeader;

/// What distinguishes the stations of a link.
#[derive(Clone, Copy, PartialEq, Eq, Debug)]
pub enum StationBy {
    /// The direction of a frame, where the capture has it, else its link address.
    Either,
    /// The direction.
    Direction,
    /// The link address.
    LinkAddress,
}

/// The number of the recording host. No link address is as high: that of all ones is for all hosts.
pub const HOST: u64 = 0xFFFF_FFFF_FFFF_FFFF;

/// The number of the other host, where the direction shows it.
pub const OTHER_HOST: u64 = 0xFFFF_FFFF_FFFF_FFFE;

/// Returns the number of the station that sent a frame; `None` where nothing distinguishes it.
pub fn station_of(by: StationBy, header: &LinkHeader<'_>) -> Option<u64>
    ensures { result ≡ station_of by (header_view header.now) }
{
    match by {
        StationBy::Either => of_direction(header.direction).or(of_address(header.source)),
        StationBy::Direction => of_direction(header.direction),
        StationBy::LinkAddress => of_address(header.source),
    }
}

/// Returns the number of the station that a direction shows.
fn of_direction(direction: Direction) -> Option<u64>
    ensures { result ≡ of_direction direction }
{
    match direction {
        Direction::Unknown => None,
        Direction::Received => Some(OTHER_HOST),
        Direction::Sent => Some(HOST),
    }
}

/// Returns the number that a link address of six or eight octets is.
fn of_address(address: &[u8]) -> Option<u64>
    ensures { result ≡ of_address address.now }
{
    match address {
        [a, b, c, d, e, f] => Some(u64::from_be_bytes([0, 0, *a, *b, *c, *d, *e, *f])),
        [a, b, c, d, e, f, g, h] => Some(u64::from_be_bytes([*a, *b, *c, *d, *e, *f, *g, *h])),
        _ => None,
    }
}
