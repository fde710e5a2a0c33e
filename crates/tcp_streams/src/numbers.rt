//! Sequence numbers (RFC 9293 3.4), and the places of octets.

ghost use Rattle.std.specs.Prelude.{◌≡◌, ◌<◌};
ghost use Rattle.tcp_streams.specs.Numbers.{ahead, awaited, awaited_from, fin_numbers, first_place, forward, is_after, next_number, number_at, place_near};

/// How many sequence numbers there are.
const CIRCLE: u64 = 0x1_0000_0000;
/// Half of them.
const HALF: u64 = 0x8000_0000;
/// An acknowledgement further ahead is damaged.
const FARTHEST: u64 = 0x100_0000;
/// No segment is read at this place or after it: 4 EiB of a direction.
pub(crate) const LAST_PLACE: u64 = 0x4000_0000_0000_0000;

/// Returns the place of the first octet of a direction that begins with a number.
pub(crate) fn first_place(number: u32) -> u64
    ensures { result ≡ first_place number }
{
    CIRCLE + u64::from(number)
}

/// Returns the number after another.
pub(crate) fn next_number(number: u32) -> u32
    ensures { result ≡ next_number number }
{
    ((u64::from(number) + 1) % CIRCLE) as u32
}

/// Returns how many numbers a FIN has, where there is one.
pub(crate) fn fin_numbers(is_fin: bool) -> u64
    ensures { result ≡ fin_numbers is_fin }
{
    if is_fin { 1 } else { 0 }
}

/// Returns the number of a place.
pub(crate) fn number_at(place: u64) -> u32
    ensures { result ≡ number_at place }
{
    (place % CIRCLE) as u32
}

/// Returns how many numbers lead from one to another.
pub(crate) fn ahead(from: u32, to: u32) -> u64
    ensures { result ≡ ahead from to }
{
    (u64::from(to) + CIRCLE - u64::from(from)) % CIRCLE
}

/// Returns how far a number is ahead of another, 0 where it is behind it.
pub(crate) fn forward(from: u32, to: u32) -> u64
    ensures { result ≡ forward from to }
{
    let ahead = ahead(from, to);
    if ahead < HALF { ahead } else { 0 }
}

/// Returns whether a number is ahead of another.
pub(crate) fn is_after(from: u32, to: u32) -> bool
    ensures { result ≡ is_after from to }
{
    0 < forward(from, to)
}

/// Returns the place with a number that is nearest to the next one.
pub(crate) fn place_near(next: u64, number: u32) -> u64
    requires { next < 0x4000000000000000 }
    ensures { result ≡ place_near next number }
{
    let ahead = (u64::from(number) + CIRCLE + HALF - next % CIRCLE) % CIRCLE;
    (next + ahead).saturating_sub(HALF)
}

/// Returns for how many octets a segment waits that acknowledges a number, where a direction has a next place.
pub(crate) fn awaited(next: Option<u64>, acknowledged: Option<u32>) -> u64
    ensures { result ≡ awaited next acknowledged }
{
    match next {
        Some(next) => match acknowledged {
            Some(number) => awaited_from(next, number),
            None => 0,
        },
        None => 0,
    }
}

/// Returns how many octets lead from a place to a number, 0 where they are too many.
fn awaited_from(next: u64, number: u32) -> u64
    ensures { result ≡ awaited_from next number }
{
    let ahead = ahead(number_at(next), number);
    if next < LAST_PLACE && ahead <= FARTHEST {
        ahead
    } else {
        0
    }
}
