//! What is known of a logical channel, in one word that is cheap to keep.

ghost use Rattle.std.specs.Prelude.{◌≡◌, ◌<◌, ◌/◌, ◌%◌, ◌^◌, ◌==◌};
ghost use Rattle.channel_run.specs.StatusWord.{setup_by, state_in, view_in};

use crate::run::View;
use data_transfer::packed::FlowWord;
use line_model::state::{ChannelState, DState, PState};

/// Returns what a word says of a channel (profile). Bits 0 to 44 are the word of the windows and interrupts, as
/// `Flow::pack` makes it; above them are
///
/// ```text
///    63   62    59 58    55   54   53    52    51     50   49 48 47  45
/// +--------+--------+--------+------+-----+------+-----+------+-----+-----+
/// | adrift | size N | size T | open | out | fast | PAD | owed |  d  |  p  |
/// +--------+--------+--------+------+-----+------+-----+------+-----+-----+
/// ```
///
/// p is 1 to 7 for p1 to p7, and 0 on a permanent circuit and on an unknown virtual channel; d is 1 to 3 for d1 to d3,
/// and 0 outside them and on an unknown permanent circuit. `owed` is 1 where an indication of the DCE is owed. `open`
/// is 1 while a call is open, and then `out`, `fast` and `PAD` say whether it goes out, asked fast select, and names a
/// PAD. The packet sizes in force for data from T and from N are given by their logarithms. `adrift` is 1 where a gap
/// left open in which state the channel is.
pub fn view_in(word: &FlowWord) -> View
    ensures { result ≡ view_in word.now }
{
    let owner_bits = word.owner_bits();
    let is_open = bit(owner_bits, 9);
    View {
        state: state_in(owner_bits),
        adrift: bit(owner_bits, 18),
        owed: bit(owner_bits, 5),
        pad_call: is_open && bit(owner_bits, 6),
        fast: is_open && bit(owner_bits, 7),
        size_t: power((owner_bits >> 10) % 16),
        size_n: power((owner_bits >> 14) % 16),
        flow: word.flow(),
    }
}

/// Sets in a word whether its channel is adrift.
pub fn set_adrift(word: &mut FlowWord, adrift: bool)
    ensures { view_in word.new ≡ record (view_in word.old) { adrift = adrift } }
{
    let owner_bits = word.owner_bits();
    if bit(owner_bits, 18) != adrift {
        let rest = owner_bits % (1 << 18);
        word.set_owner_bits(rest + u32::from(adrift) * (1 << 18));
    }
}

/// Returns the state of the owner's number.
#[inline(always)]
pub fn state_in(owner_bits: u32) -> ChannelState
    ensures { result ≡ state_in owner_bits }
{
    match (owner_bits >> 3) % 4 {
        1 => ChannelState::Transfer(DState::D1),
        2 => ChannelState::Transfer(DState::D2),
        3 => ChannelState::Transfer(DState::D3),
        _ => setup(owner_bits % 8),
    }
}

/// Returns the state of call set-up with these bits, or `Unknown` where none has them.
fn setup(bits: u32) -> ChannelState
    ensures { result ≡ setup_by bits }
{
    match bits {
        1 => ChannelState::Setup(PState::P1),
        2 => ChannelState::Setup(PState::P2),
        3 => ChannelState::Setup(PState::P3),
        4 => ChannelState::Setup(PState::P4),
        5 => ChannelState::Setup(PState::P5),
        6 => ChannelState::Setup(PState::P6),
        7 => ChannelState::Setup(PState::P7),
        _ => ChannelState::Unknown,
    }
}

/// Returns bit `at` of a number.
pub fn bit(number: u32, at: u32) -> bool
    requires { at < 32 }
    ensures { result ≡ (number / 2 ^ at % 2 == 1) }
{
    (number >> at) % 2 == 1
}

/// Returns a packet size by its logarithm.
pub fn power(logarithm: u32) -> u16
    requires { logarithm < 16 }
    ensures { result ≡ 2 ^ logarithm }
{
    1 << logarithm
}
