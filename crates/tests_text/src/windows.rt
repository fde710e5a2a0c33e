//! Words of numbers, windows and interrupts.

use data_transfer::flow::Flow;
use data_transfer::packed::FlowWord;
use line_model::state::Side;
use std::test::Fail;

#[test]
fn packs_to_the_stated_words(rt: HostRuntime) -> Result<(), Fail> {
    let mut flow = Flow::new(8, 2, 3);
    assert!(rt; flow.pack() == 207_232_172_032);
    assert!(rt; flow.data(Side::T, 0, 0) == Ok(()));
    assert!(rt; flow.pack() == 207_232_172_034);
    assert!(rt; Flow::unpack(0).is_none());
    let unpacked = Flow::unpack(207_232_172_034).ok_or("refused")?;
    assert!(rt; unpacked.pack() == 207_232_172_034);
    Ok(())
}

/// Words: the window of T is 0; the window of N is the modulus; a residue is the modulus; three packets are unacknowledged
/// in a window of 2; a higher bit.
const NO_CHANNEL: [u64; 5] = [
    3 << 36,
    (2 << 29) + (8 << 36),
    (2 << 29) + (3 << 36) + (8 << 1),
    (2 << 29) + (3 << 36) + (3 << 1),
    (2 << 29) + (3 << 36) + (1 << 45),
];

#[test]
fn words_of_no_channel_are_refused(rt: HostRuntime) {
    for word in &NO_CHANNEL {
        assert!(rt; Flow::unpack(*word).is_none(), "{word}");
    }
}

#[test]
fn number_of_the_owner_stays(rt: HostRuntime) {
    let mut word = FlowWord::new(&Flow::new(8, 2, 3), 5);
    assert!(rt; word.word() == 207_232_172_032 + (5 << 45));
    let mut flow = word.flow();
    assert!(rt; flow.data(Side::T, 0, 0) == Ok(()));
    word.set_numbers(&flow);
    assert!(rt; word.word() == 207_232_172_034 + (5 << 45));
    assert!(rt; flow.interrupt(Side::N) == Ok(()));
    word.set_interrupts(&flow);
    assert!(rt; word.word() == 207_232_172_034 + (1 << 44) + (5 << 45));
    word.set_owner_bits(524_287);
    assert!(rt; word.owner_bits() == 524_287);
    assert!(rt; word.word() == 207_232_172_034 + (1 << 44) + (524_287 << 45));
}
