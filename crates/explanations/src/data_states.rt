//! The states of data transfer.

ghost use Rattle.std.specs.Prelude.{◌≡◌, map};
ghost use Rattle.explanations.specs.Table.{key, data_state_keys};

use crate::explanation::{Explanation, Topic};

const DATA_STATES: [Explanation; 3] = [
    Explanation {
        topic: Topic::State,
        word: "d1",
        name: "flow control ready",
        meaning: "Data, interrupts and acknowledgements may pass.",
        when: "On a call that is up and on a permanent circuit, while no reset is going on.",
        clause: "X.25 4.3.1, Annex B, Table C-4",
        example: "F 5 T d1 1",
        trace: "tests/traces/worked/full-window.trace",
    },
    Explanation {
        topic: Topic::State,
        word: "d2",
        name: "DTE reset request",
        meaning: "The DTE asked for a reset of the channel, and the DCE has not confirmed it yet.",
        when: "Until the DCE sends a reset confirmation or a reset indication. The DTE may send nothing but the reset request again, or a clear.",
        clause: "X.25 4.4.3, Annex B, Table C-4",
        example: "F 6 T d2 28",
        trace: "tests/traces/codes/out-of-place-in-transfer.trace",
    },
    Explanation {
        topic: Topic::State,
        word: "d3",
        name: "DCE reset indication",
        meaning: "The DCE resets the channel, and the DTE has not confirmed it yet.",
        when: "Until the DTE sends a reset confirmation or a reset request. Where an error of the DTE led here, the DCE still owes its indication.",
        clause: "X.25 4.4.3, Annex B, Table C-4",
        example: "F 3 N d3 29",
        trace: "tests/traces/codes/out-of-place-in-transfer.trace",
    },
];

/// Returns the states of data transfer (X.25 Annex B).
pub fn data_states() -> &'static [Explanation]
    ensures { map key result.now ≡ data_state_keys }
{
    &DATA_STATES
}
