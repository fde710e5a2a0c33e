//! The states of a call.

ghost use Rattle.std.specs.Prelude.{◌≡◌, map};
ghost use Rattle.explanations.specs.Table.{key, call_state_keys};

use crate::explanation::{Explanation, Topic};

const CALL_STATES: [Explanation; 7] = [
    Explanation {
        topic: Topic::State,
        word: "p1",
        name: "ready",
        meaning: "There is no call on the virtual channel.",
        when: "From each restart on, and whenever a call was cleared. A call begins here.",
        clause: "X.25 4.1.1, Annex B, Table C-3",
        example: "F 1 N p1 20",
        trace: "tests/traces/worked/dce-faults.trace",
    },
    Explanation {
        topic: Topic::State,
        word: "p2",
        name: "DTE waiting",
        meaning: "The DTE sent a call request and waits for the call connected.",
        when: "Until the DCE connects or clears the call, sends an incoming call (p5), or the DTE clears.",
        clause: "X.25 4.1.2, Annex B, Table C-3",
        example: "F 2 T p2 21",
        trace: "tests/traces/codes/out-of-place-in-set-up.trace",
    },
    Explanation {
        topic: Topic::State,
        word: "p3",
        name: "DCE waiting",
        meaning: "The DCE sent an incoming call and waits for the call accepted.",
        when: "Until the DTE accepts or clears the call, sends a call request (p5), or the DCE clears.",
        clause: "X.25 4.1.3, Annex B, Table C-3",
        example: "F 4 T p3 22",
        trace: "tests/traces/codes/out-of-place-in-set-up.trace",
    },
    Explanation {
        topic: Topic::State,
        word: "p4",
        name: "data transfer",
        meaning: "The call is up.",
        when: "From the acceptance of a call to its clearing. Findings on data, interrupts and resets name the d state in its place.",
        clause: "X.25 4.1.12, Annex B, Table C-3",
        example: "F 3 T p4 38",
        trace: "tests/traces/worked/incoming-call-short-clear.trace",
    },
    Explanation {
        topic: Topic::State,
        word: "p5",
        name: "call collision",
        meaning: "A call request and an incoming call met on the channel. The DCE goes on with the call request and cancels the incoming call.",
        when: "Until the DCE connects or clears the call, or the DTE clears.",
        clause: "X.25 4.1.6, Annex B, Table C-3",
        example: "F 10 T p5 24",
        trace: "tests/traces/codes/out-of-place-in-set-up.trace",
    },
    Explanation {
        topic: Topic::State,
        word: "p6",
        name: "DTE clear request",
        meaning: "The DTE asked to clear the call, and the DCE has not confirmed it yet.",
        when: "Until the DCE sends a clear confirmation or a clear indication. The DTE may send nothing but the clear request again.",
        clause: "X.25 4.1.7, Annex B, Table C-3",
        example: "F 13 T p6 25",
        trace: "tests/traces/codes/out-of-place-in-set-up.trace",
    },
    Explanation {
        topic: Topic::State,
        word: "p7",
        name: "DCE clear indication",
        meaning: "The DCE clears the call, and the DTE has not confirmed it yet.",
        when: "Until the DTE sends a clear confirmation or a clear request. Where an error of the DTE led here, the DCE still owes its indication.",
        clause: "X.25 4.1.8, Annex B, Table C-3",
        example: "F 3 N p7 26",
        trace: "tests/traces/worked/dce-faults.trace",
    },
];

/// Returns the states of call set-up and clearing (X.25 Annex B).
pub fn call_states() -> &'static [Explanation]
    ensures { map key result.now ≡ call_state_keys }
{
    &CALL_STATES
}
