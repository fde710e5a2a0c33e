//! The states of the interface.

ghost use Rattle.std.specs.Prelude.{◌≡◌, map};
ghost use Rattle.explanations.specs.Table.{key, interface_state_keys};

use crate::explanation::{Explanation, Topic};

const INTERFACE_STATES: [Explanation; 4] = [
    Explanation {
        topic: Topic::State,
        word: "-",
        name: "no state",
        meaning: "The packet was judged outside the state machines: it is too short, has another format than the interface, or is on no channel.",
        when: "With the codes 36, 38 and 40. Nothing changes, in no state.",
        clause: "profile",
        example: "F 1 T - 36",
        trace: "tests/traces/worked/unassigned-channel.trace",
    },
    Explanation {
        topic: Topic::State,
        word: "r1",
        name: "packet level ready",
        meaning: "No restart is going on: the channels work.",
        when: "From the start of a trace, and whenever a restart was completed. Findings on a channel name its p or d state in its place.",
        clause: "X.25 3.3, Annex B, Table C-2",
        example: "F 1 T r1 17",
        trace: "tests/traces/worked/restart-confirmations.trace",
    },
    Explanation {
        topic: Topic::State,
        word: "r2",
        name: "DTE restart request",
        meaning: "The DTE asked for a restart, and the DCE has not confirmed it yet.",
        when: "Until the DCE sends a restart confirmation or a restart indication. The DTE may send nothing but the restart request again.",
        clause: "X.25 3.3, Annex B, Table C-2",
        example: "F 2 T r2 18",
        trace: "tests/traces/worked/restart-machine-by-channel-packet.trace",
    },
    Explanation {
        topic: Topic::State,
        word: "r3",
        name: "DCE restart indication",
        meaning: "The DCE restarts the interface, and the DTE has not confirmed it yet.",
        when: "Until the DTE sends a restart confirmation or a restart request. Where an error of the DTE led here, the DCE still owes its indication.",
        clause: "X.25 3.3, Annex B, Table C-2",
        example: "F 5 N r3 19",
        trace: "tests/traces/worked/dce-faults.trace",
    },
];

/// Returns the states of the interface (X.25 Annex B).
pub fn interface_states() -> &'static [Explanation]
    ensures { map key result.now ≡ interface_state_keys }
{
    &INTERFACE_STATES
}
