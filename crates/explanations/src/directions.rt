//! The words of a side and of the direction of a call.

ghost use Rattle.std.specs.Prelude.{◌≡◌, map};
ghost use Rattle.explanations.specs.Table.{key, direction_keys};

use crate::explanation::{Explanation, Topic};

const DIRECTIONS: [Explanation; 4] = [
    Explanation {
        topic: Topic::Side,
        word: "T",
        name: "DTE",
        meaning: "The terminal's or computer's side of the interface: it sent the packet.",
        when: "In rows of a trace, and in F and S lines.",
        clause: "X.25 3",
        example: "F 5 T d1 1",
        trace: "tests/traces/worked/full-window.trace",
    },
    Explanation {
        topic: Topic::Side,
        word: "N",
        name: "DCE",
        meaning: "The network's side of the interface: it sent the packet.",
        when: "In rows of a trace, and in F and S lines.",
        clause: "X.25 3; how its packets are judged is profile",
        example: "F 1 N p1 20",
        trace: "tests/traces/worked/dce-faults.trace",
    },
    Explanation {
        topic: Topic::Direction,
        word: "out",
        name: "outgoing call",
        meaning: "The DTE opened the call by a call request.",
        when: "In C lines.",
        clause: "X.25 4.1.2",
        example: "C 1 1 1 out - - 1 2 - open 2 2 0 0 2",
        trace: "tests/traces/worked/full-window.trace",
    },
    Explanation {
        topic: Topic::Direction,
        word: "in",
        name: "incoming call",
        meaning: "The DCE opened the call by an incoming call packet.",
        when: "In C lines.",
        clause: "X.25 4.1.3",
        example: "C 1 1 2 in - - 1 2 3 N 0 0 0 0 0",
        trace: "tests/traces/worked/incoming-call-short-clear.trace",
    },
];

/// Returns the words of sides and of directions.
pub fn directions() -> &'static [Explanation]
    ensures { map key result.now ≡ direction_keys }
{
    &DIRECTIONS
}
