//! The fields of a call's line up to its packets.

ghost use Rattle.std.specs.Prelude.{◌≡◌, map};
ghost use Rattle.explanations.specs.Table.{key, call_field_keys};

use crate::explanation::{Explanation, Topic};

const CALL_FIELDS: [Explanation; 8] = [
    Explanation {
        topic: Topic::Field,
        word: "call",
        name: "number of a call",
        meaning: "The place of a call among the C lines, counted from 1. --call N chooses it.",
        when: "In C and S lines.",
        clause: "profile",
        example: "C 1 1 1 out - - 1 2 - open 2 2 0 0 2",
        trace: "tests/traces/worked/full-window.trace",
    },
    Explanation {
        topic: Topic::Field,
        word: "epoch",
        name: "part between two restarts",
        meaning: "Which part of the trace the call is in, counted from 1: each restart ends one.",
        when: "In C lines.",
        clause: "X.25 3.3; profile",
        example: "C 1 1 1 out - - 1 2 - open 2 2 0 0 2",
        trace: "tests/traces/worked/full-window.trace",
    },
    Explanation {
        topic: Topic::Field,
        word: "channel",
        name: "logical channel",
        meaning: "The number of the call's logical channel, 1 to 4095. --channel N chooses it.",
        when: "In C lines.",
        clause: "X.25 Annex A",
        example: "C 1 1 1 out - - 1 2 - open 2 2 0 0 2",
        trace: "tests/traces/worked/full-window.trace",
    },
    Explanation {
        topic: Topic::Field,
        word: "direction",
        name: "who opened the call",
        meaning: "out for a call of the DTE, in for one of the DCE.",
        when: "In C lines.",
        clause: "X.25 4.1.2, 4.1.3",
        example: "C 1 1 1 out - - 1 2 - open 2 2 0 0 2",
        trace: "tests/traces/worked/full-window.trace",
    },
    Explanation {
        topic: Topic::Field,
        word: "called",
        name: "called address",
        meaning: "The called address of the packet that opened the call, - where it has none.",
        when: "In C lines.",
        clause: "X.25 4.1",
        example: "C 1 1 1 out 12 345 1 2 - open 3 129 0 0 3",
        trace: "tests/traces/worked/addresses-reverse-charging.trace",
    },
    Explanation {
        topic: Topic::Field,
        word: "calling",
        name: "calling address",
        meaning: "The calling address of the packet that opened the call, - where it has none.",
        when: "In C lines.",
        clause: "X.25 4.1",
        example: "C 1 1 1 out 12 345 1 2 - open 3 129 0 0 3",
        trace: "tests/traces/worked/addresses-reverse-charging.trace",
    },
    Explanation {
        topic: Topic::Field,
        word: "opened",
        name: "row that opened the call",
        meaning: "The number of the row with the call request or the incoming call.",
        when: "In C lines.",
        clause: "X.25 4.1",
        example: "C 1 1 1 out - - 1 2 - open 2 2 0 0 2",
        trace: "tests/traces/worked/full-window.trace",
    },
    Explanation {
        topic: Topic::Field,
        word: "up",
        name: "row that brought the call up",
        meaning: "The number of the row after which the call was in data transfer (p4), - where it never was.",
        when: "In C lines.",
        clause: "X.25 4.1",
        example: "C 1 1 1 out - - 1 2 - open 2 2 0 0 2",
        trace: "tests/traces/worked/full-window.trace",
    },
];

/// Returns the fields of a call's line up to the packet from which it was up.
pub fn call_fields() -> &'static [Explanation]
    ensures { map key result.now ≡ call_field_keys }
{
    &CALL_FIELDS
}
