//! The causes of resets.

ghost use Rattle.std.specs.Prelude.{◌≡◌, map};
ghost use Rattle.explanations.specs.Table.{key, resetting_cause_keys};

use crate::explanation::{Explanation, Topic};

const RESETTING_CAUSES: [Explanation; 9] = [
    Explanation {
        topic: Topic::ResettingCause,
        word: "0",
        name: "DTE originated",
        meaning: "The DTE at the far end reset the circuit. 128 to 255 mean the same: the lower seven bits are that DTE's own.",
        when: "In reset requests and indications, as --annotate and --rows name it.",
        clause: "X.25 5.4.3, Table 5-8",
        example: "cause 0 (DTE originated)",
        trace: "",
    },
    Explanation {
        topic: Topic::ResettingCause,
        word: "1",
        name: "out of order",
        meaning: "The far end can't be reached; on permanent virtual circuits alone.",
        when: "In reset requests and indications, as --annotate and --rows name it.",
        clause: "X.25 5.4.3, Table 5-8",
        example: "cause 1 (out of order)",
        trace: "",
    },
    Explanation {
        topic: Topic::ResettingCause,
        word: "3",
        name: "remote procedure error",
        meaning: "The far end broke the protocol.",
        when: "In reset requests and indications, as --annotate and --rows name it.",
        clause: "X.25 5.4.3, Table 5-8",
        example: "cause 3 (remote procedure error)",
        trace: "",
    },
    Explanation {
        topic: Topic::ResettingCause,
        word: "5",
        name: "local procedure error",
        meaning: "The DTE on this interface broke the protocol: the diagnostic code says how.",
        when: "In reset requests and indications, as --annotate and --rows name it.",
        clause: "X.25 5.4.3, Table 5-8",
        example: "cause 5 (local procedure error)",
        trace: "",
    },
    Explanation {
        topic: Topic::ResettingCause,
        word: "7",
        name: "network congestion",
        meaning: "The network had too much traffic, or a fault that lasts only for a while.",
        when: "In reset requests and indications, as --annotate and --rows name it.",
        clause: "X.25 5.4.3, Table 5-8",
        example: "cause 7 (network congestion)",
        trace: "",
    },
    Explanation {
        topic: Topic::ResettingCause,
        word: "9",
        name: "remote DTE operational",
        meaning: "The far end can be reached again; on permanent virtual circuits alone.",
        when: "In reset requests and indications, as --annotate and --rows name it.",
        clause: "X.25 5.4.3, Table 5-8",
        example: "cause 9 (remote DTE operational)",
        trace: "",
    },
    Explanation {
        topic: Topic::ResettingCause,
        word: "15",
        name: "network operational",
        meaning: "The network carries data again; on permanent virtual circuits alone.",
        when: "In reset requests and indications, as --annotate and --rows name it.",
        clause: "X.25 5.4.3, Table 5-8",
        example: "cause 15 (network operational)",
        trace: "",
    },
    Explanation {
        topic: Topic::ResettingCause,
        word: "17",
        name: "incompatible destination",
        meaning: "The far end lacks a function that the circuit asks for.",
        when: "In reset requests and indications, as --annotate and --rows name it.",
        clause: "X.25 5.4.3, Table 5-8",
        example: "cause 17 (incompatible destination)",
        trace: "",
    },
    Explanation {
        topic: Topic::ResettingCause,
        word: "29",
        name: "network out of order",
        meaning: "The network can't carry data for a while; on permanent virtual circuits alone.",
        when: "In reset requests and indications, as --annotate and --rows name it.",
        clause: "X.25 5.4.3, Table 5-8",
        example: "cause 29 (network out of order)",
        trace: "",
    },
];

/// Returns the causes of resets.
pub fn resetting_causes() -> &'static [Explanation]
    ensures { map key result.now ≡ resetting_cause_keys }
{
    &RESETTING_CAUSES
}
