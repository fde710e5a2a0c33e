//! The causes of restarts.

ghost use Rattle.std.specs.Prelude.{◌≡◌, map};
ghost use Rattle.explanations.specs.Table.{key, restarting_cause_keys};

use crate::explanation::{Explanation, Topic};

const RESTARTING_CAUSES: [Explanation; 5] = [
    Explanation {
        topic: Topic::RestartingCause,
        word: "0",
        name: "DTE originated",
        meaning: "The DTE restarted the interface. 128 to 255 mean the same: the lower seven bits are the DTE's own.",
        when: "In restart requests and indications, as --annotate and --rows name it.",
        clause: "X.25 5.5.1, Table 5-9",
        example: "cause 0 (DTE originated)",
        trace: "",
    },
    Explanation {
        topic: Topic::RestartingCause,
        word: "1",
        name: "local procedure error",
        meaning: "The DTE on this interface broke the protocol: the diagnostic code says how.",
        when: "In restart requests and indications, as --annotate and --rows name it.",
        clause: "X.25 5.5.1, Table 5-9",
        example: "cause 1 (local procedure error)",
        trace: "",
    },
    Explanation {
        topic: Topic::RestartingCause,
        word: "3",
        name: "network congestion",
        meaning: "The network had too much traffic, or a fault that lasts only for a while.",
        when: "In restart requests and indications, as --annotate and --rows name it.",
        clause: "X.25 5.5.1, Table 5-9",
        example: "cause 3 (network congestion)",
        trace: "",
    },
    Explanation {
        topic: Topic::RestartingCause,
        word: "7",
        name: "network operational",
        meaning: "The network carries calls again.",
        when: "In restart requests and indications, as --annotate and --rows name it.",
        clause: "X.25 5.5.1, Table 5-9",
        example: "cause 7 (network operational)",
        trace: "",
    },
    Explanation {
        topic: Topic::RestartingCause,
        word: "127",
        name: "registration or cancellation confirmed",
        meaning: "The restart ends a registration of facilities.",
        when: "In restart requests and indications, as --annotate and --rows name it.",
        clause: "X.25 5.5.1, Table 5-9",
        example: "cause 127 (registration or cancellation confirmed)",
        trace: "",
    },
];

/// Returns the causes of restarts.
pub fn restarting_causes() -> &'static [Explanation]
    ensures { map key result.now ≡ restarting_cause_keys }
{
    &RESTARTING_CAUSES
}
