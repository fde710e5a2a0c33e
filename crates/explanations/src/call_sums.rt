//! The fields of a call's end and of its sums.

ghost use Rattle.std.specs.Prelude.{◌≡◌, map};
ghost use Rattle.explanations.specs.Table.{key, call_sum_keys};

use crate::explanation::{Explanation, Topic};

const CALL_SUMS: [Explanation; 7] = [
    Explanation {
        topic: Topic::Field,
        word: "ended",
        name: "row that ended the call",
        meaning: "The number of the row that ended the call: a clear, an error of the DTE, a restart, or the row that shows that a gap hides the end; - where the trace ended first.",
        when: "In C lines.",
        clause: "X.25 4.1.7, 4.1.8",
        example: "C 1 1 2 in - - 1 2 3 N 0 0 0 0 0",
        trace: "tests/traces/worked/incoming-call-short-clear.trace",
    },
    Explanation {
        topic: Topic::Field,
        word: "how",
        name: "how the call ended",
        meaning: "T or N, the side that cleared the call, or collision, restart, gap or open.",
        when: "In C lines.",
        clause: "profile",
        example: "C 1 1 2 in - - 1 2 3 N 0 0 0 0 0",
        trace: "tests/traces/worked/incoming-call-short-clear.trace",
    },
    Explanation {
        topic: Topic::Field,
        word: "data_t",
        name: "dataT",
        meaning: "How many data packets of the DTE were accepted on the call. The line of a call names it dataT, JSON data_t.",
        when: "In C lines.",
        clause: "profile",
        example: "C 1 1 1 out 12 345 1 2 - open 3 129 0 0 3",
        trace: "tests/traces/worked/addresses-reverse-charging.trace",
    },
    Explanation {
        topic: Topic::Field,
        word: "octets_t",
        name: "octT",
        meaning: "How many octets of user data these packets of the DTE have. The line of a call names it octT, JSON octets_t.",
        when: "In C lines.",
        clause: "profile",
        example: "C 1 1 1 out 12 345 1 2 - open 3 129 0 0 3",
        trace: "tests/traces/worked/addresses-reverse-charging.trace",
    },
    Explanation {
        topic: Topic::Field,
        word: "data_n",
        name: "dataN",
        meaning: "How many data packets of the DCE were accepted on the call. The line of a call names it dataN, JSON data_n.",
        when: "In C lines.",
        clause: "profile",
        example: "C 1 1 1 out 12 345 1 2 - open 3 129 0 0 3",
        trace: "tests/traces/worked/addresses-reverse-charging.trace",
    },
    Explanation {
        topic: Topic::Field,
        word: "octets_n",
        name: "octN",
        meaning: "How many octets of user data these packets of the DCE have. The line of a call names it octN, JSON octets_n.",
        when: "In C lines.",
        clause: "profile",
        example: "C 1 1 1 out 12 345 1 2 - open 3 129 0 0 3",
        trace: "tests/traces/worked/addresses-reverse-charging.trace",
    },
    Explanation {
        topic: Topic::Field,
        word: "segments",
        name: "segments of 64 octets",
        meaning: "What is charged: n octets of one data packet are n / 64 segments, rounded up. A C line has those of the call, an A line those that the address pays for, the Z line all.",
        when: "In C, A and Z lines.",
        clause: "profile",
        example: "A 12 1 3",
        trace: "tests/traces/worked/addresses-reverse-charging.trace",
    },
];

/// Returns the fields of a call's end and of its sums.
pub fn call_sums() -> &'static [Explanation]
    ensures { map key result.now ≡ call_sum_keys }
{
    &CALL_SUMS
}
