//! The fields of sums.

ghost use Rattle.std.specs.Prelude.{◌≡◌, map};
ghost use Rattle.explanations.specs.Table.{key, sum_field_keys};

use crate::explanation::{Explanation, Topic};

const SUM_FIELDS: [Explanation; 6] = [
    Explanation {
        topic: Topic::Field,
        word: "calls",
        name: "number of calls",
        meaning: "How many calls the address pays for in an A line, and how many the trace has in the Z line.",
        when: "In A and Z lines.",
        clause: "profile",
        example: "Z 5 1 1 2 2",
        trace: "tests/traces/worked/full-window.trace",
    },
    Explanation {
        topic: Topic::Field,
        word: "count",
        name: "calls at once",
        meaning: "The most virtual calls that were up at once.",
        when: "In the P line.",
        clause: "profile",
        example: "P 1 2",
        trace: "tests/traces/worked/full-window.trace",
    },
    Explanation {
        topic: Topic::Field,
        word: "gaps",
        name: "number of gap rows",
        meaning: "How many gap rows the trace has. They are no packets.",
        when: "In the G line.",
        clause: "profile",
        example: "G 1",
        trace: "tests/gaps/traces/call-after-a-gap.trace",
    },
    Explanation {
        topic: Topic::Field,
        word: "packets",
        name: "number of rows",
        meaning: "How many rows the trace has.",
        when: "In the Z line.",
        clause: "profile",
        example: "Z 5 1 1 2 2",
        trace: "tests/traces/worked/full-window.trace",
    },
    Explanation {
        topic: Topic::Field,
        word: "findings",
        name: "number of findings",
        meaning: "How many F lines the report has.",
        when: "In the Z line.",
        clause: "profile",
        example: "Z 5 1 1 2 2",
        trace: "tests/traces/worked/full-window.trace",
    },
    Explanation {
        topic: Topic::Field,
        word: "octets",
        name: "octets of user data",
        meaning: "How many octets of user data were accepted, of calls and of permanent circuits.",
        when: "In the Z line.",
        clause: "profile",
        example: "Z 5 1 1 2 2",
        trace: "tests/traces/worked/full-window.trace",
    },
];

/// Returns the fields of sums.
pub fn sum_fields() -> &'static [Explanation]
    ensures { map key result.now ≡ sum_field_keys }
{
    &SUM_FIELDS
}
