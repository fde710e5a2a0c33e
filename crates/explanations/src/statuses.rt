//! The exit statuses of the program.

ghost use Rattle.std.specs.Prelude.{◌≡◌, map};
ghost use Rattle.explanations.specs.Table.{key, status_keys};

use crate::explanation::{Explanation, Topic};

const STATUSES: [Explanation; 5] = [
    Explanation {
        topic: Topic::Status,
        word: "0",
        name: "no finding",
        meaning: "The trace was accepted, and no packet broke the protocol; or help, the version or an explanation was asked for.",
        when: "At the end.",
        clause: "profile",
        example: "x25scan < t; echo $? prints 0",
        trace: "tests/traces/worked/empty-trace.trace",
    },
    Explanation {
        topic: Topic::Status,
        word: "1",
        name: "findings",
        meaning: "The trace was accepted, and the report has findings.",
        when: "At the end.",
        clause: "profile",
        example: "x25scan < t; echo $? prints 1",
        trace: "tests/traces/worked/full-window.trace",
    },
    Explanation {
        topic: Topic::Status,
        word: "2",
        name: "trace refused",
        meaning: "A line of the trace is faulty.",
        when: "At that line.",
        clause: "profile",
        example: "x25scan < t; echo $? prints 2",
        trace: "tests/traces/worked/refused-side.trace",
    },
    Explanation {
        topic: Topic::Status,
        word: "3",
        name: "another fault",
        meaning: "Memory, a thread, the opening, the reading or the writing failed.",
        when: "At any time. Standard error says which, except when the reader of standard output has gone away.",
        clause: "profile",
        example: "x25scan < t; echo $? prints 3",
        trace: "",
    },
    Explanation {
        topic: Topic::Status,
        word: "64",
        name: "usage",
        meaning: "The words of the command line are wrong.",
        when: "Before anything was read; standard error says which.",
        clause: "profile",
        example: "x25scan --workers 65; echo $? prints 64",
        trace: "",
    },
];

/// Returns the exit statuses, by their numbers.
pub fn statuses() -> &'static [Explanation]
    ensures { map key result.now ≡ status_keys }
{
    &STATUSES
}
