//! The refusals of the program.

ghost use Rattle.std.specs.Prelude.{◌≡◌, map};
ghost use Rattle.explanations.specs.Table.{key, refusal_keys};

use crate::explanation::{Explanation, Topic};

const REFUSALS: [Explanation; 11] = [
    Explanation {
        topic: Topic::Refusal,
        word: "memory",
        name: "out of memory",
        meaning: "The system refused memory that the program needed.",
        when: "At any time, with status 3. The report is not printed, except for what --follow, --annotate or --rows had printed.",
        clause: "profile",
        example: "x25scan: out of memory",
        trace: "",
    },
    Explanation {
        topic: Topic::Refusal,
        word: "kind",
        name: "line L: kind K",
        meaning: "The trace is refused at line L, counted from 1 with comments, by rule K. A second line says what is wrong there.",
        when: "With status 2, by the first faulty line; 21 to 29 are the rules.",
        clause: "profile",
        example: "x25scan: line 3: kind 25",
        trace: "tests/traces/worked/refused-number-order.trace",
    },
    Explanation {
        topic: Topic::Refusal,
        word: "read",
        name: "read failed",
        meaning: "The trace could not be read. A second line has what the system says.",
        when: "With status 3. The report is not printed, except for what --follow, --annotate or --rows had printed.",
        clause: "profile",
        example: "x25scan: read failed",
        trace: "",
    },
    Explanation {
        topic: Topic::Refusal,
        word: "write",
        name: "write failed",
        meaning: "Standard output did not accept all of what was printed: its device is full, for example. A second line has what the system says.",
        when: "With status 3. A first part of the report may have been written. Nothing is printed where the reader of standard output went away, as head does, nor where help or the version was asked for, which has status 0.",
        clause: "profile",
        example: "x25scan: write failed",
        trace: "",
    },
    Explanation {
        topic: Topic::Refusal,
        word: "thread",
        name: "thread refused",
        meaning: "The system started no worker thread.",
        when: "With status 3, before anything was read. --alone starts no threads.",
        clause: "profile",
        example: "x25scan: thread refused",
        trace: "",
    },
    Explanation {
        topic: Topic::Refusal,
        word: "piece",
        name: "piece I posted twice",
        meaning: "Two workers reported the same piece of the trace.",
        when: "It should never occur: it would be a fault of the program.",
        clause: "profile",
        example: "x25scan: piece 3 posted twice",
        trace: "",
    },
    Explanation {
        topic: Topic::Refusal,
        word: "piece",
        name: "piece I unknown",
        meaning: "A worker reported a piece that the trace does not have.",
        when: "It should never occur: it would be a fault of the program.",
        clause: "profile",
        example: "x25scan: piece 3 unknown",
        trace: "",
    },
    Explanation {
        topic: Topic::Refusal,
        word: "piece",
        name: "piece I missing",
        meaning: "No worker reported a piece of the trace.",
        when: "It should never occur: it would be a fault of the program.",
        clause: "profile",
        example: "x25scan: piece 3 missing",
        trace: "",
    },
    Explanation {
        topic: Topic::Refusal,
        word: "arguments",
        name: "arguments are no text",
        meaning: "A word of the command line is not UTF-8. A file of such a name can be read as standard input: x25scan < FILE.",
        when: "With status 64, before anything was read.",
        clause: "profile",
        example: "x25scan: arguments are no text",
        trace: "",
    },
    Explanation {
        topic: Topic::Refusal,
        word: "word",
        name: "no such word",
        meaning: "--explain has no such word, and it is no line that the program prints.",
        when: "With status 64. --explain alone lists the words.",
        clause: "profile",
        example: "x25scan: no such word: d4 (x25scan --explain lists them)",
        trace: "",
    },
    Explanation {
        topic: Topic::Refusal,
        word: "open",
        name: "cannot open FILE",
        meaning: "The trace of this name could not be opened: no such file, permission denied, it is a directory, the system refuses it, options of captures don't fit it, or it is a capture that x25scan does not read, and the line says what reads it. A second line has what the system says, or why the options don't fit.",
        when: "With status 3, or 64 where options don't fit, before anything was read, standard input too.",
        clause: "profile",
        example: "x25scan: cannot open day.trace: no such file",
        trace: "",
    },
];

/// Returns the refusals of the program.
pub fn refusals() -> &'static [Explanation]
    ensures { map key result.now ≡ refusal_keys }
{
    &REFUSALS
}
