//! The fields of a finding's line.

ghost use Rattle.std.specs.Prelude.{◌≡◌, map};
ghost use Rattle.explanations.specs.Table.{key, finding_field_keys};

use crate::explanation::{Explanation, Topic};

const FINDING_FIELDS: [Explanation; 4] = [
    Explanation {
        topic: Topic::Field,
        word: "packet",
        name: "number of a row",
        meaning: "The number of a row, as the trace has it: of the row that broke the protocol in an F line, of the first row after which the most calls were up in the P line.",
        when: "In F and P lines.",
        clause: "profile",
        example: "F 5 T d1 1",
        trace: "tests/traces/worked/full-window.trace",
    },
    Explanation {
        topic: Topic::Field,
        word: "side",
        name: "side of the interface",
        meaning: "T is the DTE, N is the DCE: the sender of the packet in an F line, the side of the PAD in an S line.",
        when: "In F and S lines.",
        clause: "X.25 3",
        example: "F 5 T d1 1",
        trace: "tests/traces/worked/full-window.trace",
    },
    Explanation {
        topic: Topic::Field,
        word: "state",
        name: "state before the packet",
        meaning: "The state of the interface or of the logical channel before the packet came, - where it was judged outside the states.",
        when: "In F lines.",
        clause: "X.25 Annex B",
        example: "F 5 T d1 1",
        trace: "tests/traces/worked/full-window.trace",
    },
    Explanation {
        topic: Topic::Field,
        word: "code",
        name: "what is wrong",
        meaning: "The diagnostic code of the finding, after X.25 Annex E, or X1 to X4 or XL of a PAD message.",
        when: "In F lines.",
        clause: "X.25 Annex E; profile",
        example: "F 5 T d1 1",
        trace: "tests/traces/worked/full-window.trace",
    },
];

/// Returns the fields of a finding's line.
pub fn finding_fields() -> &'static [Explanation]
    ensures { map key result.now ≡ finding_field_keys }
{
    &FINDING_FIELDS
}
