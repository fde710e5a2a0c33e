//! The words of how a call ended.

ghost use Rattle.std.specs.Prelude.{◌≡◌, map};
ghost use Rattle.explanations.specs.Table.{key, ending_keys};

use crate::explanation::{Explanation, Topic};

const ENDINGS: [Explanation; 6] = [
    Explanation {
        topic: Topic::Ending,
        word: "T",
        name: "cleared by the DTE",
        meaning: "The DTE cleared the call by a clear request.",
        when: "In C lines, as how the call ended.",
        clause: "X.25 4.1.7",
        example: "C 5 1 5 out - - 11 - 12 T 0 0 0 0 0",
        trace: "tests/traces/codes/out-of-place-in-set-up.trace",
    },
    Explanation {
        topic: Topic::Ending,
        word: "N",
        name: "cleared by the DCE",
        meaning: "The DCE cleared the call, after an error of the DTE or for a reason of its own.",
        when: "In C lines, as how the call ended.",
        clause: "X.25 4.1.8",
        example: "C 1 1 2 in - - 1 2 3 N 0 0 0 0 0",
        trace: "tests/traces/worked/incoming-call-short-clear.trace",
    },
    Explanation {
        topic: Topic::Ending,
        word: "collision",
        name: "call collision",
        meaning: "A call request of the DTE took the channel of the incoming call, which was cancelled.",
        when: "In C lines, as how the call ended.",
        clause: "X.25 4.1.6",
        example: "C 1 1 1 in - - 1 - 2 collision 0 0 0 0 0",
        trace: "tests/traces/worked/collision-dce-first.trace",
    },
    Explanation {
        topic: Topic::Ending,
        word: "restart",
        name: "restart",
        meaning: "A restart of the interface ended the call.",
        when: "In C lines, as how the call ended.",
        clause: "X.25 3.3",
        example: "C 1 1 1 out - - 1 2 3 restart 0 0 0 0 0",
        trace: "tests/traces/worked/restart-ends-call.trace",
    },
    Explanation {
        topic: Topic::Ending,
        word: "gap",
        name: "hidden by a gap",
        meaning: "The end of the call was not recorded: a packet after a gap shows that the call is over.",
        when: "In C lines, as how the call ended; ended is the row of that packet.",
        clause: "profile",
        example: "C 1 1 1 out - - 1 2 5 gap 1 1 0 0 1",
        trace: "tests/gaps/traces/call-after-a-gap.trace",
    },
    Explanation {
        topic: Topic::Ending,
        word: "open",
        name: "still open",
        meaning: "The trace ended before the call did.",
        when: "In C lines, as how the call ended.",
        clause: "profile",
        example: "C 1 1 1 out - - 1 2 - open 2 2 0 0 2",
        trace: "tests/traces/worked/full-window.trace",
    },
];

/// Returns the words of how a call ended.
pub fn endings() -> &'static [Explanation]
    ensures { map key result.now ≡ ending_keys }
{
    &ENDINGS
}
