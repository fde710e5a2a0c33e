//! The time-outs of requests, by which pages name their waits.

ghost use Rattle.std.specs.Prelude.{◌≡◌, map};
ghost use Rattle.explanations.specs.Table.{key, time_out_keys};

use crate::explanation::{Explanation, Topic};

const TIME_OUTS: [Explanation; 8] = [
    Explanation {
        topic: Topic::Term,
        word: "T10",
        name: "time-out of a restart indication",
        meaning: "How long the DCE waits after its restart indication for a restart confirmation: 60 seconds.",
        when: "x25page and its summary name waits by it. A longer one is no finding.",
        clause: "X.25 Annex D",
        example: "restart indication of the DCE (T10, 60 s)",
        trace: "",
    },
    Explanation {
        topic: Topic::Term,
        word: "T11",
        name: "time-out of an incoming call",
        meaning: "How long the DCE waits after its incoming call for a call accepted or a clear request: 180 seconds.",
        when: "x25page and its summary name waits by it. A longer one is no finding.",
        clause: "X.25 Annex D",
        example: "incoming call of the DCE (T11, 180 s)",
        trace: "",
    },
    Explanation {
        topic: Topic::Term,
        word: "T12",
        name: "time-out of a reset indication",
        meaning: "How long the DCE waits after its reset indication for a reset confirmation: 60 seconds.",
        when: "x25page and its summary name waits by it. A longer one is no finding.",
        clause: "X.25 Annex D",
        example: "reset indication of the DCE (T12, 60 s)",
        trace: "",
    },
    Explanation {
        topic: Topic::Term,
        word: "T13",
        name: "time-out of a clear indication",
        meaning: "How long the DCE waits after its clear indication for a clear confirmation: 60 seconds.",
        when: "x25page and its summary name waits by it. A longer one is no finding.",
        clause: "X.25 Annex D",
        example: "clear indication of the DCE (T13, 60 s)",
        trace: "",
    },
    Explanation {
        topic: Topic::Term,
        word: "T20",
        name: "time-out of a restart request",
        meaning: "How long the DTE waits after its restart request for a restart confirmation: 180 seconds.",
        when: "x25page and its summary name waits by it. A longer one is no finding.",
        clause: "X.25 Annex D",
        example: "restart request of the DTE (T20, 180 s)",
        trace: "",
    },
    Explanation {
        topic: Topic::Term,
        word: "T21",
        name: "time-out of a call request",
        meaning: "How long the DTE waits after its call request for a call connected or a clear indication: 200 seconds.",
        when: "x25page and its summary name waits by it. A longer one is no finding.",
        clause: "X.25 Annex D",
        example: "call request of the DTE (T21, 200 s)",
        trace: "",
    },
    Explanation {
        topic: Topic::Term,
        word: "T22",
        name: "time-out of a reset request",
        meaning: "How long the DTE waits after its reset request for a reset confirmation: 180 seconds.",
        when: "x25page and its summary name waits by it. A longer one is no finding.",
        clause: "X.25 Annex D",
        example: "reset request of the DTE (T22, 180 s)",
        trace: "",
    },
    Explanation {
        topic: Topic::Term,
        word: "T23",
        name: "time-out of a clear request",
        meaning: "How long the DTE waits after its clear request for a clear confirmation: 180 seconds.",
        when: "x25page and its summary name waits by it. A longer one is no finding.",
        clause: "X.25 Annex D",
        example: "clear request of the DTE (T23, 180 s)",
        trace: "",
    },
];

/// Returns the time-outs of requests, those of the DCE first.
pub fn time_outs() -> &'static [Explanation]
    ensures { map key result.now ≡ time_out_keys }
{
    &TIME_OUTS
}
