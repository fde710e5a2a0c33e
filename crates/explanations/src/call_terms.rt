//! Terms of calls and of what ends or changes them.

ghost use Rattle.std.specs.Prelude.{◌≡◌, map};
ghost use Rattle.explanations.specs.Table.{key, call_term_keys};

use crate::explanation::{Explanation, Topic};

const CALL_TERMS: [Explanation; 9] = [
    Explanation {
        topic: Topic::Term,
        word: "call",
        name: "virtual call",
        meaning: "A connection of two DTEs through the network, on one logical channel of this interface. A call request or an incoming call opens it, and a clear or a restart ends it.",
        when: "Each has a C line in the report.",
        clause: "X.25 4.1",
        example: "C 1 1 1 out - - 1 2 - open 2 2 0 0 2",
        trace: "tests/traces/worked/full-window.trace",
    },
    Explanation {
        topic: Topic::Term,
        word: "PVC",
        name: "permanent virtual circuit",
        meaning: "A connection that is always there, on a logical channel of its own: nothing opens or clears it, and after an error it is reset.",
        when: "PVC of the header says which channels are permanent. Their data is in the Z line, and no C line names them.",
        clause: "X.25 4.2",
        example: "X25 1 MOD 8 WIN 2 SIZE 128 PVC 1 SVC 4",
        trace: "",
    },
    Explanation {
        topic: Topic::Term,
        word: "reset",
        name: "reset",
        meaning: "Begins a logical channel again: the numbers go to 0, what was on its way is lost, and the call stays. Either side may send one, with a cause and a diagnostic code.",
        when: "After an error of the DTE in d1 the DCE sends one. States d2 and d3 are those of a reset.",
        clause: "X.25 4.4.3",
        example: "# DCE, logical channel 1: reset indication, cause 5 (local procedure error), diagnostic 1 (invalid P(S))",
        trace: "",
    },
    Explanation {
        topic: Topic::Term,
        word: "clear",
        name: "clear",
        meaning: "Ends a call, or refuses it before it is up. Either side may send one, with a cause and a diagnostic code; the other side confirms it.",
        when: "After an error of the DTE in a call's p state the DCE sends one. States p6 and p7 are those of a clear.",
        clause: "X.25 4.1.7, 4.1.8",
        example: "# DTE, logical channel 1: clear request, cause 0 (DTE originated), diagnostic 0 (no additional information)",
        trace: "",
    },
    Explanation {
        topic: Topic::Term,
        word: "restart",
        name: "restart of the interface",
        meaning: "Clears all calls and resets all permanent virtual circuits, by a packet on channel 0. Either side may send one; the other side confirms it.",
        when: "Each begins an epoch of the report. States r2 and r3 are those of a restart.",
        clause: "X.25 3.3",
        example: "# DTE: restart request, cause 0 (DTE originated), diagnostic 0 (no additional information)",
        trace: "",
    },
    Explanation {
        topic: Topic::Term,
        word: "facility",
        name: "facilities",
        meaning: "What a call asks for beyond its addresses, such as a packet size, a window, reverse charging or fast select: a code, and its parameter.",
        when: "In call requests, incoming calls, and the packets that accept them.",
        clause: "X.25 6, 7",
        example: "C 1 1 1 out - - 1 2 - open 2 2 0 0 2",
        trace: "tests/traces/worked/full-window.trace",
    },
    Explanation {
        topic: Topic::Term,
        word: "reverse charging",
        name: "reverse charging",
        meaning: "The called address pays for the call, in place of the calling one.",
        when: "A facility of the packet that opens the call; A lines count the call and its segments by who pays.",
        clause: "X.25 6.18",
        example: "A 12 1 3",
        trace: "examples/reverse-charging.trace",
    },
    Explanation {
        topic: Topic::Term,
        word: "fast select",
        name: "fast select",
        meaning: "The packets that open, accept and clear the call may hold up to 128 octets of user data, in place of 16 or none.",
        when: "A facility of the packet that opens the call.",
        clause: "X.25 6.16",
        example: "# DTE, logical channel 1: call request, fast select",
        trace: "",
    },
    Explanation {
        topic: Topic::Term,
        word: "PAD",
        name: "packet assembly/disassembly facility",
        meaning: "What connects a terminal that sends characters to X.25. It has parameters (X.3), which the host sets and reads by messages in data with the Q bit (X.29).",
        when: "S lines have what is known of its parameters; X1 to X4 and XL are findings on its messages.",
        clause: "X.3; X.29",
        example: "S 1 T 2 said 1",
        trace: "tests/traces/worked/pad-setting-said.trace",
    },
];

/// Returns the terms of calls.
pub fn call_terms() -> &'static [Explanation]
    ensures { map key result.now ≡ call_term_keys }
{
    &CALL_TERMS
}
