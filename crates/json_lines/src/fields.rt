//! The fields of the report's lines, by name.

ghost use Rattle.std.specs.Prelude.{◌≡◌};
ghost use Rattle.json_lines.specs.Forms.{account, call, finding, form_of, gaps, peak, setting, sums};
ghost use Rattle.json_lines.specs.Shown.{form_shown};

/// How the value of a field is written. What is absent is `null` in both.
#[derive(Clone, Copy)]
pub enum FieldKind {
    /// As a number of JSON.
    Number,
    /// As a string of JSON.
    Text,
}

/// A field of a line.
#[derive(Clone, Copy)]
pub struct Field {
    /// Its name.
    pub name: &'static str,
    /// How its value is written.
    pub kind: FieldKind,
}

/// The name of a kind of line, and its fields.
#[derive(Clone, Copy)]
pub struct LineForm {
    /// The value of the member `line`.
    pub title: &'static str,
    /// The fields after the letter, in the order of the line.
    pub fields: &'static [Field],
}

const FINDING: [Field; 4] = [
    Field {
        name: "packet",
        kind: FieldKind::Number,
    },
    Field {
        name: "side",
        kind: FieldKind::Text,
    },
    Field {
        name: "state",
        kind: FieldKind::Text,
    },
    Field {
        name: "code",
        kind: FieldKind::Text,
    },
];

const CALL: [Field; 15] = [
    Field {
        name: "call",
        kind: FieldKind::Number,
    },
    Field {
        name: "epoch",
        kind: FieldKind::Number,
    },
    Field {
        name: "channel",
        kind: FieldKind::Number,
    },
    Field {
        name: "direction",
        kind: FieldKind::Text,
    },
    Field {
        name: "called",
        kind: FieldKind::Text,
    },
    Field {
        name: "calling",
        kind: FieldKind::Text,
    },
    Field {
        name: "opened",
        kind: FieldKind::Number,
    },
    Field {
        name: "up",
        kind: FieldKind::Number,
    },
    Field {
        name: "ended",
        kind: FieldKind::Number,
    },
    Field {
        name: "how",
        kind: FieldKind::Text,
    },
    Field {
        name: "data_t",
        kind: FieldKind::Number,
    },
    Field {
        name: "octets_t",
        kind: FieldKind::Number,
    },
    Field {
        name: "data_n",
        kind: FieldKind::Number,
    },
    Field {
        name: "octets_n",
        kind: FieldKind::Number,
    },
    Field {
        name: "segments",
        kind: FieldKind::Number,
    },
];

const SETTING: [Field; 5] = [
    Field {
        name: "call",
        kind: FieldKind::Number,
    },
    Field {
        name: "side",
        kind: FieldKind::Text,
    },
    Field {
        name: "parameter",
        kind: FieldKind::Number,
    },
    Field {
        name: "word",
        kind: FieldKind::Text,
    },
    Field {
        name: "value",
        kind: FieldKind::Number,
    },
];

const ACCOUNT: [Field; 3] = [
    Field {
        name: "address",
        kind: FieldKind::Text,
    },
    Field {
        name: "calls",
        kind: FieldKind::Number,
    },
    Field {
        name: "segments",
        kind: FieldKind::Number,
    },
];

const PEAK: [Field; 2] = [
    Field {
        name: "count",
        kind: FieldKind::Number,
    },
    Field {
        name: "packet",
        kind: FieldKind::Number,
    },
];

const GAPS: [Field; 1] = [Field {
    name: "gaps",
    kind: FieldKind::Number,
}];

const SUMS: [Field; 5] = [
    Field {
        name: "packets",
        kind: FieldKind::Number,
    },
    Field {
        name: "findings",
        kind: FieldKind::Number,
    },
    Field {
        name: "calls",
        kind: FieldKind::Number,
    },
    Field {
        name: "octets",
        kind: FieldKind::Number,
    },
    Field {
        name: "segments",
        kind: FieldKind::Number,
    },
];

fn finding() -> LineForm
    ensures { form_shown result ≡ finding }
{
    LineForm {
        title: "finding",
        fields: &FINDING,
    }
}

fn call() -> LineForm
    ensures { form_shown result ≡ call }
{
    LineForm {
        title: "call",
        fields: &CALL,
    }
}

fn setting() -> LineForm
    ensures { form_shown result ≡ setting }
{
    LineForm {
        title: "setting",
        fields: &SETTING,
    }
}

fn account() -> LineForm
    ensures { form_shown result ≡ account }
{
    LineForm {
        title: "account",
        fields: &ACCOUNT,
    }
}

fn peak() -> LineForm
    ensures { form_shown result ≡ peak }
{
    LineForm {
        title: "peak",
        fields: &PEAK,
    }
}

fn gaps() -> LineForm
    ensures { form_shown result ≡ gaps }
{
    LineForm {
        title: "gaps",
        fields: &GAPS,
    }
}

fn sums() -> LineForm
    ensures { form_shown result ≡ sums }
{
    LineForm {
        title: "sums",
        fields: &SUMS,
    }
}

/// Returns the form of the lines that begin with a word; for any other word, a form without fields.
pub fn form_of(letter: &[u8]) -> LineForm
    ensures { form_shown result ≡ form_of letter.now }
{
    match letter {
        [b'F'] => finding(),
        [b'C'] => call(),
        [b'S'] => setting(),
        [b'A'] => account(),
        [b'P'] => peak(),
        [b'G'] => gaps(),
        [b'Z'] => sums(),
        _ => LineForm {
            title: "unknown",
            fields: &[],
        },
    }
}
