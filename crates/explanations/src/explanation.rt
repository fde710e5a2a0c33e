//! A word, and one meaning of it.

/// What a word is the name of.
#[derive(Clone, Copy, Debug, PartialEq, Eq)]
pub enum Topic {
    /// The letter that a line of the report begins with.
    Line,
    /// A side of the interface.
    Side,
    /// The direction of a call.
    Direction,
    /// How a call ended.
    Ending,
    /// How a setting of a PAD is known.
    Setting,
    /// A field without a value.
    Absent,
    /// A state of the interface.
    State,
    /// The diagnostic code of a finding.
    Code,
    /// The code of a finding on a PAD message.
    Message,
    /// The rule that a faulty line of a trace breaks.
    Kind,
    /// A refusal of the program.
    Refusal,
    /// An exit status of the program.
    Status,
    /// A parameter of a PAD.
    Parameter,
    /// A field of the report's lines.
    Field,
    /// A word of a trace's header.
    Header,
    /// The cause of a clear.
    ClearingCause,
    /// The cause of a reset.
    ResettingCause,
    /// The cause of a restart.
    RestartingCause,
    /// A term of the documents and the options.
    Term,
}

impl Topic {
    ghost use Rattle.std.specs.Prelude.{◌≡◌};
    ghost use Rattle.explanations.specs.Table.{topic_name};
    ghost use Rattle.explanations.specs.Texts.{topic_document, topic_word};

    /// Returns the name of the topic, by which all its words are asked for (profile).
    pub fn name(self) -> &'static str
        ensures { result.now ≡ topic_name self }
    {
        self.name_and_word().0
    }

    /// Returns what is printed of a word of this topic (profile).
    pub fn word(self) -> &'static str
        ensures { result.now ≡ topic_word self }
    {
        self.name_and_word().1
    }

    /// The name of the topic, and what is printed of its words.
    fn name_and_word(self) -> (&'static str, &'static str)
        ensures name { result.0.now ≡ topic_name self }
        ensures word { result.1.now ≡ topic_word self }
    {
        match self {
            Topic::Line => ("line", "line of the report"),
            Topic::Side => ("side", "side"),
            Topic::Direction => ("direction", "direction of a call"),
            Topic::Ending => ("end", "end of a call"),
            Topic::Setting => ("setting", "word of a setting"),
            Topic::Absent => ("absent", "absent value"),
            Topic::State => ("state", "state"),
            Topic::Code => ("code", "diagnostic code"),
            Topic::Message => ("message", "code of a PAD message"),
            Topic::Kind => ("kind", "kind of faulty line"),
            Topic::Refusal => ("refusal", "refusal"),
            Topic::Status => ("status", "exit status"),
            Topic::Parameter => ("parameter", "PAD parameter"),
            Topic::Field => ("field", "field of the report"),
            Topic::Header => ("header", "word of the header"),
            Topic::ClearingCause => ("cause", "cause of a clear"),
            Topic::ResettingCause => ("cause", "cause of a reset"),
            Topic::RestartingCause => ("cause", "cause of a restart"),
            Topic::Term => ("term", "term"),
        }
    }

    /// The installed document that has the words of this topic in their place.
    pub(crate) fn document(self) -> &'static str
        ensures { result.now ≡ topic_document self }
    {
        match self {
            Topic::State | Topic::Code | Topic::Message | Topic::Parameter =>
                "/usr/share/doc/x25scan/RULES.md",
            Topic::Kind | Topic::Header => "/usr/share/doc/x25scan/TRACE.md",
            Topic::Term => "/usr/share/doc/x25scan/CODES.md",
            _ => "/usr/share/doc/x25scan/REPORT.md",
        }
    }
}

/// One meaning of a word.
#[derive(Clone, Copy)]
pub struct Explanation {
    /// What the word is the name of.
    pub topic: Topic,
    /// The word, as it is printed.
    pub word: &'static str,
    /// The name that the Recommendations or this project have for it.
    pub name: &'static str,
    /// What it means.
    pub meaning: &'static str,
    /// When it is printed, and what follows.
    pub when: &'static str,
    /// The clause that it rests on, or profile.
    pub clause: &'static str,
    /// What is printed where it occurs.
    pub example: &'static str,
    /// The trace that prints it, by its place in the repository and below the installed documents; empty where no small
    /// trace does.
    pub trace: &'static str,
}
