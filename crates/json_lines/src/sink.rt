//! A sink that writes to another sink an object for each line that it accepts. The caller lends that sink
//! (`line_model::lending`), has a scan write its report to a `JsonSink`, and gets the sink back from `finish`.

ghost use Rattle.std.specs.Prelude.{◌≡◌, ℕ, List, [], Option};
ghost use Rattle.json_lines.specs.BetweenCalls.{IsBetweenCalls};

use crate::lines::JsonLines;
use line_model::device::Sink;
use line_model::fault::Fault;
use line_model::lending::LentSink;
use std::io;
use streams::output::Output;

/// Accepts the text of a report in parts of any size, and writes the object of each line that a line feed has ended to
/// another sink, in order. Allocates no memory. The next call or `finish` returns a failure of that sink; from then on
/// nothing is accepted, and that sink is not asked.
#[derive(Drop)]
pub struct JsonSink<S: LentSink> {
    sink: S,
    lines: JsonLines,
    ghost represented: { IsBetweenCalls S.before (S.taken sink, S.failures sink) lines },
}

impl<S: LentSink> JsonSink<S> {
    ghost use Rattle.std.specs.Prelude.{◌++◌, ◌<◌, ◌≤◌, OnOk, IfErr, Some, Err, flat_map};
    ghost use Rattle.line_model.specs.basics.Device.{with_more};
    ghost use Rattle.line_model.specs.basics.Records.{Report};
    ghost use Rattle.line_model.specs.observer.Report.{text_of};
    ghost use Rattle.json_lines.specs.Json.{json_text, object_of};
    ghost use Rattle.json_lines.specs.Reports.{IsHeld, report_words};

    /// Returns a sink that has accepted nothing. `sink` is as it was lent.
    pub fn new(sink: S) -> Self
        requires before { (S.taken sink, S.failures sink) ≡ S.before }
        ensures taken { ⟦<JsonSink<S> as Sink>⟧.taken result ≡ Some [] }
        ensures failures { ⟦<JsonSink<S> as Sink>⟧.failures result ≡ 0 }
    {
        JsonSink {
            sink,
            lines: JsonLines::new(),
        }
    }

    /// Returns the sink, with `Write` where it has failed. It took the objects of all lines that were accepted and have
    /// ended, or it has failed and took a first part of them. A line that has not ended has no object.
    pub fn finish(self) -> (S, Result<(), Fault>)
        ensures ok { (text : List ℕ) → ⟦<JsonSink<S> as Sink>⟧.taken self ≡ Some text
            → OnOk result.1 (S.taken result.0 ≡ with_more S.before.0 (json_text text)) }
        // Each line of a report becomes the object of its words, and none that of an unknown line.
        ensures report { (r : Report) → IsHeld r
            → ⟦<JsonSink<S> as Sink>⟧.taken self ≡ Some (text_of r)
            → OnOk result.1 (S.taken result.0
            ≡ with_more S.before.0 (flat_map object_of (report_words r))) }
        ensures part { (text : List ℕ) → ⟦<JsonSink<S> as Sink>⟧.taken self ≡ Some text
            → (front : List ℕ) × (rest : List ℕ) × (json_text text ≡ front ++ rest)
            × (S.taken result.0 ≡ with_more S.before.0 front) }
        ensures failed { IfErr result.1 (λ fault. (fault ≡ Fault.Write)
            × (S.before.1 < S.failures result.0)) }
        ensures rising { S.before.1 ≤ S.failures result.0 }
        ensures refused { 0 < ⟦<JsonSink<S> as Sink>⟧.failures self
            → result.1 ≡ Err Fault.Write }
    {
        let JsonSink { sink, lines } = self;
        let answer = if lines.has_failed() {
            Err(Fault::Write)
        } else {
            Ok(())
        };
        (sink, answer)
    }
}

impl<S: LentSink> Sink for JsonSink<S> {
    ghost use Rattle.std.specs.Prelude.{Some, length};

    ghost taken = { λ s. Some s.lines.given.bytes };

    ghost failures = { λ s. length s.lines.refused.bytes };

    fn write(&mut self, bytes: &[u8]) -> Result<usize, ()> {
        self.lines.take(&mut self.sink, bytes)?;
        Ok(bytes.len())
    }
}

impl<S: LentSink + Output> Output for JsonSink<S> {
    fn failure(&self) -> Option<io::Error> {
        self.sink.failure()
    }
}
