//! A trace whose findings are written as it grows.

ghost use Rattle.std.specs.Prelude.{◌≡◌, ◌≢◌, ℕ, ◌+◌, ◌<◌, ◌≤◌, ◌^◌, ◌++◌, [], List, Some, Err, length, IfErr, IfOk, OnErr, OnOk};
ghost use Rattle.line_model.specs.basics.Written.{TakesAll, TakesFront};
ghost use Rattle.line_model.specs.traces.Traces.{trace_report};
ghost use Rattle.trace_text.specs.Progress.{bytes_fed};
ghost use Rattle.live_report.specs.Found.{found_text};
ghost use Rattle.live_report.specs.Follows.{FollowsOn, HasFindings, HasFindingsAtLine, HasFirst, HasFollowed, IsFed, OfFollowed, OfWritten, RefusesOn, text_after};
ghost use Rattle.live_report.specs.Uncounted.{trace_uncounted};
ghost use Rattle.live_report.specs.Reports.{IsRefusal, IsReportFault, IsReported};

use crate::live::Live;
use crate::uncounted::Uncounted;
use channel_run::run::Channel;
use line_model::device::{LastLine, Sink};
use line_model::fault::Fault;
use line_model::report::Report;
use line_model::totals::Summary;
use report_merge::text::{write_findings, write_rest};
use std::alloc::Allocator;

/// A trace that grows. After a `feed` that succeeds, the sink has the lines of all findings of the rows whose LF was
/// fed.
#[derive(Drop)]
pub struct Follower<A: Allocator, C: Channel<A>> {
    live: Live<A, C>,
    /// How many findings were written.
    findings_written: usize,
    refused: Option<Fault>,
}

/// Writes the lines of a report after its first findings, as `write_report` writes all of them.
fn write_after<K: Sink, A: Allocator>(
    findings_written: usize,
    report: &Report<A>,
    sink: &mut K,
) -> Result<(), Fault>
    requires { findings_written ≤ length report.now.findings }
    ensures ok { OnOk result (TakesAll K.Sink sink.old sink.new (text_after findings_written report.now)) }
    ensures part { OnErr result (TakesFront K.Sink sink.old sink.new (text_after findings_written report.now)) }
    ensures cause { OnErr result (K.failures sink.old < K.failures sink.new) }
    ensures write { IfErr result (λ fault. fault ≡ Fault.Write) }
{
    let (_, not_written) = report.findings.as_slice().split_at(findings_written);
    write_findings(not_written, sink)?;
    write_rest(report, sink)
}

impl<A: Allocator + Copy, C: Channel<A>> Follower<A, C> {
    /// Returns a trace of which nothing was fed. Allocates nothing.
    pub fn new(alloc: A) -> Self
        ensures fed { IsFed C.interface_of C.number_of C.represents result }
        ensures represented { HasFollowed C.Channel [] result }
    {
        Follower {
            live: Live::new(alloc),
            findings_written: 0,
            refused: None,
        }
    }

    /// Returns the last line that was read, as `Lines::last_line`.
    pub fn last_line(&self) -> LastLine<'_> {
        self.live.last_line()
    }

    /// Reads the rows of a chunk, and writes the lines of what they found.
    fn write_found<K: Sink>(&mut self, chunk: &[u8], sink: &mut K) -> Result<(), Fault>
        requires { (text : List ℕ) × HasFollowed C.Channel text self.old }
        ensures represented { FollowsOn C.Channel self.old chunk.now self.new result }
        ensures refused { RefusesOn C.Channel self.old chunk.now result }
        ensures findings_written { OfWritten C.Channel self.old (K.taken sink.old) (λ text before.
            OnOk result (HasFindings before (K.taken sink.new) (text ++ chunk.now))) }
        ensures taken { OfWritten C.Channel self.old (K.taken sink.old) (λ text before.
            HasFirst before (K.taken sink.new) (found_text (text ++ chunk.now))) }
        ensures at_line { OfWritten C.Channel self.old (K.taken sink.old) (λ text before.
            K.failures sink.new ≡ K.failures sink.old
            → IfErr result (HasFindingsAtLine before (K.taken sink.new) (text ++ chunk.now))) }
        ensures size { OnOk result (bytes_fed self.new.live.lines
            ≡ bytes_fed self.old.live.lines + length chunk.now) }
        ensures limit { OnOk result (bytes_fed self.new.live.lines ≤ 2 ^ 30) }
        ensures kinds { IfErr result IsReportFault }
        ensures rising { K.failures sink.old ≤ K.failures sink.new }
        ensures write_failed { result ≡ Err Fault.Write
            → K.failures sink.old < K.failures sink.new }
    {
        let read = self.live.feed(chunk);
        let found = self.live.found();
        self.findings_written += found.len();
        let written = write_findings(found, sink);
        read?;
        written
    }

    /// Reads the next chunk of the trace text, of any size, and then writes the lines of what its rows found. Fails
    /// with the first line that is faulty however the text goes on, after it has written what was found before that
    /// line; where the sink fails; and when memory is refused. From then on it fails with the same, and the sink is not
    /// asked.
    pub fn feed<K: Sink>(&mut self, chunk: &[u8], sink: &mut K) -> Result<(), Fault>
        requires fed { IsFed C.interface_of C.number_of C.represents self.old }
        ensures fed { IsFed C.interface_of C.number_of C.represents self.new }
        // Of any trace text that it was fed: it was fed that text with the chunk.
        ensures represented { FollowsOn C.Channel self.old chunk.now self.new result }
        ensures refused { RefusesOn C.Channel self.old chunk.now result }
        // A sink with the lines of what was found so far then has those of the text with the chunk.
        ensures findings_written { OfWritten C.Channel self.old (K.taken sink.old) (λ text before.
            OnOk result (HasFindings before (K.taken sink.new) (text ++ chunk.now))) }
        // Whatever is returned, it has a first part of them; at a faulty line all, if it did not fail.
        ensures taken { OfWritten C.Channel self.old (K.taken sink.old) (λ text before.
            HasFirst before (K.taken sink.new) (found_text (text ++ chunk.now))) }
        ensures at_line { OfWritten C.Channel self.old (K.taken sink.old) (λ text before.
            K.failures sink.new ≡ K.failures sink.old
            → IfErr result (HasFindingsAtLine before (K.taken sink.new) (text ++ chunk.now))) }
        ensures size { OnOk result (bytes_fed self.new.live.lines
            ≡ bytes_fed self.old.live.lines + length chunk.now) }
        ensures limit { OnOk result (bytes_fed self.new.live.lines ≤ 2 ^ 30) }
        ensures kinds { IfErr result IsReportFault }
        ensures rising { K.failures sink.old ≤ K.failures sink.new }
        ensures write_failed { OfFollowed C.Channel self.old (λ text.
            result ≡ Err Fault.Write → K.failures sink.old < K.failures sink.new) }
        ensures refuses { IfErr result (λ fault. self.new.refused ≡ Some fault) }
        ensures again { (fault : Fault) → self.old.refused ≡ Some fault
            → (result ≡ Err fault) × (self.new ≡ self.old) × (sink.new ≡ sink.old) }
    {
        if let Some(fault) = self.refused {
            return Err(fault);
        }
        let answer = self.write_found(chunk, sink);
        self.refused = answer.err();
        answer
    }

    /// Writes the rest of the report of the text, which has ended and may lack its last LF, and returns its last line
    /// as numbers, and the data that was not counted. Fails with the first faulty line, when memory is refused, and
    /// where the sink fails; once `feed` has failed, it fails with the same.
    pub fn end<K: Sink>(self, sink: &mut K, uncounted: &mut Uncounted) -> Result<Summary, Fault>
        requires fed { IsFed C.interface_of C.number_of C.represents self }
        // A sink with the lines of what was found so far then has the report.
        ensures reported { OfWritten C.Channel self (K.taken sink.old) (λ text before.
            IfOk result (IsReported text before (K.taken sink.new))) }
        ensures uncounted { OfFollowed C.Channel self (λ text.
            OnOk result (uncounted.new ≡ trace_uncounted text)) }
        ensures refused { OfFollowed C.Channel self (λ text. IfErr result (IsRefusal text)) }
        ensures kinds { IfErr result IsReportFault }
        ensures write_failed { OfFollowed C.Channel self (λ text.
            result ≡ Err Fault.Write → K.failures sink.old < K.failures sink.new) }
        ensures unwritten { IfErr result (λ fault. fault ≢ Fault.Write → sink.new ≡ sink.old) }
        ensures taken { OfWritten C.Channel self (K.taken sink.old) (λ text before.
            result ≡ Err Fault.Write → HasFirst before (K.taken sink.new) (trace_report text)) }
        ensures again { (fault : Fault) → self.refused ≡ Some fault
            → (result ≡ Err fault) × (sink.new ≡ sink.old) }
    {
        let Follower {
            live,
            findings_written,
            refused,
        } = self;
        if let Some(fault) = refused {
            drop(live);
            return Err(fault);
        }
        let report = live.whole(uncounted)?;
        let answer = write_after(findings_written, &report, sink);
        let summary = report.summary;
        drop(report);
        answer?;
        Ok(summary)
    }
}
