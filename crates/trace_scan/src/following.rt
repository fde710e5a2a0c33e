//! A scan of one thread that follows a trace as it grows.

ghost use Rattle.std.specs.Prelude.{◌≡◌, ℕ, ◌+◌, ◌<◌, ◌≤◌, ◌^◌, List, Some, Err, IfErr, IfOk, OnOk};
ghost use Rattle.live_report.specs.Uncounted.{trace_uncounted};
ghost use Rattle.live_report.specs.Reports.{IsReported, IsScanFault};
ghost use Rattle.trace_text.proofs.DecidedLemmas.{all_sound};
ghost use Rattle.trace_text.proofs.SourceLemmas.{few_bytes};
ghost use Rattle.trace_text.specs.FedBytes.{fed_length};
ghost use Rattle.trace_text.specs.Progress.{bytes_fed};
ghost use Rattle.trace_text.specs.Sources.{IsRefusedBy};
ghost use Rattle.trace_scan.specs.Follow.{IsFollowRefusal, IsFollowed, IsRefusedAfter, IsWrittenOf};

use channel_machine::channel::PackedChannel;
use channel_run::run::Channel;
use line_model::device::{LastLine, Sink, Source};
use line_model::fault::Fault;
use line_model::totals::Summary;
use live_report::follow::Follower;
use live_report::uncounted::Uncounted;
use std::alloc::Allocator;
use trace_text::consumer::{Consumer, read_to_end};

/// A trace that is followed: each read writes its findings to the sink.
#[derive(Drop)]
struct Following<A: Allocator, C: Channel<A>> {
    follower: Follower<A, C>,
}

impl<A: Allocator + Copy, C: Channel<A>, K: Sink> Consumer<K> for Following<A, C> {
    ghost was_fed = { λ first start now sink text. IsFollowed C.Channel (K.taken start)
        (K.taken sink) (K.failures start) (K.failures sink) text now.follower };

    ghost refused = { λ first start now sink text last returned. IsRefusedAfter (K.taken start)
        (K.taken sink) (K.failures start) (K.failures sink) text last returned };

    ghost expects = { λ text. Unit {0} };

    ghost lag = { 0 };

    ghost size = { λ now. bytes_fed now.follower.live.lines };

    fn feed(&mut self, chunk: &[u8], sink: &mut K) -> Result<(), Fault> {
        self.follower.feed(chunk, sink)
    }

    fn last_line(&self) -> LastLine<'_> {
        self.follower.last_line()
    }

    ghost sound = { λ first start now sink text fed. all_sound 0 text fed.represented.live.reads.sound };

    ghost sized = { λ first start now sink text fed. fed_length now.follower.live.lines text
        fed.represented.live.reads };

    ghost few = { λ first start now sink text fed. few_bytes text fed.represented.live.reads.sound };
}

/// Walks a trace in one thread, and writes its findings and, after the source has ended, the rest of the report: the
/// bytes of `scan_alone`. Returns the report's last line as numbers, and the data that was not counted. Fails with the
/// first faulty line, after it has written all that was found before; where the source fails, after it has written all
/// that was found in the bytes that were read; when memory is refused; and where the sink fails. The clauses are about
/// the end of the call; those of `Follower::feed` say what is written after each read.
pub fn follow<A: Allocator + Copy, S: Source, K: Sink>(
    alloc: A,
    source: &mut S,
    sink: &mut K,
    uncounted: &mut Uncounted,
) -> Result<Summary, Fault>
    // Of a text without a fault the sink accepted exactly the report.
    ensures reported { (text : List ℕ) → S.left source.old ≡ Some text
        → IfOk result (IsReported text (K.taken sink.old) (K.taken sink.new)) }
    // And what was not counted of it is returned.
    ensures uncounted { (text : List ℕ) → S.left source.old ≡ Some text
        → OnOk result (uncounted.new ≡ trace_uncounted text) }
    // A refusal is by the bytes that were read, and those before the last call of the source show no faulty line.
    ensures refused { (text : List ℕ) → S.left source.old ≡ Some text
        → IfErr result (IsRefusedBy 0 IsFollowRefusal text (S.left source.new)
        (S.before source.new)) }
    ensures kinds { IfErr result IsScanFault }
    ensures read_failed { result ≡ Err Fault.Read → S.failures source.old < S.failures source.new }
    ensures write_failed { result ≡ Err Fault.Write → K.failures sink.old < K.failures sink.new }
    // At a refusal the sink has first lines of what was found in the bytes that were read: all of them where the source
    // failed, and at a faulty line where the sink did not fail.
    ensures taken { (text : List ℕ) → S.left source.old ≡ Some text
        → IfErr result (IsRefusedBy 0 (IsWrittenOf (K.taken sink.old) (K.taken sink.new)
        (K.failures sink.new ≡ K.failures sink.old)) text (S.left source.new)
        (S.before source.new)) }
    // The source is asked at least once.
    ensures called { S.calls source.old < S.calls source.new }
    ensures asked { S.calls source.new ≤ S.calls source.old + (2 ^ 30 + 1) }
    // The same holds for a source that hides its bytes, of some bytes that were read.
    ensures of_text { IfOk result (λ sums. (text : List ℕ)
        × IsReported text (K.taken sink.old) (K.taken sink.new) sums) }
    ensures of_given { IfErr result (λ fault. (given : List ℕ) × (rest : List ℕ)
        × IsFollowRefusal given rest fault × IsWrittenOf (K.taken sink.old) (K.taken sink.new)
        (K.failures sink.new ≡ K.failures sink.old) given rest fault) }
{
    let mut following = Following {
        follower: Follower::<A, PackedChannel<A>>::new(alloc),
    };
    read_to_end(source, &mut following, sink)?;
    following.follower.end(sink, uncounted)
}
