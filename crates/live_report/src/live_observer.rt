//! A live trace that keeps the row that it read last, as any observer of a trace.

ghost use Rattle.std.specs.Prelude.{◌≡◌, true};
ghost use Rattle.trace_text.specs.Progress.{bytes_fed};
ghost use Rattle.live_report.specs.Lives.{Represents};
ghost use Rattle.trace_text.specs.FedBytes.{fed_length};

use crate::live::Live;
use crate::uncounted::Uncounted;
use channel_run::run::Channel;
use line_model::device::LastLine;
use line_model::fault::Fault;
use line_model::finding::Finding;
use line_model::report::Report;
use std::alloc::Allocator;
use trace_text::trace_observer::TraceObserver;

impl<A: Allocator + Copy, C: Channel<A>> TraceObserver<A> for Live<A, C> {
    ghost represents = { λ live text. Represents C.interface_of C.number_of C.represents live text
        × (live.keeps_rows ≡ true) };

    ghost last_found = { λ live. live.found.items };

    ghost size = { λ live. bytes_fed live.lines };

    #[inline(always)]
    fn feed(&mut self, chunk: &[u8]) -> Result<(), Fault> {
        Live::feed(self, chunk)
    }

    fn found(&self) -> &[Finding] {
        Live::found(self)
    }

    fn last_line(&self) -> LastLine<'_> {
        Live::last_line(self)
    }

    fn keep_after(&mut self, after: &[u8]) {
        Live::keep_after(self, after);
    }

    fn whole(self) -> Result<Report<A>, Fault> {
        Live::whole(self, &mut Uncounted::none())
    }

    ghost sound = { λ live text represented. represented.0.reads.sound };

    ghost sized = { λ live text represented. fed_length live.lines text represented.0.reads };
}
