//! A trace that is walked as it is read, in one thread.

ghost use Rattle.std.specs.Prelude.{◌≡◌, ◌++◌};
ghost use Rattle.line_model.specs.text.Text.{early};
ghost use Rattle.trace_text.proofs.DecidedLemmas.{all_sound};
ghost use Rattle.trace_text.proofs.SourceLemmas.{few_bytes};
ghost use Rattle.trace_text.specs.FedBytes.{fed_length};
ghost use Rattle.trace_text.specs.Progress.{bytes_fed};
ghost use Rattle.trace_text.specs.Represents.{IsFaultOf, IsTextFault};
ghost use Rattle.live_report.specs.Lives.{WasFed};

use channel_run::run::Channel;
use line_model::device::LastLine;
use line_model::fault::Fault;
use live_report::live::Live;
use std::alloc::Allocator;
use trace_text::consumer::Consumer;

/// A trace that is walked. It keeps what is found, and writes nothing to the sink.
#[derive(Drop)]
pub struct Walk<A: Allocator, C: Channel<A>> {
    pub live: Live<A, C>,
}

impl<A: Allocator + Copy, C: Channel<A>, K> Consumer<K> for Walk<A, C> {
    ghost was_fed = { λ first start now sink text. WasFed C.Channel text now.live
        × (sink ≡ start) };

    ghost refused = { λ first start now sink text last returned. IsFaultOf (early (text ++ last)) returned
        × IsTextFault returned × (sink ≡ start) };

    ghost expects = { λ text. Unit {0} };

    ghost lag = { 0 };

    ghost size = { λ now. bytes_fed now.live.lines };

    fn feed(&mut self, chunk: &[u8], _sink: &mut K) -> Result<(), Fault> {
        self.live.feed(chunk)
    }

    fn last_line(&self) -> LastLine<'_> {
        self.live.last_line()
    }

    ghost sound = { λ first start now sink text fed. all_sound 0 text fed.0.reads.sound };

    ghost sized = { λ first start now sink text fed. fed_length now.live.lines text fed.0.reads };

    ghost few = { λ first start now sink text fed. few_bytes text fed.0.reads.sound };
}
