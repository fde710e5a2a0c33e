//! A trace whose findings and report are asked for while it is read.

ghost use Rattle.std.specs.Prelude.{◌≡◌, ◌++◌, ℕ, List, [], true, false, Ok, IfErr, OnOk};
ghost use Rattle.line_model.specs.text.Text.{early};
ghost use Rattle.live_report.specs.Found.{HasFound, IsFoundBy, found as findings_of};
ghost use Rattle.live_report.specs.Lives.{IsFed, WasFed};
ghost use Rattle.trace_text.specs.Represents.{IsFaultOf};
ghost use Rattle.x25scan_c.specs.Sound.{HasJudged, IsJudging, packet_line};
ghost use Rattle.x25scan_c.specs.Waits.{waiting};

use crate::waiting::Waiting;
use channel_run::run::Channel;
use line_model::fault::Fault;
use line_model::finding::Finding;
use line_model::state::Side;
use live_report::live::Live;
use std::alloc::Allocator;

/// A trace that grows, and why it takes no more.
#[derive(Drop)]
pub struct ReportReading<A: Allocator, C: Channel<A>> {
    pub live: Live<A, C>,
    refused: Option<Fault>,
}

/// Reads a packet, as `Live::packet`, and appends what it found.
#[inline(always)]
fn live_packet<A: Allocator + Copy, C: Channel<A>>(
    live: &mut Live<A, C>,
    number: u32,
    side: Side,
    octets: &[u8],
    found: &mut Waiting<Finding, A>,
) -> Result<bool, Fault>
    requires { IsFed C.interface_of C.number_of C.represents live.old }
    ensures sound { IsFed C.interface_of C.number_of C.represents live.new }
    ensures taken { (text : List ℕ) → WasFed C.Channel text live.old → result ≡ Ok true
        → WasFed C.Channel (text ++ packet_line number side octets.now) live.new }
    ensures passed { (text : List ℕ) → WasFed C.Channel text live.old → result ≡ Ok false
        → WasFed C.Channel text live.new }
    ensures found { (text : List ℕ) → WasFed C.Channel text live.old → result ≡ Ok true
        → HasFound (waiting found.old) (waiting found.new) (findings_of text)
        (findings_of (text ++ packet_line number side octets.now)) }
    ensures unfound { result ≡ Ok false → found.new ≡ found.old }
{
    if !live.packet(number, side, octets)? {
        return Ok(false);
    }
    if !live.found().is_empty() {
        found.append(live.found())?;
    }
    Ok(true)
}

impl<A: Allocator + Copy, C: Channel<A>> ReportReading<A, C> {
    /// Returns a trace of which nothing was fed. Allocates nothing.
    pub fn new(alloc: A) -> Self
        ensures sound { IsJudging C.Channel result }
        ensures fed { HasJudged C.Channel [] result }
    {
        ReportReading {
            live: Live::new(alloc),
            refused: None,
        }
    }

    /// Reads the next bytes of the text, and appends what their rows found. Fails with the first line that is faulty
    /// however the text goes on, after what the rows before it found, and when memory is refused; from then on it fails
    /// with the same.
    pub fn feed(&mut self, chunk: &[u8], found: &mut Waiting<Finding, A>) -> Result<(), Fault>
        requires { IsJudging C.Channel self.old }
        ensures sound { IsJudging C.Channel self.new }
        ensures fed { (text : List ℕ) → HasJudged C.Channel text self.old
            → OnOk result (HasJudged C.Channel (text ++ chunk.now) self.new) }
        ensures found { (text : List ℕ) → HasJudged C.Channel text self.old → IsFoundBy result (waiting found.old)
            (waiting found.new) (findings_of text) (findings_of (text ++ chunk.now)) }
        ensures refused { (text : List ℕ) → HasJudged C.Channel text self.old
            → IfErr result (IsFaultOf (early (text ++ chunk.now))) }
    {
        if let Some(fault) = self.refused {
            return Err(fault);
        }
        let answer = self.live.feed(chunk);
        match found.append(self.live.found()) {
            Ok(()) => {
                self.refused = answer.err();
                answer
            }
            Err(_) => {
                self.refused = Some(Fault::Memory);
                Err(Fault::Memory)
            }
        }
    }

    /// Reads a packet, and appends what it found. `false`: nothing was read, and the line that writes it has to be fed.
    /// Fails as `feed`.
    #[inline(always)]
    pub fn packet(
        &mut self,
        number: u32,
        side: Side,
        octets: &[u8],
        found: &mut Waiting<Finding, A>,
    ) -> Result<bool, Fault>
        requires { IsJudging C.Channel self.old }
        ensures sound { IsJudging C.Channel self.new }
        ensures taken { (text : List ℕ) → HasJudged C.Channel text self.old → result ≡ Ok true
            → HasJudged C.Channel (text ++ packet_line number side octets.now) self.new }
        ensures passed { (text : List ℕ) → HasJudged C.Channel text self.old → result ≡ Ok false
            → HasJudged C.Channel text self.new }
        ensures found { (text : List ℕ) → HasJudged C.Channel text self.old → result ≡ Ok true
            → HasFound (waiting found.old) (waiting found.new) (findings_of text)
            (findings_of (text ++ packet_line number side octets.now)) }
        ensures unfound { result ≡ Ok false → found.new ≡ found.old }
    {
        if let Some(fault) = self.refused {
            return Err(fault);
        }
        let taken = live_packet(&mut self.live, number, side, octets, found);
        self.refused = taken.err();
        taken
    }
}
