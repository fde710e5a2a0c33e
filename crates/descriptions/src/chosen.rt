//! Which rows are printed.

ghost use Rattle.std.specs.Prelude.{◌≡◌, ℕ, ◌++◌, ◌∷◌, [], List, IfSome, IsTrue, None, is_some};
ghost use Rattle.line_model.specs.declared.event.Event.{Event};
ghost use Rattle.line_model.specs.declared.interface.Interface.{Interface};
ghost use Rattle.line_model.specs.basics.Records.{Item};
ghost use Rattle.line_model.specs.observer.Machine.{steps_all};
ghost use Rattle.line_model.specs.observer.Observer.{x25};
ghost use Rattle.line_model.specs.text.Text.{Line, ended_lines, head_of};
ghost use Rattle.restart_epochs.specs.Cutting.{observer};
ghost use Rattle.live_report.specs.JudgedRows.{IsJudgedRow, taker};
ghost use Rattle.live_report.specs.Lives.{KeepsRowsOf};
ghost use Rattle.live_report.specs.Observing.{HasKept, HasWalked};
ghost use Rattle.annotated_trace.specs.Rows.{asked_call, is_of_call, is_chosen};
ghost use Rattle.line_model.specs.packets.Says.{gap_of};
ghost use Rattle.descriptions.specs.CallRows.{Follows, steps_each};
ghost use Rattle.descriptions.specs.Choosing.{HasChosen, picked_by_line};

use crate::call_rows::CallRows;
use crate::facts::is_gap_of_all;
use annotated_trace::rows::Rows;
use channel_run::run::Channel;
use line_model::packet::Packet;
use line_model::state::RState;
use live_report::judged_row::{Judge, JudgedRow};
use live_report::live::Live;
use live_report::observer::Observer;
use std::alloc::Allocator;

/// Whether a packet is a gap of all channels that reaches each, by the state of the restart machine before it.
fn steps_each(before: RState, packet: &Packet) -> bool
    ensures { result ≡ steps_each (gap_of packet.now) before }
{
    match before {
        RState::R1 => is_gap_of_all(packet),
        RState::R2 => false,
        RState::R3 => false,
    }
}

/// Whether a row that went to no logical channel is a gap of all channels that reached each.
fn reaches_each(last: &JudgedRow) -> bool
    ensures { (i : Interface) (before : List Item) (r : Item) (events : List Event)
        → taker last.now.judge ≡ None → IsJudgedRow i before r last.now events
        → result ≡ steps_all (x25 i) (observer i before).level r }
{
    match &last.judge {
        Judge::Restart { before, .. } => steps_each(*before, &last.packet),
        Judge::Channel { .. } => false,
    }
}

/// Whether the observer's last row is one of a call's.
#[inline(always)]
fn judge_call<A: Allocator + Copy, C: Channel<A>>(
    call: &mut CallRows,
    observer: &Observer<A, C>,
    last: &JudgedRow,
) -> bool
    ensures of_call { (i : Interface) (before : List Item) (r : Item) → Follows i before call.old
        → HasWalked C.Channel i (before ++ r ∷ []) observer.now
        → IsJudgedRow i before r last.now observer.now.events.items
        → result ≡ is_of_call i before r call.old.number }
    ensures follows { (i : Interface) (before : List Item) (r : Item) → Follows i before call.old
        → HasWalked C.Channel i (before ++ r ∷ []) observer.now
        → IsJudgedRow i before r last.now observer.now.events.items
        → Follows i (before ++ r ∷ []) call.new }
    ensures number { call.new.number ≡ call.old.number }
{
    match last.channel() {
        Some(channel) => call.apply_row(observer.epoch(), channel, observer.events()),
        None => reaches_each(last) && call.is_open_in(observer.epoch()),
    }
}

/// The rows that are printed, how many rows were judged, and the call that is named.
#[derive(Clone, Copy)]
pub(crate) struct Chosen {
    rows: Rows,
    packets: u32,
    call: CallRows,
}

impl Chosen {
    /// Returns the value before the first line.
    pub(crate) fn new(rows: Rows) -> Self
        ensures chosen { HasChosen [] result }
        ensures rows { result.rows ≡ rows }
    {
        Chosen {
            rows,
            packets: 0,
            call: CallRows::new(rows.asked_call()),
        }
    }

    /// Returns the rows that are printed.
    pub(crate) fn rows(&self) -> Rows
        ensures { result ≡ self.now.rows }
    {
        self.rows
    }

    /// Judges the next row, the observer's last one, and returns whether it is printed.
    #[inline(always)]
    fn judge<A: Allocator + Copy, C: Channel<A>>(&mut self, observer: &Observer<A, C>) -> bool
        ensures picked { (i : Interface) (before : List Item) (r : Item)
            → Follows i before self.old.call
            → self.old.call.number ≡ asked_call self.old.rows
            → HasKept C.Channel i (before ++ r ∷ []) observer.now
            → result ≡ is_chosen self.old.rows i before r }
        ensures follows { (i : Interface) (before : List Item) (r : Item)
            → Follows i before self.old.call
            → HasKept C.Channel i (before ++ r ∷ []) observer.now
            → Follows i (before ++ r ∷ []) self.new.call }
        ensures number { self.new.call.number ≡ self.old.call.number }
        ensures rows { self.new.rows ≡ self.old.rows }
        ensures packets { self.new.packets ≡ self.old.packets }
    {
        let Some(last) = observer.last_row() else {
            return false;
        };
        let of_call = judge_call(&mut self.call, observer, last);
        self.rows.chooses(&last.packet, of_call)
    }

    /// Judges the next line, the last one of a trace, and returns whether it writes a row that is printed; none where
    /// it writes no row.
    #[inline(always)]
    pub(crate) fn judge_line<A: Allocator + Copy, C: Channel<A>>(
        &mut self,
        trace: &Live<A, C>,
    ) -> Option<bool>
        ensures picked { (before : List Line) (line : Line) (text : List ℕ)
            → HasChosen before self.old → KeepsRowsOf C.Channel text trace.now
            → ended_lines text ≡ before ++ line ∷ []
            → result ≡ picked_by_line self.old before line }
        ensures headed { (before : List Line) (line : Line) (text : List ℕ)
            → HasChosen before self.old → KeepsRowsOf C.Channel text trace.now
            → ended_lines text ≡ before ++ line ∷ []
            → IfSome result (λ picked. IsTrue (is_some (head_of before))) }
        ensures chosen { (before : List Line) (line : Line) (text : List ℕ)
            → HasChosen before self.old → KeepsRowsOf C.Channel text trace.now
            → ended_lines text ≡ before ++ line ∷ []
            → HasChosen (before ++ line ∷ []) self.new }
        ensures rows { self.new.rows ≡ self.old.rows }
    {
        let Some(observer) = trace.observer() else {
            return None;
        };
        if observer.packets() == self.packets {
            return None;
        }
        self.packets = observer.packets();
        let picked = self.judge(observer);
        Some(picked)
    }
}
