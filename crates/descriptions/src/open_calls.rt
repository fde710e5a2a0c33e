//! Which call is open on each logical channel, and which one a row belongs to.

ghost use Rattle.std.specs.Prelude.{◌≡◌, ◌≢◌, ◌<◌, ℕ, ◌++◌, ◌∷◌, [], List, IfOk, IfSome, OnOk, Some, false, length};
ghost use Rattle.line_model.specs.basics.Records.{Item};
ghost use Rattle.line_model.specs.declared.event.Event.{Event as AnyEvent};
ghost use Rattle.line_model.specs.declared.interface.Interface.{Interface};
ghost use Rattle.restart_epochs.specs.ChannelTables.{value_at};
ghost use Rattle.restart_epochs.specs.Cutting.{observer};
ghost use Rattle.live_report.specs.JudgedRows.{IsJudgedRow};
ghost use Rattle.descriptions.specs.CallRows.{OpensAt};
ghost use Rattle.descriptions.specs.RowCalls.{AreFewCalls, AreOn, Counted, IsOn, KeepsCalls, call_of, leaves_ready, number_at, row_call};
ghost use Rattle.line_model.specs.observer.Observer.{events as events_of};

use line_model::event::{Event, How, What};
use line_model::packet::{Packet, PacketKind};
use line_model::state::{RState, Side};
use live_report::judged_row::{Judge, JudgedRow};
use restart_epochs::channel_table::ChannelTable;
use std::alloc::{AllocError, Allocator};
use std::boxed::Box;
use std::mem;

/// The calls of the logical channel that a row went to, by their numbers in the report; 0 where there is none.
#[derive(Clone, Copy)]
pub struct CallMove {
    /// The call that was open before.
    pub before: u32,
    /// The call that the row opened.
    pub opened: u32,
    /// The call that is open after it.
    pub after: u32,
    /// The call that the row's clear request or indication cleared.
    pub cleared: u32,
}

impl CallMove {
    /// Returns no call.
    fn none() -> Self
        ensures { row_call result ≡ 0 }
    {
        CallMove {
            before: 0,
            opened: 0,
            after: 0,
            cleared: 0,
        }
    }

    /// Returns the call that a row belongs to: the one that is open after it, otherwise the one that was open before
    /// it.
    pub fn of_row(&self) -> u32
        ensures { result ≡ row_call self.now }
    {
        match self.after {
            0 => self.before,
            after => after,
        }
    }
}

/// A call that a row ended.
#[derive(Clone, Copy)]
pub struct EndedCall {
    /// Its number in the report.
    pub call: u32,
    /// How it ended.
    pub how: How,
}

/// The calls of a logical channel in an epoch, by their numbers in the report; 0 where there is none.
#[derive(Clone, Copy)]
pub struct ChannelCalls {
    epoch: u32,
    /// The call that is open.
    call: u32,
    /// The last call, where the clear indication of the DCE is still to come.
    uncleared: u32,
}

impl ChannelCalls {
    /// Returns no call.
    fn none(epoch: u32) -> Self
        ensures none { number_at epoch (Some result) ≡ 0 }
        ensures epoch { result.epoch ≡ epoch }
    {
        ChannelCalls {
            epoch,
            call: 0,
            uncleared: 0,
        }
    }
}

/// Which call is open on each logical channel, as rows come.
#[derive(Drop)]
pub struct OpenCalls<A: Allocator> {
    alloc: A,
    /// How many calls were opened.
    opened: u32,
    /// The calls that the last row ended.
    ended: Vec<EndedCall, A>,
    table: ChannelTable<ChannelCalls, A>,
}

impl<A: Allocator + Copy> OpenCalls<A> {
    /// Returns the value before the first row. Allocates no memory.
    pub fn new(alloc: A) -> Self
        ensures { (i : Interface) → KeepsCalls i [] result }
    {
        OpenCalls {
            alloc,
            opened: 0,
            ended: Vec::new(alloc),
            table: ChannelTable::new(alloc),
        }
    }

    /// Returns the number of the call that is open on a channel in an epoch, or 0.
    pub fn call_on(&self, epoch: u32, channel: u16) -> u32
        ensures { result ≡ number_at epoch (value_at self.now.table channel) }
    {
        match self.table.get(channel) {
            Some(calls) if calls.epoch == epoch => calls.call,
            _ => 0,
        }
    }

    /// Returns the calls that the last row ended.
    pub fn ended(&self) -> &[EndedCall] {
        self.ended.as_slice()
    }

    /// Opens a call on a channel.
    fn open(&mut self, calls: &mut ChannelCalls)
        ensures counted { (k : ℕ) (es : List AnyEvent) (e : AnyEvent) → OpensAt calls.old.epoch k e
            → Counted calls.old.epoch k es self.old.opened calls.old.call
            → Counted calls.old.epoch k (es ++ e ∷ []) self.new.opened calls.new.call }
        ensures epoch { calls.new.epoch ≡ calls.old.epoch }
        ensures table { self.new.table ≡ self.old.table }
    {
        self.opened = self.opened.saturating_add(1);
        calls.call = self.opened;
        calls.uncleared = 0;
    }

    /// Ends the call of a channel. Fails only when memory is refused.
    fn end(&mut self, calls: &mut ChannelCalls, how: How) -> Result<(), AllocError>
        ensures call { OnOk result (calls.new.call ≡ 0) }
        ensures epoch { OnOk result (calls.new.epoch ≡ calls.old.epoch) }
        ensures opened { self.new.opened ≡ self.old.opened }
        ensures table { self.new.table ≡ self.old.table }
    {
        let call = calls.call;
        self.ended.push(EndedCall { call, how })?;
        if how == How::T || how == How::N {
            calls.uncleared = call;
        }
        calls.call = 0;
        Ok(())
    }

    /// Applies the next event of a channel. Fails only when memory is refused.
    fn apply(&mut self, calls: &mut ChannelCalls, event: &Event) -> Result<(), AllocError>
        ensures counted { (k : ℕ) (es : List AnyEvent) → IsOn calls.old.epoch k event.now
            → Counted calls.old.epoch k es self.old.opened calls.old.call → OnOk result
            (Counted calls.old.epoch k (es ++ event.now ∷ []) self.new.opened calls.new.call) }
        ensures epoch { OnOk result (calls.new.epoch ≡ calls.old.epoch) }
        ensures table { self.new.table ≡ self.old.table }
    {
        match event.what {
            What::Open { .. } => {
                self.open(calls);
                Ok(())
            }
            What::End(how) => self.end(calls, how),
            _ => Ok(()),
        }
    }

    /// Applies the events of the next row of a channel. Fails only when memory is refused.
    fn apply_row(&mut self, calls: &mut ChannelCalls, events: &[Event]) -> Result<(), AllocError>
        ensures counted { (k : ℕ) (es : List AnyEvent) → AreOn calls.old.epoch k events.now
            → Counted calls.old.epoch k es self.old.opened calls.old.call → OnOk result
            (Counted calls.old.epoch k (es ++ events.now) self.new.opened calls.new.call) }
        ensures epoch { OnOk result (calls.new.epoch ≡ calls.old.epoch) }
        ensures table { OnOk result (self.new.table ≡ self.old.table) }
    {
        for event in events {
            self.apply(calls, event)?;
        }
        Ok(())
    }

    /// Removes and returns what is kept of a channel for an epoch. Fails only when memory is refused.
    fn take_calls(&mut self, epoch: u32, channel: u16) -> Result<Box<ChannelCalls, A>, AllocError>
        ensures call { IfOk result (λ calls. calls.value.call
            ≡ number_at epoch (value_at self.old.table channel)) }
        ensures epoch { IfOk result (λ calls. calls.value.epoch ≡ epoch) }
        ensures room { OnOk result (channel < length self.new.table.open_channels) }
        ensures others { OnOk result ((k : ℕ) → k ≢ channel
            → value_at self.new.table k ≡ value_at self.old.table k) }
        ensures opened { self.new.opened ≡ self.old.opened }
    {
        match self.table.take(channel) {
            Some(mut calls) => {
                if calls.epoch != epoch {
                    *calls = ChannelCalls::none(epoch);
                }
                Ok(calls)
            }
            None => {
                self.table.list(channel)?;
                Ok(Box::new(self.alloc, ChannelCalls::none(epoch))?)
            }
        }
    }

    /// Applies a row of a channel in an epoch, with its events. Fails only when memory is refused.
    fn take_on(
        &mut self,
        epoch: u32,
        channel: u16,
        last: &JudgedRow,
        events: &[Event],
    ) -> Result<CallMove, AllocError>
        ensures counted { (es : List AnyEvent) → AreOn epoch channel events.now
            → Counted epoch channel es self.old.opened (number_at epoch (value_at self.old.table channel))
            → OnOk result (Counted epoch channel (es ++ events.now) self.new.opened
            (number_at epoch (value_at self.new.table channel))) }
        ensures before { IfOk result (λ moved. moved.before
            ≡ number_at epoch (value_at self.old.table channel)) }
        ensures after { IfOk result (λ moved. moved.after
            ≡ number_at epoch (value_at self.new.table channel)) }
        ensures epoch { OnOk result (IfSome (value_at self.new.table channel) (λ c. c.epoch ≡ epoch)) }
        ensures others { OnOk result ((k : ℕ) → k ≢ channel
            → value_at self.new.table k ≡ value_at self.old.table k) }
    {
        let mut calls = self.take_calls(epoch, channel)?;
        let (before, opened) = (calls.call, self.opened);
        self.apply_row(&mut calls, events)?;
        let cleared = if clears(last, !self.ended.is_empty()) {
            mem::replace(&mut calls.uncleared, 0)
        } else {
            0
        };
        let moved = CallMove {
            before,
            opened: if self.opened == opened {
                0
            } else {
                self.opened
            },
            after: calls.call,
            cleared,
        };
        self.table.put(channel, calls);
        Ok(moved)
    }

    /// Applies a row of an epoch that the restart machine judged, after which the epoch is the next one or the same. A
    /// confirmation that begins the next one shows a restart that was missed. Fails only when memory is refused.
    fn take_on_interface(
        &mut self,
        epoch: u32,
        next: u32,
        last: &JudgedRow,
    ) -> Result<(), AllocError>
        ensures opened { self.new.opened ≡ self.old.opened }
        ensures left { (k : ℕ) → IfSome (value_at self.new.table k)
            (λ c. value_at self.old.table k ≡ Some c) }
        ensures stays { next ≡ epoch → leaves_ready last.now.judge ≡ false
            → self.new.table ≡ self.old.table }
    {
        if next == epoch && !leaves_ready(last) {
            return Ok(());
        }
        if next != epoch && last.packet == Packet::RestartConfirm {
            self.end_all(How::Gap)
        } else {
            self.end_all(How::Restart)
        }
    }

    /// Ends all calls. Fails only when memory is refused.
    fn end_all(&mut self, how: How) -> Result<(), AllocError>
        ensures opened { self.new.opened ≡ self.old.opened }
        ensures left { (k : ℕ) → IfSome (value_at self.new.table k)
            (λ c. value_at self.old.table k ≡ Some c) }
    {
        while let Some((_, calls)) = self.table.pop_first() {
            match calls {
                Some(calls) if calls.call != 0 => {
                    let call = calls.call;
                    self.ended.push(EndedCall { call, how })?;
                }
                _ => {}
            }
        }
        Ok(())
    }

    /// Applies the next row, which is of an epoch, with the events of the channel that it went to, and returns the calls
    /// of that channel. After the row the epoch is the next one or the same. Fails only when memory is refused.
    pub fn take(
        &mut self,
        epoch: u32,
        next: u32,
        last: &JudgedRow,
        events: &[Event],
    ) -> Result<CallMove, AllocError>
        ensures kept { (i : Interface) (earlier : List Item) (r : Item) → KeepsCalls i earlier self.old
            → IsJudgedRow i earlier r last.now events.now → epoch ≡ (observer i earlier).epoch
            → next ≡ (observer i (earlier ++ r ∷ [])).epoch
            → OnOk result (KeepsCalls i (earlier ++ r ∷ []) self.new) }
        ensures call { (i : Interface) (earlier : List Item) (r : Item) → KeepsCalls i earlier self.old
            → IsJudgedRow i earlier r last.now events.now → epoch ≡ (observer i earlier).epoch
            → AreFewCalls (events_of i (earlier ++ r ∷ []))
            → IfOk result (λ moved. row_call moved ≡ call_of i earlier r) }
    {
        self.ended.clear();
        match last.channel() {
            Some(channel) => self.take_on(epoch, channel, last, events),
            None => {
                self.take_on_interface(epoch, next, last)?;
                Ok(CallMove::none())
            }
        }
    }
}

/// Whether a row is the clear request or indication that cleared the last call of its channel, where it ended a call or
/// not.
fn clears(last: &JudgedRow, ends: bool) -> bool {
    match last.packet {
        Packet::Channel {
            kind: PacketKind::Clear,
            ..
        } => last.side == Side::N || ends,
        _ => false,
    }
}

/// Whether a row left the restart machine out of r1.
pub fn leaves_ready(last: &JudgedRow) -> bool
    ensures { result ≡ leaves_ready last.now.judge }
{
    match &last.judge {
        Judge::Restart { after, .. } => match after {
            RState::R1 => false,
            RState::R2 => true,
            RState::R3 => true,
        },
        Judge::Channel { .. } => false,
    }
}
