//! What a row has of those before it: its call, and the finding that its own may follow from.

ghost use Rattle.std.specs.Prelude.{◌≡◌, ◌≢◌, ℕ, ◌++◌, ◌∷◌, [], List, IfOk, OnOk};
ghost use Rattle.std.specs.Option.{option_to_list};
ghost use Rattle.line_model.specs.channels.Channels.{Channel as AnyChannel};
ghost use Rattle.line_model.specs.basics.Records.{Item};
ghost use Rattle.line_model.specs.declared.event.Event.{Event as AnyEvent};
ghost use Rattle.line_model.specs.declared.interface.Interface.{Interface};
ghost use Rattle.restart_epochs.specs.ChannelTables.{value_at};
ghost use Rattle.restart_epochs.specs.Cutting.{observer};
ghost use Rattle.live_report.specs.JudgedRows.{IsJudgedRow};
ghost use Rattle.line_model.specs.observer.Observer.{events as events_of};
ghost use Rattle.descriptions.specs.RowCalls.{AreFewCalls, call_of, number_at, row_call};
ghost use Rattle.descriptions.specs.Follows.{KeepsOrigins, after_finding, after_packet, after_row, first_in, follows_at, is_at_rest, is_of_course, is_renewing, seen_by, unless_settled};

use crate::open_calls::{CallMove, OpenCalls};
use channel_run::run::View;
use channel_run::status_word::view_in;
use line_model::diagnostic::{
    INCONSISTENT_Q_BIT_SETTING, PACKET_TYPE_INVALID_FOR_STATE_D3, UNAUTHORIZED_INTERRUPT,
    UNAUTHORIZED_INTERRUPT_CONFIRMATION,
};
use line_model::event::Event;
use line_model::finding::Code;
use line_model::packet::{Packet, PacketKind};
use line_model::state::{ChannelState, DState, PState, Side};
use live_report::judged_row::{Judge, JudgedRow};
use restart_epochs::channel_table::ChannelTable;
use std::alloc::{AllocError, Allocator};
use std::boxed::Box;

/// Where the findings of a logical channel began.
#[derive(Clone, Copy)]
pub struct Origin {
    /// The epoch of its findings.
    epoch: u32,
    /// The number of the first one.
    first: u32,
    /// Whether the DTE has cleared or reset the channel since the last one, or confirmed that.
    by_t: bool,
    /// Whether the DCE has.
    by_n: bool,
}

/// Whether a code says that a packet does not fit what came before it on its channel.
fn is_of_course(code: Code) -> bool
    ensures { result ≡ is_of_course code }
{
    match code {
        Code::Pad(_) => true,
        Code::Number(number) => {
            number <= PACKET_TYPE_INVALID_FOR_STATE_D3
                || number == UNAUTHORIZED_INTERRUPT_CONFIRMATION
                || number == UNAUTHORIZED_INTERRUPT
                || number == INCONSISTENT_Q_BIT_SETTING
        }
    }
}

/// Whether a packet clears or resets a channel, or confirms that.
#[inline(always)]
pub fn is_renewing(packet: &Packet) -> bool
    ensures { result ≡ is_renewing packet.now }
{
    match packet {
        Packet::Channel { kind, .. } => match kind {
            PacketKind::Clear => true,
            PacketKind::ClearConfirm => true,
            PacketKind::Reset => true,
            PacketKind::ResetConfirm => true,
            _ => false,
        },
        _ => false,
    }
}

/// Whether a channel waits for no answer.
fn is_at_rest(state: ChannelState) -> bool
    ensures { result ≡ is_at_rest state }
{
    match state {
        ChannelState::Setup(state) => state == PState::P1,
        ChannelState::Transfer(state) => state == DState::D1,
        ChannelState::Unknown => false,
    }
}

/// The number of the first finding, where it is of this epoch.
fn first_in(epoch: u32, origin: Option<Origin>) -> Option<u32>
    ensures { result ≡ first_in epoch origin }
{
    match origin {
        Some(origin) => {
            if origin.epoch == epoch {
                Some(origin.first)
            } else {
                None
            }
        }
        None => None,
    }
}

/// Where the findings began, after one with this number.
fn after_finding(epoch: u32, number: u32, code: Code, origin: Option<Origin>) -> Option<Origin>
    ensures { result ≡ after_finding epoch number code origin }
{
    match code {
        Code::Pad(_) => origin,
        Code::Number(_) => Some(Origin {
            epoch,
            first: first_in(epoch, origin).unwrap_or(number),
            by_t: false,
            by_n: false,
        }),
    }
}

impl Origin {
    /// Notes that a side has cleared or reset the channel, or confirmed that.
    fn seen_by(&self, side: Side) -> Origin
        ensures { result ≡ seen_by side self.now }
    {
        let mut seen = *self;
        match side {
            Side::T => seen.by_t = true,
            Side::N => seen.by_n = true,
        }
        seen
    }

    /// None where both sides have, and the channel waits for no answer.
    fn unless_settled(&self, state: ChannelState) -> Option<Origin>
        ensures { result ≡ unless_settled state self.now }
    {
        if is_at_rest(state) && self.by_t && self.by_n {
            None
        } else {
            Some(*self)
        }
    }

    /// After a packet of a side without a finding, by what is known of its channel then.
    fn after_packet(&self, side: Side, packet: &Packet, view: &View) -> Option<Origin>
        ensures { result ≡ after_packet side packet.now view.now.state view.now.owed self.now }
    {
        if is_renewing(packet) && !view.owed {
            self.seen_by(side).unless_settled(view.state)
        } else {
            Some(*self)
        }
    }
}

/// Where the findings of the channel of a row of an epoch began, after the row; by the channel's view then.
fn after_row(epoch: u32, row: &JudgedRow, origin: Option<Origin>, view: &View) -> Option<Origin>
    ensures { (r : Item) (c : AnyChannel) → row.now.number ≡ r.number → row.now.side ≡ r.side
        → row.now.packet ≡ r.packet → view.now.state ≡ c.state → view.now.owed ≡ c.owed
        → result ≡ after_row epoch r c (option_to_list row.now.finding) origin }
{
    match row.finding {
        Some(finding) => after_finding(epoch, row.number, finding.code, origin),
        None => match origin {
            Some(origin) => origin.after_packet(row.side, &row.packet, view),
            None => None,
        },
    }
}

/// What a row has of those before it.
#[derive(Clone, Copy)]
pub struct Earlier {
    /// The epoch: the time between two restarts.
    pub epoch: u32,
    /// The number of that finding; none where the row has none, or where its own follows from none.
    pub follows: Option<u32>,
    /// The calls of the logical channel that it went to.
    pub calls: CallMove,
}

/// Where the findings of each logical channel began, and its calls.
#[derive(Drop)]
pub struct Origins<A: Allocator> {
    alloc: A,
    /// The epoch of the next row.
    epoch: u32,
    table: ChannelTable<Origin, A>,
    /// Which call is open on each logical channel.
    pub(crate) calls: OpenCalls<A>,
}

impl<A: Allocator + Copy> Origins<A> {
    /// Returns the value before the first row. Allocates no memory.
    pub fn new(alloc: A) -> Self
        ensures { (i : Interface) → KeepsOrigins i [] result }
    {
        Origins {
            alloc,
            epoch: 1,
            table: ChannelTable::new(alloc),
            calls: OpenCalls::new(alloc),
        }
    }

    /// The number of the call that is open on a channel before the next row, or 0.
    pub fn call_on(&self, channel: u16) -> u32
        ensures { result ≡ number_at self.now.epoch (value_at self.now.calls.table channel) }
    {
        self.calls.call_on(self.epoch, channel)
    }

    /// Where the findings of a channel began, if it has any.
    fn of(&self, channel: u16) -> Option<Origin>
        ensures { result ≡ value_at self.now.table channel }
    {
        match self.table.get(channel) {
            Some(origin) => Some(*origin),
            None => None,
        }
    }

    /// The finding that one of a row may follow from, by its number.
    fn follows(&self, row: &JudgedRow) -> Option<u32>
        ensures { (i : Interface) (earlier : List Item) (r : Item) (events : List AnyEvent)
            → KeepsOrigins i earlier self.now → IsJudgedRow i earlier r row.now events
            → result ≡ follows_at i earlier r row.now.finding }
    {
        let Some(finding) = row.finding else {
            return None;
        };
        match row.channel() {
            Some(channel) if is_of_course(finding.code) => first_in(self.epoch, self.of(channel)),
            _ => None,
        }
    }

    /// Notes where the findings of a channel began.
    fn put(&mut self, channel: u16, origin: Option<Origin>) -> Result<(), AllocError>
        ensures value { OnOk result (value_at self.new.table channel ≡ origin) }
        ensures others { OnOk result ((k : ℕ) → k ≢ channel
            → value_at self.new.table k ≡ value_at self.old.table k) }
        ensures epoch { self.new.epoch ≡ self.old.epoch }
        ensures calls { self.new.calls ≡ self.old.calls }
    {
        let _ = self.table.take(channel);
        let Some(origin) = origin else {
            return Ok(());
        };
        self.table.list(channel)?;
        let kept = Box::new(self.alloc, origin)?;
        self.table.put(channel, kept);
        Ok(())
    }

    /// Takes the next row, with the events of the channel that it went to, after which the epoch is this one, and returns
    /// what it has of the rows before. Fails only when memory is refused.
    pub fn take(
        &mut self,
        row: &JudgedRow,
        events: &[Event],
        epoch: u32,
    ) -> Result<Earlier, AllocError>
        ensures epoch { (i : Interface) (earlier : List Item) → KeepsOrigins i earlier self.old
            → IfOk result (λ past. past.epoch ≡ (observer i earlier).epoch) }
        ensures follows { (i : Interface) (earlier : List Item) (r : Item)
            → KeepsOrigins i earlier self.old → IsJudgedRow i earlier r row.now events.now
            → IfOk result (λ past. past.follows ≡ follows_at i earlier r row.now.finding) }
        ensures call { (i : Interface) (earlier : List Item) (r : Item)
            → KeepsOrigins i earlier self.old → IsJudgedRow i earlier r row.now events.now
            → AreFewCalls (events_of i (earlier ++ r ∷ []))
            → IfOk result (λ past. row_call past.calls ≡ call_of i earlier r) }
        ensures kept { (i : Interface) (earlier : List Item) (r : Item)
            → KeepsOrigins i earlier self.old → IsJudgedRow i earlier r row.now events.now
            → epoch ≡ (observer i (earlier ++ r ∷ [])).epoch
            → OnOk result (KeepsOrigins i (earlier ++ r ∷ []) self.new) }
    {
        let follows = self.follows(row);
        let calls = self.calls.take(self.epoch, epoch, row, events)?;
        let earlier = Earlier {
            epoch: self.epoch,
            follows,
            calls,
        };
        self.epoch = epoch;
        let Judge::Channel { channel, after, .. } = &row.judge else {
            return Ok(earlier);
        };
        let origin = self.of(*channel);
        let next = after_row(earlier.epoch, row, origin, &view_in(after));
        self.put(*channel, next)?;
        Ok(earlier)
    }
}
