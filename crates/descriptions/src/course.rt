//! What is kept of the rows before: the sequences of data that PAD calls have begun.

ghost use Rattle.std.specs.Prelude.{◌≡◌, ◌<◌, [], ℕ, List, None, OnOk, Some, length};
ghost use Rattle.line_model.specs.basics.Records.{Item};
ghost use Rattle.line_model.specs.declared.interface.Interface.{Interface as AnyInterface};
ghost use Rattle.line_model.specs.observer.Calls.{all_lengths};
ghost use Rattle.restart_epochs.specs.Cutting.{observer, observer as observer_of};
ghost use Rattle.live_report.specs.JudgedRows.{IsJudgedRow, taker};
ghost use Rattle.live_report.specs.Uncounted.{reason_at};
ghost use Rattle.descriptions.specs.Facts.{AreFactsOf, IsFateOf, reason_in};
ghost use Rattle.descriptions.specs.Follows.{follows_at};
ghost use Rattle.descriptions.specs.RowCalls.{call_of, row_call};

use crate::facts::{Fate, RowFacts, counted_in, is_adrift, user_data};
use crate::open_calls::leaves_ready;
use crate::origins::Earlier;
use channel_run::run::Channel;
use channel_run::status_word::{state_in, view_in};
use data_transfer::assembler::Assembler;
use data_transfer::packed::FlowWord;
use data_transfer::sequence::{DataField, Put, UserData};
use line_model::event::Event;
use line_model::interface::Interface;
use line_model::row::ReadRow;
use line_model::state::{ChannelState, DState, RState, Side};
use live_report::judged_row::{Judge, JudgedRow};
use live_report::observer::Observer;
use live_report::uncounted::reason_of;
use restart_epochs::channel_table::ChannelTable;
use std::alloc::{AllocError, Allocator};
use std::boxed::Box;

/// What is kept of a logical channel.
#[derive(Drop)]
struct KnownChannel<A: Allocator> {
    /// Whether it was adrift since its call was opened.
    had_gap: bool,
    /// The sequences of data packets that its PAD call has begun.
    sequences: Assembler<A>,
}

impl<A: Allocator + Copy> KnownChannel<A> {
    /// Adds the data of a row that may be of a PAD message, and returns the message that it completes, if it does; none in
    /// a call that had a gap.
    fn message(
        &mut self,
        alloc: A,
        side: Side,
        data: Option<DataField<'_>>,
    ) -> Result<Option<Vec<u8, A>>, AllocError> {
        let Some(data) = data else {
            return Ok(None);
        };
        if self.had_gap {
            return Ok(None);
        }
        match self.sequences.put(side, &data) {
            Ok(Put::Complete(sequence)) => {
                if !sequence.qualified {
                    return Ok(None);
                }
                match sequence.octets {
                    UserData::OfOne(octets) => Ok(Some(Vec::from_slice(alloc, octets)?)),
                    UserData::OfSeveral(octets) => Ok(Some(octets)),
                }
            }
            Ok(_) => Ok(None),
            Err(_) => Err(AllocError),
        }
    }

    /// Notes whether its call had a gap, after a row that opened the call or not.
    fn note_gap(&mut self, last: &JudgedRow, opens: bool) {
        if let Judge::Channel { before, after, .. } = &last.judge {
            let had_gap = self.had_gap && !opens;
            self.had_gap = had_gap || is_adrift(before) || is_adrift(after);
        }
    }

    /// Forgets the sequences that were begun where a row didn't leave the channel in d1.
    fn settle(&mut self, last: &JudgedRow) {
        let Judge::Channel { before, after, .. } = &last.judge else {
            return;
        };
        if !is_d1(before) || !is_d1(after) {
            let view = view_in(after);
            self.sequences.renew(view.size_t, view.size_n);
        }
    }
}

/// Whether a channel is known to be in d1, by its word.
fn is_d1(word: &FlowWord) -> bool {
    state_in(word.owner_bits()) == ChannelState::Transfer(DState::D1) && !is_adrift(word)
}

/// What is kept of the rows so far.
#[derive(Drop)]
pub struct Course<A: Allocator> {
    alloc: A,
    /// The channel of the last row had a gap in its call.
    had_gap: bool,
    /// The PAD message that the last row completed.
    message: Option<Vec<u8, A>>,
    /// The last row ended an epoch and began the next one at once.
    renews: bool,
    known_channels: ChannelTable<KnownChannel<A>, A>,
}

impl<A: Allocator + Copy> Course<A> {
    /// Returns the value before the first row. Allocates no memory.
    pub fn new(alloc: A) -> Self {
        Course {
            alloc,
            had_gap: false,
            message: None,
            renews: false,
            known_channels: ChannelTable::new(alloc),
        }
    }

    /// Applies the last row of an observer, with what it has of those before it. Fails only when memory is refused.
    pub fn take<C: Channel<A>>(
        &mut self,
        interface: &Interface,
        octets: &[u8],
        last: &JudgedRow,
        observer: &Observer<A, C>,
        earlier: &Earlier,
    ) -> Result<(), AllocError> {
        self.renews = earlier.epoch != observer.epoch() && is_in_r1(last);
        self.had_gap = false;
        self.message = None;
        match last.channel() {
            Some(channel) => {
                let mut known = self.take_known(channel, interface.size)?;
                let events = observer.events();
                known.note_gap(last, earlier.calls.opened != 0);
                self.had_gap = known.had_gap;
                let data = pad_data(interface, octets, last, events);
                self.message = known.message(self.alloc, last.side, data)?;
                known.settle(last);
                self.known_channels.put(channel, known);
                Ok(())
            }
            None => {
                if self.renews || leaves_ready(last) {
                    self.forget_all();
                }
                Ok(())
            }
        }
    }

    /// Returns the facts of the last row of an observer, which was applied, with what it has of those before it.
    pub fn facts<'a, C: Channel<A>>(
        &'a self,
        interface: &'a Interface,
        row: &'a ReadRow<A>,
        last: &'a JudgedRow,
        observer: &'a Observer<A, C>,
        earlier: Earlier,
    ) -> RowFacts<'a>
        ensures facts { (i : AnyInterface) (rows : List Item) (r : Item)
            → IsJudgedRow i rows r last.now observer.now.events.items
            → earlier.epoch ≡ (observer_of i rows).epoch
            → earlier.follows ≡ follows_at i rows r last.now.finding
            → row_call earlier.calls ≡ call_of i rows r
            → AreFactsOf i rows r result }
        ensures length { result.length ≡ row.now.length }
    {
        let events = events_of(last, observer);
        RowFacts {
            interface,
            length: row.length,
            octets: row.octets.as_slice(),
            last,
            earlier,
            events,
            calls: earlier.calls,
            fate: fate(last, events),
            message: match &self.message {
                Some(octets) => Some(octets.as_slice()),
                None => None,
            },
            renews: self.renews,
            had_gap: self.had_gap,
        }
    }

    /// Removes and returns what is kept of a channel; this packet size is in force where it has no row.
    fn take_known(&mut self, channel: u16, size: u16) -> Result<Box<KnownChannel<A>, A>, AllocError>
        ensures room { OnOk result (channel < length self.new.known_channels.open_channels) }
    {
        match self.known_channels.take(channel) {
            Some(known) => Ok(known),
            None => {
                self.known_channels.list(channel)?;
                let known = KnownChannel {
                    had_gap: false,
                    sequences: Assembler::new(self.alloc, size, size),
                };
                Ok(Box::new(self.alloc, known)?)
            }
        }
    }

    /// Forgets all channels.
    fn forget_all(&mut self) {
        while self.known_channels.pop_first().is_some() {}
    }
}

/// The events of the channel that a row went to.
fn events_of<'a, A: Allocator + Copy, C: Channel<A>>(
    last: &JudgedRow,
    observer: &'a Observer<A, C>,
) -> &'a [Event]
    ensures taken { (k : ℕ) → taker last.now.judge ≡ Some k → result.now ≡ observer.now.events.items }
    ensures untaken { taker last.now.judge ≡ None → result.now ≡ [] }
{
    match last.channel() {
        Some(_) => observer.events(),
        None => &[],
    }
}

/// What became of the data of a row with these events.
fn fate(last: &JudgedRow, events: &[Event]) -> Fate
    ensures counted { IsFateOf (all_lengths events.now) result }
    ensures reason { (i : AnyInterface) (earlier : List Item) (r : Item)
        → IsJudgedRow i earlier r last.now events.now → (taker last.now.judge ≡ None → events.now ≡ [])
        → reason_in result ≡ reason_at i (observer i earlier) r }
{
    match counted_in(events) {
        Some(counted) => counted,
        None => match reason_of(last, events) {
            Some(reason) => Fate::NotCounted(reason),
            None => Fate::NoData,
        },
    }
}

/// Whether the restart machine was in r1 before a row and after it.
fn is_in_r1(last: &JudgedRow) -> bool {
    match last.judge {
        Judge::Restart { before, after } => before == RState::R1 && after == RState::R1,
        Judge::Channel { .. } => false,
    }
}

/// Returns the data of a row of a PAD call, where it was counted and has Q 1, as messages do. Data with Q 0 belongs to
/// other sequences: within a message it is a finding, and is not counted.
fn pad_data<'a>(
    interface: &Interface,
    octets: &'a [u8],
    last: &JudgedRow,
    events: &[Event],
) -> Option<DataField<'a>> {
    let Judge::Channel { before, .. } = &last.judge else {
        return None;
    };
    if !view_in(before).pad_call || counted_in(events).is_none() {
        return None;
    }
    let header = last.packet.data_header()?;
    if !header.qualified {
        return None;
    }
    Some(DataField {
        qualified: header.qualified,
        more: header.more,
        delivery: header.delivery,
        octets: user_data(interface, octets),
    })
}
