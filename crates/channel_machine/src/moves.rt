//! The moves of a channel through the states, and what they do to its call.

ghost use Rattle.std.specs.Prelude.{◌≡◌, List, ℕ, None, IfOk, IfNone, false};
ghost use Rattle.line_model.specs.channels.Channels.{Channel};
ghost use Rattle.line_model.specs.packets.Facilities.{fields_of};
ghost use Rattle.line_model.specs.channels.ChannelStep.{entering, changing, call_change};
ghost use Rattle.line_model.specs.channels.Verdicts.CallChange.{Opens, GoesUp};
ghost use Rattle.packet_decode.specs.Shown.{shown, IsUsable};
ghost use Rattle.channel_machine.specs.Reached.{IsUnanswered};
ghost use Rattle.channel_machine.specs.Contents.{AreOf, AreUsable};
ghost use Rattle.line_model.specs.basics.Records.{Item};
ghost use Rattle.line_model.specs.packets.Classes.{packet_class};
ghost use Rattle.line_model.specs.declared.interface.Interface.{Interface};
ghost use Rattle.channel_machine.specs.Channels.{StatusRepresents, Does, IsUnchanged, IsMemory};
ghost use Rattle.channel_machine.specs.Moves.{IsChange, TakesUsable, leaving};

use crate::channel::StatusChannel;
use crate::events::EventOrigin;
use crate::format::Contents;
use crate::status::StatusStore;
use crate::terms::Terms;
use line_model::event::{Event, How, What};
use line_model::fault::Fault;
use line_model::state::{Side, StateName};
use packet_decode::fields::CallFields;
use std::alloc::Allocator;

/// What a move does to the call of its channel, with the fields that it uses, where they were read.
#[derive(Clone, Copy)]
pub(crate) enum Change<'a, 'o> {
    /// A call is opened, outgoing or not.
    Opens(bool, &'a CallFields<'o>),
    /// The call comes into p4.
    GoesUp(&'a CallFields<'o>),
    /// The call ends.
    Ends(How),
    /// The call stays as it is.
    Keeps,
}

/// Returns what a move by a packet does to the call.
pub(crate) fn change_of<'a, 'o>(
    side: Side,
    contents: &'a Contents<'o>,
    to: StateName,
) -> Change<'a, 'o>
    ensures change { (item : Item) → AreOf contents.now item
        → IsChange result (call_change side (packet_class item.packet) to) item.octets }
    ensures usable { (i : Interface) → AreUsable contents.now i → TakesUsable result i }
{
    match contents {
        Contents::Call(fields) => match side {
            Side::T => Change::Opens(true, fields),
            Side::N => match to {
                StateName::P3 => Change::Opens(false, fields),
                _ => leaving(to),
            },
        },
        Contents::Accepted(fields) => match to {
            StateName::P4 => Change::GoesUp(fields),
            _ => leaving(to),
        },
        Contents::Other => leaving(to),
    }
}

/// What a move does to the call by its state alone.
fn leaving(to: StateName) -> Change<'static, 'static>
    ensures change { (xs : List ℕ) → IsChange result (leaving to) xs }
    ensures usable { (i : Interface) → TakesUsable result i }
{
    match to {
        StateName::P6 => Change::Ends(How::T),
        StateName::P7 => Change::Ends(How::N),
        _ => Change::Keeps,
    }
}

impl<A: Allocator + Clone, S: StatusStore> StatusChannel<A, S> {
    /// Enters a state, where a call is opened.
    #[inline(always)]
    pub(crate) fn open(
        &mut self,
        origin: EventOrigin,
        out: bool,
        fields: &CallFields<'_>,
        to: StateName,
        events: &mut Vec<Event, A>,
    ) -> Result<(), Fault>
        requires usable { IsUsable self.old.terms.interface fields.now }
        ensures does { (c : Channel) (xs : List ℕ) → shown fields.now ≡ fields_of xs
            → IfNone c.opening (c.accepting ≡ None) → StatusRepresents self.old c
            → IfOk result (λ _. Does origin self.old self.new events.old.items events.new.items
            (changing xs (Opens out) (entering to false c))) }
        ensures unchanged { IsUnchanged result self.old self.new events.old.items events.new.items }
        ensures memory { IsMemory result }
    {
        events.reserve(2)?;
        self.end(origin, How::Collision, to, false, events);
        events.push_reserved(origin.event(What::Open {
            out,
            called: fields.called.copied(),
            calling: fields.calling.copied(),
            reverse: fields.reverse,
        }));
        let terms = Terms::opened(self.status.interface(), out, fields);
        self.enter(to, false, &terms);
        Ok(())
    }

    /// Enters a state, where a call comes up.
    #[inline(always)]
    pub(crate) fn go_up(
        &mut self,
        origin: EventOrigin,
        fields: &CallFields<'_>,
        to: StateName,
        events: &mut Vec<Event, A>,
    ) -> Result<(), Fault>
        requires usable { IsUsable self.old.terms.interface fields.now }
        ensures does { (c : Channel) (xs : List ℕ) → shown fields.now ≡ fields_of xs
            → IsUnanswered c → StatusRepresents self.old c
            → IfOk result (λ _. Does origin self.old self.new events.old.items events.new.items
            (changing xs GoesUp (entering to false c))) }
        ensures unchanged { IsUnchanged result self.old self.new events.old.items events.new.items }
        ensures memory { IsMemory result }
    {
        events.reserve(1)?;
        events.push_reserved(origin.event(What::Up));
        let terms = self.status.terms().accepted(fields);
        self.enter(to, false, &terms);
        Ok(())
    }
}
