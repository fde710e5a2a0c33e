//! Which rows are those of one call.

ghost use Rattle.std.specs.Prelude.{◌≡◌, ◌++◌, ◌∷◌, ◌||◌, [], List};
ghost use Rattle.std.specs.List.{AllByRecursion};
ghost use Rattle.line_model.specs.declared.event.Event.{Event as AnyEvent};
ghost use Rattle.line_model.specs.declared.interface.Interface.{Interface};
ghost use Rattle.line_model.specs.observer.Calls.{calls_of};
ghost use Rattle.annotated_trace.specs.Rows.{has_open};
ghost use Rattle.descriptions.specs.CallRows.{EndsAt, Follows, IsAfter, OpensAt, is_at, is_in};

use line_model::event::{Event, What};

/// Where a call is open.
#[derive(Clone, Copy)]
struct Place {
    epoch: u32,
    channel: u16,
}

/// A call by its number in the report: whether it is open, and where.
#[derive(Clone, Copy)]
pub(crate) struct CallRows {
    /// Counted from 1; 0 means no call.
    number: u32,
    /// How many calls are still to be opened up to this one.
    to_come: u32,
    place: Option<Place>,
}

impl CallRows {
    /// Returns the call of a number, before the first row of a trace.
    pub(crate) fn new(number: u32) -> Self
        ensures follows { (i : Interface) → Follows i [] result }
        ensures number { result.number ≡ number }
    {
        CallRows {
            number,
            to_come: number,
            place: None,
        }
    }

    /// Whether it is open on a logical channel in an epoch.
    fn is_open(&self, epoch: u32, channel: u16) -> bool
        ensures { result ≡ is_at epoch channel self.now.place }
    {
        match self.place {
            Some(place) => place.epoch == epoch && place.channel == channel,
            None => false,
        }
    }

    /// Whether it is open in an epoch.
    pub(crate) fn is_open_in(&self, epoch: u32) -> bool
        ensures { result ≡ is_in epoch self.now.place }
    {
        match self.place {
            Some(place) => place.epoch == epoch,
            None => false,
        }
    }

    /// Records that a call is opened.
    fn open(&mut self, epoch: u32, channel: u16)
        ensures applied { (es : List AnyEvent) (e : AnyEvent) → OpensAt epoch channel e
            → IsAfter epoch es self.old
            → IsAfter epoch (es ++ e ∷ []) self.new }
        ensures number { self.new.number ≡ self.old.number }
    {
        if self.to_come == 1 {
            self.place = Some(Place { epoch, channel });
            self.to_come = 0;
        } else {
            self.to_come = self.to_come.saturating_sub(1);
        }
    }

    /// Records the end of the call that is open on a logical channel.
    fn end(&mut self, epoch: u32, channel: u16)
        ensures applied { (es : List AnyEvent) (e : AnyEvent) → EndsAt epoch channel e
            → IsAfter epoch es self.old
            → IsAfter epoch (es ++ e ∷ []) self.new }
        ensures number { self.new.number ≡ self.old.number }
    {
        if self.is_open(epoch, channel) {
            self.place = None;
        }
    }

    /// Applies the next event of an epoch.
    fn apply(&mut self, event: &Event)
        ensures applied { (es : List AnyEvent) → IsAfter event.now.epoch es self.old
            → IsAfter event.now.epoch (es ++ event.now ∷ []) self.new }
        ensures number { self.new.number ≡ self.old.number }
    {
        match event.what {
            What::Open { .. } => self.open(event.epoch, event.channel),
            What::End(_) => self.end(event.epoch, event.channel),
            _ => {}
        }
    }

    /// Applies the events of the next row of a logical channel, and returns whether the row is one of the call's.
    pub(crate) fn apply_row(&mut self, epoch: u32, channel: u16, events: &[Event]) -> bool
        ensures of_call { (es : List AnyEvent) → AllByRecursion (λ f. f.epoch ≡ epoch) events.now
            → IsAfter epoch es self.old
            → result ≡ (has_open self.old.number epoch channel (calls_of es)
            || has_open self.old.number epoch channel (calls_of (es ++ events.now))) }
        ensures applied { (es : List AnyEvent) → AllByRecursion (λ f. f.epoch ≡ epoch) events.now
            → IsAfter epoch es self.old → IsAfter epoch (es ++ events.now) self.new }
        ensures number { self.new.number ≡ self.old.number }
    {
        let was_open = self.is_open(epoch, channel);
        for event in events {
            self.apply(event);
        }
        let is_open = self.is_open(epoch, channel);
        was_open || is_open
    }
}
