//! What is known of the parameters of one PAD (X.3).

ghost use Rattle.std.specs.Prelude.{◌≡◌, ◌≤◌, ◌<◌, ◌-◌, ◌+◌, ◌∷◌, ◌++◌, List, [], ℕ, Some, false, flat_map};
ghost use Rattle.std.specs.List.{list_any};
ghost use Rattle.line_model.specs.channels.Channels.{PadMessage};
ghost use Rattle.line_model.specs.declared.event.What.{What};
ghost use Rattle.line_model.specs.channels.Pad.{is_refusable, is_parameter};
ghost use Rattle.pad.specs.Pairs.{shown};
ghost use Rattle.pad.specs.Effects.{own_fault, entry_at, events_of, indicated_one, asked_one};

use crate::concern::{Concern, concern_of};
use crate::message::Message;
use crate::pairs::{Pair, Pairs};
use crate::values::{is_parameter, is_refused};
use line_model::event::Entry;
use line_model::finding::Xcode;
use line_model::state::Side;

/// What is known of parameters 1 to 22 of the PAD of a side, and whether it was asked anything. Contracts are about the
/// list of messages that were applied, which is not stored.
#[derive(Drop)]
pub struct Settings {
    pad: Side,
    asked: bool,
    entries: [Entry; 22],
}

impl Settings {
    ghost use Rattle.pad.specs.Represents.{Represents, HasEntries};
    ghost use Rattle.pad.specs.MessageEvents.{pad_message, set_fault, set_events};
    ghost use Rattle.line_model.specs.channels.FlowControl.{is_side};

    /// Returns the settings of the PAD of a side, of which nothing is known.
    pub fn new(pad: Side) -> Settings
        ensures pad { result.pad ≡ pad }
        ensures represented { Represents result [] }
    {
        Settings {
            pad,
            asked: false,
            entries: [Entry::Unknown; 22],
        }
    }

    /// Returns what is known of a parameter, 1 to 22: what the last message about it says.
    pub fn get(&self, parameter: u8) -> Entry
        requires { (1 ≤ parameter) × (parameter ≤ 22) }
        ensures { (ts : List PadMessage) → Represents self.now ts
            → result ≡ entry_at self.now.pad parameter (events_of ts) }
    {
        let place = usize::from(parameter) - 1;
        self.entries[place]
    }

    /// Applies a message of the call from a side, and returns its fault after the messages before it (X.29 clause 4;
    /// the codes are profile). X4 is an indication from a PAD that was asked nothing before, and changes nothing. X3 is
    /// a set, or set and read, with a parameter or value that can't be set; it is applied all the same. A message that
    /// is neither for this PAD nor an indication from it has no fault.
    pub fn apply(&mut self, message: &Message<'_>, from: Side) -> Option<Xcode>
        ensures pad { self.new.pad ≡ self.old.pad }
        ensures fault { (ts : List PadMessage) → Represents self.old ts
            → result ≡ own_fault self.old.pad ts (pad_message from message.now) }
        ensures represented { (ts : List PadMessage) → Represents self.old ts
            → Represents self.new (ts ++ pad_message from message.now ∷ []) }
        ensures unchanged { result ≡ Some Xcode.X4 → self.new ≡ self.old }
    {
        match concern_of(self.is_own(from), message.code) {
            Concern::Indicates => {
                if !self.asked {
                    return Some(Xcode::X4);
                }
                self.indicate(Pairs::new(true, message.pairs));
                None
            }
            Concern::Sets => {
                self.asked = true;
                self.set(message.pairs)
            }
            Concern::Reads => {
                self.asked = true;
                None
            }
            Concern::Nothing => None,
        }
    }

    /// Returns whether a side is that of the PAD.
    fn is_own(&self, side: Side) -> bool
        ensures { result ≡ is_side self.now.pad side }
    {
        self.pad == side
    }

    /// Applies the octets after the code of a set. Without octets, forgets what is known.
    fn set(&mut self, octets: &[u8]) -> Option<Xcode>
        ensures pad { self.new.pad ≡ self.old.pad }
        ensures asked { self.new.asked ≡ self.old.asked }
        ensures has_entries { (ws : List What) → HasEntries self.old ws
            → HasEntries self.new (ws ++ set_events self.old.pad octets.now) }
        ensures fault { result ≡ set_fault octets.now }
    {
        if octets.is_empty() {
            self.forget();
            return None;
        }
        self.ask(Pairs::new(false, octets));
        if is_refused(Pairs::new(false, octets)) {
            Some(Xcode::X3)
        } else {
            None
        }
    }

    /// Forgets what is known.
    fn forget(&mut self)
        ensures pad { self.new.pad ≡ self.old.pad }
        ensures asked { self.new.asked ≡ self.old.asked }
        ensures has_entries { (ws : List What) → HasEntries self.new (ws ++ What.Initial self.old.pad ∷ []) }
    {
        self.entries = [Entry::Unknown; 22];
    }

    /// Applies the pairs of a set.
    fn ask(&mut self, pairs: Pairs<'_>)
        ensures pad { self.new.pad ≡ self.old.pad }
        ensures asked { self.new.asked ≡ self.old.asked }
        ensures has_entries { (ws : List What) → HasEntries self.old ws
            → HasEntries self.new (ws ++ flat_map (asked_one self.old.pad) pairs.entry) }
    {
        for pair in pairs {
            self.ask_one(pair);
        }
    }

    /// Applies a pair of a set.
    fn ask_one(&mut self, pair: Pair)
        ensures pad { self.new.pad ≡ self.old.pad }
        ensures asked { self.new.asked ≡ self.old.asked }
        ensures has_entries { (ws : List What) → HasEntries self.old ws
            → HasEntries self.new (ws ++ asked_one self.old.pad (shown pair)) }
    {
        if is_parameter(pair.reference) {
            self.enter(pair.reference, Entry::Asked(pair.value));
        }
    }

    /// Applies the pairs of an indication.
    fn indicate(&mut self, pairs: Pairs<'_>)
        ensures pad { self.new.pad ≡ self.old.pad }
        ensures asked { self.new.asked ≡ self.old.asked }
        ensures has_entries { (ws : List What) → HasEntries self.old ws
            → HasEntries self.new (ws ++ flat_map (indicated_one self.old.pad) pairs.entry) }
    {
        for pair in pairs {
            self.indicate_one(pair);
        }
    }

    /// Applies a pair of an indication, whose reference has the error mark or not.
    fn indicate_one(&mut self, pair: Pair)
        ensures pad { self.new.pad ≡ self.old.pad }
        ensures asked { self.new.asked ≡ self.old.asked }
        ensures has_entries { (ws : List What) → HasEntries self.old ws
            → HasEntries self.new (ws ++ indicated_one self.old.pad (shown pair)) }
    {
        let parameter = pair.reference % 128;
        if is_parameter(parameter) {
            let entry = if pair.reference >= 128 {
                Entry::Refused(pair.value)
            } else {
                Entry::Said(pair.value)
            };
            self.enter(parameter, entry);
        }
    }

    /// Records what a pair says of a parameter.
    fn enter(&mut self, parameter: u8, entry: Entry)
        requires { (1 ≤ parameter) × (parameter ≤ 22) }
        ensures pad { self.new.pad ≡ self.old.pad }
        ensures asked { self.new.asked ≡ self.old.asked }
        ensures has_entries { (ws : List What) → HasEntries self.old ws
            → HasEntries self.new (ws ++ What.Setting self.old.pad parameter entry ∷ []) }
    {
        self.entries[usize::from(parameter) - 1] = entry;
    }
}
