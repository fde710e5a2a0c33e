//! What is counted of a call so far.

ghost use Rattle.std.specs.Prelude.{◌≡◌, List, [], ◌∷◌, IfOk};
ghost use Rattle.line_model.specs.declared.event.Event.{Event};
ghost use Rattle.line_model.specs.declared.event.What.TheVariants.{Data, Setting, Initial};
ghost use Rattle.line_model.specs.observer.Calls.{all_lengths, segments_of, settings_of};
ghost use Rattle.call_accounts.specs.Counted.{Counts, Adds};

use crate::pad_table::PadTable;
use line_model::call::SettingRecord;
use line_model::event::{Entry, Event, What};
use line_model::state::Side;
use std::alloc::{AllocError, Allocator};

/// What is counted of a call so far.
#[derive(Clone, Copy)]
pub struct CallCounts {
    /// The packet that brought the call into p4, if one did.
    pub up: Option<u32>,
    /// Data packets of the DTE.
    pub data_t: u64,
    /// Octets of the DTE.
    pub oct_t: u64,
    /// Data packets of the DCE.
    pub data_n: u64,
    /// Octets of the DCE.
    pub oct_n: u64,
    /// Segments of 64 octets of both sides.
    pub segments: u64,
    settings_t: PadTable,
    settings_n: PadTable,
}

impl CallCounts {
    /// Returns counts that are all 0.
    pub(crate) fn new() -> CallCounts
        ensures { Counts result [] }
    {
        CallCounts {
            up: None,
            data_t: 0,
            oct_t: 0,
            data_n: 0,
            oct_n: 0,
            segments: 0,
            settings_t: PadTable::new(),
            settings_n: PadTable::new(),
        }
    }

    /// Counts the next event, which has `segments` segments. A sum that would not fit stays at the greatest number.
    pub(crate) fn add_event(&mut self, event: &Event, segments: u64)
        requires segments { segments ≡ segments_of (all_lengths (event.now ∷ [])) }
        ensures { Adds self.old self.new event.now }
    {
        match event.what {
            What::Found { .. } | What::Open { .. } | What::End(_) => {}
            What::Up => self.rise(event.packet),
            What::Data { side, octets } => self.add_data(side, octets, segments),
            What::Setting {
                pad,
                parameter,
                entry,
            } => self.say(pad, parameter, entry),
            What::Initial { pad } => self.forget(pad),
        }
    }

    /// Records the packet that brings the call up, where it was not up.
    fn rise(&mut self, packet: u32)
        ensures { (e : Event) → e.packet ≡ packet → e.what ≡ What.Up
            → Adds self.old self.new e }
    {
        if self.up.is_none() {
            self.up = Some(packet);
        }
    }

    /// Counts a data packet.
    #[inline(always)]
    pub(crate) fn add_data(&mut self, side: Side, octets: u32, segments: u64)
        ensures { (e : Event) → e.what ≡ Data side octets
            → segments ≡ segments_of (all_lengths (e ∷ [])) → Adds self.old self.new e }
    {
        self.segments = self.segments.saturating_add(segments);
        match side {
            Side::T => {
                self.data_t = self.data_t.saturating_add(1);
                self.oct_t = self.oct_t.saturating_add(u64::from(octets));
            }
            Side::N => {
                self.data_n = self.data_n.saturating_add(1);
                self.oct_n = self.oct_n.saturating_add(u64::from(octets));
            }
        }
    }

    /// Records what a message says of a parameter of a PAD.
    fn say(&mut self, pad: Side, parameter: u8, entry: Entry)
        ensures { (e : Event) → e.what ≡ Setting pad parameter entry
            → Adds self.old self.new e }
    {
        match pad {
            Side::T => self.settings_t.say(parameter, entry),
            Side::N => self.settings_n.say(parameter, entry),
        }
    }

    /// Forgets the parameters of a PAD, which are initial again.
    fn forget(&mut self, pad: Side)
        ensures { (e : Event) → e.what ≡ Initial pad → Adds self.old self.new e }
    {
        match pad {
            Side::T => self.settings_t = PadTable::new(),
            Side::N => self.settings_n = PadTable::new(),
        }
    }

    /// The settings that are known, side T first, by parameter.
    pub(crate) fn settings<A: Allocator>(
        &self,
        alloc: A,
    ) -> Result<Vec<SettingRecord, A>, AllocError>
        ensures { IfOk result (λ v. (own : List Event) → Counts self.now own
            → v.items ≡ settings_of own) }
    {
        let mut settings = Vec::new(alloc);
        self.settings_t.push_known(Side::T, &mut settings)?;
        self.settings_n.push_known(Side::N, &mut settings)?;
        Ok(settings)
    }
}
