//! Channels on which the rows of open circuits are seen, before circuits have logical channels of the trace.

ghost use Rattle.std.specs.Prelude.{◌≡◌, ◌≤◌, IfOk, IfSome, OnOk};
ghost use Rattle.capture_report.specs.Slots.{all_free, first_slot, given_back, last_after, next_slot, slot_at, with_slot, without_first};

use std::alloc::{AllocError, Global};
use std::collections::BTreeMap;
use std::marker::Model;

/// The last logical channel.
const LAST: u16 = 4095;

/// The slots of open circuits: channels from 1 to 4,095, or 0 where none is left.
#[derive(Drop)]
pub(crate) struct Slots {
    /// Those of the circuits, by the numbers of their connections.
    taken: BTreeMap<u64, u16>,
    /// Those that circuits gave back.
    free: Vec<u16>,
    /// The last one that a circuit had.
    last: u16,
}

impl Model for Slots {
    ghost use Rattle.std.specs.Prelude.{◌≤◌, reverse};
    ghost use Rattle.std.specs.Map.{values_of};
    ghost use Rattle.capture_report.specs.Slots.{AreSlots, SlotTable};

    ghost Value = { SlotTable };

    ghost view = { λ s. record { taken = s.taken.entries; free = reverse s.free.items; last = s.last } };

    ghost invariant = { λ s. (s.last ≤ 4095) × AreSlots s.free.items × AreSlots (values_of s.taken.entries) };
}

impl Slots {
    /// Returns the slots where no circuit is open. Allocates nothing.
    pub(crate) fn new(alloc: Global) -> Slots
        ensures { result ≡ all_free }
    {
        Slots {
            taken: BTreeMap::new(alloc),
            free: Vec::new(alloc),
            last: 0,
        }
    }

    /// Returns the slot of a connection's circuit, if that is open.
    pub(crate) fn get(&self, connection: u64) -> Option<u16>
        ensures is { result ≡ slot_at connection self.now }
        ensures within { IfSome result (λ slot. slot ≤ 4095) }
    {
        match self.taken.get(&connection) {
            Some(slot) => Some(*slot),
            None => None,
        }
    }

    /// Takes the slot that was given back last, or the next one that no circuit had.
    fn next(&mut self) -> u16
        ensures is { result ≡ next_slot self.old }
        ensures within { result ≤ 4095 }
        ensures after { self.new ≡ record self.old { free = without_first self.old.free; last = last_after self.old.free self.old.last } }
    {
        if let Some(slot) = self.free.pop() {
            return slot;
        }
        if self.last >= LAST {
            return 0;
        }
        self.last += 1;
        self.last
    }

    /// Takes a slot for the circuit of a connection. Fails only when memory is refused.
    pub(crate) fn take(&mut self, connection: u64) -> Result<u16, AllocError>
        ensures is { IfOk result (λ slot. slot ≡ next_slot self.old) }
        ensures within { IfOk result (λ slot. slot ≤ 4095) }
        ensures after { OnOk result (self.new ≡ with_slot connection self.old) }
    {
        let slot = self.next();
        self.taken.insert(connection, slot)?;
        Ok(slot)
    }

    /// Gives back the slot of a connection's circuit, if that is open. Fails only when memory is refused.
    pub(crate) fn give_back(&mut self, connection: u64) -> Result<(), AllocError>
        ensures { OnOk result (self.new ≡ given_back connection self.old) }
    {
        match self.taken.remove(&connection) {
            Some(slot) if slot > 0 => {
                self.free.push(slot)?;
                Ok(())
            }
            _ => Ok(()),
        }
    }
}
