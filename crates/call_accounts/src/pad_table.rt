//! What the messages of a call have said of the parameters of one PAD.

ghost use Rattle.std.specs.Prelude.{◌≡◌, ℕ, ◌-◌, ◌≤◌, ◌==◌, ◌++◌, if◌then◌else◌, slice_index_or, OnOk};
ghost use Rattle.std.specs.List.{range_with_len};
ghost use Rattle.line_model.specs.declared.event.Entry.TheVariants.{Unknown};
ghost use Rattle.line_model.specs.observer.Calls.{is_known};
ghost use Rattle.call_accounts.specs.Counted.{entry_at, settings_in};

use line_model::call::SettingRecord;
use line_model::event::Entry;
use line_model::state::Side;
use std::alloc::{AllocError, Allocator};

/// The last word on each of the parameters 1 to 22.
#[derive(Clone, Copy)]
pub struct PadTable {
    /// The entries of all of them; `None` until a message says something of one.
    entries: Option<[Entry; 22]>,
}

impl PadTable {
    /// Returns a table in which nothing is known.
    pub(crate) fn new() -> PadTable
        ensures { (n : ℕ) → entry_at result n ≡ Unknown }
    {
        PadTable { entries: None }
    }

    /// Returns the entries of all parameters.
    fn all(&self) -> [Entry; 22]
        ensures { (n : ℕ) → slice_index_or result (n - 1) Unknown ≡ entry_at self.now n }
    {
        match self.entries {
            Some(entries) => entries,
            None => [Entry::Unknown; 22],
        }
    }

    /// Records what a message says of a parameter.
    pub(crate) fn say(&mut self, parameter: u8, entry: Entry)
        ensures { (n : ℕ) → 1 ≤ n → n ≤ 22
            → entry_at self.new n ≡ (if parameter == n then entry else entry_at self.old n) }
    {
        if (1..=22).contains(&parameter) {
            let mut entries = self.all();
            entries[usize::from(parameter) - 1] = entry;
            self.entries = Some(entries);
        }
    }

    /// Appends the parameters that are known.
    pub(crate) fn push_known<A: Allocator>(
        &self,
        pad: Side,
        settings: &mut Vec<SettingRecord, A>,
    ) -> Result<(), AllocError>
        ensures { OnOk result (settings.new.items
            ≡ settings.old.items ++ settings_in pad self.now (range_with_len 1 22)) }
    {
        let Some(entries) = &self.entries else {
            return Ok(());
        };
        for parameter in 1..23u8 {
            let entry = entries[usize::from(parameter) - 1];
            if is_known(entry) {
                settings.push(SettingRecord {
                    pad,
                    parameter,
                    entry,
                })?;
            }
        }
        Ok(())
    }
}

/// Whether an entry is known.
fn is_known(entry: Entry) -> bool
    ensures { result ≡ is_known entry }
{
    !matches!(entry, Entry::Unknown)
}
