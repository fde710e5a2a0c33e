//! The rows of circuits as text.

ghost use Rattle.std.specs.Prelude.{◌≡◌, ◌∷◌, [], OnOk};
ghost use Rattle.xot_circuits.specs.Items.{item_view};
ghost use Rattle.capture_report.specs.CircuitChannels.{channel_of};
ghost use Rattle.capture_report.specs.CircuitRows.{circuit_row_of, circuit_row_view, item_rows, printed, row_on, rows_of_item};
ghost use Rattle.capture_report.specs.Contents.{gap_of_all};

use crate::circuit_batch::Batch;
use crate::circuit_row::{CircuitRow, CircuitRule};
use crate::circuits::CircuitChannels;
use crate::print::Page;
use crate::row::Row;
use lapb_link::frames::Place;
use std::alloc::{AllocError, Global};
use std::marker::Model;
use xot_circuits::item::Item;

/// A page of the rows of circuits. Those of a circuit without a logical channel are left out.
#[derive(Drop)]
pub(crate) struct CircuitPage {
    rule: CircuitRule,
    channels: CircuitChannels,
    page: Page,
    octets: Vec<u8>,
}

impl Model for CircuitPage {
    ghost use Rattle.capture_report.specs.CircuitRows.{PrintedRows};

    ghost Value = { PrintedRows };

    ghost view = { λ p. record { rule = p.rule; channels = p.channels; page = p.page } };
}

impl CircuitPage {
    /// Returns a page of the rows of items. `rule` says how they are rows, and `channels` on which logical channels.
    pub(crate) fn new(
        alloc: Global,
        rule: CircuitRule,
        channels: CircuitChannels,
        page: Page,
    ) -> CircuitPage
        ensures { result ≡ record { rule = rule; channels = channels; page = page } }
    {
        CircuitPage {
            rule,
            channels,
            page,
            octets: Vec::new(alloc),
        }
    }

    /// Returns the text of the rows.
    pub(crate) fn page(&self) -> &Page
        ensures { result.now ≡ self.now.page }
    {
        &self.page
    }

    /// Removes that text. The rows after it go on.
    pub(crate) fn clear(&mut self)
        ensures { self.new ≡ record self.old { page = record self.old.page { text = [] } } }
    {
        self.page.clear();
    }

    /// Appends the rows of what a frame completes. Fails only when memory is refused.
    pub(crate) fn print_all(&mut self, batch: &Batch) -> Result<(), AllocError>
        ensures { OnOk result (self.new ≡ printed (item_rows self.old.rule (channel_of self.old.channels) batch.now) self.old) }
    {
        for index in 0..batch.len() {
            self.print_item(&batch.item(index))?;
        }
        Ok(())
    }

    /// Appends the gap of frames that were dropped. Fails only when memory is refused.
    pub(crate) fn print_dropped(&mut self, place: Place) -> Result<(), AllocError>
        ensures { OnOk result (self.new ≡ printed (gap_of_all place ∷ []) self.old) }
    {
        self.page.print(&Row::gap_of_all(place))
    }

    /// Appends the row of an item, if it has one. Fails only when memory is refused.
    fn print_item(&mut self, item: &Item<'_>) -> Result<(), AllocError>
        ensures { OnOk result (self.new ≡ printed (rows_of_item (channel_of self.old.channels) (circuit_row_of self.old.rule (item_view item.now))) self.old) }
    {
        match self.rule.row_of(item) {
            Some(row) => self.print(&row),
            None => Ok(()),
        }
    }

    /// Appends a row of a circuit. Fails only when memory is refused.
    fn print(&mut self, row: &CircuitRow<'_>) -> Result<(), AllocError>
        ensures { OnOk result (self.new ≡ printed (row_on (channel_of self.old.channels row.now.connection) (circuit_row_view row.now)) self.old) }
    {
        match self.channels.get(row.connection) {
            Some(channel) => {
                let row = row.on_channel(channel, &mut self.octets)?;
                self.page.print(&row)
            }
            None => Ok(()),
        }
    }
}
