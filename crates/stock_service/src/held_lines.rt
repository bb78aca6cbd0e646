//! The lines of the checkouts that wait for their payment.

ghost use Rattle.std.specs.Prelude.{◌≡◌, ◌+◌, ◌≤◌, [], None, Some, if◌then◌else◌, true, length, unwrap_or};
ghost use Rattle.std.specs.Prelude.{IfOk, IfSome, OnOk, OnErr};
ghost use Rattle.std.specs.List.{IsDistinct};
ghost use Rattle.market_amounts.specs.declared.keys.RequestId.{RequestId};
ghost use Rattle.market_events.specs.declared.cells.CellName.{CellName};
ghost use Rattle.market_events.specs.CellLists.{Within, key_cell, put_some, put_all, last_value};
ghost use Rattle.market_events.specs.Requests.{same_id};
ghost use Rattle.market_events.specs.Standing.{same_name, is_named};
ghost use Rattle.market_events.specs.WellFormed.{IsRequestId};
ghost use Rattle.stock_service.specs.Cells.{held_name, held_in, held_cells, is_touched};
ghost use Rattle.stock_service.specs.Tables.{lines_at};

use crate::cells::{held_name, held_named, lines_text, names_of};
use market_amounts::{CheckoutId, List};
use market_events::{CellList, CellName, PricedLine};
use std::alloc::{AllocError, Global};
use std::collections::BTreeMap;
use std::marker::Model;

/// The lines of each checkout that waits for its payment. Contracts see them by rising id of the checkout.
#[derive(Debug, Drop)]
pub struct HeldLines {
    lines: BTreeMap<CheckoutId, List<PricedLine>>,
}

impl Model for HeldLines {
    ghost use Rattle.std.specs.Prelude.{List};
    ghost use Rattle.market_amounts.specs.declared.keys.RequestId.{RequestId};
    ghost use Rattle.market_events.specs.declared.bodies.PricedLine.{PricedLine};

    ghost Value = { List (RequestId × List PricedLine) };

    ghost view = { λ held. held.lines.entries };
}

impl HeldLines {
    /// No checkout waits. It takes no memory.
    pub fn new(alloc: Global) -> HeldLines
        ensures { result ≡ [] }
    {
        HeldLines {
            lines: BTreeMap::new(alloc),
        }
    }

    /// Keeps the lines of a checkout until they are taken. On want of memory nothing changes.
    pub fn keep(&mut self, checkout: CheckoutId, lines: List<PricedLine>) -> Result<(), AllocError>
        ensures kept { OnOk result ((id : RequestId) → lines_at self.new id
            ≡ (if same_id checkout id then Some lines else lines_at self.old id)) }
        ensures unchanged { OnErr result (self.new ≡ self.old) }
    {
        self.lines.insert(checkout, lines)?;
        Ok(())
    }

    /// Takes the lines of a checkout away, which are forgotten. It takes no memory.
    pub fn take(&mut self, checkout: CheckoutId) -> Option<List<PricedLine>>
        ensures taken { result ≡ lines_at self.old checkout }
        ensures left { (id : RequestId) → lines_at self.new id
            ≡ (if same_id checkout id then None else lines_at self.old id) }
    {
        self.lines.remove(&checkout)
    }

    /// The names of the cells that the checkout touches when it is settled.
    pub fn names(&self, alloc: Global, checkout: CheckoutId) -> Result<Vec<CellName>, AllocError>
        ensures named { IfOk result (λ names. IfSome (lines_at self.now checkout) (λ lines.
            (name : CellName) → is_named names.items name ≡ is_touched checkout lines name)) }
        ensures only { IfOk result (λ names. (name : CellName) → is_named names.items name ≡ true
            → is_touched checkout (unwrap_or (lines_at self.now checkout) []) name ≡ true) }
        ensures differ { IfOk result (λ names. IsDistinct same_name names.items) }
        ensures few { IfOk result (λ names. IfSome (lines_at self.now checkout) (λ lines.
            length names.items ≤ length lines + 1)) }
    {
        match self.lines.get(&checkout) {
            Some(lines) => names_of(alloc, checkout, lines.as_slice()),
            None => Ok(Vec::new(alloc)),
        }
    }

    // The text of what a checkout holds, none where it holds nothing.
    fn text(&self, alloc: Global, checkout: CheckoutId) -> Result<Option<List<u8>>, AllocError>
        ensures { IfOk result (λ text. text ≡ held_in self.now checkout) }
    {
        match self.lines.get(&checkout) {
            Some(lines) => Ok(Some(lines_text(alloc, lines.as_slice())?)),
            None => Ok(None),
        }
    }

    // Puts the cell of what a checkout holds, where it holds something.
    fn put_cell(
        &self,
        alloc: Global,
        checkout: CheckoutId,
        cells: &mut CellList,
    ) -> Result<(), AllocError>
        ensures { OnOk result (cells.new
            ≡ put_some cells.old (key_cell held_name (held_in self.now) checkout)) }
    {
        let Some(text) = self.text(alloc, checkout)? else {
            return Ok(());
        };
        let name = held_name(alloc, checkout)?;
        cells.put(name, text)
    }

    /// Puts the cells of all that is held. On want of memory some are not put.
    pub fn put_cells(&self, alloc: Global, cells: &mut CellList) -> Result<(), AllocError>
        ensures { OnOk result (cells.new ≡ put_all cells.old (held_cells self.now)) }
    {
        for checkout in self.lines.keys() {
            self.put_cell(alloc, *checkout, cells)?;
        }
        Ok(())
    }

    /// The value of the cell of what a checkout holds that has the name, none where there is no such cell.
    pub fn cell_value(&self, alloc: Global, name: &CellName) -> Result<Option<List<u8>>, AllocError>
        ensures { IfOk result (λ value. Within IsRequestId (held_in self.now)
            → value ≡ last_value name.now (held_cells self.now)) }
    {
        let Some(checkout) = held_named(name) else {
            return Ok(None);
        };
        self.text(alloc, checkout)
    }
}
