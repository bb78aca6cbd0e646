//! The levels of all products. A product without one has no pieces.

ghost use Rattle.std.specs.Prelude.{◌≡◌, ◌≤◌, ◌||◌, [], if◌then◌else◌, IfOk, OnOk, OnErr};
ghost use Rattle.market_amounts.specs.declared.keys.ProductKey.{ProductKey};
ghost use Rattle.market_events.specs.CellLists.{Within, key_cell, put_some, put_all, last_value};
ghost use Rattle.market_events.specs.Requests.{same_key};
ghost use Rattle.market_events.specs.Stocks.{pieces_of};
ghost use Rattle.market_events.specs.WellFormed.{IsKey};
ghost use Rattle.stock_service.specs.Amounts.{amounts_after, CanAct};
ghost use Rattle.stock_service.specs.Cells.{level_name, levels_in, level_cells};
ghost use Rattle.stock_service.specs.Tables.{amounts_at, has_at};

use crate::cells::{level_name, level_named, level_text};
use crate::level::Level;
use market_amounts::{List, ProductKey};
use market_events::{CellList, CellName, PricedLine};
use std::alloc::{AllocError, Global};
use std::collections::BTreeMap;
use std::marker::Model;

// What is done with pieces.
#[derive(Clone, Copy, Debug, PartialEq)]
pub enum Act {
    Reserve,
    Sell,
    Release,
}

/// The level of each product of which pieces were stocked. Contracts see them by rising key.
#[derive(Debug, Drop)]
pub struct Levels {
    levels: BTreeMap<ProductKey, Level>,
}

impl Model for Levels {
    ghost use Rattle.std.specs.Prelude.{List};
    ghost use Rattle.market_amounts.specs.declared.keys.ProductKey.{ProductKey};
    ghost use Rattle.stock_service.specs.Amounts.{Amounts};

    ghost Value = { List (ProductKey × Amounts) };

    ghost view = { λ levels. levels.levels.entries };
}

impl Levels {
    /// No product has a level. It takes no memory.
    pub fn new(alloc: Global) -> Levels
        ensures { result ≡ [] }
    {
        Levels {
            levels: BTreeMap::new(alloc),
        }
    }

    /// The level of a product.
    pub fn level(&self, key: ProductKey) -> Level
        ensures { result ≡ amounts_at self.now key }
    {
        self.levels.get(&key).copied().unwrap_or(Level::none())
    }

    /// Sets the level of a product. On want of memory nothing changes.
    pub fn set(&mut self, key: ProductKey, level: Level) -> Result<(), AllocError>
        ensures each { OnOk result ((k : ProductKey) → amounts_at self.new k
            ≡ (if same_key key k then level else amounts_at self.old k)) }
        ensures there { OnOk result ((k : ProductKey) → has_at self.new k
            ≡ (has_at self.old k || same_key key k)) }
        ensures unchanged { OnErr result (self.new ≡ self.old) }
    {
        self.levels.insert(key, level)?;
        Ok(())
    }

    /// Reserves, sells or releases the pieces of the lines, which requires that it can be done with all of
    /// them. It takes no memory.
    pub fn apply(&mut self, lines: &[PricedLine], act: Act)
        requires { (k : ProductKey) → CanAct act (pieces_of k lines.now) (amounts_at self.old k) }
        ensures each { (k : ProductKey) → amounts_at self.new k
            ≡ amounts_after act (pieces_of k lines.now) (amounts_at self.old k) }
        ensures there { (k : ProductKey) → has_at self.new k ≡ has_at self.old k }
    {
        for line in lines {
            self.apply_one(line.key, line.quantity.get(), act);
        }
    }

    // Reserves, sells or releases pieces of a product.
    fn apply_one(&mut self, key: ProductKey, pieces: u32, act: Act)
        requires some { 1 ≤ pieces }
        requires can { CanAct act pieces (amounts_at self.old key) }
        ensures each { (k : ProductKey) → amounts_at self.new k
            ≡ (if same_key key k then amounts_after act pieces (amounts_at self.old k)
            else amounts_at self.old k) }
        ensures there { (k : ProductKey) → has_at self.new k ≡ has_at self.old k }
    {
        let Some(level) = self.levels.get_mut(&key) else {
            return;
        };
        *level = changed(*level, pieces, act);
    }

    // The text of the level of a product, none where it has none.
    fn text(&self, alloc: Global, key: ProductKey) -> Result<Option<List<u8>>, AllocError>
        ensures { IfOk result (λ text. text ≡ levels_in self.now key) }
    {
        match self.levels.get(&key) {
            Some(level) => Ok(Some(level_text(alloc, *level)?)),
            None => Ok(None),
        }
    }

    // Puts the cell of the level of a product, where it has one.
    fn put_cell(
        &self,
        alloc: Global,
        key: ProductKey,
        cells: &mut CellList,
    ) -> Result<(), AllocError>
        ensures { OnOk result (cells.new
            ≡ put_some cells.old (key_cell level_name (levels_in self.now) key)) }
    {
        let Some(text) = self.text(alloc, key)? else {
            return Ok(());
        };
        let name = level_name(alloc, key)?;
        cells.put(name, text)
    }

    /// Puts the cells of all levels. On want of memory some are not put.
    pub fn put_cells(&self, alloc: Global, cells: &mut CellList) -> Result<(), AllocError>
        ensures { OnOk result (cells.new ≡ put_all cells.old (level_cells self.now)) }
    {
        for key in self.levels.keys() {
            self.put_cell(alloc, *key, cells)?;
        }
        Ok(())
    }

    /// The value of the cell of a level that has the name, none where there is no such cell.
    pub fn cell_value(&self, alloc: Global, name: &CellName) -> Result<Option<List<u8>>, AllocError>
        ensures { IfOk result (λ value. Within IsKey (levels_in self.now)
            → value ≡ last_value name.now (level_cells self.now)) }
    {
        let Some(key) = level_named(name) else {
            return Ok(None);
        };
        self.text(alloc, key)
    }
}

// What is left of a level.
fn changed(level: Level, pieces: u32, act: Act) -> Level
    requires { CanAct act pieces level }
    ensures { result ≡ amounts_after act pieces level }
{
    match act {
        Act::Reserve => level.reserve(pieces),
        Act::Sell => level.sell(pieces),
        Act::Release => level.release(pieces),
    }
}
