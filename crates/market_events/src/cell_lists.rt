//! Cells that are put one after the other, by name.

ghost use Rattle.std.specs.Prelude.{◌≡◌, [], IfOk, OnOk, OnErr, unwrap_or};
ghost use Rattle.market_events.specs.CellLists.{put_cell, entry_cells_of};

use crate::cells::{Cell, CellName};
use market_amounts::List;
use std::alloc::{AllocError, Global};
use std::collections::BTreeMap;
use std::marker::Model;

/// Cells that are put one after the other; a later one of the same name takes the place of an earlier one.
/// Contracts see names and values by rising name.
#[derive(Debug, Drop)]
pub struct CellList {
    alloc: Global,
    values: BTreeMap<CellName, List<u8>>,
}

impl Model for CellList {
    ghost use Rattle.std.specs.Prelude.{ℕ, List};
    ghost use Rattle.market_events.specs.declared.cells.CellName.{CellName};

    ghost Value = { List (CellName × List ℕ) };

    ghost view = { λ cells. cells.values.entries };
}

impl CellList {
    /// No cells.
    pub fn new(alloc: Global) -> CellList
        ensures { result ≡ [] }
    {
        CellList {
            alloc,
            values: BTreeMap::new(alloc),
        }
    }

    /// Puts a cell. On want of memory the cells are as before.
    pub fn put(&mut self, name: CellName, value: List<u8>) -> Result<(), AllocError>
        ensures ok { OnOk result (self.new ≡ put_cell self.old (record { name = name; value = value })) }
        ensures err { OnErr result (self.new ≡ self.old) }
    {
        self.values.insert(name, value)?;
        Ok(())
    }

    /// The cells, by rising name.
    pub fn into_cells(self) -> Result<Vec<Cell>, AllocError>
        ensures { IfOk result (λ cells. cells.items ≡ entry_cells_of self) }
    {
        let mut cells = Vec::new(self.alloc);
        for (name, value) in self.values {
            cells.push(Cell { name, value })?;
        }
        Ok(cells)
    }
}

/// The value of a cell, empty where there is none.
pub fn value_or_empty(alloc: Global, value: Option<List<u8>>) -> Vec<u8>
    ensures { result.items ≡ unwrap_or value [] }
{
    match value {
        Some(value) => value.into_vec(),
        None => Vec::new(alloc),
    }
}
