//! Names of cells, each once.

ghost use Rattle.std.specs.Prelude.{◌≡◌, ◌+◌, ◌≤◌, ◌||◌, [], length, IfOk, OnOk, OnErr};
ghost use Rattle.std.specs.List.{IsDistinct};
ghost use Rattle.market_events.specs.declared.cells.CellName.{CellName};
ghost use Rattle.market_events.specs.Standing.{same_name, is_named};

use crate::cells::CellName;
use std::alloc::{AllocError, Global};
use std::collections::BTreeSet;
use std::marker::Model;

/// Names of cells, each once. Contracts see them as they rise.
#[derive(Debug, Drop)]
pub struct NameList {
    alloc: Global,
    names: BTreeSet<CellName>,
}

impl Model for NameList {
    ghost use Rattle.std.specs.Prelude.{List};
    ghost use Rattle.std.specs.List.Sorted.{IsStrictlySortedBy};
    ghost use Rattle.market_events.specs.declared.cells.CellName.{CellName};
    ghost use Rattle.market_events.specs.Cells.{name_cmp};

    ghost Value = { List CellName };

    ghost view = { λ list. list.names.keys };

    ghost invariant = { λ list. IsStrictlySortedBy name_cmp list.names.keys };
}

impl NameList {
    /// No names.
    pub fn new(alloc: Global) -> NameList
        ensures { result ≡ [] }
    {
        NameList {
            alloc,
            names: BTreeSet::new(alloc),
        }
    }

    /// Puts a name, where it is not there. On want of memory the names are as before.
    pub fn put(&mut self, name: CellName) -> Result<(), AllocError>
        ensures named { OnOk result ((other : CellName)
            → is_named self.new other ≡ (same_name other name || is_named self.old other)) }
        ensures few { OnOk result (length self.new ≤ length self.old + 1) }
        ensures err { OnErr result (self.new ≡ self.old) }
    {
        self.names.insert(name)?;
        Ok(())
    }

    /// The names, no two of them the same.
    pub fn into_names(self) -> Result<Vec<CellName>, AllocError>
        ensures same { IfOk result (λ names. names.items ≡ self) }
        ensures differ { IfOk result (λ names. IsDistinct same_name names.items) }
    {
        let mut all = Vec::new(self.alloc);
        for name in self.names {
            all.push(name)?;
        }
        Ok(all)
    }
}
