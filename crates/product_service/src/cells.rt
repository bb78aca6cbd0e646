//! Names and values of the cells of products: one of each product that had a change.

ghost use Rattle.std.specs.Prelude.{◌≡◌, [], IfOk};
ghost use Rattle.market_events.specs.CellLists.{put_all, last_value, entry_cells_of};
ghost use Rattle.market_events.specs.Cells.{look_cells};
ghost use Rattle.market_events.specs.Copies.{ProductChange};
ghost use Rattle.cart_replica.specs.Copy.{IsCopyOf};
ghost use Rattle.cart_replica.specs.CopyCells.{copy_cells, AreKeysFormed};
ghost use Rattle.product_service.specs.Cells.{names_touched, table_name};

use crate::changing::key_asked;
use cart_replica::ProductCopy;
use market_amounts::List;
use market_events::{Body, Cell, CellList, CellName, key_name};
use std::alloc::{AllocError, Global};

const PRODUCT: &[u8] = b"product";

// The cells of all products, by rising name.
pub fn cells_of(alloc: Global, copy: &ProductCopy) -> Result<Vec<Cell>, AllocError>
    ensures { IfOk result (λ cells. cells.items
        ≡ entry_cells_of (put_all [] (copy_cells table_name copy.now))) }
{
    let mut cells = CellList::new(alloc);
    copy.put_cells(alloc, PRODUCT, &mut cells)?;
    cells.into_cells()
}

// The names of the cells that a body touches.
pub fn touched_names(alloc: Global, body: &Body) -> Result<Vec<CellName>, AllocError>
    ensures { IfOk result (λ names. names.items ≡ names_touched body.now) }
{
    let Some(key) = key_asked(body) else {
        return Ok(Vec::new(alloc));
    };
    let name = key_name(alloc, PRODUCT, key)?;
    Ok(vec![in alloc; name]?)
}

// The value at a name, none where it is the name of no cell.
pub fn value_named(
    alloc: Global,
    copy: &ProductCopy,
    name: &CellName,
) -> Result<Option<List<u8>>, AllocError>
    ensures { IfOk result (λ value. (changes : List ProductChange) → IsCopyOf copy.now changes
        → AreKeysFormed changes → value ≡ last_value name.now (look_cells table_name changes)) }
{
    copy.cell_value(alloc, PRODUCT, name)
}
