//! Names and values of the cells of customers.

ghost use Rattle.std.specs.Prelude.{◌≡◌, ℕ, ◌<◌, ◌≤◌, ◌^◌, length, Some, IfOk, OnOk, IfSome};
ghost use Rattle.std.specs.List.{IsDistinct, list_any};
ghost use Rattle.market_events.specs.declared.bodies.Item.{Item};
ghost use Rattle.market_events.specs.declared.cells.CellName.{CellName};
ghost use Rattle.market_events.specs.Cells.{cells_listed};
ghost use Rattle.market_events.specs.CellLists.{Within, put_some, put_all, last_value};
ghost use Rattle.market_events.specs.Standing.{same_name, is_named};
ghost use Rattle.market_events.specs.WellFormed.{IsId};
ghost use Rattle.customer_service.specs.Cells.{name_by, text_by, cell_by, texts_in, table_cells};

use crate::tables::{Tallies, Tally, ZERO};
use market_amounts::List;
use market_events::{Cell, CellList, CellName, Item, NameList, number_name, number_named};
use std::alloc::{AllocError, Global};

const TABLE: &[u8] = b"customer";

// The name of a customer's cell.
pub fn name_of(alloc: Global, customer: u32) -> Result<CellName, AllocError>
    ensures { IfOk result (λ name. name ≡ name_by customer) }
{
    number_name(alloc, TABLE, customer)
}

// The customer whose cell has this name.
fn customer_named(name: &CellName) -> Option<u32>
    ensures named { IfSome result (λ customer. name.now ≡ name_by customer) }
    ensures found { (customer : ℕ) → customer < 2 ^ 32
        → name.now ≡ name_by customer → result ≡ Some customer }
{
    number_named(TABLE, name)
}

// The text of what is counted of a customer, none where that is nothing.
fn text_of(alloc: Global, tally: Tally) -> Result<Option<List<u8>>, AllocError>
    ensures { IfOk result (λ text. text ≡ text_by tally) }
{
    if tally == ZERO {
        return Ok(None);
    }
    let confirmed = tally.confirmed;
    let failed = tally.failed;
    let delivered = tally.delivered;
    let text = format!(in alloc; "{confirmed} {failed} {delivered}")?;
    Ok(Some(List::from_vec(text.into_bytes())))
}

// Puts the cell of a customer, where something was counted.
fn put(alloc: Global, cells: &mut CellList, customer: u32, tally: Tally) -> Result<(), AllocError>
    ensures { OnOk result (cells.new ≡ put_some cells.old (cell_by customer tally)) }
{
    let Some(text) = text_of(alloc, tally)? else {
        return Ok(());
    };
    let name = name_of(alloc, customer)?;
    cells.put(name, text)
}

// Puts the cells of all customers.
fn put_tallies(alloc: Global, tallies: &Tallies, cells: &mut CellList) -> Result<(), AllocError>
    ensures { OnOk result (cells.new ≡ put_all cells.old (table_cells tallies.now)) }
{
    for customer in tallies.customers() {
        put(alloc, cells, *customer, tallies.get(*customer))?;
    }
    Ok(())
}

// The cells of all customers, by rising name.
pub fn cells_of(alloc: Global, tallies: &Tallies) -> Result<Vec<Cell>, AllocError>
    ensures { IfOk result (λ cells. cells.items ≡ cells_listed (table_cells tallies.now)) }
{
    let mut cells = CellList::new(alloc);
    put_tallies(alloc, tallies, &mut cells)?;
    cells.into_cells()
}

// The value at a name, none where it is the name of no cell.
pub fn value_named(
    alloc: Global,
    tallies: &Tallies,
    name: &CellName,
) -> Result<Option<List<u8>>, AllocError>
    ensures { IfOk result (λ value. Within IsId (texts_in tallies.now)
        → value ≡ last_value name.now (table_cells tallies.now)) }
{
    let Some(customer) = customer_named(name) else {
        return Ok(None);
    };
    text_of(alloc, tallies.get(customer))
}

// The names of the cells of the items' customers, each once.
pub fn names_of(alloc: Global, items: &[Item]) -> Result<Vec<CellName>, AllocError>
    ensures named { IfOk result (λ names. (name : CellName)
        → is_named names.items name
        ≡ list_any (λ (i : Item). same_name name (name_by i.customer)) items.now) }
    ensures differ { IfOk result (λ names. IsDistinct same_name names.items) }
    ensures few { IfOk result (λ names. length names.items ≤ length items.now) }
{
    let mut names = NameList::new(alloc);
    for item in items {
        names.put(name_of(alloc, item.customer)?)?;
    }
    names.into_names()
}
