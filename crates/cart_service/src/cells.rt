//! Names and values of the cells of the cart: one of each product that it knows, and one of each line, with
//! its quantity and its voucher.

ghost use Rattle.std.specs.Prelude.{◌≡◌, ℕ, ◌<◌, ◌^◌, ◌++◌, [], true, Some, IfOk, IfSome, OnOk};
ghost use Rattle.std.specs.Option.{option_or};
ghost use Rattle.market_amounts.specs.declared.keys.ProductKey.{ProductKey};
ghost use Rattle.market_events.specs.CellLists.{put_some, put_all, key_cell, last_value, entry_cells_of};
ghost use Rattle.market_events.specs.CellNames.{basket_name as name_by};
ghost use Rattle.market_events.specs.Cells.{held_text, look_cells};
ghost use Rattle.market_events.specs.Copies.{ProductChange};
ghost use Rattle.market_events.specs.Formed.{key_formed};
ghost use Rattle.cart_replica.specs.Copy.{IsCopyOf};
ghost use Rattle.cart_replica.specs.CopyCells.{copy_cells, AreKeysFormed, copy_table};
ghost use Rattle.cart_service.specs.Cells.{basket_table, basket_cells, AreSmall};
ghost use Rattle.cart_service.specs.Cells.{asked_names as names_asked, names_touched};

use crate::basket::Held;
use crate::baskets::Baskets;
use cart_replica::ProductCopy;
use market_amounts::{List, ProductKey};
use market_events::{Ask, Body, Cell, CellList, CellName, basket_name, basket_named, key_name};
use std::alloc::{AllocError, Global};

const BASKET: &[u8] = b"basket";

const COPY: &[u8] = b"copy";

// The cells of both tables, by rising name.
pub fn cells_of(
    alloc: Global,
    copy: &ProductCopy,
    baskets: &Baskets,
) -> Result<Vec<Cell>, AllocError>
    ensures { IfOk result (λ cells. cells.items
        ≡ entry_cells_of (put_all [] (copy_cells copy_table copy.now ++ basket_cells baskets.now))) }
{
    let mut cells = CellList::new(alloc);
    copy.put_cells(alloc, COPY, &mut cells)?;
    baskets.put_cells(alloc, &mut cells)?;
    cells.into_cells()
}

// The names of the cells that a body touches.
pub fn touched_names(
    alloc: Global,
    baskets: &Baskets,
    body: &Body,
) -> Result<Vec<CellName>, AllocError>
    ensures { IfOk result (λ names. names.items ≡ names_touched baskets.now body.now) }
{
    match body {
        Body::Changed(key, ..) => {
            let name = key_name(alloc, COPY, *key)?;
            Ok(vec![in alloc; name]?)
        }
        Body::Asked(request) => asked_names(alloc, baskets, request.ask),
        _ => Ok(Vec::new(alloc)),
    }
}

// The names of the cells that a request touches.
fn asked_names(alloc: Global, baskets: &Baskets, ask: Ask) -> Result<Vec<CellName>, AllocError>
    ensures { IfOk result (λ names. names.items ≡ names_asked baskets.now ask) }
{
    match ask {
        Ask::Line(customer, key, ..) | Ask::Remove(customer, key) => {
            let name = line_name(alloc, customer, key)?;
            Ok(vec![in alloc; name]?)
        }
        Ask::Checkout(customer) => baskets.names(alloc, customer),
        _ => Ok(Vec::new(alloc)),
    }
}

// The value at a name, none where it is the name of no cell.
pub fn value_named(
    alloc: Global,
    copy: &ProductCopy,
    baskets: &Baskets,
    name: &CellName,
) -> Result<Option<List<u8>>, AllocError>
    ensures { IfOk result (λ value. (changes : List ProductChange) → IsCopyOf copy.now changes
        → AreKeysFormed changes → AreSmall baskets.now
        → value ≡ option_or (last_value name.now (basket_cells baskets.now))
        (last_value name.now (look_cells copy_table changes))) }
{
    if let Some(value) = baskets.cell_value(alloc, name)? {
        return Ok(Some(value));
    }
    copy.cell_value(alloc, COPY, name)
}

// The name of the cell of a line.
pub fn line_name(alloc: Global, customer: u32, key: ProductKey) -> Result<CellName, AllocError>
    ensures { IfOk result (λ name. name ≡ name_by basket_table (customer, key)) }
{
    basket_name(alloc, BASKET, customer, key)
}

// The customer and the product of the line whose cell has the name.
pub fn line_named(name: &CellName) -> Option<(u32, ProductKey)>
    ensures named { IfSome result (λ line. name.now ≡ name_by basket_table line) }
    ensures formed { IfSome result (λ line. key_formed line.1 ≡ true) }
    ensures found { (line : ℕ × ProductKey) → line.0 < 2 ^ 32 → key_formed line.1 ≡ true
        → name.now ≡ name_by basket_table line → result ≡ Some line }
{
    basket_named(BASKET, name)
}

// The text of a line, none where there is no line.
pub fn line_text(alloc: Global, held: Option<Held>) -> Result<Option<List<u8>>, AllocError>
    ensures { IfOk result (λ text. text ≡ held_text held) }
{
    let Some(held) = held else {
        return Ok(None);
    };
    let quantity = held.quantity.get();
    let voucher = held.voucher.get();
    let text = format!(in alloc; "{quantity} {voucher}")?;
    Ok(Some(List::from_vec(text.into_bytes())))
}

// Puts the cell of a line, where there is one.
pub fn put_line(
    alloc: Global,
    customer: u32,
    key: ProductKey,
    held: Option<Held>,
    cells: &mut CellList,
) -> Result<(), AllocError>
    ensures { OnOk result (cells.new
        ≡ put_some cells.old (key_cell (name_by basket_table) (λ _. held_text held) (customer, key))) }
{
    let Some(text) = line_text(alloc, held)? else {
        return Ok(());
    };
    let name = line_name(alloc, customer, key)?;
    cells.put(name, text)
}
