//! Names and values of the cells of stock: one of each product that it knows, one of each level, and one of
//! what each checkout holds.

ghost use Rattle.std.specs.Prelude.{◌≡◌, ◌+◌, ◌≤◌, ◌++◌, ◌==◌, [], ◌∷◌, if◌then◌else◌, true, List, Some};
ghost use Rattle.std.specs.Prelude.{length, map, codes, IfOk, IfSome};
ghost use Rattle.std.specs.List.{IsDistinct, join_with_byte};
ghost use Rattle.std.specs.Option.{option_or};
ghost use Rattle.market_amounts.specs.declared.keys.ProductKey.{ProductKey};
ghost use Rattle.market_amounts.specs.declared.keys.RequestId.{RequestId};
ghost use Rattle.market_events.specs.declared.bodies.PricedLine.{PricedLine};
ghost use Rattle.market_events.specs.declared.cells.CellName.{CellName};
ghost use Rattle.market_events.specs.CellLists.{Within, put_all, last_value, entry_cells_of};
ghost use Rattle.market_events.specs.Cells.{held_line, look_cells};
ghost use Rattle.market_events.specs.Copies.{ProductChange};
ghost use Rattle.market_events.specs.Formed.{key_formed, request_id_formed};
ghost use Rattle.market_events.specs.Standing.{same_name, is_named};
ghost use Rattle.market_events.specs.WellFormed.{IsKey, IsRequestId};
ghost use Rattle.cart_replica.specs.Copy.{IsCopyOf};
ghost use Rattle.cart_replica.specs.CopyCells.{copy_cells, AreKeysFormed, copy_table};
ghost use Rattle.stock_service.specs.Cells.{copy_name, level_name, held_name, asked_names};
ghost use Rattle.stock_service.specs.Cells.{is_touched, pieces_text, levels_in, held_in};
ghost use Rattle.stock_service.specs.Cells.{level_cells, held_cells};

use crate::held_lines::HeldLines;
use crate::level::Level;
use crate::levels::Levels;
use cart_replica::ProductCopy;
use market_amounts::{CheckoutId, List, ProductKey};
use market_events::{
    Ask, Cell, CellList, CellName, NameList, PricedLine, id_name, id_named, key_name, key_named,
};
use std::alloc::{AllocError, Global};

const COPY: &[u8] = b"copy";

const HELD: &[u8] = b"held";

const STOCK: &[u8] = b"stock";

// The cells of the three tables, by rising name.
pub fn cells_of(
    alloc: Global,
    copy: &ProductCopy,
    levels: &Levels,
    held: &HeldLines,
) -> Result<Vec<Cell>, AllocError>
    ensures { IfOk result (λ cells. cells.items
        ≡ entry_cells_of (put_all []
        (copy_cells copy_table copy.now ++ level_cells levels.now ++ held_cells held.now))) }
{
    let mut cells = CellList::new(alloc);
    copy.put_cells(alloc, COPY, &mut cells)?;
    levels.put_cells(alloc, &mut cells)?;
    held.put_cells(alloc, &mut cells)?;
    cells.into_cells()
}

// The value at a name, none where it is the name of no cell.
pub fn value_named(
    alloc: Global,
    copy: &ProductCopy,
    levels: &Levels,
    held: &HeldLines,
    name: &CellName,
) -> Result<Option<List<u8>>, AllocError>
    ensures { IfOk result (λ value. (changes : List ProductChange) → IsCopyOf copy.now changes
        → AreKeysFormed changes → Within IsKey (levels_in levels.now) → Within IsRequestId (held_in held.now)
        → value ≡ option_or (last_value name.now (held_cells held.now)) (option_or
        (last_value name.now (level_cells levels.now))
        (last_value name.now (look_cells copy_table changes)))) }
{
    if let Some(value) = held.cell_value(alloc, name)? {
        return Ok(Some(value));
    }
    if let Some(value) = levels.cell_value(alloc, name)? {
        return Ok(Some(value));
    }
    copy.cell_value(alloc, COPY, name)
}

// The name of the cell of what is known of a product.
fn copy_name(alloc: Global, key: ProductKey) -> Result<CellName, AllocError>
    ensures { IfOk result (λ name. name ≡ copy_name key) }
{
    key_name(alloc, COPY, key)
}

// The name of the cell of a level.
pub fn level_name(alloc: Global, key: ProductKey) -> Result<CellName, AllocError>
    ensures { IfOk result (λ name. name ≡ level_name key) }
{
    key_name(alloc, STOCK, key)
}

// The product of the level whose cell has the name.
pub fn level_named(name: &CellName) -> Option<ProductKey>
    ensures named { IfSome result (λ key. name.now ≡ level_name key) }
    ensures formed { IfSome result (λ key. key_formed key ≡ true) }
    ensures found { (key : ProductKey) → key_formed key ≡ true → name.now ≡ level_name key
        → result ≡ Some key }
{
    key_named(STOCK, name)
}

// The text of a level.
pub fn level_text(alloc: Global, level: Level) -> Result<List<u8>, AllocError>
    ensures { IfOk result (λ text. text ≡ pieces_text level.on_hand level.reserved) }
{
    let on_hand = level.on_hand();
    let reserved = level.reserved();
    let text = format!(in alloc; "{on_hand} {reserved}")?;
    Ok(List::from_vec(text.into_bytes()))
}

// The name of the cell of what a checkout holds.
pub fn held_name(alloc: Global, checkout: CheckoutId) -> Result<CellName, AllocError>
    ensures { IfOk result (λ name. name ≡ held_name checkout) }
{
    id_name(alloc, HELD, checkout)
}

// The checkout that holds what the cell with the name tells.
pub fn held_named(name: &CellName) -> Option<CheckoutId>
    ensures named { IfSome result (λ id. name.now ≡ held_name id) }
    ensures formed { IfSome result (λ id. request_id_formed id ≡ true) }
    ensures found { (id : RequestId) → request_id_formed id ≡ true → name.now ≡ held_name id
        → result ≡ Some id }
{
    id_named(HELD, name)
}

// What stands before a line of a list.
fn separator_at(index: usize) -> &'static str
    ensures { result.now ≡ (if index == 0 then [] else codes ";") }
{
    if index == 0 { "" } else { ";" }
}

// The text of a line: its product, and how many pieces.
fn line_text(alloc: Global, line: &PricedLine, separator: &str) -> Result<Vec<u8>, AllocError>
    ensures { IfOk result (λ text. text.items ≡ separator.now ++ held_line line.now) }
{
    let seller = line.key.seller;
    let product = line.key.product;
    let quantity = line.quantity.get();
    let text = format!(in alloc; "{separator}{seller}:{product}:{quantity}")?;
    Ok(text.into_bytes())
}

// The text of lines, with `;` between them.
pub fn lines_text(alloc: Global, lines: &[PricedLine]) -> Result<List<u8>, AllocError>
    ensures { IfOk result (λ text. text ≡ join_with_byte 59 (map held_line lines.now)) }
{
    let mut text = Vec::new(alloc);
    for (index, line) in lines.iter().enumerate() {
        let word = line_text(alloc, line, separator_at(index))?;
        text.extend_from_slice(word.as_slice())?;
    }
    Ok(List::from_vec(text))
}

// The names of the cells that lines of a checkout touch.
pub fn names_of(
    alloc: Global,
    checkout: CheckoutId,
    lines: &[PricedLine],
) -> Result<Vec<CellName>, AllocError>
    ensures named { IfOk result (λ names.
        (name : CellName) → is_named names.items name ≡ is_touched checkout lines.now name) }
    ensures differ { IfOk result (λ names. IsDistinct same_name names.items) }
    ensures few { IfOk result (λ names. length names.items ≤ length lines.now + 1) }
{
    let mut names = NameList::new(alloc);
    for line in lines {
        names.put(level_name(alloc, line.key)?)?;
    }
    names.put(held_name(alloc, checkout)?)?;
    names.into_names()
}

// The name of the cell that a change of a product touches.
pub fn changed_names(alloc: Global, key: ProductKey) -> Result<Vec<CellName>, AllocError>
    ensures { IfOk result (λ names. names.items ≡ copy_name key ∷ []) }
{
    let name = copy_name(alloc, key)?;
    Ok(vec![in alloc; name]?)
}

// The names of the cells that a request touches.
pub fn asked_names(alloc: Global, ask: Ask) -> Result<Vec<CellName>, AllocError>
    ensures { IfOk result (λ names. names.items ≡ asked_names ask) }
{
    match ask {
        Ask::Stock(key, _) => {
            let name = level_name(alloc, key)?;
            Ok(vec![in alloc; name]?)
        }
        _ => Ok(Vec::new(alloc)),
    }
}
