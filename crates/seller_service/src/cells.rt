//! Names and values of the sellers' cells.

ghost use Rattle.std.specs.Prelude.{◌≡◌, ℕ, ◌+◌, ◌≤◌, ◌<◌, ◌^◌, ◌⊎◌, true, codes, length, count_by};
ghost use Rattle.std.specs.Prelude.{IfOk, OnOk, IfSome};
ghost use Rattle.std.specs.Option.{option_copied};
ghost use Rattle.market_events.specs.declared.cells.CellName.{CellName as Name};
ghost use Rattle.market_events.specs.Cells.{cells_listed, entry_number, entry_text};
ghost use Rattle.market_events.specs.CellLists.{Within, put_all, last_value};
ghost use Rattle.market_events.specs.Sellers.{entries_at, line_cost};
ghost use Rattle.market_events.specs.Standing.{is_named};
ghost use Rattle.market_events.specs.Texts.{status_text};
ghost use Rattle.seller_service.specs.Cells.{place_name, change_text, at_number, text_at, IsSpelledPlace};
ghost use Rattle.seller_service.specs.Cells.{cells_of_entries, cells_of_changes, cells_of_seller};
ghost use Rattle.seller_service.specs.Cells.{table_cells};
ghost use Rattle.seller_service.specs.Tables.{changes_at, is_of_seller};

use crate::change::{Change, id_of, is_new};
use crate::tables::Ledgers;
use market_amounts::{List, ProductKey, line_amount};
use market_events::{Cell, CellList, CellName, NameList, OrderStatus, key_name, key_named};
use std::alloc::{AllocError, Global};

const ENTRY: &[u8] = b"entry";

const CHANGE: &[u8] = b"change";

/// Of what a cell is: a seller's entry, or a seller's change, by its number from 1.
#[derive(Clone, Copy, Debug, PartialEq, Eq)]
pub enum Place {
    Entry(u32, u32),
    Change(u32, u32),
}

// The name of the cell of a place. A seller with a number is spelled as the key of a product is.
fn name_of(alloc: Global, place: Place) -> Result<CellName, AllocError>
    ensures { IfOk result (λ name. name ≡ place_name place) }
{
    match place {
        Place::Entry(seller, product) => key_name(alloc, ENTRY, ProductKey { seller, product }),
        Place::Change(seller, product) => key_name(alloc, CHANGE, ProductKey { seller, product }),
    }
}

// The place whose cell has the name.
fn place_named(name: &CellName) -> Option<Place>
    ensures named { IfSome result (λ place. name.now ≡ place_name place) }
    ensures formed { IfSome result (λ place. IsSpelledPlace place) }
    ensures found { (place : Place) → IsSpelledPlace place → name.now ≡ place_name place
        → result ≡ Some place }
{
    if let Some(key) = key_named(ENTRY, name) {
        return Some(Place::Entry(key.seller, key.product));
    }
    let key = key_named(CHANGE, name)?;
    Some(Place::Change(key.seller, key.product))
}

// The word of a status.
fn word_of(status: OrderStatus) -> &'static str
    ensures { result.now ≡ status_text status }
{
    match status {
        OrderStatus::Invoiced => "invoiced",
        OrderStatus::Paid => "paid",
        OrderStatus::Shipped => "shipped",
        OrderStatus::Delivered => "delivered",
        OrderStatus::Cancelled => "cancelled",
    }
}

// The entries among the changes.
fn entries_of(alloc: Global, changes: &[Change]) -> Result<Vec<Change>, AllocError>
    ensures { IfOk result (λ entries. entries.items ≡ entries_at changes.now) }
{
    let mut entries = Vec::new(alloc);
    for change in changes {
        if is_new(change.status) {
            entries.push(*change)?;
        }
    }
    Ok(entries)
}

// The number of the entry that a change is of, and one more than there are where it is of none.
fn number_of(entries: &[Change], change: &Change) -> usize
    ensures { result ≡ entry_number entries.now change.now }
{
    for (index, entry) in entries.iter().enumerate() {
        if id_of(entry) == id_of(change) {
            return index + 1;
        }
    }
    entries.len() + 1
}

// What an entry costs.
fn cost_of(entry: &Change) -> u64
    ensures { result ≡ line_cost entry.now.line }
{
    let line = &entry.line;
    line_amount(line.price, line.quantity, line.freight, line.voucher)
}

// The text of an entry.
fn text_of_entry(alloc: Global, entry: &Change) -> Result<List<u8>, AllocError>
    ensures { IfOk result (λ text. text ≡ entry_text entry.now) }
{
    let caller = entry.checkout.caller;
    let number = entry.checkout.number;
    let product = entry.line.key.product;
    let quantity = entry.line.quantity.get();
    let cost = cost_of(entry);
    let text = format!(in alloc; "{caller}.{number}:{product}:{quantity}:{cost}")?;
    Ok(List::from_vec(text.into_bytes()))
}

// The text of a change, by the entries of its seller.
fn text_of_change(
    alloc: Global,
    entries: &[Change],
    change: &Change,
) -> Result<List<u8>, AllocError>
    ensures { IfOk result (λ text. text ≡ change_text entries.now change.now) }
{
    let number = number_of(entries, change);
    let status = word_of(change.status);
    let text = format!(in alloc; "{number} {status}")?;
    Ok(List::from_vec(text.into_bytes()))
}

// The change with this number, from 1.
fn numbered(changes: &[Change], number: u32) -> Option<&Change>
    ensures { option_copied result ≡ at_number changes.now number }
{
    let index = number.checked_sub(1)?;
    changes.get(index as usize)
}

// The text of a place, none where there is none.
fn text_of(alloc: Global, ledgers: &Ledgers, place: Place) -> Result<Option<List<u8>>, AllocError>
    ensures { IfOk result (λ text. text ≡ text_at (changes_at ledgers.now) place) }
{
    match place {
        Place::Entry(seller, number) => {
            let entries = entries_of(alloc, ledgers.changes(seller))?;
            match numbered(entries.as_slice(), number) {
                Some(entry) => Ok(Some(text_of_entry(alloc, entry)?)),
                None => Ok(None),
            }
        }
        Place::Change(seller, number) => {
            let changes = ledgers.changes(seller);
            let entries = entries_of(alloc, changes)?;
            match numbered(changes, number) {
                Some(change) => Ok(Some(text_of_change(alloc, entries.as_slice(), change)?)),
                None => Ok(None),
            }
        }
    }
}

// Puts the cells of a seller's entries.
fn put_entries(
    alloc: Global,
    seller: u32,
    entries: &[Change],
    cells: &mut CellList,
) -> Result<(), AllocError>
    requires { length entries.now < 2 ^ 32 }
    ensures { OnOk result (cells.new ≡ put_all cells.old (cells_of_entries seller entries.now)) }
{
    for (index, entry) in entries.iter().enumerate() {
        let name = name_of(alloc, Place::Entry(seller, index as u32 + 1))?;
        cells.put(name, text_of_entry(alloc, entry)?)?;
    }
    Ok(())
}

// Puts the cells of a seller's changes.
fn put_changes(
    alloc: Global,
    seller: u32,
    entries: &[Change],
    changes: &[Change],
    cells: &mut CellList,
) -> Result<(), AllocError>
    requires { length changes.now < 2 ^ 32 }
    ensures { OnOk result (cells.new ≡ put_all cells.old (cells_of_changes seller entries.now changes.now)) }
{
    for (index, change) in changes.iter().enumerate() {
        let name = name_of(alloc, Place::Change(seller, index as u32 + 1))?;
        cells.put(name, text_of_change(alloc, entries, change)?)?;
    }
    Ok(())
}

// Puts the cells of a seller.
fn put_seller(
    alloc: Global,
    seller: u32,
    changes: &[Change],
    cells: &mut CellList,
) -> Result<(), AllocError>
    requires { length changes.now < 2 ^ 32 }
    ensures { OnOk result (cells.new ≡ put_all cells.old (cells_of_seller seller changes.now)) }
{
    let entries = entries_of(alloc, changes)?;
    put_entries(alloc, seller, entries.as_slice(), cells)?;
    put_changes(alloc, seller, entries.as_slice(), changes, cells)
}

// Puts the cells of all sellers.
fn put_sellers(alloc: Global, ledgers: &Ledgers, cells: &mut CellList) -> Result<(), AllocError>
    requires { (seller : ℕ) → length (changes_at ledgers.now seller) < 2 ^ 32 }
    ensures { OnOk result (cells.new ≡ put_all cells.old (table_cells ledgers.now)) }
{
    for seller in ledgers.sellers(alloc)? {
        put_seller(alloc, seller, ledgers.changes(seller), cells)?;
    }
    Ok(())
}

/// The cells of all sellers, by rising name.
pub fn cells_of(alloc: Global, ledgers: &Ledgers) -> Result<Vec<Cell>, AllocError>
    requires { (seller : ℕ) → length (changes_at ledgers.now seller) < 2 ^ 32 }
    ensures { IfOk result (λ cells. cells.items ≡ cells_listed (table_cells ledgers.now)) }
{
    let mut cells = CellList::new(alloc);
    put_sellers(alloc, ledgers, &mut cells)?;
    cells.into_cells()
}

/// The value at a name, none where it is the name of no cell.
pub fn value_named(
    alloc: Global,
    ledgers: &Ledgers,
    name: &CellName,
) -> Result<Option<List<u8>>, AllocError>
    ensures { IfOk result (λ value. Within IsSpelledPlace (text_at (changes_at ledgers.now))
        → value ≡ last_value name.now (table_cells ledgers.now)) }
{
    let Some(place) = place_named(name) else {
        return Ok(None);
    };
    text_of(alloc, ledgers, place)
}

// How many of the changes are of the seller.
fn count_of(changes: &[Change], seller: u32) -> usize
    ensures { result ≡ count_by (is_of_seller seller) changes.now }
{
    let mut count = 0;
    for change in changes {
        if change.line.key.seller == seller {
            count += 1;
        }
    }
    count
}

/// Puts the names of the cells of changes that come to those of the ledgers.
pub fn put_change_names(
    alloc: Global,
    ledgers: &Ledgers,
    changes: &[Change],
    names: &mut NameList,
) -> Result<(), AllocError>
    requires { (seller : ℕ) → length (changes_at ledgers.now seller) + length changes.now < 2 ^ 32 }
    ensures named { OnOk result ((seller number : ℕ) → let before = length (changes_at ledgers.now seller) in
        before < number → number ≤ before + count_by (is_of_seller seller) changes.now
        → is_named names.new (place_name (Place.Change seller number)) ≡ true) }
    ensures tables { OnOk result ((name : Name) → is_named names.new name ≡ true
        → (is_named names.old name ≡ true) ⊎ (name.table ≡ codes "change")) }
    ensures stay { OnOk result ((name : Name) →
        is_named names.old name ≡ true → is_named names.new name ≡ true) }
    ensures few { OnOk result (length names.new ≤ length names.old + length changes.now) }
{
    for (index, change) in changes.iter().enumerate() {
        let seller = change.line.key.seller;
        let before = ledgers.changes(seller).len() + count_of(&changes[..index], seller);
        names.put(name_of(alloc, Place::Change(seller, before as u32 + 1))?)?;
    }
    Ok(())
}

/// Puts the names of the cells of the entries that these changes add, each an entry that is new.
pub fn put_entry_names(
    alloc: Global,
    ledgers: &Ledgers,
    changes: &[Change],
    names: &mut NameList,
) -> Result<(), AllocError>
    requires { (seller : ℕ) → length (changes_at ledgers.now seller) + length changes.now < 2 ^ 32 }
    ensures named { OnOk result ((seller number : ℕ) →
        let before = length (entries_at (changes_at ledgers.now seller)) in
        before < number → number ≤ before + count_by (is_of_seller seller) changes.now
        → is_named names.new (place_name (Place.Entry seller number)) ≡ true) }
    ensures tables { OnOk result ((name : Name) → is_named names.new name ≡ true
        → (is_named names.old name ≡ true) ⊎ (name.table ≡ codes "entry")) }
    ensures stay { OnOk result ((name : Name) →
        is_named names.old name ≡ true → is_named names.new name ≡ true) }
    ensures few { OnOk result (length names.new ≤ length names.old + length changes.now) }
{
    for (index, change) in changes.iter().enumerate() {
        let seller = change.line.key.seller;
        let entries = entry_count(ledgers.changes(seller));
        let before = entries + count_of(&changes[..index], seller);
        names.put(name_of(alloc, Place::Entry(seller, before as u32 + 1))?)?;
    }
    Ok(())
}

// How many entries there are among the changes.
fn entry_count(changes: &[Change]) -> usize
    ensures value { result ≡ length (entries_at changes.now) }
    ensures within { result ≤ length changes.now }
{
    let mut count = 0;
    for change in changes {
        if is_new(change.status) {
            count += 1;
        }
    }
    count
}
