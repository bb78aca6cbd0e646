//! Names and values of the cells of packages.

ghost use Rattle.std.specs.Prelude.{◌≡◌, ◌+◌, ◌<◌, ◌≤◌, ◌^◌, length, map, codes, if◌then◌else◌, IfOk};
ghost use Rattle.std.specs.List.{IsDistinct};
ghost use Rattle.market_events.specs.Cells.{cells_listed};
ghost use Rattle.market_events.specs.CellLists.{last_value};
ghost use Rattle.market_events.specs.Standing.{same_name};
ghost use Rattle.shipment_service.specs.Cells.{name_by, text_by, table_cells, names_from};

use crate::package::Package;
use market_amounts::List;
use market_events::{Cell, CellList, CellName, number_name, number_named};
use std::alloc::{AllocError, Global};

const TABLE: &[u8] = b"package";

// The end of the text of a package.
fn end_of(is_open: bool) -> &'static str
    ensures { result.now ≡ (if is_open then codes " open" else codes " closed") }
{
    if is_open { " open" } else { " closed" }
}

// The name of the cell of the package with a number.
fn name_of(alloc: Global, number: u32) -> Result<CellName, AllocError>
    ensures { IfOk result (λ name. name ≡ name_by number) }
{
    number_name(alloc, TABLE, number)
}

// The text of a package.
fn text_of(alloc: Global, parcel: Package) -> Result<List<u8>, AllocError>
    ensures { IfOk result (λ text. text ≡ text_by parcel) }
{
    let caller = parcel.item.checkout.caller;
    let number = parcel.item.checkout.number;
    let customer = parcel.item.customer;
    let seller = parcel.item.key.seller;
    let product = parcel.item.key.product;
    let end = end_of(parcel.is_open);
    let text = format!(in alloc; "{caller}.{number}:{customer}:{seller}:{product}{end}")?;
    Ok(List::from_vec(text.into_bytes()))
}

/// The cells of all packages, by rising name.
pub fn cells_of(alloc: Global, packages: &[Package]) -> Result<Vec<Cell>, AllocError>
    requires { length packages.now < 2 ^ 32 }
    ensures { IfOk result (λ cells. cells.items ≡ cells_listed (table_cells packages.now)) }
{
    let mut cells = CellList::new(alloc);
    for (index, parcel) in packages.iter().enumerate() {
        let text = text_of(alloc, *parcel)?;
        let name = name_of(alloc, index as u32 + 1)?;
        cells.put(name, text)?;
    }
    cells.into_cells()
}

/// The value at a name, none where it is the name of no cell.
pub fn value_named(
    alloc: Global,
    packages: &[Package],
    name: &CellName,
) -> Result<Option<List<u8>>, AllocError>
    ensures { IfOk result (λ value. length packages.now < 2 ^ 32
        → value ≡ last_value name.now (table_cells packages.now)) }
{
    let Some(number) = number_named(TABLE, name) else {
        return Ok(None);
    };
    let Some(index) = number.checked_sub(1) else {
        return Ok(None);
    };
    match packages.get(index as usize) {
        Some(parcel) => Ok(Some(text_of(alloc, *parcel)?)),
        None => Ok(None),
    }
}

/// The names of the cells of so many packages, where so many stand before them.
pub fn names_behind(alloc: Global, before: usize, count: usize) -> Result<Vec<CellName>, AllocError>
    requires { before + count + 2 ≤ 2 ^ 32 }
    ensures named { IfOk result (λ names. names.items ≡ names_from (before + 1) count) }
    ensures differ { IfOk result (λ names. IsDistinct same_name names.items) }
{
    let first = before as u32 + 1;
    let mut names = Vec::new(alloc);
    for k in 0..count {
        names.push(name_of(alloc, first + k as u32)?)?;
    }
    Ok(names)
}

/// The names of the cells of packages with these numbers.
pub fn names_of(alloc: Global, numbers: &[u32]) -> Result<Vec<CellName>, AllocError>
    ensures { IfOk result (λ names. names.items ≡ map name_by numbers.now) }
{
    let mut names = Vec::new(alloc);
    for number in numbers {
        names.push(name_of(alloc, *number)?)?;
    }
    Ok(names)
}
