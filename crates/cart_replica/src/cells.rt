//! The cells of a copy: one of each product that it shows, with the text of the look.

ghost use Rattle.std.specs.Prelude.{◌≡◌, IfOk, OnOk};
ghost use Rattle.market_events.specs.Cells.{look_text};
ghost use Rattle.market_events.specs.CellLists.{put_some, put_all, key_cell};
ghost use Rattle.market_events.specs.CellNames.{key_name};
ghost use Rattle.cart_replica.specs.Copy.{look_at};
ghost use Rattle.cart_replica.specs.CopyCells.{text_in, copy_cells};

use market_amounts::{List, ProductKey};
use market_events::{CellList, Look, key_name};
use std::alloc::{AllocError, Global};
use std::collections::BTreeMap;

/// The text of what is shown of a product, none where it is unknown.
pub fn look_text(alloc: Global, look: Look) -> Result<Option<List<u8>>, AllocError>
    ensures { IfOk result (λ text. text ≡ look_text look) }
{
    match look {
        Look::Unknown => Ok(None),
        Look::Gone(version) => {
            let text = format!(in alloc; "gone {version}")?;
            Ok(Some(List::from_vec(text.into_bytes())))
        }
        Look::Live(version, price, freight) => {
            let price = price.get();
            let freight = freight.get();
            let text = format!(in alloc; "live {version} {price} {freight}")?;
            Ok(Some(List::from_vec(text.into_bytes())))
        }
    }
}

// What the entries have of a product.
fn look_in(looks: &BTreeMap<ProductKey, Look>, key: ProductKey) -> Look
    ensures { result ≡ look_at looks.now.entries key }
{
    looks.get(&key).copied().unwrap_or(Look::Unknown)
}

// Puts the cell of a product, where the look has a text.
fn put_look(
    alloc: Global,
    table: &[u8],
    key: ProductKey,
    look: Look,
    cells: &mut CellList,
) -> Result<(), AllocError>
    ensures { OnOk result (cells.new
        ≡ put_some cells.old (key_cell (key_name table.now) (λ _. look_text look) key)) }
{
    let Some(text) = look_text(alloc, look)? else {
        return Ok(());
    };
    let name = key_name(alloc, table, key)?;
    cells.put(name, text)
}

// Puts the cells of all entries.
pub(crate) fn put_looks(
    alloc: Global,
    table: &[u8],
    looks: &BTreeMap<ProductKey, Look>,
    cells: &mut CellList,
) -> Result<(), AllocError>
    ensures { OnOk result (cells.new ≡ put_all cells.old (copy_cells table.now looks.now.entries)) }
{
    for key in looks.keys() {
        put_look(alloc, table, *key, look_in(looks, *key), cells)?;
    }
    Ok(())
}
