//! The copy of the products.

ghost use Rattle.std.specs.Prelude.{◌≡◌, ◌+◌, List, [], ◌∷◌, ◌++◌, None, true, false, IfOk, OnOk, OnErr};
ghost use Rattle.market_amounts.specs.declared.keys.ProductKey.{ProductKey};
ghost use Rattle.market_events.specs.Requests.{same_key};
ghost use Rattle.market_events.specs.Copies.{ProductChange, copy_of};
ghost use Rattle.market_events.specs.Looks.{look_version, can_change, look_after};
ghost use Rattle.market_events.specs.Cells.{look_text, look_cells};
ghost use Rattle.market_events.specs.CellLists.{put_all, last_value};
ghost use Rattle.market_events.specs.CellNames.{key_name};
ghost use Rattle.market_events.specs.Formed.{key_formed};
ghost use Rattle.cart_replica.specs.Copy.{look_at, IsCopyOf};
ghost use Rattle.cart_replica.specs.CopyCells.{text_in, copy_cells, AreKeysFormed};

use crate::cells::{look_text, put_looks};
use market_amounts::{List, ProductKey};
use market_events::{CellList, CellName, Change, Look, key_named};
use std::alloc::{AllocError, Global};
use std::collections::BTreeMap;
use std::marker::Model;

/// What is known of each product. Contracts see the entries, in the order of their keys; a product without an
/// entry is unknown.
#[derive(Debug, Drop)]
pub struct ProductCopy {
    looks: BTreeMap<ProductKey, Look>,
}

impl Model for ProductCopy {
    ghost use Rattle.std.specs.Prelude.{List};
    ghost use Rattle.market_amounts.specs.declared.keys.ProductKey.{ProductKey};
    ghost use Rattle.market_events.specs.declared.changes.Look.{Look};

    ghost Value = { List (ProductKey × Look) };

    ghost view = { λ copy. copy.looks.entries };
}

impl ProductCopy {
    /// A copy that knows no product.
    pub fn new(alloc: Global) -> ProductCopy
        ensures unknown { (key : ProductKey) → look_at result key ≡ Look.Unknown }
        ensures copies { IsCopyOf result [] }
    {
        ProductCopy {
            looks: BTreeMap::new(alloc),
        }
    }

    /// What the copy shows of a product. It takes no memory.
    pub fn look(&self, key: ProductKey) -> Look
        ensures value { result ≡ look_at self.now key }

        // Of whichever changes it is the copy, it shows what they leave.
        ensures copied { (changes : List ProductChange) → IsCopyOf self.now changes
            → result ≡ copy_of changes key }
    {
        self.looks.get(&key).copied().unwrap_or(Look::Unknown)
    }

    /// Applies a change of a product. It requires the version after the one that is shown, 1 for an unknown
    /// product, and for a price or a deletion that the product is live. On want of memory the copy is as
    /// before.
    pub fn apply(
        &mut self,
        key: ProductKey,
        version: u32,
        change: &Change,
    ) -> Result<(), AllocError>
        requires next { version ≡ look_version (look_at self.old key) + 1 }
        requires can { can_change (look_at self.old key) change.now ≡ true }

        ensures changed { OnOk result (look_at self.new key
            ≡ look_after (look_at self.old key) version change.now) }

        // Every other product is shown as before.
        ensures others { OnOk result ((other : ProductKey) → same_key other key ≡ false
            → look_at self.new other ≡ look_at self.old other) }

        // The copy of some changes becomes the copy of these and this one.
        ensures copies { OnOk result ((changes : List ProductChange) → IsCopyOf self.old changes
            → IsCopyOf self.new
            (changes ++ record { key = key; version = version; change = change.now } ∷ [])) }
        ensures err { OnErr result (self.new ≡ self.old) }
    {
        let look = changed(self.look(key), version, change);
        self.looks.insert(key, look)?;
        Ok(())
    }

    /// Puts the cells of all products that the copy shows, in this table. On want of memory some are not put.
    pub fn put_cells(
        &self,
        alloc: Global,
        table: &[u8],
        cells: &mut CellList,
    ) -> Result<(), AllocError>
        ensures { OnOk result (cells.new ≡ put_all cells.old (copy_cells table.now self.now)) }
    {
        put_looks(alloc, table, &self.looks, cells)
    }

    /// The value of the cell in this table that has the name, none where there is no such cell.
    pub fn cell_value(
        &self,
        alloc: Global,
        table: &[u8],
        name: &CellName,
    ) -> Result<Option<List<u8>>, AllocError>
        ensures shown { IfOk result (λ value. (key : ProductKey) → key_formed key ≡ true
            → name.now ≡ key_name table.now key → value ≡ text_in self.now key) }
        ensures none { IfOk result (λ value.
            ((key : ProductKey) → key_formed key ≡ true → name.now ≡ key_name table.now key → ⊥)
            → value ≡ None) }

        // Of whichever changes of well-formed keys it is the copy, it is the value of their cell.
        ensures copied { IfOk result (λ value. (changes : List ProductChange) → IsCopyOf self.now changes
            → AreKeysFormed changes → value ≡ last_value name.now (look_cells table.now changes)) }
    {
        let Some(key) = key_named(table, name) else {
            return Ok(None);
        };
        look_text(alloc, self.look(key))
    }
}

// What a change leaves of a product.
fn changed(look: Look, version: u32, change: &Change) -> Look
    requires { can_change look change.now ≡ true }
    ensures { result ≡ look_after look version change.now }
{
    match (change, look) {
        (Change::Created(price, freight), _) => Look::Live(version, *price, *freight),
        (Change::Priced(price), Look::Live(_, _, freight)) => Look::Live(version, *price, freight),
        (Change::Priced(_), Look::Unknown | Look::Gone(_)) => unreachable!(),
        (Change::Deleted, _) => Look::Gone(version),
    }
}
