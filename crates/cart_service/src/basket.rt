//! The basket of one customer.

ghost use Rattle.std.specs.Prelude.{◌≡◌, ◌&&◌, false, not, nat_le, [], length, filter_map, IfOk, OnOk, OnErr};
ghost use Rattle.std.specs.BTreeMap.{insert_entry};
ghost use Rattle.market_amounts.specs.declared.keys.ProductKey.{ProductKey};
ghost use Rattle.market_events.specs.Carts.{has_key, priced_by, priced as priced_at};
ghost use Rattle.market_events.specs.Carts.{first_gone as first_gone_in};
ghost use Rattle.market_events.specs.Looks.{is_live as is_live_look};
ghost use Rattle.market_events.specs.Steps.{key_cmp};
ghost use Rattle.market_events.specs.WellFormed.{most_lines};
ghost use Rattle.market_events.specs.CellLists.{put_all};
ghost use Rattle.cart_replica.specs.Copy.{look_at};
ghost use Rattle.cart_service.specs.Cells.{lines_cells, names_in, line_held};
ghost use Rattle.cart_service.specs.Tables.{without, undone_by_basket};

use crate::cells::{line_name, put_line};
use cart_replica::ProductCopy;
use market_amounts::{Cents, List, ProductKey, Quantity};
use market_events::{CellList, CellName, Look, PricedLine, UndoneRule};
use std::alloc::{AllocError, Global};
use std::collections::BTreeMap;
use std::marker::Model;

// How many lines a basket has at most.
const MOST_LINES: usize = 32;

/// What a basket holds of a product: the quantity, and the voucher on it.
#[derive(Clone, Copy, Debug, PartialEq, Eq)]
pub struct Held {
    pub quantity: Quantity,
    pub voucher: Cents,
}

impl Model for Held {
    ghost use Rattle.market_events.specs.Carts.{Held as HeldLine};

    ghost Value = { HeldLine };

    ghost view = { λ held. record { quantity = held.quantity; voucher = held.voucher } };

    ghost inverse = { λ held. record { quantity = held.quantity; voucher = held.voucher } };
}

/// The lines of one customer, at most `MOST_LINES`, one for each product. Contracts see them by rising key.
#[derive(Debug, Drop)]
pub struct Basket {
    lines: BTreeMap<ProductKey, Held>,
}

impl Model for Basket {
    ghost use Rattle.std.specs.Prelude.{List, ◌≤◌, length};
    ghost use Rattle.std.specs.List.Sorted.{IsStrictlySortedBy};
    ghost use Rattle.std.specs.Map.{keys_of};
    ghost use Rattle.market_amounts.specs.declared.keys.ProductKey.{ProductKey};
    ghost use Rattle.market_events.specs.Carts.{Held as HeldLine};
    ghost use Rattle.market_events.specs.Steps.{key_cmp};
    ghost use Rattle.market_events.specs.WellFormed.{most_lines};

    ghost Value = { List (ProductKey × HeldLine) };

    ghost view = { λ basket. basket.lines.entries };

    ghost invariant = { λ basket. (length basket.lines.entries ≤ most_lines)
        × IsStrictlySortedBy key_cmp (keys_of basket.lines.entries) };
}

impl Basket {
    /// A basket with no line. It takes no memory.
    pub fn new(alloc: Global) -> Basket
        ensures { result ≡ [] }
    {
        Basket {
            lines: BTreeMap::new(alloc),
        }
    }

    /// Whether there is a line of the product.
    pub fn has(&self, key: ProductKey) -> bool
        ensures { result ≡ has_key self.now key }
    {
        self.lines.contains_key(&key)
    }

    /// Whether a line of the product may be set: there is one, or there are fewer than `MOST_LINES`.
    pub fn has_room(&self, key: ProductKey) -> bool
        ensures { result ≡ not (nat_le most_lines (length self.now) && not (has_key self.now key)) }
    {
        self.lines.len() < MOST_LINES || self.has(key)
    }

    /// Sets the line of the product, which requires that it may be set. On want of memory nothing changes.
    pub fn set(&mut self, key: ProductKey, held: Held) -> Result<(), AllocError>
        requires { nat_le most_lines (length self.old) && not (has_key self.old key) ≡ false }
        ensures ok { OnOk result (self.new ≡ insert_entry key_cmp self.old key held) }
        ensures err { OnErr result (self.new ≡ self.old) }
    {
        self.lines.insert(key, held)?;
        Ok(())
    }

    /// Takes the line of the product away.
    pub fn remove(&mut self, key: ProductKey)
        ensures { self.new ≡ without key self.old }
    {
        self.lines.remove(&key);
    }

    /// Why a checkout of the basket is undone at once: it has no line, or one of a product that is not live,
    /// of which the least is named.
    pub fn undone(&self, copy: &ProductCopy) -> Option<UndoneRule>
        ensures { result ≡ undone_by_basket (look_at copy.now) self.now }
    {
        if self.lines.is_empty() {
            return Some(UndoneRule::CartEmpty);
        }
        let key = self.first_gone(copy)?;
        Some(UndoneRule::Gone(key))
    }

    // The least product of the basket that is not live.
    fn first_gone(&self, copy: &ProductCopy) -> Option<ProductKey>
        ensures { result ≡ first_gone_in (look_at copy.now) self.now }
    {
        for key in self.lines.keys() {
            if !is_live(copy.look(*key)) {
                return Some(*key);
            }
        }
        None
    }

    /// The lines of products that are live, with the price and the freight that the copy shows.
    pub fn priced(&self, alloc: Global, copy: &ProductCopy) -> Result<List<PricedLine>, AllocError>
        ensures { IfOk result (λ lines. lines ≡ filter_map (priced_at (look_at copy.now)) self.now) }
    {
        let mut lines = Vec::new(alloc);
        for (key, held) in &self.lines {
            if let Some(line) = priced_line(*key, *held, copy.look(*key)) {
                lines.push(line)?;
            }
        }
        Ok(List::from_vec(lines))
    }

    /// What the basket holds of a product.
    pub fn held(&self, key: ProductKey) -> Option<Held>
        ensures { result ≡ line_held self.now key }
    {
        self.lines.get(&key).copied()
    }

    /// Puts the cells of the lines, which are this customer's. On want of memory some are not put.
    pub fn put_cells(
        &self,
        alloc: Global,
        customer: u32,
        cells: &mut CellList,
    ) -> Result<(), AllocError>
        ensures { OnOk result (cells.new ≡ put_all cells.old (lines_cells customer self.now)) }
    {
        for key in self.lines.keys() {
            put_line(alloc, customer, *key, self.held(*key), cells)?;
        }
        Ok(())
    }

    /// The names of the cells of the lines, which are this customer's.
    pub fn names(&self, alloc: Global, customer: u32) -> Result<Vec<CellName>, AllocError>
        ensures { IfOk result (λ names. names.items ≡ names_in customer self.now) }
    {
        let mut names = Vec::new(alloc);
        for key in self.lines.keys() {
            names.push(line_name(alloc, customer, *key)?)?;
        }
        Ok(names)
    }
}

// Whether the product is there.
fn is_live(look: Look) -> bool
    ensures { result ≡ is_live_look look }
{
    matches!(look, Look::Live(..))
}

// The line with the price and the freight that are shown.
fn priced_line(key: ProductKey, held: Held, look: Look) -> Option<PricedLine>
    ensures { result ≡ priced_by key held look }
{
    let Look::Live(_, price, freight) = look else {
        return None;
    };
    Some(PricedLine {
        key,
        quantity: held.quantity,
        price,
        freight,
        voucher: held.voucher,
    })
}
