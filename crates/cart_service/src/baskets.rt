//! The baskets of all customers. A customer without a basket has an empty one.

ghost use Rattle.std.specs.Prelude.{◌≡◌, ◌&&◌, false, not, nat_le, length, [], filter_map, IfOk, OnOk, OnErr};
ghost use Rattle.std.specs.BTreeMap.{insert_entry};
ghost use Rattle.market_events.specs.Carts.{has_key, priced as priced_at};
ghost use Rattle.market_events.specs.CellLists.{put_all, last_value};
ghost use Rattle.market_events.specs.Steps.{key_cmp};
ghost use Rattle.market_events.specs.WellFormed.{most_lines};
ghost use Rattle.cart_replica.specs.Copy.{look_at};
ghost use Rattle.cart_service.specs.Cells.{lines_cells, basket_cells, names_in, AreSmall, line_held};
ghost use Rattle.cart_service.specs.Tables.{lines_at, without, undone_by_basket, ChangesOnly, AreSame};

use crate::basket::{Basket, Held};
use crate::cells::{line_named, line_text};
use cart_replica::ProductCopy;
use market_amounts::{List, ProductKey};
use market_events::{CellList, CellName, PricedLine, UndoneRule};
use std::alloc::{AllocError, Global};
use std::collections::BTreeMap;
use std::marker::Model;

/// The basket of each customer who has one. Contracts see the lines of each by rising customer.
#[derive(Debug, Drop)]
pub struct Baskets {
    baskets: BTreeMap<u32, Basket>,
}

impl Model for Baskets {
    ghost use Rattle.std.specs.Prelude.{ℕ, List};
    ghost use Rattle.market_amounts.specs.declared.keys.ProductKey.{ProductKey};
    ghost use Rattle.market_events.specs.Carts.{Held as HeldLine};

    ghost Value = { List (ℕ × List (ProductKey × HeldLine)) };

    ghost view = { λ baskets. baskets.baskets.entries };
}

impl Baskets {
    /// No customer has a basket. It takes no memory.
    pub fn new(alloc: Global) -> Baskets
        ensures { result ≡ [] }
    {
        Baskets {
            baskets: BTreeMap::new(alloc),
        }
    }

    /// Whether a line of the product may be set in the customer's basket.
    pub fn has_room(&self, customer: u32, key: ProductKey) -> bool
        ensures { result ≡ not (nat_le most_lines (length (lines_at self.now customer))
            && not (has_key (lines_at self.now customer) key)) }
    {
        match self.baskets.get(&customer) {
            Some(basket) => basket.has_room(key),
            None => true,
        }
    }

    /// Whether there is a line of the product in the customer's basket.
    pub fn has_line(&self, customer: u32, key: ProductKey) -> bool
        ensures { result ≡ has_key (lines_at self.now customer) key }
    {
        match self.baskets.get(&customer) {
            Some(basket) => basket.has(key),
            None => false,
        }
    }

    /// Sets the line of the product in the customer's basket, which requires that it may be set. On want of
    /// memory each customer has the same lines.
    pub fn set(
        &mut self,
        alloc: Global,
        customer: u32,
        key: ProductKey,
        held: Held,
    ) -> Result<(), AllocError>
        requires { nat_le most_lines (length (lines_at self.old customer))
            && not (has_key (lines_at self.old customer) key) ≡ false }
        ensures ok { OnOk result
            (ChangesOnly self.old self.new customer
            (insert_entry key_cmp (lines_at self.old customer) key held)) }
        ensures err { OnErr result (AreSame self.old self.new) }
    {
        if let Some(basket) = self.baskets.get_mut(&customer) {
            return basket.set(key, held);
        }
        let mut basket = Basket::new(alloc);
        basket.set(key, held)?;
        self.baskets.insert(customer, basket)?;
        Ok(())
    }

    /// Takes the line of the product out of the customer's basket. It takes no memory.
    pub fn remove(&mut self, customer: u32, key: ProductKey)
        ensures { ChangesOnly self.old self.new customer (without key (lines_at self.old customer)) }
    {
        if let Some(basket) = self.baskets.get_mut(&customer) {
            basket.remove(key);
        }
    }

    /// Takes all lines out of the customer's basket. It takes no memory.
    pub fn empty(&mut self, customer: u32)
        ensures { ChangesOnly self.old self.new customer [] }
    {
        self.baskets.remove(&customer);
    }

    /// Why a checkout of the customer's basket is undone at once.
    pub fn undone(&self, customer: u32, copy: &ProductCopy) -> Option<UndoneRule>
        ensures { result ≡ undone_by_basket (look_at copy.now) (lines_at self.now customer) }
    {
        match self.baskets.get(&customer) {
            Some(basket) => basket.undone(copy),
            None => Some(UndoneRule::CartEmpty),
        }
    }

    /// The lines of the customer's basket that are of live products, with the price and the freight that the
    /// copy shows.
    pub fn priced(
        &self,
        alloc: Global,
        customer: u32,
        copy: &ProductCopy,
    ) -> Result<List<PricedLine>, AllocError>
        ensures { IfOk result (λ lines. lines
            ≡ filter_map (priced_at (look_at copy.now)) (lines_at self.now customer)) }
    {
        match self.baskets.get(&customer) {
            Some(basket) => basket.priced(alloc, copy),
            None => Ok(List::from_vec(Vec::new(alloc))),
        }
    }

    // What the customer's basket holds of a product.
    fn held(&self, customer: u32, key: ProductKey) -> Option<Held>
        ensures { result ≡ line_held (lines_at self.now customer) key }
    {
        self.baskets.get(&customer)?.held(key)
    }

    // Puts the cells of a customer's lines. On want of memory some are not put.
    fn put_basket(
        &self,
        alloc: Global,
        customer: u32,
        cells: &mut CellList,
    ) -> Result<(), AllocError>
        ensures { OnOk result (cells.new
            ≡ put_all cells.old (lines_cells customer (lines_at self.now customer))) }
    {
        match self.baskets.get(&customer) {
            Some(basket) => basket.put_cells(alloc, customer, cells),
            None => Ok(()),
        }
    }

    /// Puts the cells of all lines. On want of memory some are not put.
    pub fn put_cells(&self, alloc: Global, cells: &mut CellList) -> Result<(), AllocError>
        ensures { OnOk result (cells.new ≡ put_all cells.old (basket_cells self.now)) }
    {
        for customer in self.baskets.keys() {
            self.put_basket(alloc, *customer, cells)?;
        }
        Ok(())
    }

    /// The names of the cells of a customer's lines.
    pub fn names(&self, alloc: Global, customer: u32) -> Result<Vec<CellName>, AllocError>
        ensures { IfOk result (λ names. names.items ≡ names_in customer (lines_at self.now customer)) }
    {
        match self.baskets.get(&customer) {
            Some(basket) => basket.names(alloc, customer),
            None => Ok(Vec::new(alloc)),
        }
    }

    /// The value of the cell of a line that has the name, none where there is no such cell.
    pub fn cell_value(&self, alloc: Global, name: &CellName) -> Result<Option<List<u8>>, AllocError>
        ensures { IfOk result (λ value. AreSmall self.now
            → value ≡ last_value name.now (basket_cells self.now)) }
    {
        let Some((customer, key)) = line_named(name) else {
            return Ok(None);
        };
        line_text(alloc, self.held(customer, key))
    }
}
