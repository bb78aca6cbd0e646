//! A package, and what is packed of a paid checkout.

ghost use Rattle.std.specs.Prelude.{◌≡◌, map, IfOk};
ghost use Rattle.shipment_service.specs.Tables.{open_of, item_packed};

use market_amounts::CheckoutId;
use market_events::{Item, PricedLine};
use std::alloc::{AllocError, Global};

/// What is in a package, and whether it is open: no delivery has it.
#[derive(Clone, Copy, Debug, PartialEq, Eq)]
pub struct Package {
    pub item: Item,
    pub is_open: bool,
}

/// What is packed of a paid checkout, an item for each line.
pub fn packed(
    alloc: Global,
    checkout: CheckoutId,
    customer: u32,
    lines: &[PricedLine],
) -> Result<Vec<Item>, AllocError>
    ensures { IfOk result (λ items. items.items ≡ map (item_packed checkout customer) lines.now) }
{
    lines
        .iter()
        .map(|line| Item {
            checkout,
            customer,
            key: line.key,
        })
        .collect(alloc)
}

/// The open packages of these items.
pub fn opened(alloc: Global, items: &[Item]) -> Result<Vec<Package>, AllocError>
    ensures { IfOk result (λ packages. packages.items ≡ map open_of items.now) }
{
    items
        .iter()
        .map(|item| Package {
            item: *item,
            is_open: true,
        })
        .collect(alloc)
}
