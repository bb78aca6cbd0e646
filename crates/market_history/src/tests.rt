ghost use Rattle.std.specs.Prelude.{◌≡◌, ℕ, ◌+◌, ◌^◌, ◌<◌, ◌≤◌, length};
ghost use Rattle.market_events.specs.Links.{product_node};
ghost use Rattle.market_history.specs.Journals.{IsEntry};

use crate::journals::Journal;
use market_amounts::{Cents, ProductKey};
use market_events::{Body, Change, Counts, Entry, Event, PRODUCT_TO_CART, Role, What};
use std::test::Fail;

// That products changed a price, as their event of this number to the cart, with this clock.
fn price_changed(number: u32, clock: u64, price: Cents) -> Entry
    requires number { 1 ≤ number }
    requires clock { clock ≤ 2 ^ 62 }
    ensures { (place : ℕ) → place < 4_294_967_295 → IsEntry product_node place result }
{
    let key = ProductKey {
        seller: 3,
        product: 40,
    };
    Entry {
        clock,
        what: What::Made(Event {
            link: PRODUCT_TO_CART,
            number,
            clock,
            past: Counts::zero(),
            body: Body::Changed(key, number, Change::Priced(price)),
        }),
    }
}

#[test]
fn shows_what_is_pushed(rt: HostRuntime) -> Result<(), Fail> {
    let price = Cents::try_new(1200)?;
    let product = Role::Product.node();
    let mut journal = Journal::new(rt.alloc(), product);
    assert_eq!(rt; journal.node(), product);
    assert_eq!(rt; journal.entries().len(), 0);
    journal.push(price_changed(1, 1, price))?;
    assert_eq!(rt; journal.entries(), [price_changed(1, 1, price)].as_slice());
    Ok(())
}

#[test]
fn takes_what_it_has_room_for(rt: HostRuntime) -> Result<(), Fail> {
    let price = Cents::try_new(1200)?;
    let product = Role::Product.node();
    let mut journal = Journal::new(rt.alloc(), product);
    journal.reserve(3)?;
    assert!(rt; is_pushed(&mut journal, 1, price));
    assert!(rt; is_pushed(&mut journal, 2, price));
    assert!(rt; is_pushed(&mut journal, 3, price));
    assert_eq!(rt; journal.entries().len(), 3);
    Ok(())
}

// Whether the product's journal takes the price's change as this event, with as great a clock.
fn is_pushed(journal: &mut Journal, number: u32, price: Cents) -> bool
    requires node { journal.old.node ≡ product_node }
    requires few { length journal.old.entries < 100 }
    requires number { 1 ≤ number }
    ensures node { journal.new.node ≡ product_node }
    ensures few { length journal.new.entries ≤ length journal.old.entries + 1 }
{
    journal
        .push(price_changed(number, u64::from(number), price))
        .is_ok()
}
