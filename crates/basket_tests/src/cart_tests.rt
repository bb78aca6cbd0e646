//! Steps of the cart, and lists of what a step makes, succeed here, which no clause says.

use crate::cart_trial::{Trial, created, line};
use market_amounts::{Cents, ProductKey, Quantity};
use market_events::{Ask, Body, CART_TO_STOCK, Change, Reply, Rule, UndoneRule};
use std::test::Fail;

const MUG: ProductKey = ProductKey {
    seller: 5,
    product: 10,
};

#[test]
fn a_view_shows_the_copy(rt: HostRuntime) -> Result<(), Fail> {
    let mut trial = Trial::new(rt.alloc());
    let unknown = trial.reply(&rt, Ask::View(MUG))?;
    assert_eq!(rt; unknown, Reply::Refused(Rule::Unknown));
    trial = trial.change(&rt, MUG, 1, created()?)?;
    let shown = trial.reply(&rt, Ask::View(MUG))?;
    assert_eq!(rt;
        shown,
        Reply::View(1, Cents::try_new(1000)?, Cents::try_new(50)?)
    );
    Ok(())
}

#[test]
fn a_checkout_empties_the_basket(rt: HostRuntime) -> Result<(), Fail> {
    let mut trial = Trial::new(rt.alloc());
    trial = trial.change(&rt, MUG, 1, created()?)?;
    trial.reply(&rt, line(MUG, 2)?)?;
    let (link, body) = trial.ask(&rt, Ask::Checkout(1))?;
    assert_eq!(rt; link, CART_TO_STOCK);
    let Body::Reserve(_, customer, lines) = body else {
        return Err(Fail::from("not sent on"));
    };
    assert_eq!(rt; customer, 1);
    let [sent] = lines.as_slice() else {
        return Err(Fail::from("not one line"));
    };
    assert_eq!(rt; (sent.key, sent.quantity), (MUG, Quantity::try_new(2)?));
    assert_eq!(rt;
        (sent.price.get(), sent.freight.get(), sent.voucher.get()),
        (1000, 50, 0)
    );
    let again = trial.reply(&rt, Ask::Checkout(1))?;
    assert_eq!(rt; again, Reply::Undone(UndoneRule::CartEmpty));
    Ok(())
}

#[test]
fn a_full_basket_takes_lines_that_it_has(rt: HostRuntime) -> Result<(), Fail> {
    let mut trial = Trial::new(rt.alloc());
    for product in 0..33 {
        trial = trial.change(&rt, ProductKey { seller: 5, product }, 1, created()?)?;
    }
    for product in 0..32 {
        trial.reply(&rt, line(ProductKey { seller: 5, product }, 1)?)?;
    }
    let other = ProductKey {
        seller: 5,
        product: 32,
    };
    let over = trial.reply(&rt, line(other, 1)?)?;
    assert_eq!(rt; over, Reply::Refused(Rule::CartFull));
    let nine = trial.reply(&rt, line(MUG, 9)?)?;
    assert_eq!(rt; nine, Reply::Line(Quantity::try_new(9)?));
    Ok(())
}

#[test]
fn a_checkout_of_a_product_that_is_gone_leaves_the_lines(rt: HostRuntime) -> Result<(), Fail> {
    let mut trial = Trial::new(rt.alloc());
    trial = trial.change(&rt, MUG, 1, created()?)?;
    trial.reply(&rt, line(MUG, 1)?)?;
    trial = trial.change(&rt, MUG, 2, Change::Deleted)?;
    let gone = trial.reply(&rt, Ask::Checkout(1))?;
    assert_eq!(rt; gone, Reply::Undone(UndoneRule::Gone(MUG)));
    let removed = trial.reply(&rt, Ask::Remove(1, MUG))?;
    assert_eq!(rt; removed, Reply::Removed);
    let none = trial.reply(&rt, Ask::Remove(1, MUG))?;
    assert_eq!(rt; none, Reply::Refused(Rule::NoLine));
    Ok(())
}

#[test]
fn lines_and_products_have_cells(rt: HostRuntime) -> Result<(), Fail> {
    let mut trial = Trial::new(rt.alloc());
    trial = trial.change(&rt, MUG, 1, created()?)?;
    trial.reply(&rt, line(MUG, 2)?)?;
    let names = trial.touches(&rt, Ask::Checkout(1))?;
    let [name] = names.as_slice() else {
        return Err(Fail::from("not one name"));
    };
    assert_eq!(rt; name.table.as_slice(), b"basket".as_slice());
    assert_eq!(rt; name.key.as_slice(), b"1:5:10".as_slice());
    assert_eq!(rt; trial.value(name)?.as_slice(), b"2 0".as_slice());
    let cells = trial.cells()?;
    let [line, product] = cells.as_slice() else {
        return Err(Fail::from("not two cells"));
    };
    assert_eq!(rt; line.value.as_slice(), b"2 0".as_slice());
    assert_eq!(rt; product.name.table.as_slice(), b"copy".as_slice());
    assert_eq!(rt; product.name.key.as_slice(), b"5:10".as_slice());
    assert_eq!(rt; product.value.as_slice(), b"live 1 1000 50".as_slice());
    Ok(())
}
