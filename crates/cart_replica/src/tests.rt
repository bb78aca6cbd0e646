use crate::replica::ProductCopy;
use market_amounts::{Cents, ProductKey};
use market_events::{CellList, Change, Look, key_name};
use std::test::Fail;

#[test]
fn follows_the_changes(rt: HostRuntime) -> Result<(), Fail> {
    let mug = ProductKey {
        seller: 3,
        product: 40,
    };
    let bowl = ProductKey {
        seller: 3,
        product: 41,
    };
    let freight = Cents::try_new(50)?;
    let price = Cents::try_new(1000)?;
    let raised = Cents::try_new(1200)?;
    let mut copy = ProductCopy::new(rt.alloc());
    assert_eq!(rt; copy.look(mug), Look::Unknown);
    copy.apply(mug, 1, &Change::Created(price, freight))?;
    assert_eq!(rt; copy.look(mug), Look::Live(1, price, freight));
    copy.apply(mug, 2, &Change::Priced(raised))?;
    assert_eq!(rt; copy.look(mug), Look::Live(2, raised, freight));
    copy.apply(mug, 3, &Change::Deleted)?;
    assert_eq!(rt; copy.look(mug), Look::Gone(3));
    copy.apply(mug, 4, &Change::Created(raised, price))?;
    assert_eq!(rt; copy.look(mug), Look::Live(4, raised, price));
    assert_eq!(rt; copy.look(bowl), Look::Unknown);
    Ok(())
}

#[test]
fn tells_its_products_as_cells(rt: HostRuntime) -> Result<(), Fail> {
    let mug = ProductKey {
        seller: 3,
        product: 40,
    };
    let bowl = ProductKey {
        seller: 3,
        product: 5,
    };
    let freight = Cents::try_new(50)?;
    let price = Cents::try_new(1000)?;
    let mut copy = ProductCopy::new(rt.alloc());
    copy.apply(mug, 1, &Change::Created(price, freight))?;
    copy.apply(bowl, 1, &Change::Created(price, freight))?;
    copy.apply(bowl, 2, &Change::Deleted)?;
    let mut list = CellList::new(rt.alloc());
    copy.put_cells(rt.alloc(), b"copy", &mut list)?;
    let cells = list.into_cells()?;
    assert_eq!(rt; cells.len(), 2);
    assert_eq!(rt; cells[0].name, key_name(rt.alloc(), b"copy", mug)?);
    assert_eq!(rt; cells[0].value.as_slice(), b"live 1 1000 50".as_slice());
    assert_eq!(rt; cells[1].name.key.as_slice(), b"3:5".as_slice());
    assert_eq!(rt; cells[1].value.as_slice(), b"gone 2".as_slice());
    let value = copy
        .cell_value(rt.alloc(), b"copy", &cells[1].name)?
        .ok_or("the bowl's cell")?;
    assert_eq!(rt; value.as_slice(), b"gone 2".as_slice());
    assert!(rt;
        copy.cell_value(rt.alloc(), b"stock", &cells[1].name)?
            .is_none()
    );
    Ok(())
}
