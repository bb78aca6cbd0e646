//! The values are worked out by hand.

use market_amounts::{Cents, ProductKey, Quantity, RequestId};
use market_events::{Ask, Node, Reply, Request, Rule};
use market_texts::{WorkRule, read_fields, reply_text};
use std::alloc::{AllocError, Global};
use std::test::Fail;

#[test]
fn records_are_read(rt: HostRuntime) -> Result<(), Fail> {
    let id = RequestId {
        caller: 7,
        number: 1,
    };
    let key = ProductKey {
        seller: 5,
        product: 10,
    };
    let price = Cents::try_new(1000)?;
    let freight = Cents::try_new(50)?;
    let quantity = Quantity::try_new(1000)?;
    for (record, ask) in [
        ("7,1,create,5,10,1000,50", Ask::Create(key, price, freight)),
        ("7,1,price,5,10,1000", Ask::Price(key, price)),
        ("7,1,delete,5,10", Ask::Delete(key)),
        ("7,1,view,5,10", Ask::View(key)),
        (
            "7,1,line,7,5,10,1000,50",
            Ask::Line(7, key, quantity, freight),
        ),
        ("7,1,remove,7,5,10", Ask::Remove(7, key)),
        ("7,1,stock,5,10,1000000000", Ask::Stock(key, 1_000_000_000)),
        ("7,1,level,5,10", Ask::Level(key)),
        ("7,1,checkout,7", Ask::Checkout(7)),
        ("7,1,order,7,1", Ask::Order(id)),
        (
            "7,1,card,7,1000000000000000",
            Ask::Card(7, 1_000_000_000_000_000),
        ),
        ("7,1,deliver", Ask::Deliver),
        ("7,1,customer,7", Ask::Customer(7)),
        ("7,1,dashboard,5", Ask::Dashboard(5)),
    ] {
        let fields = fields_of(rt.alloc(), record)?;
        assert_eq!(rt;
            read_fields(&fields),
            Ok(Request { id, ask }),
            "at {record}"
        );
    }
    Ok(())
}

#[test]
fn records_are_refused(rt: HostRuntime) -> Result<(), Fail> {
    for (record, rule) in [
        ("7,1", WorkRule::Fields),
        ("7,1,create,5,10,1000", WorkRule::Fields),
        ("1,1,view,5,x,9", WorkRule::Fields),
        ("3,x,view,5,10", WorkRule::Number),
        ("7,01,view,5,10", WorkRule::Number),
        ("x,1,paint", WorkRule::Number),
        ("7,1,price,5,10,", WorkRule::Number),
        ("3,1,create,5,10,1000000001,50", WorkRule::Range),
        ("3,1,create,5,10,50,1000000001", WorkRule::Range),
        ("4294967296,1,view,1,1", WorkRule::Range),
        ("7,1,price,4294967296,x,1000", WorkRule::Range),
        ("3,1,paint,5", WorkRule::Kind),
        ("7,1,line,7,5,10,0,0", WorkRule::Range),
        ("7,1,line,7,5,10,1001,0", WorkRule::Range),
        ("7,1,line,7,5,10,1", WorkRule::Fields),
        ("7,1,line,7,5,10,01,0", WorkRule::Number),
        ("7,1,stock,5,10,0", WorkRule::Range),
        ("7,1,stock,5,10,1000000001", WorkRule::Range),
        ("7,1,card,7,1000000000000001", WorkRule::Range),
        ("7,1,order,7", WorkRule::Fields),
        ("7,1,deliver,7", WorkRule::Fields),
        ("7,1,rows,5,0,0", WorkRule::Kind),
        ("7,1,,5,10", WorkRule::Kind),
        ("7,1,View,5,10", WorkRule::Kind),
    ] {
        let fields = fields_of(rt.alloc(), record)?;
        assert_eq!(rt; read_fields(&fields), Err(rule), "at {record}");
    }
    Ok(())
}

// The fields between the commas of a record.
fn fields_of(alloc: Global, record: &str) -> Result<Vec<Vec<u8>>, AllocError> {
    let mut fields = Vec::new(alloc);
    for field in record.split(',') {
        fields.push(Vec::from_slice(alloc, field.as_bytes())?)?;
    }
    Ok(fields)
}

#[test]
fn replies_have_texts(rt: HostRuntime) -> Result<(), Fail> {
    let price = Cents::try_new(1200)?;
    let freight = Cents::try_new(50)?;
    for (reply, text) in &[
        (Reply::Created(1), "created 1"),
        (Reply::Priced(2), "priced 2"),
        (Reply::View(2, price, freight), "view 2 1200 50"),
        (Reply::Refused(Rule::Exists), "refused exists"),
        (Reply::Refused(Rule::Unknown), "refused unknown"),
        (Reply::Refused(Rule::Gone), "refused gone"),
        (Reply::Refused(Rule::LaneFull), "refused lane_full"),
        (
            Reply::Refused(Rule::RequestDiffers),
            "refused request_differs",
        ),
    ] {
        let mut out = Vec::from_slice(rt.alloc(), b"7,1,")?;
        reply_text(reply, &mut out)?;
        assert_eq!(rt; &out[..4], b"7,1,".as_slice(), "before {text}");
        assert_eq!(rt; &out[4..], text.as_bytes(), "at {text}");
    }
    Ok(())
}

#[test]
fn nodes_end_at_23(rt: HostRuntime) {
    for (number, node) in [(0, Some(0)), (23, Some(23)), (24, None)] {
        assert_eq!(rt; Node::try_new(number).map(Node::get), node, "at {number}");
    }
}

#[test]
fn copies_are_equal(rt: HostRuntime) -> Result<(), Fail> {
    let id = RequestId {
        caller: 7,
        number: 1,
    };
    let key = ProductKey {
        seller: 5,
        product: 10,
    };
    let price = Cents::try_new(1200)?;
    let freight = Cents::try_new(50)?;
    let request = Request {
        id,
        ask: Ask::Create(key, price, freight),
    };
    assert_eq!(rt; request.try_copy()?, request);
    let reply = Reply::View(2, price, freight);
    assert_eq!(rt; reply.try_copy()?, reply);
    Ok(())
}
