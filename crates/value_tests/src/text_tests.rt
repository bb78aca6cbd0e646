//! Texts of bodies, requests and replies, both ways. The texts are those of the tables in docs/FORMATS.md.

use market_amounts::{Cents, CheckoutId, List, ProductKey, Quantity};
use market_events::{Body, Change, PricedLine, Reply};
use market_texts::{
    BodyError, BodyFault, body_text, read_body, read_reply, read_request, reply_text, request_text,
};
use std::alloc::{AllocError, Global};
use std::test::Fail;

const BODIES: [&str; 54] = [
    "changed 5:10 1 created 1000 50",
    "changed 5:10 2 priced 1200",
    "changed 5:10 3 deleted",
    "reserve 7.5 7 5:10:2:1000:50:100",
    "reserve_failed 7.5 5:10 short",
    "reserve_failed 7.5 5:10 gone",
    "stock_confirmed 7.5 7 5:10:2:1000:50:100",
    "stock_confirmed 7.5 7 5:10:2:1000:50:100;5:11:1000:1000000000:0:1000000000",
    "invoice 7.5 7 5:10:2:1000:50:100 1950",
    "confirmed 7.5 7 5:10:2:1000:50:100 1950",
    "confirmed 7.5 7 5:10:2:1000:50:100;6:1:1:10:0:1000 1950",
    "failed 7.5 7 no_card",
    "failed 7.5 7 over_limit",
    "ended 7.5 whole 1950",
    "ended 7.5 undone no_card",
    "ended 7.5 undone over_limit",
    "shipped 7.5",
    "delivered 7.5:7:5:10;7.5:7:5:11",
    "asked 7.1 create 5 10 1000 50",
    "asked 7.2 price 5 10 1200",
    "asked 7.3 delete 5 10",
    "asked 7.4 view 5 10",
    "asked 7.5 line 7 5 10 2 100",
    "asked 7.6 remove 7 5 10",
    "asked 7.7 checkout 7",
    "asked 7.8 stock 5 10 1000000000",
    "asked 7.9 level 5 10",
    "asked 7.10 order 7 5",
    "asked 7.11 card 7 1000000000000000",
    "asked 7.12 deliver",
    "asked 7.13 customer 7",
    "asked 7.14 dashboard 4294967295",
    "told 7.1 created 1",
    "told 7.2 priced 2",
    "told 7.3 deleted 3",
    "told 7.4 view 2 1200 50",
    "told 7.5 line 2",
    "told 7.6 removed",
    "told 7.7 whole 1950",
    "told 7.7 whole 18446744073709551615",
    "told 7.7 undone cart_empty",
    "told 7.7 undone gone 5 10",
    "told 7.7 undone short 5 10",
    "told 7.7 undone no_card",
    "told 7.7 undone over_limit",
    "told 7.8 stocked 3",
    "told 7.9 level 3 2",
    "told 7.10 order shipped 1950",
    "told 7.11 card 10000",
    "told 7.12 delivered 1 1",
    "told 7.13 customer 1 0 11",
    "told 7.14 dashboard 3 1 1950 7.5:10:2:1950:shipped",
    "told 7.14 dashboard 3 1 340282366920938463463374607431768211455 7.5:10:2:1950:shipped",
    "told 7.1 refused exists",
];

const RULES: [&str; 9] = [
    "refused exists",
    "refused unknown",
    "refused gone",
    "refused cart_full",
    "refused no_line",
    "refused stock_over",
    "refused no_order",
    "refused lane_full",
    "refused request_differs",
];

const REFUSED_BODIES: [(&str, BodyError); 26] = [
    ("", BodyError::Kind),
    ("ship 7.5", BodyError::Kind),
    (" shipped 7.5", BodyError::Kind),
    ("shipped", BodyError::Field(1)),
    ("shipped  7.5", BodyError::Field(1)),
    ("shipped 07.5", BodyError::Field(1)),
    ("shipped 7.5.1", BodyError::Field(1)),
    ("shipped 7.4294967296", BodyError::Range(1)),
    ("shipped 4294967296.x", BodyError::Field(1)),
    ("shipped 7.5 x", BodyError::Extra),
    ("shipped 7.5 ", BodyError::Extra),
    ("changed 5:10 1 created 1000000001 50", BodyError::Range(4)),
    ("changed 5:10 1 raised 1200", BodyError::Field(3)),
    ("reserve 7.5 7", BodyError::Field(3)),
    ("reserve 7.5 7 5:10:0:1000:50:100", BodyError::Range(3)),
    ("reserve 7.5 7 5:10:0:1000:50:100;5:11", BodyError::Field(3)),
    (
        "reserve 7.5 7 5:10:2:1000:50:100;5:10:2:1000:50:100",
        BodyError::Field(3),
    ),
    (
        "reserve 7.5 7 5:11:2:1000:50:100;5:10:1001:1000:50:100",
        BodyError::Range(3),
    ),
    ("invoice 7.5 7 5:10:2:1000:50:100 1951", BodyError::Range(4)),
    (
        "invoice 7.5 7 5:10:2:1000:50:100 1951 x",
        BodyError::Range(4),
    ),
    ("delivered 7.5:7:5:10;", BodyError::Field(1)),
    ("asked 7.4", BodyError::Field(2)),
    ("asked 7.4 paint 5", BodyError::Field(2)),
    ("asked 7.4 line 7 5 10 1001 0", BodyError::Range(6)),
    ("told 7.5 paint 5", BodyError::Field(2)),
    (
        "told 7.5 dashboard 3 1 1950 7.5:10:2:1950:delivered",
        BodyError::Field(6),
    ),
];

const REFUSED_REQUESTS: [(&str, BodyError); 6] = [
    ("x", BodyError::Field(0)),
    ("7.4", BodyError::Field(1)),
    ("7.4 ", BodyError::Kind),
    ("7.4 paint 5", BodyError::Kind),
    ("7.4 stock 5 10 0", BodyError::Range(4)),
    ("7.4 deliver 5", BodyError::Extra),
];

const REFUSED_REPLIES: [(&str, BodyError); 6] = [
    ("", BodyError::Kind),
    ("paint", BodyError::Kind),
    ("created", BodyError::Field(1)),
    ("created 4294967296", BodyError::Range(1)),
    ("undone gone 5", BodyError::Field(3)),
    ("refused paint", BodyError::Field(1)),
];

#[test]
fn bodies_are_read_back(rt: HostRuntime) -> Result<(), Fail> {
    for text in BODIES {
        let body = read_body(rt.alloc(), text.as_bytes())?;
        let mut out = Vec::from_slice(rt.alloc(), b"0,1,")?;
        body_text(&body, &mut out)?;
        assert_eq!(rt; &out[..4], b"0,1,".as_slice(), "before {text}");
        assert_eq!(rt; &out[4..], text.as_bytes(), "at {text}");
        assert_eq!(rt; body.try_copy()?, body, "at {text}");
    }
    Ok(())
}

#[test]
fn replies_are_read_back(rt: HostRuntime) -> Result<(), Fail> {
    for text in RULES {
        let back = reply_back(rt.alloc(), text.as_bytes())?;
        assert_eq!(rt; &back[..], text.as_bytes(), "at {text}");
    }
    Ok(())
}

#[test]
fn requests_are_read_back(rt: HostRuntime) -> Result<(), Fail> {
    let text = b"7.4 line 7 5 10 2 100".as_slice();
    let back = request_back(rt.alloc(), text)?;
    assert_eq!(rt; &back[..], text);
    Ok(())
}

#[test]
fn bodies_are_refused(rt: HostRuntime) -> Result<(), Fail> {
    for (text, error) in REFUSED_BODIES {
        let said = read_body(rt.alloc(), text.as_bytes());
        assert_eq!(rt; said, Err(BodyFault::Bad(error)), "at {text}");
    }
    Ok(())
}

#[test]
fn requests_and_replies_are_refused(rt: HostRuntime) -> Result<(), Fail> {
    for (text, error) in REFUSED_REQUESTS {
        let said = read_request(text.as_bytes());
        assert_eq!(rt; said, Err(BodyFault::Bad(error)), "at {text}");
    }
    for (text, error) in REFUSED_REPLIES {
        let said = read_reply(rt.alloc(), text.as_bytes());
        assert_eq!(rt; said, Err(BodyFault::Bad(error)), "at {text}");
    }
    Ok(())
}

#[test]
fn values_are_what_the_texts_say(rt: HostRuntime) -> Result<(), Fail> {
    let checkout = CheckoutId {
        caller: 7,
        number: 5,
    };
    let key = ProductKey {
        seller: 5,
        product: 10,
    };
    let line = PricedLine {
        key,
        quantity: Quantity::try_new(2)?,
        price: Cents::try_new(1000)?,
        freight: Cents::try_new(50)?,
        voucher: Cents::try_new(100)?,
    };
    let shipped = read_body(rt.alloc(), b"shipped 7.5")?;
    assert_eq!(rt; shipped, Body::Shipped(checkout));
    let changed = read_body(rt.alloc(), b"changed 5:10 1 created 1000 50")?;
    let creation = Change::Created(line.price, line.freight);
    assert_eq!(rt; changed, Body::Changed(key, 1, creation));
    let invoice = read_body(rt.alloc(), b"invoice 7.5 7 5:10:2:1000:50:100 1950")?;
    let lines = List::from_slice(rt.alloc(), &[line])?;
    assert_eq!(rt; invoice, Body::Invoice(checkout, 7, lines, 1950));
    Ok(())
}

#[test]
fn lists_end(rt: HostRuntime) -> Result<(), Fail> {
    let many = many_lines(rt.alloc(), 33)?;
    let said = read_body(rt.alloc(), &many);
    assert_eq!(rt; said, Err(BodyFault::Bad(BodyError::Field(3))));
    let most = many_lines(rt.alloc(), 32)?;
    assert_eq!(rt; body_back(rt.alloc(), &most)?, most);
    let rows = many_rows(rt.alloc(), 51)?;
    let said = read_reply(rt.alloc(), &rows);
    assert_eq!(rt; said, Err(BodyFault::Bad(BodyError::Field(54))));
    let most = many_rows(rt.alloc(), 50)?;
    assert_eq!(rt; reply_back(rt.alloc(), &most)?, most);
    Ok(())
}

// A reservation of so many lines.
fn many_lines(alloc: Global, count: u32) -> Result<Vec<u8>, AllocError> {
    let mut text = Vec::from_slice(alloc, b"reserve 7.5 7 5:0:1:10:0:0")?;
    for product in 1..count {
        let line = format!(in alloc; ";5:{product}:1:10:0:0")?;
        text.extend_from_slice(line.as_bytes())?;
    }
    Ok(text)
}

// A dashboard of so many rows.
fn many_rows(alloc: Global, count: u32) -> Result<Vec<u8>, AllocError> {
    let mut text = Vec::from_slice(alloc, b"dashboard 1 100 1000")?;
    for number in 0..count {
        let row = format!(in alloc; " 7.{number}:10:1:10:paid")?;
        text.extend_from_slice(row.as_bytes())?;
    }
    Ok(text)
}

// The text of the body that a text is read as.
fn body_back(alloc: Global, text: &[u8]) -> Result<Vec<u8>, BodyFault> {
    let body = read_body(alloc, text)?;
    let mut out = Vec::new(alloc);
    body_text(&body, &mut out)?;
    Ok(out)
}

// The text of the reply that a text is read as.
fn reply_back(alloc: Global, text: &[u8]) -> Result<Vec<u8>, BodyFault> {
    let reply = read_reply(alloc, text)?;
    let mut out = Vec::new(alloc);
    reply_text(&reply, &mut out)?;
    Ok(out)
}

// The text of the request that a text is read as.
fn request_back(alloc: Global, text: &[u8]) -> Result<Vec<u8>, BodyFault> {
    let mut out = Vec::new(alloc);
    match read_request(text) {
        Ok(request) => request_text(&request, &mut out)?,
        Err(fault) => return Err(fault),
    }
    Ok(out)
}
