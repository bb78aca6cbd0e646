//! Checkouts carried through the eight services, from the bytes that come in to the bytes that go out.

use crate::Status;
use crate::tests::run;
use std::alloc::{AllocError, Global};
use std::test::Fail;

// A whole checkout.
const BASE: (&[u8], &[u8]) = (
    b"7,1,create,5,10,1000,50\n7,2,stock,5,10,3\n7,3,card,7,10000\n7,4,line,7,5,10,2,100\n7,5,checkout,7\n",
    b"7.1 created 1\n7.2 stocked 3\n7.3 card 10000\n7.4 line 2\n7.5 whole 1950\nrequests 5\n\
        whole 1\nundone 0\noutstanding 0\n",
);

// The total is the limit.
const AT_LIMIT: (&[u8], &[u8]) = (
    b"7,1,create,5,10,1000,50\n7,2,stock,5,10,3\n7,3,card,7,1950\n7,4,line,7,5,10,2,100\n7,5,checkout,7\n",
    b"7.1 created 1\n7.2 stocked 3\n7.3 card 1950\n7.4 line 2\n7.5 whole 1950\nrequests 5\n\
        whole 1\nundone 0\noutstanding 0\n",
);

// The total is above the limit.
const OVER_LIMIT: (&[u8], &[u8]) = (
    b"7,1,create,5,10,1000,50\n7,2,stock,5,10,3\n7,3,card,7,1949\n7,4,line,7,5,10,2,100\n\
        7,5,checkout,7\n7,6,level,5,10\n",
    b"7.1 created 1\n7.2 stocked 3\n7.3 card 1949\n7.4 line 2\n7.5 undone over_limit\n\
        7.6 level 3 0\nrequests 6\nwhole 0\nundone 1\noutstanding 0\n",
);

// There is no card.
const NO_CARD: (&[u8], &[u8]) = (
    b"7,1,create,5,10,1000,50\n7,2,stock,5,10,3\n7,4,line,7,5,10,2,100\n7,5,checkout,7\n7,6,level,5,10\n",
    b"7.1 created 1\n7.2 stocked 3\n7.4 line 2\n7.5 undone no_card\n7.6 level 3 0\nrequests 5\n\
        whole 0\nundone 1\noutstanding 0\n",
);

// Too few pieces.
const SHORT: (&[u8], &[u8]) = (
    b"7,1,create,5,10,1000,50\n7,2,stock,5,10,1\n7,3,card,7,10000\n7,4,line,7,5,10,2,100\n\
        7,5,checkout,7\n7,6,order,7,5\n",
    b"7.1 created 1\n7.2 stocked 1\n7.3 card 10000\n7.4 line 2\n7.5 undone short 5 10\n\
        7.6 refused no_order\nrequests 6\nwhole 0\nundone 1\noutstanding 0\n",
);

// All lines or none.
const SECOND_SHORT: (&[u8], &[u8]) = (
    b"7,1,create,5,10,1000,50\n7,2,create,5,11,500,0\n7,3,stock,5,10,3\n7,4,stock,5,11,1\n\
        7,5,card,7,100000\n7,6,line,7,5,10,2,0\n7,7,line,7,5,11,2,0\n7,8,checkout,7\n\
        7,9,level,5,10\n",
    b"7.1 created 1\n7.2 created 1\n7.3 stocked 3\n7.4 stocked 1\n7.5 card 100000\n7.6 line 2\n\
        7.7 line 2\n7.8 undone short 5 11\n7.9 level 3 0\nrequests 9\nwhole 0\nundone 1\n\
        outstanding 0\n",
);

// The checkout comes again.
const TWICE: (&[u8], &[u8]) = (
    b"7,1,create,5,10,1000,50\n7,2,stock,5,10,3\n7,3,card,7,10000\n7,4,line,7,5,10,2,100\n\
        7,5,checkout,7\n7,5,checkout,7\n",
    b"7.1 created 1\n7.2 stocked 3\n7.3 card 10000\n7.4 line 2\n7.5 whole 1950\n7.5 whole 1950\n\
        requests 5\nwhole 1\nundone 0\noutstanding 0\n",
);

// A product is deleted before the checkout.
const DELETED: (&[u8], &[u8]) = (
    b"7,1,create,5,10,1000,50\n7,2,stock,5,10,3\n7,3,card,7,10000\n7,4,line,7,5,10,2,100\n\
        7,5,delete,5,10\n7,6,checkout,7\n7,7,remove,7,5,10\n7,8,remove,7,5,10\n",
    b"7.1 created 1\n7.2 stocked 3\n7.3 card 10000\n7.4 line 2\n7.5 deleted 2\n\
        7.6 undone gone 5 10\n7.7 removed\n7.8 refused no_line\nrequests 8\nwhole 0\nundone 1\n\
        outstanding 0\n",
);

// Entries in progress.
const DASHBOARD: (&[u8], &[u8]) = (
    b"7,1,create,5,10,1000,50\n7,2,stock,5,10,3\n7,3,card,7,10000\n7,4,line,7,5,10,2,100\n\
        7,5,checkout,7\n7,6,dashboard,5\n7,7,line,7,5,10,1,0\n7,8,checkout,7\n7,9,dashboard,5\n",
    b"7.1 created 1\n7.2 stocked 3\n7.3 card 10000\n7.4 line 2\n7.5 whole 1950\n\
        7.6 dashboard 3 1 1950 7.5:10:2:1950:shipped\n7.7 line 1\n7.8 whole 1050\n\
        7.9 dashboard 6 2 3000 7.5:10:2:1950:shipped 7.8:10:1:1050:shipped\nrequests 9\nwhole 2\n\
        undone 0\noutstanding 0\n",
);

#[test]
fn checkouts(rt: HostRuntime) -> Result<(), Fail> {
    for (input, output) in [
        BASE,
        AT_LIMIT,
        OVER_LIMIT,
        NO_CARD,
        SHORT,
        SECOND_SHORT,
        TWICE,
        DELETED,
        DASHBOARD,
    ] {
        let ran = run(&rt, input)?;
        assert_eq!(rt; ran.status, Status::Done);
        assert_eq!(rt; ran.written.as_slice(), output);
    }
    Ok(())
}

// Eleven sellers with a package each, and four deliveries asked of ten sellers at most.
fn eleven_sellers(alloc: Global) -> Result<Vec<u8>, AllocError> {
    let mut bytes = Vec::new(alloc);
    for seller in 1..12u32 {
        let line = format!(in alloc; "7,{seller},create,{seller},1,100,0\n")?;
        bytes.extend_from_slice(line.as_bytes())?;
    }
    for seller in 1..12u32 {
        let number = seller + 11;
        let line = format!(in alloc; "7,{number},stock,{seller},1,1\n")?;
        bytes.extend_from_slice(line.as_bytes())?;
    }
    bytes.extend_from_slice(b"7,23,card,7,10000\n")?;
    for seller in 1..12u32 {
        let number = seller + 23;
        let line = format!(in alloc; "7,{number},line,7,{seller},1,1,0\n")?;
        bytes.extend_from_slice(line.as_bytes())?;
    }
    bytes.extend_from_slice(
        b"7,35,checkout,7\n7,36,deliver\n7,37,deliver\n7,38,deliver\n7,39,order,7,35\n7,40,customer,7\n",
    )?;
    Ok(bytes)
}

#[test]
fn ten_oldest_sellers(rt: HostRuntime) -> Result<(), Fail> {
    let ran = run(&rt, &eleven_sellers(rt.alloc())?)?;
    assert_eq!(rt; ran.status, Status::Done);
    let tail = b"7.35 whole 1100\n7.36 delivered 10 10\n7.37 delivered 1 1\n7.38 delivered 0 0\n\
            7.39 order delivered 1100\n7.40 customer 1 0 11\nrequests 40\nwhole 1\nundone 0\n\
            outstanding 0\n";
    assert!(rt; ran.written.as_slice().ends_with(tail));
    Ok(())
}

// Two checkouts of thirty products of one seller, and the seller's dashboard.
fn sixty_entries(alloc: Global) -> Result<Vec<u8>, AllocError> {
    let mut bytes = Vec::new(alloc);
    bytes.extend_from_slice(b"8,0,card,7,10000\n")?;
    for product in 0..60u32 {
        let created = format!(in alloc; "7,{product},create,5,{product},100,0\n")?;
        bytes.extend_from_slice(created.as_bytes())?;
        let stocked = format!(in alloc; "9,{product},stock,5,{product},1\n")?;
        bytes.extend_from_slice(stocked.as_bytes())?;
        let line = format!(in alloc; "10,{product},line,7,5,{product},1,0\n")?;
        bytes.extend_from_slice(line.as_bytes())?;
        if product == 29 {
            bytes.extend_from_slice(b"8,1,checkout,7\n")?;
        }
    }
    bytes.extend_from_slice(b"8,2,checkout,7\n8,3,dashboard,5\n")?;
    Ok(bytes)
}

// Its answer: sixty entries at point 180, and the first fifty of them.
fn first_fifty(alloc: Global) -> Result<Vec<u8>, AllocError> {
    let mut bytes = Vec::new(alloc);
    bytes.extend_from_slice(b"8.2 whole 3000\n8.3 dashboard 180 60 6000")?;
    for product in 0..50u32 {
        let checkout = if product < 30 { 1u32 } else { 2u32 };
        let row = format!(in alloc; " 8.{checkout}:{product}:1:100:shipped")?;
        bytes.extend_from_slice(row.as_bytes())?;
    }
    bytes.extend_from_slice(b"\nrequests 184\nwhole 2\nundone 0\noutstanding 0\n")?;
    Ok(bytes)
}

#[test]
fn dashboard_of_sixty(rt: HostRuntime) -> Result<(), Fail> {
    let ran = run(&rt, &sixty_entries(rt.alloc())?)?;
    assert_eq!(rt; ran.status, Status::Done);
    let tail = first_fifty(rt.alloc())?;
    assert!(rt; ran.written.as_slice().ends_with(tail.as_slice()));
    Ok(())
}
