//! Runs over memory, from the bytes that come in to the bytes that go out.

use crate::{InputRule, Status, market};
use market_edges::{MemoryShelf, MemorySink, MemorySource};
use std::alloc::{AllocError, Global};
use std::test::Fail;
use std::thread::Threads;

const FIRST: &[u8] = b"7,1,create,5,10,1000,50\n7,2,price,5,10,1200\n7,3,view,5,10\n";

const FIRST_OUTPUT: &[u8] =
    b"7.1 created 1\n7.2 priced 2\n7.3 view 2 1200 50\nrequests 3\nwhole 0\nundone 0\noutstanding 0\n";

// What a run leaves: its status and what the sink holds.
#[derive(Drop)]
pub struct Ran {
    pub status: Status,
    pub written: Vec<u8>,
}

fn owned(alloc: Global, words: &str) -> Result<Vec<String>, AllocError> {
    let mut all = Vec::new(alloc);
    for word in words.split_whitespace() {
        all.push(String::from_str(alloc, word)?)?;
    }
    Ok(all)
}

fn listed(alloc: Global, calls: &[u32]) -> Result<Vec<u32>, AllocError> {
    Vec::from_slice(alloc, calls)
}

// Runs the words on bytes that come in pieces, where these reads and writes fail.
fn run_failing(
    rt: &(impl Threads + Sync + AllocGlobal),
    words: &str,
    bytes: Vec<u8>,
    piece: usize,
    reads: &[u32],
    writes: &[u32],
) -> Result<Ran, AllocError> {
    let alloc = rt.alloc();
    let words = owned(alloc, words)?;
    let mut input = MemorySource::new(bytes, piece.max(1), listed(alloc, reads)?);
    let mut output = MemorySink::new(alloc, listed(alloc, writes)?);
    let mut shelf = MemoryShelf::new(alloc, Vec::new(alloc));
    let status = market(rt, alloc, &words, &mut input, &mut output, &mut shelf);
    let written = Vec::from_slice(alloc, output.bytes())?;
    Ok(Ran { status, written })
}

// Runs bytes.
pub fn run(rt: &(impl Threads + Sync + AllocGlobal), bytes: &[u8]) -> Result<Ran, AllocError> {
    let bytes = Vec::from_slice(rt.alloc(), bytes)?;
    run_failing(rt, "run 1 0", bytes, 4096, &[], &[])
}

#[test]
fn first_path(rt: HostRuntime) -> Result<(), Fail> {
    let ran = run(&rt, FIRST)?;
    assert_eq!(rt; ran.status, Status::Done);
    assert_eq!(rt; ran.written.as_slice(), FIRST_OUTPUT);
    let empty = run(&rt, b"")?;
    assert_eq!(rt; empty.status, Status::Done);
    assert_eq!(rt;
        empty.written.as_slice(),
        b"requests 0\nwhole 0\nundone 0\noutstanding 0\n".as_slice()
    );
    Ok(())
}

// The same records, spelled and cut in other ways.
#[test]
fn same_records(rt: HostRuntime) -> Result<(), Fail> {
    for bytes in [
        b"7,1,create,5,10,1000,50\r\n7,2,price,5,10,1200\r\n7,3,view,5,10\r\n".as_slice(),
        b"\"7\",1,\"create\",5,10,1000,\"50\"\n7,2,price,5,10,1200\n7,3,view,5,\"10\"\n".as_slice(),
        b"7,1,create,5,10,1000,50\n7,2,price,5,10,1200\n7,3,view,5,10".as_slice(),
        b"\n7,1,create,5,10,1000,50\n\n\n7,2,price,5,10,1200\n7,3,view,5,10\n\n".as_slice(),
    ] {
        let ran = run(&rt, bytes)?;
        assert_eq!(rt; ran.status, Status::Done);
        assert_eq!(rt; ran.written.as_slice(), FIRST_OUTPUT);
    }
    let bytes = Vec::from_slice(rt.alloc(), FIRST)?;
    let ran = run_failing(&rt, "run 1 0", bytes, 1, &[], &[])?;
    assert_eq!(rt; ran.written.as_slice(), FIRST_OUTPUT);
    Ok(())
}

#[test]
fn bad_records(rt: HostRuntime) -> Result<(), Fail> {
    for (bytes, number, rule) in [
        (
            b"3,1,create,5,10,1000000001,50\n".as_slice(),
            1,
            InputRule::Range,
        ),
        (b"3,1,create,5,10,1000\n".as_slice(), 1, InputRule::Fields),
        (b"3,x,view,5,10\n".as_slice(), 1, InputRule::Number),
        (b"3,1,paint,5\n".as_slice(), 1, InputRule::Kind),
        (b"7,01,view,5,10\n".as_slice(), 1, InputRule::Number),
        (b"7,1\n".as_slice(), 1, InputRule::Fields),
        (b"3,1,line,3,5,10,1001,0\n".as_slice(), 1, InputRule::Range),
        (b"3,1,line,3,5,10,1001\n".as_slice(), 1, InputRule::Fields),
        (b"3,1,line,3,5,10,0,0\n".as_slice(), 1, InputRule::Range),
        (b"7,1,stock,5,10,0\n".as_slice(), 1, InputRule::Range),
        (
            b"7,1,stock,5,10,1000000001\n".as_slice(),
            1,
            InputRule::Range,
        ),
        (b"7,1,rows,5,0,0\n".as_slice(), 1, InputRule::Kind),
        (
            b"7,1,view,5,10\n3,1,paint,5\n".as_slice(),
            2,
            InputRule::Kind,
        ),
        (b"7,1,view,5,10\n\n7,1".as_slice(), 2, InputRule::Fields),
        (
            b"7,1,view,5,x\n3,1,paint,5\n".as_slice(),
            1,
            InputRule::Number,
        ),
    ] {
        let ran = run(&rt, bytes)?;
        assert_eq!(rt; ran.status, Status::BadInput(number, rule));
        assert_eq!(rt; ran.status.exit(), 3);
        assert_eq!(rt; ran.written.len(), 0);
    }
    Ok(())
}

#[test]
fn faults(rt: HostRuntime) -> Result<(), Fail> {
    let bytes = Vec::from_slice(rt.alloc(), FIRST)?;
    let ran = run_failing(&rt, "run 1 0", bytes, 10, &[2], &[])?;
    assert_eq!(rt; ran.status, Status::ReadFault);
    assert_eq!(rt; ran.status.exit(), 4);
    assert_eq!(rt; ran.written.len(), 0);
    let bytes = Vec::from_slice(rt.alloc(), FIRST)?;
    let ran = run_failing(&rt, "run 1 0", bytes, 4096, &[], &[1])?;
    assert_eq!(rt; ran.status, Status::WriteFault);
    assert_eq!(rt; ran.status.exit(), 5);
    assert_eq!(rt; ran.written.len(), 0);
    Ok(())
}

fn line_feeds(alloc: Global, size: usize) -> Result<Vec<u8>, AllocError> {
    vec![in alloc; b'\n'; size]
}

#[test]
fn long_input(rt: HostRuntime) -> Result<(), Fail> {
    let bytes = line_feeds(rt.alloc(), 67_108_865)?;
    let ran = run_failing(&rt, "run 1 0", bytes, 1_000_000, &[], &[])?;
    assert_eq!(rt; ran.status, Status::InputTooLong);
    assert_eq!(rt; ran.status.exit(), 3);
    assert_eq!(rt; ran.written.len(), 0);
    let bytes = line_feeds(rt.alloc(), 67_108_864)?;
    let ran = run_failing(&rt, "run 1 0", bytes, 1_000_000, &[], &[])?;
    assert_eq!(rt; ran.status, Status::Done);
    Ok(())
}

#[test]
fn usage(rt: HostRuntime) -> Result<(), Fail> {
    for words in [
        "run 01 0",
        "run 1",
        "run 1 100001",
        "run 18446744073709551616 0",
        "run 1 0 0",
        "drive 1 0",
        "-h",
        "",
    ] {
        let bytes = Vec::from_slice(rt.alloc(), FIRST)?;
        let ran = run_failing(&rt, words, bytes, 4096, &[], &[])?;
        assert_eq!(rt; ran.status, Status::Usage);
        assert_eq!(rt; ran.status.exit(), 2);
        assert_eq!(rt; ran.written.len(), 0);
    }
    Ok(())
}

#[test]
fn repeats(rt: HostRuntime) -> Result<(), Fail> {
    let ran = run(
        &rt,
        b"7,1,create,5,10,1000,50\n7,1,create,5,10,1000,50\n7,1,create,5,10,2000,50\n7,2,view,5,10\n",
    )?;
    assert_eq!(rt; ran.status, Status::Done);
    let expected =
        b"7.1 created 1\n7.1 created 1\n7.1 refused request_differs\n7.2 view 1 1000 50\n\
            requests 2\nwhole 0\nundone 0\noutstanding 0\n";
    assert_eq!(rt; ran.written.as_slice(), expected.as_slice());
    Ok(())
}

const LIMITS: &[u8] =
    b"7,1,create,5,10,1,0\n7,2,stock,5,10,1000000000\n7,3,stock,5,10,1\n7,4,create,5,10,1,0\n\
        7,5,price,5,11,1\n";

const LIMITS_OUTPUT: &[u8] =
    b"7.1 created 1\n7.2 stocked 1000000000\n7.3 refused stock_over\n7.4 refused exists\n\
        7.5 refused unknown\nrequests 5\nwhole 0\nundone 0\noutstanding 0\n";

#[test]
fn limits_of_stock(rt: HostRuntime) -> Result<(), Fail> {
    let ran = run(&rt, LIMITS)?;
    assert_eq!(rt; ran.status, Status::Done);
    assert_eq!(rt; ran.written.as_slice(), LIMITS_OUTPUT);
    Ok(())
}

// A cart of 32 lines, a line of a 33rd product, and one of a product that it has.
fn loaded_cart(alloc: Global) -> Result<Vec<u8>, AllocError> {
    let mut bytes = Vec::new(alloc);
    for product in 0..33u32 {
        let line = format!(in alloc; "7,{product},create,5,{product},1,0\n")?;
        bytes.extend_from_slice(line.as_bytes())?;
    }
    for product in 0..33u32 {
        let line = format!(in alloc; "8,{product},line,7,5,{product},1,0\n")?;
        bytes.extend_from_slice(line.as_bytes())?;
    }
    bytes.extend_from_slice(b"8,33,line,7,5,31,9,0\n8,34,remove,7,5,32\n8,35,remove,7,5,0\n")?;
    Ok(bytes)
}

#[test]
fn full_cart(rt: HostRuntime) -> Result<(), Fail> {
    let ran = run(&rt, &loaded_cart(rt.alloc())?)?;
    assert_eq!(rt; ran.status, Status::Done);
    let tail =
        b"8.31 line 1\n8.32 refused cart_full\n8.33 line 9\n8.34 refused no_line\n8.35 removed\n\
            requests 69\nwhole 0\nundone 0\noutstanding 0\n";
    assert!(rt; ran.written.as_slice().ends_with(tail));
    Ok(())
}

// A product that is deleted and created again, seen in the cart and in stock.
const AGAIN: &[u8] =
    b"7,1,create,5,10,1000,50\n7,2,delete,5,10\n7,3,view,5,10\n7,4,stock,5,10,2\n7,5,level,5,10\n\
        7,6,create,5,10,1200,0\n7,7,view,5,10\n7,8,stock,5,10,2\n7,9,level,5,10\n7,10,level,5,11\n";

const AGAIN_OUTPUT: &[u8] =
    b"7.1 created 1\n7.2 deleted 2\n7.3 refused gone\n7.4 refused gone\n7.5 level 0 0\n\
        7.6 created 3\n7.7 view 3 1200 0\n7.8 stocked 2\n7.9 level 2 0\n7.10 refused unknown\n\
        requests 10\nwhole 0\nundone 0\noutstanding 0\n";

#[test]
fn created_again(rt: HostRuntime) -> Result<(), Fail> {
    let ran = run(&rt, AGAIN)?;
    assert_eq!(rt; ran.status, Status::Done);
    assert_eq!(rt; ran.written.as_slice(), AGAIN_OUTPUT);
    Ok(())
}

// One request more than a lane keeps, each of another id, and one of another lane.
fn crowd(alloc: Global) -> Result<Vec<u8>, AllocError> {
    let mut bytes = Vec::new(alloc);
    for number in 0..16_385u32 {
        let line = format!(in alloc; "7,{number},view,5,10\n")?;
        bytes.extend_from_slice(line.as_bytes())?;
    }
    bytes.extend_from_slice(b"8,0,view,5,10\n")?;
    Ok(bytes)
}

#[test]
fn full_lane(rt: HostRuntime) -> Result<(), Fail> {
    let ran = run(&rt, &crowd(rt.alloc())?)?;
    assert_eq!(rt; ran.status, Status::Done);
    let tail =
        b"7.16383 refused unknown\n7.16384 refused lane_full\n8.0 refused unknown\nrequests 16385\n\
            whole 0\nundone 0\noutstanding 0\n";
    assert!(rt; ran.written.as_slice().ends_with(tail));
    Ok(())
}
