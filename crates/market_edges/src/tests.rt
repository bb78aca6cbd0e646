//! Each call that allocates succeeds here once, which no clause says; the values are worked out by hand.

ghost use Rattle.std.specs.Prelude.{◌≡◌, IfOk};

use crate::{
    Failed, MemoryShelf, MemorySink, MemorySource, Row, Shelf, ShelfError, Sink, Source, StdSink,
    StdSource,
};
use market_amounts::List;
use market_events::Role;
use std::alloc::{AllocError, Global};
use std::test::Fail;

#[test]
fn source_with_a_failing_call(rt: HostRuntime) -> Result<(), Fail> {
    let bytes = vec![in rt.alloc(); 10u8, 20, 30, 40, 50]?;
    let mut source = MemorySource::new(bytes, 2, vec![in rt.alloc(); 2u32]?);
    let mut room = [0u8; 4];
    assert_eq!(rt; source.read(&mut room), Ok(2));
    assert_eq!(rt; &room[..2], [10u8, 20].as_slice());
    assert_eq!(rt; source.read(&mut room), Err(Failed));
    assert_eq!(rt; source.read(&mut room), Ok(2));
    assert_eq!(rt; &room[..2], [30u8, 40].as_slice());
    assert_eq!(rt; source.read(&mut room), Ok(1));
    assert_eq!(rt; &room[..1], [50u8].as_slice());
    assert_eq!(rt; source.read(&mut room), Ok(0));
    Ok(())
}

#[test]
fn sink_with_a_failing_call(rt: HostRuntime) -> Result<(), Fail> {
    let mut sink = MemorySink::new(rt.alloc(), vec![in rt.alloc(); 1u32]?);
    assert_eq!(rt; sink.write(b"ab"), Err(Failed));
    assert!(rt; sink.bytes().is_empty());
    assert_eq!(rt; sink.write(b"abc"), Ok(3));
    assert_eq!(rt; sink.bytes(), b"abc".as_slice());
    Ok(())
}

#[test]
fn shelf_with_a_failing_commit(rt: HostRuntime) -> Result<(), Fail> {
    let node = Role::Shipment.node();
    let other = Role::Customer.node();
    let mut shelf = MemoryShelf::new(rt.alloc(), vec![in rt.alloc(); 2u32]?);
    let first = [row(rt.alloc(), 0, b"a")?, row(rt.alloc(), 1, b"bc")?];
    let second = [row(rt.alloc(), 2, b"d")?];
    assert_eq!(rt; shelf.commit(node, &first), Ok(()));
    assert_eq!(rt; shelf.commit(node, &second), Err(ShelfError::Failed));
    assert_eq!(rt; shelf.load(node, 2)?, None);
    assert_eq!(rt; shelf.commit(node, &second), Ok(()));
    assert_eq!(rt; shelf.load(node, 1)?, Some(row(rt.alloc(), 1, b"bc")?));
    assert_eq!(rt; shelf.load(node, 2)?, Some(row(rt.alloc(), 2, b"d")?));
    assert_eq!(rt; shelf.load(other, 0)?, None);
    Ok(())
}

fn row(alloc: Global, place: u32, text: &[u8]) -> Result<Row, AllocError>
    ensures { IfOk result (λ row. row.place ≡ place) }
{
    let text = List::from_slice(alloc, text)?;
    Ok(Row { place, text })
}

#[test]
fn std_source_and_sink(rt: HostRuntime) -> Result<(), Fail> {
    let mut source = StdSource::new(b"xyz".as_slice());
    let mut room = [0u8; 2];
    assert_eq!(rt; source.read(&mut room), Ok(2));
    assert_eq!(rt; room.as_slice(), b"xy".as_slice());
    assert_eq!(rt; source.read(&mut room), Ok(1));
    assert_eq!(rt; &room[..1], b"z".as_slice());
    assert_eq!(rt; source.read(&mut room), Ok(0));

    let mut out = Vec::new(rt.alloc());
    let mut sink = StdSink::new(&mut out);
    assert_eq!(rt; sink.write(b"hi"), Ok(2));
    assert_eq!(rt; out.as_slice(), b"hi".as_slice());
    Ok(())
}
