//! Packets over rings; the values are worked out by hand.

ghost use Rattle.std.specs.Prelude.{◌≡◌, OnOk};

use market_amounts::{ProductKey, RequestId};
use market_events::{Ask, Body, CART_TO_STOCK, Counts, Event, Request};
use market_rings::{Fate, FateList, Inlet, Outlet, look, ring};
use std::alloc::{AllocError, Global};
use std::process::Abort;
use std::test::Fail;

// An event from the cart to stock with this number.
fn event(number: u32) -> Event {
    Event {
        link: CART_TO_STOCK,
        number,
        clock: 5,
        past: Counts::zero(),
        body: Body::Asked(Request {
            id: RequestId {
                caller: 7,
                number: 4,
            },
            ask: Ask::View(ProductKey {
                seller: 5,
                product: 10,
            }),
        }),
    }
}

// The events from the first number to the last.
fn events(alloc: Global, first: u32, last: u32) -> Result<Vec<Event>, AllocError> {
    let mut events = Vec::new(alloc);
    for number in first..=last {
        events.push(event(number))?;
    }
    Ok(events)
}

// The same fate so many times.
fn fates(alloc: Global, fate: Fate, count: usize) -> Result<FateList, AllocError> {
    let mut fates = Vec::new(alloc);
    for _ in 0..count {
        fates.push(fate)?;
    }
    Ok(FateList::new(fates))
}

// Sends packets and looks, and these wait.
fn expect_exchange(
    rt: &impl Abort,
    alloc: Global,
    outlet: &mut Outlet<u32>,
    inlet: &mut Inlet<u32>,
    fates: &mut FateList,
    packets: &[u32],
    want: &[u32],
) -> Result<(), AllocError>
    requires { outlet.old.ring ≡ inlet.old.ring }
    ensures { OnOk result (outlet.new.ring ≡ inlet.new.ring) }
{
    assert!(rt; packets.len() <= 7 && outlet.held() <= 7 && outlet.free() >= 21);
    outlet.send(packets, fates)?;
    assert_eq!(rt; inlet.waiting(), 0);
    look(outlet, inlet);
    let taken = inlet.take_waiting(alloc)?;
    assert!(rt; taken.as_slice() == want);
    Ok(())
}

#[test]
fn each_fate_and_two_that_were_held(rt: HostRuntime) -> Result<(), Fail> {
    let alloc = rt.alloc();
    let (mut outlet, mut inlet) = ring::<u32>(alloc)?;
    let mut fates = FateList::new(Vec::from_slice(
        alloc,
        &[
            Fate::Hold,
            Fate::Hold,
            Fate::Pass,
            Fate::Lose,
            Fate::Twice,
            Fate::Hold,
            Fate::Pass,
            Fate::Twice,
        ],
    )?);
    expect_exchange(
        &rt,
        alloc,
        &mut outlet,
        &mut inlet,
        &mut fates,
        &[1, 2],
        &[],
    )?;
    expect_exchange(
        &rt,
        alloc,
        &mut outlet,
        &mut inlet,
        &mut fates,
        &[3, 4, 5, 6, 7],
        &[3, 5, 5, 7, 1, 2],
    )?;
    expect_exchange(
        &rt,
        alloc,
        &mut outlet,
        &mut inlet,
        &mut fates,
        &[8, 9],
        &[8, 8, 9, 6],
    )?;
    expect_exchange(&rt, alloc, &mut outlet, &mut inlet, &mut fates, &[], &[])?;
    Ok(())
}

#[test]
fn most_packets_of_one_turn(rt: HostRuntime) -> Result<(), Fail> {
    let alloc = rt.alloc();
    let (mut outlet, mut inlet) = ring::<Event>(alloc)?;
    let first = events(alloc, 1, 7)?;
    let second = events(alloc, 8, 14)?;
    let mut hold = fates(alloc, Fate::Hold, 7)?;
    let mut twice = fates(alloc, Fate::Twice, 7)?;
    assert!(rt; first.len() == 7 && second.len() == 7);
    outlet.send(first.as_slice(), &mut hold)?;
    look(&mut outlet, &mut inlet);
    assert_eq!(rt; inlet.waiting(), 0);
    assert_eq!(rt; outlet.held(), 7);
    assert_eq!(rt; outlet.free(), 64);
    outlet.send(second.as_slice(), &mut twice)?;
    assert_eq!(rt; outlet.free(), 43);
    look(&mut outlet, &mut inlet);
    assert_eq!(rt; outlet.free(), 43);
    let taken = inlet.take_waiting(alloc)?;
    let want = [
        8, 8, 9, 9, 10, 10, 11, 11, 12, 12, 13, 13, 14, 14, 1, 2, 3, 4, 5, 6, 7,
    ];
    assert_eq!(rt; taken.len(), want.len());
    for (found, number) in taken.iter().zip(want) {
        assert_eq!(rt; found.number, number);
    }
    look(&mut outlet, &mut inlet);
    assert_eq!(rt; outlet.free(), 64);
    Ok(())
}
