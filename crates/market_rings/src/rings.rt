//! Rings, and how their ends are brought together.

ghost use Rattle.std.specs.Prelude.{◌≡◌, IfOk};
ghost use Rattle.market_rings.specs.RingEnds.{AreNew, IsLooked};

use crate::inlets::Inlet;
use crate::outlets::Outlet;
use rtrb::RingBuffer;
use std::alloc::{AllocError, Global};
use std::collections::VecDeque;

/// How many slots a ring has.
pub const SLOTS: usize = 64;

/// The ends of a new ring.
pub fn ring<T: Drop>(alloc: Global) -> Result<(Outlet<T>, Inlet<T>), AllocError>
    ensures { IfOk result (λ ends. AreNew ends.0 ends.1) }
{
    let (producer, consumer) = RingBuffer::new(alloc, SLOTS)?;
    let outlet = Outlet {
        producer,
        held: VecDeque::new(alloc),
        free: SLOTS,
    };
    Ok((outlet, Inlet { consumer }))
}

/// Brings the two ends of a ring together, which requires that they are of one ring: it tells what waits and
/// how many slots are free. It takes no memory.
pub fn look<T>(outlet: &mut Outlet<T>, inlet: &mut Inlet<T>)
    requires { outlet.old.ring ≡ inlet.old.ring }
    ensures { IsLooked outlet.old inlet.old outlet.new inlet.new }
{
    outlet.free = outlet.producer.slots_beside(&mut inlet.consumer);
    inlet.consumer.slots_beside(&mut outlet.producer);
}
