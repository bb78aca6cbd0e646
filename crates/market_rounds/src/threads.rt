//! The turns of groups, side by side.

ghost use Rattle.std.specs.Prelude.{OnOk};
ghost use Rattle.std.specs.Thread.{IsSync};
ghost use Rattle.market_rounds.specs.Groups.{CanTurnGroup, HasTurnedGroup};

use crate::gate::Gate;
use crate::group::Group;
use market_events::Service;
use std::alloc::AllocError;
use std::thread::{Threads, join_mut};

// The turns of two groups, each in a thread of its own. On want of memory the groups are given up.
fn turn_two<R: Threads, G: Gate + Sync, A: Service + Send, B: Service>(
    rt: &R,
    gate: &G,
    a: &mut Group<A>,
    b: &mut Group<B>,
) -> Result<(), AllocError>
    requires a { CanTurnGroup A.role a.old }
    requires b { CanTurnGroup B.role b.old }
    ensures a { OnOk result (HasTurnedGroup a.old a.new) }
    ensures b { OnOk result (HasTurnedGroup b.old b.new) }
{
    let (first, second) = join_mut(
        rt,
        &mut || -> Result<(), AllocError>
            requires { IsSync G.row × CanTurnGroup A.role a.now }
            ensures { OnOk result (HasTurnedGroup a.entry.now a.exit.now) }
        { a.turn(gate) },
        &mut || -> Result<(), AllocError>
            requires { CanTurnGroup B.role b.now }
            ensures { OnOk result (HasTurnedGroup b.entry.now b.exit.now) }
        { b.turn(gate) },
    );
    first?;
    second
}

// The turns of four groups.
fn turn_four<
    R: Threads + Sync,
    G: Gate + Sync,
    A: Service + Send,
    B: Service + Send,
    C: Service + Send,
    D: Service,
>(
    rt: &R,
    gate: &G,
    a: &mut Group<A>,
    b: &mut Group<B>,
    c: &mut Group<C>,
    d: &mut Group<D>,
) -> Result<(), AllocError>
    requires a { CanTurnGroup A.role a.old }
    requires b { CanTurnGroup B.role b.old }
    requires c { CanTurnGroup C.role c.old }
    requires d { CanTurnGroup D.role d.old }
    ensures a { OnOk result (HasTurnedGroup a.old a.new) }
    ensures b { OnOk result (HasTurnedGroup b.old b.new) }
    ensures c { OnOk result (HasTurnedGroup c.old c.new) }
    ensures d { OnOk result (HasTurnedGroup d.old d.new) }
{
    let (first, second) = join_mut(
        rt,
        &mut || -> Result<(), AllocError>
            requires { CanTurnGroup A.role a.now × CanTurnGroup B.role b.now }
            ensures { OnOk result (HasTurnedGroup a.entry.now a.exit.now
                × HasTurnedGroup b.entry.now b.exit.now) }
        { turn_two(rt, gate, a, b) },
        &mut || -> Result<(), AllocError>
            requires { CanTurnGroup C.role c.now × CanTurnGroup D.role d.now }
            ensures { OnOk result (HasTurnedGroup c.entry.now c.exit.now
                × HasTurnedGroup d.entry.now d.exit.now) }
        { turn_two(rt, gate, c, d) },
    );
    first?;
    second
}

// The turns of eight groups.
pub fn turn_eight<
    R: Threads + Sync,
    G: Gate + Sync,
    A: Service + Send,
    B: Service + Send,
    C: Service + Send,
    D: Service + Send,
    E: Service + Send,
    F: Service + Send,
    H: Service + Send,
    I: Service,
>(
    rt: &R,
    gate: &G,
    a: &mut Group<A>,
    b: &mut Group<B>,
    c: &mut Group<C>,
    d: &mut Group<D>,
    e: &mut Group<E>,
    f: &mut Group<F>,
    h: &mut Group<H>,
    i: &mut Group<I>,
) -> Result<(), AllocError>
    requires a { CanTurnGroup A.role a.old }
    requires b { CanTurnGroup B.role b.old }
    requires c { CanTurnGroup C.role c.old }
    requires d { CanTurnGroup D.role d.old }
    requires e { CanTurnGroup E.role e.old }
    requires f { CanTurnGroup F.role f.old }
    requires h { CanTurnGroup H.role h.old }
    requires i { CanTurnGroup I.role i.old }
    ensures a { OnOk result (HasTurnedGroup a.old a.new) }
    ensures b { OnOk result (HasTurnedGroup b.old b.new) }
    ensures c { OnOk result (HasTurnedGroup c.old c.new) }
    ensures d { OnOk result (HasTurnedGroup d.old d.new) }
    ensures e { OnOk result (HasTurnedGroup e.old e.new) }
    ensures f { OnOk result (HasTurnedGroup f.old f.new) }
    ensures h { OnOk result (HasTurnedGroup h.old h.new) }
    ensures i { OnOk result (HasTurnedGroup i.old i.new) }
{
    let (first, second) = join_mut(
        rt,
        &mut || -> Result<(), AllocError>
            requires { CanTurnGroup A.role a.now × (CanTurnGroup B.role b.now
                × (CanTurnGroup C.role c.now × CanTurnGroup D.role d.now)) }
            ensures { OnOk result (HasTurnedGroup a.entry.now a.exit.now
                × (HasTurnedGroup b.entry.now b.exit.now
                × (HasTurnedGroup c.entry.now c.exit.now × HasTurnedGroup d.entry.now d.exit.now))) }
        { turn_four(rt, gate, a, b, c, d) },
        &mut || -> Result<(), AllocError>
            requires { CanTurnGroup E.role e.now × (CanTurnGroup F.role f.now
                × (CanTurnGroup H.role h.now × CanTurnGroup I.role i.now)) }
            ensures { OnOk result (HasTurnedGroup e.entry.now e.exit.now
                × (HasTurnedGroup f.entry.now f.exit.now
                × (HasTurnedGroup h.entry.now h.exit.now × HasTurnedGroup i.entry.now i.exit.now))) }
        { turn_four(rt, gate, e, f, h, i) },
    );
    first?;
    second
}
