//! Steps of any service.

ghost use Rattle.std.specs.Prelude.{◌≡◌, List, true, IfOk, OnOk, OnErr};
ghost use Rattle.std.specs.List.{All};
ghost use Rattle.market_events.specs.declared.cells.Cell.{Cell};
ghost use Rattle.market_events.specs.Cells.{cells_of};
ghost use Rattle.market_events.specs.Services.{fits, reactions};
ghost use Rattle.market_events.specs.Standing.{Stands, StandsForSome, CanTake, with_step, value_of};
ghost use Rattle.market_events.specs.Steps.{Step};

use market_amounts::List;
use market_events::{Body, Cell, CellName, Link, Outs, Service, Tabled};
use std::alloc::{AllocError, Global};

/// Takes a body that came on this link, which requires that it fits some steps for which the service stands,
/// and gives what the service makes. On want of memory the service stands for what it stood for.
pub fn step<S: Service>(
    service: &mut S,
    alloc: Global,
    from: Link,
    body: &Body,
) -> Result<Outs, AllocError>
    requires { CanTake S.role S.holds service.old from body.now }
    ensures made { IfOk result (λ outs. (steps : List Step) → Stands S.role S.holds service.old steps
        → fits S.role steps from body.now ≡ true → outs ≡ reactions S.role steps from body.now) }
    ensures stands { OnOk result ((steps : List Step) → Stands S.role S.holds service.old steps
        → fits S.role steps from body.now ≡ true
        → Stands S.role S.holds service.new (with_step S.role steps from body.now)) }
    ensures unchanged { OnErr result ((steps : List Step) → Stands S.role S.holds service.old steps
        → Stands S.role S.holds service.new steps) }
{
    let mut outs = Outs::new(alloc);
    service.accept(from, body, &mut outs)?;
    Ok(outs)
}

/// Takes a body that came on this link, which requires that it fits some steps for which the service stands.
/// Gives what the service makes, and the cells that the step may change, with their new values.
pub fn drive<S: Tabled>(
    service: &mut S,
    alloc: Global,
    from: Link,
    body: &Body,
) -> Result<(Outs, Vec<Cell>), AllocError>
    requires { CanTake S.role S.holds service.old from body.now }
    ensures whole { StandsForSome S.role S.holds service.new }
    ensures made { IfOk result (λ taken. (steps : List Step) → Stands S.role S.holds service.old steps
        → fits S.role steps from body.now ≡ true → taken.0 ≡ reactions S.role steps from body.now) }
    ensures stands { OnOk result ((steps : List Step) → Stands S.role S.holds service.old steps
        → fits S.role steps from body.now ≡ true
        → Stands S.role S.holds service.new (with_step S.role steps from body.now)) }
    ensures told { IfOk result (λ taken. (steps : List Step) → Stands S.role S.holds service.old steps
        → fits S.role steps from body.now ≡ true
        → let cells = cells_of S.role (with_step S.role steps from body.now) in
        All (λ (c : Cell). c.value ≡ value_of cells c.name) taken.1.items) }
{
    let names = service.touches(from, body)?;
    let outs = step(service, alloc, from, body)?;
    let cells = cells_named(service, alloc, names)?;
    Ok((outs, cells))
}

// The cells of these names, an empty value where there is none.
fn cells_named<S: Tabled>(
    service: &S,
    alloc: Global,
    names: Vec<CellName>,
) -> Result<Vec<Cell>, AllocError>
    requires { StandsForSome S.role S.holds service.now }
    ensures { IfOk result (λ cells. (steps : List Step) → Stands S.role S.holds service.now steps
        → All (λ (c : Cell). c.value ≡ value_of (cells_of S.role steps) c.name) cells.items) }
{
    let mut cells = Vec::new(alloc);
    for name in names {
        let value = service.value(&name)?;
        cells.push(Cell {
            name,
            value: List::from_vec(value),
        })?;
    }
    Ok(cells)
}
