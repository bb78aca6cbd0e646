//! Services: each takes inputs, one after the other, and makes what its role answers.

ghost use Rattle.std.specs.Prelude.{◌≡◌, ◌≤◌, ◌↔◌, List, [], true, false, OnOk, OnErr, IfOk, vec_len};
ghost use Rattle.std.specs.List.{IsDistinct};
ghost use Rattle.market_events.specs.declared.cells.CellName.{CellName};
ghost use Rattle.market_events.specs.Cells.{cells_of};
ghost use Rattle.market_events.specs.Services.{Role, fits, reactions};
ghost use Rattle.market_events.specs.Standing.{Stands, StandsForSome, CanTake, with_step, same_name};
ghost use Rattle.market_events.specs.Standing.{is_named, has_cell, value_of, may_change, most_touched};
ghost use Rattle.market_events.specs.Steps.{Step};

use crate::bodies::Body;
use crate::cells::{Cell, CellName};
use crate::links::Link;
use crate::outs::Outs;
use std::alloc::AllocError;

/// A service. `role` is which one it is, and `holds` relates what it keeps to the steps that it took: each
/// table is the sum over the steps that its definition says.
pub trait Service {
    ghost role: { Role };

    ghost holds: { Self → List Step → Type 0 };

    /// Takes a body that came on this link, and puts what it makes into `outs`. It requires that `outs` is
    /// empty, and that the input fits some steps for which the service stands. On want of memory nothing is
    /// made, and the service stands for what it stood for.
    fn accept(&mut self, from: Link, body: &Body, outs: &mut Outs) -> Result<(), AllocError>
        requires empty { outs.old ≡ [] }
        requires can { CanTake role holds self.old from body.now }

        // The answers are made, and the service stands for one step more.
        ensures made { OnOk result ((steps : List Step) → Stands role holds self.old steps
            → fits role steps from body.now ≡ true
            → outs.new ≡ reactions role steps from body.now) }
        ensures kept { OnOk result ((steps : List Step) → Stands role holds self.old steps
            → fits role steps from body.now ≡ true
            → holds self.new (with_step role steps from body.now)) }

        ensures nothing { OnErr result (outs.new ≡ []) }
        ensures unchanged { OnErr result ((steps : List Step) → holds self.old steps
            → holds self.new steps) };
}

/// A service whose state is told in cells.
pub trait Tabled: Service {
    /// The cells, by rising name.
    fn cells(&self) -> Result<Vec<Cell>, AllocError>
        requires { StandsForSome Self.role Self.holds self.now }
        ensures { IfOk result (λ cells. (steps : List Step) → Stands Self.role Self.holds self.now steps
            → cells.items ≡ cells_of Self.role steps) };

    /// The names of the cells that the input changes: at most 64, and at most 320 for packages that were
    /// delivered and for a request to deliver. Each is of a table that an input of this kind may change, so
    /// an input that changes no table touches nothing. It requires that the input fits some steps for which
    /// the service stands.
    fn touches(&self, from: Link, body: &Body) -> Result<Vec<CellName>, AllocError>
        requires { CanTake Self.role Self.holds self.now from body.now }
        ensures covers { IfOk result (λ names. (steps : List Step)
            → Stands Self.role Self.holds self.now steps → fits Self.role steps from body.now ≡ true
            → (name : CellName) → is_named names.items name ≡ false
            → value_of (cells_of Self.role (with_step Self.role steps from body.now)) name
            ≡ value_of (cells_of Self.role steps) name) }
        ensures tables { IfOk result (λ names. (name : CellName)
            → is_named names.items name ≡ true → may_change Self.role body.now name ≡ true) }
        ensures differ { IfOk result (λ names. IsDistinct same_name names.items) }
        ensures few { IfOk result (λ names. vec_len names ≤ most_touched body.now) };

    /// The value of the cell with this name, empty where there is none.
    fn value(&self, name: &CellName) -> Result<Vec<u8>, AllocError>
        requires { StandsForSome Self.role Self.holds self.now }
        ensures value { IfOk result (λ value. (steps : List Step) → Stands Self.role Self.holds self.now steps
            → value.items ≡ value_of (cells_of Self.role steps) name.now) }
        ensures none { IfOk result (λ value. (steps : List Step) → Stands Self.role Self.holds self.now steps
            → (value.items ≡ [] ↔ (has_cell (cells_of Self.role steps) name.now ≡ false))) };
}
