//! The shipments as a service.

ghost use Rattle.std.specs.Prelude.{◌≡◌, ◌≤◌, ◌+◌, ◌^◌, ℕ, true, List, [], ◌∷◌, ◌++◌, map, length};
ghost use Rattle.std.specs.Prelude.{OnOk, OnErr};
ghost use Rattle.std.specs.List.{enumerate_from};
ghost use Rattle.std.specs.Map.{values_of};
ghost use Rattle.market_events.specs.declared.bodies.Item.{Item};
ghost use Rattle.market_events.specs.declared.links.Link.{Link};
ghost use Rattle.market_events.specs.declared.links.TheConstants.{SHIPMENT_TO_SELLER, SHIPMENT_TO_ORDER};
ghost use Rattle.market_events.specs.declared.roles.Role.{Role};
ghost use Rattle.market_events.specs.Services.{fits, reactions};
ghost use Rattle.market_events.specs.Shipments.{deliver_rows};
ghost use Rattle.market_events.specs.Standing.{Stands, with_step};
ghost use Rattle.market_events.specs.Steps.{Step};
ghost use Rattle.shipment_service.specs.Deliveries.{CanServe, IsLined, served_of, taken_of, left_of};
ghost use Rattle.shipment_service.specs.Holds.{Holds};
ghost use Rattle.shipment_service.specs.Tables.{open_of, close_if, has_number, IsRising, item_packed};
ghost use Rattle.shipment_service.specs.Tables.{Waits, AreBelow};

use crate::answers::{tell_delivered, tell_shipped};
use crate::cells::{cells_of, names_behind, names_of, value_named};
use crate::package::{opened, packed};
use crate::packages::Packages;
use crate::waiting::Waiting;
use market_amounts::{CheckoutId, RequestId};
use market_events::{
    Ask, Body, Cell, CellName, Link, Outs, PricedLine, Service, Tabled, value_or_empty,
};
use std::alloc::{AllocError, Global};

/// All packages, and those of them that are open, by seller.
#[derive(Debug, Drop)]
pub struct Shipments {
    alloc: Global,
    packages: Packages,
    waiting: Waiting,
}

impl Shipments {
    /// Nothing was taken.
    pub fn new(alloc: Global) -> Shipments
        ensures { Holds result [] }
    {
        Shipments {
            alloc,
            packages: Packages::new(alloc),
            waiting: Waiting::new(alloc),
        }
    }

    // Packs the lines of a paid checkout, and tells the sellers and the orders that they left.
    fn ship(
        &mut self,
        checkout: CheckoutId,
        customer: u32,
        lines: &[PricedLine],
        outs: &mut Outs,
    ) -> Result<(), AllocError>
        requires empty { outs.old ≡ [] }
        requires room { length self.old.packages + length lines.now + 2 ≤ 2 ^ 32 }
        ensures made { OnOk result (outs.new
            ≡ (SHIPMENT_TO_SELLER, Body.Shipped checkout) ∷ (SHIPMENT_TO_ORDER, Body.Shipped checkout) ∷ []) }
        ensures packed { OnOk result (self.new.packages
            ≡ self.old.packages ++ map open_of (map (item_packed checkout customer) lines.now)) }
        ensures waits { OnOk result ((waiting : List (ℕ × Item)) → let next = length self.old.packages + 1 in
            Waits self.old.waiting.queues self.old.waiting.oldest waiting → AreBelow next waiting
            → Waits self.new.waiting.queues self.new.waiting.oldest
            (waiting ++ enumerate_from next (map (item_packed checkout customer) lines.now))) }
        ensures same { OnErr result (self.new.packages ≡ self.old.packages) }
        ensures err { OnErr result ((waiting : List (ℕ × Item)) → let next = length self.old.packages + 1 in
            Waits self.old.waiting.queues self.old.waiting.oldest waiting → AreBelow next waiting
            → Waits self.new.waiting.queues self.new.waiting.oldest waiting) }
    {
        tell_shipped(checkout, outs)?;
        let items = packed(self.alloc, checkout, customer, lines)?;
        let added = opened(self.alloc, items.as_slice())?;
        let before = self.packages.len();
        self.packages.add(added.as_slice())?;
        let put = self
            .waiting
            .add_all(self.alloc, before as u32 + 1, items.as_slice());
        if put.is_err() {
            self.packages.truncate(before);
        }
        put
    }

    // Delivers packages of the first ten sellers, and tells so.
    fn deliver(&mut self, id: RequestId, outs: &mut Outs) -> Result<(), AllocError>
        requires empty { outs.old ≡ [] }
        requires few { ∥ ((waiting : List (ℕ × Item))
            × CanServe self.old.waiting.queues self.old.waiting.oldest waiting) ∥₁ }
        ensures made { OnOk result ((waiting : List (ℕ × Item)) →
            Waits self.old.waiting.queues self.old.waiting.oldest waiting → IsLined waiting
            → outs.new ≡ deliver_rows id (values_of (taken_of waiting)) (length (served_of waiting))) }
        ensures closed { OnOk result ((waiting : List (ℕ × Item)) →
            Waits self.old.waiting.queues self.old.waiting.oldest waiting → IsLined waiting
            → self.new.packages ≡ close_if (has_number (taken_of waiting)) self.old.packages) }
        ensures left { OnOk result ((waiting : List (ℕ × Item)) →
            Waits self.old.waiting.queues self.old.waiting.oldest waiting → IsLined waiting
            → Waits self.new.waiting.queues self.new.waiting.oldest (left_of waiting)) }
        ensures same { OnErr result (self.new.packages ≡ self.old.packages) }
        ensures err { OnErr result ((waiting : List (ℕ × Item)) →
            Waits self.old.waiting.queues self.old.waiting.oldest waiting → IsRising waiting
            → Waits self.new.waiting.queues self.new.waiting.oldest waiting) }
    {
        let served = self.waiting.oldest.first_served(self.alloc)?;
        let picked = self.waiting.queues.pick(self.alloc, served.as_slice())?;
        let next = self
            .waiting
            .queues
            .followers(self.alloc, served.as_slice())?;
        let numbers = picked.numbers(self.alloc)?;
        let items = picked.items(self.alloc)?;
        tell_delivered(id, served.len(), items, outs)?;
        self.waiting.oldest.put_all(next.as_slice())?;
        self.waiting.oldest.take_all(served.as_slice());
        self.waiting.queues.serve(served.as_slice());
        self.packages.close_all(numbers.as_slice());
        Ok(())
    }

    // Takes a body, and makes what it is answered by.
    fn take(&mut self, body: &Body, outs: &mut Outs) -> Result<(), AllocError>
        requires empty { outs.old ≡ [] }
        requires can { ∥ ((from : Link) × (steps : List Step)
            × Stands Role.Shipment Holds self.old steps
            × (fits Role.Shipment steps from body.now ≡ true)) ∥₁ }
        ensures made { OnOk result ((from : Link) (steps : List Step) →
            Stands Role.Shipment Holds self.old steps → fits Role.Shipment steps from body.now ≡ true
            → outs.new ≡ reactions Role.Shipment steps from body.now) }
        ensures kept { OnOk result ((from : Link) (steps : List Step) →
            Stands Role.Shipment Holds self.old steps → fits Role.Shipment steps from body.now ≡ true
            → Holds self.new (with_step Role.Shipment steps from body.now)) }
        ensures err { OnErr result ((steps : List Step) → Holds self.old steps → Holds self.new steps) }
    {
        match body {
            Body::Asked(request) => match request.ask {
                Ask::Deliver => self.deliver(request.id, outs),
                _ => Ok(()),
            },
            Body::Confirmed(checkout, customer, lines, _) => {
                self.ship(*checkout, *customer, lines.as_slice(), outs)
            }
            _ => Ok(()),
        }
    }
}

impl Service for Shipments {
    ghost role = { Role.Shipment };

    ghost holds = { Holds };

    fn accept(&mut self, _from: Link, body: &Body, outs: &mut Outs) -> Result<(), AllocError> {
        if let Err(error) = self.take(body, outs) {
            outs.clear();
            return Err(error);
        }
        Ok(())
    }
}

impl Tabled for Shipments {
    fn cells(&self) -> Result<Vec<Cell>, AllocError> {
        cells_of(self.alloc, self.packages.as_slice())
    }

    fn touches(&self, _from: Link, body: &Body) -> Result<Vec<CellName>, AllocError> {
        match body {
            Body::Confirmed(_, _, lines, _) => names_behind(
                self.alloc,
                self.packages.len(),
                lines.as_slice().len(),
            ),
            Body::Asked(request) => match request.ask {
                Ask::Deliver => {
                    let turns = self.waiting.oldest.first_served(self.alloc)?;
                    let picked = self.waiting.queues.pick(self.alloc, turns.as_slice())?;
                    let numbers = picked.numbers(self.alloc)?;
                    names_of(self.alloc, numbers.as_slice())
                }
                _ => Ok(Vec::new(self.alloc)),
            },
            _ => Ok(Vec::new(self.alloc)),
        }
    }

    fn value(&self, name: &CellName) -> Result<Vec<u8>, AllocError> {
        let value = value_named(self.alloc, self.packages.as_slice(), name)?;
        Ok(value_or_empty(self.alloc, value))
    }
}
