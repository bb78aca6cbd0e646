//! Counterexamples to what the laws say, where their premises do not hold, worked out by hand: each is a
//! clause of a function that does nothing. They show that no law is empty.

ghost use Rattle.market_laws.specs.CounterexamplesCauses.{CauseCounterexamples};
ghost use Rattle.market_laws.specs.CounterexamplesHistories.{GrowthCounterexamples, TakingCounterexamples};
ghost use Rattle.market_laws.specs.CounterexamplesHistories.{CausalCounterexamples};
ghost use Rattle.market_laws.specs.CounterexamplesHistories.{ReservedCounterexamples};
ghost use Rattle.market_laws.specs.CounterexamplesOldest.{OldestCounterexamples};
ghost use Rattle.market_laws.specs.CounterexamplesSettled.{SettledCounterexamples};
ghost use Rattle.market_laws.specs.CounterexamplesRuns.{TellingCounterexamples, CartCounterexamples};
ghost use Rattle.market_laws.specs.CounterexamplesRuns.{ProductCounterexamples};
ghost use Rattle.market_laws.specs.CounterexamplesRuns.{StockCounterexamples, OrderCounterexamples};
ghost use Rattle.market_laws.specs.CounterexamplesRuns.{PaymentCounterexamples};
ghost use Rattle.market_laws.specs.CounterexamplesRuns.{ShipmentCounterexamples};

/// Requests that are told too much or not at all, and asked twice: no runs of a service.
#[tactic(auto, using(crate::proofs::Refuted::Runs::telling))]
pub fn telling()
    ensures { TellingCounterexamples }
{}

/// Checkouts that the cart sends on twice, for another customer or ends unasked: no runs of it.
#[tactic(auto, using(crate::proofs::Refuted::Runs::cart))]
pub fn cart_runs()
    ensures { CartCounterexamples }
{}

/// Changes that stock alone is told, and one whose version is not the next: no runs of products.
#[tactic(auto, using(crate::proofs::Refuted::Runs::product))]
pub fn product_runs()
    ensures { ProductCounterexamples }
{}

/// Pieces that are held for another, twice, or without having been stocked: no runs of stock.
#[tactic(auto, using(crate::proofs::Refuted::Runs::stock))]
pub fn stock_runs()
    ensures { StockCounterexamples }
{}

/// Orders that are invoiced twice, to another, or not at all, and wrong endings: no runs of orders.
#[tactic(auto, using(crate::proofs::Refuted::Runs::order))]
pub fn order_runs()
    ensures { OrderCounterexamples }
{}

/// Payments of less than was invoiced, told to some services alone, or of no invoice: no runs of payments.
#[tactic(auto, using(crate::proofs::Refuted::Runs::payment))]
pub fn payment_runs()
    ensures { PaymentCounterexamples }
{}

/// Shipments and deliveries told twice, to some services alone, or of what was not paid: no runs of them.
#[tactic(auto, using(crate::proofs::Refuted::Runs::shipment))]
pub fn shipment_runs()
    ensures { ShipmentCounterexamples }
{}

/// Clocks that are not due, a request not well formed, too many entries, and an entry at another's place.
#[tactic(auto, using(crate::proofs::Refuted::Histories::growth))]
pub fn growth()
    ensures { GrowthCounterexamples }
{}

/// Events that do not fit where they are taken, or were never made, and a request asked while it had to wait.
#[tactic(auto, using(crate::proofs::Refuted::Histories::taking))]
pub fn taking()
    ensures { TakingCounterexamples }
{}

/// A past that forgets an event, and an event that is taken before one that is before it.
#[tactic(auto, using(crate::proofs::Refuted::Histories::causal))]
pub fn causal_order()
    ensures { CausalCounterexamples }
{}

/// Pieces that are held with no cause, and a reservation that is kept after a failure of its checkout.
#[tactic(auto, using(crate::proofs::Refuted::Histories::reserving))]
pub fn reservations()
    ensures { ReservedCounterexamples }
{}

/// Histories that are lawful and not settled, and others that are settled and not lawful.
#[tactic(auto, using(crate::proofs::Refuted::Settled::settling))]
pub fn settled()
    ensures { SettledCounterexamples }
{}

/// Outstanding events of which none is the oldest, two are, or the oldest is not found or not taken.
#[tactic(auto, using(crate::proofs::Refuted::Oldest::oldest))]
pub fn oldest_events()
    ensures { OldestCounterexamples }
{}

/// A checkout whose events were made twice, or with no cause.
#[tactic(auto, using(crate::proofs::Refuted::Causes::causes))]
pub fn causes()
    ensures { CauseCounterexamples }
{}
