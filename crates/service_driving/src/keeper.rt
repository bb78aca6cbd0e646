//! A keeper of any service.

ghost use Rattle.std.specs.Prelude.{◌≡◌, List, true, IfOk, OnOk, OnErr};
ghost use Rattle.market_events.specs.Services.{fits, reactions};
ghost use Rattle.market_events.specs.Standing.{Stands, StandsForSome, CanTake, with_step};
ghost use Rattle.market_events.specs.Steps.{Step};

use crate::driving::step;
use market_events::{Body, Link, Outs, Service};
use std::alloc::{AllocError, Global};

/// A service that stands for some steps.
#[derive(Drop)]
pub struct Keeper<S: Service> {
    service: S,
    ghost stands: { StandsForSome S.role S.holds service },
}

impl<S: Service> Keeper<S> {
    /// Keeps a service that stands for some steps.
    pub fn new(service: S) -> Keeper<S>
        requires { StandsForSome S.role S.holds service }
        ensures { result.service ≡ service }
    {
        Keeper { service }
    }

    /// Takes a body that came on this link, which requires that it fits some steps for which the service
    /// stands, and gives what the service makes. On want of memory the service stands for what it stood for.
    pub fn take(&mut self, alloc: Global, from: Link, body: &Body) -> Result<Outs, AllocError>
        requires { CanTake S.role S.holds self.old.service from body.now }
        ensures made { IfOk result (λ outs. (steps : List Step) → Stands S.role S.holds self.old.service steps
            → fits S.role steps from body.now ≡ true → outs ≡ reactions S.role steps from body.now) }
        ensures stands { OnOk result ((steps : List Step) → Stands S.role S.holds self.old.service steps
            → fits S.role steps from body.now ≡ true
            → Stands S.role S.holds self.new.service (with_step S.role steps from body.now)) }
        ensures unchanged { OnErr result ((steps : List Step) → Stands S.role S.holds self.old.service steps
            → Stands S.role S.holds self.new.service steps) }
    {
        step(&mut self.service, alloc, from, body)
    }
}
