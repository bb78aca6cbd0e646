//! What is made of a request that asks about a customer.

ghost use Rattle.std.specs.Prelude.{◌≡◌, [], OnOk, OnErr};
ghost use Rattle.market_events.specs.Customers.{customer_asked};
ghost use Rattle.customer_service.specs.Tables.{sums_at};

use crate::tables::Tallies;
use market_events::{Ask, Outs, Reply, Request, Role};
use std::alloc::AllocError;

// Tells the lane of a request what is counted of the customer that it asks about.
pub fn answer(tallies: &Tallies, request: &Request, outs: &mut Outs) -> Result<(), AllocError>
    requires { outs.old ≡ [] }
    ensures ok { let request = request.now in
        OnOk result (outs.new ≡ customer_asked (sums_at tallies.now) request.id request.ask) }
    ensures err { OnErr result (outs.new ≡ []) }
{
    let Ask::Customer(customer) = request.ask else {
        return Ok(());
    };
    let tally = tallies.get(customer);
    let reply = Reply::Customer(tally.confirmed, tally.failed, tally.delivered);
    outs.tell(Role::Customer, request.id, reply)
}
