//! What the sellers answer: the dashboards that they are asked for.

ghost use Rattle.std.specs.Prelude.{◌≡◌, ℕ, ◌<◌, ◌^◌, [], length, OnOk, OnErr};
ghost use Rattle.market_events.specs.Sellers.{seller_asked};
ghost use Rattle.seller_service.specs.Tables.{changes_at, sums_at};

use crate::dashboard::dashboard_of;
use crate::tables::Ledgers;
use market_events::{Ask, Outs, Request, Role};
use std::alloc::{AllocError, Global};

/// Tells the lane of a request the dashboard that it asks for. A request of another kind is told nothing.
pub fn answer(
    alloc: Global,
    ledgers: &Ledgers,
    request: &Request,
    outs: &mut Outs,
) -> Result<(), AllocError>
    requires empty { outs.old ≡ [] }
    requires few { (seller : ℕ) → length (changes_at ledgers.now seller) < 2 ^ 32 }
    ensures ok { OnOk result (outs.new ≡ seller_asked (sums_at ledgers.now) request.now.id request.now.ask) }
    ensures err { OnErr result (outs.new ≡ []) }
{
    let Ask::Dashboard(seller) = request.ask else {
        return Ok(());
    };
    let reply = dashboard_of(alloc, ledgers.changes(seller))?;
    outs.tell(Role::Seller, request.id, reply)
}
