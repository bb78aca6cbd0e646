//! What the service makes of a request: a change with its next version, of which stock and the cart are told,
//! or a refusal.

ghost use Rattle.std.specs.Prelude.{◌≡◌, ◌<◌, List, [], ◌++◌, OnOk, OnErr};
ghost use Rattle.market_amounts.specs.declared.keys.ProductKey.{ProductKey};
ghost use Rattle.market_events.specs.Copies.{ProductChange};
ghost use Rattle.market_events.specs.Looks.{look_version};
ghost use Rattle.market_events.specs.Products.{changed, product_rows};
ghost use Rattle.market_events.specs.Services.{most_steps};
ghost use Rattle.cart_replica.specs.Copy.{look_at, IsCopyOf};
ghost use Rattle.product_service.specs.Changing.{reply_by, rows_of, changes_told};
ghost use Rattle.product_service.specs.Tables.{sums_at};

use crate::changing::{change_asked, refusal, reply_to, version_shown};
use cart_replica::ProductCopy;
use market_amounts::{ProductKey, RequestId};
use market_events::{Body, Change, Outs, PRODUCT_TO_CART, PRODUCT_TO_STOCK, Reply, Role};
use std::alloc::AllocError;

// Takes a body, and makes what it is answered by.
pub fn answer(copy: &mut ProductCopy, body: &Body, outs: &mut Outs) -> Result<(), AllocError>
    requires empty { outs.old ≡ [] }
    requires few { (key : ProductKey) → look_version (look_at copy.old key) < most_steps }
    ensures made { OnOk result (outs.new ≡ product_rows (sums_at copy.old) body.now) }

    // The copy of some changes becomes the copy of these and the ones that are made.
    ensures copies { OnOk result ((changes : List ProductChange) → IsCopyOf copy.old changes
        → IsCopyOf copy.new (changes ++ changes_told (product_rows (sums_at copy.old) body.now))) }
    ensures unchanged { OnErr result (copy.new ≡ copy.old) }
{
    let Body::Asked(request) = body else {
        return Ok(());
    };
    match change_asked(&request.ask) {
        Some((key, change)) => make_change(copy, request.id, key, &change, outs),
        None => Ok(()),
    }
}

// Makes the change that a request asks for, or refuses it.
fn make_change(
    copy: &mut ProductCopy,
    id: RequestId,
    key: ProductKey,
    change: &Change,
    outs: &mut Outs,
) -> Result<(), AllocError>
    requires empty { outs.old ≡ [] }
    requires few { look_version (look_at copy.old key) < most_steps }
    ensures made { OnOk result (outs.new ≡ rows_of (sums_at copy.old) id key change.now) }
    ensures copies { OnOk result ((changes : List ProductChange) → IsCopyOf copy.old changes
        → IsCopyOf copy.new (changes ++ changes_told (rows_of (sums_at copy.old) id key change.now))) }
    ensures unchanged { OnErr result (copy.new ≡ copy.old) }
{
    let look = copy.look(key);
    if let Some(rule) = refusal(&look, change) {
        return outs.tell(Role::Product, id, Reply::Refused(rule));
    }
    let version = version_shown(&look) + 1;
    tell_change(id, key, version, change, outs)?;
    copy.apply(key, version, change)
}

// Tells stock and the cart the change, and the lane of the request the reply.
fn tell_change(
    id: RequestId,
    key: ProductKey,
    version: u32,
    change: &Change,
    outs: &mut Outs,
) -> Result<(), AllocError>
    requires { outs.old ≡ [] }
    ensures { OnOk result (outs.new ≡ changed id key version change.now (reply_by change.now version)) }
{
    outs.push(PRODUCT_TO_STOCK, Body::Changed(key, version, *change))?;
    outs.push(PRODUCT_TO_CART, Body::Changed(key, version, *change))?;
    outs.tell(Role::Product, id, reply_to(change, version))
}
