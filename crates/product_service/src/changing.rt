//! Changes that requests ask for: when they are refused, and what is told of them.

ghost use Rattle.std.specs.Prelude.{◌≡◌};
ghost use Rattle.market_events.specs.Looks.{look_version};
ghost use Rattle.product_service.specs.Changing.{key_wanted, refusal_by, reply_by, change_wanted};

use market_amounts::ProductKey;
use market_events::{Ask, Body, Change, Look, Reply, Rule};

// The product that a request asks to change, and the change.
pub fn change_asked(ask: &Ask) -> Option<(ProductKey, Change)>
    ensures { result ≡ change_wanted ask.now }
{
    match ask {
        Ask::Create(key, price, freight) => Some((*key, Change::Created(*price, *freight))),
        Ask::Price(key, price) => Some((*key, Change::Priced(*price))),
        Ask::Delete(key) => Some((*key, Change::Deleted)),
        _ => None,
    }
}

// The product that a body asks to change.
pub fn key_asked(body: &Body) -> Option<ProductKey>
    ensures { result ≡ key_wanted body.now }
{
    match body {
        Body::Asked(request) => change_asked(&request.ask).map(|(key, _)| key),
        _ => None,
    }
}

// Why a change of a product that shows this is refused.
pub fn refusal(look: &Look, change: &Change) -> Option<Rule>
    ensures { result ≡ refusal_by look.now change.now }
{
    match (change, look) {
        (Change::Created(..), Look::Live(..)) => Some(Rule::Exists),
        (Change::Created(..), Look::Unknown | Look::Gone(_)) => None,
        (Change::Priced(_) | Change::Deleted, Look::Unknown) => Some(Rule::Unknown),
        (Change::Priced(_) | Change::Deleted, Look::Gone(_)) => Some(Rule::Gone),
        (Change::Priced(_) | Change::Deleted, Look::Live(..)) => None,
    }
}

// The version that is shown, 0 of a product that had no change.
pub fn version_shown(look: &Look) -> u32
    ensures { result ≡ look_version look.now }
{
    match look {
        Look::Unknown => 0,
        Look::Gone(version) | Look::Live(version, _, _) => *version,
    }
}

// The reply to who asked for a change, with the version that it makes.
pub fn reply_to(change: &Change, version: u32) -> Reply
    ensures { result ≡ reply_by change.now version }
{
    match change {
        Change::Created(..) => Reply::Created(version),
        Change::Priced(_) => Reply::Priced(version),
        Change::Deleted => Reply::Deleted(version),
    }
}
