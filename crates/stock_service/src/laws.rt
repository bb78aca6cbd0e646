//! Laws: what holds after every run of stock.

ghost use Rattle.std.specs.Prelude.{◌+◌, ◌≤◌, List};
ghost use Rattle.market_amounts.specs.declared.keys.ProductKey.{ProductKey};
ghost use Rattle.market_events.specs.declared.roles.Role.{Role};
ghost use Rattle.market_events.specs.Services.{IsRunOf};
ghost use Rattle.market_events.specs.Steps.{Step};
ghost use Rattle.market_events.specs.Stocks.{on_hand, reserved, sold, stocked};

/// After every run of stock no more pieces of a product are reserved than are on hand. And what is on hand is
/// what was stocked less what was sold: with what is reserved no more was sold than was stocked.
pub fn reserved_is_on_hand()
    ensures covered { (steps : List Step) → IsRunOf Role.Stock steps → (key : ProductKey)
        → reserved steps key ≤ on_hand steps key }
    ensures within { (steps : List Step) → IsRunOf Role.Stock steps → (key : ProductKey)
        → sold steps key + reserved steps key ≤ stocked steps key }
{}
