//! What stock makes of an input: replies to requests, and of a checkout its reservation or its refusal.

ghost use Rattle.std.specs.Prelude.{◌≡◌, ◌+◌, ◌&&◌, ◌||◌, [], ◌∷◌, if◌then◌else◌, true, false, None, Some};
ghost use Rattle.std.specs.Prelude.{IfOk, IfErr, IfSome, OnOk, OnErr};
ghost use Rattle.market_amounts.specs.declared.keys.ProductKey.{ProductKey};
ghost use Rattle.market_amounts.specs.declared.keys.RequestId.{RequestId};
ghost use Rattle.market_events.specs.Links.{stock_node};
ghost use Rattle.market_events.specs.Requests.{same_id, same_key};
ghost use Rattle.market_events.specs.Steps.{told, refused};
ghost use Rattle.market_events.specs.Stocks.{stock_rows, level_rows, pieces_of};
ghost use Rattle.stock_service.specs.Amounts.{amounts_after, CanAct, can_stock};
ghost use Rattle.stock_service.specs.Tables.{amounts_at, has_at, lines_at};

use crate::held_lines::HeldLines;
use crate::level::Level;
use crate::levels::{Act, Levels};
use market_amounts::{CheckoutId, List, ProductKey, RequestId};
use market_events::{
    Body, Look, Outs, PricedLine, Reply, Role, Rule, STOCK_TO_CART, STOCK_TO_ORDER, StockRule,
};
use std::alloc::AllocError;

// The greatest number of pieces on hand.
const MOST_PIECES: u64 = 1_000_000_000;

// Puts more pieces of a product on hand, or refuses that, and tells so.
pub fn stock(
    levels: &mut Levels,
    look: Look,
    id: RequestId,
    key: ProductKey,
    pieces: u32,
    outs: &mut Outs,
) -> Result<(), AllocError>
    requires { outs.old ≡ [] }
    ensures made { OnOk result (outs.new ≡ stock_rows id pieces look (amounts_at levels.old key).on_hand) }
    ensures each { OnOk result (let was = amounts_at levels.old key in (k : ProductKey)
        → amounts_at levels.new k ≡ (if same_key key k && can_stock look pieces was.on_hand
        then record was { on_hand = was.on_hand + pieces } else amounts_at levels.old k)) }
    ensures there { OnOk result ((k : ProductKey) → has_at levels.new k
        ≡ (has_at levels.old k
        || (same_key key k && can_stock look pieces (amounts_at levels.old key).on_hand))) }
    ensures nothing { OnErr result (outs.new ≡ []) }
    ensures err { OnErr result (levels.new ≡ levels.old) }
{
    match stocked(look, levels.level(key), pieces) {
        Err(rule) => outs.tell(Role::Stock, id, Reply::Refused(rule)),
        Ok(level) => {
            outs.tell(Role::Stock, id, Reply::Stocked(u64::from(level.on_hand())))?;
            let put = levels.set(key, level);
            if put.is_err() {
                outs.clear();
            }
            put
        }
    }
}

// The level with more pieces on hand, or why there can be none.
fn stocked(look: Look, level: Level, pieces: u32) -> Result<Level, Rule>
    ensures more { IfOk result (λ more. more ≡ record level { on_hand = level.on_hand + pieces }) }
    ensures can { IfOk result (λ more. can_stock look pieces level.on_hand ≡ true) }
    ensures told { IfOk result (λ more. (id : RequestId) → stock_rows id pieces look level.on_hand
        ≡ told stock_node id (Reply.Stocked more.on_hand) ∷ []) }
    ensures cannot { IfErr result (λ rule. can_stock look pieces level.on_hand ≡ false) }
    ensures refused { IfErr result (λ rule. (id : RequestId) → stock_rows id pieces look level.on_hand
        ≡ refused stock_node id rule) }
{
    let on_hand = u64::from(level.on_hand()) + u64::from(pieces);
    match look {
        Look::Unknown => Err(Rule::Unknown),
        Look::Gone(_) => Err(Rule::Gone),
        Look::Live(..) if on_hand > MOST_PIECES => Err(Rule::StockOver),
        Look::Live(..) => Ok(level.with_on_hand(on_hand as u32)),
    }
}

// Tells the level of a product, or that it is unknown.
pub fn tell_level(
    outs: &mut Outs,
    id: RequestId,
    look: Look,
    level: Level,
) -> Result<(), AllocError>
    requires { outs.old ≡ [] }
    ensures made { OnOk result (outs.new ≡ level_rows id look level.on_hand level.reserved) }
    ensures nothing { OnErr result (outs.new ≡ []) }
{
    let on_hand = u64::from(level.on_hand());
    let reserved = u64::from(level.reserved());
    match look {
        Look::Unknown => outs.tell(Role::Stock, id, Reply::Refused(Rule::Unknown)),
        Look::Gone(_) | Look::Live(..) => outs.tell(
            Role::Stock,
            id,
            Reply::Level(on_hand, reserved),
        ),
    }
}

// Tells the cart that nothing is reserved.
pub fn refuse(
    outs: &mut Outs,
    checkout: CheckoutId,
    key: ProductKey,
    rule: StockRule,
) -> Result<(), AllocError>
    requires { outs.old ≡ [] }
    ensures made { OnOk result (outs.new ≡ (STOCK_TO_CART, Body.ReserveFailed checkout key rule) ∷ []) }
    ensures nothing { OnErr result (outs.new ≡ []) }
{
    outs.push(STOCK_TO_CART, Body::ReserveFailed(checkout, key, rule))
}

// Reserves the pieces of the lines, and tells the orders so.
pub fn reserve(
    levels: &mut Levels,
    held: &mut HeldLines,
    checkout: CheckoutId,
    customer: u32,
    lines: &List<PricedLine>,
    outs: &mut Outs,
) -> Result<(), AllocError>
    requires empty { outs.old ≡ [] }
    requires free { (k : ProductKey) → CanAct Act.Reserve (pieces_of k lines.now) (amounts_at levels.old k) }
    ensures made { OnOk result (outs.new
        ≡ (STOCK_TO_ORDER, Body.StockConfirmed checkout customer lines.now) ∷ []) }
    ensures each { OnOk result ((k : ProductKey) → amounts_at levels.new k
        ≡ amounts_after Act.Reserve (pieces_of k lines.now) (amounts_at levels.old k)) }
    ensures there { OnOk result ((k : ProductKey) → has_at levels.new k ≡ has_at levels.old k) }
    ensures lines { OnOk result ((id : RequestId) → lines_at held.new id
        ≡ (if same_id checkout id then Some lines.now else lines_at held.old id)) }
    ensures nothing { OnErr result (outs.new ≡ []) }
    ensures same_levels { OnErr result (levels.new ≡ levels.old) }
    ensures same_held { OnErr result (held.new ≡ held.old) }
{
    let kept = lines.try_copy()?;
    let told = Body::StockConfirmed(checkout, customer, lines.try_copy()?);
    outs.push(STOCK_TO_ORDER, told)?;
    if let Err(error) = held.keep(checkout, kept) {
        outs.clear();
        return Err(error);
    }
    levels.apply(lines.as_slice(), Act::Reserve);
    Ok(())
}

// Sells or releases the pieces of a checkout's lines, and forgets them. It takes no memory.
pub fn settle(levels: &mut Levels, held: &mut HeldLines, checkout: CheckoutId, act: Act)
    requires { IfSome (lines_at held.old checkout) (λ lines.
        (k : ProductKey) → CanAct act (pieces_of k lines) (amounts_at levels.old k)) }
    ensures each { IfSome (lines_at held.old checkout) (λ lines.
        (k : ProductKey) → amounts_at levels.new k
        ≡ amounts_after act (pieces_of k lines) (amounts_at levels.old k)) }
    ensures there { (k : ProductKey) → has_at levels.new k ≡ has_at levels.old k }
    ensures lines { (id : RequestId) → lines_at held.new id
        ≡ (if same_id checkout id then None else lines_at held.old id) }
{
    if let Some(lines) = held.take(checkout) {
        levels.apply(lines.as_slice(), act);
    }
}
