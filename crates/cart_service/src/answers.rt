//! What the cart makes of an input: replies to requests and to the ends of checkouts, and of a checkout its
//! lines for stock.

ghost use Rattle.std.specs.Prelude.{◌≡◌, [], OnOk, OnErr};
ghost use Rattle.market_events.specs.declared.requests.Ask.TheVariants as asks;
ghost use Rattle.market_events.specs.Carts.{cart_asked, line_rows, remove_rows, checkout_rows, first_gone};
ghost use Rattle.market_events.specs.Carts.{view_rows, undone_by_stock as undone_by_stock_rule};
ghost use Rattle.market_events.specs.Carts.{undone_by_payment as undone_by_payment_rule};
ghost use Rattle.market_events.specs.Carts.{reply_to_ending as reply_by_ending};
ghost use Rattle.cart_replica.specs.Copy.{look_at};
ghost use Rattle.cart_service.specs.Tables.{lines_at, sums_at, without, ChangesOnly, AreLeft, AreSame};

use crate::basket::Held;
use crate::baskets::Baskets;
use cart_replica::ProductCopy;
use market_amounts::{ProductKey, RequestId};
use market_events::{
    Ask, Body, CART_TO_STOCK, Ending, Look, Outs, PayRule, Reply, Request, Role, Rule, StockRule,
    UndoneRule,
};
use std::alloc::{AllocError, Global};

// Answers a request. On want of memory nothing is told, and each customer has the same lines.
pub fn answer(
    alloc: Global,
    copy: &ProductCopy,
    baskets: &mut Baskets,
    request: &Request,
    outs: &mut Outs,
) -> Result<(), AllocError>
    requires { outs.old ≡ [] }
    ensures made { OnOk result (outs.new
        ≡ cart_asked (sums_at copy.now baskets.old) request.now.id request.now.ask) }
    ensures left { OnOk result (AreLeft copy.now baskets.old baskets.new request.now.ask) }
    ensures nothing { OnErr result (outs.new ≡ []) }
    ensures unchanged { OnErr result (AreSame baskets.old baskets.new) }
{
    let id = request.id;
    match &request.ask {
        Ask::View(key) => tell_view(outs, id, copy.look(*key)),
        Ask::Line(customer, key, quantity, voucher) => {
            let held = Held {
                quantity: *quantity,
                voucher: *voucher,
            };
            set_line(alloc, copy, baskets, id, *customer, *key, held, outs)
        }
        Ask::Remove(customer, key) => remove_line(baskets, id, *customer, *key, outs),
        Ask::Checkout(customer) => check_out(alloc, copy, baskets, id, *customer, outs),
        _ => Ok(()),
    }
}

// Sets a line in a customer's basket.
fn set_line(
    alloc: Global,
    copy: &ProductCopy,
    baskets: &mut Baskets,
    id: RequestId,
    customer: u32,
    key: ProductKey,
    held: Held,
    outs: &mut Outs,
) -> Result<(), AllocError>
    requires { outs.old ≡ [] }
    ensures made { OnOk result (outs.new
        ≡ line_rows id key held.quantity (look_at copy.now key) (lines_at baskets.old customer)) }
    ensures left { OnOk result
        (AreLeft copy.now baskets.old baskets.new (asks.Line customer key held.quantity held.voucher)) }
    ensures nothing { OnErr result (outs.new ≡ []) }
    ensures unchanged { OnErr result (AreSame baskets.old baskets.new) }
{
    match copy.look(key) {
        Look::Unknown => return outs.tell(Role::Cart, id, Reply::Refused(Rule::Unknown)),
        Look::Gone(_) => return outs.tell(Role::Cart, id, Reply::Refused(Rule::Gone)),
        Look::Live(..) => {}
    }
    if !baskets.has_room(customer, key) {
        return outs.tell(Role::Cart, id, Reply::Refused(Rule::CartFull));
    }
    outs.tell(Role::Cart, id, Reply::Line(held.quantity))?;
    let set = baskets.set(alloc, customer, key, held);
    if set.is_err() {
        outs.clear();
    }
    set
}

// Removes a line from a customer's basket.
fn remove_line(
    baskets: &mut Baskets,
    id: RequestId,
    customer: u32,
    key: ProductKey,
    outs: &mut Outs,
) -> Result<(), AllocError>
    requires { outs.old ≡ [] }
    ensures made { OnOk result (outs.new ≡ remove_rows id key (lines_at baskets.old customer)) }
    ensures left { OnOk result
        (ChangesOnly baskets.old baskets.new customer (without key (lines_at baskets.old customer))) }
    ensures nothing { OnErr result (outs.new ≡ []) }
    ensures unchanged { OnErr result (AreSame baskets.old baskets.new) }
{
    if !baskets.has_line(customer, key) {
        return outs.tell(Role::Cart, id, Reply::Refused(Rule::NoLine));
    }
    outs.tell(Role::Cart, id, Reply::Removed)?;
    baskets.remove(customer, key);
    Ok(())
}

// Sends a customer's basket on to stock, and empties it; or tells why the checkout is undone.
fn check_out(
    alloc: Global,
    copy: &ProductCopy,
    baskets: &mut Baskets,
    id: RequestId,
    customer: u32,
    outs: &mut Outs,
) -> Result<(), AllocError>
    requires { outs.old ≡ [] }
    ensures made { OnOk result (outs.new
        ≡ checkout_rows id customer (look_at copy.now) (lines_at baskets.old customer)
        (first_gone (look_at copy.now) (lines_at baskets.old customer))) }
    ensures left { OnOk result (AreLeft copy.now baskets.old baskets.new (asks.Checkout customer)) }
    ensures nothing { OnErr result (outs.new ≡ []) }
    ensures unchanged { OnErr result (AreSame baskets.old baskets.new) }
{
    if let Some(rule) = baskets.undone(customer, copy) {
        return outs.tell(Role::Cart, id, Reply::Undone(rule));
    }
    let lines = baskets.priced(alloc, customer, copy)?;
    outs.push(CART_TO_STOCK, Body::Reserve(id, customer, lines))?;
    baskets.empty(customer);
    Ok(())
}

// Tells what is shown of a product.
pub fn tell_view(outs: &mut Outs, id: RequestId, look: Look) -> Result<(), AllocError>
    requires { outs.old ≡ [] }
    ensures ok { OnOk result (outs.new ≡ view_rows id look) }
    ensures err { OnErr result (outs.new ≡ []) }
{
    let reply = match look {
        Look::Unknown => Reply::Refused(Rule::Unknown),
        Look::Gone(_) => Reply::Refused(Rule::Gone),
        Look::Live(version, price, freight) => Reply::View(version, price, freight),
    };
    outs.tell(Role::Cart, id, reply)
}

// Why a checkout is undone that stock refused.
pub fn undone_by_stock(rule: StockRule, key: ProductKey) -> UndoneRule
    ensures { result ≡ undone_by_stock_rule rule key }
{
    match rule {
        StockRule::Gone => UndoneRule::Gone(key),
        StockRule::Short => UndoneRule::Short(key),
    }
}

// The reply to a checkout that ended.
pub fn reply_to_ending(ending: Ending) -> Reply
    ensures { result ≡ reply_by_ending ending }
{
    match ending {
        Ending::Whole(total) => Reply::Whole(total),
        Ending::Undone(rule) => Reply::Undone(undone_by_payment(rule)),
    }
}

// Why a checkout is undone that was not paid.
fn undone_by_payment(rule: PayRule) -> UndoneRule
    ensures { result ≡ undone_by_payment_rule rule }
{
    match rule {
        PayRule::NoCard => UndoneRule::NoCard,
        PayRule::OverLimit => UndoneRule::OverLimit,
    }
}
