//! What is made of an invoice that is paid or not.

ghost use Rattle.std.specs.Prelude.{◌≡◌, ℕ, ◌+◌, ◌==◌, ◌≤◌, [], ◌++◌, length, map, if◌then◌else◌, OnOk};
ghost use Rattle.std.specs.Prelude.{OnErr};
ghost use Rattle.market_events.specs.Payments.{invoice_rows, confirmed_rows, failed_rows};
ghost use Rattle.payment_service.specs.Tables.{account_at, billed, limit_at, spent_at};

use crate::tables::Accounts;
use market_amounts::{CheckoutId, List};
use market_events::{
    Body, Link, Outs, PAYMENT_TO_CUSTOMER, PAYMENT_TO_ORDER, PAYMENT_TO_SELLER,
    PAYMENT_TO_SHIPMENT, PAYMENT_TO_STOCK, PayRule, PricedLine,
};
use std::alloc::AllocError;

// The links to who is told of a payment, and to who is told that there is none, in order.
const WHEN_PAID: [Link; 5] = [
    PAYMENT_TO_STOCK,
    PAYMENT_TO_CUSTOMER,
    PAYMENT_TO_SELLER,
    PAYMENT_TO_ORDER,
    PAYMENT_TO_SHIPMENT,
];

const WHEN_FAILED: [Link; 4] = [
    PAYMENT_TO_STOCK,
    PAYMENT_TO_CUSTOMER,
    PAYMENT_TO_SELLER,
    PAYMENT_TO_ORDER,
];

// Pays an invoice, or says why it is not paid.
pub fn bill(
    accounts: &mut Accounts,
    checkout: CheckoutId,
    customer: u32,
    lines: &List<PricedLine>,
    total: u64,
    outs: &mut Outs,
) -> Result<(), AllocError>
    requires { outs.old ≡ [] }
    ensures made { let limit = limit_at accounts.old customer in
        let spent = spent_at accounts.old customer in
        OnOk result (outs.new ≡ invoice_rows checkout customer lines.now total limit spent) }
    ensures each { OnOk result ((c : ℕ) → let before = account_at accounts.old c in
        account_at accounts.new c ≡ (if customer == c then billed total before else before)) }
    ensures err { OnErr result (accounts.new ≡ accounts.old) }
{
    match accounts.paid(customer, total) {
        Ok(account) => {
            confirm(outs, checkout, customer, lines, total)?;
            accounts.set(customer, account)
        }
        Err(rule) => fail(outs, checkout, customer, rule),
    }
}

// Tells that a checkout is paid.
fn confirm(
    outs: &mut Outs,
    checkout: CheckoutId,
    customer: u32,
    lines: &List<PricedLine>,
    total: u64,
) -> Result<(), AllocError>
    requires { outs.old ≡ [] }
    ensures { OnOk result (outs.new ≡ confirmed_rows (Body.Confirmed checkout customer lines.now total)) }
{
    let confirmed = Body::Confirmed(checkout, customer, lines.try_copy()?, total);
    send(outs, &WHEN_PAID, &confirmed)
}

// Tells that a checkout is not paid.
fn fail(
    outs: &mut Outs,
    checkout: CheckoutId,
    customer: u32,
    rule: PayRule,
) -> Result<(), AllocError>
    requires { outs.old ≡ [] }
    ensures { OnOk result (outs.new ≡ failed_rows (Body.Failed checkout customer rule)) }
{
    let failed = Body::Failed(checkout, customer, rule);
    send(outs, &WHEN_FAILED, &failed)
}

// Sends a copy of the body on each of these links.
fn send(outs: &mut Outs, links: &[Link], body: &Body) -> Result<(), AllocError>
    requires { length outs.old + length links.now ≤ 8 }
    ensures { OnOk result (outs.new ≡ outs.old ++ map (λ link. (link, body.now)) links.now) }
{
    for link in links {
        outs.push(*link, body.try_copy()?)?;
    }
    Ok(())
}
