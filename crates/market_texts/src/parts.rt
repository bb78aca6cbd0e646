//! The texts of lines, items and rows, and the words of rules and statuses.

ghost use Rattle.std.specs.Prelude.{◌≡◌};
ghost use Rattle.market_events.specs.Texts.{pay_rule_text, status_text, stock_rule_text, text_of_rule};

use market_amounts::ProductKey;
use market_events::{EntryRow, Item, OrderStatus, PayRule, PricedLine, Rule, StockRule};
use market_words::{IdText, KeyText};
use std::fmt;

/// SELLER PRODUCT, two words
#[derive(Clone, Copy)]
pub(crate) struct KeyWords(pub ProductKey);

impl fmt::Display for KeyWords {
    ghost use Rattle.std.specs.Prelude.{Some, ◌∷◌, ◌++◌};
    ghost use Rattle.std.specs.Fmt.{decimal};

    ghost output = { λ words. Some (decimal words.0.seller ++ (32 ∷ decimal words.0.product)) };

    fn fmt<W: fmt::Write>(&self, f: &mut fmt::Formatter<W>) -> fmt::Result {
        let ProductKey { seller, product } = self.0;
        write!(f, "{seller} {product}")
    }
}

/// SELLER:PRODUCT:QUANTITY:PRICE:FREIGHT:VOUCHER
#[derive(Clone, Copy)]
pub(crate) struct LineText(pub PricedLine);

impl fmt::Display for LineText {
    ghost use Rattle.std.specs.Prelude.{Some};
    ghost use Rattle.market_events.specs.Texts.{line_text};

    ghost output = { λ text. Some (line_text text.0) };

    fn fmt<W: fmt::Write>(&self, f: &mut fmt::Formatter<W>) -> fmt::Result {
        let PricedLine {
            key,
            quantity,
            price,
            freight,
            voucher,
        } = self.0;
        write!(
            f,
            "{}:{}:{}:{}:{}",
            KeyText(key),
            quantity.get(),
            price.get(),
            freight.get(),
            voucher.get()
        )
    }
}

/// ID:CUSTOMER:SELLER:PRODUCT
#[derive(Clone, Copy)]
pub(crate) struct ItemText(pub Item);

impl fmt::Display for ItemText {
    ghost use Rattle.std.specs.Prelude.{Some};
    ghost use Rattle.market_events.specs.Texts.{item_text};

    ghost output = { λ text. Some (item_text text.0) };

    fn fmt<W: fmt::Write>(&self, f: &mut fmt::Formatter<W>) -> fmt::Result {
        let Item {
            checkout,
            customer,
            key,
        } = self.0;
        write!(f, "{}:{customer}:{}", IdText(checkout), KeyText(key))
    }
}

/// ID:PRODUCT:QUANTITY:AMOUNT:STATUS
#[derive(Clone, Copy)]
pub(crate) struct RowText(pub EntryRow);

impl fmt::Display for RowText {
    ghost use Rattle.std.specs.Prelude.{Some};
    ghost use Rattle.market_events.specs.Texts.{row_text};

    ghost output = { λ text. Some (row_text text.0) };

    fn fmt<W: fmt::Write>(&self, f: &mut fmt::Formatter<W>) -> fmt::Result {
        let EntryRow {
            checkout,
            product,
            quantity,
            amount,
            status,
        } = self.0;
        let id = IdText(checkout);
        write!(
            f,
            "{id}:{product}:{}:{amount}:{}",
            quantity.get(),
            status_word(status)
        )
    }
}

/// Why a request was refused.
pub(crate) fn rule_word(rule: Rule) -> &'static str
    ensures { result.now ≡ text_of_rule rule }
{
    match rule {
        Rule::Exists => "exists",
        Rule::Unknown => "unknown",
        Rule::Gone => "gone",
        Rule::CartFull => "cart_full",
        Rule::NoLine => "no_line",
        Rule::StockOver => "stock_over",
        Rule::NoOrder => "no_order",
        Rule::LaneFull => "lane_full",
        Rule::RequestDiffers => "request_differs",
    }
}

/// How far an order is.
pub(crate) fn status_word(status: OrderStatus) -> &'static str
    ensures { result.now ≡ status_text status }
{
    match status {
        OrderStatus::Invoiced => "invoiced",
        OrderStatus::Paid => "paid",
        OrderStatus::Shipped => "shipped",
        OrderStatus::Delivered => "delivered",
        OrderStatus::Cancelled => "cancelled",
    }
}

/// Why stock reserved nothing.
pub(crate) fn stock_word(rule: StockRule) -> &'static str
    ensures { result.now ≡ stock_rule_text rule }
{
    match rule {
        StockRule::Gone => "gone",
        StockRule::Short => "short",
    }
}

/// Why a payment failed.
pub(crate) fn pay_word(rule: PayRule) -> &'static str
    ensures { result.now ≡ pay_rule_text rule }
{
    match rule {
        PayRule::NoCard => "no_card",
        PayRule::OverLimit => "over_limit",
    }
}
