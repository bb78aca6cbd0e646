//! The words that name a case.

ghost use Rattle.std.specs.Prelude.{◌≡◌};
ghost use Rattle.market_texts.specs.Reading.{status_of};
ghost use Rattle.market_texts.specs.Readers.{rule_of, stock_rule_of, pay_rule_of};
ghost use Rattle.market_texts.specs.Cutting.{open_status_of};

use market_events::{OrderStatus, PayRule, Rule, StockRule};
use market_words::WordFault;

// The status of an order.
pub(crate) fn status(text: &[u8]) -> Result<OrderStatus, WordFault>
    ensures { result ≡ status_of text.now }
{
    if text == b"invoiced".as_slice() {
        Ok(OrderStatus::Invoiced)
    } else if text == b"paid".as_slice() {
        Ok(OrderStatus::Paid)
    } else if text == b"shipped".as_slice() {
        Ok(OrderStatus::Shipped)
    } else if text == b"delivered".as_slice() {
        Ok(OrderStatus::Delivered)
    } else if text == b"cancelled".as_slice() {
        Ok(OrderStatus::Cancelled)
    } else {
        Err(WordFault::Field)
    }
}

// The status of an entry that is in progress.
pub(crate) fn open_status(text: &[u8]) -> Result<OrderStatus, WordFault>
    ensures { result ≡ open_status_of text.now }
{
    match status(text)? {
        OrderStatus::Delivered | OrderStatus::Cancelled => Err(WordFault::Field),
        status => Ok(status),
    }
}

// Why a request was refused.
pub(crate) fn rule(text: &[u8]) -> Result<Rule, WordFault>
    ensures { result ≡ rule_of text.now }
{
    if text == b"exists".as_slice() {
        Ok(Rule::Exists)
    } else if text == b"unknown".as_slice() {
        Ok(Rule::Unknown)
    } else if text == b"gone".as_slice() {
        Ok(Rule::Gone)
    } else if text == b"cart_full".as_slice() {
        Ok(Rule::CartFull)
    } else if text == b"no_line".as_slice() {
        Ok(Rule::NoLine)
    } else if text == b"stock_over".as_slice() {
        Ok(Rule::StockOver)
    } else if text == b"no_order".as_slice() {
        Ok(Rule::NoOrder)
    } else if text == b"lane_full".as_slice() {
        Ok(Rule::LaneFull)
    } else if text == b"request_differs".as_slice() {
        Ok(Rule::RequestDiffers)
    } else {
        Err(WordFault::Field)
    }
}

// Why stock reserved nothing.
pub(crate) fn stock_rule(text: &[u8]) -> Result<StockRule, WordFault>
    ensures { result ≡ stock_rule_of text.now }
{
    if text == b"gone".as_slice() {
        Ok(StockRule::Gone)
    } else if text == b"short".as_slice() {
        Ok(StockRule::Short)
    } else {
        Err(WordFault::Field)
    }
}

// Why a payment failed.
pub(crate) fn pay_rule(text: &[u8]) -> Result<PayRule, WordFault>
    ensures { result ≡ pay_rule_of text.now }
{
    if text == b"no_card".as_slice() {
        Ok(PayRule::NoCard)
    } else if text == b"over_limit".as_slice() {
        Ok(PayRule::OverLimit)
    } else {
        Err(WordFault::Field)
    }
}
