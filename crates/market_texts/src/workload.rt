//! The records of a workload.

ghost use Rattle.std.specs.Prelude.{◌≡◌, ◌≢◌, ◌≤◌, true, map, length, IfOk, MatchResult};
ghost use Rattle.market_events.specs.WellFormed.{IsAsk, IsRequest, ArePieces};
ghost use Rattle.market_texts.specs.Workload.{request_of, create_ask, price_ask, delete_ask, view_ask};
ghost use Rattle.market_texts.specs.Workload.{line_ask, remove_ask, stock_ask, level_ask, checkout_ask};
ghost use Rattle.market_texts.specs.Workload.{order_ask, card_ask, deliver_ask, customer_ask, dashboard_ask};
ghost use Rattle.market_texts.specs.Workload.{ask_by_kind, number_field, id_field, cents_field};
ghost use Rattle.market_texts.specs.Workload.{quantity_field, pieces_field, limit_field, key_fields};

use market_amounts::{Cents, NumberError, ProductKey, Quantity, RequestId, read_number};
use market_events::{Ask, Request};
use std::error::Error;
use std::fmt;

// The most pieces that a request stocks.
const MOST_PIECES: u64 = 1_000_000_000;

// The greatest limit of a card.
const MOST_LIMIT: u64 = 1_000_000_000_000_000;

/// The rules of a workload record.
#[derive(Clone, Copy, Debug, PartialEq, Eq)]
pub enum WorkRule {
    /// There are too few fields, or not as many arguments as the kind has.
    Fields,
    /// A number is not spelled in decimal digits without a leading zero.
    Number,
    /// A number is above its range, or 0 where that is out of range.
    Range,
    /// The kind is none that is built.
    Kind,
}

impl fmt::Display for WorkRule {
    ghost use Rattle.std.specs.Prelude.{Some};
    ghost use Rattle.market_texts.specs.FaultTexts.{work_rule_text};

    ghost output = { λ rule. Some (work_rule_text rule) };

    fn fmt<W: fmt::Write>(&self, f: &mut fmt::Formatter<W>) -> fmt::Result {
        match self {
            WorkRule::Fields => f.write_str("fields"),
            WorkRule::Number => f.write_str("number"),
            WorkRule::Range => f.write_str("range"),
            WorkRule::Kind => f.write_str("kind"),
        }
    }
}

impl Error for WorkRule {}

/// Reads a record `caller,number,kind,argument,..`. Of the rules that it breaks the first is answered: fewer
/// than three fields, the spelling and range of caller and number, the kind, the number of arguments, and
/// then the spelling and range of each argument in turn.
pub fn read_fields(fields: &[Vec<u8>]) -> Result<Request, WorkRule>
    ensures exact { result ≡ request_of (map (λ field. field.items) fields.now) }
    ensures formed { IfOk result IsRequest }
{
    let [caller, number, kind, arguments @ ..] = fields else {
        return Err(WorkRule::Fields);
    };
    let caller = id_number(caller)?;
    let number = id_number(number)?;
    let ask = ask_of_kind(kind, arguments)?;
    Ok(Request {
        id: RequestId { caller, number },
        ask,
    })
}

fn ask_of_kind(kind: &[u8], arguments: &[Vec<u8>]) -> Result<Ask, WorkRule>
    ensures exact { result ≡ ask_by_kind kind.now (map (λ field. field.items) arguments.now) }
    ensures formed { IfOk result IsAsk }
{
    if kind == b"create".as_slice() {
        create(arguments)
    } else if kind == b"price".as_slice() {
        price(arguments)
    } else if kind == b"delete".as_slice() {
        delete(arguments)
    } else if kind == b"view".as_slice() {
        view(arguments)
    } else if kind == b"line".as_slice() {
        line(arguments)
    } else if kind == b"remove".as_slice() {
        remove(arguments)
    } else if kind == b"checkout".as_slice() {
        checkout(arguments)
    } else if kind == b"stock".as_slice() {
        stock(arguments)
    } else if kind == b"level".as_slice() {
        level(arguments)
    } else if kind == b"order".as_slice() {
        order(arguments)
    } else if kind == b"card".as_slice() {
        card(arguments)
    } else if kind == b"deliver".as_slice() {
        deliver(arguments)
    } else if kind == b"customer".as_slice() {
        customer(arguments)
    } else if kind == b"dashboard".as_slice() {
        dashboard(arguments)
    } else {
        Err(WorkRule::Kind)
    }
}

#[tactic(auto, using(crate::proofs::FieldCounts::counts))]
fn create(arguments: &[Vec<u8>]) -> Result<Ask, WorkRule>
    ensures exact { result ≡ create_ask (map (λ field. field.items) arguments.now) }
    ensures formed { IfOk result IsAsk }
{
    let [seller, product, price, freight] = exactly::<4>(arguments)?;
    let key = key(seller, product)?;
    let price = cents(price)?;
    let freight = cents(freight)?;
    Ok(Ask::Create(key, price, freight))
}

#[tactic(auto, using(crate::proofs::FieldCounts::counts))]
fn price(arguments: &[Vec<u8>]) -> Result<Ask, WorkRule>
    ensures exact { result ≡ price_ask (map (λ field. field.items) arguments.now) }
    ensures formed { IfOk result IsAsk }
{
    let [seller, product, price] = exactly::<3>(arguments)?;
    let key = key(seller, product)?;
    let price = cents(price)?;
    Ok(Ask::Price(key, price))
}

#[tactic(auto, using(crate::proofs::FieldCounts::counts))]
fn delete(arguments: &[Vec<u8>]) -> Result<Ask, WorkRule>
    ensures exact { result ≡ delete_ask (map (λ field. field.items) arguments.now) }
    ensures formed { IfOk result IsAsk }
{
    let [seller, product] = exactly::<2>(arguments)?;
    let key = key(seller, product)?;
    Ok(Ask::Delete(key))
}

#[tactic(auto, using(crate::proofs::FieldCounts::counts))]
fn view(arguments: &[Vec<u8>]) -> Result<Ask, WorkRule>
    ensures exact { result ≡ view_ask (map (λ field. field.items) arguments.now) }
    ensures formed { IfOk result IsAsk }
{
    let [seller, product] = exactly::<2>(arguments)?;
    let key = key(seller, product)?;
    Ok(Ask::View(key))
}

#[tactic(auto, using(crate::proofs::FieldCounts::counts))]
fn line(arguments: &[Vec<u8>]) -> Result<Ask, WorkRule>
    ensures exact { result ≡ line_ask (map (λ field. field.items) arguments.now) }
    ensures formed { IfOk result IsAsk }
{
    let [customer, seller, product, quantity, voucher] = exactly::<5>(arguments)?;
    let customer = id_number(customer)?;
    let key = key(seller, product)?;
    let quantity = line_quantity(quantity)?;
    let voucher = cents(voucher)?;
    Ok(Ask::Line(customer, key, quantity, voucher))
}

#[tactic(auto, using(crate::proofs::FieldCounts::counts))]
fn remove(arguments: &[Vec<u8>]) -> Result<Ask, WorkRule>
    ensures exact { result ≡ remove_ask (map (λ field. field.items) arguments.now) }
    ensures formed { IfOk result IsAsk }
{
    let [customer, seller, product] = exactly::<3>(arguments)?;
    let customer = id_number(customer)?;
    let key = key(seller, product)?;
    Ok(Ask::Remove(customer, key))
}

#[tactic(auto, using(crate::proofs::FieldCounts::counts))]
fn checkout(arguments: &[Vec<u8>]) -> Result<Ask, WorkRule>
    ensures exact { result ≡ checkout_ask (map (λ field. field.items) arguments.now) }
    ensures formed { IfOk result IsAsk }
{
    let [customer] = exactly::<1>(arguments)?;
    let customer = id_number(customer)?;
    Ok(Ask::Checkout(customer))
}

#[tactic(auto, using(crate::proofs::FieldCounts::counts))]
fn stock(arguments: &[Vec<u8>]) -> Result<Ask, WorkRule>
    ensures exact { result ≡ stock_ask (map (λ field. field.items) arguments.now) }
    ensures formed { IfOk result IsAsk }
{
    let [seller, product, pieces] = exactly::<3>(arguments)?;
    let key = key(seller, product)?;
    let pieces = stocked_pieces(pieces)?;
    Ok(Ask::Stock(key, pieces))
}

#[tactic(auto, using(crate::proofs::FieldCounts::counts))]
fn level(arguments: &[Vec<u8>]) -> Result<Ask, WorkRule>
    ensures exact { result ≡ level_ask (map (λ field. field.items) arguments.now) }
    ensures formed { IfOk result IsAsk }
{
    let [seller, product] = exactly::<2>(arguments)?;
    let key = key(seller, product)?;
    Ok(Ask::Level(key))
}

#[tactic(auto, using(crate::proofs::FieldCounts::counts))]
fn order(arguments: &[Vec<u8>]) -> Result<Ask, WorkRule>
    ensures exact { result ≡ order_ask (map (λ field. field.items) arguments.now) }
    ensures formed { IfOk result IsAsk }
{
    let [caller, number] = exactly::<2>(arguments)?;
    Ok(Ask::Order(RequestId {
        caller: id_number(caller)?,
        number: id_number(number)?,
    }))
}

#[tactic(auto, using(crate::proofs::FieldCounts::counts))]
fn card(arguments: &[Vec<u8>]) -> Result<Ask, WorkRule>
    ensures exact { result ≡ card_ask (map (λ field. field.items) arguments.now) }
    ensures formed { IfOk result IsAsk }
{
    let [customer, limit] = exactly::<2>(arguments)?;
    let customer = id_number(customer)?;
    let limit = number(limit, MOST_LIMIT)?;
    Ok(Ask::Card(customer, limit))
}

#[tactic(auto, using(crate::proofs::FieldCounts::counts))]
fn deliver(arguments: &[Vec<u8>]) -> Result<Ask, WorkRule>
    ensures exact { result ≡ deliver_ask (map (λ field. field.items) arguments.now) }
    ensures formed { IfOk result IsAsk }
{
    let [] = exactly::<0>(arguments)?;
    Ok(Ask::Deliver)
}

#[tactic(auto, using(crate::proofs::FieldCounts::counts))]
fn customer(arguments: &[Vec<u8>]) -> Result<Ask, WorkRule>
    ensures exact { result ≡ customer_ask (map (λ field. field.items) arguments.now) }
    ensures formed { IfOk result IsAsk }
{
    let [customer] = exactly::<1>(arguments)?;
    let customer = id_number(customer)?;
    Ok(Ask::Customer(customer))
}

#[tactic(auto, using(crate::proofs::FieldCounts::counts))]
fn dashboard(arguments: &[Vec<u8>]) -> Result<Ask, WorkRule>
    ensures exact { result ≡ dashboard_ask (map (λ field. field.items) arguments.now) }
    ensures formed { IfOk result IsAsk }
{
    let [seller] = exactly::<1>(arguments)?;
    let seller = id_number(seller)?;
    Ok(Ask::Dashboard(seller))
}

// The arguments, where there are as many as the kind has.
fn exactly<const N: usize>(arguments: &[Vec<u8>]) -> Result<&[Vec<u8>; N], WorkRule>
    ensures { MatchResult result (λ all. (all.now ≡ arguments.now)
        × (length arguments.now ≡ N)) (λ rule. (rule ≡ WorkRule.Fields) × (length arguments.now ≢ N)) }
{
    arguments.try_into().map_err(|_| WorkRule::Fields)
}

fn key(seller: &[u8], product: &[u8]) -> Result<ProductKey, WorkRule>
    ensures { result ≡ key_fields seller.now product.now }
{
    let seller = id_number(seller)?;
    let product = id_number(product)?;
    Ok(ProductKey { seller, product })
}

// A number that names something, of 32 bits.
fn id_number(text: &[u8]) -> Result<u32, WorkRule>
    ensures { result ≡ id_field text.now }
{
    let number = number(text, u64::from(u32::MAX))?;
    Ok(number as u32)
}

fn cents(text: &[u8]) -> Result<Cents, WorkRule>
    ensures { result ≡ cents_field text.now }
{
    let number = number(text, Cents::MAX)?;
    Cents::try_new(number).map_err(|_| WorkRule::Range)
}

fn line_quantity(text: &[u8]) -> Result<Quantity, WorkRule>
    ensures { result ≡ quantity_field text.now }
{
    let number = number(text, u64::from(Quantity::MAX))?;
    Quantity::try_new(number as u32).map_err(|_| WorkRule::Range)
}

// Pieces that are stocked, 1 or more.
fn stocked_pieces(text: &[u8]) -> Result<u32, WorkRule>
    ensures value { result ≡ pieces_field text.now }
    ensures in_range { IfOk result (λ pieces. (1 ≤ pieces) × ArePieces pieces) }
{
    let number = number(text, MOST_PIECES)?;
    if number == 0 {
        return Err(WorkRule::Range);
    }
    Ok(number as u32)
}

// A number up to a limit, by its spelling and then its range.
fn number(text: &[u8], limit: u64) -> Result<u64, WorkRule>
    ensures { result ≡ number_field limit text.now }
{
    read_number(text, limit).map_err(|error| match error {
        NumberError::TooLarge => WorkRule::Range,
        NumberError::Empty | NumberError::NotDigit(_) | NumberError::LeadingZero =>
            WorkRule::Number,
    })
}
