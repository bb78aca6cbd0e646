//! Reading requests word by word.

ghost use Rattle.std.specs.Prelude.{◌≡◌, ◌≤◌, ◌+◌};
ghost use Rattle.market_texts.specs.Reading.{word, give, ◌then◌, key_words, quantity, cents};
ghost use Rattle.market_texts.specs.Readers.{ask_named, request_reader, number};
ghost use Rattle.market_texts.specs.Cutting.{outcome};

use crate::faults::BodyError;
use crate::words::Words;
use market_amounts::CheckoutId;
use market_events::{Ask, Request};

// ID KIND ARGUMENT ..
pub(crate) fn request(words: &mut Words) -> Result<Request, BodyError>
    requires { words.old.place + 7 ≤ u32.MAX }
    ensures { outcome result words.new ≡ request_reader words.old }
{
    let id = words.id()?;
    let (_, kind) = words.take()?;
    let ask = ask(kind, words)?;
    Ok(Request { id, ask })
}

// What a kind of request asks for, with its arguments.
fn ask(kind: &[u8], words: &mut Words) -> Result<Ask, BodyError>
    requires { words.old.place + 5 ≤ u32.MAX }
    ensures { outcome result words.new ≡ ask_named kind.now words.old }
{
    if kind == b"create".as_slice() {
        Ok(Ask::Create(words.seller_product()?, words.cents()?, words.cents()?))
    } else if kind == b"price".as_slice() {
        Ok(Ask::Price(words.seller_product()?, words.cents()?))
    } else if kind == b"delete".as_slice() {
        Ok(Ask::Delete(words.seller_product()?))
    } else if kind == b"view".as_slice() {
        Ok(Ask::View(words.seller_product()?))
    } else if kind == b"line".as_slice() {
        line(words)
    } else if kind == b"remove".as_slice() {
        Ok(Ask::Remove(words.number()?, words.seller_product()?))
    } else if kind == b"checkout".as_slice() {
        Ok(Ask::Checkout(words.number()?))
    } else if kind == b"stock".as_slice() {
        Ok(Ask::Stock(words.seller_product()?, words.some_pieces()?))
    } else if kind == b"level".as_slice() {
        Ok(Ask::Level(words.seller_product()?))
    } else if kind == b"order".as_slice() {
        let caller = words.number()?;
        let number = words.number()?;
        Ok(Ask::Order(CheckoutId { caller, number }))
    } else if kind == b"card".as_slice() {
        Ok(Ask::Card(words.number()?, words.limit()?))
    } else if kind == b"deliver".as_slice() {
        Ok(Ask::Deliver)
    } else if kind == b"customer".as_slice() {
        Ok(Ask::Customer(words.number()?))
    } else if kind == b"dashboard".as_slice() {
        Ok(Ask::Dashboard(words.number()?))
    } else {
        Err(BodyError::Kind)
    }
}

// A line in a customer's cart, with quantity and voucher.
fn line(words: &mut Words) -> Result<Ask, BodyError>
    requires { words.old.place + 5 ≤ u32.MAX }
    ensures { outcome result words.new
        ≡ (number then λ c. key_words then λ k. word quantity then λ q. word cents then λ v. give
        (Ask.Line c k q v)) words.old }
{
    let customer = words.number()?;
    let key = words.seller_product()?;
    Ok(Ask::Line(customer, key, words.quantity()?, words.cents()?))
}
