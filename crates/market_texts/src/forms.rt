//! What a word says: a wide number, a total, an amount, a line, an item or a row. All spelling in a word is
//! judged before ranges.

ghost use Rattle.std.specs.Prelude.{◌≡◌};
ghost use Rattle.market_words.specs.Words.{number_up_to, above_zero};
ghost use Rattle.market_texts.specs.Reading.{this_total, quantity, cents, row_of, item_read, line_read};
ghost use Rattle.market_events.specs.WellFormed.{amount_max};

use crate::names::open_status;
use market_amounts::{Cents, Quantity};
use market_events::{EntryRow, Item, PricedLine};
use market_words::{
    Pieces, WordFault, both, id, id_number, key_of_two, number_within, wide_number_within,
};

// A number of up to 128 bits.
pub(crate) fn wide_number(text: &[u8]) -> Result<u128, WordFault>
    ensures { result ≡ number_up_to amount_max text.now }
{
    wide_number_within(text, u128::MAX)
}

// A number from 1 to a limit.
pub(crate) fn some_number(text: &[u8], limit: u32) -> Result<u32, WordFault>
    ensures { result ≡ above_zero (number_up_to limit text.now) }
{
    match number_within(text, u64::from(limit))? {
        0 => Err(WordFault::Range),
        number => Ok(number as u32),
    }
}

// A total, which is this sum.
pub(crate) fn this_total(text: &[u8], sum: u128) -> Result<u64, WordFault>
    ensures { result ≡ this_total sum text.now }
{
    let total = number_within(text, u64::MAX)?;
    if u128::from(total) == sum {
        Ok(total)
    } else {
        Err(WordFault::Range)
    }
}

// A price, a freight or a voucher.
pub(crate) fn cents(text: &[u8]) -> Result<Cents, WordFault>
    ensures { result ≡ cents text.now }
{
    let number = number_within(text, Cents::MAX)?;
    Cents::try_new(number).map_err(|_| WordFault::Range)
}

// The pieces of a line.
pub(crate) fn quantity(text: &[u8]) -> Result<Quantity, WordFault>
    ensures { result ≡ quantity text.now }
{
    let number = some_number(text, Quantity::MAX)?;
    Quantity::try_new(number).map_err(|_| WordFault::Range)
}

// SELLER:PRODUCT:QUANTITY:PRICE:FREIGHT:VOUCHER
pub(crate) fn line(text: &[u8]) -> Result<PricedLine, WordFault>
    ensures { result ≡ line_read text.now }
{
    let mut pieces = Pieces::new(text, b':');
    let seller = pieces.take()?;
    let product = pieces.take()?;
    let number = pieces.take()?;
    let price = pieces.take()?;
    let freight = pieces.take()?;
    let voucher = pieces.take()?;
    pieces.end()?;
    let costs = both(cents(price), both(cents(freight), cents(voucher)));
    let (key, (quantity, (price, (freight, voucher)))) = both(
        key_of_two(seller, product),
        both(quantity(number), costs),
    )?;
    Ok(PricedLine {
        key,
        quantity,
        price,
        freight,
        voucher,
    })
}

// ID:CUSTOMER:SELLER:PRODUCT
pub(crate) fn item(text: &[u8]) -> Result<Item, WordFault>
    ensures { result ≡ item_read text.now }
{
    let mut pieces = Pieces::new(text, b':');
    let checkout = pieces.take()?;
    let customer = pieces.take()?;
    let seller = pieces.take()?;
    let product = pieces.take()?;
    pieces.end()?;
    let names = both(id_number(customer), key_of_two(seller, product));
    let (checkout, (customer, key)) = both(id(checkout), names)?;
    Ok(Item {
        checkout,
        customer,
        key,
    })
}

// ID:PRODUCT:QUANTITY:AMOUNT:STATUS
pub(crate) fn row(text: &[u8]) -> Result<EntryRow, WordFault>
    ensures { result ≡ row_of text.now }
{
    let mut pieces = Pieces::new(text, b':');
    let checkout = pieces.take()?;
    let product = pieces.take()?;
    let number = pieces.take()?;
    let amount = pieces.take()?;
    let status = pieces.take()?;
    pieces.end()?;
    let state = both(number_within(amount, u64::MAX), open_status(status));
    let pieces = both(quantity(number), state);
    let (checkout, (product, (quantity, (amount, status)))) = both(
        id(checkout),
        both(id_number(product), pieces),
    )?;
    Ok(EntryRow {
        checkout,
        product,
        quantity,
        amount,
        status,
    })
}
