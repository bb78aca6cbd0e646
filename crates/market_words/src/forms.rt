//! What a word says: a number, a key or an id. All spelling in a word is judged before ranges.

ghost use Rattle.std.specs.Prelude.{◌≡◌};
ghost use Rattle.market_words.specs.Words.{both, number_id, number_up_to, spelled_number, key_in, id_of};
ghost use Rattle.market_words.specs.Words.{key_of};

use crate::faults::WordFault;
use crate::pieces::Pieces;
use market_amounts::{NumberError, ProductKey, RequestId, read_number, read_wide_number};

/// Both of them, or the first kind of fault that one of them has.
pub fn both<A: Drop, B: Drop>(
    a: Result<A, WordFault>,
    b: Result<B, WordFault>,
) -> Result<(A, B), WordFault>
    ensures { result ≡ both a b }
{
    match (a, b) {
        (Ok(a), Ok(b)) => Ok((a, b)),
        (Ok(_), Err(fault)) | (Err(fault), Ok(_)) => Err(fault),
        (Err(WordFault::Field), Err(_)) => Err(WordFault::Field),
        (Err(WordFault::Range), Err(fault)) => Err(fault),
    }
}

// A text that is no number is misspelled, unless the number is too large.
fn fault_of_number(error: NumberError) -> WordFault
    ensures { Err result ≡ spelled_number (Err error) }
{
    match error {
        NumberError::TooLarge => WordFault::Range,
        NumberError::Empty | NumberError::NotDigit(_) | NumberError::LeadingZero =>
            WordFault::Field,
    }
}

/// A number up to a limit, by its spelling and then its range.
pub fn number_within(text: &[u8], limit: u64) -> Result<u64, WordFault>
    ensures { result ≡ number_up_to limit text.now }
{
    read_number(text, limit).map_err(fault_of_number)
}

/// A number of up to 128 bits, up to a limit, by its spelling and then its range.
pub fn wide_number_within(text: &[u8], limit: u128) -> Result<u128, WordFault>
    ensures { result ≡ number_up_to limit text.now }
{
    read_wide_number(text, limit).map_err(fault_of_number)
}

/// A number of 32 bits: it names something or counts it.
pub fn id_number(text: &[u8]) -> Result<u32, WordFault>
    ensures { result ≡ number_id text.now }
{
    let number = number_within(text, u64::from(u32::MAX))?;
    Ok(number as u32)
}

/// The key of a seller and a product, each a word of its own.
pub fn key_of_two(seller: &[u8], product: &[u8]) -> Result<ProductKey, WordFault>
    ensures { result ≡ key_in seller.now product.now }
{
    let (seller, product) = both(id_number(seller), id_number(product))?;
    Ok(ProductKey { seller, product })
}

/// The key that `SELLER:PRODUCT` spells.
pub fn key(text: &[u8]) -> Result<ProductKey, WordFault>
    ensures { result ≡ key_of text.now }
{
    let mut pieces = Pieces::new(text, b':');
    let seller = pieces.take()?;
    let product = pieces.take()?;
    pieces.end()?;
    key_of_two(seller, product)
}

/// The id that `CALLER.NUMBER` spells.
pub fn id(text: &[u8]) -> Result<RequestId, WordFault>
    ensures { result ≡ id_of text.now }
{
    let mut pieces = Pieces::new(text, b'.');
    let caller = pieces.take()?;
    let number = pieces.take()?;
    pieces.end()?;
    let (caller, number) = both(id_number(caller), id_number(number))?;
    Ok(RequestId { caller, number })
}
