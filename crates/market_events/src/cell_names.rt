//! Names of cells, by the text of a key, and keys read back of names.

ghost use Rattle.std.specs.Prelude.{◌≡◌, ℕ, ◌<◌, ◌^◌, true, Some, IfOk, IfSome};
ghost use Rattle.market_amounts.specs.declared.keys.ProductKey.{ProductKey};
ghost use Rattle.market_amounts.specs.declared.keys.RequestId.{RequestId};
ghost use Rattle.market_events.specs.CellNames.{number_name, key_name, id_name, basket_name, basket_line_of};
ghost use Rattle.std.specs.Fmt.{decimal};
ghost use Rattle.market_events.specs.Cells.{basket_key};
ghost use Rattle.market_events.specs.Texts.{id_text, key_text};
ghost use Rattle.market_events.specs.Formed.{key_formed, request_id_formed};

use crate::cells::CellName;
use market_amounts::{List, ProductKey, RequestId};
use market_words::{IdText, KeyText, Pieces, WordFault, id, id_number, key};
use std::alloc::{AllocError, Global};

/// The name of the cell of a number.
pub fn number_name(alloc: Global, table: &[u8], number: u32) -> Result<CellName, AllocError>
    ensures { IfOk result (λ name. name ≡ number_name table.now number) }
{
    let table = List::from_slice(alloc, table)?;
    let key = format!(in alloc; "{number}")?;
    Ok(CellName {
        table,
        key: List::from_vec(key.into_bytes()),
    })
}

/// The name of the cell of a product.
pub fn key_name(alloc: Global, table: &[u8], key: ProductKey) -> Result<CellName, AllocError>
    ensures { IfOk result (λ name. name ≡ key_name table.now key) }
{
    let table = List::from_slice(alloc, table)?;
    let text = KeyText(key);
    let key = format!(in alloc; "{text}")?;
    Ok(CellName {
        table,
        key: List::from_vec(key.into_bytes()),
    })
}

/// The name of the cell of a request or a checkout.
pub fn id_name(alloc: Global, table: &[u8], id: RequestId) -> Result<CellName, AllocError>
    ensures { IfOk result (λ name. name ≡ id_name table.now id) }
{
    let table = List::from_slice(alloc, table)?;
    let text = IdText(id);
    let key = format!(in alloc; "{text}")?;
    Ok(CellName {
        table,
        key: List::from_vec(key.into_bytes()),
    })
}

/// The name of the cell of a product in a customer's basket.
pub fn basket_name(
    alloc: Global,
    table: &[u8],
    customer: u32,
    key: ProductKey,
) -> Result<CellName, AllocError>
    ensures { IfOk result (λ name. name ≡ basket_name table.now (customer, key)) }
{
    let table = List::from_slice(alloc, table)?;
    let text = KeyText(key);
    let key = format!(in alloc; "{customer}:{text}")?;
    Ok(CellName {
        table,
        key: List::from_vec(key.into_bytes()),
    })
}

/// The number whose cell in this table has the name.
pub fn number_named(table: &[u8], name: &CellName) -> Option<u32>
    ensures named { IfSome result (λ n. name.now ≡ number_name table.now n) }
    ensures found { (n : ℕ) → n < 2 ^ 32 → name.now ≡ number_name table.now n → result ≡ Some n }
{
    if name.table.as_slice() != table {
        return None;
    }
    number_read(name.key.as_slice())
}

/// The product whose cell in this table has the name.
pub fn key_named(table: &[u8], name: &CellName) -> Option<ProductKey>
    ensures named { IfSome result (λ key. name.now ≡ key_name table.now key) }
    ensures formed { IfSome result (λ key. key_formed key ≡ true) }
    ensures found { (key : ProductKey) → key_formed key ≡ true → name.now ≡ key_name table.now key
        → result ≡ Some key }
{
    if name.table.as_slice() != table {
        return None;
    }
    key_read(name.key.as_slice())
}

/// The request or checkout whose cell in this table has the name.
pub fn id_named(table: &[u8], name: &CellName) -> Option<RequestId>
    ensures named { IfSome result (λ id. name.now ≡ id_name table.now id) }
    ensures formed { IfSome result (λ id. request_id_formed id ≡ true) }
    ensures found { (id : RequestId) → request_id_formed id ≡ true → name.now ≡ id_name table.now id
        → result ≡ Some id }
{
    if name.table.as_slice() != table {
        return None;
    }
    id_read(name.key.as_slice())
}

/// The customer and the product whose basket cell in this table has the name.
pub fn basket_named(table: &[u8], name: &CellName) -> Option<(u32, ProductKey)>
    ensures named { IfSome result (λ line. name.now ≡ basket_name table.now line) }
    ensures formed { IfSome result (λ line. key_formed line.1 ≡ true) }
    ensures found { (line : ℕ × ProductKey) → line.0 < 2 ^ 32 → key_formed line.1 ≡ true
        → name.now ≡ basket_name table.now line → result ≡ Some line }
{
    if name.table.as_slice() != table {
        return None;
    }
    basket_read(name.key.as_slice())
}

// The number of a text.
fn number_read(text: &[u8]) -> Option<u32>
    ensures written { IfSome result (λ n. text.now ≡ decimal n) }
    ensures found { (n : ℕ) → n < 2 ^ 32 → text.now ≡ decimal n → result ≡ Some n }
{
    id_number(text).ok()
}

// The key of a text.
fn key_read(text: &[u8]) -> Option<ProductKey>
    ensures written { IfSome result (λ key. text.now ≡ key_text key) }
    ensures formed { IfSome result (λ key. key_formed key ≡ true) }
    ensures found { (key : ProductKey) → key_formed key ≡ true → text.now ≡ key_text key → result ≡ Some key }
{
    key(text).ok()
}

// The id of a text.
fn id_read(text: &[u8]) -> Option<RequestId>
    ensures written { IfSome result (λ id. text.now ≡ id_text id) }
    ensures formed { IfSome result (λ id. request_id_formed id ≡ true) }
    ensures found { (id : RequestId) → request_id_formed id ≡ true → text.now ≡ id_text id
        → result ≡ Some id }
{
    id(text).ok()
}

// The customer and the product of a text.
fn basket_read(text: &[u8]) -> Option<(u32, ProductKey)>
    ensures written { IfSome result (λ line. text.now ≡ basket_key line.0 line.1) }
    ensures formed { IfSome result (λ line. key_formed line.1 ≡ true) }
    ensures found { (line : ℕ × ProductKey) → line.0 < 2 ^ 32 → key_formed line.1 ≡ true
        → text.now ≡ basket_key line.0 line.1 → result ≡ Some line }
{
    basket(text).ok()
}

// CUSTOMER:SELLER:PRODUCT
fn basket(text: &[u8]) -> Result<(u32, ProductKey), WordFault>
    ensures { result ≡ basket_line_of text.now }
{
    let mut pieces = Pieces::new(text, b':');
    let customer = pieces.take()?;
    let seller = pieces.take()?;
    let product = pieces.take()?;
    pieces.end()?;
    let customer = id_number(customer)?;
    let seller = id_number(seller)?;
    let product = id_number(product)?;
    Ok((customer, ProductKey { seller, product }))
}
