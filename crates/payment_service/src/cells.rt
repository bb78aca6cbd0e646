//! Names and values of the cells of accounts.

ghost use Rattle.std.specs.Prelude.{◌≡◌, ℕ, ◌<◌, ◌^◌, Some, IfOk, OnOk, IfSome};
ghost use Rattle.market_events.specs.Cells.{cells_listed};
ghost use Rattle.market_events.specs.CellLists.{Within, put_some, put_all, last_value};
ghost use Rattle.market_events.specs.WellFormed.{IsId};
ghost use Rattle.payment_service.specs.Cells.{name_by, text_by, cell_by, texts_in, table_cells, customer_by};

use crate::tables::{Account, Accounts};
use market_amounts::List;
use market_events::{Ask, Body, Cell, CellList, CellName, number_name, number_named};
use std::alloc::{AllocError, Global};

const TABLE: &[u8] = b"account";

// The name of a customer's cell.
pub fn name_of(alloc: Global, customer: u32) -> Result<CellName, AllocError>
    ensures { IfOk result (λ name. name ≡ name_by customer) }
{
    number_name(alloc, TABLE, customer)
}

// The customer whose cell has this name.
fn customer_named(name: &CellName) -> Option<u32>
    ensures named { IfSome result (λ customer. name.now ≡ name_by customer) }
    ensures found { (customer : ℕ) → customer < 2 ^ 32
        → name.now ≡ name_by customer → result ≡ Some customer }
{
    number_named(TABLE, name)
}

// The customer whose account a body may change.
pub fn customer_of(body: &Body) -> Option<u32>
    ensures { result ≡ customer_by body.now }
{
    match body {
        Body::Asked(request) => match request.ask {
            Ask::Card(customer, _) => Some(customer),
            _ => None,
        },
        Body::Invoice(_, customer, _, _) => Some(*customer),
        _ => None,
    }
}

// The text of an account, none where there is none.
fn text_of(alloc: Global, account: Option<Account>) -> Result<Option<List<u8>>, AllocError>
    ensures { IfOk result (λ text. text ≡ text_by account) }
{
    let Some(account) = account else {
        return Ok(None);
    };
    let limit = account.limit;
    let spent = account.spent;
    let text = format!(in alloc; "{limit} {spent}")?;
    Ok(Some(List::from_vec(text.into_bytes())))
}

// Puts the cell of a customer with an account.
fn put(
    alloc: Global,
    cells: &mut CellList,
    customer: u32,
    account: Option<Account>,
) -> Result<(), AllocError>
    ensures { OnOk result (cells.new ≡ put_some cells.old (cell_by customer account)) }
{
    let Some(text) = text_of(alloc, account)? else {
        return Ok(());
    };
    let name = name_of(alloc, customer)?;
    cells.put(name, text)
}

// Puts the cells of all accounts.
fn put_accounts(alloc: Global, accounts: &Accounts, cells: &mut CellList) -> Result<(), AllocError>
    ensures { OnOk result (cells.new ≡ put_all cells.old (table_cells accounts.now)) }
{
    for customer in accounts.customers() {
        put(alloc, cells, *customer, accounts.get(*customer))?;
    }
    Ok(())
}

// The cells of all accounts, by rising name.
pub fn cells_of(alloc: Global, accounts: &Accounts) -> Result<Vec<Cell>, AllocError>
    ensures { IfOk result (λ cells. cells.items ≡ cells_listed (table_cells accounts.now)) }
{
    let mut cells = CellList::new(alloc);
    put_accounts(alloc, accounts, &mut cells)?;
    cells.into_cells()
}

// The value at a name, none where it is the name of no cell.
pub fn value_named(
    alloc: Global,
    accounts: &Accounts,
    name: &CellName,
) -> Result<Option<List<u8>>, AllocError>
    ensures { IfOk result (λ value. Within IsId (texts_in accounts.now)
        → value ≡ last_value name.now (table_cells accounts.now)) }
{
    let Some(customer) = customer_named(name) else {
        return Ok(None);
    };
    text_of(alloc, accounts.get(customer))
}
