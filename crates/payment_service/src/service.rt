//! The payments as a service.

ghost use Rattle.std.specs.Prelude.{◌≡◌, ℕ, [], OnOk, OnErr};
ghost use Rattle.market_events.specs.Payments.{payment_rows};
ghost use Rattle.market_events.specs.declared.roles.Role.{Role};
ghost use Rattle.payment_service.specs.Holds.{Holds};
ghost use Rattle.payment_service.specs.Tables.{account_at, account_after, sums_at};

use crate::answers::bill;
use crate::cells::{cells_of, customer_of, name_of, value_named};
use crate::tables::{Account, Accounts};
use market_events::{
    Ask, Body, Cell, CellName, Link, Outs, Reply, Role, Service, Tabled, value_or_empty,
};
use std::alloc::{AllocError, Global};
use std::marker::Model;

/// Of each customer with a card its limit, and what the customer spent. Contracts see the accounts by rising
/// customer; a customer without one set no card and spent nothing.
#[derive(Debug, Drop)]
pub struct Payments {
    alloc: Global,
    accounts: Accounts,
}

impl Model for Payments {
    ghost use Rattle.std.specs.Prelude.{ℕ, List};
    ghost use Rattle.payment_service.specs.declared.tables.Account.{Account};

    ghost Value = { List (ℕ × Account) };

    ghost view = { λ payments. payments.accounts };
}

impl Payments {
    /// Nothing was taken.
    pub fn new(alloc: Global) -> Payments
        ensures { Holds result [] }
    {
        Payments {
            alloc,
            accounts: Accounts::new(alloc),
        }
    }

    // Takes a body, and makes what it is answered by.
    fn take(&mut self, body: &Body, outs: &mut Outs) -> Result<(), AllocError>
        requires { outs.old ≡ [] }
        ensures made { OnOk result (outs.new ≡ payment_rows (sums_at self.old) body.now) }
        ensures each { OnOk result ((c : ℕ)
            → account_at self.new c ≡ account_after c body.now (account_at self.old c)) }
        ensures err { OnErr result (self.new ≡ self.old) }
    {
        match body {
            Body::Asked(request) => match request.ask {
                Ask::Card(customer, limit) => {
                    outs.tell(Role::Payment, request.id, Reply::Card(limit))?;
                    let spent = self.accounts.spent(customer);
                    self.accounts.set(customer, Account { limit, spent })
                }
                _ => Ok(()),
            },
            Body::Invoice(checkout, customer, lines, total) => {
                bill(
                    &mut self.accounts,
                    *checkout,
                    *customer,
                    lines,
                    *total,
                    outs,
                )
            }
            _ => Ok(()),
        }
    }
}

impl Service for Payments {
    ghost role = { Role.Payment };

    ghost holds = { Holds };

    fn accept(&mut self, _from: Link, body: &Body, outs: &mut Outs) -> Result<(), AllocError> {
        if let Err(error) = self.take(body, outs) {
            outs.clear();
            return Err(error);
        }
        Ok(())
    }
}

impl Tabled for Payments {
    fn cells(&self) -> Result<Vec<Cell>, AllocError> {
        cells_of(self.alloc, &self.accounts)
    }

    fn touches(&self, _from: Link, body: &Body) -> Result<Vec<CellName>, AllocError> {
        let Some(customer) = customer_of(body) else {
            return Ok(Vec::new(self.alloc));
        };
        let name = name_of(self.alloc, customer)?;
        Ok(vec![in self.alloc; name]?)
    }

    fn value(&self, name: &CellName) -> Result<Vec<u8>, AllocError> {
        let value = value_named(self.alloc, &self.accounts, name)?;
        Ok(value_or_empty(self.alloc, value))
    }
}
