//! The accounts of the customers with a card.

ghost use Rattle.std.specs.Prelude.{◌≡◌, ℕ, ◌==◌, [], Some, if◌then◌else◌, OnOk, OnErr};
ghost use Rattle.std.specs.Map.{keys_of};
ghost use Rattle.payment_service.specs.Tables.{account_at, spent_at, account_paid};

use market_events::PayRule;
use std::alloc::{AllocError, Global};
use std::collections::BTreeMap;
use std::collections::btree_map::Keys;
use std::marker::Model;

/// The limit of a customer's last card, and what the customer spent.
#[derive(Clone, Copy, Debug, PartialEq, Eq)]
pub struct Account {
    pub limit: u64,
    pub spent: u64,
}

/// The accounts. Contracts see them by rising customer; a customer without one set no card and spent nothing.
#[derive(Debug, Drop)]
pub struct Accounts {
    accounts: BTreeMap<u32, Account>,
}

impl Model for Accounts {
    ghost use Rattle.std.specs.Prelude.{ℕ, List};
    ghost use Rattle.payment_service.specs.declared.tables.Account.{Account};

    ghost Value = { List (ℕ × Account) };

    ghost view = { λ table. table.accounts.entries };
}

impl Accounts {
    /// No accounts. It takes no memory.
    pub fn new(alloc: Global) -> Accounts
        ensures { result ≡ [] }
    {
        Accounts {
            accounts: BTreeMap::new(alloc),
        }
    }

    /// The customers with an account, as they rise.
    pub fn customers(&self) -> Keys<'_, u32, Account>
        ensures { result ≡ keys_of self.now }
    {
        self.accounts.keys()
    }

    /// The account of a customer, none without a card.
    pub fn get(&self, customer: u32) -> Option<Account>
        ensures { result ≡ account_at self.now customer }
    {
        self.accounts.get(&customer).copied()
    }

    /// What a customer spent, 0 without a card.
    pub fn spent(&self, customer: u32) -> u64
        ensures { result ≡ spent_at self.now customer }
    {
        self.get(customer).map_or(0, |account| account.spent)
    }

    /// The account of a customer after a payment of this total, or why it is not paid.
    pub fn paid(&self, customer: u32, total: u64) -> Result<Account, PayRule>
        ensures { result ≡ account_paid (account_at self.now customer) total }
    {
        let account = self.get(customer).ok_or(PayRule::NoCard)?;
        let limit = account.limit;
        match account.spent.checked_add(total) {
            Some(spent) if spent <= limit => Ok(Account { limit, spent }),
            _ => Err(PayRule::OverLimit),
        }
    }

    /// Sets the account of a customer. On want of memory nothing changes.
    pub fn set(&mut self, customer: u32, account: Account) -> Result<(), AllocError>
        ensures ok { OnOk result ((c : ℕ) → account_at self.new c
            ≡ (if customer == c then Some account else account_at self.old c)) }
        ensures err { OnErr result (self.new ≡ self.old) }
    {
        self.accounts.insert(customer, account)?;
        Ok(())
    }
}
