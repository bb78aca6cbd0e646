//! Amounts of money, quantities, and what a line costs.

ghost use Rattle.std.specs.Prelude.{◌≡◌, ◌≢◌, ◌≤◌, ◌<◌, IfOk, ◌↔◌};
ghost use Rattle.market_amounts.specs.Amounts.{amount_of};

use std::marker::Model;
use thiserror::Error;

/// Why a number is no amount or quantity.
#[derive(Clone, Copy, Debug, PartialEq, Eq, Error)]
pub enum AmountError {
    #[error("zero")]
    Zero,
    #[error("too large")]
    TooLarge,
}

/// A price, a freight or a voucher: 0 to 1,000,000,000 cents. Contracts see the number.
#[derive(Clone, Copy, Debug, PartialEq, Eq, PartialOrd, Ord)]
pub struct Cents {
    value: u64,
}

impl Model for Cents {
    ghost use Rattle.std.specs.Prelude.{ℕ, ◌≤◌};

    ghost Value = { ℕ };

    ghost view = { λ c. c.value };

    ghost invariant = { λ c. c.value ≤ 1_000_000_000 };

    ghost inverse = { λ n. record { value = n } };
}

impl Cents {
    /// The greatest amount.
    pub const MAX: u64 = 1_000_000_000;

    /// An amount of up to 1,000,000,000 cents; above that it is refused as `TooLarge`.
    pub fn try_new(value: u64) -> Result<Cents, AmountError>
        ensures ok { IfOk result (λ cents. cents ≡ value) }
        ensures too_large { (result ≡ Err AmountError.TooLarge) ↔ (Self.MAX < value) }
        ensures no_zero { result ≢ Err AmountError.Zero }
    {
        if value > Self::MAX {
            return Err(AmountError::TooLarge);
        }
        Ok(Cents { value })
    }

    /// The number of cents.
    pub fn get(self) -> u64
        ensures value { result ≡ self }
        ensures in_range { result ≤ Self.MAX }
    {
        self.value
    }
}

/// The pieces of one line: 1 to 1,000. Contracts see the number.
#[derive(Clone, Copy, Debug, PartialEq, Eq, PartialOrd, Ord)]
pub struct Quantity {
    value: u32,
}

impl Model for Quantity {
    ghost use Rattle.std.specs.Prelude.{ℕ, ◌≤◌};

    ghost Value = { ℕ };

    ghost view = { λ q. q.value };

    ghost invariant = { λ q. (1 ≤ q.value) × (q.value ≤ 1_000) };

    ghost inverse = { λ n. record { value = n } };
}

impl Quantity {
    /// The greatest quantity.
    pub const MAX: u32 = 1_000;

    /// A quantity of 1 to 1,000; 0 is refused as `Zero`, more as `TooLarge`.
    pub fn try_new(value: u32) -> Result<Quantity, AmountError>
        ensures ok { IfOk result (λ quantity. quantity ≡ value) }
        ensures zero { (result ≡ Err AmountError.Zero) ↔ (value ≡ 0) }
        ensures too_large { (result ≡ Err AmountError.TooLarge) ↔ (Self.MAX < value) }
    {
        match value {
            0 => Err(AmountError::Zero),
            1..=Self::MAX => Ok(Quantity { value }),
            _ => Err(AmountError::TooLarge),
        }
    }

    /// The number of pieces.
    pub fn get(self) -> u32
        ensures value { result ≡ self }
        ensures above_zero { 1 ≤ result }
        ensures in_range { result ≤ Self.MAX }
    {
        self.value
    }
}

/// What a line costs, in cents: price times quantity, plus freight, less the voucher, which takes off at most
/// price times quantity. At most 1,001,000,000,000.
pub fn line_amount(price: Cents, quantity: Quantity, freight: Cents, voucher: Cents) -> u64
    ensures { result ≡ amount_of price quantity freight voucher }
{
    let goods = price.get() * u64::from(quantity.get());
    goods + freight.get() - voucher.get().min(goods)
}
