//! The level of one product.

ghost use Rattle.std.specs.Prelude.{◌≡◌, ◌+◌, ◌-◌, ◌≤◌};

use std::marker::Model;

/// How many pieces of a product are on hand, and how many of them are reserved.
#[derive(Clone, Copy, Debug, PartialEq, Eq)]
pub struct Level {
    on_hand: u32,
    reserved: u32,
}

impl Model for Level {
    ghost use Rattle.std.specs.Prelude.{◌≤◌};
    ghost use Rattle.stock_service.specs.Amounts.{Amounts};

    ghost Value = { Amounts };

    ghost view = { λ level. record { on_hand = level.on_hand; reserved = level.reserved } };

    ghost invariant = { λ level. level.reserved ≤ level.on_hand };

    ghost inverse = { λ amounts. record { on_hand = amounts.on_hand; reserved = amounts.reserved } };
}

impl Level {
    /// No pieces.
    pub fn none() -> Level
        ensures on_hand { result.on_hand ≡ 0 }
        ensures reserved { result.reserved ≡ 0 }
    {
        Level {
            on_hand: 0,
            reserved: 0,
        }
    }

    /// The pieces on hand.
    pub fn on_hand(self) -> u32
        ensures { result ≡ self.on_hand }
    {
        self.on_hand
    }

    /// The pieces that are reserved, which are no more than those on hand.
    pub fn reserved(self) -> u32
        ensures value { result ≡ self.reserved }
        ensures covered { result ≤ self.on_hand }
    {
        self.reserved
    }

    /// The pieces that are on hand and not reserved.
    pub fn free(self) -> u32
        ensures { result ≡ self.on_hand - self.reserved }
    {
        self.on_hand - self.reserved
    }

    // With so many pieces on hand, which are no fewer.
    pub(crate) fn with_on_hand(self, on_hand: u32) -> Level
        requires { self.on_hand ≤ on_hand }
        ensures on_hand { result.on_hand ≡ on_hand }
        ensures reserved { result.reserved ≡ self.reserved }
    {
        Level {
            on_hand,
            reserved: self.reserved,
        }
    }

    // Reserves pieces that are free.
    pub(crate) fn reserve(self, pieces: u32) -> Level
        requires { self.reserved + pieces ≤ self.on_hand }
        ensures on_hand { result.on_hand ≡ self.on_hand }
        ensures reserved { result.reserved ≡ self.reserved + pieces }
    {
        Level {
            on_hand: self.on_hand,
            reserved: self.reserved + pieces,
        }
    }

    // Takes away pieces that were reserved.
    pub(crate) fn sell(self, pieces: u32) -> Level
        requires { pieces ≤ self.reserved }
        ensures on_hand { result.on_hand ≡ self.on_hand - pieces }
        ensures reserved { result.reserved ≡ self.reserved - pieces }
    {
        Level {
            on_hand: self.on_hand - pieces,
            reserved: self.reserved - pieces,
        }
    }

    // Frees pieces that were reserved.
    pub(crate) fn release(self, pieces: u32) -> Level
        requires { pieces ≤ self.reserved }
        ensures on_hand { result.on_hand ≡ self.on_hand }
        ensures reserved { result.reserved ≡ self.reserved - pieces }
    {
        Level {
            on_hand: self.on_hand,
            reserved: self.reserved - pieces,
        }
    }
}
