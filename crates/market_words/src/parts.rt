//! The texts of ids and keys.

use market_amounts::{ProductKey, RequestId};
use std::fmt;

/// An id, written `CALLER.NUMBER`.
#[derive(Clone, Copy)]
pub struct IdText(pub RequestId);

impl fmt::Display for IdText {
    ghost use Rattle.std.specs.Prelude.{Some};
    ghost use Rattle.market_words.specs.Names.{id_text};

    ghost output = { λ text. Some (id_text text.0) };

    fn fmt<W: fmt::Write>(&self, f: &mut fmt::Formatter<W>) -> fmt::Result {
        let RequestId { caller, number } = self.0;
        write!(f, "{caller}.{number}")
    }
}

/// A key, written `SELLER:PRODUCT`.
#[derive(Clone, Copy)]
pub struct KeyText(pub ProductKey);

impl fmt::Display for KeyText {
    ghost use Rattle.std.specs.Prelude.{Some};
    ghost use Rattle.market_words.specs.Names.{key_text};

    ghost output = { λ text. Some (key_text text.0) };

    fn fmt<W: fmt::Write>(&self, f: &mut fmt::Formatter<W>) -> fmt::Result {
        let ProductKey { seller, product } = self.0;
        write!(f, "{seller}:{product}")
    }
}
