//! Laws: each is the contract of a function that does nothing.

ghost use Rattle.std.specs.Prelude.{◌≡◌};
ghost use Rattle.market_amounts.specs.declared.keys.ProductKey.{ProductKey as Key};
ghost use Rattle.market_amounts.specs.declared.keys.RequestId.{RequestId as Id};
ghost use Rattle.market_amounts.specs.Keys.{key_cmp, id_cmp};

use crate::keys::{ProductKey, RequestId};

/// Keys are ordered by seller, then product, and ids by caller, then number.
pub fn keys_and_ids_are_ordered()
    ensures keys { (a b : Key) → ⟦<ProductKey as Ord>⟧.cmp a b ≡ key_cmp a b }
    ensures ids { (a b : Id) → ⟦<RequestId as Ord>⟧.cmp a b ≡ id_cmp a b }
{}
