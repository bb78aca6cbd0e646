//! Names of products, requests and checkouts.

/// A product of a seller. Keys are ordered by seller, then product.
#[derive(Clone, Copy, Debug, PartialEq, Eq, PartialOrd, Ord)]
pub struct ProductKey {
    pub seller: u32,
    pub product: u32,
}

/// A request, named by its caller and the caller's number for it. Ids are ordered by caller, then number.
#[derive(Clone, Copy, Debug, PartialEq, Eq, PartialOrd, Ord)]
pub struct RequestId {
    pub caller: u32,
    pub number: u32,
}

/// A checkout is named by the id of its request.
pub type CheckoutId = RequestId;
