//! Failed calls.

ghost use Rattle.std.specs.Prelude.{◌≡◌};
ghost use Rattle.market_edges.specs.Counts.{is_listed};

use std::error::Error;
use std::fmt;

/// A call on the outside world failed. Its count of faults rose.
#[derive(Clone, Copy, Debug, PartialEq, Eq)]
pub struct Failed;

impl fmt::Display for Failed {
    ghost use Rattle.std.specs.Prelude.{Some, codes};

    ghost output = { λ _. Some (codes "failed") };

    fn fmt<W: fmt::Write>(&self, f: &mut fmt::Formatter<W>) -> fmt::Result {
        f.write_str("failed")
    }
}

impl Error for Failed {}

// Whether the call with this number is to fail.
pub(crate) fn is_call_listed(calls: &[u32], number: u64) -> bool
    ensures { result ≡ is_listed calls.now number }
{
    calls.iter().any(|call| u64::from(*call) == number)
}
