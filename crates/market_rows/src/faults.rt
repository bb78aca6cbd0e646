//! Why a row was not read.

use market_texts::BodyFault;
use std::alloc::AllocError;
use std::error::Error;
use std::fmt;

/// Why a row was not read.
#[derive(Clone, Copy, Debug, PartialEq, Eq)]
pub enum RowFault {
    /// It is no row of that node and place.
    Bad,
    OutOfMemory,
}

impl fmt::Display for RowFault {
    ghost use Rattle.std.specs.Prelude.{Some};
    ghost use Rattle.market_rows.specs.FaultTexts.{row_fault_text};

    ghost output = { λ fault. Some (row_fault_text fault) };

    fn fmt<W: fmt::Write>(&self, f: &mut fmt::Formatter<W>) -> fmt::Result {
        match self {
            RowFault::Bad => f.write_str("no row"),
            RowFault::OutOfMemory => f.write_str("out of memory"),
        }
    }
}

impl Error for RowFault {}

impl From<AllocError> for RowFault {
    ghost use Rattle.std.specs.Prelude.{◌≡◌};
    ghost use Rattle.market_rows.specs.declared.faults.RowFault.TheVariants.{OutOfMemory};

    ghost from_gives = { λ _ fault. fault ≡ OutOfMemory };

    fn from(_error: AllocError) -> RowFault {
        RowFault::OutOfMemory
    }
}

impl From<BodyFault> for RowFault {
    ghost use Rattle.std.specs.Prelude.{◌≡◌};
    ghost use Rattle.market_rows.specs.Reading.{row_fault};

    ghost from_gives = { λ fault row. row ≡ row_fault fault };

    fn from(fault: BodyFault) -> RowFault {
        match fault {
            BodyFault::Bad(_) => RowFault::Bad,
            BodyFault::OutOfMemory => RowFault::OutOfMemory,
        }
    }
}
