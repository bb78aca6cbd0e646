//! The requests of an input.

ghost use Rattle.std.specs.Prelude.{◌≡◌, ◌≤◌, Ok, IfOk, MatchResult, length, vec_len};
ghost use Rattle.csv.specs.Records.{fields_of};
ghost use Rattle.market_texts.specs.Workload.{request_of};
ghost use Rattle.market.specs.declared.workload.WorkFault.TheVariants.{OutOfMemory};
ghost use Rattle.std.specs.List.{All};
ghost use Rattle.market_events.specs.WellFormed.{IsRequest};
ghost use Rattle.market.specs.Workload.{workload_of, at_record, TellsWorkFault};

use crate::input::MOST_BYTES;
use crate::records::{fields, next_record, open_records};
use csv::ByteRecord;
use market_events::Request;
use market_texts::{WorkRule, read_fields};
use std::alloc::{AllocError, AllocFailed, Global};
use thiserror::Error;

/// Why an input gives no requests.
#[derive(Clone, Copy, Debug, PartialEq, Eq, Error)]
pub enum WorkFault {
    /// This record, counted from 1, is the first that breaks a rule, and this is the first that it breaks.
    #[error("line {0}: {1}")]
    Line(u32, WorkRule),
    #[error("out of memory")]
    OutOfMemory,
}

impl From<AllocError> for WorkFault {
    ghost from_gives = { λ _ fault. fault ≡ OutOfMemory };

    fn from(_error: AllocError) -> WorkFault {
        WorkFault::OutOfMemory
    }
}

impl<T: Drop> From<AllocFailed<T>> for WorkFault {
    ghost from_gives = { λ _ fault. fault ≡ OutOfMemory };

    fn from(_error: AllocFailed<T>) -> WorkFault {
        WorkFault::OutOfMemory
    }
}

// A reader of bytes in memory, for records of any length, fails for want of memory alone.
impl From<csv::Error> for WorkFault {
    ghost from_gives = { λ _ fault. fault ≡ OutOfMemory };

    fn from(_error: csv::Error) -> WorkFault {
        WorkFault::OutOfMemory
    }
}

/// The requests of all records of an input.
pub fn read_workload(alloc: Global, text: &[u8]) -> Result<Vec<Request>, WorkFault>
    requires { length text.now ≤ MOST_BYTES }
    ensures reads { MatchResult result (λ requests. workload_of text.now
        ≡ Ok requests.items) (TellsWorkFault (workload_of text.now)) }
    ensures few { IfOk result (λ requests. vec_len requests ≤ MOST_BYTES) }
    ensures formed { IfOk result (λ requests. All IsRequest requests.items) }
{
    let mut reader = open_records(alloc, text);
    let mut row = ByteRecord::new(alloc);
    let mut requests = Vec::new(alloc);
    let mut number: u32 = 0;
    'records: while next_record(&mut reader, &mut row)? {
        number += 1;
        let Request { id, ask } = read_row(alloc, &row, number)?;
        requests.push(Request { id, ask })?;
    }
    Ok(requests)
}

// The request of one record.
fn read_row(alloc: Global, row: &ByteRecord, number: u32) -> Result<Request, WorkFault>
    ensures reads { MatchResult result (λ request. at_record number (request_of (fields_of row.now))
        ≡ Ok request)
        (TellsWorkFault (at_record number (request_of (fields_of row.now)))) }
    ensures formed { IfOk result IsRequest }
{
    let fields = fields(alloc, row)?;
    match read_fields(&fields) {
        Ok(request) => Ok(request),
        Err(rule) => Err(WorkFault::Line(number, rule)),
    }
}
