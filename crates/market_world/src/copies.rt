//! Copies of journals.

ghost use Rattle.std.specs.Prelude.{◌≡◌, IfOk};

use market_history::Journal;
use std::alloc::{AllocError, Global};

/// A journal with the same node and entries.
pub fn copy_of(alloc: Global, journal: &Journal) -> Result<Journal, AllocError>
    ensures node { IfOk result (λ copy. copy.node ≡ journal.now.node) }
    ensures entries { IfOk result (λ copy. copy.entries ≡ journal.now.entries) }
{
    let mut copy = Journal::new(alloc, journal.node());
    for entry in journal.entries() {
        if copy.push(entry.try_copy()?).is_err() {
            return Err(AllocError);
        }
    }
    Ok(copy)
}
