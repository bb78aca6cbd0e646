//! Watchers of a journal, each for one criterion, and the walk of a watcher over a journal.

ghost use Rattle.std.specs.Prelude.{◌≡◌, ℕ, ◌<◌, ◌↔◌, List, [], IsTrue, IfOk};
ghost use Rattle.market_auditor.specs.declared.verdicts.Criterion.{Criterion};
ghost use Rattle.market_auditor.specs.Criteria.{MayEnd};
ghost use Rattle.market_auditor.specs.Watching.{StandsSomewhere, IsLookedAt, IsWatched, Judges, JudgesAll};
ghost use Rattle.market_events.specs.declared.events.Entry.{Entry};
ghost use Rattle.market_history.specs.Histories.{Histories, journal_at};
ghost use Rattle.market_history.specs.Journals.{IsJournal};

use market_events::Entry;
use std::alloc::AllocError;

// A watcher of one criterion at the journal of a node. `saw` relates what it keeps to the histories, the node
// and the entries that it saw.
pub trait Watcher {
    ghost criterion: { Criterion };

    ghost saw: { Self → Histories → ℕ → List Entry → Type 0 };

    // Whether the next entry is what the criterion asks; it then has seen it too. It requires an entry that
    // may stand somewhere.
    fn look(&mut self, entry: &Entry) -> Result<bool, AllocError>
        requires { StandsSomewhere entry.now }
        ensures { IfOk result (λ right. (h : Histories) (n : ℕ) (before : List Entry)
            → saw self.old h n before → IsLookedAt criterion h n before entry.now
            → Judges criterion h n before entry.now (saw self.new h n) right) };

    // Whether the journal may end after the entries that it saw.
    fn may_end(&self) -> bool
        ensures { (h : Histories) (n : ℕ) (before : List Entry) → saw self.now h n before
            → (IsTrue result ↔ MayEnd criterion n before) };
}

// The first place at which the watcher's criterion does not hold of these entries.
pub fn walk<W: Watcher>(watcher: &mut W, entries: &[Entry]) -> Result<Option<u32>, AllocError>
    requires { (n : ℕ) × IsJournal n entries.now }
    ensures { IfOk result (λ place. (h : Histories) (n : ℕ) → IsWatched W.criterion h n
        → entries.now ≡ journal_at h n → W.saw watcher.old h n [] → JudgesAll W.criterion h n place) }
{
    for (place, entry) in entries.iter().enumerate() {
        if !watcher.look(entry)? {
            return Ok(Some(place as u32));
        }
    }
    if watcher.may_end() {
        Ok(None)
    } else {
        Ok(Some(entries.len() as u32))
    }
}
