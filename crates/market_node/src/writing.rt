//! Entries at the end of a journal that has room for them.

ghost use Rattle.std.specs.Prelude.{◌≡◌, ◌-◌, ◌<◌, [], ◌∷◌, ◌++◌, length};
ghost use Rattle.market_history.specs.Journals.{IsEntry};

use market_events::Entry;
use market_history::Journal;

// Adds an entry that may stand at the end, for which there is room. It takes no memory.
pub fn write(journal: &mut Journal, entry: Entry)
    requires room { 0 < journal.old.spare }
    requires entry { IsEntry journal.old.node (length journal.old.entries) entry }
    ensures node { journal.new.node ≡ journal.old.node }
    ensures entries { journal.new.entries ≡ journal.old.entries ++ entry ∷ [] }
    ensures spare { journal.new.spare ≡ journal.old.spare - 1 }
{
    let _ = journal.push(entry);
}
