//! The journals of all nodes.

ghost use Rattle.std.specs.Prelude.{◌≡◌, map};
ghost use Rattle.std.specs.List.{range_with_len};
ghost use Rattle.market_events.specs.declared.nodes.TheConstants.{NODES};
ghost use Rattle.market_history.specs.Histories.{journal_at, IsHistories};
ghost use Rattle.market_history.specs.Journals.{JournalState};

use crate::journals::Journal;
use market_events::Node;
use std::marker::Model;

/// The journals of the nodes 0 to 23. Contracts see the list of the nodes' entries, each of which may stand
/// at its place.
#[derive(Debug, Drop)]
pub struct Histories {
    journals: Vec<Journal>,
}

impl Model for Histories {
    ghost use Rattle.std.specs.Prelude.{◌≡◌, List, map};
    ghost use Rattle.std.specs.List.{range_with_len};
    ghost use Rattle.market_events.specs.declared.events.Entry.{Entry};
    ghost use Rattle.market_events.specs.declared.nodes.TheConstants.{NODES};
    ghost use Rattle.market_history.specs.Histories.{entries_of, AreJournals};
    ghost use Rattle.market_history.specs.Journals.{JournalState};

    ghost Value = { List (List Entry) };

    ghost view = { λ h. entries_of h.journals.items };

    ghost invariant = { λ h. (map (λ (j : JournalState). j.node) h.journals.items ≡ range_with_len 0 NODES)
        × AreJournals h.journals.items };
}

impl Histories {
    /// The histories of these journals. It requires those of the nodes 0 to 23, in order. It takes no memory.
    pub fn new(journals: Vec<Journal>) -> Histories
        requires { map (λ (j : JournalState). j.node) journals.items ≡ range_with_len 0 NODES }
        ensures { result ≡ map (λ (j : JournalState). j.entries) journals.items }
    {
        // Each tells that its entries may stand at their places.
        for journal in &journals {
            let _ = journal.entries();
        }
        Histories { journals }
    }

    /// The journal of a node. It takes no memory.
    pub fn journal(&self, node: Node) -> &Journal
        ensures node { result.now.node ≡ node }
        ensures entries { result.now.entries ≡ journal_at self.now node }
        ensures histories { IsHistories self.now }
    {
        &self.journals[node.get() as usize]
    }
}
