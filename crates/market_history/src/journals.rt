//! The journal of a node.

ghost use Rattle.std.specs.Prelude.{◌≡◌, ◌+◌, ◌-◌, ◌<◌, ◌≤◌, [], ◌∷◌, ◌++◌, length, IsOk, OnOk, OnErr, IfErr};
ghost use Rattle.market_history.specs.Journals.{IsEntry, IsJournal};

use market_events::{Entry, Node};
use std::alloc::{AllocError, Global};
use std::marker::Model;

/// The journal of a node: what happened there, in order. Contracts see the node, the entries, and for how
/// many more entries there is room for sure. Each entry may stand at its place.
#[derive(Debug, Drop)]
pub struct Journal {
    node: Node,
    entries: Vec<Entry>,
    spare: u32,
}

impl Model for Journal {
    ghost use Rattle.std.specs.Prelude.{◌+◌, ◌≤◌, vec_len, vec_capacity};
    ghost use Rattle.market_history.specs.Journals.{JournalState, IsJournal};

    ghost Value = { JournalState };

    ghost view = { λ j. record { node = j.node; entries = j.entries.items; spare = j.spare } };

    ghost invariant = { λ j. (vec_len j.entries + j.spare ≤ vec_capacity j.entries)
        × IsJournal j.node j.entries.items };
}

impl Journal {
    /// The journal of this node, with no entry and no room. It takes no memory.
    pub fn new(alloc: Global, node: Node) -> Journal
        ensures { result ≡ record { node = node; entries = []; spare = 0 } }
    {
        Journal {
            node,
            entries: Vec::new(alloc),
            spare: 0,
        }
    }

    /// The node. It takes no memory.
    pub fn node(&self) -> Node
        ensures { result ≡ self.now.node }
    {
        self.node
    }

    /// What happened, in order. It takes no memory.
    pub fn entries(&self) -> &[Entry]
        ensures value { result.now ≡ self.now.entries }
        ensures journal { IsJournal self.now.node self.now.entries }
    {
        self.entries.as_slice()
    }

    /// Makes room for at least this many more entries. On want of memory the journal is as before; it never
    /// fails where the room is there already.
    pub fn reserve(&mut self, more: u32) -> Result<(), AllocError>
        ensures node { self.new.node ≡ self.old.node }
        ensures entries { self.new.entries ≡ self.old.entries }
        ensures room { OnOk result (more ≤ self.new.spare) }
        ensures spare { self.old.spare ≤ self.new.spare }
        ensures succeeds { more ≤ self.old.spare → IsOk result }
        ensures err { OnErr result (self.new ≡ self.old) }
    {
        if more > self.spare {
            self.entries.reserve(more as usize)?;
            self.spare = more;
        }
        Ok(())
    }

    /// Adds an entry at the end. It requires an entry that may stand there: fewer than 4,294,967,295 entries
    /// before it, clocks of at most 2^62, requests and answers at a lane alone, a request at its own lane, no
    /// answer with a refusal that a lane alone gives, and an event that was made on a link that this node
    /// sends on, with the entry's clock, or taken on one that it receives on, with a number from 1 on and a
    /// body that its link can carry. On want of memory the entry comes back and the journal is as before; it
    /// never fails where there is room.
    pub fn push(&mut self, entry: Entry) -> Result<(), Entry>
        requires { IsEntry self.old.node (length self.old.entries) entry }
        ensures node { self.new.node ≡ self.old.node }
        ensures entries { OnOk result (self.new.entries ≡ self.old.entries ++ entry ∷ []) }

        // There is room for one less, where there was any.
        ensures spare { self.new.spare ≡ self.old.spare - 1 }
        ensures spared { 0 < self.old.spare → IsOk result }

        ensures err { OnErr result (self.new ≡ self.old) }
        ensures returned { IfErr result (λ back. back ≡ entry) }
    {
        match self.entries.push(entry) {
            Ok(()) => {
                self.spare = self.spare.saturating_sub(1);
                Ok(())
            }
            Err(failed) => Err(failed.value),
        }
    }
}
