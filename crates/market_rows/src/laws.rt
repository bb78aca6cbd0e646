//! Laws over the definitions: each is the contract of a function that does nothing.

ghost use Rattle.std.specs.Prelude.{◌≡◌, ◌≢◌, ℕ, ◌+◌, ◌<◌, List, ◌++◌, length, option_map};
ghost use Rattle.market_events.specs.declared.events.Entry.{Entry};
ghost use Rattle.market_events.specs.declared.nodes.TheConstants.{NODES};
ghost use Rattle.market_history.specs.Histories.{Histories, IsHistories, journal_at, with_journal};
ghost use Rattle.market_history.specs.Journals.{IsEntry};
ghost use Rattle.market_rows.specs.Rows.{text_of_row, rows_from};
ghost use Rattle.market_rows.specs.Shelves.{Held, HoldsRows, TellsRows};

/// No two entries that may stand at their places share a row, nor do two places or two nodes.
pub fn rows_are_apart()
    ensures { (m n p q : ℕ) (a b : Entry) → IsEntry m p a → IsEntry n q b
        → text_of_row m p a ≡ text_of_row n q b → (m ≡ n) × (p ≡ q) × (a ≡ b) }
{}

/// Rows tell the histories whose rows they are, and what is added to the rows of a node is the rows of what
/// is added to its journal.
pub fn rows_tell_histories()
    ensures one { (held : Held) (g h : Histories) → IsHistories g → IsHistories h → TellsRows held g
        → TellsRows held h → g ≡ h }
    ensures holds { (held : Held) (h : Histories) → TellsRows held h → HoldsRows held h }
    ensures grows { (node place : ℕ) (xs ys : List Entry) → rows_from node place (xs ++ ys)
        ≡ rows_from node place xs ++ rows_from node (place + length xs) ys }

    // Rows of more entries are added to those of one node.
    ensures holds_more { (held new : Held) (h : Histories) (node : ℕ) (more : List Entry) → IsHistories h
        → node < NODES → HoldsRows held h
        → new node
        ≡ option_map (λ texts. texts ++ rows_from node (length (journal_at h node)) more) (held node)
        → ((other : ℕ) → other ≢ node → new other ≡ held other)
        → HoldsRows new (with_journal h node (journal_at h node ++ more)) }
    ensures tells_more { (held new : Held) (h : Histories) (node : ℕ) (more : List Entry) → IsHistories h
        → node < NODES → TellsRows held h
        → new node
        ≡ option_map (λ texts. texts ++ rows_from node (length (journal_at h node)) more) (held node)
        → ((other : ℕ) → other ≢ node → new other ≡ held other)
        → TellsRows new (with_journal h node (journal_at h node ++ more)) }
{}
