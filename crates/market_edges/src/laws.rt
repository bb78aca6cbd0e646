//! What follows from the definitions alone, as the contract of a function that does nothing.

ghost use Rattle.std.specs.Prelude.{ℕ, ◌≤◌, ◌<◌, ◌↔◌};
ghost use Rattle.market_edges.specs.Counts.{count_end};
ghost use Rattle.market_edges.specs.Shelves.{total_faults, RoseSomewhere};

/// A shelf's own count of faults is the sum of the counts of its nodes. Where none of them fell, and each was
/// below its last value, "the count of some node rose" says exactly that the sum is greater.
pub fn the_sum_rises_where_a_node_does()
    ensures { (old new : ℕ → ℕ) → ((node : ℕ) → old node ≤ new node)
        → ((node : ℕ) → old node < count_end)
        → RoseSomewhere old new ↔ (total_faults old < total_faults new) }
{}
