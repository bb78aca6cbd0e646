//! Shelves of rows.

ghost use Rattle.std.specs.Prelude.{◌≡◌, ◌≢◌, ℕ, ◌≤◌, ◌<◌, List, [], ◌++◌, length, map, All, replicate};
ghost use Rattle.std.specs.Prelude.{slice_get, Option, None, Some, option_map, IfSome, IfOk, OnOk, OnErr};
ghost use Rattle.std.specs.Prelude.{IsTrue, ◌↔◌};
ghost use Rattle.market_edges.specs.Counts.{count_end, raised_by, Rose, is_listed};
ghost use Rattle.market_edges.specs.Shelves.{ContinueFrom, texts_of, most_rows, RoseSomewhere};
ghost use Rattle.market_edges.specs.MemoryShelves.{ShelfState, texts_at, faults_at};
ghost use Rattle.market_events.specs.declared.nodes.TheConstants.{NODES};

use crate::faults::is_call_listed;
use market_amounts::List;
use market_events::Node;
use std::alloc::{AllocError, Global};
use std::error::Error;
use std::fmt;
use std::marker::Model;

// How many nodes there are, as a length.
const NODES: usize = market_events::NODES as usize;

/// A row of a node: its place, from 0, and its text.
#[derive(Debug, Drop, PartialEq)]
pub struct Row {
    pub place: u32,
    pub text: List<u8>,
}

/// Why a shelf did not do what it was asked.
#[derive(Clone, Copy, Debug, PartialEq, Eq)]
pub enum ShelfError {
    /// The call failed, and the node's count of faults rose.
    Failed,
    OutOfMemory,
}

impl fmt::Display for ShelfError {
    ghost use Rattle.std.specs.Prelude.{Some};
    ghost use Rattle.market_edges.specs.Faults.{shelf_error_text};

    ghost output = { λ error. Some (shelf_error_text error) };

    fn fmt<W: fmt::Write>(&self, f: &mut fmt::Formatter<W>) -> fmt::Result {
        match self {
            ShelfError::Failed => f.write_str("failed"),
            ShelfError::OutOfMemory => f.write_str("out of memory"),
        }
    }
}

impl Error for ShelfError {}

impl From<AllocError> for ShelfError {
    ghost use Rattle.std.specs.Prelude.{◌≡◌};
    ghost use Rattle.market_edges.specs.declared.shelves.ShelfError.TheVariants.{OutOfMemory};

    ghost from_gives = { λ _ e. e ≡ OutOfMemory };

    fn from(_error: AllocError) -> ShelfError {
        ShelfError::OutOfMemory
    }
}

/// What rows of the nodes are kept on. `faults` counts a node's faults and stands still at
/// 18,446,744,073,709,551,615. `held` is the texts of a node's rows, at places 0, 1, .. with none left out,
/// where the shelf tells. No row stands at place 4,294,967,295.
pub trait Shelf {
    ghost faults: { Self → ℕ → ℕ };

    ghost held: { Self → ℕ → Option (List (List ℕ)) };

    /// Adds all of these rows to those of the node, or none. The rows' places go on where the node's end, and
    /// are below 4,294,967,295. After an error each node holds what it held, and the call may be made again.
    fn commit(&mut self, node: Node, rows: &[Row]) -> Result<(), ShelfError>
        requires continues { IfSome (held self.old node) (λ texts. ContinueFrom (length texts) rows.now) }
        requires below_end { All (λ row. row.place < most_rows) rows.now }
        ensures ok { OnOk result (held self.new node
            ≡ option_map (λ texts. texts ++ texts_of rows.now) (held self.old node)) }
        ensures others { (other : ℕ) → other ≢ node → held self.new other ≡ held self.old other }
        ensures unchanged { (n : ℕ) → OnErr result (held self.new n ≡ held self.old n) }
        ensures few { (n : ℕ) → IfSome (held self.new n) (λ texts. length texts ≤ most_rows) }
        ensures calm { (n : ℕ) → OnOk result (faults self.new n ≡ faults self.old n) }
        ensures failed { result ≡ Err ShelfError.Failed → Rose (faults self.old node) (faults self.new node) }
        ensures failed_somewhere { result ≡ Err ShelfError.Failed
            → RoseSomewhere (faults self.old) (faults self.new) }
        ensures never_falls { (n : ℕ) → faults self.old n ≤ faults self.new n }
        ensures stands_still { (n : ℕ) → faults self.old n ≤ count_end → faults self.new n ≤ count_end }
        ensures other_faults { (other : ℕ) → other ≢ node → faults self.new other ≡ faults self.old other };

    /// The row of the node at this place; none where it has none there. The rows stay as they are.
    fn load(&mut self, node: Node, place: u32) -> Result<Option<Row>, ShelfError>
        ensures text { IfOk result (λ row. IfSome (held self.old node) (λ texts. option_map (λ r. r.text) row
            ≡ slice_get texts place)) }
        ensures place { IfOk result (λ row. IfSome row (λ r. r.place ≡ place)) }
        ensures no_row_at_end { place ≡ most_rows → IfOk result (λ row. row ≡ None) }
        ensures unchanged { (n : ℕ) → held self.new n ≡ held self.old n }
        ensures few { (n : ℕ) → IfSome (held self.new n) (λ texts. length texts ≤ most_rows) }
        ensures calm { (n : ℕ) → OnOk result (faults self.new n ≡ faults self.old n) }
        ensures failed { result ≡ Err ShelfError.Failed → Rose (faults self.old node) (faults self.new node) }
        ensures failed_somewhere { result ≡ Err ShelfError.Failed
            → RoseSomewhere (faults self.old) (faults self.new) }
        ensures never_falls { (n : ℕ) → faults self.old n ≤ faults self.new n }
        ensures stands_still { (n : ℕ) → faults self.old n ≤ count_end → faults self.new n ≤ count_end }
        ensures other_faults { (other : ℕ) → other ≢ node → faults self.new other ≡ faults self.old other };
}

/// A shelf in memory, whose commits fail at chosen calls. Contracts see a `ShelfState`.
#[derive(Debug, Drop)]
pub struct MemoryShelf {
    alloc: Global,
    rows: [Vec<List<u8>>; NODES],
    failing: Vec<u32>,
    calls: u64,
    faults: [u64; NODES],
}

impl Model for MemoryShelf {
    ghost use Rattle.std.specs.Prelude.{ℕ, ◌≤◌, List, All, length, map};
    ghost use Rattle.market_edges.specs.MemoryShelves.{ShelfState};
    ghost use Rattle.market_edges.specs.Shelves.{most_rows};

    ghost Value = { ShelfState };

    ghost view = { λ s. record {
      held = map (λ v. v.items) s.rows;
      failing = s.failing.items;
      calls = s.calls;
      faults = s.faults;
    } };

    ghost invariant = { λ s. All (λ v. length v.items ≤ most_rows) s.rows };
}

impl MemoryShelf {
    /// A shelf with no rows. The commits of `failing`, counted from 1 over the shelf's life, fail.
    pub fn new(alloc: Global, failing: Vec<u32>) -> MemoryShelf
        ensures { result
            ≡ record {
              held = replicate NODES [];
              failing = failing.items;
              calls = 0;
              faults = replicate NODES
                  0;
            } }
    {
        MemoryShelf {
            alloc,
            rows: std::array::from_fn(|_| Vec::new(alloc)),
            failing,
            calls: 0,
            faults: [0; NODES],
        }
    }
}

impl Shelf for MemoryShelf {
    ghost faults = { faults_at };

    ghost held = { λ s node. Some (texts_at s node) };

    /// Answers `Failed` exactly at the commits that are listed, and else `OutOfMemory` where memory is
    /// missing.
    fn commit(&mut self, node: Node, rows: &[Row]) -> Result<(), ShelfError>
        requires continues { ContinueFrom (length (texts_at self.old node)) rows.now }
        requires below_end { All (λ row. row.place < most_rows) rows.now }
        ensures fails { (result
            ≡ Err ShelfError.Failed) ↔ IsTrue (is_listed self.old.failing (raised_by self.old.calls 1)) }
        ensures called { self.new.calls ≡ raised_by self.old.calls 1 }
        ensures same_list { self.new.failing ≡ self.old.failing }
        ensures ok { OnOk result (texts_at self.new node ≡ texts_at self.old node ++ texts_of rows.now) }
        ensures others { (other : ℕ) → other ≢ node → texts_at self.new other ≡ texts_at self.old other }
        ensures unchanged { OnErr result (self.new.held ≡ self.old.held) }
        ensures failed { result ≡ Err ShelfError.Failed
            → faults_at self.new node ≡ raised_by (faults_at self.old node) 1 }
        ensures failed_somewhere { result ≡ Err ShelfError.Failed
            → RoseSomewhere (faults_at self.old) (faults_at self.new) }
        ensures few { (n : ℕ) → length (texts_at self.new n) ≤ most_rows }
        ensures no_fault { result ≢ Err ShelfError.Failed → self.new.faults ≡ self.old.faults }
        ensures never_falls { (n : ℕ) → faults_at self.old n ≤ faults_at self.new n }
        ensures stands_still { (n : ℕ) → faults_at self.old n ≤ count_end → faults_at self.new n ≤ count_end }
        ensures other_faults { (other : ℕ) → other ≢ node
            → faults_at self.new other ≡ faults_at self.old other }
    {
        self.calls = self.calls.saturating_add(1);
        let at = node.get() as usize;
        if is_call_listed(&self.failing, self.calls) {
            self.faults[at] = self.faults[at].saturating_add(1);
            return Err(ShelfError::Failed);
        }
        let mut texts = copy_texts(self.alloc, rows)?;
        self.rows[at].append(&mut texts)?;
        Ok(())
    }

    /// Fails only where memory is missing, and changes nothing.
    fn load(&mut self, node: Node, place: u32) -> Result<Option<Row>, ShelfError>
        ensures text { IfOk result (λ row. option_map (λ r. r.text) row
            ≡ slice_get (texts_at self.old node) place) }
        ensures place { IfOk result (λ row. IfSome row (λ r. r.place ≡ place)) }
        ensures no_row_at_end { place ≡ most_rows → IfOk result (λ row. row ≡ None) }
        ensures few { (n : ℕ) → length (texts_at self.old n) ≤ most_rows }
        ensures no_failure { result ≢ Err ShelfError.Failed }
        ensures unchanged { self.new ≡ self.old }
    {
        match self.rows[node.get() as usize].get(place as usize) {
            Some(text) => Ok(Some(Row {
                place,
                text: text.try_copy()?,
            })),
            None => Ok(None),
        }
    }
}

// The texts of the rows.
fn copy_texts(alloc: Global, rows: &[Row]) -> Result<Vec<List<u8>>, AllocError>
    ensures { IfOk result (λ texts. texts.items ≡ texts_of rows.now) }
{
    let mut texts = Vec::new(alloc);
    for row in rows {
        texts.push(row.text.try_copy()?)?;
    }
    Ok(texts)
}
