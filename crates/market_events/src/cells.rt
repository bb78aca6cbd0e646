//! Cells: the pieces that the state of a service is told in.

use market_amounts::List;

/// The name of a cell: its table, and its key there. Names are ordered by the bytes of the table, then of the
/// key.
#[derive(PartialEq, Eq, PartialOrd, Ord, Debug, Drop)]
pub struct CellName {
    pub table: List<u8>,
    pub key: List<u8>,
}

/// A cell: its name, and its value, which is not empty.
#[derive(PartialEq, Debug, Drop)]
pub struct Cell {
    pub name: CellName,
    pub value: List<u8>,
}
