//! What the auditor says of histories.

use market_amounts::List;
use market_events::Node;
use market_history::Summary;

/// What histories are held to, in the order in which it is looked for.
#[derive(Clone, Copy, Debug, PartialEq, Eq, PartialOrd, Ord)]
pub enum Criterion {
    /// In a store: each row that is held is read as the row of its node and place.
    C0,
    /// In each journal and for each link, the numbers of the events that were made, and of those that were
    /// taken, are 1, 2 and so on.
    C1,
    /// Each event that was taken is the event of its link and number that its sender made.
    C2,
    /// Each entry has its clock, and each event that was made has the past that its sender knew.
    C3,
    /// Each event was taken when it could be.
    C4,
    /// Each event that a service took is followed by exactly what the service makes of it.
    C5,
    /// Each request that a lane was given is followed by its question, and each reply that it was told by its
    /// answer; a request is given once, while no other one waits.
    C6,
}

/// The first place at which histories are not lawful.
#[derive(Debug, Drop, PartialEq)]
pub struct Difference {
    /// What does not hold there.
    pub criterion: Criterion,
    pub node: Node,
    /// The place of the entry in the node's journal, from 0, or the journal's length where an entry is
    /// missing at its end.
    pub place: u32,
    /// The text of what stands there.
    pub kept: List<u8>,
    /// The text of what should stand there.
    pub expected: List<u8>,
}

/// What the auditor says of histories.
#[derive(Debug, Drop, PartialEq)]
pub enum Verdict {
    /// They are lawful; what they come to.
    Yes(Summary),
    /// They are not lawful: the first difference.
    No(Difference),
}
