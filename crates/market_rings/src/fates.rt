//! Fates: what becomes of the packets that are sent.

ghost use Rattle.std.specs.Prelude.{◌≡◌, ◌<◌, [], ◌∷◌, ◌++◌, length, slice_index_or, slice_set, OnErr, OnOk};
ghost use Rattle.market_links.specs.declared.slots.TheConstants.{SLOTS};
ghost use Rattle.market_rings.specs.Fates.{fates_at, with_fates};
ghost use Rattle.market_rings.specs.Pushes.{next_fate, fates_after_one};

use std::alloc::AllocError;
use std::marker::Model;

/// The two ways of a link.
#[derive(Clone, Copy, Debug, PartialEq, Eq)]
pub enum Way {
    /// From the sender to the receiver: events.
    Carry,
    /// From the receiver to the sender: counts of the events that were taken.
    Ack,
}

/// What becomes of a packet that is sent.
#[derive(Clone, Copy, Debug, PartialEq, Eq)]
pub enum Fate {
    /// It is pushed once.
    Pass,
    /// It is not pushed.
    Lose,
    /// It is pushed twice.
    Twice,
    /// It is pushed when packets are sent next on its ring, after those, and meets no further fate.
    Hold,
}

/// The fates that are still to be used, in order. Contracts see the list of them.
#[derive(Debug, Drop)]
pub struct FateList {
    fates: Vec<Fate>,
    // The first `used` of them were used.
    used: usize,
}

impl Model for FateList {
    ghost use Rattle.std.specs.Prelude.{List, ◌≤◌, drop, vec_len};
    ghost use Rattle.market_rings.specs.declared.fates.Fate.{Fate};

    ghost Value = { List Fate };

    ghost view = { λ list. drop list.used list.fates.items };

    ghost invariant = { λ list. list.used ≤ vec_len list.fates };
}

impl FateList {
    /// These fates, none of which was used.
    pub fn new(fates: Vec<Fate>) -> FateList
        ensures { result ≡ fates.items }
    {
        FateList { fates, used: 0 }
    }

    /// Appends a fate. On want of memory the list is as before.
    pub fn push(&mut self, fate: Fate) -> Result<(), AllocError>
        ensures ok { OnOk result (self.new ≡ self.old ++ fate ∷ []) }
        ensures err { OnErr result (self.new ≡ self.old) }
    {
        self.fates.push(fate)?;
        Ok(())
    }

    /// Uses the next fate: Pass, where none is left.
    pub fn next(&mut self) -> Fate
        ensures next { result ≡ next_fate self.old }
        ensures left { self.new ≡ fates_after_one self.old }
    {
        match self.fates.get(self.used) {
            Some(fate) => {
                let fate = *fate;
                self.used += 1;
                fate
            }
            None => Fate::Pass,
        }
    }
}

/// The fates that a node has still to use: a list for each link out of it and a list for each link into it,
/// by slot. Contracts see the two lists of lists.
#[derive(Debug, Drop)]
pub struct Fates {
    pub(crate) carry: Vec<FateList>,
    pub(crate) ack: Vec<FateList>,
}

impl Model for Fates {
    ghost use Rattle.std.specs.Prelude.{◌≡◌, length};
    ghost use Rattle.market_links.specs.declared.slots.TheConstants.{SLOTS};
    ghost use Rattle.market_rings.specs.Fates.{FatesLeft};

    ghost Value = { FatesLeft };

    ghost view = { λ fates. record { carry = fates.carry.items; ack = fates.ack.items } };

    ghost invariant = { λ fates. (length fates.carry.items ≡ SLOTS) × (length fates.ack.items ≡ SLOTS) };
}

impl Fates {
    /// The fates of events, by the slot of the link out of the node, and of counts, by the slot of the link
    /// into it. It requires a list for each slot.
    pub fn new(carry: Vec<FateList>, ack: Vec<FateList>) -> Fates
        requires carry { length carry.items ≡ SLOTS }
        requires ack { length ack.items ≡ SLOTS }
        ensures { result ≡ record { carry = carry.items; ack = ack.items } }
    {
        Fates { carry, ack }
    }

    /// Appends a fate to those of a slot. On want of memory the fates are as before.
    pub fn add(&mut self, way: Way, slot: usize, fate: Fate) -> Result<(), AllocError>
        requires { slot < SLOTS }
        ensures ok { OnOk result
            (self.new ≡ with_fates self.old way slot (fates_at self.old way slot ++ fate ∷ [])) }
        ensures err { OnErr result (self.new ≡ self.old) }
    {
        match way {
            Way::Carry => self.carry[slot].push(fate),
            Way::Ack => self.ack[slot].push(fate),
        }
    }

    /// Uses the next fate of a slot: Pass, where none is left.
    pub fn next(&mut self, way: Way, slot: usize) -> Fate
        ensures next { result ≡ next_fate (fates_at self.old way slot) }
        ensures left { self.new
            ≡ with_fates self.old way slot (fates_after_one (fates_at self.old way slot)) }
    {
        match way {
            Way::Carry => next_at(&mut self.carry, slot),
            Way::Ack => next_at(&mut self.ack, slot),
        }
    }
}

// Uses the next fate of the list with this index: Pass, where none is left or there is no such list.
fn next_at(lists: &mut [FateList], index: usize) -> Fate
    ensures next { result ≡ next_fate (slice_index_or lists.old index []) }
    ensures left { lists.new
        ≡ slice_set lists.old index (fates_after_one (slice_index_or lists.old index [])) }
{
    if index >= lists.len() {
        return Fate::Pass;
    }
    lists[index].next()
}
