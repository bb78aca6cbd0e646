//! The places of the events of each link out of a node, by slot.

ghost use Rattle.std.specs.Prelude.{◌≡◌, ℕ, ◌-◌, ◌<◌, ◌≤◌, [], ◌∷◌, ◌++◌, length, replicate, slice_get};
ghost use Rattle.std.specs.Prelude.{slice_set, IfOk, OnOk};
ghost use Rattle.market_links.specs.declared.slots.TheConstants.{SLOTS};
ghost use Rattle.market_node.specs.Notes.{no_places, at_slot};

use crate::places::Places;
use market_links::SLOTS;
use std::alloc::{AllocError, Global};
use std::marker::Model;

// The places of the events of each link out of a node. Contracts see the places by slot, of which there are
// `SLOTS`.
#[derive(Drop)]
pub struct Lists {
    lists: Vec<Places>,
}

impl Model for Lists {
    ghost use Rattle.std.specs.Prelude.{List, ◌≡◌, length};
    ghost use Rattle.market_links.specs.declared.slots.TheConstants.{SLOTS};
    ghost use Rattle.market_node.specs.PlaceStates.{PlaceState};

    ghost Value = { List PlaceState };

    ghost view = { λ a. a.lists.items };

    ghost invariant = { λ a. length a.lists.items ≡ SLOTS };
}

impl Lists {
    // No place at any slot.
    pub fn new(alloc: Global) -> Result<Lists, AllocError>
        ensures { IfOk result (λ lists. lists ≡ replicate SLOTS no_places) }
    {
        let mut lists = Vec::new(alloc);
        for _slot in 0..SLOTS {
            lists.push(Places::new(alloc))?;
        }
        Ok(Lists { lists })
    }

    // How many places the slot has.
    pub fn len(&self, slot: usize) -> usize
        requires { slot < SLOTS }
        ensures { result ≡ length (at_slot self.now slot).places }
    {
        self.lists[slot].len()
    }

    // The place of the slot with this index, none past the last.
    pub fn get(&self, slot: usize, index: usize) -> Option<u32>
        requires { slot < SLOTS }
        ensures { result ≡ slice_get (at_slot self.now slot).places index }
    {
        self.lists[slot].get(index)
    }

    // Makes room for at least this many more places at each slot. The places stay, and the room that there
    // was.
    pub fn reserve(&mut self, more: u32) -> Result<(), AllocError>
        ensures len { length self.new ≡ length self.old }
        ensures places { (slot : ℕ) → (at_slot self.new slot).places ≡ (at_slot self.old slot).places }
        ensures spare { (slot : ℕ) → (at_slot self.old slot).spare ≤ (at_slot self.new slot).spare }
        ensures room { OnOk result ((slot : ℕ) → slot < SLOTS → more ≤ (at_slot self.new slot).spare) }
    {
        reserve_each(&mut self.lists, more)
    }

    // Adds a place to the slot, for which there is room. It takes no memory.
    pub fn push(&mut self, slot: usize, place: u32)
        requires slot { slot < SLOTS }
        requires room { 0 < (at_slot self.old slot).spare }
        ensures { self.new ≡ slice_set self.old slot (record {
          places = (at_slot self.old slot).places ++ place ∷ [];
          spare = (at_slot self.old slot).spare - 1;
        }) }
    {
        self.lists[slot].push(place);
    }
}

// Makes room for at least this many more places at each of the lists.
fn reserve_each(lists: &mut [Places], more: u32) -> Result<(), AllocError>
    ensures places { (slot : ℕ) → (at_slot lists.new slot).places ≡ (at_slot lists.old slot).places }
    ensures spare { (slot : ℕ) → (at_slot lists.old slot).spare ≤ (at_slot lists.new slot).spare }
    ensures room { OnOk result ((slot : ℕ) → slot < length lists.new
        → more ≤ (at_slot lists.new slot).spare) }
{
    for list in lists.iter_mut() {
        list.reserve(more)?;
    }
    Ok(())
}
