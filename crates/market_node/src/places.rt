//! The places in a journal at which the events of a link stand.

ghost use Rattle.std.specs.Prelude.{◌≡◌, ◌+◌, ◌-◌, ◌<◌, ◌≤◌, [], ◌∷◌, ◌++◌, length, slice_get, OnOk, OnErr};

use std::alloc::{AllocError, Global};
use std::marker::Model;

// The places of a link's events, in order. Contracts see the places, and for how many more there is room for
// sure.
#[derive(Drop)]
pub struct Places {
    places: Vec<u32>,
    spare: u32,
}

impl Model for Places {
    ghost use Rattle.std.specs.Prelude.{◌+◌, ◌≤◌, vec_len, vec_capacity};
    ghost use Rattle.market_node.specs.PlaceStates.{PlaceState};

    ghost Value = { PlaceState };

    ghost view = { λ p. record { places = p.places.items; spare = p.spare } };

    ghost invariant = { λ p. vec_len p.places + p.spare ≤ vec_capacity p.places };
}

impl Places {
    // No place, and no room.
    pub fn new(alloc: Global) -> Places
        ensures { result ≡ record { places = []; spare = 0 } }
    {
        Places {
            places: Vec::new(alloc),
            spare: 0,
        }
    }

    // How many places there are.
    pub fn len(&self) -> usize
        ensures { result ≡ length self.now.places }
    {
        self.places.len()
    }

    // The place with this index, none past the last.
    pub fn get(&self, index: usize) -> Option<u32>
        ensures { result ≡ slice_get self.now.places index }
    {
        self.places.get(index).copied()
    }

    // Makes room for at least this many more. On want of memory nothing changes.
    pub fn reserve(&mut self, more: u32) -> Result<(), AllocError>
        ensures places { self.new.places ≡ self.old.places }
        ensures room { OnOk result (more ≤ self.new.spare) }
        ensures spare { self.old.spare ≤ self.new.spare }
        ensures err { OnErr result (self.new ≡ self.old) }
    {
        if more > self.spare {
            self.places.reserve(more as usize)?;
            self.spare = more;
        }
        Ok(())
    }

    // Adds a place, for which there is room. It takes no memory.
    pub fn push(&mut self, place: u32)
        requires { 0 < self.old.spare }
        ensures { self.new ≡ record { places = self.old.places ++ place ∷ []; spare = self.old.spare - 1 } }
    {
        let _ = self.places.push(place);
        self.spare -= 1;
    }
}
