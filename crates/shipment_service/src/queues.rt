//! The queues of the sellers.

ghost use Rattle.std.specs.Prelude.{◌≡◌, ℕ, ◌-◌, ◌++◌, ◌==◌, [], ◌∷◌, ◌↔◌, IsTrue, IsSome, None, length};
ghost use Rattle.std.specs.Prelude.{take, filter_map, if◌then◌else◌, OnOk, OnErr, IfOk};
ghost use Rattle.market_events.specs.Entries.{entry_at};
ghost use Rattle.shipment_service.specs.Tables.{put_at, queue_at, group_of, groups_of, behind_of};
ghost use Rattle.shipment_service.specs.Tables.{follower_of, served_queue};

use crate::picked::Picked;
use crate::queue::Queue;
use market_events::Item;
use std::alloc::{AllocError, Global};
use std::collections::BTreeMap;
use std::marker::Model;

/// The queue of each seller. Contracts see them by rising seller; a seller without a queue has no open
/// package.
#[derive(Debug, Drop)]
pub struct Queues {
    by_seller: BTreeMap<u32, Queue>,
}

impl Model for Queues {
    ghost use Rattle.std.specs.Prelude.{ℕ, List};
    ghost use Rattle.market_events.specs.declared.bodies.Item.{Item};

    ghost Value = { List (ℕ × List (ℕ × Item)) };

    ghost view = { λ queues. queues.by_seller.entries };
}

impl Queues {
    /// No queues. It takes no memory.
    pub fn new(alloc: Global) -> Queues
        ensures { result ≡ [] }
    {
        Queues {
            by_seller: BTreeMap::new(alloc),
        }
    }

    // Makes an empty queue for a seller who has none.
    fn make_room(&mut self, alloc: Global, seller: u32) -> Result<(), AllocError>
        ensures same { (s : ℕ) → queue_at self.new s ≡ queue_at self.old s }
        ensures there { OnOk result (IsSome (entry_at self.new seller)) }
    {
        if !self.by_seller.contains_key(&seller) {
            self.by_seller.insert(seller, Queue::new(alloc))?;
        }
        Ok(())
    }

    /// Whether a seller has no open package.
    pub fn is_idle(&self, seller: u32) -> bool
        ensures { IsTrue result ↔ (queue_at self.now seller ≡ []) }
    {
        match self.by_seller.get(&seller) {
            Some(queue) => queue.is_empty(),
            None => true,
        }
    }

    /// Puts a package behind the others of its seller. On want of memory no queue changes.
    pub fn line_up(&mut self, alloc: Global, number: u32, item: Item) -> Result<(), AllocError>
        ensures ok { OnOk result ((s : ℕ) → let was = queue_at self.old s in
            queue_at self.new s ≡ (if s == item.key.seller then was ++ (number, item) ∷ [] else was)) }
        ensures err { OnErr result ((s : ℕ) → queue_at self.new s ≡ queue_at self.old s) }
    {
        let seller = item.key.seller;
        self.make_room(alloc, seller)?;
        match self.by_seller.get_mut(&seller) {
            Some(queue) => queue.push(number, item),
            None => Ok(()),
        }
    }

    /// Takes the last package of a seller away. It takes no memory.
    pub fn step_back(&mut self, seller: u32)
        ensures { (s : ℕ) → let was = queue_at self.old s in
            queue_at self.new s ≡ (if s == seller then take (length was - 1) was else was) }
    {
        if let Some(queue) = self.by_seller.get_mut(&seller) {
            queue.take_back();
        }
    }

    // Picks the packages of a seller that are of the checkout of its oldest one.
    fn pick_of(&self, alloc: Global, seller: u32, picked: &mut Picked) -> Result<(), AllocError>
        ensures { OnOk result ((n : ℕ) →
            entry_at picked.new n ≡ put_at n (entry_at picked.old n) (group_of (queue_at self.now seller))) }
    {
        let Some(queue) = self.by_seller.get(&seller) else {
            return Ok(());
        };
        let group = queue.group(alloc)?;
        picked.put_all(group.as_slice())
    }

    /// Picks the packages of these sellers.
    pub fn pick(&self, alloc: Global, served: &[(u32, u32)]) -> Result<Picked, AllocError>
        ensures { IfOk result (λ picked. (n : ℕ) →
            entry_at picked n ≡ put_at n None (groups_of self.now served.now)) }
    {
        let mut picked = Picked::new(alloc);
        for turn in served {
            self.pick_of(alloc, turn.1, &mut picked)?;
        }
        Ok(picked)
    }

    // The number of the package that will be the oldest one of a turn's seller, with the seller.
    fn follower(&self, turn: &(u32, u32)) -> Option<(u32, u32)>
        ensures { result ≡ follower_of self.now turn.now }
    {
        let queue = self.by_seller.get(&turn.1)?;
        let number = queue.follower()?;
        Some((number, turn.1))
    }

    /// The same of all turns.
    pub fn followers(
        &self,
        alloc: Global,
        served: &[(u32, u32)],
    ) -> Result<Vec<(u32, u32)>, AllocError>
        ensures { IfOk result (λ next. next.items ≡ filter_map (follower_of self.now) served.now) }
    {
        served
            .iter()
            .filter_map(|turn| self.follower(turn))
            .collect(alloc)
    }

    // Takes the packages of a seller away that are of the checkout of its oldest one.
    fn serve_one(&mut self, seller: u32)
        ensures { (s : ℕ) → let was = queue_at self.old s in
            queue_at self.new s ≡ (if seller == s then behind_of was else was) }
    {
        if let Some(queue) = self.by_seller.get_mut(&seller) {
            queue.serve();
        }
    }

    /// The same of these sellers. It takes no memory.
    pub fn serve(&mut self, served: &[(u32, u32)])
        ensures { (s : ℕ) → queue_at self.new s ≡ served_queue s (queue_at self.old s) served.now }
    {
        for turn in served {
            self.serve_one(turn.1);
        }
    }
}
