//! The last status of each entry.

ghost use Rattle.std.specs.Prelude.{◌≡◌, IfOk};
ghost use Rattle.market_events.specs.Sellers.{SellerChange, status_at};
ghost use Rattle.seller_service.specs.Dashboards.{id_at, status_in_table};

use crate::change::{Change, EntryId, id_of};
use market_events::OrderStatus;
use std::alloc::{AllocError, Global};
use std::collections::BTreeMap;
use std::marker::Model;

/// The last status of each entry of a seller. Contracts see them by rising entry.
#[derive(Debug, Drop)]
pub struct Statuses {
    by_entry: BTreeMap<EntryId, OrderStatus>,
}

impl Model for Statuses {
    ghost use Rattle.std.specs.Prelude.{List};
    ghost use Rattle.market_events.specs.declared.replies.OrderStatus.{OrderStatus};
    ghost use Rattle.seller_service.specs.declared.change.EntryId.{EntryId};

    ghost Value = { List (EntryId × OrderStatus) };

    ghost view = { λ statuses. statuses.by_entry.entries };
}

impl Statuses {
    /// The last status of each entry that these changes are of.
    pub fn of(alloc: Global, changes: &[Change]) -> Result<Statuses, AllocError>
        ensures { IfOk result (λ statuses. (entry : SellerChange) →
            status_in_table statuses (id_at entry) ≡ status_at changes.now entry) }
    {
        let mut by_entry = BTreeMap::new(alloc);
        for change in changes {
            by_entry.insert(id_of(change), change.status)?;
        }
        Ok(Statuses { by_entry })
    }

    /// The last status of the entry that a change is of.
    pub fn last(&self, change: &Change) -> Option<OrderStatus>
        ensures { result ≡ status_in_table self.now (id_at change.now) }
    {
        self.by_entry.get(&id_of(change)).copied()
    }
}
