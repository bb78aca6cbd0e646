//! The table of the requests that a lane keeps.

ghost use Rattle.std.specs.Prelude.{◌≡◌, OnOk, OnErr, if◌then◌else◌};
ghost use Rattle.market_amounts.specs.declared.keys.RequestId.{RequestId};
ghost use Rattle.market_events.specs.Requests.{same_id};
ghost use Rattle.market_node.specs.Keeping.{newly_kept, with_answer, request_places_at};

use market_amounts::RequestId;
use std::alloc::AllocError;
use std::collections::BTreeMap;

// Where in the lane's journal a request was given, and where it was answered, where it was.
#[derive(Clone, Copy)]
pub struct Kept {
    pub given: u32,
    pub answered: Option<u32>,
}

// Keeps a request that was given at this place. On want of memory nothing changes.
pub fn keep(
    table: &mut BTreeMap<RequestId, Kept>,
    id: RequestId,
    given: u32,
) -> Result<(), AllocError>
    ensures each { OnOk result ((other : RequestId) → request_places_at table.new.entries other
        ≡ (if same_id id other then Some (newly_kept given) else request_places_at table.old.entries other)) }
    ensures err { OnErr result (table.new.entries ≡ table.old.entries) }
{
    let kept = Kept {
        given,
        answered: None,
    };
    table.insert(id, kept)?;
    Ok(())
}

// Says at which place a kept request was answered. It takes no memory.
pub fn note_answer(table: &mut BTreeMap<RequestId, Kept>, id: RequestId, place: u32)
    ensures { (other : RequestId) → request_places_at table.new.entries other
        ≡ (if same_id id other then with_answer place (request_places_at table.old.entries other) else
        request_places_at table.old.entries other) }
{
    if let Some(kept) = table.get_mut(&id) {
        kept.answered = Some(place);
    }
}
