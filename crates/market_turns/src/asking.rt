//! How a lane goes through its queue.

ghost use Rattle.std.specs.Prelude.{◌≡◌, OnOk};
ghost use Rattle.market_node.specs.Cores.{with_entries};
ghost use Rattle.market_turns.specs.Queues.{CanAsk, queue_after, with_queue};

use market_events::Request;
use market_history::Give;
use market_node::LaneCore;
use std::alloc::AllocError;
use std::collections::VecDeque;

// Gives the lane the requests of its queue, until one is asked, one has to wait or none is left. One that has
// to wait stays in the queue.
pub fn ask_next(core: &mut LaneCore, queue: &mut VecDeque<Request>) -> Result<(), AllocError>
    requires { CanAsk core.old.node core.old.entries queue.old.items }
    ensures asked { OnOk result (core.new
        ≡ with_entries core.old (with_queue core.old.node core.old.entries queue.old.items)) }
    ensures left { OnOk result (queue.new.items ≡ queue_after core.old.entries queue.old.items) }
{
    while let Some(request) = queue.front() {
        let give = core.give(request)?;
        if give == Give::Waiting {
            return Ok(());
        }
        queue.pop_front();
        if give == Give::Asked {
            return Ok(());
        }
    }
    Ok(())
}
