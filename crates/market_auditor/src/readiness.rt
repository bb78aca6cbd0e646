//! The watcher of readiness.

ghost use Rattle.std.specs.Prelude.{◌≡◌, ℕ, [], true};
ghost use Rattle.market_auditor.specs.declared.verdicts.Criterion.TheVariants.{C4};
ghost use Rattle.market_auditor.specs.Readiness.{SawReady};
ghost use Rattle.market_events.specs.Offers.{is_ready as readiness_of};
ghost use Rattle.market_history.specs.Histories.{Histories};

use crate::clocks::raise;
use crate::watching::Watcher;
use market_events::{Counts, Entry, Link, Node, SERVICE_LINKS, What, receiver_of};
use std::alloc::AllocError;

// How many events of each service link the node took.
#[derive(Drop)]
pub struct Readiness {
    node: Node,
    taken: Counts,
}

impl Readiness {
    // Nothing was seen.
    pub fn new(node: Node) -> Readiness
        ensures { (h : Histories) → SawReady result h node [] }
    {
        Readiness {
            node,
            taken: Counts::zero(),
        }
    }
}

impl Watcher for Readiness {
    ghost criterion = { C4 };

    ghost saw = { SawReady };

    fn look(&mut self, entry: &Entry) -> Result<bool, AllocError> {
        let event = match &entry.what {
            What::Taken(event) => event,
            What::Given(_request) => return Ok(true),
            What::Made(_event) => return Ok(true),
            What::Answered(_id, _reply) => return Ok(true),
        };
        let right = is_ready(self.node, &self.taken, &event.past);
        raise(&mut self.taken, event.link, event.number);
        Ok(right)
    }

    fn may_end(&self) -> bool {
        true
    }
}

// Whether no service link into the node is needed further than it was taken.
fn is_ready(node: Node, taken: &Counts, past: &Counts) -> bool
    ensures { result ≡ readiness_of node taken.now past.now }
{
    for number in 0..SERVICE_LINKS as u8 {
        if receiver_of(Link::Service(number)) == node && past.get(number) > taken.get(number) {
            return false;
        }
    }
    true
}
