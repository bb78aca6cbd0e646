//! Events that were made and not taken.

ghost use Rattle.std.specs.Prelude.{◌≡◌, ◌↔◌, IsTrue, IsNone, IfSome};
ghost use Rattle.std.specs.Option.{option_copied};
ghost use Rattle.market_events.specs.declared.events.Offer.TheVariants as offer;
ghost use Rattle.market_events.specs.Links.{IsLink};
ghost use Rattle.market_history.specs.declared.schedule.Outcome.TheVariants as outcome;
ghost use Rattle.market_history.specs.declared.schedule.Step.TheVariants as step;
ghost use Rattle.market_history.specs.Outstanding.{IsSettled, IsOldest, is_no_later};
ghost use Rattle.market_history.specs.Schedule.{outcome_of};
ghost use Rattle.market_world.specs.Sound.{IsComplete};
ghost use Rattle.market_world.specs.Waiting.{older_of};

use crate::world::World;
use market_events::{Event, LINKS, Link, link_at, sender_of};

/// Whether no event is outstanding: each that was made was taken. Then every kept request has its reply,
/// every checkout is whole or undone, and every table is the sum of what was accepted. It takes no memory.
pub fn settled(world: &World) -> bool
    ensures settled { IsTrue result ↔ IsSettled world.now }
    ensures complete { IsTrue result → IsComplete world.now }
{
    for index in 0..LINKS {
        if world.waiting(link_at(index)).is_some() {
            return false;
        }
    }
    true
}

/// The link and the number of the outstanding event with the least clock, and of those with the least sending
/// node; none where no event is outstanding. Where it is offered, it is taken. It takes no memory.
pub fn oldest(world: &World) -> Option<(Link, u32)>
    ensures none { IsNone result ↔ IsSettled world.now }
    ensures link { IfSome result (λ found. IsLink found.0) }
    ensures oldest { IfSome result (λ found. IsOldest world.now found.0 found.1) }
    ensures taken { IfSome result (λ found. outcome_of world.now (step.Offer found.0 found.1)
        ≡ outcome.Offered offer.Take) }
{
    let mut found: Option<&Event> = None;
    for index in 0..LINKS {
        found = older(found, world.waiting(link_at(index)));
    }
    let event = found?;
    Some((event.link, event.number))
}

// The older of two events, where there are any.
fn older<'a>(found: Option<&'a Event>, first: Option<&'a Event>) -> Option<&'a Event>
    requires found { IfSome (option_copied found) (λ before. IsLink before.link) }
    requires first { IfSome (option_copied first) (λ event. IsLink event.link) }
    ensures { option_copied result ≡ older_of (option_copied found.entry) (option_copied first.entry) }
{
    let Some(event) = first else {
        return found;
    };
    match found {
        Some(before) if is_no_later(before, event) => Some(before),
        _ => Some(event),
    }
}

// Whether the first comes before the second, or with it: by clock, and by the sender where the clocks are
// equal.
fn is_no_later(a: &Event, b: &Event) -> bool
    requires first { IsLink a.now.link }
    requires second { IsLink b.now.link }
    ensures { result ≡ is_no_later a.now b.now }
{
    a.clock < b.clock || (a.clock == b.clock && sender_of(a.link).get() <= sender_of(b.link).get())
}
