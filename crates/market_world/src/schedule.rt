//! Schedules, played on a world.

ghost use Rattle.std.specs.Prelude.{◌≡◌, ℕ, ◌≤◌, length, take, IfOk, OnOk, OnErr};
ghost use Rattle.std.specs.List.{AllByRecursion};
ghost use Rattle.market_history.specs.Outstanding.{IsSettled};
ghost use Rattle.market_history.specs.Schedule.{IsPlayable, outcomes, play};
ghost use Rattle.market_world.specs.Sound.{IsSound, IsComplete};

use crate::world::World;
use market_history::{Outcome, Step};
use std::alloc::AllocError;

/// Plays the steps, one after the other, and says what comes of each. It requires well-formed requests, and
/// links with their numbers in their ranges. On want of memory some first steps were played.
///
/// Whatever the steps are, the histories that they leave are sound: lawful, with the pieces that stock has
/// reserved those of checkouts under way and no more sold than stocked, with copies that show some first
/// changes of the products, and with no event taken before one that is before it. And where no event is
/// outstanding every checkout is whole or undone, and every table is the sum of what was accepted.
pub fn run_schedule(world: &mut World, steps: &[Step]) -> Result<Vec<Outcome>, AllocError>
    requires { AllByRecursion IsPlayable steps.now }
    ensures outcomes { IfOk result (λ seen. seen.items ≡ outcomes world.old steps.now) }
    ensures histories { OnOk result (world.new ≡ play world.old steps.now) }
    ensures some { OnErr result ((first : ℕ) × (first ≤ length steps.now)
        × (world.new ≡ play world.old (take first steps.now))) }

    // What is left is sound, and it is complete where no event is outstanding.
    ensures sound { IsSound world.new }
    ensures complete { IsSettled world.new → IsComplete world.new }
{
    let mut seen = Vec::new(world.alloc());
    for step in steps {
        let outcome = world.play(step)?;
        seen.push(outcome)?;
    }
    Ok(seen)
}
