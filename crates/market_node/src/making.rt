//! The events that a step of a service makes.

ghost use Rattle.std.specs.Prelude.{◌≡◌, ◌+◌, ◌-◌, ◌^◌, ◌<◌, ◌≤◌, fold, map, length};
ghost use Rattle.std.specs.List.{AllByRecursion};
ghost use Rattle.market_history.specs.Blocks.{with_out, made_out};
ghost use Rattle.market_history.specs.Stamps.{clock_before};
ghost use Rattle.market_node.specs.ServiceCores.{CanMake};

use crate::recorder::Recorder;
use market_events::Outs;

// Adds that the node made these events, each after those before it. It requires room for them, and takes no
// memory.
pub fn make_all(recorder: &mut Recorder, outs: Outs)
    requires each { AllByRecursion (CanMake recorder.old.node) outs }
    requires room { length outs ≤ recorder.old.room }
    requires few { length recorder.old.entries + length outs < 4_294_967_295 }
    requires clock { clock_before recorder.old.entries + length outs ≤ 2 ^ 62 }
    ensures { recorder.new ≡ record recorder.old {
      entries = fold with_out recorder.old.entries (map made_out outs);
      room = recorder.old.room - length outs;
    } }
{
    let mut outs = outs;
    while let Some((link, body, copy)) = outs.first() {
        recorder.make(link, body, copy);
    }
}
