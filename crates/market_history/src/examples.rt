//! Examples of the definitions, worked out by hand: each is a clause of a function that does nothing.

ghost use Rattle.market_history.specs.ExamplesBase.{BaseExamples};
ghost use Rattle.market_history.specs.ExamplesCausal.{CausalExamples};
ghost use Rattle.market_history.specs.ExamplesCreate.{CreateExamples};
ghost use Rattle.market_history.specs.ExamplesLane.{LaneExamples};
ghost use Rattle.market_history.specs.ExamplesLinks.{LinkExamples};

/// The histories that one request to create a product leaves: clocks, numbers and pasts, and the schedule by
/// which they came.
#[tactic(auto, using(crate::proofs::ExamplesCreate::create_examples))]
pub fn create_examples()
    ensures { CreateExamples }
{}

/// A schedule in which events are offered before what they rest on was taken: what comes of each step.
#[tactic(auto, using(crate::proofs::ExamplesCausal::causal_examples))]
pub fn causal_examples()
    ensures { CausalExamples }
{}

/// What a lane does with requests: those that it keeps, and others.
#[tactic(auto, using(crate::proofs::ExamplesLane::lane_examples))]
pub fn lane_examples()
    ensures { LaneExamples }
{}

/// A checkout that is whole: what was accepted, the tables, and the book.
#[tactic(auto, using(crate::proofs::ExamplesBase::base_examples))]
pub fn base_examples()
    ensures { BaseExamples }
{}

/// The journal of two changes: what is known in it, clocks, pasts and numbers, and what is before what.
#[tactic(auto, using(crate::proofs::ExamplesLinks::link_examples))]
pub fn link_examples()
    ensures { LinkExamples }
{}
