//! Laws over the definitions: each is the contract of a function that does nothing.

ghost use Rattle.std.specs.Prelude.{◌≡◌, ℕ, List};
ghost use Rattle.market_events.specs.declared.requests.Request.{Request};
ghost use Rattle.market_events.specs.WellFormed.{IsRequest};
ghost use Rattle.market_history.specs.Acts.{Acts};
ghost use Rattle.market.specs.Agreeing.{HasTables, IsAnswered};
ghost use Rattle.market.specs.Carrying.{Taken, AreRuns, IsNew};
ghost use Rattle.market.specs.Once.{kept_of, of_lane, kept_in_lane};

/// Of what all lanes keep, the requests of one lane are what that lane keeps of its own.
pub fn kept_lane_by_lane()
    ensures { (most lane : ℕ) (given : List Request)
        → of_lane lane (kept_of most given) ≡ kept_in_lane most lane given }
{}

/// Where the sums of the eight services are the tables of the sequential market and no checkout is open, a
/// new request that is carried through the services, body by body until none is left, is a step of the
/// sequential market.
pub fn a_request_is_a_sequential_step()
    ensures { (taken : Taken) (acts : Acts) (r : Request) → AreRuns taken → HasTables taken acts
        → IsNew taken r → IsRequest r → IsAnswered taken acts r }
{}
