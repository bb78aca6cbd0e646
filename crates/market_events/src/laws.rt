//! Laws over the definitions: each is the contract of a function that does nothing.

ghost use Rattle.std.specs.Prelude.{◌≡◌, List, true};
ghost use Rattle.market_events.specs.declared.bodies.Body.{Body};
ghost use Rattle.market_events.specs.declared.links.Link.{Link};
ghost use Rattle.market_events.specs.AnswerShape.{AreAnswers};
ghost use Rattle.market_events.specs.Services.{Role, answers, fits, IsRunOf};
ghost use Rattle.market_events.specs.Steps.{Step};

/// After any run of a service, an input that fits is answered by at most five well-formed bodies, each on a
/// link of its own that leads out of the service and can carry it, and each of the checkout or the request
/// that the input names.
pub fn answers_have_shape()
    ensures shape { (role : Role) (steps : List Step) (from : Link) (b : Body) → IsRunOf role steps
        → fits role steps from b ≡ true → AreAnswers role b (answers role steps from b) }
{}
