//! Laws over the definitions: each is the contract of a function that does nothing.

ghost use Rattle.std.specs.Prelude.{◌≡◌, ◌↔◌, ℕ, List, Ok};
ghost use Rattle.market_events.specs.declared.bodies.Body.{Body};
ghost use Rattle.market_events.specs.declared.replies.Reply.{Reply};
ghost use Rattle.market_events.specs.declared.requests.Request.{Request};
ghost use Rattle.market_events.specs.Texts.{text_of_request, text_of_reply, text_of_body};
ghost use Rattle.market_events.specs.WellFormed.{IsRequest, IsReply, IsBody};
ghost use Rattle.market_texts.specs.Readers.{request_of_text, reply_of_text, body_of_text};

/// Each well-formed value has exactly one text, and no two values share one.
pub fn values_have_texts()
    ensures requests_read { (r : Request) (t : List ℕ) → IsRequest r
        → (request_of_text t ≡ Ok r) ↔ (t ≡ text_of_request r) }
    ensures requests_apart { (q r : Request) → IsRequest q → IsRequest r
        → text_of_request q ≡ text_of_request r → q ≡ r }
    ensures requests_formed { (t : List ℕ) (r : Request) → request_of_text t ≡ Ok r → IsRequest r }
    ensures replies_read { (r : Reply) (t : List ℕ) → IsReply r
        → (reply_of_text t ≡ Ok r) ↔ (t ≡ text_of_reply r) }
    ensures replies_apart { (q r : Reply) → IsReply q → IsReply r → text_of_reply q ≡ text_of_reply r
        → q ≡ r }
    ensures replies_formed { (t : List ℕ) (r : Reply) → reply_of_text t ≡ Ok r → IsReply r }
    ensures bodies_read { (b : Body) (t : List ℕ) → IsBody b
        → (body_of_text t ≡ Ok b) ↔ (t ≡ text_of_body b) }
    ensures bodies_apart { (a b : Body) → IsBody a → IsBody b → text_of_body a ≡ text_of_body b → a ≡ b }
    ensures bodies_formed { (t : List ℕ) (b : Body) → body_of_text t ≡ Ok b → IsBody b }
{}
