//! Requests, replies and bodies of texts.

ghost use Rattle.std.specs.Prelude.{◌≡◌, ◌⊎◌, Ok, Err, IfOk, MatchResult};
ghost use Rattle.market_events.specs.declared.bodies.Body.{Body};
ghost use Rattle.market_events.specs.declared.replies.Reply.{Reply};
ghost use Rattle.market_events.specs.declared.requests.Request.{Request};
ghost use Rattle.market_texts.specs.Readers.{request_of_text, reply_of_text, body_of_text, TellsFault};
ghost use Rattle.market_texts.specs.Readers.{with_fault};
ghost use Rattle.market_events.specs.Texts.{text_of_request, text_of_reply, text_of_body};
ghost use Rattle.market_events.specs.WellFormed.{IsRequest, IsReply, IsBody};

use crate::body_words::body;
use crate::faults::BodyFault;
use crate::reply_words::reply;
use crate::request_words::request;
use crate::words::Words;
use market_events::{Body, Reply, Request};
use std::alloc::Global;

/// Reads the request of a text. A text that is that of no well-formed request is refused by its first fault.
/// It takes no memory, and never answers that memory is wanting.
pub fn read_request(text: &[u8]) -> Result<Request, BodyFault>
    ensures exact { result ≡ with_fault (request_of_text text.now) }

    // A request that is read is well formed, and the text is its text.
    ensures formed { IfOk result IsRequest }
    ensures spelled { IfOk result (λ request. text.now ≡ text_of_request request) }

    // The text of a well-formed request is read as that request.
    ensures reads { (request : Request) → IsRequest request → text.now ≡ text_of_request request
        → result ≡ Ok request }
{
    whole_request(text)
}

/// Reads the reply of a text. A text that is that of no well-formed reply is refused by its first fault.
pub fn read_reply(alloc: Global, text: &[u8]) -> Result<Reply, BodyFault>
    ensures exact { MatchResult result (λ reply. reply_of_text text.now
        ≡ Ok reply) (TellsFault (reply_of_text text.now)) }

    // A reply that is read is well formed, and the text is its text.
    ensures formed { IfOk result IsReply }
    ensures spelled { IfOk result (λ reply. text.now ≡ text_of_reply reply) }

    // The text of a well-formed reply is read as that reply, unless memory is wanting.
    ensures reads { (reply : Reply) → IsReply reply → text.now ≡ text_of_reply reply
        → (result ≡ Ok reply) ⊎ (result ≡ Err BodyFault.OutOfMemory) }
{
    whole_reply(alloc, text)
}

/// Reads the body of a text. A text that is that of no well-formed body is refused by its first fault.
pub fn read_body(alloc: Global, text: &[u8]) -> Result<Body, BodyFault>
    ensures exact { MatchResult result (λ body. body_of_text text.now
        ≡ Ok body) (TellsFault (body_of_text text.now)) }

    // A body that is read is well formed, and the text is its text.
    ensures formed { IfOk result IsBody }
    ensures spelled { IfOk result (λ body. text.now ≡ text_of_body body) }

    // The text of a well-formed body is read as that body, unless memory is wanting.
    ensures reads { (body : Body) → IsBody body → text.now ≡ text_of_body body
        → (result ≡ Ok body) ⊎ (result ≡ Err BodyFault.OutOfMemory) }
{
    whole_body(alloc, text)
}

// The request of all words of a text.
#[tactic(auto, using(crate::proofs::Endings::ended_more))]
fn whole_request(text: &[u8]) -> Result<Request, BodyFault>
    ensures { result ≡ with_fault (request_of_text text.now) }
{
    let mut words = Words::new(text);
    let request = request(&mut words)?;
    words.end()?;
    Ok(request)
}

// The reply of all words of a text.
#[tactic(auto, using(crate::proofs::Endings::ended_more))]
fn whole_reply(alloc: Global, text: &[u8]) -> Result<Reply, BodyFault>
    ensures { MatchResult result (λ reply. reply_of_text text.now
        ≡ Ok reply) (TellsFault (reply_of_text text.now)) }
{
    let mut words = Words::new(text);
    let reply = reply(alloc, &mut words)?;
    words.end()?;
    Ok(reply)
}

// The body of all words of a text.
#[tactic(auto, using(crate::proofs::Endings::ended_more))]
fn whole_body(alloc: Global, text: &[u8]) -> Result<Body, BodyFault>
    ensures { MatchResult result (λ body. body_of_text text.now
        ≡ Ok body) (TellsFault (body_of_text text.now)) }
{
    let mut words = Words::new(text);
    let body = body(alloc, &mut words)?;
    words.end()?;
    Ok(body)
}
