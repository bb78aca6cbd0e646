//! The text of a run: an answer line for each request, and the lines that count.

ghost use Rattle.std.specs.Prelude.{◌≡◌, [], ◌∷◌, ◌++◌, IfOk, OnOk};
ghost use Rattle.std.specs.List.{All};
ghost use Rattle.market_events.specs.Texts.{text_of_reply};
ghost use Rattle.market_events.specs.WellFormed.{IsRequest, IsReply};
ghost use Rattle.market.specs.Output.{count_lines, sequential_output};
ghost use Rattle.market_history.specs.Output.{id_and_space};

use crate::hand::Hand;
use market_amounts::RequestId;
use market_events::{Reply, Request};
use market_texts::reply_text;
use std::alloc::{AllocError, Global};

/// What a run of these requests writes.
pub fn run_text(alloc: Global, requests: &[Request]) -> Result<Vec<u8>, AllocError>
    requires formed { All IsRequest requests.now }
    ensures { IfOk result (λ text. text.items ≡ sequential_output requests.now) }
{
    let mut hand = Hand::new(alloc);
    let mut text = Vec::new(alloc);
    for request in requests {
        let reply = hand.answer(request)?;
        append_answer(alloc, request.id, &reply, &mut text)?;
    }
    append_counts(alloc, hand.len(), hand.whole(), hand.undone(), &mut text)?;
    Ok(text)
}

fn append_answer(
    alloc: Global,
    id: RequestId,
    reply: &Reply,
    text: &mut Vec<u8>,
) -> Result<(), AllocError>
    requires { IsReply reply.now }
    ensures { OnOk result (text.new.items
        ≡ text.old.items ++ (id_and_space id ++ (text_of_reply reply.now ++ 10 ∷ []))) }
{
    let caller = id.caller;
    let number = id.number;
    let id = format!(in alloc; "{caller}.{number} ")?;
    text.extend_from_slice(id.as_bytes())?;
    reply_text(reply, text)?;
    text.push(b'\n')?;
    Ok(())
}

fn append_counts(
    alloc: Global,
    requests: usize,
    whole: usize,
    undone: usize,
    text: &mut Vec<u8>,
) -> Result<(), AllocError>
    ensures { OnOk result (text.new.items ≡ text.old.items ++ count_lines requests whole undone) }
{
    let counts = format!(in alloc;
        "requests {requests}\nwhole {whole}\nundone {undone}\noutstanding 0\n"
    )?;
    text.extend_from_slice(counts.as_bytes())
}
